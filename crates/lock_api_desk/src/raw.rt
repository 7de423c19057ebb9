//! What a desk stands on.
ghost use Rattle.std.specs.Prelude.{◌≡◌, ℕ, Bool, ◌<◌, ◌≤◌, nat_le, is_some, is_ok, if◌then◌else◌, MatchResult};
ghost use Rattle.lock_api_desk.specs.declared.mode.Mode.TheVariants.{Shared, Exclusive, Upgradable};
ghost use Rattle.lock_api_desk.specs.Out.{Out, admits, one_more, one_less, readers_out, count_in};

/// The holds of one lock that are out, without numbers or parties.
///
/// An admission issues a token, and a release or a conversion spends it: each asks that a hold of its mode is out. A
/// raw state refuses by None or by handing the token back, and a refusal changes nothing. Nothing here takes memory.
/// A token may be dropped, since a desk that is let go lets its guards go with their raw state.
///
/// ```text
/// let reader = state.try_shared();   // Some(token)
/// let full = state.readers_full();   // false, of 8
/// if let Some(token) = reader { state.release_shared(token); }
/// ```
pub trait RawState {
    /// The token of a shared hold.
    type Shared: Drop;

    /// The token of an exclusive hold.
    type Exclusive: Drop;

    /// The token of an upgradable hold.
    type Upgradable: Drop;

    /// How many holds of each mode are out.
    ghost out: { Self → Out };

    /// The limit of readers.
    ghost limit_of: { Self → ℕ };

    /// The limit of readers, which is at least 1.
    fn limit(&self) -> u64
        ensures value { result ≡ limit_of self.now }
        ensures some { 1 ≤ result };

    /// Whether the shared and upgradable holds that are out reach the limit.
    fn readers_full(&self) -> bool
        ensures { result ≡ nat_le (limit_of self.now) (readers_out (out self.now)) };

    /// A shared hold, where no exclusive one is out and the limit allows it.
    fn try_shared(&mut self) -> Option<Self::Shared>
        ensures given { is_some result ≡ admits (limit_of self.old) Shared (out self.old) }
        ensures out { out self.new ≡ (if is_some result then one_more Shared (out self.old) else out self.old) }
        ensures limit { limit_of self.new ≡ limit_of self.old };

    /// The exclusive hold, where nothing is out.
    fn try_exclusive(&mut self) -> Option<Self::Exclusive>
        ensures given { is_some result ≡ admits (limit_of self.old) Exclusive (out self.old) }
        ensures out { out self.new ≡ (if is_some result then one_more Exclusive (out self.old) else out self.old) }
        ensures limit { limit_of self.new ≡ limit_of self.old };

    /// The upgradable hold, where neither an exclusive nor an upgradable one is out and the limit allows it.
    fn try_upgradable(&mut self) -> Option<Self::Upgradable>
        ensures given { is_some result ≡ admits (limit_of self.old) Upgradable (out self.old) }
        ensures out { out self.new ≡ (if is_some result then one_more Upgradable (out self.old) else out self.old) }
        ensures limit { limit_of self.new ≡ limit_of self.old };

    /// The exclusive hold for the upgradable one, where that is the only one out. Else the token comes back.
    fn try_upgrade(&mut self, token: Self::Upgradable) -> Result<Self::Exclusive, Self::Upgradable>
        requires { 0 < (out self.old).upgradable }
        ensures given { is_ok result ≡ admits (limit_of self.old) Exclusive (one_less Upgradable (out self.old)) }
        ensures out { out self.new
            ≡ (if is_ok result then one_more Exclusive (one_less Upgradable (out self.old)) else out self.old) }
        ensures limit { limit_of self.new ≡ limit_of self.old }
        ensures kept { MatchResult result (λ _. Unit {0}) (λ back. back ≡ token) };

    /// A shared hold for the exclusive one.
    fn downgrade(&mut self, token: Self::Exclusive) -> Self::Shared
        requires { 0 < (out self.old).exclusive }
        ensures out { out self.new ≡ one_more Shared (one_less Exclusive (out self.old)) }
        ensures limit { limit_of self.new ≡ limit_of self.old };

    /// An upgradable hold for the exclusive one.
    fn downgrade_to_upgradable(&mut self, token: Self::Exclusive) -> Self::Upgradable
        requires { 0 < (out self.old).exclusive }
        ensures out { out self.new ≡ one_more Upgradable (one_less Exclusive (out self.old)) }
        ensures limit { limit_of self.new ≡ limit_of self.old };

    /// A shared hold for the upgradable one.
    fn downgrade_upgradable(&mut self, token: Self::Upgradable) -> Self::Shared
        requires { 0 < (out self.old).upgradable }
        ensures out { out self.new ≡ one_more Shared (one_less Upgradable (out self.old)) }
        ensures limit { limit_of self.new ≡ limit_of self.old };

    /// Spends the token of a shared hold.
    fn release_shared(&mut self, token: Self::Shared)
        requires { 0 < (out self.old).shared }
        ensures out { out self.new ≡ one_less Shared (out self.old) }
        ensures limit { limit_of self.new ≡ limit_of self.old };

    /// Spends the token of the exclusive hold.
    fn release_exclusive(&mut self, token: Self::Exclusive)
        requires { 0 < (out self.old).exclusive }
        ensures out { out self.new ≡ one_less Exclusive (out self.old) }
        ensures limit { limit_of self.new ≡ limit_of self.old };

    /// Spends the token of the upgradable hold.
    fn release_upgradable(&mut self, token: Self::Upgradable)
        requires { 0 < (out self.old).upgradable }
        ensures out { out self.new ≡ one_less Upgradable (out self.old) }
        ensures limit { limit_of self.new ≡ limit_of self.old };
}
