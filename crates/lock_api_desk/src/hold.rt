//! Guards with the tokens of their holds.
ghost use Rattle.std.specs.Prelude.{◌≡◌, true, false, ◌<◌, IsTrue, OnOk};
ghost use Rattle.lock_api_desk.specs.Out.{admits, one_more, one_less, count_in};
ghost use Rattle.lock_api_desk.specs.Entries.{mode_of, aside_of, suits, guard_in, less, more};

use crate::mode::Mode;
use crate::raw::RawState;

/// What a guard has: the token of its hold, or the mode that it keeps while it is set aside.
#[derive(Drop)]
pub(crate) enum Hold<S, E, U> {
    Shared(S),
    Exclusive(E),
    Upgradable(U),
    Aside(Mode),
}

/// A guard of a desk.
#[derive(Drop)]
pub(crate) struct Entry<S, E, U> {
    pub number: u64,
    pub party: u64,
    pub hold: Hold<S, E, U>,
}

/// What a call asks of its guard.
#[derive(Clone, Copy)]
pub(crate) enum Suit {
    /// That it is held.
    Held,
    /// That it is held in this mode.
    In(Mode),
    /// That it is set aside.
    Aside,
}

/// The holds of a raw state.
pub(crate) type HoldOf<R> = Hold<
    <R as RawState>::Shared,
    <R as RawState>::Exclusive,
    <R as RawState>::Upgradable,
>;

/// The mode of a hold, and the kept one of a guard that is set aside.
pub(crate) fn mode_of<S, E, U>(hold: &Hold<S, E, U>) -> Mode
    ensures { result ≡ mode_of hold.now }
{
    match hold {
        Hold::Shared(_) => Mode::Shared,
        Hold::Exclusive(_) => Mode::Exclusive,
        Hold::Upgradable(_) => Mode::Upgradable,
        Hold::Aside(mode) => *mode,
    }
}

/// Whether the guard is set aside.
pub(crate) fn is_aside<S, E, U>(hold: &Hold<S, E, U>) -> bool
    ensures { result ≡ aside_of hold.now }
{
    match hold {
        Hold::Aside(_) => true,
        _ => false,
    }
}

/// Whether the guard suits a call.
pub(crate) fn suits<S, E, U>(entry: &Entry<S, E, U>, suit: Suit) -> bool
    ensures { result ≡ suits suit (guard_in entry.now) }
{
    match suit {
        Suit::Held => !is_aside(&entry.hold),
        Suit::In(mode) => !is_aside(&entry.hold) && mode_of(&entry.hold).is(mode),
        Suit::Aside => is_aside(&entry.hold),
    }
}

/// One more hold, which the raw state admits.
pub(crate) fn issue<R: RawState>(raw: &mut R, mode: Mode) -> HoldOf<R>
    requires { admits (R.limit_of raw.old) mode (R.out raw.old) ≡ true }
    ensures mode { mode_of result ≡ mode }
    ensures held { aside_of result ≡ false }
    ensures out { R.out raw.new ≡ one_more mode (R.out raw.old) }
    ensures limit { R.limit_of raw.new ≡ R.limit_of raw.old }
{
    match mode {
        Mode::Shared => Hold::Shared(raw.try_shared().unwrap()),
        Mode::Exclusive => Hold::Exclusive(raw.try_exclusive().unwrap()),
        Mode::Upgradable => Hold::Upgradable(raw.try_upgradable().unwrap()),
    }
}

/// Spends the token of a hold, if there is one.
pub(crate) fn give_back<R: RawState>(raw: &mut R, hold: HoldOf<R>)
    requires { aside_of hold ≡ false → 0 < count_in (mode_of hold) (R.out raw.old) }
    ensures out { R.out raw.new ≡ less (mode_of hold) (aside_of hold) (R.out raw.old) }
    ensures limit { R.limit_of raw.new ≡ R.limit_of raw.old }
{
    match hold {
        Hold::Shared(token) => raw.release_shared(token),
        Hold::Exclusive(token) => raw.release_exclusive(token),
        Hold::Upgradable(token) => raw.release_upgradable(token),
        Hold::Aside(_) => {}
    }
}

/// A hold in another mode, which the raw state admits in place of the one that is spent.
pub(crate) fn turn<R: RawState>(raw: &mut R, hold: HoldOf<R>, mode: Mode) -> HoldOf<R>
    requires out { aside_of hold ≡ false → 0 < count_in (mode_of hold) (R.out raw.old) }
    requires admitted { admits (R.limit_of raw.old) mode (less (mode_of hold) (aside_of hold) (R.out raw.old)) ≡ true }
    ensures mode { mode_of result ≡ mode }
    ensures held { aside_of result ≡ false }
    ensures out { R.out raw.new ≡ one_more mode (less (mode_of hold) (aside_of hold) (R.out raw.old)) }
    ensures limit { R.limit_of raw.new ≡ R.limit_of raw.old }
{
    match (hold, mode) {
        (Hold::Exclusive(token), Mode::Shared) => Hold::Shared(raw.downgrade(token)),
        (Hold::Exclusive(token), Mode::Upgradable) => {
            Hold::Upgradable(raw.downgrade_to_upgradable(token))
        }
        (Hold::Upgradable(token), Mode::Shared) => Hold::Shared(raw.downgrade_upgradable(token)),
        (Hold::Upgradable(token), Mode::Exclusive) => match raw.try_upgrade(token) {
            Ok(token) => Hold::Exclusive(token),
            Err(_) => unreachable!(),
        },
        (hold, mode) => {
            give_back(raw, hold);
            issue(raw, mode)
        }
    }
}
