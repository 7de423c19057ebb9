//! What a thread has of a lock.
ghost use Rattle.std.specs.Prelude.{◌≡◌, ℕ};
ghost use Rattle.lock_word.specs.Owning.{claimed};

use std::marker::{Model, PhantomData};

/// What a thread has of the lock with this name: the one right to it where `owned` is 1, and nothing where it is 0.
///
/// It takes no memory and may be handed to another thread. It can be neither copied nor dropped, and nobody can make
/// one with the right: that comes from a word of the lock alone, by an exchange that sets its bit 0.
pub struct Claim {
    pub(crate) marker: PhantomData<()>,
    /// The name of the lock.
    pub ghost name: { ℕ },
    /// 1 for the right to it, and 0 for nothing.
    pub ghost owned: { ℕ },
}

impl Model for Claim {
    ghost also_owns = { λ claim. claimed claim.name claim.owned };
}

impl Claim {
    /// Ends a claim that is nothing.
    pub fn end(self)
        requires { self.owned ≡ 0 }
    {
        let Claim { marker: _ } = self;
    }

    /// Two threads never have the right to one lock: a program in which they had could go no further.
    pub fn never_two(self, other: Claim)
        requires { (self.name ≡ other.name) × (self.owned ≡ 1) × (other.owned ≡ 1) }
        ensures { ⊥ }
    {
        let Claim { marker: _ } = self;
        let Claim { marker: _ } = other;
    }
}

unsafe impl Send for Claim {}

unsafe impl Sync for Claim {}
