//! What a thread has of a reader-writer lock.
ghost use Rattle.std.specs.Prelude.{◌≡◌, ◌≢◌, ◌<◌, ℕ};
ghost use Rattle.lock_word.specs.Rights.{Rights, nothing, IsClash};
ghost use Rattle.lock_word.specs.Sharing.{claimed};

use std::marker::{Model, PhantomData};

/// The rights that a thread has to the lock with this name.
///
/// It takes no memory and may be handed to another thread. It can be neither copied nor dropped, and nobody can make
/// one with a right: that comes from a word of the lock alone, by a step that changes its number.
pub struct SharedClaim {
    pub(crate) marker: PhantomData<()>,
    /// The name of the lock.
    pub ghost name: { ℕ },
    /// The rights to it.
    pub ghost held: { Rights },
}

impl Model for SharedClaim {
    ghost also_owns = { λ claim. claimed claim.name claim.held };
}

impl SharedClaim {
    /// Ends a claim that is nothing.
    pub fn end(self)
        requires { self.held ≡ nothing }
    {
        let SharedClaim { marker: _ } = self;
    }

    /// Two threads never have rights to one lock that don't go together: a program in which they had could go no
    /// further.
    pub fn never_both(self, other: SharedClaim)
        requires { (self.name ≡ other.name) × IsClash self.held other.held }
        ensures { ⊥ }
    {
        let SharedClaim { marker: _ } = self;
        let SharedClaim { marker: _ } = other;
    }
}

unsafe impl Send for SharedClaim {}

unsafe impl Sync for SharedClaim {}
