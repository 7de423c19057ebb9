//! The key in a token.
ghost use Rattle.std.specs.Prelude.{◌≡◌, ℕ};

use std::marker::{Model, PhantomData};

/// The key of those that want a lock, which contracts alone see. It takes no memory.
pub struct Key {
    pub(crate) marker: PhantomData<()>,
    pub ghost value: { ℕ },
}

impl Model for Key {
    ghost use base.Fml.{ftrue};

    ghost also_owns = { λ _. ftrue };
}

impl Key {
    /// That key.
    pub fn of(number: &u64) -> Key
        ensures { result.value ≡ number.now }
    {
        let _ = number;
        Key {
            marker: PhantomData,
        }
    }

    /// Ends it.
    pub fn end(self) {
        let Key { marker: _ } = self;
    }
}

unsafe impl Send for Key {}

unsafe impl Sync for Key {}
