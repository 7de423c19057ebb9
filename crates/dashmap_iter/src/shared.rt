//! A guard with several owners.
ghost use Rattle.std.specs.Prelude.{◌≡◌, IfOk};

use lock_api_guards::{Guard, Hold};
use lock_api_raw::NoMemory;
use std::alloc::Allocator;
use std::marker::Model;
use std::sync::{Arc, Wait};

/// A guard that a walk shares with its items: the lock is released when the last of them is dropped. A contract sees
/// the guard.
pub struct SharedGuard<W: Drop, H: Hold, A: Allocator>
where
    H::Runtime: Wait,
{
    guard: Arc<Guard<W, H>, A>,
}

impl<W: Drop, H: Hold, A: Allocator> Model for SharedGuard<W, H, A>
where
    H::Runtime: Wait,
{
    ghost use Rattle.std.specs.Arc.{arc_value};
    ghost use Rattle.lock_api_guards.specs.declared.guard.Guard.{Guard};

    ghost Value = { Guard W H H.Lock H.Runtime H.Party H.Apart };

    ghost view = { λ s. arc_value s.guard };
}

// By hand: where a derived drop ends the scope of a caller that dereferenced, the caller isn't covered.
impl<W: Drop, H: Hold, A: Allocator> Drop for SharedGuard<W, H, A>
where
    H::Runtime: Wait,
{
    fn drop(self) {
        let SharedGuard { guard } = self;
        drop(guard);
    }
}

impl<W: Drop, H: Hold, A: Allocator> SharedGuard<W, H, A>
where
    H::Runtime: Wait,
{
    /// Puts a guard where it can be shared, which takes memory; where there is none the guard is let go.
    pub(crate) fn new(alloc: A, guard: Guard<W, H>) -> Result<SharedGuard<W, H, A>, NoMemory>
        ensures { IfOk result (λ shared. shared ≡ guard) }
    {
        match Arc::new(alloc, guard) {
            Ok(guard) => Ok(SharedGuard { guard }),
            Err(_) => Err(NoMemory),
        }
    }

    /// One more owner, unless there are too many.
    pub(crate) fn share(&self) -> Result<SharedGuard<W, H, A>, NoMemory>
        ensures { IfOk result (λ shared. shared ≡ self.now) }
    {
        Ok(SharedGuard {
            guard: Arc::try_clone(&self.guard)?,
        })
    }

    /// Lends the std guard.
    pub(crate) fn inner(&self) -> &W
        ensures { result.now ≡ self.now.inner }
    {
        &self.guard.inner
    }
}
