//! Who calls.
ghost use Rattle.std.specs.Prelude.{◌≡◌, [], IsTrue};
ghost use Rattle.dashmap_record.specs.History.Match.{rises};
ghost use Rattle.dashmap_record.specs.Recorded.{IsOwn};

use crate::history::Entered;
use crate::notes::Notes;
use std::alloc::{Allocator, Global};
use std::marker::Model;

/// A caller of a recorded map: its number, its last stamp and the log of its calls. Each of its calls is lent it.
///
/// A caller belongs to the map that it was made with. `gather` finds out where it was used with another.
#[derive(Drop)]
pub struct Caller<K, V, A: Allocator = Global> {
    number: usize,
    pub(crate) log: Notes<K, V, A>,
}

impl<K, V, A: Allocator> Model for Caller<K, V, A> {
    ghost use Rattle.dashmap_record.specs.Recorded.{Calling, IsOwn};

    ghost Value = { Calling K V };

    ghost view = { λ c. record { number = c.number; log = c.log } };

    ghost invariant = { λ c. IsOwn c.number c.log.entries };
}

impl<K, V, A: Allocator> Caller<K, V, A> {
    /// A caller with an empty log, whose stamps will be above `last`. It takes no memory.
    ///
    /// It is for a caller that goes on after its log was taken: a new caller's last stamp is 0.
    ///
    /// ```text
    /// let (number, last) = (caller.number(), caller.last());
    /// let log = caller.log();
    /// let mut caller: Caller<u64, u64> = Caller::after(alloc, number, last);   // its stamps go on
    /// ```
    pub fn after(alloc: A, number: usize, last: u64) -> Caller<K, V, A>
        ensures number { result.number ≡ number }
        ensures log { result.log.entries ≡ [] }
        ensures last { result.log.last ≡ last }
    {
        Caller {
            number,
            log: Notes::new(alloc, last),
        }
    }

    /// Its number.
    ///
    /// ```text
    /// let number = caller.number();
    /// ```
    pub fn number(&self) -> usize
        ensures { result ≡ self.now.number }
    {
        self.number
    }

    /// Its last stamp.
    ///
    /// ```text
    /// let stamp = caller.last();
    /// ```
    pub fn last(&self) -> u64
        ensures { result ≡ self.now.log.last }
    {
        self.log.last()
    }

    /// Its log, oldest entry first, for `gather`. It takes no memory.
    ///
    /// ```text
    /// logs.push(caller.log())?; // in the order of the callers' numbers
    /// ```
    pub fn log(self) -> Vec<Entered<K, V>, A>
        ensures log { result.items ≡ self.log.entries }
        ensures own { IsOwn self.number result.items }
        ensures rise { IsTrue (rises result.items) }
    {
        let Caller { number: _, log } = self;
        log.into_entries()
    }
}
