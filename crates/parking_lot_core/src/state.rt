//! What the lock of the numbers of a lot for threads guards.
//!
//! No clause can name what a lock guards. So each call takes the lock and calls one of the functions here, whose
//! clauses say what it does.
ghost use Rattle.std.specs.Prelude.{◌≡◌, ◌<◌, ◌≤◌, ◌⊎◌, IfOk, IfErr, OnOk, OnErr, Some, true, false, not, [], position};
ghost use Rattle.std.specs.Prelude.{slice_get, slice_set, length};
ghost use Rattle.std.specs.List.{position_or_len};
ghost use Rattle.parking_lot_core_model.specs.declared.fault.LotFault.TheVariants.{TooManyThreads, NoMemory};

use crate::chain::{Chain, Waiting};
use crate::seat::Seats;
use crate::table::{Buckets, Table};
use crate::thread_data::ThreadData;
use parking_lot_core_model::{DEFAULT_PARK_TOKEN, LotFault, Waiter};
use std::alloc::{AllocError, Allocator};

/// The numbers of threads.
#[derive(Drop)]
pub(crate) struct State<A: Allocator> {
    /// Whether each is given out.
    pub given: Vec<bool, A>,
}

impl<A: Allocator> State<A> {
    /// None is.
    pub fn new(alloc: A) -> State<A> {
        State {
            given: Vec::new(alloc),
        }
    }

    /// Takes a number back, and answers whether it was given out.
    pub fn retire(&mut self, thread: usize) -> bool
        ensures { result ≡ true → (slice_get self.old.given.items thread ≡ Some true)
            × (self.new.given.items ≡ slice_set self.old.given.items thread false) }
    {
        if self.given.get(thread) == Some(&true) {
            self.given[thread] = false;
            return true;
        }
        false
    }

    /// The least number that is free.
    fn next_number(&self) -> usize
        ensures free { result ≡ position_or_len not self.now.given.items }
        ensures most { result ≤ length self.now.given.items }
    {
        next_free(&self.given)
    }
}

impl<A: Allocator + Clone> State<A> {
    /// Registers a participant of the lot with that number, which is to have so many threads at most, and makes its
    /// seat and the buckets that are wanted then.
    pub fn admit(
        &mut self,
        number: u64,
        max_threads: usize,
        seats: &Seats<A>,
        table: &Table<A>,
    ) -> Result<(ThreadData<A>, Option<Buckets<A>>), LotFault>
        ensures ok { IfOk result
            (λ made. (made.0 ≡ record {
              lot = number;
              thread = position_or_len not self.old.given.items;
              resources = [];
            }) × (made.0.thread < max_threads)) }
        ensures given { OnOk result
            (slice_get self.new.given.items (position_or_len not self.old.given.items) ≡ Some true) }
        ensures full { IfErr result (λ fault.
            ((fault ≡ TooManyThreads) × (max_threads ≤ position_or_len not self.old.given.items))
            ⊎ (fault ≡ NoMemory)) }
        ensures err { OnErr result (self.new.given.items ≡ self.old.given.items) }
    {
        let thread = self.next_number();
        if thread >= max_threads {
            return Err(LotFault::TooManyThreads);
        }
        let resources = Vec::new(table.allocator().clone()?);
        let node = blank(table.allocator().clone()?)?;
        seats.make(thread)?;
        let grown = table.wanted(thread.saturating_add(1))?;
        self.give(thread)?;
        let made = ThreadData {
            lot: number,
            thread,
            resources,
            node,
        };
        Ok((made, grown))
    }

    /// Gives a number out, the first behind those that there were or one of these.
    fn give(&mut self, thread: usize) -> Result<(), AllocError>
        requires { thread ≤ length self.old.given.items }
        ensures given { OnOk result (slice_get self.new.given.items thread ≡ Some true) }
        ensures err { OnErr result (self.new.given.items ≡ self.old.given.items) }
    {
        if thread < self.given.len() {
            self.given[thread] = true;
            return Ok(());
        }
        self.given.push(true)?;
        Ok(())
    }
}

/// The least number that is free.
fn next_free(given: &[bool]) -> usize
    ensures { result ≡ position_or_len not given.now }
{
    first_free(given).unwrap_or(given.len())
}

/// The least of the numbers that there were which is free.
fn first_free(given: &[bool]) -> Option<usize>
    ensures { result ≡ position not given.now }
{
    given.iter().position(|is_given| !*is_given)
}

/// A node that waits for nothing yet.
fn blank<A: Allocator>(alloc: A) -> Result<Chain<A>, AllocError> {
    let waiter = Waiter {
        thread: 0,
        token: DEFAULT_PARK_TOKEN,
    };
    Chain::one(
        alloc,
        Waiting {
            key: 0,
            waiter,
            timed: false,
        },
    )
}
