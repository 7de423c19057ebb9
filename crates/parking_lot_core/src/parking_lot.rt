//! The lot for real threads.
ghost use Rattle.std.specs.Prelude.{◌≡◌, ◌<◌, ◌↔◌, ◌⊎◌, IsTrue, IsErrOf, IfOk, IfErr, false, []};
ghost use Rattle.parking_lot_core_model.specs.declared.fault.SizeFault.TheVariants.{BadSize};
ghost use Rattle.parking_lot_core.specs.Shared.{IsRefused, OnSomeLot};
ghost use Rattle.parking_lot_core_model.specs.Machine.{retire_fault, retired, Does, Makes};
ghost use Rattle.parking_lot_core_model.specs.declared.fault.LotFault.TheVariants.{TooManyThreads, NoMemory};

use crate::seat::Seats;
use crate::state::State;
use crate::stuck::stuck;
use crate::table::Table;
use crate::thread_data::ThreadData;
use crate::under_lock::close;
use parking_lot_core_model::{LotFault, SizeFault};
use std::alloc::{Allocator, Global};
use std::sync::atomic::{AtomicUsize, Ordering};
use std::sync::{Mutex, Wait};

/// The most threads that a lot can have at one time.
const LIMIT: usize = 65_536;

/// Lists of sleeping threads by key, for real threads. It is shared by reference, and keeps the runtime and the
/// allocator that it was given.
///
/// A key's list stands in one of its buckets, each under a lock of its own; a thread that waits sleeps at a seat of
/// its own. There are 16 buckets at first, and three or more for each thread that is registered.
///
/// ```text
/// let lot = ParkingLot::new(rt, alloc, 16, 7)?;
/// let mut me = lot.thread_data()?;
/// park(&lot, &mut me, key, || true, || {}, |_, _| {}, DEFAULT_PARK_TOKEN, NO_TIMEOUT);
/// ```
#[derive(Drop)]
pub struct ParkingLot<R, A: Allocator = Global> {
    pub(crate) rt: R,
    pub(crate) number: u64,
    pub(crate) max_threads: usize,
    /// The numbers of threads.
    pub(crate) state: Mutex<State<A>>,
    pub(crate) table: Table<A>,
    pub(crate) seats: Seats<A>,
    /// How many keys were claimed.
    keys: AtomicUsize,
}

impl<R: Drop, A: Allocator + Clone> ParkingLot<R, A> {
    /// Makes a lot for at most `max_threads` threads at a time, from 1 to 65,536, that bears `number`. Different lots
    /// are to get different numbers.
    ///
    /// `BadSize` for another amount of threads, and `NoMemory`.
    ///
    /// ```text
    /// let lot = ParkingLot::new(rt, rt.alloc(), 16, 7)?;   // at most 16 threads at a time
    /// ```
    pub fn new(
        rt: R,
        alloc: A,
        max_threads: usize,
        number: u64,
    ) -> Result<ParkingLot<R, A>, SizeFault>
        ensures size { IsErrOf result BadSize ↔ ((max_threads ≡ 0) ⊎ (65536 < max_threads)) }
        ensures made { IfOk result (λ lot. (lot.rt ≡ rt) × (lot.number ≡ number) × (lot.max_threads ≡ max_threads)) }
    {
        if max_threads == 0 || max_threads > LIMIT {
            return Err(SizeFault::BadSize);
        }
        let state = State::new(alloc.clone()?);
        let table = Table::new(alloc.clone()?)?;
        let seats = Seats::new(alloc)?;
        Ok(ParkingLot {
            rt,
            number,
            max_threads,
            state: Mutex::new(state),
            table,
            seats,
            keys: AtomicUsize::new(0),
        })
    }
}

impl<R, A: Allocator> ParkingLot<R, A> {
    /// The number that it was made with.
    ///
    /// ```text
    /// let seven = lot.number();
    /// ```
    pub fn number(&self) -> u64
        ensures { result ≡ self.now.number }
    {
        self.number
    }

    /// The most threads that it can have at one time.
    ///
    /// ```text
    /// let most = lot.max_threads();
    /// ```
    pub fn max_threads(&self) -> usize
        ensures { result ≡ self.now.max_threads }
    {
        self.max_threads
    }

    /// The runtime, for the layers above.
    ///
    /// ```text
    /// let rt = lot.runtime();
    /// ```
    pub fn runtime(&self) -> &R
        ensures { result.now ≡ self.now.rt }
    {
        &self.rt
    }

    /// Whether the participant is one of this lot.
    ///
    /// ```text
    /// let known = lot.same_lot(&me);
    /// ```
    pub fn same_lot(&self, thread_data: &ThreadData<A>) -> bool
        ensures { IsTrue result ↔
            ((thread_data.now.lot ≡ self.now.number) × (thread_data.now.thread < self.now.max_threads)) }
    {
        thread_data.lot_number() == self.number && thread_data.thread_number() < self.max_threads
    }

    /// Hands out a range of `count` keys that no earlier claim had, and answers its first. The first claim starts at 0.
    ///
    /// ```text
    /// let first = lot.claim_keys(2);   // and `first + 1` is this caller's too
    /// ```
    pub fn claim_keys(&self, count: usize) -> usize {
        self.keys.fetch_add(count, Ordering::SeqCst)
    }
}

impl<R: Wait, A: Allocator + Clone> ParkingLot<R, A> {
    /// Registers a participant under the least number that is free, and makes all the room that its waits need. A
    /// refusal leaves the number free and every list as it was.
    ///
    /// Waits at most for another registration, and where buckets become more for the lock of each bucket, under which
    /// callbacks of other calls run. A refusal is `TooManyThreads` or `NoMemory`.
    ///
    /// ```text
    /// let mut me = lot.thread_data()?;   // once for each thread
    /// ```
    pub fn thread_data(&self) -> Result<ThreadData<A>, LotFault>
        ensures made { IfOk result
            (λ thread_data. (thread_data.lot ≡ self.now.number) × (thread_data.thread < self.now.max_threads)
            × (thread_data.resources ≡ [])) }
        ensures fault { IfErr result (λ fault. (fault ≡ TooManyThreads) ⊎ (fault ≡ NoMemory)) }
        ensures full { IfErr result (IsRefused self.now.max_threads) }
    {
        let mut state = self.state.lock(&self.rt);
        let admitted = state.admit(self.number, self.max_threads, &self.seats, &self.table);
        let (made, grown) = match admitted {
            Ok(admitted) => admitted,
            Err(fault) => return Err(fault),
        };
        if let Some(buckets) = grown {
            self.table.grow(&self.rt, buckets);
        }
        Ok(made)
    }

    /// Gives a participant's number back, and forgets what is recorded for that number in the lot.
    ///
    /// Callers show that it is one of this lot, which `same_lot` tests. Waits at most for a registration.
    ///
    /// ```text
    /// if lot.same_lot(&me) { lot.retire(me); }
    /// ```
    pub fn retire(&self, thread_data: ThreadData<A>)
        requires { (thread_data.lot ≡ self.now.number) × (thread_data.thread < self.now.max_threads) }
        ensures { OnSomeLot (λ key. false)
            (Does (λ m. retire_fault m thread_data.thread) (Makes (λ m. retired m thread_data.thread))) result }
    {
        let thread = thread_data.thread_number();
        let mut state = self.state.lock(&self.rt);
        if !state.retire(thread) {
            match stuck(&self.rt) {}
        }
        close(state, thread);
    }
}
