//! The exact lot: its threads, and what it shows of them.
ghost use Rattle.std.specs.Prelude.{◌≡◌, ◌<◌, ◌≤◌, ◌↔◌, ◌⊎◌, ◌&&◌, if◌then◌else◌, is_some, ℕ, IfOk, IfSome, IfErr};
ghost use Rattle.std.specs.Prelude.{IsTrue, IsErrOf, false, Some, None, Err, count_by};
ghost use Rattle.parking_lot_core_model.specs.Places.{place_at, late, roused, is_due, is_held, held_at};
ghost use Rattle.std.specs.Option.{option_map_or};
ghost use Rattle.parking_lot_core_model.specs.Buckets.{any_open};
ghost use Rattle.parking_lot_core_model.specs.Machine.{machine, status_at, threads_of, is_in, is_thread};
ghost use Rattle.parking_lot_core_model.specs.Machine.{register_fault, retire_fault, deadline_fault, owner_fault};
ghost use Rattle.parking_lot_core_model.specs.Machine.{enter_fault, free_number, busy, either_busy, open_at};
ghost use Rattle.parking_lot_core_model.specs.Machine.{token_of, buckets_wanted, must_grow, changed_at, registered};
ghost use Rattle.parking_lot_core_model.specs.Machine.{retired, recorded, forgotten, Does, Makes, MakesOr};
ghost use Rattle.parking_lot_core_model.specs.Runs.{fresh, fresh_paired};
ghost use Rattle.parking_lot_core_model.specs.Sound.{Sound, times_at};
ghost use Rattle.parking_lot_core_model.specs.declared.fault.SizeFault.TheVariants.{BadSize};
ghost use Rattle.parking_lot_core_model.specs.declared.fault.SizeFault.TheVariants as size_fault;
ghost use Rattle.parking_lot_core_model.specs.declared.fault.LotFault.TheVariants.{NoMemory};

use crate::buckets::{Buckets, buckets_for, threads_with};
use crate::fault::{LotFault, SizeFault};
use crate::lists::Lists;
use crate::parking::{DEFAULT_UNPARK_TOKEN, UnparkToken};
use crate::place::{Place, Section, ThreadStatus};
use crate::places::{free_number, place_at, put};
use crate::waiters::Waiters;
use std::alloc::{Allocator, Global};
use std::marker::Model;

/// The most threads that a lot can have at one time.
const LIMIT: usize = 65_536;

/// The most where each has two numbers.
const WIDE_LIMIT: usize = 131_072;

/// Lists of waiting threads by key, exclusive and exact: whoever has it sees each thread's place, and nothing moves by
/// itself. Threads are numbers here.
///
/// A thread registers, and may then park itself under a key. Others take it out of that key's list. Each operation can
/// be done whole, as `park` or `unpark_one`, or in the steps of a section: `enter`, `check`, `take_next`, `append`,
/// `store_done` and `leave`, with `wake` behind it. A key's bucket is the key modulo the number of buckets: while a
/// section is open in it, nothing else can enter one of its keys. Sections of other buckets can be open beside it.
///
/// `register` makes all the room that a thread's waits need, so that only recorded resources and the lists that are
/// handed out can want memory after it.
///
/// ```text
/// let mut lot = Lot::new(alloc, 2, 7)?;
/// let a = lot.register()?;
/// lot.park(a, 3, || true, DEFAULT_PARK_TOKEN, false)?;
/// lot.unpark_one(3, |_| UnparkToken(42))?;
/// lot.resume(a, |_, _| {})? // Unparked(UnparkToken(42))
/// ```
#[derive(Drop)]
pub struct Lot<A: Allocator = Global> {
    pub(crate) number: u64,
    pub(crate) max_threads: usize,
    /// Whether each thread has two numbers.
    pub(crate) paired: bool,
    /// How many sleeps there were, modulo 2^64.
    pub(crate) sleeps: u64,
    /// The waiters, by key.
    pub(crate) waiting: Waiters<A>,
    /// The recorded resources, by thread.
    pub(crate) owned: Lists<usize, A>,
    /// Where each thread stands; `None` of a number that is free.
    pub(crate) places: Vec<Option<Place>, A>,
    /// The sections that are open, and who is in them.
    pub(crate) buckets: Buckets<A>,
}

impl<A: Allocator> Model for Lot<A> {
    ghost use Rattle.parking_lot_core_model.specs.Machine.{Parts, machine};
    ghost use Rattle.parking_lot_core_model.specs.Sound.{Sound, Room};
    ghost use Rattle.std.specs.Prelude.{length};

    ghost Value = { Parts };

    ghost view = { λ l. record {
      number = l.number;
      max_threads = l.max_threads;
      paired = l.paired;
      sleeps = l.sleeps;
      waiting = l.waiting.entries;
      owned = l.owned.entries.items;
      places = l.places.items;
      by_bucket = l.buckets.by_bucket.items;
      by_thread = l.buckets.by_thread.items;
    } };

    ghost invariant = { λ l. Sound (machine (record {
      number = l.number;
      max_threads = l.max_threads;
      paired = l.paired;
      sleeps = l.sleeps;
      waiting = l.waiting.entries;
      owned = l.owned.entries.items;
      places = l.places.items;
      by_bucket = l.buckets.by_bucket.items;
      by_thread = l.buckets.by_thread.items;
    }))
        × Room l.waiting l.places.items l.max_threads (length l.buckets.by_thread.items) };
}

impl<A: Allocator> Lot<A> {
    /// The number that the lot was made with.
    pub fn number(&self) -> u64
        ensures { result ≡ (machine self.now).number }
    {
        self.number
    }

    /// Whether a participant with these numbers may belong to this lot.
    pub fn same_lot(&self, number: u64, thread: usize) -> bool
        ensures { IsTrue result ↔ (((machine self.now).number ≡ number) × (thread < (machine self.now).max_threads)) }
    {
        number == self.number && thread < self.max_threads
    }

    /// What is kept of a thread; `None` where its number is free. In a section it is what is kept beside the section.
    pub fn place(&self, thread: usize) -> Option<Place>
        ensures place { result ≡ place_at (machine self.now).places thread }
        ensures waits { (key : ℕ) → count_by (is_thread thread) ((machine self.now).queues key) ≡ times_at key result }
    {
        place_at(&self.places, thread)
    }

    /// How many buckets there are: the least power of two from 16 on that is three times as many as the most threads
    /// that were registered at one time, or more.
    pub fn buckets(&self) -> usize
        ensures { result ≡ (machine self.now).buckets }
    {
        self.buckets.count()
    }

    /// Whether the thread is in a section.
    pub(crate) fn is_in(&self, thread: usize) -> bool
        ensures { result ≡ is_in (machine self.now) thread }
    {
        self.buckets.key_of(thread).is_some()
    }

    /// The section that is open in the bucket of a key.
    pub(crate) fn open_at(&self, key: usize) -> Option<Section>
        ensures { result ≡ open_at (machine self.now) key }
    {
        self.buckets.at(key)
    }

    /// What those that the section of a key holds are to be told.
    pub(crate) fn token_of(&self, key: usize) -> UnparkToken
        ensures { result ≡ token_of (machine self.now) key }
    {
        self.open_at(key)
            .map_or(DEFAULT_UNPARK_TOKEN, |section| section.token)
    }

    /// Where a thread stands; `None` where its number is free. It takes no memory.
    pub fn status(&self, thread: usize) -> Option<ThreadStatus>
        ensures { result ≡ status_at (machine self.now) thread }
    {
        let place = self.place(thread)?;
        if self.is_in(thread) {
            return Some(ThreadStatus::InSection);
        }
        Some(place.status(self.token_for(place)))
    }

    /// What one at that place is to be told, if a section holds it.
    fn token_for(&self, place: Place) -> UnparkToken
        ensures { (key : ℕ) → held_at place ≡ Some key → token_of (machine self.now) key ≡ result }
    {
        match place.held_at() {
            Some(key) => self.token_of(key),
            None => DEFAULT_UNPARK_TOKEN,
        }
    }

    /// Why the thread can't be retired now.
    fn retire_fault(&self, thread: usize) -> Option<LotFault>
        ensures { result ≡ retire_fault (machine self.now) thread }
    {
        match self.status(thread) {
            Some(ThreadStatus::Running) => None,
            _ => Some(LotFault::WrongStatus),
        }
    }

    /// Why the thread can't enter a section of the key now.
    pub(crate) fn enter_fault(&self, thread: usize, key: usize) -> Option<LotFault>
        ensures { result ≡ enter_fault (machine self.now) thread key }
    {
        match self.status(thread) {
            Some(ThreadStatus::Running) => self.busy(key),
            _ => Some(LotFault::WrongStatus),
        }
    }

    /// Why no section of the key can be entered now.
    pub(crate) fn busy(&self, key: usize) -> Option<LotFault>
        ensures fault { result ≡ busy key (machine self.now) }
        ensures quiet { result ≡ None → (thread : ℕ)
            → option_map_or (is_held key) (place_at (machine self.now).places thread) false ≡ false }
    {
        if self.is_entered(key) {
            Some(LotFault::Busy)
        } else {
            None
        }
    }

    /// Why sections of two keys can't be entered now.
    pub(crate) fn either_busy(&self, key: usize, other: usize) -> Option<LotFault>
        ensures fault { result ≡ either_busy key other (machine self.now) }
        ensures quiet { result ≡ None → (thread : ℕ)
            → option_map_or (is_held key) (place_at (machine self.now).places thread) false ≡ false }
    {
        if let Some(fault) = self.busy(key) {
            return Some(fault);
        }
        self.busy(other)
    }

    /// Whether a section is open in the bucket of this key: others that would enter one there are refused as `Busy`.
    pub fn is_entered(&self, key: usize) -> bool
        ensures entered { result ≡ is_some (open_at (machine self.now) key) }
        ensures quiet { result ≡ false → (thread : ℕ)
            → option_map_or (is_held key) (place_at (machine self.now).places thread) false ≡ false }
    {
        self.buckets.at(key).is_some()
    }

    /// That the lot is sound, for who says what a call on it did: a waiting thread stands once in its key's list, and
    /// nobody stands elsewhere. It does nothing.
    pub fn known(&self)
        ensures { Sound (machine self.now) }
    {
        let _ = &self.number;
    }

    /// The least number that is free.
    pub fn next_number(&self) -> usize
        ensures { result ≡ free_number (machine self.now).places }
    {
        free_number(&self.places)
    }

    /// How many buckets the threads have once one more is registered.
    fn buckets_wanted(&self) -> usize
        requires { free_number (machine self.now).places < 131072 }
        ensures { result ≡ buckets_wanted (machine self.now) }
    {
        buckets_for(threads_with(self.paired, self.next_number() + 1))
    }

    /// Whether a section is open that keeps the buckets from becoming more.
    fn is_kept_small(&self) -> bool
        requires { free_number (machine self.now).places < 131072 }
        ensures { result ≡ (must_grow (machine self.now) && any_open (machine self.now).sections
            (machine self.now).buckets) }
    {
        self.buckets.count() < self.buckets_wanted() && self.buckets.is_any_open()
    }

    /// Why nobody can register now.
    pub fn register_fault(&self) -> Option<LotFault>
        ensures { result ≡ register_fault (machine self.now) }
    {
        if self.next_number() >= self.max_threads {
            Some(LotFault::TooManyThreads)
        } else if self.is_kept_small() {
            Some(LotFault::Busy)
        } else {
            None
        }
    }

    /// Registers a thread under the least number that is free, and makes all the room that its waits need. Where there
    /// are to be more buckets no section may be open. Each list stays as it is.
    pub fn register(&mut self) -> Result<usize, LotFault>
        ensures full { IfSome (register_fault (machine self.old)) (λ fault. result ≡ Err fault) }
        ensures ok { IfOk result (λ thread. (thread ≡ free_number (machine self.old).places)
            × (thread < (machine self.old).max_threads) × (machine self.new ≡ registered (machine self.old))) }
        ensures err { IfErr result (λ fault. ((register_fault (machine self.old) ≡ Some fault) ⊎ (fault ≡ NoMemory))
            × (machine self.new ≡ machine self.old)) }
    {
        if let Some(fault) = self.register_fault() {
            return Err(fault);
        }
        let thread = free_number(&self.places);
        let wanted = buckets_for(threads_with(self.paired, thread + 1));
        if thread < self.places.len() {
            self.buckets.make_room(thread + 1, wanted)?;
            put(&mut self.places, thread, Some(Place::Running));
            return Ok(thread);
        }
        self.places.reserve(1)?;
        self.waiting.reserve(thread + 1, wanted)?;
        self.buckets.make_room(thread + 1, wanted)?;
        self.places.push_reserved(Some(Place::Running));
        Ok(thread)
    }

    /// Gives a running thread's number back, with its recorded resources. The room stays.
    pub fn retire(&mut self, thread: usize) -> Result<(), LotFault>
        ensures { Does (λ m. retire_fault m thread) (Makes (λ m. retired m thread)) (machine self.old) result
            (machine self.new) }
    {
        if let Some(fault) = self.retire_fault(thread) {
            return Err(fault);
        }
        self.owned.clear(thread);
        put(&mut self.places, thread, None);
        Ok(())
    }

    /// Has a thread's deadline come. It needs to sleep in a timed wait, and may have been taken, if it isn't woken yet.
    pub fn deadline(&mut self, thread: usize) -> Result<(), LotFault>
        ensures { Does (λ m. deadline_fault m thread) (Makes (λ m. changed_at late m thread))
            (machine self.old) result (machine self.new) }
    {
        let Some(place) = self.place(thread) else {
            return Err(LotFault::WrongStatus);
        };
        if self.is_in(thread) || !place.sleeps_timed() {
            return Err(LotFault::WrongStatus);
        }
        put(&mut self.places, thread, Some(place.late()));
        Ok(())
    }

    /// Wakes a thread that a section has taken, behind the section's end. It acts only where the thread still carries
    /// the mark of the sleep that it was taken out of, so that a late call never ends a later sleep. Answers whether it
    /// acted.
    pub fn wake(&mut self, thread: usize, mark: u64) -> bool
        ensures due { result ≡ option_map_or (is_due mark) (place_at (machine self.old).places thread) false }
        ensures woken { machine self.new ≡ (if result then changed_at roused
            (machine self.old) thread else machine self.old) }
    {
        let Some(place) = self.place(thread) else {
            return false;
        };
        if !place.is_due(mark) {
            return false;
        }
        put(&mut self.places, thread, Some(place.roused()));
        true
    }

    /// Records one more occurrence of a resource.
    pub fn acquire_resource(&mut self, thread: usize, key: usize) -> Result<(), LotFault>
        ensures { Does (λ m. owner_fault m thread) (MakesOr NoMemory (λ m. recorded m thread key))
            (machine self.old) result (machine self.new) }
    {
        if self.place(thread).is_none() {
            return Err(LotFault::WrongStatus);
        }
        self.owned.try_push(thread, key)?;
        Ok(())
    }

    /// Forgets one occurrence of a resource, if there is one.
    pub fn release_resource(&mut self, thread: usize, key: usize) -> Result<(), LotFault>
        ensures { Does (λ m. owner_fault m thread) (Makes (λ m. forgotten m thread key)) (machine self.old) result
            (machine self.new) }
    {
        if self.place(thread).is_none() {
            return Err(LotFault::WrongStatus);
        }
        self.owned.take_number(thread, key);
        Ok(())
    }
}

impl<A: Allocator + Clone> Lot<A> {
    /// Makes a lot for at most `max_threads` threads at a time, from 1 to 65,536, that bears `number`. Different lots
    /// are to get different numbers.
    pub fn new(alloc: A, max_threads: usize, number: u64) -> Result<Lot<A>, SizeFault>
        ensures size { IsErrOf result BadSize ↔ ((max_threads ≡ 0) ⊎ (65536 < max_threads)) }
        ensures made { IfOk result (λ lot. machine lot ≡ fresh max_threads number) }
    {
        if max_threads == 0 || max_threads > LIMIT {
            return Err(SizeFault::BadSize);
        }
        Lot::made(alloc, max_threads, false, number)
    }

    /// The same for twice as many, from 1 to 131,072: for one that keeps two numbers for each thread. It has as many
    /// buckets as for half as many threads with one number each.
    pub fn new_wide(alloc: A, max_threads: usize, number: u64) -> Result<Lot<A>, SizeFault>
        ensures size { IsErrOf result BadSize ↔ ((max_threads ≡ 0) ⊎ (131072 < max_threads)) }
        ensures made { IfOk result (λ lot. machine lot ≡ fresh_paired max_threads number) }
    {
        if max_threads == 0 || max_threads > WIDE_LIMIT {
            return Err(SizeFault::BadSize);
        }
        Lot::made(alloc, max_threads, true, number)
    }

    /// A lot where nobody is registered.
    fn made(alloc: A, max_threads: usize, paired: bool, number: u64) -> Result<Lot<A>, SizeFault>
        requires few { max_threads ≤ 131072 }
        ensures made { IfOk result (λ lot. machine lot ≡ record (fresh max_threads number) { paired = paired }) }
        ensures memory { IfErr result (λ fault. fault ≡ size_fault.NoMemory) }
    {
        Ok(Lot {
            number,
            max_threads,
            paired,
            sleeps: 0,
            waiting: Waiters::new(alloc.clone()?)?,
            owned: Lists::new(alloc.clone()?),
            buckets: Buckets::new(alloc.clone()?)?,
            places: Vec::new(alloc),
        })
    }

    /// The recorded resources of a thread, each as often as it is recorded.
    pub fn resources(&self, thread: usize) -> Result<Vec<usize, A>, LotFault>
        ensures fault { IfSome (owner_fault (machine self.now) thread) (λ fault. result ≡ Err fault) }
        ensures ok { IfOk result (λ keys. keys.items ≡ (machine self.now).resources thread) }
        ensures err { IfErr result (λ fault. (owner_fault (machine self.now) thread ≡ Some fault)
            ⊎ (fault ≡ NoMemory)) }
    {
        if self.place(thread).is_none() {
            return Err(LotFault::WrongStatus);
        }
        let alloc = self.places.allocator().clone()?;
        Ok(self.owned.numbers(thread, alloc)?)
    }

    /// The threads of the key's list, in order.
    pub fn queue(&self, key: usize) -> Result<Vec<usize, A>, LotFault>
        ensures ok { IfOk result (λ threads. threads.items ≡ threads_of ((machine self.now).queues key)) }
        ensures err { IfErr result (λ fault. fault ≡ NoMemory) }
    {
        let alloc = self.places.allocator().clone()?;
        Ok(self.waiting.numbers(key, alloc)?)
    }
}
