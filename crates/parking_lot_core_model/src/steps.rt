//! The smallest changes of a lot, from which sections and whole operations are made.
ghost use Rattle.std.specs.Prelude.{◌≡◌, Some, None, true, false, slice_get, length, ℕ, List};
ghost use Rattle.std.specs.Option.{option_map, option_and_then};
ghost use Rattle.parking_lot_core_model.specs.declared.place.Phase.TheVariants as phase;
ghost use Rattle.parking_lot_core_model.specs.declared.place.Section.{Section};
ghost use Rattle.parking_lot_core_model.specs.declared.place.Place.TheVariants.{Running};
ghost use Rattle.parking_lot_core_model.specs.Places.{place_at, may_join};
ghost use Rattle.parking_lot_core_model.specs.Results.{is_left};
ghost use Rattle.parking_lot_core_model.specs.Machine.{machine, joined, taken, moved_first, opened, in_phase, stored};
ghost use Rattle.parking_lot_core_model.specs.Machine.{closed, open_at};
ghost use Rattle.parking_lot_core_model.specs.Sound.{IsOpen};

use crate::lot::Lot;
use crate::parking::{DEFAULT_UNPARK_TOKEN, ParkToken, UnparkToken};
use crate::place::{Phase, Place, Section, Sleep, Waiter};
use crate::places::{hold, put, relist, tell};
use std::alloc::Allocator;

impl<A: Allocator> Lot<A> {
    /// Puts a running thread at the end of a key's list.
    pub(crate) fn join(&mut self, thread: usize, key: usize, token: ParkToken, timed: bool)
        requires runs { place_at (machine self.old).places thread ≡ Some Running }
        requires near { (k : ℕ) → (machine self.old).inside thread ≡ Some k → k ≡ key }
        requires outside { (b : ℕ) (s : Section) → (machine self.old).sections b ≡ Some s → s.thread ≡ Some thread
            → may_join s.phase ≡ false }
        ensures { machine self.new ≡ joined (machine self.old) thread key token timed }
    {
        self.sleeps = self.sleeps.wrapping_add(1);
        let sleep = Sleep {
            mark: self.sleeps,
            timed,
            late: false,
        };
        self.waiting.push(key, Waiter { thread, token });
        put(&mut self.places, thread, Some(Place::Waiting(key, sleep)));
    }

    /// Takes a waiter out of a key's list, and holds it.
    pub(crate) fn take_out(&mut self, key: usize, nth: usize) -> Option<Waiter>
        requires { IsOpen (machine self.old) key }
        ensures waiter { result ≡ slice_get ((machine self.old).queues key) nth }
        ensures taken { machine self.new ≡ taken (machine self.old) key nth }
    {
        let waiter = self.waiting.take(key, nth)?;
        hold(&mut self.places, waiter.thread, key);
        Some(waiter)
    }

    /// Moves the first waiter of a key's list to the end of another's.
    pub(crate) fn move_first(&mut self, from: usize, to: usize)
        requires { (s : Section) → open_at (machine self.old) from ≡ Some s → s.thread ≡ None }
        ensures { machine self.new ≡ moved_first (machine self.old) from to }
    {
        if let Some(waiter) = self.waiting.take(from, 0) {
            self.waiting.push(to, waiter);
            relist(&mut self.places, waiter.thread, to);
        }
    }

    /// Whether a key's list has waiters.
    pub fn has_waiters(&self, key: usize) -> bool
        ensures { result ≡ is_left ((machine self.now).queues key) }
    {
        self.waiting.get(key, 0).is_some()
    }

    /// How many waiters a key's list has.
    pub fn count(&self, key: usize) -> usize
        ensures { result ≡ length ((machine self.now).queues key) }
    {
        self.waiting.count(key)
    }

    /// The `nth` waiter of a key's list.
    pub fn waiter(&self, key: usize, nth: usize) -> Option<Waiter>
        ensures { result ≡ slice_get ((machine self.now).queues key) nth }
    {
        self.waiting.get(key, nth)
    }

    /// Opens a section, of a running thread or of nobody.
    pub(crate) fn open(&mut self, owner: Option<usize>, key: usize)
        requires free { open_at (machine self.old) key ≡ None }
        requires runs { (t : ℕ) → owner ≡ Some t → place_at (machine self.old).places t ≡ Some Running }
        requires outside { (t : ℕ) → owner ≡ Some t → (machine self.old).inside t ≡ None }
        ensures { machine self.new ≡ opened (machine self.old) owner key }
    {
        self.buckets.put(
            key,
            Some(Section {
                thread: owner,
                key,
                phase: Phase::Fresh,
                token: DEFAULT_UNPARK_TOKEN,
            }),
        );
        self.buckets.let_in(owner, key);
    }

    /// Says how far the section of a key has come.
    pub(crate) fn set_phase(&mut self, key: usize, phase: Phase)
        requires { (s : Section) → open_at (machine self.old) key ≡ Some s → may_join phase ≡ true
            → may_join s.phase ≡ true }
        ensures { machine self.new ≡ in_phase (machine self.old) key phase }
    {
        let section = come_to(self.buckets.at(key), phase);
        self.buckets.put(key, section);
    }

    /// Gives those that the section of a key has taken their token.
    pub(crate) fn say_store(&mut self, key: usize, token: UnparkToken)
        ensures { machine self.new ≡ stored (machine self.old) key token }
    {
        let section = with_store(self.buckets.at(key), token);
        self.buckets.put(key, section);
    }

    /// Closes the section of a key, and tells those that it took.
    pub(crate) fn close(&mut self, key: usize, woken: bool)
        requires { IsOpen (machine self.old) key }
        ensures { machine self.new ≡ closed (machine self.old) key woken }
    {
        let token = self.token_of(key);
        let owner = owner_of(self.buckets.at(key));
        tell(&mut self.places, key, token, woken);
        self.buckets.put(key, None);
        self.buckets.let_out(owner);
    }
}

/// The section once it has come so far.
fn come_to(section: Option<Section>, phase: Phase) -> Option<Section>
    ensures { result ≡ option_map {T = Section} (λ s. record s { phase = phase }) section }
{
    section.map(|section| Section { phase, ..section })
}

/// The section once its store is said, with that token for those that it took.
fn with_store(section: Option<Section>, token: UnparkToken) -> Option<Section>
    ensures { result ≡ option_map {T = Section} (λ s. record s { phase = phase.Stored; token = token }) section }
{
    section.map(|section| Section {
        phase: Phase::Stored,
        token,
        ..section
    })
}

/// Whose section it is, where one is open.
fn owner_of(section: Option<Section>) -> Option<usize>
    ensures { result ≡ option_and_then (λ s. s.thread) section }
{
    section.and_then(|section| section.thread)
}
