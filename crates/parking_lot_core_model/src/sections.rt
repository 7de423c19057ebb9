//! The steps of a section: a thread enters, looks, takes or joins, and leaves.
ghost use Rattle.std.specs.Prelude.{◌≡◌, ◌+◌, Some, None, true, false, IsSome, if◌then◌else◌, MatchOption, drop};
ghost use Rattle.std.specs.Prelude.{count_by, slice_get, List};
ghost use Rattle.std.specs.List.{list_any};
ghost use Rattle.std.specs.Option.{option_map, option_map_or};
ghost use Rattle.parking_lot_core_model.specs.declared.parking.FilterOp.{FilterOp};
ghost use Rattle.parking_lot_core_model.specs.declared.place.Place.TheVariants.{Running};
ghost use Rattle.parking_lot_core_model.specs.declared.place.Phase.TheVariants as phase;
ghost use Rattle.parking_lot_core_model.specs.Places.{place_at, mark_of, may_check, may_join, may_take, may_store};
ghost use Rattle.parking_lot_core_model.specs.Results.{Answers, is_no_skip, is_skip, is_take};
ghost use Rattle.parking_lot_core_model.specs.Machine.{machine, tokens_of, section_of, any_phase, enter_fault};
ghost use Rattle.parking_lot_core_model.specs.Machine.{step_fault, opened, in_phase, stored, closed, taken, taking_of};
ghost use Rattle.parking_lot_core_model.specs.Machine.{TakesInSection, Checks, Appends, Does, Makes, in_section};
ghost use Rattle.parking_lot_core_model.specs.Sound.{IsOpen, IsInside};
ghost use Rattle.parking_lot_core_model.specs.declared.place.Section.{Section};

use crate::fault::LotFault;
use crate::lot::Lot;
use crate::parking::{FilterOp, ParkToken, UnparkToken};
use crate::place::{Phase, Section, Taking};
use std::alloc::Allocator;

impl<A: Allocator> Lot<A> {
    /// Opens a section of a key, of a running thread. While it is open nothing else can enter one in the key's bucket.
    pub fn enter(&mut self, thread: usize, key: usize) -> Result<(), LotFault>
        ensures { Does (λ m. enter_fault m thread key) (Makes (λ m. opened m (Some thread) key))
            (machine self.old) result
            (machine self.new) }
    {
        if let Some(fault) = self.enter_fault(thread, key) {
            return Err(fault);
        }
        self.open(Some(thread), key);
        Ok(())
    }

    /// The section that the thread is in.
    pub(crate) fn section_of(&self, thread: usize) -> Option<Section>
        ensures section { result ≡ section_of (machine self.now) thread }
        ensures known { (s : Section) → result ≡ Some s → IsInside (machine self.now) thread s }
    {
        let key = self.buckets.key_of(thread)?;
        self.buckets.at(key)
    }

    /// Says what the validation answered, before anything else is done in the section. Where it is false only `leave`
    /// fits. Answers the same.
    pub fn check(&mut self, thread: usize, holds: bool) -> Result<bool, LotFault>
        ensures { Does (λ m. step_fault may_check m thread) (Checks thread holds) (machine self.old) result
            (machine self.new) }
    {
        let Some(section) = self.section_of(thread) else {
            return Err(LotFault::WrongStatus);
        };
        if !section.phase.may_check() {
            return Err(LotFault::WrongStatus);
        }
        self.set_phase(
            section.key,
            if holds { Phase::Valid } else { Phase::Invalid },
        );
        Ok(holds)
    }

    /// Puts the section's thread at the end of the key's list; it waits once it has left. Nothing may have been taken
    /// in the section.
    pub fn append(
        &mut self,
        thread: usize,
        park_token: ParkToken,
        timed: bool,
    ) -> Result<(), LotFault>
        ensures { Does (λ m. step_fault may_join m thread) (Appends thread park_token timed) (machine self.old) result
            (machine self.new) }
    {
        let Some(section) = self.section_of(thread) else {
            return Err(LotFault::WrongStatus);
        };
        if !section.phase.may_join() {
            return Err(LotFault::WrongStatus);
        }
        self.set_phase(section.key, Phase::Joined);
        self.join(thread, section.key, park_token, timed);
        Ok(())
    }

    /// Shows the waiters that the section hasn't passed to a filter, in order: the first that it wants is taken out.
    /// `None` where the filter stops, or the list ends; then the taking is over.
    pub fn take_next<F: FnMut(ParkToken) -> FilterOp + Drop>(
        &mut self,
        thread: usize,
        filter: F,
    ) -> Result<Option<Taking>, LotFault>
        requires { F.IsAlwaysCallable filter }
        ensures { Does (λ m. step_fault may_take m thread) (TakesInSection F.step filter thread) (machine self.old)
            result (machine self.new) }
    {
        let Some(section) = self.section_of(thread) else {
            return Err(LotFault::WrongStatus);
        };
        if !section.phase.may_take() {
            return Err(LotFault::WrongStatus);
        }
        let found = self.seek(section.key, section.phase.passed(), filter);
        Ok(self.take_found(section.key, found))
    }

    /// Says that the word has been stored, and gives those that the section took their token.
    pub fn store_done(&mut self, thread: usize, unpark_token: UnparkToken) -> Result<(), LotFault>
        ensures { Does (λ m. step_fault may_store m thread)
            (Makes (in_section (λ m key. stored m key unpark_token) thread))
            (machine self.old) result (machine self.new) }
    {
        let Some(section) = self.section_of(thread) else {
            return Err(LotFault::WrongStatus);
        };
        if !section.phase.may_store() {
            return Err(LotFault::WrongStatus);
        }
        self.say_store(section.key, unpark_token);
        Ok(())
    }

    /// Closes the section. Its thread runs, or waits if it was appended; those that it took have their token, and
    /// [`wake`](Lot::wake) is owed to each.
    pub fn leave(&mut self, thread: usize) -> Result<(), LotFault>
        ensures { Does (λ m. step_fault any_phase m thread) (Makes (in_section (λ m key. closed m key false) thread))
            (machine self.old) result (machine self.new) }
    {
        let Some(section) = self.section_of(thread) else {
            return Err(LotFault::WrongStatus);
        };
        self.close(section.key, false);
        Ok(())
    }

    /// Shows a key's waiters to a filter from a place on. Answers where the first stands that it wants.
    fn seek<F: FnMut(ParkToken) -> FilterOp + Drop>(
        &self,
        key: usize,
        passed: usize,
        mut filter: F,
    ) -> Option<usize>
        requires { F.IsAlwaysCallable filter }
        ensures { (answers : List FilterOp) × (last : F)
            × Answers F.step is_no_skip filter (tokens_of (drop passed ((machine self.now).queues key))) answers last
            × (result ≡ (if list_any is_take answers then Some (passed + count_by is_skip answers) else None)) }
    {
        let count = self.count(key);
        for at in passed..count {
            let waiter = self.waiter(key, at)?;
            match filter(waiter.token) {
                FilterOp::Unpark => return Some(at),
                FilterOp::Skip => {}
                FilterOp::Stop => return None,
            }
        }
        None
    }

    /// Takes the waiter that was found, or ends the taking.
    fn take_found(&mut self, key: usize, found: Option<usize>) -> Option<Taking>
        requires { IsOpen (machine self.old) key }
        ensures { MatchOption found ((result ≡ None) × (machine self.new ≡ in_phase (machine self.old) key phase.Ended))
            (λ at. (result ≡ option_map (taking_of (machine self.old)) (slice_get ((machine self.old).queues key) at))
            × (machine self.new ≡ taken (in_phase (machine self.old) key (phase.Taking at)) key at)) }
    {
        match found {
            None => {
                self.set_phase(key, Phase::Ended);
                None
            }
            Some(nth) => {
                self.set_phase(key, Phase::Taking(nth));
                let taking = self.taking(key, nth);
                self.take_out(key, nth);
                taking
            }
        }
    }

    /// What is told of a waiter that is taken.
    fn taking(&self, key: usize, nth: usize) -> Option<Taking>
        ensures { result ≡ option_map (taking_of (machine self.now)) (slice_get ((machine self.now).queues key) nth) }
    {
        let waiter = self.waiter(key, nth)?;
        Some(Taking {
            thread: waiter.thread,
            token: waiter.token,
            mark: self.mark_of(waiter.thread),
        })
    }

    /// The mark of a thread's sleep.
    fn mark_of(&self, thread: usize) -> u64
        ensures { result ≡ option_map_or mark_of (place_at (machine self.now).places thread) 0 }
    {
        match self.place(thread) {
            Some(place) => place.mark(),
            None => 0,
        }
    }
}
