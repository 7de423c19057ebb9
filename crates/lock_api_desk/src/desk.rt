//! The desk.
ghost use Rattle.std.specs.Prelude.{◌≡◌, ℕ, [], ◌+◌, ◌≤◌, ◌<◌, length, MatchOption, IfErr, IfSome, OnOk, OnErr, Err};
ghost use Rattle.std.specs.Prelude.{vec_capacity};
ghost use Rattle.std.specs.Option.{option_map};
ghost use Rattle.lock_api_desk.specs.Out.{nothing_out};
ghost use Rattle.lock_api_desk.specs.declared.fault.DeskFault.TheVariants.{NoMemory};
ghost use Rattle.lock_api_desk.specs.Guards.{guard_of, held_of, is_in_use, excluded, is_full, is_held_beside};
ghost use Rattle.lock_api_desk.specs.Entries.{suits};
ghost use Rattle.lock_api_desk.specs.Desk.{DeskState, with_room, IsSound};
ghost use Rattle.lock_api_desk.specs.Refusals.{guard_refusal, KeepsRoom};
ghost use Rattle.lock_api_desk.specs.Places.{IsPlaceOf, StandsAt};

use crate::fault::DeskFault;
use crate::hold::{Entry, Suit, mode_of, suits};
use crate::look;
use crate::mode::Mode;
use crate::raw::RawState;
use std::alloc::{Allocator, Global};
use std::marker::Model;

/// A value, its guards and their raw state.
///
/// A contract sees a desk as its limit of readers, its room, its guards in the order in which they came, and its
/// value. The room is for how many guards in all there is memory: only [`reserve`](Desk::reserve) and an acquisition
/// beyond the room take memory, and nothing gives it back while the desk lives. Numbers in use are distinct, and the
/// held guards go together.
///
/// Of several refusals that apply to one call, an acquisition answers the first of `GuardInUse`, `WouldWait` or
/// `Taken`, `ReadersFull`, `NoMemory`, and a call on a guard the first of `NoSuchGuard`, `NotTheParty`, `WrongMode`,
/// `WouldWait` or `Taken`, `ReadersFull`.
#[derive(Drop)]
pub struct Desk<R: RawState, T, A: Allocator = Global> {
    pub(crate) raw: R,
    pub(crate) entries: Vec<Entry<R::Shared, R::Exclusive, R::Upgradable>, A>,
    pub(crate) value: T,
}

impl<R: RawState, T, A: Allocator> Model for Desk<R, T, A> {
    ghost use Rattle.std.specs.Prelude.{vec_capacity};
    ghost use Rattle.lock_api_desk.specs.Desk.{DeskState};

    ghost Value = { DeskState T };

    ghost use Rattle.lock_api_desk.specs.Entries.{guards_in};
    ghost use Rattle.lock_api_desk.specs.Places.{Stands};

    ghost view = { λ d. record {
      limit = R.limit_of d.raw;
      room = vec_capacity d.entries;
      guards = guards_in d.entries.items;
      value = d.value;
    } };

    ghost invariant = { λ d. Stands (R.limit_of d.raw) (R.out d.raw) d.entries.items };
}

impl<R: RawState, T, A: Allocator> Desk<R, T, A> {
    /// A desk with no guard, over a raw state of which nothing is out. It takes no memory yet, and keeps the allocator
    /// for its list of guards.
    ///
    /// ```text
    /// let desk = Desk::new(rt.alloc(), TokenTable::new(8), 5_u64);   // at most 8 readers
    /// ```
    pub fn new(alloc: A, raw: R, value: T) -> Desk<R, T, A>
        requires { R.out raw ≡ nothing_out }
        ensures { result ≡ record { limit = R.limit_of raw; room = 0; guards = []; value = value } }
    {
        let _limit = raw.limit();
        Desk {
            raw,
            entries: Vec::new(alloc),
            value,
        }
    }

    /// Makes room for so many guards beyond those that are held or set aside, so that so many acquisitions take no
    /// memory. `NoMemory` where a growth was needed and refused.
    ///
    /// ```text
    /// desk.reserve(2)?;   // the next two acquisitions aren't refused for memory
    /// ```
    pub fn reserve(&mut self, guards: usize) -> Result<(), DeskFault>
        ensures state { self.new ≡ with_room self.new.room self.old }
        ensures ok { OnOk result (length self.old.guards + guards ≤ self.new.room) }
        ensures grows { self.old.room ≤ self.new.room }
        ensures refused { IfErr result (λ fault.
            (fault ≡ NoMemory) × (self.new ≡ self.old) × (self.old.room < length self.old.guards + guards)) }
        ensures used { length self.old.guards + guards ≤ self.old.room → self.new.room ≡ self.old.room }
    {
        if guards <= self.entries.capacity() - self.entries.len() {
            return Ok(());
        }
        match self.entries.reserve(guards) {
            Ok(()) => Ok(()),
            Err(refused) => Err(DeskFault::from(lock_api_raw::NoMemory::from(refused))),
        }
    }

    /// The mode and the party of a held guard. None for any other number, and for a guard that is set aside.
    ///
    /// ```text
    /// desk.read(1, 10)?;
    /// let mode = desk.held(10);   // Some((Mode::Shared, 1))
    /// ```
    pub fn held(&self, guard: u64) -> Option<(Mode, u64)>
        ensures found { result ≡ option_map (λ held. (held.mode, held.party)) (held_of guard self.now.guards) }
        ensures sound { IsSound self.now.limit self.now.guards }
    {
        match look::held(&self.entries, guard) {
            Some(entry) => Some((mode_of(&entry.hold), entry.party)),
            None => None,
        }
    }

    /// Lends the value. It is always allowed.
    ///
    /// ```text
    /// let five = *desk.value();
    /// ```
    pub fn value(&self) -> &T
        ensures value { result.now ≡ self.now.value }
        ensures sound { IsSound self.now.limit self.now.guards }
    {
        &self.value
    }

    /// Whether the number is held or set aside.
    pub(crate) fn is_in_use(&self, guard: u64) -> bool
        ensures { result ≡ is_in_use guard self.now.guards }
    {
        look::has_number(&self.entries, guard)
    }

    /// Whether a held guard excludes the mode.
    pub(crate) fn excluded(&self, mode: Mode) -> bool
        ensures { result ≡ excluded mode self.now.guards }
    {
        look::excludes(&self.entries, mode)
    }

    /// Whether one more guard of the mode would pass the limit of readers.
    pub(crate) fn is_full(&self, mode: Mode) -> bool
        ensures { result ≡ is_full self.now.limit mode self.now.guards }
    {
        mode.is_reader() && self.raw.readers_full()
    }

    /// Whether a guard of another number is held.
    pub(crate) fn is_held_beside(&self, guard: u64) -> bool
        ensures { result ≡ is_held_beside guard self.now.guards }
    {
        look::holds_beside(&self.entries, guard)
    }

    /// Where the guard stands in the list, if it is the party's and suits the call.
    pub(crate) fn place_of(&self, party: u64, guard: u64, suit: Suit) -> Result<usize, DeskFault>
        ensures place { MatchOption (guard_refusal (suits suit) party guard self.now)
            (IsPlaceOf guard self.now.guards result)
            (λ fault. result ≡ Err fault) }
        ensures sound { IsSound self.now.limit self.now.guards }
    {
        let Some(place) = look::position_of(&self.entries, guard) else {
            return Err(DeskFault::NoSuchGuard);
        };
        let entry = &self.entries[place];
        if entry.party != party {
            return Err(DeskFault::NotTheParty);
        }
        if !suits(entry, suit) {
            return Err(DeskFault::WrongMode);
        }
        Ok(place)
    }

    /// The mode of the guard that stands there, and the kept one if it is set aside.
    pub(crate) fn mode_at(&self, place: usize, guard: u64) -> Mode
        requires { StandsAt guard self.now.guards place }
        ensures { IfSome (guard_of guard self.now.guards) (λ found. result ≡ found.mode) }
    {
        mode_of(&self.entries[place].hold)
    }
}
