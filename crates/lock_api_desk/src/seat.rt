//! How a guard changes in its place.
ghost use Rattle.std.specs.Prelude.{◌≡◌, true, Err, IfSome, IsOkAnd, MatchOption};
ghost use Rattle.lock_api_desk.specs.declared.mode.Mode.TheVariants.{Exclusive, Upgradable};
ghost use Rattle.lock_api_desk.specs.Guards.{holds, guard_of};
ghost use Rattle.lock_api_desk.specs.Out.{admits, out_of};
ghost use Rattle.lock_api_desk.specs.Entries.{less};
ghost use Rattle.lock_api_desk.specs.Desk.{IsSound, released, turned, set_apart};
ghost use Rattle.lock_api_desk.specs.Refusals.{guard_refusal, upgrade_refusal, ok_unless, unless};
ghost use Rattle.lock_api_desk.specs.Places.{StandsAt, IsPlaceOf, IsLifted, converts};

use crate::desk::Desk;
use crate::fault::DeskFault;
use crate::hold::{Hold, Suit, give_back, mode_of, turn};
use crate::mode::Mode;
use crate::raw::RawState;
use std::alloc::Allocator;
use std::mem;

impl<R: RawState, T, A: Allocator> Desk<R, T, A> {
    /// Turns the party's guard of one mode into one of the other, which needs no look at other guards.
    pub(crate) fn convert(
        &mut self,
        party: u64,
        guard: u64,
        from: Mode,
        to: Mode,
    ) -> Result<(), DeskFault>
        requires { converts from to ≡ true }
        ensures answer { result ≡ ok_unless (guard_refusal (holds from) party guard self.old) tt }
        ensures state { self.new
            ≡ unless (guard_refusal (holds from) party guard self.old) self.old (turned to guard self.old) }
    {
        let place = self.place_of(party, guard, Suit::In(from))?;
        self.turn(place, guard, to);
        Ok(())
    }

    /// Where the upgradable guard stands, if no other guard is held.
    fn place_to_upgrade(
        &self,
        denied: DeskFault,
        party: u64,
        guard: u64,
    ) -> Result<usize, DeskFault>
        ensures place { MatchOption (upgrade_refusal denied party guard self.now)
            (IsPlaceOf guard self.now.guards result)
            (λ fault. result ≡ Err fault) }
        ensures sound { IsSound self.now.limit self.now.guards }
    {
        let place = self.place_of(party, guard, Suit::In(Mode::Upgradable))?;
        if self.is_held_beside(guard) {
            return Err(denied);
        }
        Ok(place)
    }

    /// Makes the upgradable guard exclusive for a while.
    pub(crate) fn lift(
        &mut self,
        denied: DeskFault,
        party: u64,
        guard: u64,
    ) -> Result<usize, DeskFault>
        ensures lifted { MatchOption (upgrade_refusal denied party guard self.old)
            (IsOkAnd result (IsLifted guard self.old.guards self.new.guards))
            (λ fault. result ≡ Err fault) }
        ensures state { self.new
            ≡ unless (upgrade_refusal denied party guard self.old) self.old (turned Exclusive guard self.old) }
    {
        let place = self.place_to_upgrade(denied, party, guard)?;
        self.turn(place, guard, Mode::Exclusive);
        Ok(place)
    }

    /// Makes the exclusive guard upgradable again.
    pub(crate) fn lower(&mut self, place: usize, guard: u64)
        requires at { StandsAt guard self.old.guards place }
        requires exclusive { IfSome (guard_of guard self.old.guards) (λ held. holds Exclusive held ≡ true) }
        ensures { self.new ≡ turned Upgradable guard self.old }
    {
        let _ = &self.raw;
        self.turn(place, guard, Mode::Upgradable);
    }

    /// Takes the guard out and spends its token.
    pub(crate) fn remove(&mut self, place: usize, guard: u64)
        requires { StandsAt guard self.old.guards place }
        ensures { self.new ≡ released guard self.old }
    {
        let entry = self.entries.remove(place);
        give_back(&mut self.raw, entry.hold);
    }

    /// Spends the guard's token and keeps its mode.
    pub(crate) fn put_aside(&mut self, place: usize, guard: u64)
        requires { StandsAt guard self.old.guards place }
        ensures { self.new ≡ set_apart true guard self.old }
    {
        let entry = &mut self.entries[place];
        let kept = mode_of(&entry.hold);
        let hold = mem::replace(&mut entry.hold, Hold::Aside(kept));
        give_back(&mut self.raw, hold);
    }

    /// Holds the guard in the mode, which the raw state admits in place of what the guard has.
    pub(crate) fn turn(&mut self, place: usize, guard: u64, mode: Mode)
        requires at { StandsAt guard self.old.guards place }
        requires next { IfSome (guard_of guard self.old.guards) (λ held.
            admits self.old.limit mode (less held.mode held.is_aside (out_of self.old.guards)) ≡ true) }
        ensures { self.new ≡ turned mode guard self.old }
    {
        let entry = &mut self.entries[place];
        let kept = mode_of(&entry.hold);
        let hold = mem::replace(&mut entry.hold, Hold::Aside(kept));
        entry.hold = turn(&mut self.raw, hold, mode);
    }
}
