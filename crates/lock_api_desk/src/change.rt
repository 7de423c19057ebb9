//! Calls on a guard.
ghost use Rattle.std.specs.Prelude.{◌≡◌, true, false};
ghost use Rattle.lock_api_desk.specs.declared.mode.Mode.TheVariants.{Shared, Exclusive, Upgradable};
ghost use Rattle.lock_api_desk.specs.declared.fault.DeskFault.TheVariants.{WouldWait, Taken};
ghost use Rattle.lock_api_desk.specs.Guards.{is_held, holds};
ghost use Rattle.lock_api_desk.specs.Desk.{released, turned, set_apart};
ghost use Rattle.lock_api_desk.specs.Refusals.{guard_refusal, upgrade_refusal, take_up_refusal, ok_unless, unless};

use crate::desk::Desk;
use crate::fault::DeskFault;
use crate::hold::Suit;
use crate::mode::Mode;
use crate::raw::RawState;
use std::alloc::Allocator;

impl<R: RawState, T, A: Allocator> Desk<R, T, A> {
    /// Gives the guard up, whatever its mode. A guard that is set aside is `WrongMode`.
    ///
    /// ```text
    /// desk.write(1, 10)?;
    /// desk.unlock(1, 10)?;   // the number may be used again
    /// ```
    pub fn unlock(&mut self, party: u64, guard: u64) -> Result<(), DeskFault>
        ensures answer { result ≡ ok_unless (guard_refusal is_held party guard self.old) tt }
        ensures state { self.new
            ≡ unless (guard_refusal is_held party guard self.old) self.old (released guard self.old) }
    {
        let place = self.place_of(party, guard, Suit::Held)?;
        self.remove(place, guard);
        Ok(())
    }

    /// As `unlock`. On a desk nobody waits, so there is no difference.
    ///
    /// ```text
    /// desk.write(1, 10)?;
    /// desk.unlock_fair(1, 10)?;
    /// ```
    pub fn unlock_fair(&mut self, party: u64, guard: u64) -> Result<(), DeskFault>
        ensures answer { result ≡ ok_unless (guard_refusal is_held party guard self.old) tt }
        ensures state { self.new
            ≡ unless (guard_refusal is_held party guard self.old) self.old (released guard self.old) }
    {
        self.unlock(party, guard)
    }

    /// Changes nothing, since nobody waits on a desk.
    ///
    /// ```text
    /// desk.write(1, 10)?;
    /// desk.bump(1, 10)?;   // as it was
    /// ```
    pub fn bump(&mut self, party: u64, guard: u64) -> Result<(), DeskFault>
        ensures answer { result ≡ ok_unless (guard_refusal is_held party guard self.old) tt }
        ensures state { self.new ≡ self.old }
    {
        let _place = self.place_of(party, guard, Suit::Held)?;
        Ok(())
    }

    /// Exclusive becomes shared.
    ///
    /// ```text
    /// desk.write(1, 10)?;
    /// desk.downgrade(1, 10)?;
    /// desk.read(2, 11)?;   // beside it
    /// ```
    pub fn downgrade(&mut self, party: u64, guard: u64) -> Result<(), DeskFault>
        ensures answer { result ≡ ok_unless (guard_refusal (holds Exclusive) party guard self.old) tt }
        ensures state { self.new
            ≡ unless (guard_refusal (holds Exclusive) party guard self.old) self.old (turned Shared guard self.old) }
    {
        self.convert(party, guard, Mode::Exclusive, Mode::Shared)
    }

    /// Exclusive becomes upgradable.
    ///
    /// ```text
    /// desk.write(1, 10)?;
    /// desk.downgrade_to_upgradable(1, 10)?;
    /// ```
    pub fn downgrade_to_upgradable(&mut self, party: u64, guard: u64) -> Result<(), DeskFault>
        ensures answer { result ≡ ok_unless (guard_refusal (holds Exclusive) party guard self.old) tt }
        ensures state { self.new
            ≡ unless (guard_refusal (holds Exclusive) party guard self.old) self.old
            (turned Upgradable guard self.old) }
    {
        self.convert(party, guard, Mode::Exclusive, Mode::Upgradable)
    }

    /// Upgradable becomes shared.
    ///
    /// ```text
    /// desk.upgradable_read(1, 10)?;
    /// desk.downgrade_upgradable(1, 10)?;
    /// desk.upgradable_read(2, 11)?;   // there is one at a time
    /// ```
    pub fn downgrade_upgradable(&mut self, party: u64, guard: u64) -> Result<(), DeskFault>
        ensures answer { result ≡ ok_unless (guard_refusal (holds Upgradable) party guard self.old) tt }
        ensures state { self.new
            ≡ unless (guard_refusal (holds Upgradable) party guard self.old) self.old (turned Shared guard self.old) }
    {
        self.convert(party, guard, Mode::Upgradable, Mode::Shared)
    }

    /// Upgradable becomes exclusive. `WouldWait` beside any other held guard.
    ///
    /// ```text
    /// desk.upgradable_read(1, 10)?;
    /// desk.upgrade(1, 10)?;   // alone
    /// ```
    pub fn upgrade(&mut self, party: u64, guard: u64) -> Result<(), DeskFault>
        ensures answer { result ≡ ok_unless (upgrade_refusal WouldWait party guard self.old) tt }
        ensures state { self.new
            ≡ unless (upgrade_refusal WouldWait party guard self.old) self.old (turned Exclusive guard self.old) }
    {
        let _place = self.lift(DeskFault::WouldWait, party, guard)?;
        Ok(())
    }

    /// As `upgrade`, but `Taken`.
    ///
    /// ```text
    /// desk.upgradable_read(1, 10)?;
    /// desk.read(2, 11)?;
    /// let taken = desk.try_upgrade(1, 10);   // Err(Taken)
    /// ```
    pub fn try_upgrade(&mut self, party: u64, guard: u64) -> Result<(), DeskFault>
        ensures answer { result ≡ ok_unless (upgrade_refusal Taken party guard self.old) tt }
        ensures state { self.new
            ≡ unless (upgrade_refusal Taken party guard self.old) self.old (turned Exclusive guard self.old) }
    {
        let _place = self.lift(DeskFault::Taken, party, guard)?;
        Ok(())
    }

    /// The first half of an unlocked section: gives the hold up and keeps the number, the mode and the party. The
    /// number stays in use, and no call but `take_up` suits the guard.
    ///
    /// ```text
    /// desk.write(1, 10)?;
    /// desk.set_aside(1, 10)?;
    /// desk.read(2, 11)?;   // in between
    /// ```
    pub fn set_aside(&mut self, party: u64, guard: u64) -> Result<(), DeskFault>
        ensures answer { result ≡ ok_unless (guard_refusal is_held party guard self.old) tt }
        ensures state { self.new
            ≡ unless (guard_refusal is_held party guard self.old) self.old (set_apart true guard self.old) }
    {
        let place = self.place_of(party, guard, Suit::Held)?;
        self.put_aside(place, guard);
        Ok(())
    }

    /// The second half of an unlocked section: holds the guard again in the mode that it kept. `WouldWait` where a
    /// held guard excludes that mode. It takes no memory.
    ///
    /// ```text
    /// desk.write(1, 10)?;
    /// desk.set_aside(1, 10)?;
    /// desk.take_up(1, 10)?;   // exclusive again
    /// ```
    pub fn take_up(&mut self, party: u64, guard: u64) -> Result<(), DeskFault>
        ensures answer { result ≡ ok_unless (take_up_refusal party guard self.old) tt }
        ensures state { self.new
            ≡ unless (take_up_refusal party guard self.old) self.old (set_apart false guard self.old) }
    {
        let place = self.place_of(party, guard, Suit::Aside)?;
        let mode = self.mode_at(place, guard);
        self.admission(DeskFault::WouldWait, mode)?;
        self.turn(place, guard, mode);
        Ok(())
    }
}
