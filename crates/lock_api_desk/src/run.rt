//! Lists of calls.
ghost use Rattle.std.specs.Prelude.{◌≡◌, MatchResult, OnOk, IfErr};
ghost use Rattle.lock_api_desk.specs.declared.fault.DeskFault.TheVariants.{WouldWait, Taken};
ghost use Rattle.lock_api_desk.specs.Guards.{is_held, holds};
ghost use Rattle.lock_api_desk.specs.declared.mode.Mode.TheVariants.{Exclusive};
ghost use Rattle.lock_api_desk.specs.Desk.{with_value};
ghost use Rattle.lock_api_desk.specs.Refusals.{guard_refusal, upgrade_refusal, ok_unless, unless};
ghost use Rattle.lock_api_desk.specs.Calls.{Makes, Refuses, Runs, IsStopped};

use crate::call::DeskCall;
use crate::desk::Desk;
use crate::fault::{DeskFault, DeskRunFault};
use crate::raw::RawState;
use std::alloc::Allocator;

impl<R: RawState, T: Drop, A: Allocator + Drop> Desk<R, T, A> {
    /// Makes the calls in order and stops at the first that is refused, whose place it tells, counted from 0. The
    /// earlier calls stand, and what reads and writes answer is dropped.
    ///
    /// ```text
    /// let calls = vec![in rt.alloc(); DeskCall::Write(1, 10), DeskCall::WriteValue(1, 10, 7), DeskCall::Read(2, 11)]?;
    /// let fault = desk.run(calls);   // Err: the call 2 would wait, and the value is 7
    /// ```
    pub fn run(&mut self, calls: Vec<DeskCall<T>, A>) -> Result<(), DeskRunFault>
        ensures done { OnOk result (Runs calls.items self.old self.new) }
        ensures stopped { IfErr result (IsStopped calls.items self.old self.new) }
    {
        let mut place = 0;
        for call in calls {
            if let Err(fault) = self.make(call) {
                return Err(DeskRunFault { place, fault });
            }
            place += 1;
        }
        Ok(())
    }

    /// Makes one call.
    fn make(&mut self, call: DeskCall<T>) -> Result<(), DeskFault>
        ensures { MatchResult result
            (λ _. Makes call self.old self.new)
            (λ fault. Refuses call self.old fault × (self.new ≡ self.old)) }
    {
        match call {
            DeskCall::Lock(party, guard) => self.lock(party, guard),
            DeskCall::TryLock(party, guard) => self.try_lock(party, guard),
            DeskCall::Read(party, guard) => self.read(party, guard),
            DeskCall::TryRead(party, guard) => self.try_read(party, guard),
            DeskCall::Write(party, guard) => self.write(party, guard),
            DeskCall::TryWrite(party, guard) => self.try_write(party, guard),
            DeskCall::UpgradableRead(party, guard) => self.upgradable_read(party, guard),
            DeskCall::TryUpgradableRead(party, guard) => self.try_upgradable_read(party, guard),
            DeskCall::Unlock(party, guard) => self.unlock(party, guard),
            DeskCall::UnlockFair(party, guard) => self.unlock_fair(party, guard),
            DeskCall::Bump(party, guard) => self.bump(party, guard),
            DeskCall::Downgrade(party, guard) => self.downgrade(party, guard),
            DeskCall::DowngradeToUpgradable(party, guard) => {
                self.downgrade_to_upgradable(party, guard)
            }
            DeskCall::DowngradeUpgradable(party, guard) => self.downgrade_upgradable(party, guard),
            DeskCall::Upgrade(party, guard) => self.upgrade(party, guard),
            DeskCall::TryUpgrade(party, guard) => self.try_upgrade(party, guard),
            DeskCall::SetAside(party, guard) => self.set_aside(party, guard),
            DeskCall::TakeUp(party, guard) => self.take_up(party, guard),
            DeskCall::ReadValue(party, guard) => self.look(party, guard),
            DeskCall::WithUpgraded(party, guard, value) => self.put_upgraded(party, guard, value),
            DeskCall::TryWithUpgraded(party, guard, value) => {
                self.try_put_upgraded(party, guard, value)
            }
            DeskCall::WriteValue(party, guard, value) => self.put(party, guard, value),
        }
    }

    /// Reads the value and drops the answer.
    fn look(&self, party: u64, guard: u64) -> Result<(), DeskFault>
        ensures { result ≡ ok_unless (guard_refusal is_held party guard self.now) tt }
    {
        self.read_value(party, guard)?;
        Ok(())
    }

    /// Stores the value and drops the old one.
    fn put(&mut self, party: u64, guard: u64, value: T) -> Result<(), DeskFault>
        ensures answer { result ≡ ok_unless (guard_refusal (holds Exclusive) party guard self.old) tt }
        ensures state { self.new
            ≡ unless (guard_refusal (holds Exclusive) party guard self.old) self.old (with_value value self.old) }
    {
        let _before = self.write_value(party, guard, value)?;
        Ok(())
    }

    /// Stores the value while the guard is upgraded.
    fn put_upgraded(&mut self, party: u64, guard: u64, value: T) -> Result<(), DeskFault>
        ensures answer { result ≡ ok_unless (upgrade_refusal WouldWait party guard self.old) tt }
        ensures state { self.new
            ≡ unless (upgrade_refusal WouldWait party guard self.old) self.old (with_value value self.old) }
    {
        self.with_upgraded(party, guard, |held: &mut T| *held = value)
    }

    /// As `put_upgraded`, as a try.
    fn try_put_upgraded(&mut self, party: u64, guard: u64, value: T) -> Result<(), DeskFault>
        ensures answer { result ≡ ok_unless (upgrade_refusal Taken party guard self.old) tt }
        ensures state { self.new
            ≡ unless (upgrade_refusal Taken party guard self.old) self.old (with_value value self.old) }
    {
        self.try_with_upgraded(party, guard, |held: &mut T| *held = value)
    }
}
