//! Calls that ask for a guard.
ghost use Rattle.std.specs.Prelude.{◌≡◌, true, false, ◌<◌, length, MatchOption, Err, Ok};
ghost use Rattle.lock_api_desk.specs.Guards.{is_in_use, granted};
ghost use Rattle.lock_api_desk.specs.Desk.{admitted};
ghost use Rattle.lock_api_desk.specs.declared.mode.Mode.TheVariants.{Shared, Exclusive, Upgradable};
ghost use Rattle.lock_api_desk.specs.declared.fault.DeskFault.TheVariants.{WouldWait, Taken};
ghost use Rattle.lock_api_desk.specs.Refusals.{admission_refusal, ok_unless, Acquires, KeepsRoom};

use crate::desk::Desk;
use crate::fault::DeskFault;
use crate::hold::{Entry, issue};
use crate::mode::Mode;
use crate::raw::RawState;
use std::alloc::Allocator;

impl<R: RawState, T, A: Allocator> Desk<R, T, A> {
    /// Gives the party an exclusive guard, as of a mutex. `WouldWait` beside any held guard.
    ///
    /// ```text
    /// desk.lock(1, 10)?;   // party 1 holds guard 10
    /// ```
    pub fn lock(&mut self, party: u64, guard: u64) -> Result<(), DeskFault>
        ensures acquires { Acquires WouldWait Exclusive party guard self.old self.new result }
        ensures room { KeepsRoom self.old self.new }
    {
        self.acquire(DeskFault::WouldWait, Mode::Exclusive, party, guard)
    }

    /// As `lock`, but `Taken`.
    ///
    /// ```text
    /// desk.lock(1, 10)?;
    /// let taken = desk.try_lock(2, 11);   // Err(Taken)
    /// ```
    pub fn try_lock(&mut self, party: u64, guard: u64) -> Result<(), DeskFault>
        ensures acquires { Acquires Taken Exclusive party guard self.old self.new result }
        ensures room { KeepsRoom self.old self.new }
    {
        self.acquire(DeskFault::Taken, Mode::Exclusive, party, guard)
    }

    /// Gives the party a shared guard. `WouldWait` beside an exclusive one.
    ///
    /// ```text
    /// desk.read(1, 10)?;
    /// desk.read(2, 11)?;   // beside it
    /// ```
    pub fn read(&mut self, party: u64, guard: u64) -> Result<(), DeskFault>
        ensures acquires { Acquires WouldWait Shared party guard self.old self.new result }
        ensures room { KeepsRoom self.old self.new }
    {
        self.acquire(DeskFault::WouldWait, Mode::Shared, party, guard)
    }

    /// As `read`, but `Taken`.
    ///
    /// ```text
    /// desk.write(1, 10)?;
    /// let taken = desk.try_read(2, 11);   // Err(Taken)
    /// ```
    pub fn try_read(&mut self, party: u64, guard: u64) -> Result<(), DeskFault>
        ensures acquires { Acquires Taken Shared party guard self.old self.new result }
        ensures room { KeepsRoom self.old self.new }
    {
        self.acquire(DeskFault::Taken, Mode::Shared, party, guard)
    }

    /// Gives the party an exclusive guard. `WouldWait` beside any held guard.
    ///
    /// ```text
    /// desk.write(1, 10)?;
    /// let waits = desk.write(2, 11);   // Err(WouldWait)
    /// ```
    pub fn write(&mut self, party: u64, guard: u64) -> Result<(), DeskFault>
        ensures acquires { Acquires WouldWait Exclusive party guard self.old self.new result }
        ensures room { KeepsRoom self.old self.new }
    {
        self.lock(party, guard)
    }

    /// As `write`, but `Taken`.
    ///
    /// ```text
    /// desk.read(1, 10)?;
    /// let taken = desk.try_write(2, 11);   // Err(Taken)
    /// ```
    pub fn try_write(&mut self, party: u64, guard: u64) -> Result<(), DeskFault>
        ensures acquires { Acquires Taken Exclusive party guard self.old self.new result }
        ensures room { KeepsRoom self.old self.new }
    {
        self.try_lock(party, guard)
    }

    /// Gives the party an upgradable guard. `WouldWait` beside an exclusive or an upgradable one.
    ///
    /// ```text
    /// desk.upgradable_read(1, 10)?;
    /// desk.read(2, 11)?;                         // beside it
    /// let waits = desk.upgradable_read(3, 12);   // Err(WouldWait)
    /// ```
    pub fn upgradable_read(&mut self, party: u64, guard: u64) -> Result<(), DeskFault>
        ensures acquires { Acquires WouldWait Upgradable party guard self.old self.new result }
        ensures room { KeepsRoom self.old self.new }
    {
        self.acquire(DeskFault::WouldWait, Mode::Upgradable, party, guard)
    }

    /// As `upgradable_read`, but `Taken`.
    ///
    /// ```text
    /// desk.upgradable_read(1, 10)?;
    /// let taken = desk.try_upgradable_read(2, 11);   // Err(Taken)
    /// ```
    pub fn try_upgradable_read(&mut self, party: u64, guard: u64) -> Result<(), DeskFault>
        ensures acquires { Acquires Taken Upgradable party guard self.old self.new result }
        ensures room { KeepsRoom self.old self.new }
    {
        self.acquire(DeskFault::Taken, Mode::Upgradable, party, guard)
    }

    /// Whether the mode is admitted, and else why not.
    pub(crate) fn admission(&self, denied: DeskFault, mode: Mode) -> Result<(), DeskFault>
        ensures { result ≡ ok_unless (admission_refusal denied mode self.now) tt }
    {
        if self.excluded(mode) {
            return Err(denied);
        }
        if self.is_full(mode) {
            return Err(DeskFault::ReadersFull);
        }
        Ok(())
    }

    /// Gives the party a guard of the mode.
    fn acquire(
        &mut self,
        denied: DeskFault,
        mode: Mode,
        party: u64,
        guard: u64,
    ) -> Result<(), DeskFault>
        ensures acquires { Acquires denied mode party guard self.old self.new result }
        ensures room { KeepsRoom self.old self.new }
    {
        if self.is_in_use(guard) {
            return Err(DeskFault::GuardInUse);
        }
        self.admission(denied, mode)?;
        self.reserve(1)?;
        self.append(mode, party, guard);
        Ok(())
    }

    /// Adds a guard that the machine admits, for which there is room.
    fn append(&mut self, mode: Mode, party: u64, guard: u64)
        requires new { is_in_use guard self.old.guards ≡ false }
        requires granted { granted self.old.limit mode self.old.guards ≡ true }
        requires room { length self.old.guards < self.old.room }
        ensures { self.new ≡ admitted mode party guard self.old }
    {
        let hold = issue(&mut self.raw, mode);
        self.entries.push_reserved(Entry {
            number: guard,
            party,
            hold,
        });
    }
}
