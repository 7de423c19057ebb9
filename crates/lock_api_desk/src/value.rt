//! Calls that reach the value through a guard.
ghost use Rattle.std.specs.Prelude.{◌≡◌, MatchOption, IsOkAnd, Err};
ghost use Rattle.std.specs.Fn.{FnOnceReturnsAtMut};
ghost use Rattle.lock_api_desk.specs.declared.mode.Mode.TheVariants.{Exclusive};
ghost use Rattle.lock_api_desk.specs.declared.fault.DeskFault.TheVariants.{WouldWait, Taken};
ghost use Rattle.lock_api_desk.specs.Guards.{is_held, holds};
ghost use Rattle.lock_api_desk.specs.Desk.{with_value};
ghost use Rattle.lock_api_desk.specs.Refusals.{guard_refusal, upgrade_refusal};

use crate::desk::Desk;
use crate::fault::DeskFault;
use crate::hold::Suit;
use crate::mode::Mode;
use crate::raw::RawState;
use std::alloc::Allocator;
use std::mem;

impl<R: RawState, T, A: Allocator> Desk<R, T, A> {
    /// Lends the value through a held guard of any mode. `WrongMode` for one that is set aside alone.
    ///
    /// ```text
    /// desk.read(1, 10)?;
    /// let five = *desk.read_value(1, 10)?;
    /// ```
    pub fn read_value(&self, party: u64, guard: u64) -> Result<&T, DeskFault>
        ensures { MatchOption (guard_refusal is_held party guard self.now)
            (IsOkAnd result (λ value. value.now ≡ self.now.value))
            (λ fault. result ≡ Err fault) }
    {
        self.place_of(party, guard, Suit::Held)?;
        Ok(&self.value)
    }

    /// Stores the value through an exclusive guard and answers the old one. A refused call lets the given value go.
    ///
    /// ```text
    /// desk.write(1, 10)?;
    /// let five = desk.write_value(1, 10, 7)?;   // 7 from now on
    /// ```
    pub fn write_value(&mut self, party: u64, guard: u64, value: T) -> Result<T, DeskFault>
    where
        T: Drop,
        ensures { MatchOption (guard_refusal (holds Exclusive) party guard self.old)
            (IsOkAnd result (λ before. (before ≡ self.old.value) × (self.new ≡ with_value value self.old)))
            (λ fault. (result ≡ Err fault) × (self.new ≡ self.old)) }
    {
        self.place_of(party, guard, Suit::In(Mode::Exclusive))?;
        Ok(mem::replace(&mut self.value, value))
    }

    /// Makes the upgradable guard exclusive, calls the closure on the value, and makes the guard upgradable again.
    /// `WouldWait` beside any other held guard. Where it is refused the closure isn't called.
    ///
    /// ```text
    /// desk.upgradable_read(1, 10)?;
    /// let old = desk.with_upgraded(1, 10, |value| std::mem::replace(value, 7))?;   // 5
    /// ```
    pub fn with_upgraded<U, F: FnOnce(&mut T) -> U + Drop>(
        &mut self,
        party: u64,
        guard: u64,
        f: F,
    ) -> Result<U, DeskFault>
        requires { F.IsAlwaysCallable f }
        ensures { MatchOption (upgrade_refusal WouldWait party guard self.old)
            (IsOkAnd result (λ answer.
            FnOnceReturnsAtMut F.FnOnce f self.old.value answer self.new.value
            × (self.new ≡ with_value self.new.value self.old)))
            (λ fault. (result ≡ Err fault) × (self.new ≡ self.old)) }
    {
        let place = self.lift(DeskFault::WouldWait, party, guard)?;
        let answer = apply(&mut self.value, f);
        self.lower(place, guard);
        Ok(answer)
    }

    /// As `with_upgraded`, but `Taken`.
    ///
    /// ```text
    /// desk.upgradable_read(1, 10)?;
    /// desk.read(2, 11)?;
    /// let taken = desk.try_with_upgraded(1, 10, |value| *value = 7);   // Err(Taken)
    /// ```
    pub fn try_with_upgraded<U, F: FnOnce(&mut T) -> U + Drop>(
        &mut self,
        party: u64,
        guard: u64,
        f: F,
    ) -> Result<U, DeskFault>
        requires { F.IsAlwaysCallable f }
        ensures { MatchOption (upgrade_refusal Taken party guard self.old)
            (IsOkAnd result (λ answer.
            FnOnceReturnsAtMut F.FnOnce f self.old.value answer self.new.value
            × (self.new ≡ with_value self.new.value self.old)))
            (λ fault. (result ≡ Err fault) × (self.new ≡ self.old)) }
    {
        let place = self.lift(DeskFault::Taken, party, guard)?;
        let answer = apply(&mut self.value, f);
        self.lower(place, guard);
        Ok(answer)
    }
}

/// Calls the closure on the value.
fn apply<T, U, F: FnOnce(&mut T) -> U>(value: &mut T, f: F) -> U
    requires { F.IsAlwaysCallable f }
    ensures { FnOnceReturnsAtMut F.FnOnce f value.old result value.new }
{
    f(value)
}
