//! One-time initialization on a row of a lock table.
ghost use Rattle.std.specs.Prelude.{◌≡◌, IfOk, true};
ghost use Rattle.parking_lot_mutex.specs.Once.OnceRuns.{Answered, Calls, CallsUnlessPoisoned, MayRun, WaitEnds};
ghost use Rattle.parking_lot_mutex.specs.Once.OnceRuns.{ended_well, forced, plain, waiting_on};
ghost use Rattle.parking_lot_rules.specs.declared.once.once_state.OnceState.{OnceState};
ghost use Rattle.parking_lot_rules.specs.declared.once.once_state.OnceState.TheVariants.{New};
ghost use Rattle.parking_lot_rules.specs.declared.once.wish.Wish.{Wish};
ghost use Rattle.parking_lot_protocol_waits.specs.Once.OnceAnswers.{IsUnderWay, MayAnswer};
ghost use Rattle.parking_lot_protocol_waits.specs.Once.OnceTable.{next_phase};
ghost use Rattle.parking_lot_protocol_waits.specs.declared.once.once_phase.OncePhase.TheVariants.{Asking, Returning};
ghost use Rattle.parking_lot_protocol_waits.specs.declared.once.once_phase.OnceAnswer.TheVariants as answer;
ghost use Rattle.parking_lot_protocol.specs.declared.act.ActResult.TheVariants.{Start};

use crate::once::calls::{Await, AwaitForce, CallOnce, CallOnceForce, EndFailed, EndWell, RowCore};
use crate::once::fault::{OnceFault, Poisoned};
use lock_api_raw::TableFull;
use parking_lot_core::ThreadData;
use parking_lot_driver::{Call, LockTable, Row, run_to_its_end};
use parking_lot_protocol_waits::once::{OnceAnswer, OnceState, state_of};
use std::alloc::{Allocator, Global};
use std::fmt;
use std::sync::Wait;

/// The word of one that is done.
const DONE: u64 = 1;

/// Runs one closure once, on one row of a lock table. A closure answers a `Result`: its error poisons, and then only a
/// forced call runs another. No call takes memory.
///
/// ```text
/// let lot = ParkingLot::new(rt, alloc, 16, 7)?;
/// let table = LockTable::new(alloc, &lot, 1)?;
/// let mut me = lot.thread_data()?;
/// let once = Once::new(&table)?;
/// once.call_once(&mut me, || Ok::<(), u8>(()))?;
/// assert_eq!(rt; once.state(), OnceState::Done);
/// ```
#[derive(Drop)]
pub struct Once<'t, 'l, R, A: Allocator = Global> {
    row: Row<'t, 'l, R, A>,
}

impl<'t, 'l, R, A: Allocator> Once<'t, 'l, R, A> {
    /// One for which no closure has run. [`TableFull`] where the table has no row left.
    ///
    /// ```text
    /// let once = Once::new(&table)?;
    /// ```
    pub fn new(table: &'t LockTable<'l, R, A>) -> Result<Once<'t, 'l, R, A>, TableFull>
        ensures { IfOk result (λ once. once.row.table.now ≡ table.now) }
    {
        Ok(Once {
            row: table.claim()?,
        })
    }

    /// One that is done from the beginning. [`TableFull`] where the table has no row left.
    ///
    /// ```text
    /// let once = Once::new_completed(&table)?;
    /// ```
    pub fn new_completed(table: &'t LockTable<'l, R, A>) -> Result<Once<'t, 'l, R, A>, TableFull>
        ensures { IfOk result (λ once. once.row.table.now ≡ table.now) }
    {
        let row = table.claim()?;
        row.store(DONE);
        Ok(Once { row })
    }

    /// The same as [`new`](Once::new).
    ///
    /// ```text
    /// let once = Once::default(&table)?;
    /// ```
    pub fn default(table: &'t LockTable<'l, R, A>) -> Result<Once<'t, 'l, R, A>, TableFull>
        ensures { IfOk result (λ once. once.row.table.now ≡ table.now) }
    {
        Once::new(table)
    }

    /// The state, at one look.
    ///
    /// ```text
    /// let begun = once.state() != OnceState::New;
    /// ```
    pub fn state(&self) -> OnceState {
        state_of(self.row.load())
    }

    /// Whether a closure has ended well, at one look.
    ///
    /// ```text
    /// let done = once.is_completed();
    /// ```
    pub fn is_completed(&self) -> bool {
        self.state().is_completed()
    }

    /// Whether one look shows that a closure has ended well: then every call is over.
    #[inline(always)]
    fn completed_at_once(&self) -> bool
        ensures { (wish : Wish) → result ≡ true → Answered (Asking wish) answer.Completed }
    {
        let word = self.row.load();
        word == DONE
    }
}

impl<R: Wait, A: Allocator> Once<'_, '_, R, A> {
    /// Runs a call to its end, and answers how it ended.
    #[inline(never)]
    fn answered<K: Call<Core = RowCore>>(&self, call: K, party: &mut ThreadData<A>) -> OnceAnswer
        requires { IsUnderWay K.begun.core.phase (next_phase K.begun.core.phase Start) }
        ensures answer { Answered K.begun.core.phase result }
        ensures may { MayAnswer K.begun.core.phase result }
    {
        match run_to_its_end(&self.row, call, party).core.answer() {
            Some(answer) => answer,
            None => unreachable!(),
        }
    }

    /// Stores how the caller's closure has ended, and wakes those that wait.
    fn stored<E>(&self, end: Result<(), E>, party: &mut ThreadData<A>) -> Result<(), E>
        ensures end { result ≡ end }
        ensures stored { Answered (Returning (ended_well end)) answer.Finished }
    {
        match end {
            Ok(()) => {
                self.answered(EndWell, party);
                Ok(())
            }
            Err(error) => {
                self.answered(EndFailed, party);
                Err(error)
            }
        }
    }

    /// Runs the closure where none has run. Where one has ended well it is over at once, and while one runs it waits.
    ///
    /// [`OnceFault::Poisoned`] where the last closure has failed; [`OnceFault::Failed`] where this one does, with its
    /// error.
    ///
    /// Blocks while another's closure runs. A closure that calls the same once waits for itself for ever, where it has
    /// other data of the thread; with the data that the outer call was lent it doesn't compile.
    ///
    /// ```text
    /// let ended = once.call_once(&mut me, || -> Result<(), NotFound> {
    ///     number.store(search(5000)?, Ordering::SeqCst);   // its error poisons
    ///     Ok(())
    /// });
    /// if ended.is_ok() { println!(rt; "{}", number.load(Ordering::SeqCst))?; }
    /// ```
    pub fn call_once<E, F: FnOnce() -> Result<(), E> + Drop>(
        &self,
        party: &mut ThreadData<A>,
        f: F,
    ) -> Result<(), OnceFault<E>>
        requires { MayRun plain New → F.pre f }
        ensures { CallsUnlessPoisoned (λ end. F.post f end) result }
    {
        if self.completed_at_once() {
            return Ok(());
        }
        match self.answered(CallOnce, party) {
            OnceAnswer::Runs(_) => match self.stored(f(), party) {
                Ok(()) => Ok(()),
                Err(error) => Err(OnceFault::Failed(error)),
            },
            OnceAnswer::Completed => Ok(()),
            OnceAnswer::Poisoned => Err(OnceFault::Poisoned),
            OnceAnswer::Finished => unreachable!(),
        }
    }

    /// The same as [`call_once`](Once::call_once), but it runs the closure also where the last one has failed. The
    /// closure is handed the state before, and its error is handed on.
    ///
    /// Blocks as `call_once`.
    ///
    /// ```text
    /// once.call_once_force(&mut me, |before| if before.is_poisoned() { Ok(()) } else { Err(NotFound) })?;
    /// ```
    pub fn call_once_force<E, F: FnOnce(OnceState) -> Result<(), E> + Drop>(
        &self,
        party: &mut ThreadData<A>,
        f: F,
    ) -> Result<(), E>
        requires { (before : OnceState) → MayRun forced before → F.pre f before }
        ensures { Calls forced (λ before end. F.post f before end) result }
    {
        if self.completed_at_once() {
            return Ok(());
        }
        match self.answered(CallOnceForce, party) {
            OnceAnswer::Runs(before) => self.stored(f(before), party),
            OnceAnswer::Completed => Ok(()),
            OnceAnswer::Poisoned | OnceAnswer::Finished => unreachable!(),
        }
    }

    /// Waits until a closure has ended well. [`Poisoned`] where the last one has failed.
    ///
    /// Blocks until then, for ever where nobody runs a closure.
    ///
    /// ```text
    /// if once.wait(&mut me).is_ok() { println!(rt; "made")?; }
    /// ```
    pub fn wait(&self, party: &mut ThreadData<A>) -> Result<(), Poisoned>
        ensures { WaitEnds result }
    {
        if self.completed_at_once() {
            return Ok(());
        }
        match self.answered(Await, party) {
            OnceAnswer::Completed => Ok(()),
            OnceAnswer::Poisoned => Err(Poisoned),
            OnceAnswer::Runs(_) | OnceAnswer::Finished => unreachable!(),
        }
    }

    /// Waits until a closure has ended well, also where the last one has failed.
    ///
    /// Blocks until then, for ever where no closure ends well.
    ///
    /// ```text
    /// once.wait_force(&mut me);
    /// ```
    pub fn wait_force(&self, party: &mut ThreadData<A>)
        ensures { Answered (Asking waiting_on) answer.Completed }
    {
        if self.completed_at_once() {
            return;
        }
        match self.answered(AwaitForce, party) {
            OnceAnswer::Completed => {}
            OnceAnswer::Runs(_) | OnceAnswer::Poisoned | OnceAnswer::Finished => unreachable!(),
        }
    }
}

impl<R, A: Allocator> fmt::Debug for Once<'_, '_, R, A> {
    fn fmt<W: fmt::Write>(&self, f: &mut fmt::Formatter<W>) -> fmt::Result {
        f.debug_struct("Once")
            .field("state", &self.state())
            .finish()
    }
}
