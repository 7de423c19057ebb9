//! The calls of a one-time initialization, as plain data.
ghost use Rattle.std.specs.Prelude.{◌≡◌, true, false};
ghost use Rattle.parking_lot_core_model.specs.declared.parking.UnparkToken.{UnparkToken};
ghost use Rattle.parking_lot_protocol_waits.specs.declared.once.once_phase.OncePhase.TheVariants.{Asking, Returning};
ghost use Rattle.parking_lot_protocol_waits.specs.Once.OnceAnswers.{EndsByAnAnswer, KeepsToItsCall};
ghost use Rattle.parking_lot_protocol_waits.specs.Once.OnceMoves.{Ended, Follows};
ghost use Rattle.parking_lot_protocol_waits.specs.Once.OnceTable.{act_of, answer_of, next_phase};

use crate::once::once_phase::{OnceAnswer, OncePhase};
use parking_lot_core_model::UnparkToken;
use parking_lot_protocol::{Act, ActResult, TRY_AGAIN};
use parking_lot_rules::once::Wish;

/// The state of one call of a one-time initialization. It is told what its last act gave, and answers the next one.
///
/// A call that is to run its closure ends with [`OnceAnswer::Runs`], and its end is a call of its own,
/// [`OnceCore::finish`].
///
/// ```text
/// let mut core = OnceCore::call_once();
/// assert_eq!(rt; core.next(ActResult::Start), Act::Load);
/// assert_eq!(rt; core.next(ActResult::Word(0)), Act::Exchange(0, 4));
/// assert_eq!(rt; core.next(ActResult::Exchanged), Act::Done(CoreAnswer::Owned));
/// assert_eq!(rt; core.answer(), Some(OnceAnswer::Runs(OnceState::New)));
/// ```
#[derive(Clone, Copy)]
pub struct OnceCore {
    phase: OncePhase,
}

impl OnceCore {
    /// A call that runs its closure where none has run, waits where one runs, and is refused where the last one has
    /// failed.
    pub fn call_once() -> OnceCore
        ensures { result.phase ≡ Asking (record { runs = true; force = false }) }
    {
        OnceCore::asking(true, false)
    }

    /// The same of a call that runs its closure also where the last one has failed.
    pub fn call_once_force() -> OnceCore
        ensures { result.phase ≡ Asking (record { runs = true; force = true }) }
    {
        OnceCore::asking(true, true)
    }

    /// A call that waits until a closure has ended well, and is refused where the last one has failed.
    pub fn wait() -> OnceCore
        ensures { result.phase ≡ Asking (record { runs = false; force = false }) }
    {
        OnceCore::asking(false, false)
    }

    /// The same of a call that waits on where the last closure has failed.
    pub fn wait_force() -> OnceCore
        ensures { result.phase ≡ Asking (record { runs = false; force = true }) }
    {
        OnceCore::asking(false, true)
    }

    /// A call that stores how the caller's closure has ended, and wakes those that wait.
    pub fn finish(well: bool) -> OnceCore
        ensures { result.phase ≡ Returning well }
    {
        OnceCore {
            phase: OncePhase::Returning(well),
        }
    }

    /// A call that wants this.
    fn asking(runs: bool, force: bool) -> OnceCore
        ensures { result.phase ≡ Asking (record { runs = runs; force = force }) }
    {
        OnceCore {
            phase: OncePhase::Asking(Wish { runs, force }),
        }
    }

    /// Where it stands.
    pub fn phase(&self) -> OncePhase
        ensures { result ≡ self.now.phase }
    {
        self.phase
    }

    /// The act that it has asked for. Before it begins it asks for nothing, and says that it is refused.
    pub fn act(&self) -> Act
        ensures { result ≡ act_of self.now.phase }
    {
        self.phase.act()
    }

    /// How the call has ended, if it has.
    pub fn answer(&self) -> Option<OnceAnswer>
        ensures answer { result ≡ answer_of self.now.phase }
        ensures ends { EndsByAnAnswer self.now.phase }
    {
        self.phase.answer()
    }

    /// The token for those that a section has taken: they look again.
    pub fn wake_token(&self) -> UnparkToken
        ensures { result ≡ record { 0 = 0 } }
    {
        TRY_AGAIN
    }

    /// Is told what the last act gave, and answers the next. What doesn't fit the act is met by `Done(Refused)`, and no
    /// answer.
    pub fn next(&mut self, seen: ActResult) -> Act
        ensures phase { self.new.phase ≡ next_phase self.old.phase seen }
        ensures act { result ≡ act_of self.new.phase }
        ensures rules { Follows self.old.phase seen }
        ensures end { Ended self.new.phase }
        ensures answers { KeepsToItsCall self.old.phase seen }
    {
        self.phase = self.phase.after(seen).unwrap_or(OncePhase::Invalid);
        self.phase.act()
    }
}
