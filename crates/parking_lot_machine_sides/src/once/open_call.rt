//! A call that a thread is in.
ghost use Rattle.std.specs.Prelude.{◌≡◌, Some};
ghost use Rattle.parking_lot_machine_sides.specs.Once.OnceActs.{call_for, off_list, ran, told, woken};

use crate::once::calls::OnceCall;
use parking_lot_protocol::{ActResult, TRY_AGAIN};
use parking_lot_protocol_waits::once::{OnceCore, OnceState};

/// A call that isn't answered yet.
#[derive(Clone, Copy)]
pub struct OpenCall {
    /// The once's number.
    pub once: usize,
    /// What was asked for.
    pub call: OnceCall,
    /// What it has asked for, and waits for.
    pub core: OnceCore,
    /// Who has taken it off its list and is still to wake it.
    pub taker: Option<usize>,
    /// The state that its closure was handed, once that has run.
    pub before: OnceState,
    /// Whether another thread has woken it.
    pub woken: bool,
}

impl OpenCall {
    /// A call that begins.
    pub(crate) fn begun(once: usize, call: OnceCall) -> OpenCall
        ensures { result ≡ call_for once call }
    {
        let mut core = call.core();
        core.next(ActResult::Start);
        OpenCall {
            once,
            call,
            core,
            taker: None,
            before: OnceState::New,
            woken: false,
        }
    }

    /// The call once it is told what its act gave.
    pub(crate) fn told(self, seen: ActResult) -> OpenCall
        ensures { result ≡ told self seen }
    {
        let mut core = self.core;
        core.next(seen);
        OpenCall { core, ..self }
    }

    /// The call of a sleeper once a thread has taken it off its list.
    pub(crate) fn off_list(self, by: usize) -> OpenCall
        ensures { result ≡ off_list by self }
    {
        OpenCall {
            taker: Some(by),
            ..self
        }
    }

    /// The call of a sleeper once it is woken.
    pub(crate) fn woken(self) -> OpenCall
        ensures { result ≡ woken self }
    {
        OpenCall {
            taker: None,
            woken: true,
            ..self.told(ActResult::Woken(TRY_AGAIN))
        }
    }

    /// The call once its closure has run, which was handed that state.
    pub(crate) fn ran(self, before: OnceState) -> OpenCall
        ensures { result ≡ ran self before }
    {
        let mut core = OnceCore::finish(self.call.ends_well());
        core.next(ActResult::Start);
        OpenCall {
            core,
            before,
            ..self
        }
    }
}
