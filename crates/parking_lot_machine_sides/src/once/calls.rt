//! What threads ask for at a once, and what they are answered.
ghost use Rattle.std.specs.Prelude.{◌≡◌};
ghost use Rattle.parking_lot_machine_sides.specs.Once.OnceCalls.{asking, ends_well, ran_or_failed, wish_of};

use parking_lot_protocol_waits::once::{OnceCore, OnceState, Wish};

/// A call at a once. Where it has a closure, the number says whether that ends well, if it is run.
#[derive(Clone, Copy, PartialEq, Eq, Debug)]
pub enum OnceCall {
    /// Runs its closure where none has run, waits while one runs, and is refused where the last one has failed.
    CallOnce(bool),
    /// The same, but it runs its closure also where the last one has failed.
    CallOnceForce(bool),
    /// Waits until a closure has ended well, and is refused where the last one has failed.
    OnceWait,
    /// The same, but it waits on where the last closure has failed.
    OnceWaitForce,
}

/// What a call is answered.
#[derive(Clone, Copy, PartialEq, Eq, Debug)]
pub enum OnceReply {
    /// Its own closure ran and ended well; it was handed this state.
    Ran(OnceState),
    /// Its own closure ran and failed.
    Failed,
    /// The closure before had failed, and its own didn't run.
    Poisoned,
    /// A closure has ended well, and its own didn't run.
    Completed,
}

impl OnceCall {
    /// What it wants.
    pub fn wish(self) -> Wish
        ensures { result ≡ wish_of self }
    {
        let (runs, force) = match self {
            OnceCall::CallOnce(_) => (true, false),
            OnceCall::CallOnceForce(_) => (true, true),
            OnceCall::OnceWait => (false, false),
            OnceCall::OnceWaitForce => (false, true),
        };
        Wish { runs, force }
    }

    /// Whether its closure ends well, if it has one.
    pub fn ends_well(self) -> bool
        ensures { result ≡ ends_well self }
    {
        match self {
            OnceCall::CallOnce(well) | OnceCall::CallOnceForce(well) => well,
            OnceCall::OnceWait | OnceCall::OnceWaitForce => false,
        }
    }

    /// Its core, before it begins.
    pub(crate) fn core(self) -> OnceCore
        ensures { result ≡ asking self }
    {
        match self {
            OnceCall::CallOnce(_) => OnceCore::call_once(),
            OnceCall::CallOnceForce(_) => OnceCore::call_once_force(),
            OnceCall::OnceWait => OnceCore::wait(),
            OnceCall::OnceWaitForce => OnceCore::wait_force(),
        }
    }

    /// The answer once its own closure has run, and was handed that state.
    pub(crate) fn ran_or_failed(self, before: OnceState) -> OnceReply
        ensures { result ≡ ran_or_failed self before }
    {
        if self.ends_well() {
            OnceReply::Ran(before)
        } else {
            OnceReply::Failed
        }
    }
}
