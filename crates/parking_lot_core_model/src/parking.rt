//! What parking and unparking are told and answer.
ghost use Rattle.std.specs.Prelude.{◌≡◌, false};
ghost use Rattle.parking_lot_core_model.specs.Results.{is_unparked};

/// A number that a thread carries while it is parked. Its meaning is the caller's: a filter is shown it.
#[derive(Clone, Copy, PartialEq, Eq, Debug)]
pub struct ParkToken(pub usize);

/// A number that is handed to a thread as it is unparked. Its meaning is the caller's.
#[derive(Clone, Copy, PartialEq, Eq, Debug)]
pub struct UnparkToken(pub usize);

/// The park token of callers that need none.
pub const DEFAULT_PARK_TOKEN: ParkToken = ParkToken(0);

/// The unpark token of callers that need none.
pub const DEFAULT_UNPARK_TOKEN: UnparkToken = UnparkToken(0);

/// How a park ended.
#[derive(Clone, Copy, PartialEq, Eq, Debug)]
pub enum ParkResult {
    /// Another thread took this one out of its list, with that token.
    Unparked(UnparkToken),
    /// The validation answered false, and the thread never stood in a list.
    Invalid,
    /// The thread's own deadline took it out.
    TimedOut,
}

impl ParkResult {
    /// Whether another thread ended the park.
    pub fn is_unparked(self) -> bool
        ensures { result ≡ is_unparked self }
    {
        match self {
            ParkResult::Unparked(_) => true,
            ParkResult::Invalid | ParkResult::TimedOut => false,
        }
    }
}

/// What an unpark did.
#[derive(Clone, Copy, PartialEq, Eq, Debug)]
pub struct UnparkResult {
    /// How many threads were taken out of the list and woken.
    pub unparked_threads: usize,
    /// How many were moved to the other list.
    pub requeued_threads: usize,
    /// Whether threads were left in the list.
    pub have_more_threads: bool,
    /// Whether the caller had better be fair this time. An exclusive lot never asks for it.
    pub be_fair: bool,
}

impl Default for UnparkResult {
    ghost use Rattle.std.specs.Prelude.{◌≡◌, false};

    ghost is_default = { λ result. result ≡ record {
      unparked_threads = 0;
      requeued_threads = 0;
      have_more_threads = false;
      be_fair = false;
    } };

    /// Nothing was done.
    fn default() -> UnparkResult {
        UnparkResult {
            unparked_threads: 0,
            requeued_threads: 0,
            have_more_threads: false,
            be_fair: false,
        }
    }
}

/// What a requeue does with the first list.
#[derive(Clone, Copy, PartialEq, Eq, Debug)]
pub enum RequeueOp {
    /// Nothing.
    Abort,
    /// Wakes the first thread and moves the others.
    UnparkOneRequeueRest,
    /// Moves all threads.
    RequeueAll,
    /// Wakes the first thread and leaves the others.
    UnparkOne,
    /// Moves the first thread and leaves the others.
    RequeueOne,
}

/// What a filter answers on a thread's token.
#[derive(Clone, Copy, PartialEq, Eq, Debug)]
pub enum FilterOp {
    /// Take this thread.
    Unpark,
    /// Leave it, and go on.
    Skip,
    /// Leave it, and show none behind it.
    Stop,
}
