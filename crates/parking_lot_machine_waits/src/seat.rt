//! Where a thread is in a call.

/// Where a thread is in a call at a condition variable, and with which of its two numbers at the locks it waits there.
#[derive(Clone, Copy, PartialEq, Eq, Debug)]
pub struct Seat {
    /// The number of the variable; `None` where it is in no call at one.
    pub at: Option<usize>,
    /// Of a wait: whether it sleeps and locks its mutex again as the second of its numbers.
    pub second: bool,
}

/// In no call at a condition variable.
pub(crate) const NOWHERE: Seat = Seat {
    at: None,
    second: false,
};
