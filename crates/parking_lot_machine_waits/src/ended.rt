//! How calls end.

use parking_lot_machine_sides::condvar::CondvarReply;
use parking_lot_protocol::CoreAnswer;

/// How a thread's call ended.
#[derive(Clone, Copy, PartialEq, Eq, Debug)]
pub enum Ended {
    /// One at a lock.
    AtLock(CoreAnswer),
    /// One at a condition variable.
    AtVariable(CondvarReply),
}
