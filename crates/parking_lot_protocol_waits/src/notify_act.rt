//! What a notification asks for, and what it is told of it.

use parking_lot_core_model::RequeueOp;

/// What a notification does next. The section is that of the variable's key.
#[derive(Clone, Copy, PartialEq, Eq, Debug)]
pub enum NotifyAct {
    /// It asks for nothing: it hasn't begun, or was told what its act can't give.
    Nothing,
    /// Load the word.
    Load,
    /// Enter the section, where the word has shown a mutex; load the word there; leave the section.
    Enter,
    Check,
    Leave,
    /// Set the parked bit of the mutex's word if the mutex is locked.
    MarksIfLocked,
    /// Take waiters off the variable's list: some are woken, and some are moved to the end of the mutex's list.
    Moves(RequeueOp),
    /// Set the parked bit of the mutex's word.
    Marks,
    /// Store 0, as nobody is left.
    Forgets,
    /// Wake the one that was taken to be woken.
    Wake,
    /// The call is over, and so many were taken.
    Done(usize),
}

/// What the last act gave.
#[derive(Clone, Copy, PartialEq, Eq, Debug)]
pub enum NotifySeen {
    /// Nothing yet: the call begins.
    Start,
    /// A load or a check saw this word.
    Word(u64),
    /// The act was made.
    Made,
    /// Whether the mutex was locked.
    Marked(bool),
    /// How many were taken to be woken, and how many were moved; and whether waiters are left in the variable's list.
    Moved {
        unparked: usize,
        requeued: usize,
        left: bool,
    },
}
