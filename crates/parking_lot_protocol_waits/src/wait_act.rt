//! What a wait asks for, and what it is told of it.

use parking_lot_core_model::UnparkToken;

/// What a wait does next. All sections are those of the variable's key, but for one that takes itself off the mutex's
/// list.
#[derive(Clone, Copy, PartialEq, Eq, Debug)]
pub enum WaitAct {
    /// It asks for nothing: it hasn't begun, or was told what its act can't give.
    Nothing,
    /// Load the word.
    Load,
    /// Enter the section; load the word there, to see which mutex it shows; leave the section.
    Enter,
    Check,
    Leave,
    /// Join the end of the list, and show the mutex by this word.
    Append,
    Show(u64),
    /// Give the mutex up by a call of its own, and wait for it by one.
    UnlocksMutex,
    LocksMutex,
    /// Sleep until another thread wakes this one, or the moment passes.
    Sleep,
    /// Enter the section of the list again in which it stands, and take itself off that list, if it still stands there.
    Reenters,
    TakesItself,
    /// Store 0, as nobody is left.
    Forgets,
    /// Mask the parked bit off the mutex's word, as nobody is left in the mutex's list.
    MasksMutex,
    /// The call is over.
    Done(WaitAnswer),
}

/// What the last act gave.
#[derive(Clone, Copy, PartialEq, Eq, Debug)]
pub enum WaitSeen {
    /// Nothing yet: the call begins.
    Start,
    /// A load or a check saw this word.
    Word(u64),
    /// The act was made.
    Made,
    /// Another thread woke this one, with that token.
    Woken(UnparkToken),
    /// Its moment has passed, and nobody has woken it.
    Expired,
    /// It has taken itself off the variable's list, or off the mutex's, and whether it was the last there.
    Quit { here: bool, last: bool },
    /// Another had taken it before, and was to wake it with that token.
    WasTaken(UnparkToken),
}

/// How a wait ended. In each case the mutex is owned.
#[derive(Clone, Copy, PartialEq, Eq, Debug)]
pub enum WaitAnswer {
    /// It was woken.
    Woken,
    /// Its moment passed while it stood in the variable's own list.
    TimedOut,
    /// Others wait with another mutex, and nothing was done.
    WrongMutex,
    /// Nobody waits, and the mutex is of another lot; nothing was done.
    WrongLot,
}
