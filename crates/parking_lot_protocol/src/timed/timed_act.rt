//! What a call that may give up asks for, and what it is told of it.

use crate::{Act, ActResult};
use parking_lot_core_model::UnparkToken;

/// What a call that may give up does next.
#[derive(Clone, Copy, PartialEq, Eq, Debug)]
pub enum TimedAct {
    /// An act of a call that waits. Where that sleeps, its moment may pass.
    Makes(Act),
    /// Enter the section again in which it fell asleep.
    Reenters,
    /// Take itself off the list, if it still stands there.
    TakesItself,
    /// Mask the parked bit off the word.
    Masks,
    /// Leave the section.
    Leaves,
    /// The call is over: it has given up, and owns nothing.
    GivesUp,
}

/// What its last act gave.
#[derive(Clone, Copy, PartialEq, Eq, Debug)]
pub enum TimedSeen {
    /// What the act of a call that waits gave, or that the call begins.
    Plain(ActResult),
    /// Its moment has passed, and nobody has woken it.
    Expired,
    /// The section is entered again.
    Reentered,
    /// It has taken itself off the list, and whether it was the last there.
    Quit { last: bool },
    /// Another had taken it before, and was to wake it with that token.
    WasTaken(UnparkToken),
    /// The parked bit is masked off.
    Masked,
    /// The section is left.
    Left,
}
