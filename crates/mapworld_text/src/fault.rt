//! Why a text isn't read.

use std::alloc::{AllocError, AllocFailed};
use std::error::Error;
use std::fmt;

/// What a line should have had.
#[derive(Clone, Copy)]
pub enum Expected {
    /// No more spaces at its beginning than 0, 2 or 4.
    Depth,
    /// A line of a case.
    Line,
    /// A call on the map, two spaces behind its thread.
    Call,
    /// A call on a guard, four spaces behind its thread.
    GuardCall,
    /// What is done with a pair.
    Deed,
    Number,
    /// A key and its value, with `=` between them.
    Pair,
    /// A thread above a call.
    Program,
    /// The name or the number of a thread.
    Thread,
    /// What is seen of a world.
    View,
    /// What is claimed of all schedules.
    Claim,
    /// A number of a call of the thread that the claim is about.
    CallNumber,
    /// Memory.
    Memory,
}

impl Expected {
    /// In words.
    pub fn words(self) -> &'static str {
        match self {
            Expected::Depth => "0, 2 or 4 spaces before the first word",
            Expected::Line => {
                "`case`, `shards`, `pairs`, `thread`, `copies`, `again`, `fair`, `either`, `step`, `deadline`, `through`, `until`, `round`, `drain`, `end`, `seed`, `run`, `expect`, `outcomes`, `never`, `always` or `sometimes`"
            }
            Expected::Call => "a call on the map",
            Expected::GuardCall => "a call on a guard",
            Expected::Deed => {
                "`add N`, `set N`, `keep all`, `keep none`, `keep value < N` or `keep value >= N`"
            }
            Expected::Number => "a number",
            Expected::Pair => "a pair, as 1=10",
            Expected::Program => "a thread above its calls",
            Expected::Thread => "the name or the number of a thread",
            Expected::View => "what is seen of a world",
            Expected::Claim => "what a call is answered, as a=none or a.0=none, or `contents 1=10`",
            Expected::CallNumber => "the number of one of the thread's calls, as a.0=none",
            Expected::Memory => "more memory",
        }
    }
}

/// Why a text isn't read.
#[derive(Clone, Copy)]
pub enum TextFault {
    /// The line has not what is expected there. Lines are numbered from 1.
    Line { line: usize, expected: Expected },
    /// Room was refused.
    NoMemory,
}

impl fmt::Display for TextFault {
    fn fmt<W: fmt::Write>(&self, f: &mut fmt::Formatter<W>) -> fmt::Result {
        match self {
            TextFault::Line { line, expected } => {
                let words = expected.words();
                write!(f, "line {line}: expected {words}")
            }
            TextFault::NoMemory => write!(f, "out of memory"),
        }
    }
}

/// Shows what `Display` writes.
impl fmt::Debug for TextFault {
    fn fmt<W: fmt::Write>(&self, f: &mut fmt::Formatter<W>) -> fmt::Result {
        write!(f, "{self}")
    }
}

impl Error for TextFault {}

impl From<AllocError> for Expected {
    fn from(_refused: AllocError) -> Expected {
        Expected::Memory
    }
}

impl<T: Drop> From<AllocFailed<T>> for Expected {
    fn from(_refused: AllocFailed<T>) -> Expected {
        Expected::Memory
    }
}

impl From<AllocError> for TextFault {
    fn from(_refused: AllocError) -> TextFault {
        TextFault::NoMemory
    }
}

impl<T: Drop> From<AllocFailed<T>> for TextFault {
    fn from(_refused: AllocFailed<T>) -> TextFault {
        TextFault::NoMemory
    }
}
