//! How threads end.

use crate::callers::Answers;
use crate::three::Three;

/// Where a thread stays in the end.
#[derive(Clone, Copy, PartialEq, Debug)]
pub enum Stay {
    /// All its calls are answered, or it isn't asked where it stays.
    Done,
    /// It sleeps until a mutex is given up, to lock it or behind a wait.
    AtMutex,
    /// It sleeps until it is notified.
    AtVariable,
}

/// What a thread has been answered in the end, and where it stays.
#[derive(Clone, Copy, PartialEq, Debug)]
pub struct ThreadEnd {
    pub answers: Answers,
    pub stay: Stay,
}

impl ThreadEnd {
    /// Of one that isn't asked where it stays.
    pub fn answered(answers: Answers) -> ThreadEnd {
        ThreadEnd {
            answers,
            stay: Stay::Done,
        }
    }
}

/// How all end, and who still waits at the variable, in order.
#[derive(Clone, Copy, PartialEq, Debug)]
pub struct Ends {
    pub threads: Three<ThreadEnd>,
    pub order: [Option<usize>; 3],
}
