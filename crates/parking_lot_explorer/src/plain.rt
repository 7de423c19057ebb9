//! Calls that are made whole, one after another: what all schedules have to come to.

use std::alloc::AllocError;

/// Three threads at locks, where each call is made at once.
pub trait Plain: Copy + PartialEq {
    /// How they end.
    type End: Copy + PartialEq;

    /// Once a thread has made its next call, or has come further in it, if it may.
    fn after(self, thread: usize) -> Option<Self>;

    /// How they end, where nobody makes a further move.
    fn ends_as(self) -> Self::End;
}

/// Adds one to a list where it isn't there.
pub(crate) fn add<T: Copy + PartialEq>(list: &mut Vec<T>, one: T) -> Result<(), AllocError> {
    if !list.iter().any(|known| *known == one) {
        list.push(one)?;
    }
    Ok(())
}

/// Goes from one state on to the next ones, or to an end.
fn go_on<P: Plain>(at: P, next: &mut Vec<P>, ends: &mut Vec<P::End>) -> Result<(), AllocError> {
    let mut is_last = true;
    for thread in 0..3 {
        if let Some(after) = at.after(thread) {
            is_last = false;
            add(next, after)?;
        }
    }
    if is_last {
        add(ends, at.ends_as())?;
    }
    Ok(())
}

/// How the threads can end in any order of their moves, of which they make so many at most. A call that can't be made
/// is made later, or never.
pub fn ends<P: Plain>(
    rt: &impl AllocGlobal,
    first: P,
    most: u32,
) -> Result<Vec<P::End>, AllocError> {
    let mut ends = Vec::new(rt.alloc());
    let mut states = Vec::new(rt.alloc());
    states.push(first)?;
    for _move in 0..most {
        let mut next = Vec::new(rt.alloc());
        for state in &states {
            go_on(*state, &mut next, &mut ends)?;
        }
        states = next;
    }
    Ok(ends)
}
