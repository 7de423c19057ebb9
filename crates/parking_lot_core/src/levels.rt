//! Places that become more while threads look at them: each level has twice as many as the one before, is made once,
//! and never moves.
use std::alloc::{AllocError, Allocator};
use std::sync::OnceLock;

/// So many levels, of which none has its places yet.
pub(crate) fn none_made<T: Drop, A: Allocator>(
    alloc: A,
    count: usize,
) -> Result<Vec<OnceLock<Vec<T, A>>, A>, AllocError> {
    let mut levels = Vec::with_capacity(alloc, count)?;
    for _ in 0..count {
        levels.push(OnceLock::new())?;
    }
    Ok(levels)
}

/// The places of a level, where they were made.
pub(crate) fn rows<T: Drop, A: Allocator>(
    levels: &[OnceLock<Vec<T, A>>],
    level: usize,
) -> Option<&[T]> {
    Some(levels.get(level)?.get()?)
}

/// Keeps the places of a level, where there are none yet.
pub(crate) fn keep<T: Drop, A: Allocator>(
    levels: &[OnceLock<Vec<T, A>>],
    level: usize,
    rows: Vec<T, A>,
) {
    if let Some(place) = levels.get(level) {
        let _ = place.try_set(rows);
    }
}
