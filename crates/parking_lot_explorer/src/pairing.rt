//! Which programs are tried beside which.

use std::alloc::{AllocError, Global};

/// Pairs of programs.
#[derive(Clone, Copy)]
pub enum Pairs<'p, P> {
    /// Each two of those, and each with itself.
    Among(&'p [P]),
    /// Each of the first with each of the others.
    Between(&'p [P], &'p [P]),
    /// Each of so many, the first ones, with itself and all behind it.
    FirstOf(&'p [P], usize),
}

/// Adds one program beside each of the others.
fn add_with<P: Copy>(pairs: &mut Vec<(P, P)>, first: P, others: &[P]) -> Result<(), AllocError> {
    for second in others {
        pairs.push((first, *second))?;
    }
    Ok(())
}

/// Adds each of so many programs beside itself and those behind it.
fn add_among<P: Copy>(
    pairs: &mut Vec<(P, P)>,
    programs: &[P],
    count: usize,
) -> Result<(), AllocError> {
    for (at, first) in programs.iter().enumerate().take(count) {
        add_with(pairs, *first, programs.get(at..).unwrap_or(&[]))?;
    }
    Ok(())
}

/// All of some pairs.
pub fn pairs_of<P: Copy>(
    alloc: Global,
    groups: &[Pairs<'_, P>],
) -> Result<Vec<(P, P)>, AllocError> {
    let mut pairs = Vec::new(alloc);
    for group in groups {
        match *group {
            Pairs::Among(programs) => add_among(&mut pairs, programs, programs.len())?,
            Pairs::FirstOf(programs, count) => add_among(&mut pairs, programs, count)?,
            Pairs::Between(firsts, others) => {
                for first in firsts {
                    add_with(&mut pairs, *first, others)?;
                }
            }
        }
    }
    Ok(pairs)
}
