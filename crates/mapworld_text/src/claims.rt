//! What is claimed of all schedules of a case, as it is written.

use crate::asks::count;
use crate::case::Case;
use crate::fault::Expected;
use std::alloc::Global;

/// Of which outcomes something is claimed.
#[derive(Clone, Copy)]
pub enum Claim {
    /// There are so many.
    Outcomes(usize),
    /// None is so.
    Never,
    /// Each is so.
    Always,
    /// At least one is so.
    Sometimes,
}

/// What a part of a claim is about.
#[derive(Clone, Copy)]
pub enum Part {
    /// What a call of a thread is answered.
    Answer(usize, usize),
    /// The pairs at the end.
    Contents,
}

/// A part of a claim: what it is about, and in which words that is to be found.
#[derive(Drop)]
pub struct Term<'a> {
    pub part: Part,
    pub want: Vec<&'a str>,
}

/// The thread and the call that stand before the `=`, if a thread does: `a.0`, or `a` where it makes one call.
fn answered(case: &Case<'_>, word: &str) -> Result<Option<Part>, Expected> {
    let (name, call) = match word.split_once('.') {
        Some((name, call)) => (name, Some(call)),
        None => (word, None),
    };
    let Some(thread) = case.names.iter().position(|known| *known == name) else {
        return Ok(None);
    };
    let calls = match case.programs.get(thread) {
        Some(program) => program.len(),
        None => 0,
    };
    match call {
        None if calls == 1 => Ok(Some(Part::Answer(thread, 0))),
        None => Err(Expected::CallNumber),
        Some(call) => numbered(thread, count(call)?, calls),
    }
}

/// A call of a thread that makes so many.
fn numbered(thread: usize, call: usize, calls: usize) -> Result<Option<Part>, Expected> {
    if call < calls {
        Ok(Some(Part::Answer(thread, call)))
    } else {
        Err(Expected::CallNumber)
    }
}

/// The part that a word begins, if it begins one, and the first word that is to be found there.
fn begun<'a>(case: &Case<'_>, word: &'a str) -> Result<Option<(Part, &'a str)>, Expected> {
    if word == "contents" {
        return Ok(Some((Part::Contents, "")));
    }
    match word.split_once('=') {
        Some((left, right)) => match answered(case, left)? {
            Some(part) => Ok(Some((part, right))),
            None => Ok(None),
        },
        None => Ok(None),
    }
}

/// The part with so much of it.
fn new_term<'a>(alloc: Global, part: Part, first: &'a str) -> Result<Term<'a>, Expected> {
    let mut want = Vec::new(alloc);
    if !first.is_empty() {
        want.push(first)?;
    }
    Ok(Term { part, want })
}

/// The parts of a claim.
pub fn terms<'a>(
    alloc: Global,
    case: &Case<'_>,
    words: &[&'a str],
) -> Result<Vec<Term<'a>>, Expected> {
    let mut terms: Vec<Term<'a>> = Vec::new(alloc);
    for word in words {
        match begun(case, word)? {
            Some((part, first)) => terms.push(new_term(alloc, part, first)?)?,
            None => match terms.last_mut() {
                Some(term) => term.want.push(*word)?,
                None => return Err(Expected::Claim),
            },
        }
    }
    if terms.is_empty() {
        return Err(Expected::Claim);
    }
    Ok(terms)
}
