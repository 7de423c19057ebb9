//! Whether what a case claims of all schedules is so.

use crate::outcome::Outcome;
use crate::search::Search;
use mapworld_text::{Case, Claim, Expected, Line, Order, Part, Term, terms};
use std::alloc::Global;

/// A claim that isn't so.
#[derive(Clone, Copy)]
pub struct Broken {
    /// Which of the case's lines it is.
    pub line: usize,
    /// The outcome that breaks it, if one does.
    pub outcome: Option<usize>,
}

/// Whether a word is the one that is wanted; in any case of its letters, where that is said.
fn is_word(found: &str, wanted: Option<&&str>, any_case: bool) -> bool {
    match wanted {
        Some(wanted) if any_case => wanted.eq_ignore_ascii_case(found),
        Some(wanted) => *wanted == found,
        None => false,
    }
}

/// Whether the text is these words; in any case of their letters, where that is said.
pub(crate) fn is_text(found: &str, want: &[&str], any_case: bool) -> bool {
    let mut count: usize = 0;
    for word in found.split_whitespace() {
        if !is_word(word, want.get(count), any_case) {
            return false;
        }
        count = count.saturating_add(1);
    }
    count == want.len()
}

/// Whether a part of a claim is so of an outcome.
fn is_part(outcome: &Outcome, term: &Term<'_>) -> bool {
    match term.part {
        Part::Contents => is_text(outcome.contents.as_str(), &term.want, true),
        Part::Answer(thread, call) => match outcome.answer(thread, call) {
            Some(text) => is_text(text, &term.want, true),
            None => false,
        },
    }
}

/// Whether all parts of a claim are so of an outcome.
pub fn is_so(outcome: &Outcome, terms: &[Term<'_>]) -> bool {
    terms.iter().all(|term| is_part(outcome, term))
}

/// The first outcome of which that is so, or isn't.
fn first(outcomes: &[Outcome], terms: &[Term<'_>], so: bool) -> Option<usize> {
    outcomes
        .iter()
        .position(|outcome| is_so(outcome, terms) == so)
}

/// How a claim is broken, if it is: the outcome that breaks it, if one does.
fn breaks(
    alloc: Global,
    case: &Case<'_>,
    outcomes: &[Outcome],
    claim: Claim,
    want: &[&str],
) -> Result<Option<Option<usize>>, Expected> {
    if let Claim::Outcomes(count) = claim {
        return Ok(if outcomes.len() == count {
            None
        } else {
            Some(None)
        });
    }
    let terms = terms(alloc, case, want)?;
    let found = first(outcomes, &terms, !matches!(claim, Claim::Always));
    Ok(match (claim, found) {
        (Claim::Sometimes, Some(_)) => None,
        (Claim::Sometimes, None) => Some(None),
        (_, Some(outcome)) => Some(Some(outcome)),
        (_, None) => None,
    })
}

/// Whether a line claims something of all schedules.
pub fn is_claim(line: &Line<'_>) -> bool {
    matches!(line.order, Order::Claim(_))
}

/// The first claim of a case that isn't so, by a search that has come to its end.
pub fn broken_claim(
    alloc: Global,
    case: &Case<'_>,
    search: &Search<'_, '_>,
) -> Result<Option<Broken>, Expected> {
    for (line, told) in case.lines.iter().enumerate() {
        if let Order::Claim(claim) = told.order {
            match breaks(alloc, case, &search.outcomes, claim, &told.want)? {
                Some(outcome) => return Ok(Some(Broken { line, outcome })),
                None => {}
            }
        }
    }
    Ok(None)
}
