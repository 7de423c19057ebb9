//! Outcomes of searches in which steps that nobody else sees are made at once, beside those of searches that try each
//! order of all steps.

use mapworld_explorer::{Limits, Outcome, Search};
use mapworld_text::{Case, read};
use std::alloc::Global;
use std::process::Abort;
use std::test::Fail;

/// More than any of the searches needs.
const FAR: Limits = Limits {
    states: 200_000,
    steps: 1_000,
};

/// Programs of all kinds of calls, beside each other.
const CASES: &str = "
case keyed calls
pairs 1=5
thread a
  insert 1 10
  remove 1
thread b
  view 1
  alter 1 add 1
case guards
pairs 1=5
thread a
  get-mut 1
    add 1
    downgrade
    read
    drop
thread b
  entry 1
    remove-entry
    drop
case tries
pairs 1=5
thread a
  try-entry 3
    insert 1
    drop
thread b
  try-get 1
    drop
thread c
  try-get-mut 1
    drop
case walks
pairs 1=5 2=6
thread a
  iter
thread b
  remove 2
  insert 3 7
case walks that change
pairs 1=5 2=6
thread a
  retain add 1 keep value < 6
thread b
  len
thread c
  iter-mut stop 1 add 1
case a deadline beside a guard
pairs 1=5
thread a
  get 1
    drop
thread b
  insert-until 1 6
case three at a key
thread a
  insert 1 10
thread b
  insert 1 20
thread c
  remove 1
";

/// All outcomes of a case.
fn outcomes_of(alloc: Global, case: &Case<'_>, reduces: bool) -> Result<Vec<Outcome>, Fail> {
    let mut search = Search::new(alloc, case, FAR, reduces)?;
    let _ = search.go_on(FAR.states)?;
    let Search { outcomes, .. } = search;
    Ok(outcomes)
}

/// Whether each outcome of the one search is one of the other.
fn are_among(some: &[Outcome], others: &[Outcome]) -> bool {
    some.iter()
        .all(|outcome| others.iter().any(|other| other.is(outcome)))
}

/// Fails unless both searches find the same outcomes, each by as few steps.
fn must_agree<R: AllocGlobal + Abort>(rt: &R, case: &Case<'_>) -> Result<(), Fail> {
    let reduced = outcomes_of(rt.alloc(), case, true)?;
    let plain = outcomes_of(rt.alloc(), case, false)?;
    let name = case.name;
    assert!(rt;
        plain.len() > 1 && plain.len() == reduced.len(),
        "as many outcomes of {name}"
    );
    assert!(rt; are_among(&plain, &reduced), "the same outcomes of {name}");
    for outcome in &plain {
        let is_as_near = reduced
            .iter()
            .any(|other| other.is(outcome) && other.steps == outcome.steps);
        assert!(rt; is_as_near, "each outcome of {name} in as few steps");
    }
    Ok(())
}

#[test]
fn steps_that_nobody_sees_hide_no_outcome(rt: HostRuntime) -> Result<(), Fail> {
    for case in &read(rt.alloc(), CASES)? {
        must_agree(&rt, case)?;
    }
    Ok(())
}
