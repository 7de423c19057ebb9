//! What was found of a case, for other programs.

use crate::files::schedule_text;
use mapworld_explorer::{Answering, ExploreFault, Outcome, Search, outcome_behind};
use mapworld_text::Case;
use serde_json::{Map, Value};
use std::alloc::{AllocError, Global};

/// An object that is put together, a name and its value after the other.
#[derive(Drop)]
struct Object {
    alloc: Global,
    members: Map<String, Value>,
}

impl Object {
    fn new(alloc: Global) -> Object {
        Object {
            alloc,
            members: Map::new(alloc),
        }
    }

    fn put(&mut self, name: &str, value: Value) -> Result<(), AllocError> {
        let name = String::from_str(self.alloc, name)?;
        let _ = self.members.insert(name, value)?;
        Ok(())
    }

    fn put_number(&mut self, name: &str, number: usize) -> Result<(), AllocError> {
        self.put(name, Value::from(number))
    }

    fn put_text(&mut self, name: &str, text: &str) -> Result<(), AllocError> {
        let text = String::from_str(self.alloc, text)?;
        self.put(name, Value::from(text))
    }

    fn into_value(self) -> Value {
        let Object { members, .. } = self;
        Value::from(members)
    }
}

/// Tells what a call is answered.
fn put_answer(case: &Case<'_>, answer: &Answering, object: &mut Object) -> Result<(), AllocError> {
    object.put_text("thread", case.name_of(answer.thread))?;
    object.put_number("call", answer.call)?;
    object.put_text("asked", case.call_of(answer.thread, answer.call))?;
    object.put_text("answer", answer.text.as_str())
}

/// What a call is answered.
fn answer_of(alloc: Global, case: &Case<'_>, answer: &Answering) -> Result<Value, AllocError> {
    let mut object = Object::new(alloc);
    put_answer(case, answer, &mut object)?;
    Ok(object.into_value())
}

/// What each call is answered.
fn answers_of(alloc: Global, case: &Case<'_>, outcome: &Outcome) -> Result<Value, AllocError> {
    let mut answers: Vec<Value> = Vec::new(alloc);
    for answer in &outcome.answers {
        answers.push(answer_of(alloc, case, answer)?)?;
    }
    Ok(Value::from(answers))
}

/// Tells an outcome that was read off a world, and at how many ends it is.
fn put_led(
    case: &Case<'_>,
    led: &Outcome,
    ends: usize,
    object: &mut Object,
) -> Result<(), AllocError> {
    object.put("answers", answers_of(object.alloc, case, led)?)?;
    object.put_text("contents", led.contents.as_str())?;
    object.put_number("ends", ends)?;
    object.put_number("steps", led.steps)
}

/// Tells an outcome: read off a world that is led anew by the schedule which is told with it.
fn put_outcome(
    case: &Case<'_>,
    search: &Search<'_, '_>,
    outcome: &Outcome,
    object: &mut Object,
) -> Result<(), ExploreFault> {
    let alloc = object.alloc;
    let schedule = search.schedule(outcome.state)?;
    let led = outcome_behind(alloc, case, &schedule)?;
    put_led(case, &led, outcome.ends, object)?;
    let text = schedule_text(alloc, case, &schedule)?;
    Ok(object.put("schedule", Value::from(text))?)
}

/// An outcome.
fn outcome_of(
    alloc: Global,
    case: &Case<'_>,
    search: &Search<'_, '_>,
    outcome: &Outcome,
) -> Result<Value, ExploreFault> {
    let mut object = Object::new(alloc);
    put_outcome(case, search, outcome, &mut object)?;
    Ok(object.into_value())
}

/// The longest sleep of each thread, in steps.
fn waits_of(alloc: Global, search: &Search<'_, '_>) -> Result<Value, AllocError> {
    let mut waits: Vec<Value> = Vec::new(alloc);
    for steps in &search.longest_waits()? {
        waits.push(Value::from(*steps))?;
    }
    Ok(Value::from(waits))
}

/// What each outcome is.
fn outcomes_of(
    alloc: Global,
    case: &Case<'_>,
    search: &Search<'_, '_>,
) -> Result<Value, ExploreFault> {
    let mut outcomes: Vec<Value> = Vec::new(alloc);
    for outcome in &search.outcomes {
        outcomes.push(outcome_of(alloc, case, search, outcome)?)?;
    }
    Ok(Value::from(outcomes))
}

/// Tells what was found of a case.
fn put_found(
    file: &str,
    case: &Case<'_>,
    search: &Search<'_, '_>,
    object: &mut Object,
) -> Result<(), ExploreFault> {
    object.put_text("file", file)?;
    object.put_text("case", case.name)?;
    object.put_number("states", search.states())?;
    object.put_number("ends", search.ends)?;
    object.put("whole", Value::from(search.limit.is_none()))?;
    object.put("sleeps", waits_of(object.alloc, search)?)?;
    object.put("outcomes", outcomes_of(object.alloc, case, search)?)?;
    Ok(())
}

/// What was found of a case, as a line of JSON.
pub fn json_of(
    alloc: Global,
    file: &str,
    case: &Case<'_>,
    search: &Search<'_, '_>,
) -> Result<String, ExploreFault> {
    let mut object = Object::new(alloc);
    put_found(file, case, search, &mut object)?;
    Ok(object.into_value().to_string(alloc)?)
}
