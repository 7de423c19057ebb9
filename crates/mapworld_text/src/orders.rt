//! What is done with a world and looked at, as it is written.

use crate::asks::{count, number};
use crate::case::{Case, Order, View};
use crate::claims::Claim;
use crate::fault::Expected;

/// What a line says, and how many of its words say it. Behind them stands what is to be seen.
type Read = Result<(Order, usize), Expected>;

/// What is seen, and how many words say it.
fn view(case: &Case<'_>, words: &[&str]) -> Result<(View, usize), Expected> {
    match *words {
        ["world", ..] => Ok((View::World, 1)),
        ["replies", ..] => Ok((View::Replies, 1)),
        ["pairs", ..] => Ok((View::Pairs, 1)),
        ["steps", ..] => Ok((View::Steps, 1)),
        ["bound", ..] => Ok((View::Bound, 1)),
        [
            name @ ("reply" | "blocks" | "items" | "block"),
            thread,
            call,
            ref rest @ ..,
        ] => { view_of_call(name, case.thread(thread)?, count(call)?, rest) }
        [name @ ("status" | "moves" | "started"), thread, ..] => {
            Ok((view_of_thread(name, case.thread(thread)?), 2))
        }
        [name, place, ..] => Ok((view_of_place(name, number(place)?)?, 2)),
        _ => Err(Expected::View),
    }
}

/// What is seen of a call, and how many words say it.
fn view_of_call(
    name: &str,
    thread: usize,
    call: usize,
    rest: &[&str],
) -> Result<(View, usize), Expected> {
    match (name, rest.first()) {
        ("reply", _) => Ok((View::Reply(thread, call), 3)),
        ("items", _) => Ok((View::Items(thread, call), 3)),
        ("blocks", _) => Ok((View::Blocks(thread, call), 3)),
        (_, Some(visit)) => Ok((View::Block(thread, call, count(visit)?), 4)),
        _ => Err(Expected::View),
    }
}

/// What is seen of a thread.
fn view_of_thread(name: &str, thread: usize) -> View {
    match name {
        "status" => View::Status(thread),
        "moves" => View::Moves(thread),
        _ => View::Started(thread),
    }
}

/// What is seen of a key, a shard or a queue.
fn view_of_place(name: &str, place: u64) -> Result<View, Expected> {
    match name {
        "having" => Ok(View::Having(place)),
        "pair" => Ok(View::Pair(place)),
        "shard" => Ok(View::Shard(place)),
        "word" => Ok(View::Word(place as usize)),
        "words" => Ok(View::Words(place as usize)),
        "queue" => Ok(View::Queue(place as usize)),
        _ => Err(Expected::View),
    }
}

/// Steps of a thread.
fn step(thread: usize, words: &[&str]) -> Read {
    let (times, fair) = match *words {
        [] => ("1", false),
        ["fair"] => ("1", true),
        [times] => (times, false),
        [times, "fair"] => (times, true),
        _ => return Err(Expected::Number),
    };
    let times = count(times)?;
    Ok((
        Order::Step {
            thread,
            times,
            fair,
        },
        words.len().saturating_add(2),
    ))
}

/// What a line of a case says, and how many of its words say it. The threads of a run stand behind those.
pub fn order(case: &Case<'_>, words: &[&str]) -> Read {
    match *words {
        ["round"] => Ok((Order::Round, 1)),
        ["drain"] => Ok((Order::Drain, 1)),
        ["end"] => Ok((Order::End, 1)),
        ["run", _, ..] => Ok((Order::Run, 1)),
        ["step", thread, ref rest @ ..] => step(case.thread(thread)?, rest),
        ["deadline", thread] => Ok((Order::Deadline(case.thread(thread)?), 2)),
        ["through", thread] => Ok((Order::Through(case.thread(thread)?), 2)),
        ["seed", seed, steps] => seeded(number(seed)?, number(steps)?),
        ["until", thread, ref rest @ ..] => until(case, case.thread(thread)?, rest),
        ["expect", ref rest @ ..] => expect(case, rest),
        ["outcomes", outcomes] => Ok((Order::Claim(Claim::Outcomes(count(outcomes)?)), 2)),
        ["never", ..] => Ok((Order::Claim(Claim::Never), 1)),
        ["always", ..] => Ok((Order::Claim(Claim::Always), 1)),
        ["sometimes", ..] => Ok((Order::Claim(Claim::Sometimes), 1)),
        _ => Err(Expected::Line),
    }
}

/// Steps of threads that are picked by numbers from a seed.
fn seeded(seed: u64, steps: u64) -> Read {
    Ok((Order::Seed { seed, steps }, 3))
}

/// Steps of a thread until something is seen.
fn until(case: &Case<'_>, thread: usize, words: &[&str]) -> Read {
    let (seen, said) = view(case, words)?;
    Ok((Order::Until(thread, seen), said.saturating_add(2)))
}

/// Something is seen.
fn expect(case: &Case<'_>, words: &[&str]) -> Read {
    let (seen, said) = view(case, words)?;
    Ok((Order::Expect(seen), said.saturating_add(1)))
}
