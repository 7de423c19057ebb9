//! What calls are answered, by a value that is copied.

use mapworld_calls::{Answer, Reply};
use std::alloc::{AllocError, Allocator, Global};

/// What a call is answered.
#[derive(Clone, Copy, PartialEq)]
pub enum Said<'a> {
    Done,
    None,
    Value(u64),
    Pair(u64, u64),
    Key(u64),
    Read((u64, u64)),
    Held,
    Vacant,
    NoGuard,
    WrongGuard,
    Flag(bool),
    Count(usize),
    Reads(&'a [(u64, u64)]),
    Locked,
    NoMemory,
}

/// What an answer says.
pub fn what_is_said<A: Allocator>(answer: &Answer<u64, u64, (u64, u64), A>) -> Said<'_> {
    match answer {
        Answer::Done => Said::Done,
        Answer::None => Said::None,
        Answer::Value(value) => Said::Value(*value),
        Answer::Pair(key, value) => Said::Pair(*key, *value),
        Answer::Key(key) => Said::Key(*key),
        Answer::Read(pair) => Said::Read(*pair),
        Answer::Held => Said::Held,
        Answer::Vacant => Said::Vacant,
        Answer::NoGuard => Said::NoGuard,
        Answer::WrongGuard => Said::WrongGuard,
        Answer::Flag(flag) => Said::Flag(*flag),
        Answer::Count(count) => Said::Count(*count),
        Answer::Reads(items) => Said::Reads(items),
        Answer::Locked => Said::Locked,
        Answer::NoMemory => Said::NoMemory,
    }
}

/// A reply, in whatever memory its world lies.
#[derive(Clone, Copy)]
pub struct Replied<'a> {
    pub thread: usize,
    pub call: usize,
    pub start: u64,
    pub end: u64,
    pub answer: Said<'a>,
}

/// What a world has replied.
pub fn replies_of<A: Allocator>(
    alloc: Global,
    replies: &[Reply<u64, u64, (u64, u64), A>],
) -> Result<Vec<Replied<'_>>, AllocError> {
    let mut list = Vec::with_capacity(alloc, replies.len())?;
    for reply in replies {
        list.push(Replied {
            thread: reply.thread,
            call: reply.call,
            start: reply.start,
            end: reply.end,
            answer: what_is_said(&reply.answer),
        })?;
    }
    Ok(list)
}
