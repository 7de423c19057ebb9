//! What calls are answered, as it is written.
ghost use Rattle.std.specs.Prelude.{Some};
ghost use Rattle.std.specs.Fmt.{WritesOnOk};
ghost use Rattle.mapworld_text.specs.Texts.{answer_text, pairs_text, reads_text};

use mapworld_calls::Answer;
use std::alloc::{Allocator, Global};
use std::fmt;

/// What a call of a text's program is answered.
pub type Answered<A = Global> = Answer<u64, u64, (u64, u64), A>;

/// Pairs as they are written, each behind a space.
#[derive(Clone, Copy)]
pub struct Pairs<'a>(pub &'a [(u64, u64)]);

impl fmt::Display for Pairs<'_> {
    ghost output = { λ pairs. Some (pairs_text pairs.0.now) };

    fn fmt<W: fmt::Write>(&self, f: &mut fmt::Formatter<W>) -> fmt::Result {
        for (key, value) in self.0 {
            write!(f, " {key}={value}")?;
        }
        Ok(())
    }
}

/// An answer as it is written in a text.
#[derive(Clone, Copy)]
pub struct Shown<'a, A: Allocator = Global>(pub &'a Answered<A>);

/// Writes what a walk has read.
fn write_reads<W: fmt::Write>(reads: &[(u64, u64)], f: &mut fmt::Formatter<W>) -> fmt::Result
    ensures { WritesOnOk W.write_str_gives f.old result (reads_text reads.now) f.new }
{
    if reads.is_empty() {
        f.write_str("reads nothing")
    } else {
        write!(f, "reads{}", Pairs(reads))
    }
}

impl<A: Allocator> fmt::Display for Shown<'_, A> {
    ghost output = { λ shown. Some (answer_text shown.0.now) };

    fn fmt<W: fmt::Write>(&self, f: &mut fmt::Formatter<W>) -> fmt::Result {
        match self.0 {
            Answer::Done => f.write_str("done"),
            Answer::None => f.write_str("none"),
            Answer::Value(value) => write!(f, "value {value}"),
            Answer::Pair(key, value) => write!(f, "pair {key}={value}"),
            Answer::Key(key) => write!(f, "key {key}"),
            Answer::Read(pair) => write!(f, "read {}={}", pair.0, pair.1),
            Answer::Held => f.write_str("held"),
            Answer::Vacant => f.write_str("vacant"),
            Answer::NoGuard => f.write_str("no-guard"),
            Answer::WrongGuard => f.write_str("wrong-guard"),
            Answer::Flag(true) => f.write_str("yes"),
            Answer::Flag(false) => f.write_str("no"),
            Answer::Count(count) => write!(f, "count {count}"),
            Answer::Reads(reads) => write_reads(reads, f),
            Answer::Locked => f.write_str("locked"),
            Answer::NoMemory => f.write_str("no-memory"),
        }
    }
}
