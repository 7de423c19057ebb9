//! A case: a world, what is done with it, and what must be seen of it.

use crate::change::Change;
use crate::claims::Claim;
use crate::fault::Expected;
use mapworld_calls::Ask;
use std::alloc::Global;

/// A call of a program of a text.
pub type Asked = Ask<u64, u64, Change>;

/// What is seen of a world.
#[derive(Clone, Copy)]
pub enum View {
    /// Why the world isn't made, or `made`.
    World,
    /// What a call of a thread was answered, or `unanswered`.
    Reply(usize, usize),
    /// How many calls are answered.
    Replies,
    /// How many blocks of a thread's call there are.
    Blocks(usize, usize),
    /// Start, position and end of the block of a thread's call and a visit.
    Block(usize, usize, usize),
    /// How many pairs a walk of a thread was answered.
    Items(usize, usize),
    /// How many pairs have that value.
    Having(u64),
    /// The value of a key, or `none`.
    Pair(u64),
    /// All pairs by their keys, or `none`.
    Pairs,
    /// The shard of a key.
    Shard(u64),
    /// The word of a shard's lock.
    Word(usize),
    /// The words that it has had since the first step, each once as it came.
    Words(usize),
    /// Who waits in a queue, or `nobody`.
    Queue(usize),
    /// Where a thread stands: `running`, `asleep` or `finished`.
    Status(usize),
    /// Whether a thread can move: `yes` or `no`.
    Moves(usize),
    /// The step at which a thread's call started, or `no`.
    Started(usize),
    /// How many steps were made.
    Steps,
    /// How many steps are enough from here.
    Bound,
}

/// What is done with a world, or looked at.
#[derive(Clone, Copy)]
pub enum Order {
    /// So many steps of a thread.
    Step {
        thread: usize,
        times: usize,
        fair: bool,
    },
    /// The deadline of a thread.
    Deadline(usize),
    /// The thread's steps while it can move.
    Through(usize),
    /// The thread's steps until that is seen, 50 at the most.
    Until(usize, View),
    /// Steps of all threads in turn, until none can move.
    Round,
    /// The world's own way to the end.
    Drain,
    /// Every call is answered and nobody waits: by a round, and by a drain when the case is played again.
    End,
    /// So many steps at the most of threads that are picked by numbers from a seed.
    Seed {
        seed: u64,
        steps: u64,
    },
    /// A run of one step of each of the line's threads is answered so.
    Run,
    /// That is seen.
    Expect(View),
    /// What all schedules of the programs come to.
    Claim(Claim),
}

/// A line of a case below its programs.
#[derive(Drop)]
pub struct Line<'a> {
    /// Its number in the text, from 1.
    pub number: usize,
    pub order: Order,
    /// The threads of a run.
    pub threads: Vec<usize>,
    /// What is to be seen, where something is.
    pub want: Vec<&'a str>,
}

/// A world, what is done with it, and what must be seen of it.
#[derive(Drop)]
pub struct Case<'a> {
    pub name: &'a str,
    /// The number of its first line in the text.
    pub number: usize,
    pub shards: usize,
    pub pairs: Vec<(u64, u64)>,
    /// The names of the threads, in the order of their programs.
    pub names: Vec<&'a str>,
    pub programs: Vec<Vec<Asked>>,
    /// The calls of the programs, as they are written.
    pub calls: Vec<Vec<&'a str>>,
    /// The threads whose steps are fair.
    pub fair: Vec<usize>,
    /// The threads whose steps are fair or not, by each choice.
    pub either: Vec<usize>,
    pub lines: Vec<Line<'a>>,
}

impl<'a> Case<'a> {
    /// A case of two shards, with nothing in it yet.
    pub fn new(alloc: Global, name: &'a str, number: usize) -> Case<'a> {
        Case {
            name,
            number,
            shards: 2,
            pairs: Vec::new(alloc),
            names: Vec::new(alloc),
            programs: Vec::new(alloc),
            calls: Vec::new(alloc),
            fair: Vec::new(alloc),
            either: Vec::new(alloc),
            lines: Vec::new(alloc),
        }
    }

    /// The thread of that name or number.
    pub fn thread(&self, name: &str) -> Result<usize, Expected> {
        match self.names.iter().position(|known| *known == name) {
            Some(thread) => Ok(thread),
            None => name.parse::<usize>().map_err(|_| Expected::Thread),
        }
    }

    /// The name of a thread, where it has one.
    pub fn name_of(&self, thread: usize) -> &'a str {
        self.names.get(thread).copied().unwrap_or("?")
    }

    /// A thread's call as it is written, where there is one.
    pub fn call_of(&self, thread: usize, call: usize) -> &'a str {
        match self.calls.get(thread) {
            Some(calls) => calls.get(call).copied().unwrap_or("?"),
            None => "?",
        }
    }
}
