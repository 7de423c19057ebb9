//! The replay: a plain map takes the blocks of a world in their order. Replies and contents must be what it says.

use crate::plain::{
    Kind, Left, Plain, Told, gives_reads, held, is_drop, keyed, opened, stop_of, visited, walked,
};
use crate::said::{Replied, Said};
use mapworld_calls::{Ask, Begin, Block, Deed, Held, Keyed, Walk};
use std::alloc::{AllocError, Global};

/// What a world was made with.
#[derive(Clone, Copy)]
pub struct Made<'a, D> {
    pub alloc: Global,
    pub shards: usize,
    pub pairs: &'a [(u64, u64)],
    pub programs: &'a [Vec<Ask<u64, u64, D>>],
}

impl<'a, D> Made<'a, D> {
    pub fn call(&self, thread: usize, call: usize) -> Option<&'a Ask<u64, u64, D>> {
        self.programs.get(thread)?.get(call)
    }

    /// How many calls there are.
    pub fn calls(&self) -> usize {
        let mut calls: usize = 0;
        for program in self.programs {
            calls = calls.saturating_add(program.len());
        }
        calls
    }
}

/// A finished world as the replay sees it.
#[derive(Clone, Copy)]
pub struct Seen<'a> {
    pub blocks: &'a [Block<u64>],
    pub replies: &'a [Replied<'a>],
    /// The shard of each key.
    pub routes: &'a [usize],
    /// The deadlines that came: whose, and at which step.
    pub deadlines: &'a [(usize, u64)],
}

impl<'a> Seen<'a> {
    pub fn reply(&self, thread: usize, call: usize) -> Option<&'a Replied<'a>> {
        self.replies
            .iter()
            .find(|reply| reply.thread == thread && reply.call == call)
    }

    pub fn route(&self, key: u64) -> usize {
        self.routes.get(key as usize).copied().unwrap_or(0)
    }

    /// How many blocks of that call there are.
    pub fn blocks_of(&self, thread: usize, call: usize) -> usize {
        self.blocks
            .iter()
            .filter(|block| block.thread == thread && block.call == call)
            .count()
    }
}

/// How far a thread's walk is.
#[derive(Clone, Copy)]
struct Walked {
    call: usize,
    visits: usize,
    /// How many pairs it has counted.
    count: usize,
    /// How many items it has given.
    given: usize,
}

/// Whether a change was made by the step that is asked of.
#[derive(Clone, Copy, PartialEq, Eq)]
enum Done {
    Yes,
    /// It is made between that step and the answer, or was made before.
    Maybe,
    No,
}

/// A replay up to a step of the world.
#[derive(Drop)]
pub struct Replay<'a, D> {
    made: Made<'a, D>,
    seen: Seen<'a>,
    /// The step at which the contents are asked of.
    until: u64,
    plain: Plain,
    /// What keys may have in the place of what the plain map says, as a call on them is half done.
    open: Vec<Left>,
    walks: Vec<Walked>,
}

/// A rule that is broken.
pub type Broken = Option<&'static str>;

impl<'a, D: Deed<u64, u64, Answer = (u64, u64)> + Copy> Replay<'a, D> {
    /// The replay of all blocks until that step, or the rule that is broken.
    pub fn of(
        made: Made<'a, D>,
        seen: Seen<'a>,
        until: u64,
    ) -> Result<(Replay<'a, D>, Broken), AllocError> {
        let mut walks = Vec::new(made.alloc);
        for _ in made.programs {
            walks.push(Walked {
                call: 0,
                visits: 0,
                count: 0,
                given: 0,
            })?;
        }
        let mut replay = Replay {
            made,
            seen,
            until,
            plain: Plain::of(made.alloc, made.pairs)?,
            open: Vec::new(made.alloc),
            walks,
        };
        let broken = replay.take_all()?;
        Ok((replay, broken))
    }

    fn take_all(&mut self) -> Result<Broken, AllocError> {
        for (i, block) in self.seen.blocks.iter().enumerate() {
            if block.position > self.until {
                break;
            }
            let broken = self.take(i, block)?;
            if broken.is_some() {
                return Ok(broken);
            }
        }
        Ok(None)
    }

    /// Takes a block.
    fn take(&mut self, i: usize, block: &Block<u64>) -> Result<Broken, AllocError> {
        let Some(call) = self.made.call(block.thread, block.call) else {
            return Ok(Some("a block is of a call of its program"));
        };
        match call {
            Ask::Walk(walk) => self.take_visit(i, block, call, walk),
            _ if block.visit != 0 => Ok(Some("only walks have visits")),
            Ask::Begin(begin) => self.take_session(i, block, begin),
            Ask::Keyed(asked) => self.take_keyed(i, block, asked),
            Ask::Held(_) => Ok(Some("a call on a guard has no block of its own")),
        }
    }

    /// Whether another block comes behind that one on its shard, by that step.
    fn has_later(&self, i: usize, shard: usize) -> bool {
        let until = self.until;
        self.seen
            .blocks
            .iter()
            .skip(i.saturating_add(1))
            .filter(|block| block.position <= until)
            .any(|block| self.shard_of(block) == Some(shard))
    }

    fn shard_of(&self, block: &Block<u64>) -> Option<usize> {
        let call = self.made.call(block.thread, block.call)?;
        match call.key() {
            Some(key) => Some(self.seen.route(*key)),
            None => Some(block.visit),
        }
    }

    /// Whether what a call does is done by that step, where its block is that one.
    fn done(&self, i: usize, shard: usize, reply: &Replied<'_>) -> Done {
        if reply.start > self.until {
            Done::No
        } else if reply.end <= self.until || self.has_later(i, shard) {
            Done::Yes
        } else {
            Done::Maybe
        }
    }

    /// Whether a reply is there by that step; one that isn't may stand on calls that are still to come.
    fn is_told(&self, reply: &Replied<'_>) -> bool {
        reply.end <= self.until
    }

    /// Leaves at a key what it is to have, if that is done.
    fn leave(&mut self, left: Left, done: Done) -> Result<(), AllocError> {
        match done {
            Done::Yes => self.plain.leave(left)?,
            Done::Maybe => self.open.push(left)?,
            Done::No => {}
        }
        Ok(())
    }

    /// Compares an answer, and leaves what its call leaves.
    fn tell(
        &mut self,
        i: usize,
        shard: usize,
        reply: &Replied<'_>,
        told: Told,
    ) -> Result<Broken, AllocError> {
        if self.is_told(reply) && reply.answer != told.answer {
            return Ok(Some("a reply is that of the replay"));
        }
        if let Some(left) = told.left {
            let done = self.done(i, shard, reply);
            self.leave(left, done)?;
        }
        Ok(None)
    }

    fn take_keyed(
        &mut self,
        i: usize,
        block: &Block<u64>,
        asked: &Keyed<u64, u64, D>,
    ) -> Result<Broken, AllocError> {
        let Some(reply) = self.seen.reply(block.thread, block.call) else {
            return Ok(Some("a block is of a call that is answered"));
        };
        let key = *asked.key();
        let told = keyed(asked, self.plain.value(key));
        let shard = self.seen.route(key);
        self.tell(i, shard, reply, told)
    }

    fn take_session(
        &mut self,
        i: usize,
        block: &Block<u64>,
        begin: &Begin<u64>,
    ) -> Result<Broken, AllocError> {
        let Some(reply) = self.seen.reply(block.thread, block.call) else {
            return Ok(Some("a block is of an opening that is answered"));
        };
        let key = *begin.key();
        let (want, kind) = opened(begin, self.plain.value(key).is_some());
        if self.is_told(reply) && reply.answer != want {
            return Ok(Some("an opening's reply is that of the replay"));
        }
        let Some(calls) = self.made.programs.get(block.thread) else {
            return Ok(Some("a block is of a thread of the world"));
        };
        let mut kind = kind;
        for (j, call) in calls.iter().enumerate().skip(block.call.saturating_add(1)) {
            let Ask::Held(asked) = call else {
                return Ok(Some("in a session stand calls on its guard"));
            };
            let broken = self.take_held(i, (block.thread, j), asked, key, &mut kind)?;
            if broken.is_some() || is_drop(call) {
                return Ok(broken);
            }
        }
        Ok(Some("a session has its end"))
    }

    /// Takes a call of a session on that key.
    fn take_held(
        &mut self,
        i: usize,
        place: (usize, usize),
        asked: &Held<u64, D>,
        key: u64,
        kind: &mut Option<Kind>,
    ) -> Result<Broken, AllocError> {
        let Some(reply) = self.seen.reply(place.0, place.1) else {
            return Ok(Some("each call of a session is answered"));
        };
        let Some(guard) = *kind else {
            let is_wrong = self.is_told(reply) && reply.answer != Said::NoGuard;
            return Ok(is_wrong.then_some("without a guard it is NoGuard"));
        };
        let value = self.plain.value(key).unwrap_or(0);
        let (told, after) = held(asked, guard, key, value);
        *kind = after;
        let shard = self.seen.route(key);
        self.tell(i, shard, reply, told)
    }

    /// The pairs that a walk's visit does, of those on its shard; none where what it is answered can't be.
    fn visit_pairs(
        &self,
        block: &Block<u64>,
        call: &Ask<u64, u64, D>,
        given: usize,
        reply: &Replied<'_>,
    ) -> Result<Option<Vec<(u64, u64)>>, AllocError> {
        let mut here = Vec::new(self.made.alloc);
        for pair in &self.plain.pairs {
            if self.seen.route(pair.0) == block.visit {
                here.push(*pair)?;
            }
        }
        let Said::Reads(reads) = reply.answer else {
            return Ok(Some(here));
        };
        let mut count = here.len();
        if let Some(stop) = stop_of(call) {
            count = count.min((stop as usize).saturating_sub(given));
        }
        let mut items: Vec<(u64, u64)> = Vec::new(self.made.alloc);
        for item in reads.iter().skip(given).take(count) {
            if !here.contains(item) || items.contains(item) {
                return Ok(None);
            }
            items.push(*item)?;
        }
        Ok((items.len() == count).then_some(items))
    }

    /// How far the thread's walk is before that visit, if that is its next one.
    fn walk_before(&self, block: &Block<u64>, call: &Ask<u64, u64, D>) -> Option<Walked> {
        let walk = self.walks.get(block.thread).copied()?;
        let before = if block.visit == 0 {
            Walked {
                call: block.call,
                visits: 0,
                count: 0,
                given: 0,
            }
        } else {
            walk
        };
        let is_next = before.call == block.call && before.visits == block.visit;
        let stops = stop_of(call).is_some_and(|stop| before.given as u64 >= stop);
        (is_next && !stops && block.visit < self.made.shards).then_some(before)
    }

    fn take_visit(
        &mut self,
        i: usize,
        block: &Block<u64>,
        call: &Ask<u64, u64, D>,
        asked: &Walk<D>,
    ) -> Result<Broken, AllocError> {
        let Some(reply) = self.seen.reply(block.thread, block.call) else {
            return Ok(Some("a block is of a walk that is answered"));
        };
        let Some(before) = self.walk_before(block, call) else {
            return Ok(Some("visits rise without a gap, and none is behind the stop"));
        };
        let Some(pairs) = self.visit_pairs(block, call, before.given, reply)? else {
            return Ok(Some("a visit gives pairs of its shard, each once"));
        };
        let done = self.visit_done(i, block, reply);
        for pair in &pairs {
            if let Some(left) = visited(asked, *pair) {
                self.leave(left, done)?;
            }
        }
        let walk = Walked {
            call: block.call,
            visits: block.visit.saturating_add(1),
            count: before.count.saturating_add(pairs.len()),
            given: before.given.saturating_add(pairs.len()),
        };
        if let Some(place) = self.walks.get_mut(block.thread) {
            *place = walk;
        }
        let is_last = self.seen.blocks_of(block.thread, block.call) == walk.visits;
        if is_last && !self.is_walked(call, asked, walk, reply.answer) {
            return Ok(Some("a walk's reply is that of its visits"));
        }
        Ok(None)
    }

    /// Whether a visit is over by that step.
    fn visit_done(&self, i: usize, block: &Block<u64>, reply: &Replied<'_>) -> Done {
        let until = self.until;
        let has_next = self.seen.blocks.iter().any(|other| other.thread == block.thread
            && other.call == block.call
            && other.visit > block.visit
            && other.position <= until);
        if has_next {
            Done::Yes
        } else {
            self.done(i, block.visit, reply)
        }
    }

    /// Whether a walk may be answered so behind its last visit.
    fn is_walked(
        &self,
        call: &Ask<u64, u64, D>,
        asked: &Walk<D>,
        walk: Walked,
        answer: Said<'_>,
    ) -> bool {
        let stops = stop_of(call).is_some_and(|stop| walk.given as u64 >= stop);
        let is_over = walk.visits == self.made.shards || stops;
        match (asked, answer) {
            (_, Said::NoMemory) => walk.visits < self.made.shards && !stops,
            (Walk::Capacity, Said::Count(room)) => is_over && room >= walk.count,
            (Walk::Capacity, _) => false,
            (_, Said::Reads(reads)) => { is_over && gives_reads(call) && reads.len() == walk.given }
            _ => is_over && !gives_reads(call) && answer == walked(asked, walk.count),
        }
    }

    /// Whether a key may have that value by the step that is asked of.
    fn may_have(&self, key: u64, value: Option<u64>) -> bool {
        self.plain.value(key) == value || self.open.contains(&(key, value))
    }

    /// Whether these may be the contents by the step that is asked of.
    pub fn may_hold(&self, pairs: &[(u64, u64)]) -> bool {
        (0..self.seen.routes.len()).all(|key| {
            let key = key as u64;
            let found = pairs.iter().find(|pair| pair.0 == key);
            self.may_have(key, found.map(|pair| pair.1))
        })
    }

    /// How many keys are half done.
    pub fn open_keys(&self) -> usize {
        self.open.len()
    }
}
