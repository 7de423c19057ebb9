//! What steps do to the list of blocks.
ghost use Rattle.std.specs.Prelude.{◌≡◌, ℕ, ◌+◌, ◌<◌, ◌^◌, length, Some, slice_get, vec_len, vec_capacity};
ghost use Rattle.mapworld_state.specs.Moves.{CountsCall, EndsBlock, EndsVisits, EndsCall, VisitsKey};
ghost use Rattle.mapworld_transitions.specs.Listing.{CanCount, AddsBlock, AddsVisit};

use mapworld_calls::Block;
use mapworld_calls::past::Past;
use std::alloc::Allocator;
use std::snapshot::Snapshot;

/// Counts the block's calls up to that one as done, if there is a block.
pub fn count_in<K: Drop, A: Allocator>(
    blocks: &mut Vec<Block<K>, A>,
    index: Option<usize>,
    call: usize,
)
    requires listed { CanCount blocks.old.items index call }
    requires fits { call < 2 ^ 63 }
    ensures counted { CountsCall blocks.old.items index call blocks.new.items }
    ensures len { length blocks.new.items ≡ length blocks.old.items }
    ensures capacity { vec_capacity blocks.new ≡ vec_capacity blocks.old }
{
    if let Some(index) = index {
        let block = &mut blocks[index];
        let done = call - block.call + 1;
        block.done = Snapshot::of(&done);
    }
}

/// Ends the block's call, if the block is that call's.
fn end_block<K: Drop, A: Allocator>(
    blocks: &mut Vec<Block<K>, A>,
    index: Option<usize>,
    call: usize,
    end: u64,
)
    requires { (i : ℕ) → index ≡ Some i → i < length blocks.old.items }
    ensures ended { EndsBlock blocks.old.items index call end blocks.new.items }
    ensures len { length blocks.new.items ≡ length blocks.old.items }
    ensures capacity { vec_capacity blocks.new ≡ vec_capacity blocks.old }
{
    if let Some(index) = index {
        let block = &mut blocks[index];
        if block.call == call {
            block.end = Some(end);
        }
    }
}

/// Ends the blocks of a walk's visits.
fn end_visits<K: Drop, A: Allocator>(blocks: &mut Vec<Block<K>, A>, visits: &[usize], end: u64)
    requires { (m i : ℕ) → slice_get visits.now m ≡ Some i → i < length blocks.old.items }
    ensures ended { EndsVisits blocks.old.items visits.now end blocks.new.items }
    ensures len { length blocks.new.items ≡ length blocks.old.items }
    ensures capacity { vec_capacity blocks.new ≡ vec_capacity blocks.old }
{
    for &index in visits {
        blocks[index].end = Some(end);
    }
}

/// Ends the call of a block or those of a walk's visits.
pub fn end_call<K: Drop, A: Allocator>(
    blocks: &mut Vec<Block<K>, A>,
    index: Option<usize>,
    visits: &[usize],
    call: usize,
    end: u64,
)
    requires block { (i : ℕ) → index ≡ Some i → i < length blocks.old.items }
    requires visits { (m i : ℕ) → slice_get visits.now m ≡ Some i → i < length blocks.old.items }
    ensures ended { EndsCall blocks.old.items index visits.now call end blocks.new.items }
    ensures len { length blocks.new.items ≡ length blocks.old.items }
    ensures capacity { vec_capacity blocks.new ≡ vec_capacity blocks.old }
{
    if visits.is_empty() {
        end_block(blocks, index, call, end);
    } else {
        end_visits(blocks, visits, end);
    }
}

/// A call that has started, as the block that it lists shows it.
#[derive(Clone, Copy)]
pub struct Started {
    pub thread: usize,
    pub call: usize,
    /// The step at which it started.
    pub start: u64,
}

/// Lists the block of a walk's visit at that step, which has done these keys.
pub fn list_visit<K, A: Allocator>(
    blocks: &mut Vec<Block<K>, A>,
    visit: usize,
    keys: Past<K>,
    started: Started,
    position: u64,
)
    requires { vec_len blocks.old < vec_capacity blocks.old }
    ensures listed { AddsVisit blocks.old.items visit keys.items started position blocks.new.items }
    ensures capacity { vec_capacity blocks.new ≡ vec_capacity blocks.old }
{
    blocks.push_reserved(Block {
        thread: started.thread,
        call: started.call,
        visit,
        start: started.start,
        position,
        end: None,
        done: Snapshot::of(&0),
        visited: keys,
    });
}

/// Notes in the block of a visit that it has done the key.
pub fn note_key<K: Drop>(block: &mut Block<K>, key: &K)
    ensures { VisitsKey key.now block.old block.new }
{
    block.visited = block.visited.appended(key);
}

/// Lists a block at that step, if it has done so many of its calls.
pub fn list_block<K, A: Allocator>(
    blocks: &mut Vec<Block<K>, A>,
    done: Option<usize>,
    started: Started,
    position: u64,
)
    requires { vec_len blocks.old < vec_capacity blocks.old }
    ensures listed { AddsBlock blocks.old.items done started position blocks.new.items }
    ensures capacity { vec_capacity blocks.new ≡ vec_capacity blocks.old }
{
    if let Some(done) = done {
        blocks.push_reserved(Block {
            thread: started.thread,
            call: started.call,
            visit: 0,
            start: started.start,
            position,
            end: None,
            done: Snapshot::of(&done),
            visited: Past::new(),
        });
    }
}
