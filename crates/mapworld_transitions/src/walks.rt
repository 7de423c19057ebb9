//! How walks go through their shards.
ghost use Rattle.std.specs.Prelude.{◌≡◌, ℕ, ◌+◌, ◌<◌, ◌≤◌, ◌++◌, true, false, not, if◌then◌else◌, is_some, is_none};
ghost use Rattle.std.specs.Prelude.{length, map, List, IsSome, IfSome, MatchOption, OnOk, OnErr, Some, None, [], ◌^◌};
ghost use Rattle.std.specs.Prelude.{vec_len, vec_capacity};
ghost use Rattle.std.specs.Option.{unwrap_or};
ghost use Rattle.dashmap_table.specs.Slots.{at, count as full_slots, pair_of as entry_pair, pairs_of, IsNextFull};
ghost use Rattle.mapworld_calls.specs.Calls.{visit_leaves, visit_reads};
ghost use Rattle.mapworld_calls.specs.Programs.{stop_of, walk_may_grow};
ghost use Rattle.mapworld_state.specs.Core.{walk_lists, phase_lists};
ghost use Rattle.mapworld_state.specs.Moves.{stops_at, VisitsKey};
ghost use Rattle.mapworld_state.specs.Shards.{shard_pairs};
ghost use Rattle.mapworld_state.specs.Slots.{HasHashes, to_give, FitsReads};
ghost use Rattle.mapworld_state.specs.Walks.{walk_mode, hands_over, gives_items, gives_reads, entered_phase};
ghost use Rattle.mapworld_state.specs.Walks.{looked_keys, looked_count, IsLookedAt, IsTold, walk_ends, behind_visit};
ghost use Rattle.mapworld_state.specs.Walks.{LeadsOn};
ghost use Rattle.mapworld_state.specs.World.{deeds_of};
ghost use Rattle.mapworld_transitions.specs.Slots.{LeavesAt, HashesAlike};
ghost use Rattle.mapworld_transitions.specs.Walking.{as_list};

use crate::blocks::note_key;
use crate::moves::enter;
use crate::pairs::{keeps, pair_at, take_pair, write_effect};
use arrayvec::ArrayVec;
use dashmap_table::{NoMemory, Shard};
use mapworld_calls::past::{Listed, Past};
use mapworld_calls::{Answer, Block, Deed, Walk};
use mapworld_state::{Hold, Mode, Phase, Place};
use std::alloc::Allocator;
use std::hash::Hash;
use std::mem;

/// How many items a walk gives before it is dropped, if it is dropped early.
pub fn stop_of<D>(walk: &Walk<D>) -> Option<u64>
    ensures { result ≡ stop_of walk.now }
{
    match walk {
        Walk::Iter(_, stop) | Walk::IterMut(_, stop) => *stop,
        _ => None,
    }
}

/// Whether a walk that is to give so many items has none left to give behind that number of them.
pub fn stops_at(stop: Option<u64>, count: usize) -> bool
    ensures { result ≡ stops_at stop count }
{
    match stop {
        Some(stop) => !((count as u64) < stop),
        None => false,
    }
}

/// How a walk holds its shards.
pub fn walk_mode<D>(walk: &Walk<D>) -> Mode
    ensures { result ≡ walk_mode walk.now }
{
    match walk {
        Walk::Iter(_, _) | Walk::Len | Walk::IsEmpty | Walk::Capacity => Mode::Shared,
        _ => Mode::Exclusive,
    }
}

/// Whether a walk takes the next shard before it gives the last one back.
fn hands_over<D>(walk: &Walk<D>) -> bool
    ensures { result ≡ hands_over walk.now }
{
    matches!(
        walk,
        Walk::Iter(_, _) | Walk::IterMut(_, _) | Walk::AlterAll(_)
    )
}

/// Whether a walk does something at each pair; else its look is all of a visit.
fn gives_items<D>(walk: &Walk<D>) -> bool
    ensures { result ≡ gives_items walk.now }
{
    !matches!(
        walk,
        Walk::Len | Walk::IsEmpty | Walk::Capacity | Walk::ShrinkToFit
    )
}

/// The phase behind an admission of a walk, by what it holds beside the shard that it has got.
pub fn entered_phase<K, V, D, T, A: Allocator>(
    walk: Walk<D>,
    holds: &ArrayVec<Hold, 2>,
) -> Phase<K, V, D, T, A>
    ensures { result ≡ entered_phase walk holds.now.items }
{
    if holds.is_empty() {
        Phase::Visit(walk)
    } else {
        Phase::Part(walk)
    }
}

/// The keys of a shard's pairs, for contracts alone.
#[derive(Clone, Copy)]
struct Keys<'a, K: Eq + Hash, V, A: Allocator> {
    shard: &'a Shard<K, V, A>,
}

impl<'a, K: Eq + Hash, V, A: Allocator> Listed<K> for Keys<'a, K, V, A> {
    ghost listed = { λ keys. map (λ p. p.0) (pairs_of keys.shard.now.slots) };
}

/// The keys that a look does at once.
pub fn looked_keys<K: Eq + Hash, V, D, A: Allocator>(
    walk: &Walk<D>,
    shard: &Shard<K, V, A>,
) -> Past<K>
    ensures { result.items ≡ looked_keys walk.now (shard_pairs shard.now).items }
{
    if gives_items(walk) {
        Past::new()
    } else {
        Past::new().appended_all(&Keys { shard })
    }
}

/// What a look adds to the walk's number.
pub fn looked_count<K: Eq + Hash, V, D, A: Allocator>(
    walk: &Walk<D>,
    shard: &Shard<K, V, A>,
) -> usize
    ensures count { result ≡ looked_count walk.now (shard_pairs shard.now).items shard.now.room }
    ensures enough { length (shard_pairs shard.now).items ≤ shard.now.room }
{
    let room = shard.capacity();
    match walk {
        Walk::Capacity => room,
        walk if gives_items(walk) => 0,
        _ => shard.len(),
    }
}

/// How many items a walk gives at the most behind that number of them, where its shard has so many left.
fn to_give(stop: Option<u64>, count: usize, left: usize) -> usize
    ensures { result ≡ to_give stop count left }
{
    match stop {
        Some(stop) => left.min((stop as usize).saturating_sub(count)),
        None => left,
    }
}

/// Takes the room for what is still read of so many pairs.
fn take_room<T, A: Allocator>(
    reads: &mut Vec<T, A>,
    stop: Option<u64>,
    count: usize,
    left: usize,
) -> Result<(), NoMemory>
    ensures kept { reads.new.items ≡ reads.old.items }
    ensures fits { OnOk result (length reads.new.items + to_give stop count left ≤ vec_capacity reads.new) }
    ensures some { OnErr result (0 < left) }
{
    match reads.reserve_exact(to_give(stop, count, left)) {
        Ok(()) => Ok(()),
        Err(_) => Err(NoMemory),
    }
}

/// Readies a shard and the list of reads for a visit: a walk that reads takes room for all that it may read there, and
/// one that shrinks does so.
pub fn make_ready<K: Eq + Hash + Drop, V: Drop, D, T, A: Allocator + Clone>(
    shard: &mut Shard<K, V, A>,
    reads: &mut Vec<T, A>,
    walk: &Walk<D>,
    count: usize,
) -> Result<(), NoMemory>
    requires hashed { (hash : K → ℕ) × HashesAlike K.eq hash × HasHashes hash shard.old }
    ensures looked { OnOk result (IsLookedAt K.eq walk.now (shard_pairs shard.old) (shard_pairs shard.new)) }
    ensures alone { walk_mode walk.now ≡ Mode.Shared → shard.new ≡ shard.old }
    ensures same { gives_items walk.now ≡ true → shard.new ≡ shard.old }
    ensures kept { reads.new.items ≡ reads.old.items }
    ensures fits { OnOk result (FitsReads walk.now reads.new count (full_slots shard.new.slots)) }
    ensures refused { OnErr result
        ((shard.new ≡ shard.old) × (walk_may_grow walk.now ≡ true) × (0 < length (shard_pairs shard.old).items)) }
    ensures hashed { (hash : K → ℕ) → HasHashes hash shard.old → HasHashes hash shard.new }
{
    match walk {
        Walk::Iter(_, stop) | Walk::IterMut(_, stop) => take_room(reads, *stop, count, shard.len()),
        Walk::ShrinkToFit => shard.shrink(),
        _ => Ok(()),
    }
}

/// The slot of a visit's first pair, if the walk does something at each and there is one.
pub fn first_slot<K: Eq + Hash, V, D, A: Allocator>(
    walk: &Walk<D>,
    shard: &Shard<K, V, A>,
) -> Option<usize>
    ensures none { gives_items walk.now ≡ false → result ≡ None }
    ensures first { gives_items walk.now ≡ true → MatchOption result ((i : ℕ) → at shard.now.slots i ≡ None)
        (IsNextFull shard.now.slots 0) }
{
    if gives_items(walk) {
        shard.next_from(0)
    } else {
        None
    }
}

/// Takes what a walk has read, and leaves one of these lists in its place.
fn take_reads<T: Drop, A: Allocator>(
    reads: &mut Vec<T, A>,
    lists: &mut Vec<Vec<T, A>, A>,
) -> Vec<T, A>
    requires { 0 < length lists.old.items }
    ensures taken { result.items ≡ reads.old.items }
    ensures empty { reads.new.items ≡ [] }
    ensures left { length lists.new.items + 1 ≡ length lists.old.items }
{
    let mut empty = lists.take_last();
    empty.clear();
    mem::replace(reads, empty)
}

/// What a walk is answered that has come to that number, with what it has read.
pub fn walk_answer<K, V, D, T: Drop, A: Allocator>(
    walk: &Walk<D>,
    reads: &mut Vec<T, A>,
    lists: &mut Vec<Vec<T, A>, A>,
    count: usize,
) -> Answer<K, V, T, A>
    requires { walk_lists walk.now ≤ length lists.old.items }
    ensures told { IsTold walk.now reads.old.items count result }
    ensures empty { reads.new.items ≡ [] }
    ensures left { length lists.new.items + walk_lists walk.now ≡ length lists.old.items }
{
    if let Walk::Iter(_, _) | Walk::IterMut(_, _) = walk {
        return Answer::Reads(take_reads(reads, lists));
    }
    reads.clear();
    match walk {
        Walk::Len | Walk::Capacity => Answer::Count(count),
        Walk::IsEmpty => Answer::Flag(count == 0),
        _ => Answer::Done,
    }
}

/// The phase behind a visit that isn't the last.
fn behind_visit<K, V, D, T, A: Allocator>(walk: Walk<D>) -> Phase<K, V, D, T, A>
    ensures { result ≡ behind_visit walk }
{
    if hands_over(&walk) {
        Phase::Onward(walk)
    } else {
        Phase::Give(walk)
    }
}

/// Whether a walk ends behind a look or a deed: none is left to give, or the last shard is done.
fn walk_ends<D>(shards: usize, walk: &Walk<D>, shard: usize, done: bool, count: usize) -> bool
    requires { shard < 2 ^ 63 }
    ensures ends { result ≡ walk_ends shards walk.now shard done count }
    ensures number { IfSome (stop_of walk.now) (λ stop. stop < 2 ^ 64) }
{
    let stop = stop_of(walk);
    stops_at(stop, count) || (done && shard + 1 == shards)
}

/// The phase behind a look or a deed, by whether the walk ends and whether its shard is done; an answer takes what was
/// read.
fn next_phase<K, V, D, T: Drop, A: Allocator>(
    walk: Walk<D>,
    ends: bool,
    done: bool,
    reads: &mut Vec<T, A>,
    lists: &mut Vec<Vec<T, A>, A>,
    count: usize,
) -> Phase<K, V, D, T, A>
where
    D: Drop,
    requires { walk_lists walk ≤ length lists.old.items }
    ensures leads { LeadsOn walk ends done reads.old.items count result reads.new.items }
    ensures kept { ends ≡ false → reads.new ≡ reads.old }
    ensures lists { phase_lists result + length lists.old.items ≡ walk_lists walk + length lists.new.items }
{
    if ends {
        return Phase::Release(walk_answer(&walk, reads, lists, count));
    }
    if done {
        behind_visit(walk)
    } else {
        Phase::Seek(walk)
    }
}

/// Leads a place on behind a look or a deed, by the slot of the visit's next pair: to that pair, to the next shard, or
/// to the walk's end.
pub fn lead_on<K: Drop, V: Drop, D: Drop, T: Drop, A: Allocator>(
    place: &mut Place<K, V, D, T, A>,
    walk: Walk<D>,
    shards: usize,
    next: Option<usize>,
)
    requires shard { place.old.shard < 2 ^ 63 }
    requires lists { walk_lists walk ≤ length place.old.lists.items }
    ensures leads { LeadsOn walk (walk_ends shards walk place.old.shard (is_none next) place.old.count) (is_none next)
        place.old.reads.items place.old.count place.new.phase place.new.reads.items }
    ensures kept { walk_ends shards walk place.old.shard (is_none next) place.old.count ≡ false
        → place.new.reads ≡ place.old.reads }
    ensures number { IfSome (stop_of walk) (λ stop. stop < 2 ^ 64) }
    ensures lists { phase_lists place.new.phase + length place.old.lists.items ≡ walk_lists walk + length
        place.new.lists.items }
    ensures after { place.new ≡ record place.old {
      slot = unwrap_or next place.old.slot;
      reads = place.new.reads;
      lists = place.new.lists;
      phase = place.new.phase;
    } }
{
    let done = next.is_none();
    let ends = walk_ends(shards, &walk, place.shard, done, place.count);
    let phase = next_phase(
        walk,
        ends,
        done,
        &mut place.reads,
        &mut place.lists,
        place.count,
    );
    enter(&mut place.phase, phase);
    place.slot = next.unwrap_or(place.slot);
}

/// What a walk reads of the pair of a full slot, if it reads any.
fn read_of<K: Eq + Hash, V, D: Deed<K, V>, A: Allocator>(
    shard: &Shard<K, V, A>,
    slot: usize,
    walk: &Walk<D>,
) -> Option<D::Answer>
    requires full { IsSome (at shard.now.slots slot) }
    ensures read { IfSome (at shard.now.slots slot)
        (λ e. as_list result ≡ visit_reads (deeds_of D.Deed) walk.now (Some (entry_pair e))) }
    ensures reads { is_some result ≡ gives_reads walk.now }
{
    match walk {
        Walk::Iter(deed, _) | Walk::IterMut(deed, _) => {
            let (key, value) = pair_at(shard, slot);
            Some(deed.answer(key, value))
        }
        _ => None,
    }
}

/// Does with the pair of a full slot what the walk does with it: whether the pair is gone.
fn visit_at<K: Eq + Hash + Drop, V: Drop, D: Deed<K, V>, A: Allocator>(
    shard: &mut Shard<K, V, A>,
    slot: usize,
    walk: &Walk<D>,
) -> bool
    requires full { IsSome (at shard.old.slots slot) }
    ensures gone { IfSome (at shard.old.slots slot)
        (λ e. result ≡ not (is_some (visit_leaves (deeds_of D.Deed) walk.now (Some (entry_pair e))))) }
    ensures leaves { IfSome (at shard.old.slots slot)
        (λ e. LeavesAt shard.old shard.new slot (visit_leaves (deeds_of D.Deed) walk.now (Some (entry_pair e)))) }
{
    match walk {
        Walk::IterMut(deed, _) | Walk::AlterAll(deed) => write_effect(shard, slot, deed),
        Walk::Retain(deed) if keeps(shard, slot, deed) => write_effect(shard, slot, deed),
        Walk::Retain(_) | Walk::Clear => {
            let (_key, _value) = take_pair(shard, slot);
            return true;
        }
        _ => {}
    }
    false
}

/// Does at the pair of a full slot what a walk does there: its key is noted in the visit's block, what is read of it
/// goes to the list of reads, and it changes or goes. Whether it is gone.
pub fn visit_pair<K: Eq + Hash + Drop, V: Drop, D: Deed<K, V>, A: Allocator>(
    shard: &mut Shard<K, V, A>,
    slot: usize,
    block: &mut Block<K>,
    reads: &mut Vec<D::Answer, A>,
    walk: &Walk<D>,
) -> bool
    requires full { IsSome (at shard.old.slots slot) }
    requires room { gives_reads walk.now ≡ true → vec_len reads.old < vec_capacity reads.old }
    ensures noted { IfSome (at shard.old.slots slot) (λ e. VisitsKey e.key block.old block.new) }
    ensures read { IfSome (at shard.old.slots slot)
        (λ e. reads.new.items ≡ reads.old.items ++ visit_reads (deeds_of D.Deed) walk.now (Some (entry_pair e))) }
    ensures capacity { vec_capacity reads.new ≡ vec_capacity reads.old }
    ensures gone { IfSome (at shard.old.slots slot)
        (λ e. result ≡ not (is_some (visit_leaves (deeds_of D.Deed) walk.now (Some (entry_pair e))))) }
    ensures leaves { IfSome (at shard.old.slots slot)
        (λ e. LeavesAt shard.old shard.new slot (visit_leaves (deeds_of D.Deed) walk.now (Some (entry_pair e)))) }
{
    note_key(block, pair_at(shard, slot).0);
    if let Some(read) = read_of(shard, slot, walk) {
        reads.push_reserved(read);
    }
    visit_at(shard, slot, walk)
}
