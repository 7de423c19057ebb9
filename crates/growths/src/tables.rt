//! Plain shards, and a value that owns memory.

use crate::memory::{Memory, is_done};
use crate::rows::{FROM, MIDDLE, SHARDS, TO, pairs};
use dashmap_guard::SharedValue;
use dashmap_plain::ExtendShards;
use dashmap_table::{MapFault, NoMemory, Shard, Shards, SpreadState};
use refusing_heap::{Case, Heap, Line, Said, Seen, made};

type Small<A> = Shard<u64, u64, A>;

type Plain<A> = Shards<u64, u64, SpreadState, A>;

/// A call on a shard with the keys 0, 1, .. below a number, each under itself as its hash and with itself, or on two
/// plain shards; or a clone of a value that owns memory.
#[derive(Clone, Copy)]
pub enum Call {
    Insert,
    Reserve,
    Shrink,
    New,
    InsertPlain,
    ReservePlain,
    /// By the keys from 10 to below 30, each with itself.
    ExtendPlain,
    CloneValue,
}

/// Puts in the keys below a number.
fn fill<A: Memory>(shard: &mut Small<A>, keys: u64) -> bool {
    let mut is_put = true;
    for key in 0..keys {
        is_put &= shard.insert(key, key, key).is_ok();
    }
    is_put
}

/// Takes out the keys from one number to below another.
fn take<A: Memory>(shard: &mut Small<A>, from: u64, to: u64) {
    for key in from..to {
        if let Some(slot) = shard.find(key, &key) {
            let _pair = shard.remove(slot);
        }
    }
}

/// Whether a key is there, with itself.
fn has<A: Memory>(shard: &Small<A>, key: u64) -> bool {
    match shard.find(key, &key) {
        Some(slot) => match shard.pair(slot) {
            Some((found, value)) => *found == key && *value == key,
            None => false,
        },
        None => false,
    }
}

/// How many of the keys 0, 1, .. are there, each with itself.
fn keys_of<A: Memory>(shard: &Small<A>) -> u64 {
    let mut count = 0u64;
    for key in 0..64u64 {
        if has(shard, key) {
            count = count.wrapping_add(1);
        }
    }
    count
}

fn make_call<A: Memory>(shard: &mut Small<A>, call: Call) -> Said {
    match call {
        Call::Insert => match shard.insert(28, 28, 28) {
            Ok((_, old)) => Said::of(old.is_none(), false),
            Err(back) => Said::of(false, back == (28, 28)),
        },
        Call::Reserve => made(shard.reserve(100), NoMemory),
        _ => made(shard.shrink(), NoMemory),
    }
}

/// Makes a call on an empty shard, behind the insertions that it needs.
fn ask_shard<A: Memory>(heap: &Heap, shard: &mut Small<A>, call: Call) -> Option<Seen> {
    let (keys, most) = match call {
        Call::Insert => (28, 28),
        Call::Reserve => (2, 2),
        _ => (2, 40),
    };
    let is_filled = fill(shard, most);
    take(shard, keys, most);
    let room = shard.capacity();
    let before = heap.asked();
    let said = make_call(shard, call);
    let is_put = matches!(call, Call::Insert) && is_done(said);
    let has_all = keys_of(shard) == keys.saturating_add(u64::from(is_put));
    let has_room = is_done(said) || shard.capacity() == room;
    said.seen(heap, before, is_filled && has_all && has_room)
}

fn on_shard<A: Memory>(heap: &Heap, alloc: A, call: Call) -> Option<Seen> {
    let mut shard = Shard::new(alloc);
    ask_shard(heap, &mut shard, call)
}

/// Whether the keys from 10 to below one are there, and none behind it.
fn has_up_to<A: Memory>(shards: &Plain<A>, end: u64) -> bool {
    let mut right = true;
    for key in FROM..TO {
        right &= shards.find(&key).is_some() == (key < end);
    }
    right
}

fn insert_first<A: Memory>(shards: &mut Plain<A>) -> Said {
    match shards.insert(FROM, FROM) {
        Ok(old) => Said::of(old.is_none() && has_up_to(shards, FROM + 1), false),
        Err(back) => Said::of(false, back == (FROM, FROM) && has_up_to(shards, FROM)),
    }
}

fn extend<A: Memory>(shards: &mut Plain<A>, pairs: Vec<(u64, u64)>) -> Said {
    match shards.extend(pairs.into_iter()) {
        Ok(()) => Said::of(has_up_to(shards, TO), false),
        Err((key, _)) => Said::of(false, has_up_to(shards, key)),
    }
}

fn make_plain<A: Memory>(shards: &mut Plain<A>, call: Call, pairs: Vec<(u64, u64)>) -> Said {
    match call {
        Call::InsertPlain => insert_first(shards),
        Call::ExtendPlain => extend(shards, pairs),
        _ if 1 < shards.count() => made(shards.reserve(1), NoMemory),
        _ => Said::Other,
    }
}

fn ask_plain<A: Memory>(heap: &Heap, shards: &mut Plain<A>, call: Call) -> Option<Seen> {
    let pairs = pairs(*heap.inner())?;
    let before = heap.asked();
    make_plain(shards, call, pairs).seen(heap, before, true)
}

fn new_plain<A: Memory>(heap: &Heap, alloc: A) -> Option<Seen> {
    let before = heap.asked();
    let shards: Result<Plain<A>, MapFault> = Shards::new(alloc, SHARDS, SpreadState);
    made(shards, MapFault::NoMemory).seen(heap, before, true)
}

fn on_plain<A: Memory>(heap: &Heap, alloc: A, call: Call) -> Option<Seen> {
    match Shards::new(alloc, SHARDS, SpreadState) {
        Ok(mut shards) => ask_plain(heap, &mut shards, call),
        Err(_) => None,
    }
}

/// Clones a value, which is the number 5.
fn clone_value<A: Memory>(heap: &Heap, value: SharedValue<Box<u64, A>>) -> Option<Seen> {
    let before = heap.asked();
    let said = match value.clone() {
        Ok(copy) => Said::of(**copy.get() == 5, false),
        Err(_) => Said::Refused,
    };
    said.seen(heap, before, **value.get() == 5)
}

fn on_value<A: Memory>(heap: &Heap, alloc: A) -> Option<Seen> {
    match Box::new(alloc, 5u64) {
        Ok(block) => clone_value(heap, SharedValue::new(block)),
        Err(_) => None,
    }
}

impl<R: Drop> Case<R> for Call {
    fn run(self, _rt: R, heap: &Heap) -> Option<Seen> {
        match self {
            Call::Insert | Call::Reserve | Call::Shrink => on_shard(heap, heap, self),
            Call::InsertPlain | Call::ReservePlain | Call::ExtendPlain => {
                on_plain(heap, heap, self)
            }
            Call::CloneValue => on_value(heap, heap),
            Call::New => new_plain(heap, heap),
        }
    }
}

const EACH: &str = "each pair; the room";

const PAIR: &str = "the pair comes back; each other pair; the room";

pub const LINES: &[Line<Call>] = &[
    ("Shard::insert, into a full shard", Call::Insert, PAIR),
    ("Shard::reserve", Call::Reserve, EACH),
    ("Shard::shrink", Call::Shrink, EACH),
    ("Shards::new", Call::New, "nothing is made"),
    ("Shards::insert", Call::InsertPlain, PAIR),
    ("Shards::reserve", Call::ReservePlain, EACH),
    ("Shards::extend, 20 pairs", Call::ExtendPlain, MIDDLE),
    (
        "SharedValue::clone, of a box",
        Call::CloneValue,
        "the value",
    ),
];
