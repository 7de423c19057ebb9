//! Where a thread stands in its program.

use crate::holds::Hold;
use arrayvec::ArrayVec;
use mapworld_calls::{Answer, Ask, Begin, Held, Keyed, Walk};
use std::alloc::Allocator;
use std::collections::VecDeque;

/// What a call wants of the shard that it is to be admitted to.
#[derive(Drop)]
pub enum Request<K, V, D> {
    Keyed(Keyed<K, V, D>),
    Begin(Begin<K>),
}

/// How a guard lends its pair.
#[derive(Drop)]
pub enum Way<K> {
    /// To read, beside others that do so too.
    Shared,
    /// Alone.
    Exclusive,
    /// Alone, by an entry, which keeps the key that it was handed.
    Occupied(K),
}

/// What a thread holds between its calls.
#[derive(Drop)]
pub enum Guard<K> {
    /// The pair of its session's key.
    Pair(Way<K>),
    /// The room for a pair of the key that an entry was handed, which is absent.
    Vacant(K),
}

/// A call on an absent key for whose pair the shard has to grow.
#[derive(Drop)]
pub enum Growth<K, V> {
    Insert(K, V),
    InsertUntil(K, V),
    Entry(K),
    TryEntry(K),
}

/// What a thread's next step is.
#[derive(Drop)]
pub enum Phase<K, V, D, T, A: Allocator> {
    /// Between two calls: the start of the next one, if there is one.
    Rest,
    /// The admission to the shard, by the shard's lock; and where the lock's call is over, the look into the shard.
    Admit(Request<K, V, D>),
    /// The look into the held shard. It is part of a step that ends an admission: no thread stays before it.
    Find(Request<K, V, D>),
    /// The growth of the held shard, which has no room for the new pair.
    Grow(Growth<K, V>),
    /// The new pair is added.
    Append(K, V),
    /// The call does with its key's pair what it does with a pair.
    Apply(Keyed<K, V, D>),
    /// The key's pair is read.
    View(K, D),
    /// The guarded pair is read.
    Read(D),
    /// The call does with the guarded pair what it does with a pair.
    Change(Held<V, D>),
    /// The value is added under a vacant guard's key.
    Fill(V),
    /// The guard becomes shared.
    Downgrade,
    /// A walk that is to give no item: it is answered with an empty list.
    Idle(Walk<D>),
    /// A walk's admission to its next shard, by the shard's lock; the last one may be held beside.
    Reach(Walk<D>),
    /// The last shard is given back, where the next one is held. It is part of a step that ends an admission: no thread
    /// stays before it.
    Part(Walk<D>),
    /// The look into the held shard with which a visit begins; and before that what is still owed to the last shard's
    /// lock.
    Visit(Walk<D>),
    /// A pair of the visit is found that isn't done.
    Seek(Walk<D>),
    /// The walk does with the found pair what it does with a pair.
    Item(Walk<D>),
    /// The visit is over, and its shard is given back before the walk asks for the next one.
    Give(Walk<D>),
    /// Between two visits: what is still owed to the last shard's lock, and then the next visit starts.
    Onward(Walk<D>),
    /// The hold ends, by the shard's lock, and the call is to be answered so.
    Release(Answer<K, V, T, A>),
    /// The call is answered; and before that what a release still owes to the lock is done.
    Answer(Answer<K, V, T, A>),
}

/// A thread's place: what is left of its program, and what belongs to its call or session.
#[derive(Drop)]
pub struct Place<K, V, D, T, A: Allocator> {
    /// The calls that have not started, in order.
    pub asks: VecDeque<Ask<K, V, D>, A>,
    /// The number of the call that it is in, or that is next.
    pub next: usize,
    /// The step at which its call started, while it is in one.
    pub started: Option<u64>,
    /// Whether its block ends with the call that it is in.
    pub closes: bool,
    /// The shard of its call or session.
    pub shard: usize,
    /// The slot of its shard at which the pair stands that its call has found or its guard lends, while there is one.
    pub slot: usize,
    /// Its holds, from the admission to the release: two at the most, as a walk has that takes the next shard before it
    /// gives the last one back.
    pub holds: ArrayVec<Hold, 2>,
    /// The block of its call or session, from the position on.
    pub block: Option<usize>,
    /// Its guard, while it has one.
    pub guard: Option<Guard<K>>,
    /// The blocks of its walk's visits, in order, while it is in one.
    pub visits: Vec<usize, A>,
    /// What its walk has read so far.
    pub reads: Vec<T, A>,
    /// Empty lists for the walks that still are to be answered with one, since a list takes an allocator and an answer
    /// can't be refused.
    pub lists: Vec<Vec<T, A>, A>,
    /// How many pairs its walk has done or counted so far, or for how many its shards have room; at most the greatest
    /// number.
    pub count: usize,
    pub phase: Phase<K, V, D, T, A>,
}
