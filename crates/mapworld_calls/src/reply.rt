//! What a thread's program is answered.

use std::alloc::Allocator;

/// What a call is answered. `T` is the answer of the program's deeds; a walk's list of them keeps the world's allocator
/// `A`.
#[derive(Debug, Drop, PartialEq, Eq)]
pub enum Answer<K, V, T, A: Allocator> {
    /// It is done.
    Done,
    /// The key was absent.
    None,
    /// The value that was replaced.
    Value(V),
    /// The pair that was taken out: the stored key and its value.
    Pair(K, V),
    /// The key that an entry was handed.
    Key(K),
    /// What a deed read.
    Read(T),
    /// A guard is held.
    Held,
    /// A guard of an absent key's place is held.
    Vacant,
    /// A call on a guard where none is held.
    NoGuard,
    /// A call that the guard's kind doesn't allow.
    WrongGuard,
    /// Whether the key is present, or of `IsEmpty` whether the map is empty.
    Flag(bool),
    /// A number of pairs, or for how many there is room.
    Count(usize),
    /// What a walk's deed read, in the order of its visits.
    Reads(Vec<T, A>),
    /// A try could not have its shard, or the deadline of a call came before it had it.
    Locked,
    /// A growth was refused: code 99. The call changed no pair; of a walk the visits before stand.
    NoMemory,
}

/// The answer of one call of a program. Steps are numbered from 1 over the life of a world.
#[derive(Debug, Drop, PartialEq, Eq)]
pub struct Reply<K, V, T, A: Allocator> {
    /// Whose call it is.
    pub thread: usize,
    /// Its place in the thread's program, counted from 0.
    pub call: usize,
    /// The step at which it started.
    pub start: u64,
    /// The step at which it was answered.
    pub end: u64,
    /// What it was answered.
    pub answer: Answer<K, V, T, A>,
}
