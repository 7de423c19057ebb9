//! What is written down of a call.
ghost use Rattle.std.specs.Prelude.{◌≡◌, ◌+◌, ◌^◌, ◌≤◌, max, MatchOption};
ghost use Rattle.dashmap_record.specs.History.Entries.{key_of, same_reply, same_entry};

/// What was asked.
#[derive(Clone, Copy, PartialEq, Eq, Debug)]
pub enum Call<K, V> {
    /// Stores the value at the key.
    Insert(K, V),
    /// Takes the pair of the key out.
    Remove(K),
    /// Copies the value of the key.
    GetCopied(K),
    /// Stores the second value at the key, where the key has the first.
    ReplaceIf(K, V, V),
}

impl<K, V> Call<K, V> {
    /// The key that the call is about.
    ///
    /// ```text
    /// let seven = *Call::Remove::<u64, u64>(7).key();
    /// ```
    pub fn key(&self) -> &K
        ensures { result.now ≡ key_of self.now }
    {
        match self {
            Call::Insert(key, _) => key,
            Call::Remove(key) => key,
            Call::GetCopied(key) => key,
            Call::ReplaceIf(key, _, _) => key,
        }
    }
}

/// What was answered.
#[derive(Clone, Copy, PartialEq, Eq, Debug)]
pub enum CallReply<K, V> {
    /// There was no pair: of `Insert`, `Remove` and `GetCopied`.
    None,
    /// The value that the key had: of `Insert` and `GetCopied`.
    Value(V),
    /// The pair that was taken out, with the stored key: of `Remove`.
    Pair(K, V),
    /// Whether the value was stored: of `ReplaceIf`.
    Flag(bool),
}

/// One entry of a shard's history and of a caller's log.
#[derive(Clone, Copy, PartialEq, Eq, Debug)]
pub struct Entered<K, V> {
    /// The number of the caller.
    pub caller: usize,
    /// One above the greater of the caller's last and the shard's last. It tells an order, and nothing of time.
    pub stamp: u64,
    /// The number of the shard.
    pub shard: usize,
    /// The hasher's hash of the key.
    pub hash: u64,
    /// What was asked.
    pub call: Call<K, V>,
    /// What was answered.
    pub reply: CallReply<K, V>,
}

/// The stamp of a call: one above the greater of the caller's last and the shard's last; `None` where there is no
/// number above it.
///
/// The last stamps 4 and 7 give 8, and 0 and 0 give 1.
///
/// ```text
/// let stamp = next_stamp(4, 7);   // Some(8)
/// ```
pub fn next_stamp(caller_last: u64, shard_last: u64) -> Option<u64>
    ensures { MatchOption result (2 ^ 64 ≤ max caller_last shard_last + 1)
        (λ stamp. stamp ≡ max caller_last shard_last + 1) }
{
    caller_last.max(shard_last).checked_add(1)
}

/// Whether two entries are equal, part by part.
pub(crate) fn same_entry<K: PartialEq, V: PartialEq>(
    one: &Entered<K, V>,
    other: &Entered<K, V>,
) -> bool
    ensures { result ≡ same_entry K.eq V.eq one.now other.now }
{
    *one == *other
}

/// Whether two replies are equal.
pub(crate) fn same_reply<K: PartialEq, V: PartialEq>(
    one: &CallReply<K, V>,
    other: &CallReply<K, V>,
) -> bool
    ensures { result ≡ same_reply K.eq V.eq one.now other.now }
{
    *one == *other
}
