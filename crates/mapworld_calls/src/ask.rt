//! What a thread's program asks.
ghost use Rattle.std.specs.Prelude.{◌≡◌};
ghost use Rattle.std.specs.Option.{option_copied};
ghost use Rattle.mapworld_calls.specs.Programs.{key_of, keyed_key, opening_key};

/// One call of a program. Each counts as one.
#[derive(Clone, Debug, Drop, PartialEq, Eq)]
pub enum Ask<K, V, D> {
    /// A call on one key, done under one hold of its shard.
    Keyed(Keyed<K, V, D>),
    /// An opening, which may give a guard.
    Begin(Begin<K>),
    /// A call on the guard.
    Held(Held<V, D>),
    /// A call over all shards.
    Walk(Walk<D>),
}

impl<K, V, D> Ask<K, V, D> {
    /// The key that the call names: a call on one key and an opening have one, a call on the guard and a walk `None`.
    /// It is lent, takes no memory and cannot fail.
    ///
    /// ```text
    /// Ask::Keyed(Keyed::Insert(7, 1)).key()     // Some(&7)
    /// Ask::Walk(Walk::Len).key()                // None
    /// ```
    pub fn key(&self) -> Option<&K>
        ensures { option_copied result ≡ key_of self.now }
    {
        match self {
            Ask::Keyed(call) => Some(call.key()),
            Ask::Begin(begin) => Some(begin.key()),
            Ask::Held(_) | Ask::Walk(_) => None,
        }
    }
}

/// A call on one key.
#[derive(Clone, Debug, Drop, PartialEq, Eq)]
pub enum Keyed<K, V, D> {
    /// Stores the value at the key. On an absent key it answers `None` and adds the pair; on a present one it answers
    /// `Value` with the old value, and the stored key stays.
    Insert(K, V),
    /// Takes the pair out. On an absent key it answers `None`, on a present one `Pair` with the stored key.
    Remove(K),
    /// Takes the pair out unless the deed keeps it. On an absent key it answers `None`; on a present one `None` where
    /// `keep` holds, and nothing changes, and otherwise `Pair` with the stored key.
    RemoveIf(K, D),
    /// The value becomes the deed's effect, and the pair goes unless the deed keeps it. `keep` is asked of the pair as
    /// it was found. On an absent key it answers `None`; on a present one `None` where `keep` holds, and otherwise
    /// `Pair` with the stored key and the effect.
    RemoveIfMut(K, D),
    /// Answers `Done`; the value of a present key becomes the deed's effect.
    Alter(K, D),
    /// Reads the pair, as the deed's `answer` gives it: on an absent key it answers `None`, on a present one `Read`. It
    /// shares its shard with other calls that do so.
    View(K, D),
    /// Answers `Flag`: whether the key is present. It shares its shard with other calls that do so.
    ContainsKey(K),
    /// As `Insert`, but with a deadline: where that comes while it waits for its shard it gives up, unless another
    /// thread has taken it out of its queue first. Then it answers `Locked`, and nothing changes.
    InsertUntil(K, V),
    /// As `Remove`, but with a deadline: where that comes while it waits for its shard it gives up, unless another
    /// thread has taken it out of its queue first. Then it answers `Locked`, and nothing changes.
    RemoveUntil(K),
}

impl<K, V, D> Keyed<K, V, D> {
    /// The key, lent.
    ///
    /// ```text
    /// Keyed::Remove(7).key()     // &7
    /// ```
    pub fn key(&self) -> &K
        ensures { result.now ≡ keyed_key self.now }
    {
        match self {
            Keyed::Insert(key, _) => key,
            Keyed::Remove(key) => key,
            Keyed::RemoveIf(key, _) => key,
            Keyed::RemoveIfMut(key, _) => key,
            Keyed::Alter(key, _) => key,
            Keyed::View(key, _) => key,
            Keyed::ContainsKey(key) => key,
            Keyed::InsertUntil(key, _) => key,
            Keyed::RemoveUntil(key) => key,
        }
    }
}

/// An opening. The guard that it gives is held until the program's next `Held::Drop`.
#[derive(Clone, Debug, Drop, PartialEq, Eq)]
pub enum Begin<K> {
    /// A shared guard of the key's pair, answered `Held`; `None` where the key is absent, and then there is no guard.
    Get(K),
    /// An exclusive guard of the key's pair, answered `Held`; `None` where the key is absent, and then there is no
    /// guard.
    GetMut(K),
    /// A guard of the key's place, which keeps the handed-in key: on a present key an occupied one, answered `Held`; on
    /// an absent one a vacant one, answered `Vacant`, for which room is made. Where that room is refused it answers
    /// `NoMemory`, and there is no guard.
    Entry(K),
    /// As `Get`, but it waits for nobody: where its shard can't be had it answers `Locked`, and there is no guard.
    TryGet(K),
    /// As `GetMut`, but it waits for nobody: where its shard can't be had it answers `Locked`, and there is no guard.
    TryGetMut(K),
    /// As `Entry`, but it waits for nobody: where its shard can't be had it answers `Locked`, and there is no guard.
    TryEntry(K),
    /// As `Get`, but with a deadline: where that comes while it waits for its shard it gives up, unless another thread
    /// has taken it out of its queue first. Then it answers `Locked`, and there is no guard.
    GetUntil(K),
    /// As `GetMut`, but with a deadline: where that comes while it waits for its shard it gives up, unless another
    /// thread has taken it out of its queue first. Then it answers `Locked`, and there is no guard.
    GetMutUntil(K),
}

impl<K> Begin<K> {
    /// The key, lent.
    ///
    /// ```text
    /// Begin::Get(7).key()     // &7
    /// ```
    pub fn key(&self) -> &K
        ensures { result.now ≡ opening_key self.now }
    {
        match self {
            Begin::Get(key) => key,
            Begin::GetMut(key) => key,
            Begin::Entry(key) => key,
            Begin::TryGet(key) => key,
            Begin::TryGetMut(key) => key,
            Begin::TryEntry(key) => key,
            Begin::GetUntil(key) => key,
            Begin::GetMutUntil(key) => key,
        }
    }
}

/// A call on the guard. Where no guard is held it answers `NoGuard`, and on a guard of a kind that it isn't for
/// `WrongGuard`; neither changes anything.
#[derive(Clone, Debug, Drop, PartialEq, Eq)]
pub enum Held<V, D> {
    /// On a guard that has a pair, of any kind: answers `Read` with the deed's answer of the pair.
    Read(D),
    /// On an exclusive or an occupied guard: answers `Done`, and the value is the deed's effect.
    Write(D),
    /// On an exclusive guard: answers `Held`, and the guard is shared.
    Downgrade,
    /// On an occupied guard: answers `Value` with the old value, and the stored key stays. On a vacant one: answers
    /// `Held`; the handed-in key's pair is added, and the guard is exclusive. It never takes memory.
    Insert(V),
    /// On an occupied guard: answers `Held`, and the guard is exclusive; the handed-in key is let go.
    IntoRef,
    /// On an occupied guard: answers `Value` with the value; the pair goes, and the guard ends.
    Remove,
    /// On an occupied guard: answers `Pair` with the stored key and the value; the pair goes, and the guard ends.
    RemoveEntry,
    /// On an occupied guard: answers `Pair` with the stored key and the old value; the pair is that of the handed-in
    /// key and the new value, and the guard ends.
    ReplaceEntry(V),
    /// On an occupied or a vacant guard: answers `Key` with the handed-in key; the guard ends.
    IntoKey,
    /// On any guard: answers `Done`; the guard ends.
    Drop,
}

/// A call over all shards, in the order of their numbers: a visit of each. Pairs that others add or take out on shards
/// that it has visited, or hasn't reached, aren't seen, or are.
///
/// The number is how many items the walk gives before it is dropped, if it is dropped early; it visits no shard after
/// that.
/// The first four give each pair of a visited shard once, in an order that is open.
#[derive(Clone, Debug, Drop, PartialEq, Eq)]
pub enum Walk<D> {
    /// Answers `Reads`: the deed's answers of all pairs, in the order of visits. It shares its shards, and takes the
    /// next one before it gives one back. Where room for its answers is refused it answers `NoMemory`.
    Iter(D, Option<u64>),
    /// As `Iter`, but alone in its shards; each value becomes the deed's effect.
    IterMut(D, Option<u64>),
    /// Answers `Done`: each value becomes the deed's effect, and a pair goes that the deed doesn't keep. It is alone in
    /// a shard, one at a time.
    Retain(D),
    /// Answers `Done`: each value becomes the deed's effect. It is alone in its shards, and takes the next one before
    /// it gives one back.
    AlterAll(D),
    /// Answers `Done`: every pair goes. It is alone in a shard, one at a time.
    Clear,
    /// Answers `Count`: the sum of the shards' numbers of pairs, at most the greatest number. It shares a shard, one at
    /// a time.
    Len,
    /// Answers `Flag`: whether that sum is 0. It shares a shard, one at a time.
    IsEmpty,
    /// Answers `Count`: for how many pairs the shards have room, none fewer than it has pairs. It shares a shard, one
    /// at a time.
    Capacity,
    /// Answers `Done`: shards give back room that their pairs don't need. It is alone in a shard, one at a time. Where
    /// a smaller table is refused it answers `NoMemory`.
    ShrinkToFit,
}
