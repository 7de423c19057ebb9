//! The recorded map.
ghost use Rattle.std.specs.Prelude.{◌≡◌, ◌+◌, ◌^◌, ◌≤◌, ◌<◌, ◌↔◌, ◌≢◌, List, length};
ghost use Rattle.std.specs.Prelude.{Err, IsTrue, IsNone, IfSome, IfOk, IfErr};
ghost use Rattle.std.specs.List.{All};
ghost use Rattle.dashmap_table.specs.Route.{IsShardAmount, route_of};
ghost use Rattle.dashmap_table.specs.Shards.{key_hash};
ghost use Rattle.dashmap_record.specs.declared.history.entry.Call.{Call};
ghost use Rattle.dashmap_record.specs.declared.history.entry.CallReply.{CallReply};
ghost use Rattle.dashmap_record.specs.declared.history.entry.Entered.{Entered};
ghost use Rattle.dashmap_record.specs.History.Entries.{key_of};
ghost use Rattle.dashmap_record.specs.History.Match.{rises};
ghost use Rattle.dashmap_record.specs.declared.fault.RecordFault.TheVariants.{StampsSpent};
ghost use Rattle.dashmap_record.specs.Recorded.{AreNew, Logs, IsStill, IsReply, shard_of, value_reply, pair_reply};
ghost use Rattle.dashmap_record.specs.Replaying.{no_pair, Replies, HoldsForJudges};
ghost use Rattle.dashmap_record.specs.Looking.{AnswersOf};

use crate::caller::Caller;
use crate::fault::RecordFault;
use crate::history::{Call, CallReply, Entered};
use crate::reply::{flag_told, pair_told, value_told};
use crate::room::{List, LockedShard, Room, lock_shards, take_histories, take_rows};
use dashmap_table::{MapFault, is_shard_amount, route};
use lock_api_raw::{MakeLock, RawRwLock, TableFull};
use std::alloc::{Allocator, Global};
use std::hash::{BuildHasher, Hash};
use std::marker::Model;
use std::sync::Wait;

/// A map that threads share by reference, and whose every call is written down: shards behind locks, each with its
/// history.
///
/// A contract sees how many shards there are, and the hasher (`RecordedMap`): what lies behind a lock is known to its
/// holder alone.
///
/// ```text
/// let (map, mut callers) = Recorded::new(alloc, 2, hasher, 1, &table)?;
/// let mut first = callers.pop().ok_or("no caller")?;
/// map.insert(7, 1, &mut first, &mut me)?;                  // no old value
/// let logs = vec![in alloc; first.log()]?;
/// let all = gather(alloc, map.histories(), logs, &hasher)?; // that one call
/// ```
#[derive(Drop)]
pub struct Recorded<K: Copy + Eq + Hash, V: Copy + Eq, S: BuildHasher, Q, A: Allocator = Global> {
    shards: Vec<LockedShard<K, V, Q, A>, A>,
    lists: Vec<List<K, V, A>, A>,
    hasher: S,
}

impl<K: Copy + Eq + Hash, V: Copy + Eq, S: BuildHasher, Q, A: Allocator> Model
    for Recorded<K, V, S, Q, A> {
    ghost use Rattle.std.specs.Prelude.{◌≡◌, ◌≤◌, [], length, vec_capacity};
    ghost use Rattle.dashmap_table.specs.Route.{IsShardAmount};
    ghost use Rattle.dashmap_record.specs.Recorded.{RecordedMap};

    ghost Value = { RecordedMap S };

    ghost view = { λ m. record { shards = length m.shards.items; hasher = m.hasher } };

    ghost invariant = { λ m. IsShardAmount (length m.shards.items) × (m.lists.items ≡ [])
        × (length m.shards.items ≤ vec_capacity m.lists) };
}

impl<
    K: Copy + Eq + Hash,
    V: Copy + Eq,
    S: BuildHasher + Drop,
    Q: RawRwLock + Drop,
    A: Allocator + Clone,
> Recorded<K, V, S, Q, A> {
    /// An empty map with so many shards, and the callers 0, 1, .. up to so many: give each thread one.
    ///
    /// Refused as `BadShards`, `TableFull` or `NoMemory`, in this order. Rows that were taken for a map that is then
    /// refused stay used.
    ///
    /// ```text
    /// let (map, mut callers) = Recorded::new(alloc, 4, hasher, 2, &table)?; // 4 rows, 2 callers
    /// ```
    pub fn new<T: Copy>(
        alloc: A,
        shards: usize,
        hasher: S,
        callers: usize,
        table: T,
    ) -> Result<(Recorded<K, V, S, Q, A>, Vec<Caller<K, V, A>, A>), MapFault>
    where
        Q: MakeLock<T>,
        ensures made { IfOk result (λ m. (m.0.shards ≡ shards) × (m.0.hasher ≡ hasher)) }
        ensures callers { IfOk result (λ m. (length m.1.items ≡ callers) × AreNew 0 m.1.items) }
        ensures bad_shards { (result ≡ Err MapFault.BadShards) ↔ ¬ IsShardAmount shards }
    {
        if !is_shard_amount(shards) {
            return Err(MapFault::BadShards);
        }
        let Ok(room) = Room::new(alloc, shards, callers) else {
            return Err(no_room::<Q, T>(table, shards));
        };
        let Room {
            shards,
            locks,
            lists,
            callers,
        } = room;
        match lock_shards(shards, locks, table) {
            Ok(shards) => Ok((
                Recorded {
                    shards,
                    lists,
                    hasher,
                },
                callers,
            )),
            Err(_) => Err(MapFault::TableFull),
        }
    }

    /// The shards' histories, in order of shard, for `gather`. It takes no memory, and no lock: nobody shares the map
    /// then.
    ///
    /// ```text
    /// let calls = gather(alloc, map.histories(), logs, &hasher)?;
    /// ```
    pub fn histories(self) -> Vec<List<K, V, A>, A>
        ensures count { length result.items ≡ self.shards }
        ensures rise { All (λ history. IsTrue (rises history.items)) result.items }
        ensures replies { All (λ history. Replies K.eq V.eq (no_pair K V) history.items) result.items }
        ensures judged { All (λ history. HoldsForJudges K.eq V.eq history.items) result.items }
    {
        let Recorded {
            shards,
            lists,
            hasher: _hasher,
        } = self;
        take_histories(shards, lists)
    }
}

/// Why a map without memory is refused: first for want of rows.
fn no_room<Q: RawRwLock + MakeLock<T> + Drop, T: Copy>(table: T, shards: usize) -> MapFault
    ensures { result ≢ MapFault.BadShards }
{
    match take_rows::<Q, T>(table, shards) {
        Ok(()) => MapFault::NoMemory,
        Err(TableFull) => MapFault::TableFull,
    }
}

impl<
    K: Copy + Eq + Hash,
    V: Copy + Eq,
    S: BuildHasher,
    Q: RawRwLock,
    A: Allocator + Clone,
> Recorded<K, V, S, Q, A>
where
    Q::Runtime: Wait,
{
    /// Makes a call on the shard of its key, and writes it down.
    fn record(
        &self,
        call: Call<K, V>,
        caller: &mut Caller<K, V, A>,
        td: &mut Q::Party,
    ) -> Result<CallReply<K, V>, RecordFault>
        ensures reply { IfOk result (IsReply K.eq V.eq call) }
        ensures log { let hash = key_hash S.BuildHasher S.Hasher.Hasher K.hash_input self.now.hasher (key_of call) in
            let shard = shard_of S.BuildHasher S.Hasher.Hasher K.hash_input self.now (key_of call) in
            IfOk result (Logs caller.old caller.new shard hash call) }
        ensures refused { IfErr result (λ _. IsStill caller.old caller.new) }
        ensures spent { 2 ^ 64 ≤ caller.old.log.last + 1 → result ≡ Err StampsSpent }
    {
        let hash = self.hasher.hash_one(call.key());
        let number = route(hash, self.shards.len());
        let mut shard = self.shards[number].write(td);
        shard.record(number, hash, call, caller)
    }

    /// Puts a pair in, and answers the value that its key had. A present key keeps the stored key.
    ///
    /// Blocks while another holds the shard, as every call here: all holds are exclusive. Refused as `StampsSpent` or
    /// `NoMemory` (of the pair, the history or the log), with nothing changed.
    ///
    /// ```text
    /// let old = map.insert(7, 1, &mut caller, &mut me)?;
    /// ```
    pub fn insert(
        &self,
        key: K,
        value: V,
        caller: &mut Caller<K, V, A>,
        td: &mut Q::Party,
    ) -> Result<Option<V>, RecordFault>
        ensures log { let hash = key_hash S.BuildHasher S.Hasher.Hasher K.hash_input self.now.hasher key in
            let shard = shard_of S.BuildHasher S.Hasher.Hasher K.hash_input self.now key in
            IfOk result (λ old. Logs caller.old caller.new shard hash (Call.Insert key value) (value_reply old)) }
        ensures refused { IfErr result (λ _. IsStill caller.old caller.new) }
        ensures spent { 2 ^ 64 ≤ caller.old.log.last + 1 → result ≡ Err StampsSpent }
    {
        let reply = self.record(Call::Insert(key, value), caller, td)?;
        Ok(value_told(reply))
    }

    /// Takes the pair of a key out, if it is there. Blocks, and is refused, as `insert`.
    ///
    /// ```text
    /// let pair = map.remove(&7, &mut caller, &mut me)?;
    /// ```
    pub fn remove(
        &self,
        key: &K,
        caller: &mut Caller<K, V, A>,
        td: &mut Q::Party,
    ) -> Result<Option<(K, V)>, RecordFault>
        ensures log { let hash = key_hash S.BuildHasher S.Hasher.Hasher K.hash_input self.now.hasher key.now in
            let shard = shard_of S.BuildHasher S.Hasher.Hasher K.hash_input self.now key.now in
            IfOk result (λ pair. Logs caller.old caller.new shard hash (Call.Remove key.now) (pair_reply pair)) }
        ensures equal { IfOk result (λ pair. IfSome pair (λ p. IsTrue (K.eq p.0 key.now))) }
        ensures refused { IfErr result (λ _. IsStill caller.old caller.new) }
        ensures spent { 2 ^ 64 ≤ caller.old.log.last + 1 → result ≡ Err StampsSpent }
    {
        let reply = self.record(Call::Remove(*key), caller, td)?;
        Ok(pair_told(reply))
    }

    /// A copy of the value of a key, if it is there. Blocks, and is refused, as `insert`.
    ///
    /// ```text
    /// let seen = map.get_copied(&7, &mut caller, &mut me)?.unwrap_or(0);
    /// ```
    pub fn get_copied(
        &self,
        key: &K,
        caller: &mut Caller<K, V, A>,
        td: &mut Q::Party,
    ) -> Result<Option<V>, RecordFault>
        ensures log { let hash = key_hash S.BuildHasher S.Hasher.Hasher K.hash_input self.now.hasher key.now in
            let shard = shard_of S.BuildHasher S.Hasher.Hasher K.hash_input self.now key.now in
            IfOk result (λ value. Logs caller.old caller.new shard hash (Call.GetCopied key.now) (value_reply value)) }
        ensures refused { IfErr result (λ _. IsStill caller.old caller.new) }
        ensures spent { 2 ^ 64 ≤ caller.old.log.last + 1 → result ≡ Err StampsSpent }
    {
        let reply = self.record(Call::GetCopied(*key), caller, td)?;
        Ok(value_told(reply))
    }

    /// Stores `value` at a key that is there with a value equal to `seen`, and answers whether it did. Blocks, and is
    /// refused, as `insert`.
    ///
    /// ```text
    /// let stored = map.replace_if(&7, seen, seen.wrapping_add(1), &mut caller, &mut me)?; // false: another came
    /// ```
    pub fn replace_if(
        &self,
        key: &K,
        seen: V,
        value: V,
        caller: &mut Caller<K, V, A>,
        td: &mut Q::Party,
    ) -> Result<bool, RecordFault>
        ensures log { let hash = key_hash S.BuildHasher S.Hasher.Hasher K.hash_input self.now.hasher key.now in
            let shard = shard_of S.BuildHasher S.Hasher.Hasher K.hash_input self.now key.now in
            IfOk result (λ is. Logs caller.old caller.new shard hash (Call.ReplaceIf key.now seen value)
            (CallReply.Flag is)) }
        ensures refused { IfErr result (λ _. IsStill caller.old caller.new) }
        ensures spent { 2 ^ 64 ≤ caller.old.log.last + 1 → result ≡ Err StampsSpent }
    {
        let reply = self.record(Call::ReplaceIf(*key, seen, value), caller, td)?;
        Ok(flag_told(reply))
    }

    /// What a closure answers of a shard's history so far, if there is such a shard. It is held meanwhile: no other
    /// call on its keys is made. Calls on the other shards don't wait for it.
    ///
    /// Blocks while the shard is held. A closure that asks the same map with other data of the thread can wait for
    /// itself.
    ///
    /// ```text
    /// let calls = map.look(0, |history| history.len(), &mut me);
    /// ```
    pub fn look<U, F: FnOnce(&[Entered<K, V>]) -> U + Drop>(
        &self,
        number: usize,
        f: F,
        td: &mut Q::Party,
    ) -> Option<U>
        requires { F.IsAlwaysCallable f }
        ensures none { IsNone result ↔ (self.now.shards ≤ number) }
        ensures answer { IfSome result
            (λ answer. (history : List (Entered K V)) × IsTrue (rises history) × Replies K.eq V.eq (no_pair K V) history
            × AnswersOf F.FnOnce f history answer) }
    {
        let shard = self.shards.get(number)?.write(td);
        Some(f(shard.history()))
    }
}
