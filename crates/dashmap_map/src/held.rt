//! What a call does to a shard while it holds it. For the layer above, and for the calls of the map.
//!
//! Each function is lent the shard of its key, by the guard of a shared call or by the owner of the map, and the key's
//! hash.
ghost use Rattle.std.specs.Prelude.{◌≡◌, ◌≤◌, None, Some, Bool, true, IsTrue, IfSome, IfNone, IfOk, IfErr, OnOk};
ghost use Rattle.std.specs.Prelude.{if◌then◌else◌};
ghost use Rattle.std.specs.Option.{option_map, is_some};
ghost use Rattle.dashmap_table.specs.Slots.{count, pair_of, slot_of, entry_of};
ghost use Rattle.dashmap_table.specs.Table.{TakesOut, PutsIn, with_value};
ghost use Rattle.dashmap_map.specs.Calls.{AnswersAt, LeavesAt, MakesAt, FreesIf};

use dashmap_guard::map_in_place_2;
use dashmap_table::Shard;
use std::alloc::Allocator;
use std::hash::Hash;

/// What a closure answers of a pair.
fn answer_of<K, V, U, F: FnOnce(&K, &V) -> U>(key: &K, value: &V, f: F) -> U
    requires { F.IsAlwaysCallable f }
    ensures { AnswersAt F.FnOnce f key.now value.now result }
{
    f(key, value)
}

/// What a closure answers of a pair whose value it may write.
fn answer_writing<K, V, U, F: FnOnce(&K, &mut V) -> U>(key: &K, value: &mut V, f: F) -> U
    requires { F.IsAlwaysCallable f }
    ensures { LeavesAt F.FnOnce f key.now value.old result value.new }
{
    f(key, value)
}

/// Puts a pair in, and answers the value that its key had.
///
/// A present key keeps its stored key. Where the shard would have to grow for a new key and can't, the pair comes back
/// and nothing has changed.
#[inline(always)]
pub fn insert_into<K: Eq + Hash + Drop, V: Drop, A: Allocator + Clone>(
    shard: &mut Shard<K, V, A>,
    hash: u64,
    key: K,
    value: V,
) -> Result<Option<V>, (K, V)>
    ensures old { IfOk result (λ old. old ≡ option_map (λ e. e.value) (entry_of K.eq shard.old.slots hash key)) }
    ensures after { OnOk result (PutsIn K.eq shard.old shard.new hash key value) }
    ensures refused { IfErr result
        (λ back. (back ≡ (key, value)) × (shard.new ≡ shard.old) × (slot_of K.eq shard.old.slots hash key ≡ None)
        × (shard.old.room ≤ count shard.old.slots)) }
{
    let (_slot, old) = shard.insert(hash, key, value)?;
    Ok(old)
}

/// Whether a key is there.
#[inline(always)]
pub fn has_key<K: Eq + Hash, V, A: Allocator>(shard: &Shard<K, V, A>, hash: u64, key: &K) -> bool
    ensures { result ≡ is_some (slot_of K.eq shard.now.slots hash key.now) }
{
    shard.find(hash, key).is_some()
}

/// What the closure answers of the pair of a key, if it is there.
pub fn view_in<K: Eq + Hash, V, A: Allocator, U, F: FnOnce(&K, &V) -> U + Drop>(
    shard: &Shard<K, V, A>,
    hash: u64,
    key: &K,
    f: F,
) -> Option<U>
    requires { F.IsAlwaysCallable f }
    ensures absent { IfNone (slot_of K.eq shard.now.slots hash key.now) (result ≡ None) }
    ensures present { IfSome (entry_of K.eq shard.now.slots hash key.now)
        (λ e. (u : U) × AnswersAt F.FnOnce f e.key e.value u × (result ≡ Some u)) }
    ensures asked { IfSome result (λ u. (k : K) × (v : V) × IsTrue (K.eq k key.now) × AnswersAt F.FnOnce f k v u) }
{
    let slot = shard.find(hash, key)?;
    let (stored, value) = shard.pair(slot)?;
    Some(answer_of(stored, value, f))
}

/// Takes the pair of a key out, if it is there.
#[inline(always)]
pub fn remove_from<K: Eq + Hash, V, A: Allocator>(
    shard: &mut Shard<K, V, A>,
    hash: u64,
    key: &K,
) -> Option<(K, V)>
    ensures pair { result ≡ option_map pair_of (entry_of K.eq shard.old.slots hash key.now) }
    ensures after { TakesOut K.eq shard.old shard.new hash key.now }
    ensures asked { IfSome result (λ p. IsTrue (K.eq p.0 key.now)) }
{
    let found = shard.find(hash, key)?;
    shard.remove(found)
}

/// Takes the pair of a key out if the closure answers true of it. Else nothing changes.
pub fn remove_from_if<K: Eq + Hash, V, A: Allocator, F: FnOnce(&K, &V) -> bool + Drop>(
    shard: &mut Shard<K, V, A>,
    hash: u64,
    key: &K,
    f: F,
) -> Option<(K, V)>
    requires { F.IsAlwaysCallable f }
    ensures absent { IfNone (slot_of K.eq shard.old.slots hash key.now) (result ≡ None) }
    ensures present { IfSome (entry_of K.eq shard.old.slots hash key.now)
        (λ e. (answer : Bool) × AnswersAt F.FnOnce f e.key e.value answer
        × (result ≡ (if answer then Some (pair_of e) else None))) }
    ensures stays { IfNone result (shard.new ≡ shard.old) }
    ensures after { IfSome result (λ _. TakesOut K.eq shard.old shard.new hash key.now) }
    ensures asked { IfSome result (λ p. IsTrue (K.eq p.0 key.now) × AnswersAt F.FnOnce f p.0 p.1 true) }
{
    let slot = shard.find(hash, key)?;
    let (stored, shown) = shard.pair(slot)?;
    if answer_of(stored, shown, f) {
        shard.remove(slot)
    } else {
        None
    }
}

/// Takes the pair of a key out if the closure answers true of it. What the closure wrote stays either way.
pub fn remove_from_if_mut<K: Eq + Hash, V, A: Allocator, F: FnOnce(&K, &mut V) -> bool + Drop>(
    shard: &mut Shard<K, V, A>,
    hash: u64,
    key: &K,
    f: F,
) -> Option<(K, V)>
    requires { F.IsAlwaysCallable f }
    ensures absent { IfNone (slot_of K.eq shard.old.slots hash key.now) ((result ≡ None) × (shard.new ≡ shard.old)) }
    ensures present { IfSome (slot_of K.eq shard.old.slots hash key.now)
        (λ i. IfSome (entry_of K.eq shard.old.slots hash key.now)
        (λ e. (answer : Bool) × (left : V) × LeavesAt F.FnOnce f e.key e.value answer left
        × (result ≡ (if answer then Some (e.key, left) else None)) × FreesIf answer (with_value shard.old i left)
        shard.new i)) }
    ensures asked { IfSome result (λ p. IsTrue (K.eq p.0 key.now) × (v : V) × LeavesAt F.FnOnce f p.0 v true p.1) }
{
    let slot = shard.find(hash, key)?;
    let (stored, lent) = shard.lend(slot);
    if answer_writing(stored, lent, f) {
        shard.remove(slot)
    } else {
        None
    }
}

/// Stores what the closure makes of the value of a key. Where the key isn't there the closure isn't called.
pub fn alter_in<K: Eq + Hash, V, A: Allocator, F: FnOnce(&K, V) -> V + Drop>(
    shard: &mut Shard<K, V, A>,
    hash: u64,
    key: &K,
    f: F,
)
    requires { F.IsAlwaysCallable f }
    ensures absent { IfNone (slot_of K.eq shard.old.slots hash key.now) (shard.new ≡ shard.old) }
    ensures present { IfSome (slot_of K.eq shard.old.slots hash key.now)
        (λ i. IfSome (entry_of K.eq shard.old.slots hash key.now)
        (λ e. (made : V) × MakesAt F.FnOnce f e.key e.value made × (shard.new ≡ with_value shard.old i made))) }
{
    let Some(slot) = shard.find(hash, key) else {
        return;
    };
    map_in_place_2(shard.lend(slot), f);
}
