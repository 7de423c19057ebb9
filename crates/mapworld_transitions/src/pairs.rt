//! What steps do with a shard's pairs.
ghost use Rattle.std.specs.Prelude.{◌≡◌, ℕ, true, not, if◌then◌else◌, is_some, IsTrue, IsSome, IfSome, OnOk, OnErr};
ghost use Rattle.std.specs.Prelude.{Some, None, ◌+◌, ◌≤◌};
ghost use Rattle.std.specs.Option.{option_map};
ghost use Rattle.dashmap_table.specs.Slots.{at, pair_of as entry_pair};
ghost use Rattle.dashmap_table.specs.Table.{Frees, with_value};
ghost use Rattle.mapworld_calls.specs.Pairs.{pair_of};
ghost use Rattle.mapworld_calls.specs.Calls.{pair_in, keyed_answer, keyed_leaves, held_answer, held_leaves};
ghost use Rattle.mapworld_state.specs.declared.place.Guard.TheVariants as guard;
ghost use Rattle.mapworld_state.specs.declared.place.Way.TheVariants.{Occupied};
ghost use Rattle.mapworld_state.specs.Moves.{lent, is_change, ends_guard};
ghost use Rattle.mapworld_state.specs.Shards.{shard_pairs, has_room, Puts, Grown};
ghost use Rattle.mapworld_state.specs.Slots.{HasHashes, HasKeyAt, key_hash};
ghost use Rattle.mapworld_state.specs.World.{deeds_of};
ghost use Rattle.mapworld_transitions.specs.Slots.{LeavesAt, HashesAlike};

use crate::effect::store_effect;
use dashmap_table::{NoMemory, Shard};
use mapworld_calls::{Answer, Deed, Held, Keyed};
use mapworld_state::{Guard, Way};
use std::alloc::Allocator;
use std::hash::{BuildHasher, Hash};
use std::mem;

/// The slot of the key's pair, if the shard has one.
pub fn find_pair<K: Eq + Hash, V, S: BuildHasher, A: Allocator>(
    shard: &Shard<K, V, A>,
    hasher: &S,
    key: &K,
) -> Option<usize>
    requires hashed { HasHashes (key_hash S.BuildHasher S.Hasher.Hasher K.hash_input hasher.now) shard.now }
    ensures present { is_some result ≡ is_some (pair_of K.eq (shard_pairs shard.now).items key.now) }
    ensures there { IfSome result (λ slot. HasKeyAt K.eq shard.now slot key.now) }
{
    shard.find(hasher.hash_one(key), key)
}

/// Whether the shard has room for one pair more.
pub fn has_room<K: Eq + Hash, V, A: Allocator>(shard: &Shard<K, V, A>) -> bool
    ensures { result ≡ has_room (shard_pairs shard.now) }
{
    shard.len() < shard.capacity()
}

/// The pair of a full slot.
pub fn pair_at<K: Eq + Hash, V, A: Allocator>(shard: &Shard<K, V, A>, slot: usize) -> (&K, &V)
    requires full { IsSome (at shard.now.slots slot) }
    ensures { option_map entry_pair (at shard.now.slots slot) ≡ Some (result.0.now, result.1.now) }
{
    match shard.pair(slot) {
        Some(pair) => pair,
        None => unreachable!(),
    }
}

/// Puts the pair of an absent key in, for which there is room: the slot that it has got.
pub fn add_pair<K: Eq + Hash + Drop, V: Drop, S: BuildHasher, A: Allocator>(
    shard: &mut Shard<K, V, A>,
    hasher: &S,
    key: K,
    value: V,
) -> usize
    requires hashed { HasHashes (key_hash S.BuildHasher S.Hasher.Hasher K.hash_input hasher.now) shard.old }
    requires absent { pair_of K.eq (shard_pairs shard.old).items key ≡ None }
    requires room { has_room (shard_pairs shard.old) ≡ true }
    ensures puts { Puts K.eq (shard_pairs shard.old) (shard_pairs shard.new) key (Some (key, value)) }
    ensures room { shard.new.room ≤ shard.old.room + 1 }
    ensures there { HasKeyAt K.eq shard.new result key }
    ensures hashed { HasHashes (key_hash S.BuildHasher S.Hasher.Hasher K.hash_input hasher.now) shard.new }
{
    shard.add(hasher.hash_one(&key), key, value)
}

/// Makes room in a full shard, for twice as many pairs as there are and some more.
pub fn grow<K: Eq + Hash + Drop, V: Drop, A: Allocator + Clone>(
    shard: &mut Shard<K, V, A>,
) -> Result<(), NoMemory>
    requires hashed { (hash : K → ℕ) × HashesAlike K.eq hash × HasHashes hash shard.old }
    ensures grown { OnOk result (Grown K.eq (shard_pairs shard.old) (shard_pairs shard.new)) }
    ensures refused { OnErr result (shard.new ≡ shard.old) }
    ensures hashed { (hash : K → ℕ) → HasHashes hash shard.old → HasHashes hash shard.new }
{
    let more = shard.len() + 4;
    shard.reserve(more)
}

/// Takes the pair out of a full slot.
pub(crate) fn take_pair<K: Eq + Hash, V, A: Allocator>(
    shard: &mut Shard<K, V, A>,
    slot: usize,
) -> (K, V)
    requires full { IsSome (at shard.old.slots slot) }
    ensures pair { option_map entry_pair (at shard.old.slots slot) ≡ Some result }
    ensures frees { Frees shard.old shard.new slot }
{
    match shard.remove(slot) {
        Some(pair) => pair,
        None => unreachable!(),
    }
}

/// Puts another value into a full slot, and answers the old one.
fn swap_value<K: Eq + Hash, V, A: Allocator>(shard: &mut Shard<K, V, A>, slot: usize, value: V) -> V
    requires full { IsSome (at shard.old.slots slot) }
    ensures old { option_map (λ e. e.value) (at shard.old.slots slot) ≡ Some result }
    ensures after { shard.new ≡ with_value shard.old slot value }
{
    let (_key, place) = shard.lend(slot);
    mem::replace(place, value)
}

/// Puts the deed's effect on the value of a full slot in its place.
pub(crate) fn write_effect<K: Eq + Hash, V, D: Deed<K, V>, A: Allocator>(
    shard: &mut Shard<K, V, A>,
    slot: usize,
    deed: &D,
)
    requires full { IsSome (at shard.old.slots slot) }
    ensures { IfSome (at shard.old.slots slot)
        (λ e. shard.new ≡ with_value shard.old slot (D.effect_of deed.now e.key e.value)) }
{
    let (key, place) = shard.lend(slot);
    store_effect(key, place, deed);
}

/// Whether the deed is to keep the pair of a full slot.
pub(crate) fn keeps<K: Eq + Hash, V, D: Deed<K, V>, A: Allocator>(
    shard: &Shard<K, V, A>,
    slot: usize,
    deed: &D,
) -> bool
    requires full { IsSome (at shard.now.slots slot) }
    ensures { IfSome (at shard.now.slots slot) (λ e. result ≡ D.keeps deed.now e.key e.value) }
{
    let (key, value) = pair_at(shard, slot);
    deed.keep(key, value)
}

/// Does with the pair of a full slot what the call does with it: the call's answer, and whether the pair is gone.
pub fn apply_at<K: Eq + Hash + Drop, V: Drop, D: Deed<K, V> + Drop, A: Allocator>(
    shard: &mut Shard<K, V, A>,
    slot: usize,
    call: Keyed<K, V, D>,
) -> (Answer<K, V, D::Answer, A>, bool)
    requires full { IsSome (at shard.old.slots slot) }
    ensures answer { IfSome (at shard.old.slots slot)
        (λ e. result.0 ≡ keyed_answer (deeds_of D.Deed) call (Some (entry_pair e))) }
    ensures gone { IfSome (at shard.old.slots slot)
        (λ e. result.1 ≡ not (is_some (keyed_leaves (deeds_of D.Deed) call (Some (entry_pair e))))) }
    ensures leaves { IfSome (at shard.old.slots slot)
        (λ e. LeavesAt shard.old shard.new slot (keyed_leaves (deeds_of D.Deed) call (Some (entry_pair e)))) }
{
    match call {
        Keyed::Insert(_, value) => (Answer::Value(swap_value(shard, slot, value)), false),
        Keyed::Remove(_) => {
            let (key, value) = take_pair(shard, slot);
            (Answer::Pair(key, value), true)
        }
        Keyed::InsertUntil(_, value) => (Answer::Value(swap_value(shard, slot, value)), false),
        Keyed::RemoveUntil(_) => {
            let (key, value) = take_pair(shard, slot);
            (Answer::Pair(key, value), true)
        }
        Keyed::RemoveIf(_, deed) => {
            if keeps(shard, slot, &deed) {
                return (Answer::None, false);
            }
            let (key, value) = take_pair(shard, slot);
            (Answer::Pair(key, value), true)
        }
        Keyed::RemoveIfMut(_, deed) => {
            if keeps(shard, slot, &deed) {
                write_effect(shard, slot, &deed);
                return (Answer::None, false);
            }
            let (key, value) = take_pair(shard, slot);
            let left = deed.effect(&key, value);
            (Answer::Pair(key, left), true)
        }
        Keyed::Alter(_, deed) => {
            write_effect(shard, slot, &deed);
            (Answer::Done, false)
        }
        Keyed::View(_, deed) => {
            let (key, value) = pair_at(shard, slot);
            (Answer::Read(deed.answer(key, value)), false)
        }
        Keyed::ContainsKey(_) => (Answer::Flag(true), false),
    }
}

/// Puts a guard's key and a new value into a full slot, and answers the old pair.
fn replace_at<K: Eq + Hash + Drop, V: Drop, A: Allocator>(
    shard: &mut Shard<K, V, A>,
    slot: usize,
    key: K,
    value: V,
) -> (K, V)
    requires full { IsSome (at shard.old.slots slot) }
    requires equal { IfSome (at shard.old.slots slot) (λ e. IsTrue (K.eq e.key key)) }
    ensures pair { option_map entry_pair (at shard.old.slots slot) ≡ Some result }
    ensures leaves { LeavesAt shard.old shard.new slot (Some (key, value)) }
{
    match shard.replace(slot, key, value) {
        Some(pair) => pair,
        None => unreachable!(),
    }
}

/// Does with the guarded pair, which stands in that slot, what the call does with it: the call's answer, and the guard
/// behind it.
pub fn change_at<K: Eq + Hash + Drop, V: Drop, D: Deed<K, V> + Drop, A: Allocator>(
    shard: &mut Shard<K, V, A>,
    slot: usize,
    call: Held<V, D>,
    way: Way<K>,
) -> (Answer<K, V, D::Answer, A>, Option<Guard<K>>)
    requires full { IsSome (at shard.old.slots slot) }
    requires change { is_change call way ≡ true }
    requires equal { (handed : K) → way ≡ Occupied handed
        → IfSome (at shard.old.slots slot) (λ e. IsTrue (K.eq e.key handed)) }
    ensures answer { IfSome (at shard.old.slots slot)
        (λ e. result.0 ≡ held_answer (deeds_of D.Deed) call (lent way (entry_pair e))) }
    ensures guard { result.1 ≡ (if ends_guard call then None else Some (guard.Pair way)) }
    ensures leaves { IfSome (at shard.old.slots slot)
        (λ e. LeavesAt shard.old shard.new slot
        (pair_in (held_leaves (deeds_of D.Deed) call (lent way (entry_pair e))))) }
{
    match (call, way) {
        (Held::Write(deed), Way::Exclusive) => {
            write_effect(shard, slot, &deed);
            (Answer::Done, Some(Guard::Pair(Way::Exclusive)))
        }
        (Held::Write(deed), Way::Occupied(handed)) => {
            write_effect(shard, slot, &deed);
            (Answer::Done, Some(Guard::Pair(Way::Occupied(handed))))
        }
        (Held::Insert(new), Way::Occupied(handed)) => {
            let old = swap_value(shard, slot, new);
            (Answer::Value(old), Some(Guard::Pair(Way::Occupied(handed))))
        }
        (Held::Remove, Way::Occupied(_)) => (Answer::Value(take_pair(shard, slot).1), None),
        (Held::RemoveEntry, Way::Occupied(_)) => {
            let (key, value) = take_pair(shard, slot);
            (Answer::Pair(key, value), None)
        }
        (Held::ReplaceEntry(new), Way::Occupied(handed)) => {
            let (key, value) = replace_at(shard, slot, handed, new);
            (Answer::Pair(key, value), None)
        }
        _ => unreachable!(),
    }
}
