//! What is done with the pairs of one shard, in the order of its slots. For the layer above.
ghost use Rattle.std.specs.Prelude.{◌≡◌, IfOk, IsSome, Some, All};
ghost use Rattle.std.specs.List.{AllZip};
ghost use Rattle.std.specs.Option.{option_map};
ghost use Rattle.dashmap_table.specs.Slots.{at, pair_of, pairs_of};
ghost use Rattle.dashmap_view.specs.Parallel.Calls.{AnswersOf, MakesOf, LeavesOf, WritesAt, WritesEach};

use dashmap_table::{NoMemory, Shard};
use std::alloc::Allocator;
use std::hash::Hash;

/// What a closure answers of the pair of a full slot.
fn answer_at<K: Eq + Hash, V, A: Allocator, T, F: Fn(&K, &V) -> T>(
    shard: &Shard<K, V, A>,
    slot: usize,
    f: &F,
) -> T
    requires full { IsSome (at shard.now.slots slot) }
    requires callable { F.IsAlwaysCallable f.now }
    ensures { (p : K × V) × (option_map pair_of (at shard.now.slots slot) ≡ Some p) × AnswersOf F.Fn f.now p result }
{
    let Some((key, value)) = shard.pair(slot) else {
        unreachable!()
    };
    f(key, value)
}

/// What a closure answers of each pair of a shard.
pub fn answers_of<K: Eq + Hash, V, A: Allocator, B: Allocator, T: Drop, F: Fn(&K, &V) -> T>(
    shard: &Shard<K, V, A>,
    f: &F,
    alloc: B,
) -> Result<Vec<T, B>, NoMemory>
    requires { F.IsAlwaysCallable f.now }
    ensures { IfOk result (λ v. AllZip (AnswersOf F.Fn f.now) (pairs_of shard.now.slots) v.items) }
{
    let mut answers = Vec::with_capacity(alloc, shard.len())?;
    let mut from = 0;
    while let Some(slot) = shard.next_from(from) {
        let answer = answer_at(shard, slot, f);
        answers.push(answer)?;
        from = slot + 1;
    }
    Ok(answers)
}

/// Calls a closure once for each pair of a shard.
pub fn visit_each<K: Eq + Hash, V, A: Allocator, F: Fn(&K, &V)>(shard: &Shard<K, V, A>, f: &F)
    requires { F.IsAlwaysCallable f.now }
    ensures { All (λ p. AnswersOf F.Fn f.now p tt) (pairs_of shard.now.slots) }
{
    let mut from = 0;
    while let Some(slot) = shard.next_from(from) {
        answer_at(shard, slot, f);
        from = slot + 1;
    }
}

/// What a closure answers of each pair of a shard, which is given away.
pub(crate) fn made_of<
    K: Eq + Hash + Drop,
    V: Drop,
    A: Allocator,
    B: Allocator,
    T: Drop,
    F: Fn(K, V) -> T,
>(shard: Shard<K, V, A>, f: &F, alloc: B) -> Result<Vec<T, B>, NoMemory>
    requires { F.IsAlwaysCallable f.now }
    ensures { IfOk result (λ v. AllZip (MakesOf F.Fn f.now) (pairs_of shard.slots) v.items) }
{
    let mut answers = Vec::with_capacity(alloc, shard.len())?;
    let mut pairs = shard.into_pairs();
    while let Some((key, value)) = pairs.next() {
        answers.push(f(key, value))?;
    }
    Ok(answers)
}

/// Hands each pair of a shard to a closure.
pub(crate) fn hand_each<K: Eq + Hash + Drop, V: Drop, A: Allocator, F: Fn(K, V)>(
    shard: Shard<K, V, A>,
    f: &F,
)
    requires { F.IsAlwaysCallable f.now }
    ensures { All (λ p. MakesOf F.Fn f.now p tt) (pairs_of shard.slots) }
{
    let mut pairs = shard.into_pairs();
    while let Some((key, value)) = pairs.next() {
        f(key, value);
    }
}

/// Calls a closure at a key and a value that it may write.
fn lend_to<K, V, F: Fn(&K, &mut V)>(key: &K, value: &mut V, f: &F)
    requires { F.IsAlwaysCallable f.now }
    ensures { LeavesOf F.Fn f.now (key.now, value.old) value.new }
{
    f(key, value);
}

/// Lends a closure the value of a full slot for writing.
fn write_at<K: Eq + Hash, V, A: Allocator, F: Fn(&K, &mut V)>(
    shard: &mut Shard<K, V, A>,
    slot: usize,
    f: &F,
)
    requires full { IsSome (at shard.old.slots slot) }
    requires callable { F.IsAlwaysCallable f.now }
    ensures { WritesAt F.Fn f.now shard.old slot shard.new }
{
    let (key, value) = shard.lend(slot);
    lend_to(key, value, f);
}

/// Lends a closure the value of each pair of a shard for writing.
pub fn write_each<K: Eq + Hash, V, A: Allocator, F: Fn(&K, &mut V)>(
    shard: &mut Shard<K, V, A>,
    f: &F,
)
    requires { F.IsAlwaysCallable f.now }
    ensures { WritesEach F.Fn f.now shard.old shard.new }
{
    let mut from = 0;
    while let Some(slot) = shard.next_from(from) {
        write_at(shard, slot, f);
        from = slot + 1;
    }
}
