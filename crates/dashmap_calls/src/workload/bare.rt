//! One bare shard for one owner, and the calls of it that are measured.
ghost use Rattle.std.specs.Prelude.{◌≤◌, length};

use crate::workload::Fault;
use dashmap_table::{Shard, WIDTH};
use std::alloc::Allocator;
use std::hash::{BuildHasher, BuildHasherDefault, FoldHasher};

/// A shard and a hasher that takes one multiplication.
#[derive(Drop)]
pub struct Bare<A: Allocator> {
    shard: Shard<u64, u64, A>,
    hasher: BuildHasherDefault<FoldHasher>,
}

/// What is done with each key.
#[derive(Clone, Copy, PartialEq, Eq)]
pub enum Deed {
    /// The key is made and hashed, and no more: what the others take beside their calls.
    Mix,
    /// A new key is put in.
    Insert,
    /// A key that is there is looked for.
    Hit,
    /// One that isn't there is.
    Miss,
    /// Each pair is met on a walk.
    Walk,
    /// Each key is taken out.
    Remove,
    /// A new key is put in and taken out, which are two calls.
    Churn,
}

/// A number for each, spread over all bits. Different numbers have different ones.
#[inline(always)]
pub fn spread(n: u64) -> u64 {
    let far = n.wrapping_add(0x9E37_79B9_7F4A_7C15);
    let once = (far ^ (far >> 30)).wrapping_mul(0xBF58_476D_1CE4_E5B9);
    let twice = (once ^ (once >> 27)).wrapping_mul(0x94D0_49BB_1331_11EB);
    twice ^ (twice >> 31)
}

/// The number behind one, and 0 behind the last.
#[inline(always)]
fn behind(turn: u64, keys: u64) -> u64 {
    let next = turn.wrapping_add(1);
    if next < keys { next } else { 0 }
}

impl<A: Allocator> Bare<A> {
    /// A shard without pairs.
    pub fn new(alloc: A) -> Bare<A> {
        Bare {
            shard: Shard::new(alloc),
            hasher: BuildHasherDefault::new(),
        }
    }

    /// The sum of the hashes of so many keys.
    fn mix_all(&self, count: u64, keys: u64) -> u64 {
        let mut sum = 0u64;
        let mut turn = 0u64;
        for _ in 0..count {
            sum = sum.wrapping_add(self.hasher.hash_one(&spread(turn)));
            turn = behind(turn, keys);
        }
        sum
    }

    #[inline(always)]
    fn value(&self, key: u64) -> Option<u64> {
        let (_, value) = self
            .shard
            .pair(self.shard.find(self.hasher.hash_one(&key), &key)?)?;
        Some(*value)
    }

    #[inline(always)]
    fn put(&mut self, key: u64, value: u64) -> Result<(), Fault>
    where
        A: Clone,
    {
        match self.shard.insert(self.hasher.hash_one(&key), key, value) {
            Ok(_) => Ok(()),
            Err(_) => Err(Fault),
        }
    }

    #[inline(always)]
    fn take(&mut self, key: u64) -> Option<u64> {
        let slot = self.shard.find(self.hasher.hash_one(&key), &key)?;
        let (_, value) = self.shard.remove(slot)?;
        Some(value)
    }

    fn put_all(&mut self, count: u64, keys: u64) -> Result<u64, Fault>
    where
        A: Clone,
    {
        let mut turn = 0u64;
        for n in 0..count {
            self.put(spread(turn), n)?;
            turn = behind(turn, keys);
        }
        Ok(count)
    }

    /// The sum of the values of keys from one on, where an absent one counts 1.
    fn look_up_all(&self, first: u64, count: u64, keys: u64) -> u64 {
        let mut sum = 0u64;
        let mut turn = 0u64;
        for _ in 0..count {
            let value = self.value(spread(turn.wrapping_add(first)));
            sum = sum.wrapping_add(value.unwrap_or(1));
            turn = behind(turn, keys);
        }
        sum
    }

    fn take_all(&mut self, count: u64, keys: u64) -> u64 {
        let mut sum = 0u64;
        let mut turn = 0u64;
        for _ in 0..count {
            sum = sum.wrapping_add(self.take(spread(turn)).unwrap_or(1));
            turn = behind(turn, keys);
        }
        sum
    }

    /// Puts so many keys in that aren't there, and takes each out before the next.
    fn churn(&mut self, count: u64, keys: u64) -> Result<u64, Fault>
    where
        A: Clone,
    {
        let mut sum = 0u64;
        let mut turn = 0u64;
        for n in 0..count {
            let key = spread(turn.wrapping_add(keys));
            self.put(key, n)?;
            sum = sum.wrapping_add(self.take(key).unwrap_or(1));
            turn = behind(turn, keys);
        }
        Ok(sum)
    }

    /// The sum of the keys and values of some slots that are compared at once.
    #[inline(always)]
    fn window_sum(&self, from: usize) -> u64
        requires { from ≤ length self.now.shard.slots }
    {
        let mut sum = 0u64;
        let mut left = self.shard.full_from(from);
        while let Some(lane) = left.first() {
            if let Some((key, value)) = self.shard.pair(from.wrapping_add(lane)) {
                sum = sum.wrapping_add(*key ^ *value);
            }
            left = left.without(lane);
        }
        sum
    }

    /// The sum of all keys and values.
    fn walked(&self) -> u64 {
        let slots = self.shard.slots();
        let mut sum = 0u64;
        let mut from = 0usize;
        while from < slots {
            sum = sum.wrapping_add(self.window_sum(from));
            from = from.saturating_add(WIDTH);
        }
        sum
    }

    /// Makes so many calls with keys, of which there are so many by turns, and answers a sum of what it saw.
    pub fn run(&mut self, deed: Deed, count: u64, keys: u64) -> Result<u64, Fault>
    where
        A: Clone,
    {
        match deed {
            Deed::Mix => Ok(self.mix_all(count, keys)),
            Deed::Insert => self.put_all(count, keys),
            Deed::Hit => Ok(self.look_up_all(0, count, keys)),
            Deed::Miss => Ok(self.look_up_all(keys, count, keys)),
            Deed::Walk => Ok(self.walked()),
            Deed::Remove => Ok(self.take_all(count, keys)),
            Deed::Churn => self.churn(count / 2, keys),
        }
    }
}
