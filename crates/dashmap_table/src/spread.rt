//! Hashes that are told from the key, so that a test can choose the shard of each key.
ghost use Rattle.std.specs.Prelude.{◌≡◌, ◌*◌, ◌%◌, ◌^◌};
ghost use Rattle.dashmap_table.specs.Spread as spread;

use std::hash::{BuildHasher, Hasher};

/// Makes hashers that spread number keys over the shards in turn. It is for tests and small worlds, where it must be
/// plain which keys share a shard; whoever picks the keys can make all of them collide.
///
/// A number key hashes to its lowest byte, put in the highest byte of the hash, as `spread_hash` says: a map of two
/// shards that picks the shard by the lowest bit of that byte has the even keys on one and the odd keys on the other.
#[derive(Clone, Copy, PartialEq, Eq, Debug)]
pub struct SpreadState;

/// A hasher whose hash is told by one byte, put in the highest place: the first byte of the last write, whatever
/// came before it and whatever stands behind it. A write of no bytes changes nothing, and before any write the byte is
/// 0.
///
/// So a number of any width gives its lowest byte. A text gives 255, since its last write is the byte that ends it:
/// this hasher is for number keys.
#[derive(Clone, Copy)]
pub struct SpreadHasher {
    first: u8,
}

impl Hasher for SpreadHasher {
    ghost write = { spread.write };

    ghost finish = { spread.finish };

    fn finish(&self) -> u64 {
        u64::from(self.first) << 56
    }

    fn write(&mut self, bytes: &[u8]) {
        if let Some(first) = bytes.first() {
            self.first = *first;
        }
    }
}

impl BuildHasher for SpreadState {
    type Hasher = SpreadHasher;

    ghost build_hasher = { λ _. spread.initial };

    fn build_hasher(&self) -> SpreadHasher {
        SpreadHasher { first: 0 }
    }
}

/// The hash of a `u64` key under `SpreadState`. It is for the layer above, which has to say which keys share a shard:
/// keys 0, 1 and 2 hash to 0, 2^56 and 2^57, and key 256 hashes to 0 again.
///
/// ```text
/// let hash = spread_hash(7);
/// ```
pub fn spread_hash(key: u64) -> u64
    ensures { result ≡ (key % 256) * 2 ^ 56 }
{
    SpreadState.hash_one(key)
}
