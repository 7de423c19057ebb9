//! The buckets of a lot. A key's bucket is the key modulo the number of buckets.
ghost use Rattle.std.specs.Prelude.{◌≡◌};

use crate::bucket::Bucket;
use crate::levels::{keep, none_made, rows};
use crate::stuck::stuck;
use std::alloc::{AllocError, Allocator};
use std::sync::atomic::{AtomicUsize, Ordering};
use std::sync::{Mutex, MutexGuard, OnceLock, Wait};

/// How many buckets there are at first.
const FIRST_COUNT: usize = 16;

/// How often their number can be doubled, and once more: there are 262,144 then, and at least three for each of
/// 65,536 threads are wanted.
const LEVELS: usize = 15;

/// A bucket, under its lock.
type Locked<A> = Mutex<Bucket<A>>;

/// All buckets of a level.
pub(crate) type Buckets<A> = Vec<Locked<A>, A>;

/// The buckets. Each level has them all; those of an earlier one have moved to the next, or are about to.
#[derive(Drop)]
pub(crate) struct Table<A: Allocator> {
    levels: Vec<OnceLock<Buckets<A>>, A>,
    /// The last level whose buckets all have their waiters.
    level: AtomicUsize,
}

/// The buckets of one key or of two, had by their locks.
#[derive(Drop)]
pub(crate) enum Both<'t, A: Allocator> {
    One(MutexGuard<'t, Bucket<A>>),
    Two(MutexGuard<'t, Bucket<A>>, MutexGuard<'t, Bucket<A>>),
}

/// Where a bucket stands.
#[derive(Clone, Copy, PartialEq)]
struct Spot {
    level: usize,
    bucket: usize,
}

impl<A: Allocator> Table<A> {
    /// The bucket of a key on a level.
    fn bucket(&self, level: usize, key: usize) -> Option<&Mutex<Bucket<A>>> {
        let buckets = rows(&self.levels, level)?;
        Some(buckets.get(place(key, buckets.len())?)?)
    }

    /// The bucket of a key on a level, had by its lock, where its waiters haven't moved.
    fn had<R: Wait>(
        &self,
        rt: &R,
        level: usize,
        key: usize,
    ) -> Option<Option<MutexGuard<'_, Bucket<A>>>> {
        let bucket = self.bucket(level, key)?.lock(rt);
        if bucket.moved {
            return Some(None);
        }
        Some(Some(bucket))
    }

    /// The bucket of a key on a level, where nobody has its lock now and its waiters haven't moved.
    #[inline(always)]
    fn tried(&self, level: usize, key: usize) -> Option<MutexGuard<'_, Bucket<A>>> {
        let bucket = self.bucket(level, key)?.try_lock()?;
        if bucket.moved {
            return None;
        }
        Some(bucket)
    }

    /// Waits for the lock of a key's bucket.
    #[inline(always)]
    pub fn lock<R: Wait>(&self, rt: &R, key: usize) -> MutexGuard<'_, Bucket<A>> {
        let level = self.level.load(Ordering::SeqCst);
        match self.tried(level, key) {
            Some(bucket) => bucket,
            None => self.lock_from(rt, level, key),
        }
    }

    /// The same from a level on. Where the bucket has moved it looks again, one level on.
    #[cold]
    fn lock_from<R: Wait>(&self, rt: &R, level: usize, key: usize) -> MutexGuard<'_, Bucket<A>> {
        let mut level = level;
        for _turn in rt.forever() {
            match self.had(rt, level, key) {
                Some(Some(bucket)) => return bucket,
                Some(None) => level = level.wrapping_add(1),
                None => match stuck(rt) {},
            }
        }
        unreachable!()
    }

    /// What its memory is taken from.
    pub fn allocator(&self) -> &A {
        self.levels.allocator()
    }

    /// Where the bucket of a key on a level stands.
    fn spot(&self, level: usize, key: usize) -> Option<Spot> {
        let bucket = place(key, rows(&self.levels, level)?.len())?;
        Some(Spot { level, bucket })
    }

    /// The buckets of two keys on two levels, had by their locks, the lower first and one bucket once. Where one has
    /// moved: the levels on which to look again.
    fn had_both<R: Wait>(
        &self,
        rt: &R,
        levels: (usize, usize),
        first: usize,
        second: usize,
    ) -> Option<Result<Both<'_, A>, (usize, usize)>> {
        let one = self.spot(levels.0, first)?;
        let other = self.spot(levels.1, second)?;
        if one == other {
            return Some(match self.had(rt, levels.0, first)? {
                Some(bucket) => Ok(Both::One(bucket)),
                None => Err((levels.0.wrapping_add(1), levels.1.wrapping_add(1))),
            });
        }
        if one.is_before(other) {
            let Some(source) = self.had(rt, levels.0, first)? else {
                return Some(Err((levels.0.wrapping_add(1), levels.1)));
            };
            return Some(match self.had(rt, levels.1, second)? {
                Some(target) => Ok(Both::Two(source, target)),
                None => Err((levels.0, levels.1.wrapping_add(1))),
            });
        }
        let Some(target) = self.had(rt, levels.1, second)? else {
            return Some(Err((levels.0, levels.1.wrapping_add(1))));
        };
        Some(match self.had(rt, levels.0, first)? {
            Some(source) => Ok(Both::Two(source, target)),
            None => Err((levels.0.wrapping_add(1), levels.1)),
        })
    }

    /// Waits for the locks of two keys' buckets.
    pub fn lock_both<R: Wait>(&self, rt: &R, first: usize, second: usize) -> Both<'_, A> {
        let level = self.level.load(Ordering::SeqCst);
        let mut levels = (level, level);
        for _turn in rt.forever() {
            match self.had_both(rt, levels, first, second) {
                Some(Ok(both)) => return both,
                Some(Err(next)) => levels = next,
                None => match stuck(rt) {},
            }
        }
        unreachable!()
    }

    /// Has all buckets move to the next level, one by one. The caller sees to it that one thread does so at a time.
    pub fn grow<R: Wait>(&self, rt: &R, buckets: Buckets<A>) {
        let level = self.level.load(Ordering::SeqCst);
        let next = level.wrapping_add(1);
        keep(&self.levels, next, buckets);
        if let (Some(old), Some(new)) = (rows(&self.levels, level), rows(&self.levels, next)) {
            for bucket in 0..old.len() {
                move_bucket(rt, old, new, bucket);
            }
            self.level.store(next, Ordering::SeqCst);
        }
    }
}

impl<A: Allocator + Clone> Table<A> {
    /// The first buckets.
    pub fn new(alloc: A) -> Result<Table<A>, AllocError> {
        let levels = none_made(alloc.clone()?, LEVELS)?;
        keep(&levels, 0, empty(alloc, FIRST_COUNT)?);
        Ok(Table {
            levels,
            level: AtomicUsize::new(0),
        })
    }

    /// The buckets that there are to be for so many threads, if they are more than now.
    pub fn wanted(&self, threads: usize) -> Result<Option<Buckets<A>>, AllocError> {
        let level = self.level.load(Ordering::SeqCst);
        let count = rows(&self.levels, level).map_or(0, |buckets| buckets.len());
        if threads.saturating_mul(3) <= count {
            return Ok(None);
        }
        let alloc = self.levels.allocator().clone()?;
        Ok(Some(empty(alloc, count.saturating_mul(2))?))
    }
}

impl Spot {
    /// Whether its lock is taken first.
    fn is_before(self, other: Spot) -> bool {
        self.level < other.level || (self.level == other.level && self.bucket < other.bucket)
    }
}

/// A key's bucket among so many, a power of two: the key modulo that number.
#[inline(always)]
fn place(key: usize, count: usize) -> Option<usize> {
    Some(key & count.checked_sub(1)?)
}

/// So many buckets in which nobody waits.
fn empty<A: Allocator>(alloc: A, count: usize) -> Result<Buckets<A>, AllocError> {
    let mut buckets = Vec::with_capacity(alloc, count)?;
    for _ in 0..count {
        buckets.push(Mutex::new(Bucket::new()))?;
    }
    Ok(buckets)
}

/// Has the waiters of a bucket move to its two of the next level, the lower first.
fn move_bucket<R: Wait, A: Allocator>(rt: &R, old: &[Locked<A>], new: &[Locked<A>], bucket: usize) {
    let count = new.len();
    let upper = bucket.wrapping_add(old.len());
    let (Some(from), Some(low), Some(high)) = (old.get(bucket), new.get(bucket), new.get(upper))
    else {
        return;
    };
    let mut from = from.lock(rt);
    let mut low = low.lock(rt);
    let mut high = high.lock(rt);
    let (stay, go) = from.part(upper, count);
    *low = stay;
    *high = go;
}
