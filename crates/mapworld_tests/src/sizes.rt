//! Worlds of the largest sizes, and one of another hasher.

use super::worlds::{Look, Numbers, are_finished, looked_at, looked_by, step_round};
use std::alloc::{AllocError, Global};
use std::hash::{BuildHasherDefault, FoldHasher};
use std::test::Fail;

/// So many threads, each of which inserts a key as its own value, and reads it by a guard.
fn programs_of_each(alloc: Global, keys: u64) -> Result<String, AllocError> {
    let mut text = String::new(alloc);
    for key in 0..keys {
        write!(
            text,
            "thread t{key}\n  insert {key} {key}\n  get {key}\n    read\n    drop\n"
        )?;
    }
    Ok(text)
}

/// What they are answered.
fn answers_of_each(alloc: Global, keys: u64) -> Result<String, AllocError> {
    let mut want = String::new(alloc);
    for key in 0..keys {
        write!(want, "none, held, read {key}={key}, done, blocks 2; ")?;
    }
    Ok(want)
}

/// What the calls of a world are answered, which is run to its end.
fn told_at_end<W: Numbers>(alloc: Global, world: &mut W) -> Result<String, Fail> {
    if step_round(world) && are_finished(world) {
        Ok(world.told(alloc)?)
    } else {
        Err(Fail::new("a step isn't made, or a call isn't answered"))
    }
}

/// Looks at what calls are answered.
#[derive(Drop)]
struct Answers;

impl Look for Answers {
    type Seen = String;

    fn look<W: Numbers>(self, alloc: Global, world: &mut W) -> Result<String, Fail> {
        told_at_end(alloc, world)
    }
}

#[test]
fn a_world_of_256_threads_runs_to_its_end(rt: HostRuntime) -> Result<(), Fail> {
    let text = programs_of_each(rt.alloc(), 256)?;
    let want = answers_of_each(rt.alloc(), 256)?;
    let told = looked_at(rt.alloc(), 2, &[], text.as_str(), Answers)?;
    assert!(rt; told.as_str() == want.as_str());
    Ok(())
}

/// The pairs of the keys below that number, each with its key as its value.
fn same(alloc: Global, keys: u64) -> Result<Vec<(u64, u64)>, AllocError> {
    let mut pairs = Vec::new(alloc);
    for key in 0..keys {
        pairs.push((key, key))?;
    }
    Ok(pairs)
}

/// What its calls are answered in the world of the most shards.
const OF_4096: &str = "pair 0=0, value 255, blocks 2; held, read 7=7, done, blocks 1; ";

/// Whether a world has 255 pairs, without key 0 and with 1 at key 255.
fn has_lost_one<W: Numbers>(world: &W) -> Result<bool, Fail> {
    let count = world.count()?;
    Ok(count == 255 && world.found(255) == Some((255, 1)) && world.found(0).is_none())
}

/// Looks at what calls are answered, and whether a pair is lost then.
#[derive(Drop)]
struct Loss;

impl Look for Loss {
    type Seen = (String, bool);

    fn look<W: Numbers>(self, alloc: Global, world: &mut W) -> Result<(String, bool), Fail> {
        let told = told_at_end(alloc, world)?;
        Ok((told, has_lost_one(world)?))
    }
}

#[test]
fn a_world_of_4096_shards_runs_to_its_end(rt: HostRuntime) -> Result<(), Fail> {
    let text = "thread a\n  remove 0\n  insert 255 1\nthread b\n  get 7\n    read\n    drop\n";
    let pairs = same(rt.alloc(), 256)?;
    let (told, has_lost_one) = looked_at(rt.alloc(), 4096, &pairs, text, Loss)?;
    assert!(rt; has_lost_one && told.as_str() == OF_4096, "{told}");
    Ok(())
}

/// Looks whether each of these pairs is found by its key.
#[derive(Drop)]
struct FindsAll<'p>(&'p [(u64, u64)]);

impl<'p> Look for FindsAll<'p> {
    type Seen = bool;

    fn look<W: Numbers>(self, _alloc: Global, world: &mut W) -> Result<bool, Fail> {
        let FindsAll(pairs) = self;
        Ok(pairs.iter().all(|pair| world.found(pair.0) == Some(*pair)))
    }
}

#[test]
fn a_key_has_one_shard(rt: HostRuntime) -> Result<(), Fail> {
    let text = "thread a\n  remove 1\n";
    let pairs = same(rt.alloc(), 8)?;
    let hasher: BuildHasherDefault<FoldHasher> = BuildHasherDefault::new();
    assert!(rt; looked_by(rt.alloc(), 16, hasher, &pairs, text, FindsAll(&pairs))?);
    Ok(())
}
