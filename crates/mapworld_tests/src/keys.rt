//! Keys that are equal though they differ, and keys that share a hash.

use super::worlds::{Look, Numbers, looked_by, step_round};
use mapworld::{Answer, Ask, Begin, Deed, Held, Keyed, MapWorld, Reply, SpreadState};
use std::alloc::{AllocError, Global};
use std::hash::{BuildHasher, Hash, Hasher};
use std::test::Fail;

/// A letter that is compared without its case.
#[derive(Drop)]
#[derive_where(PartialEq, Eq, Hash)]
struct Letter {
    folded: u8,
    #[derive_where(skip)]
    shown: u8,
}

fn letter_of(shown: u8) -> Letter {
    Letter {
        folded: shown.to_ascii_lowercase(),
        shown,
    }
}

/// Reads the stored key's letter.
#[derive(Drop)]
struct ReadKey;

impl Deed<Letter, u64> for ReadKey {
    type Answer = u8;

    ghost use Rattle.std.specs.Prelude.{true};

    ghost answer_of = { λ deed key value. key.shown };

    ghost keeps = { λ deed key value. true };

    ghost effect_of = { λ deed key value. value };

    fn answer(&self, key: &Letter, _value: &u64) -> u8 {
        key.shown
    }

    fn keep(&self, _key: &Letter, _value: &u64) -> bool {
        true
    }

    fn effect(&self, _key: &Letter, value: u64) -> u64 {
        value
    }
}

/// Gives every key the same hash.
#[derive(Clone, Copy)]
struct OneHash;

#[derive(Clone, Copy)]
struct OneHasher;

impl Hasher for OneHasher {
    ghost write = { λ hasher bytes. hasher };

    ghost finish = { λ hasher. 0 };

    fn write(&mut self, _bytes: &[u8]) {}

    fn finish(&self) -> u64 {
        0
    }
}

impl BuildHasher for OneHash {
    type Hasher = OneHasher;

    ghost build_hasher = { λ builder. record {} };

    fn build_hasher(&self) -> OneHasher {
        OneHasher
    }
}

/// One thread that calls keys of a type, each pair with a number.
trait Story {
    type Key: Eq + Hash + Drop;

    type Deed: Deed<Self::Key, u64> + Drop;

    /// The pairs that are there at the start.
    fn pairs(alloc: Global) -> Result<Vec<(Self::Key, u64)>, AllocError>;

    fn program(alloc: Global) -> Result<Vec<Ask<Self::Key, u64, Self::Deed>>, AllocError>;

    /// Whether its calls are answered as they are to be.
    fn is_so(
        replies: &[Reply<Self::Key, u64, <Self::Deed as Deed<Self::Key, u64>>::Answer, Global>],
    ) -> bool;
}

/// Makes a world of a story, on so many shards, and runs it; says whether it comes as it is told.
fn comes_true<T: Story>(alloc: Global, shards: usize) -> Result<bool, Fail> {
    let programs = vec![in alloc; T::program(alloc)?]?;
    let mut world = MapWorld::new(alloc, shards, SpreadState, T::pairs(alloc)?, programs)?;
    Ok(step_round(&mut world) && T::is_so(world.replies()))
}

/// Calls on one letter in both cases. Of equal keys the last value and the first key are there at the start, and an
/// insertion leaves the stored key.
struct OneLetter;

impl Story for OneLetter {
    type Key = Letter;

    type Deed = ReadKey;

    fn pairs(alloc: Global) -> Result<Vec<(Letter, u64)>, AllocError> {
        Ok(vec![in alloc; (letter_of(b'k'), 0), (letter_of(b'K'), 1)]?)
    }

    fn program(alloc: Global) -> Result<Vec<Ask<Letter, u64, ReadKey>>, AllocError> {
        Ok(vec![in alloc;
            Ask::Keyed(Keyed::Insert(letter_of(b'K'), 2)),
            Ask::Begin(Begin::Get(letter_of(b'k'))),
            Ask::Held(Held::Read(ReadKey)),
            Ask::Held(Held::Drop),
            Ask::Keyed(Keyed::Remove(letter_of(b'k'))),
        ]?)
    }

    fn is_so(replies: &[Reply<Letter, u64, u8, Global>]) -> bool {
        match replies {
            [first, _, read, _, last] => {
                first.answer == Answer::Value(1)
                    && read.answer == Answer::Read(b'k')
                    && last.answer == Answer::Pair(letter_of(b'k'), 2)
            }
            _ => false,
        }
    }
}

#[test]
fn equal_keys_are_one_key(rt: HostRuntime) -> Result<(), Fail> {
    assert!(rt; comes_true::<OneLetter>(rt.alloc(), 2)?);
    Ok(())
}

/// Whether the answer is the key of that letter, or a pair with it.
fn shows_letter(answer: &Answer<Letter, u64, u8, Global>, shown: u8) -> bool {
    match answer {
        Answer::Key(key) => key.shown == shown,
        Answer::Pair(key, _) => key.shown == shown,
        Answer::Read(letter) => *letter == shown,
        _ => false,
    }
}

/// Calls at the place of one letter, asked for in the other case. The stored key stays at an insertion, and the
/// handed-in one is given back or put in its place.
struct OneEntry;

impl Story for OneEntry {
    type Key = Letter;

    type Deed = ReadKey;

    fn pairs(alloc: Global) -> Result<Vec<(Letter, u64)>, AllocError> {
        Ok(vec![in alloc; (letter_of(b'k'), 0)]?)
    }

    fn program(alloc: Global) -> Result<Vec<Ask<Letter, u64, ReadKey>>, AllocError> {
        Ok(vec![in alloc;
            Ask::Begin(Begin::Entry(letter_of(b'K'))),
            Ask::Held(Held::Insert(2)),
            Ask::Held(Held::Read(ReadKey)),
            Ask::Held(Held::IntoKey),
            Ask::Held(Held::Drop),
            Ask::Begin(Begin::Entry(letter_of(b'K'))),
            Ask::Held(Held::ReplaceEntry(3)),
            Ask::Held(Held::Drop),
            Ask::Keyed(Keyed::Remove(letter_of(b'k'))),
        ]?)
    }

    fn is_so(replies: &[Reply<Letter, u64, u8, Global>]) -> bool {
        match replies {
            [_, _, read, key, _, _, replaced, _, removed] => {
                shows_letter(&read.answer, b'k')
                    && shows_letter(&key.answer, b'K')
                    && shows_letter(&replaced.answer, b'k')
                    && replaced.answer == Answer::Pair(letter_of(b'k'), 2)
                    && shows_letter(&removed.answer, b'K')
                    && removed.answer == Answer::Pair(letter_of(b'k'), 3)
            }
            _ => false,
        }
    }
}

#[test]
fn an_entry_keeps_the_key_that_it_was_handed(rt: HostRuntime) -> Result<(), Fail> {
    assert!(rt; comes_true::<OneEntry>(rt.alloc(), 2)?);
    Ok(())
}

/// What the calls on keys of one hash are answered.
const OF_ONE_HASH: &str = "value 5, none, pair 1=10, held, read 2=20, done, blocks 4; ";

/// Looks at what calls are answered, and whether key 1 is away then, and keys 2 and 3 are there.
#[derive(Drop)]
struct TwoAndThree;

impl Look for TwoAndThree {
    type Seen = (String, bool);

    fn look<W: Numbers>(self, alloc: Global, world: &mut W) -> Result<(String, bool), Fail> {
        let is_done = step_round(world);
        let are_there = world.found(2) == Some((2, 20)) && world.found(3) == Some((3, 30));
        let told = world.told(alloc)?;
        Ok((told, is_done && are_there && world.found(1).is_none()))
    }
}

#[test]
fn keys_of_one_hash_stay_apart(rt: HostRuntime) -> Result<(), Fail> {
    let text = "thread a\n  insert 1 10\n  insert 2 20\n  remove 1\n  get 2\n    read\n    drop\n";
    let pairs = [(1, 5), (3, 30)];
    let (told, are_there) = looked_by(rt.alloc(), 4, OneHash, &pairs, text, TwoAndThree)?;
    assert!(rt; are_there && told.as_str() == OF_ONE_HASH, "{told}");
    Ok(())
}

/// A number with a label that doesn't count when two are compared.
#[derive(Drop)]
#[derive_where(PartialEq, Eq, Hash)]
struct Labelled {
    number: u64,
    #[derive_where(skip)]
    label: u8,
}

/// Reads nothing.
#[derive(Drop)]
struct ReadNothing;

impl<K> Deed<K, u64> for ReadNothing {
    type Answer = u8;

    ghost use Rattle.std.specs.Prelude.{true};

    ghost answer_of = { λ deed key value. 0 };

    ghost keeps = { λ deed key value. true };

    ghost effect_of = { λ deed key value. value };

    fn answer(&self, _key: &K, _value: &u64) -> u8 {
        0
    }

    fn keep(&self, _key: &K, _value: &u64) -> bool {
        true
    }

    fn effect(&self, _key: &K, value: u64) -> u64 {
        value
    }
}

/// Calls on the unit, which find one pair.
struct OneUnit;

impl Story for OneUnit {
    type Key = ();

    type Deed = ReadNothing;

    fn pairs(alloc: Global) -> Result<Vec<((), u64)>, AllocError> {
        Ok(vec![in alloc; ((), 0), ((), 1)]?)
    }

    fn program(alloc: Global) -> Result<Vec<Ask<(), u64, ReadNothing>>, AllocError> {
        Ok(vec![in alloc;
            Ask::Keyed(Keyed::Insert((), 2)),
            Ask::Keyed(Keyed::Remove(())),
            Ask::Keyed(Keyed::Remove(())),
        ]?)
    }

    fn is_so(replies: &[Reply<(), u64, u8, Global>]) -> bool {
        match replies {
            [first, second, last] => {
                first.answer == Answer::Value(1)
                    && second.answer == Answer::Pair((), 2)
                    && last.answer == Answer::None
            }
            _ => false,
        }
    }
}

#[test]
fn there_is_one_unit(rt: HostRuntime) -> Result<(), Fail> {
    assert!(rt; comes_true::<OneUnit>(rt.alloc(), 4)?);
    Ok(())
}

/// Number 1 with that label.
fn one(label: u8) -> Labelled {
    Labelled { number: 1, label }
}

/// Calls on number 1 under other labels than its own, which find it and leave its label.
struct OneNumber;

impl Story for OneNumber {
    type Key = Labelled;

    type Deed = ReadNothing;

    fn pairs(alloc: Global) -> Result<Vec<(Labelled, u64)>, AllocError> {
        Ok(vec![in alloc; (one(1), 4)]?)
    }

    fn program(alloc: Global) -> Result<Vec<Ask<Labelled, u64, ReadNothing>>, AllocError> {
        Ok(vec![in alloc;
            Ask::Keyed(Keyed::Insert(one(2), 5)),
            Ask::Keyed(Keyed::Remove(one(3))),
        ]?)
    }

    fn is_so(replies: &[Reply<Labelled, u64, u8, Global>]) -> bool {
        match replies {
            [first, last] => {
                let is_labelled = match &last.answer {
                    Answer::Pair(key, 5) => key.label == 1,
                    _ => false,
                };
                first.answer == Answer::Value(4) && is_labelled
            }
            _ => false,
        }
    }
}

#[test]
fn keys_are_compared_by_one_field(rt: HostRuntime) -> Result<(), Fail> {
    assert!(rt; comes_true::<OneNumber>(rt.alloc(), 2)?);
    Ok(())
}
