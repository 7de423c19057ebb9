//! The word of a reader-writer lock: what each of its bits is worth, and what they say.
//!
//! An owner adds its share to the word, and takes it off again. So a word is also a sum of shares, and the tokens of
//! those that sleep for the lock are the shares that they want.
ghost use Rattle.std.specs.Prelude.{◌≡◌, ◌/◌, ◌%◌, ◌==◌, ◌&&◌, nat_lt};
ghost use Rattle.parking_lot_protocol.specs.RwTable.{has_readers, has_room, is_parked, is_upgradable, is_writer_parked};
ghost use Rattle.parking_lot_protocol.specs.RwTable.{is_written};

/// The share of a reader.
pub const READER: u64 = 16;

/// The share of a writer, also while it waits for readers to leave.
pub const WRITER: u64 = 8;

/// What an upgradable owner adds beside a reader's share.
pub const UPGRADABLE: u64 = 4;

/// Set where a writer may sleep until the readers have left.
pub const WRITER_PARKED: u64 = 2;

/// Set where threads may sleep that want the lock.
pub const PARKED: u64 = 1;

/// The most readers that a word can count.
///
/// It follows from the place of the count in this word. The limit of the raw traits is that of other words too, whose
/// bits need not lie as they do here: so this number isn't taken from there.
pub const MAX_READERS: u64 = u64::MAX / READER;

/// How many readers it counts.
#[inline(always)]
pub fn readers(word: u64) -> u64
    ensures { result ≡ word / 16 }
{
    word / READER
}

/// Whether there are readers.
pub fn has_readers(word: u64) -> bool
    ensures { result ≡ has_readers word }
{
    readers(word) > 0
}

/// Whether one reader more can be counted.
pub fn has_room(word: u64) -> bool
    ensures { result ≡ has_room word }
{
    readers(word) < MAX_READERS
}

/// Whether a writer owns the lock, or waits for readers to leave.
#[inline(always)]
pub fn is_written(word: u64) -> bool
    ensures { result ≡ is_written word }
{
    (word / WRITER) % 2 == 1
}

/// Whether the lock has an upgradable owner.
pub fn is_upgradable(word: u64) -> bool
    ensures { result ≡ is_upgradable word }
{
    (word / UPGRADABLE) % 2 == 1
}

/// Whether a writer may sleep until the readers have left.
#[inline(always)]
pub fn is_writer_parked(word: u64) -> bool
    ensures { result ≡ is_writer_parked word }
{
    (word / WRITER_PARKED) % 2 == 1
}

/// Whether threads may sleep that want the lock.
#[inline(always)]
pub fn is_parked(word: u64) -> bool
    ensures { result ≡ is_parked word }
{
    (word / PARKED) % 2 == 1
}

/// Whether anybody owns the lock, or waits for readers to leave.
pub fn is_held(word: u64) -> bool
    ensures { result ≡ nat_lt 0 (word / 4) }
{
    word / UPGRADABLE > 0
}

/// Whether a writer owns the lock. One that waits for readers to leave doesn't.
pub fn is_exclusive(word: u64) -> bool
    ensures { result ≡ ((word / 8 % 2 == 1) && (word / 16 == 0)) }
{
    is_written(word) && readers(word) == 0
}
