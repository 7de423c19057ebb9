//! A table of lock words.
ghost use Rattle.std.specs.Prelude.{◌≡◌, ◌≢◌, ◌<◌, ◌+◌, ◌*◌, ◌%◌, ◌^◌, ◌↔◌, ◌⊎◌, IsTrue, IsSome, IsErrOf, IfOk, IfErr};
ghost use Rattle.std.specs.Prelude.{MatchResult, length, ◌==◌, if◌then◌else◌};
ghost use Rattle.parking_lot_core_model.specs.declared.fault.SizeFault.TheVariants.{BadSize, NoMemory};

use crossbeam_utils::CachePadded;
use lock_api_raw::TableFull;
use lock_word::{HandoffWord, SharedHandoff};
use parking_lot_core::{ParkingLot, SizeFault};
use std::alloc::{Allocator, Global};
use std::sync::atomic::{AtomicU64, AtomicUsize, Ordering};

/// The most rows that a table can have.
const MAX_ROWS: usize = 1 << 20;

/// Rows for locks of one lot. Each row is the word of a lock, on a cache line of its own, and two keys of the lot's
/// lists: the first for those that want the lock, the second for a writer that waits until the readers have left.
///
/// Its number of rows never changes. A lock claims a row and keeps it: rows aren't given back.
///
/// ```text
/// let lot = ParkingLot::new(rt, alloc, 16, 7)?;
/// let table = LockTable::new(alloc, &lot, 2)?;
/// let row = table.claim()?;
/// assert_eq!(rt; table.word(row.number()), Some(0));
/// ```
#[derive(Drop)]
pub struct LockTable<'l, R, A: Allocator = Global> {
    lot: &'l ParkingLot<R, A>,
    /// The first key of the first row.
    first_key: usize,
    words: Vec<CachePadded<Words>, A>,
    /// How many rows were claimed.
    claimed: AtomicUsize,
    ghost few: { (0 < length words.items) × (length words.items < 2 ^ 20 + 1) },
}

/// The words of a row: one that anybody may change, those of a mutex, with which the right to it lies, and those of a
/// reader-writer lock, with which the rights to that lie. A row is one lock's, so all but one of them stay 0.
#[derive(Drop)]
struct Words {
    word: AtomicU64,
    mutex: HandoffWord,
    shared: SharedHandoff,
}

impl Words {
    /// The words of a row that nobody has claimed.
    fn new() -> Words {
        Words {
            word: AtomicU64::new(0),
            mutex: HandoffWord::new(),
            shared: SharedHandoff::new(),
        }
    }

    /// Loads the word of the lock that has the row.
    fn load(&self) -> u64 {
        self.word.load(Ordering::SeqCst) | self.mutex.word().load() | self.shared.word().load()
    }
}

/// One row of a table, owned by one lock.
///
/// Its word is reached by atomic steps alone, each in the one order that all threads see. Of the word nothing is known
/// but what a step has just seen. A mutex has the words with which the right to it lies ([`Row::mutex`]) in its place,
/// and a reader-writer lock those with which its rights lie ([`Row::shared`]).
#[derive(Drop)]
pub struct Row<'t, 'l, R, A: Allocator = Global> {
    table: &'t LockTable<'l, R, A>,
    number: usize,
    /// Its word, which is one look away.
    word: &'t AtomicU64,
    /// The words of a mutex, likewise.
    mutex: &'t HandoffWord,
    /// Those of a reader-writer lock, likewise.
    shared: &'t SharedHandoff,
    ghost within: { number < length table.now.words.items },
}

impl<'l, R, A: Allocator> LockTable<'l, R, A> {
    /// Makes a table of `locks` rows, from 1 to 2^20, with every word 0. It claims two keys of the lot for each row, so
    /// that two tables of one lot never share a key.
    pub fn new(
        alloc: A,
        lot: &'l ParkingLot<R, A>,
        locks: usize,
    ) -> Result<LockTable<'l, R, A>, SizeFault>
        ensures size { IsErrOf result BadSize ↔ ((locks ≡ 0) ⊎ (2 ^ 20 < locks)) }
        ensures made { IfOk result (λ table. (length table.words.items ≡ locks) × (table.lot.now ≡ lot.now)) }
    {
        if locks == 0 || locks > MAX_ROWS {
            return Err(SizeFault::BadSize);
        }
        let words = zeros(alloc, locks)?;
        Ok(LockTable {
            lot,
            first_key: lot.claim_keys(2 * locks),
            words,
            claimed: AtomicUsize::new(0),
        })
    }

    /// Loads the word of a row, `None` outside the table.
    pub fn word(&self, row: usize) -> Option<u64>
        ensures { IsSome result ↔ (row < length self.now.words.items) }
    {
        let words = self.words.get(row)?;
        Some(words.load())
    }

    /// Hands out the next row: 0, 1 and so on, each once. [`TableFull`] where all were handed out.
    pub fn claim(&self) -> Result<Row<'_, 'l, R, A>, TableFull>
        ensures { IfOk result (λ row. row.table.now ≡ self.now) }
    {
        let rows = self.words.len();
        let number = self
            .claimed
            .fetch_update(Ordering::SeqCst, Ordering::SeqCst, |number| {
                if number < rows {
                    Some(number + 1)
                } else {
                    None
                }
            })
            .map_err(|_| TableFull)?;
        let words = &self.words[number];
        Ok(Row {
            table: self,
            number,
            word: &words.word,
            mutex: &words.mutex,
            shared: &words.shared,
        })
    }

    /// The lot that it stands on.
    pub fn lot(&self) -> &'l ParkingLot<R, A>
        ensures { result.now ≡ self.now.lot.now }
    {
        self.lot
    }
}

/// The words of so many rows, each 0.
fn zeros<A: Allocator>(alloc: A, count: usize) -> Result<Vec<CachePadded<Words>, A>, SizeFault>
    ensures size { IfErr result (λ fault. fault ≡ NoMemory) }
    ensures made { IfOk result (λ words. length words.items ≡ count) }
{
    let mut words = Vec::with_capacity(alloc, count)?;
    for _row in 0..count {
        if words.push(CachePadded::new(Words::new())).is_err() {
            return Err(SizeFault::NoMemory);
        }
    }
    Ok(words)
}

impl<'t, 'l, R, A: Allocator> Row<'t, 'l, R, A> {
    /// The same row once more. For the layer above: a condition variable keeps the row of the mutex that it shows.
    pub fn again(&self) -> Row<'t, 'l, R, A>
        ensures table { result.table.now ≡ self.now.table.now }
        ensures number { result.number ≡ self.now.number }
        ensures mutex { result.mutex.now ≡ self.now.mutex.now }
        ensures shared { result.shared.now ≡ self.now.shared.now }
    {
        Row {
            table: self.table,
            number: self.number,
            word: self.word,
            mutex: self.mutex,
            shared: self.shared,
        }
    }

    /// The words of a mutex that has the row. In a clause the first of them is the name of the mutex.
    #[inline(always)]
    pub fn mutex(&self) -> &HandoffWord
        ensures { result.now ≡ self.now.mutex.now }
    {
        self.mutex
    }

    /// The words of a reader-writer lock that has the row. In a clause the first of them is the name of the lock.
    #[inline(always)]
    pub fn shared(&self) -> &SharedHandoff
        ensures { result.now ≡ self.now.shared.now }
    {
        self.shared
    }

    /// Its place in the table.
    pub fn number(&self) -> usize
        ensures { result ≡ self.now.number }
    {
        self.number
    }

    /// The key of those that want the lock: the table's first key and twice the row's number, modulo 2^64.
    pub fn first_key(&self) -> usize
        ensures { result ≡ (self.now.table.now.first_key + 2 * self.now.number) % 2 ^ 64 }
    {
        self.table.first_key.wrapping_add(2 * self.number)
    }

    /// The key of a writer that waits until the readers have left: the one behind the first.
    pub fn second_key(&self) -> usize
        ensures { result ≡ (self.now.table.now.first_key + 2 * self.now.number + 1) % 2 ^ 64 }
    {
        self.table.first_key.wrapping_add(2 * self.number + 1)
    }

    /// The key of that number: 0 is the first, 1 the second.
    pub(crate) fn key(&self, number: u8) -> usize
        ensures { result ≡ (if number == 0 then (self.now.table.now.first_key + 2 * self.now.number) % 2 ^ 64 else
            (self.now.table.now.first_key + 2 * self.now.number + 1) % 2 ^ 64) }
    {
        if number == 0 {
            self.first_key()
        } else {
            self.second_key()
        }
    }

    /// The table's lot.
    pub fn lot(&self) -> &ParkingLot<R, A>
        ensures { result.now ≡ self.now.table.now.lot.now }
    {
        self.table.lot
    }

    /// Loads the word.
    pub fn load(&self) -> u64 {
        self.word.load(Ordering::SeqCst)
    }

    /// Writes `to` if the word is `from`, else answers the word that it saw.
    pub fn exchange(&self, from: u64, to: u64) -> Result<(), u64>
        ensures { IfErr result (λ seen. seen ≢ from) }
    {
        self.word
            .compare_exchange(from, to, Ordering::SeqCst, Ordering::SeqCst)
            .map(|_| ())
    }

    /// Adds to the word, modulo 2^64, and answers the word before.
    pub fn add(&self, by: u64) -> u64 {
        self.word.fetch_add(by, Ordering::SeqCst)
    }

    /// Keeps the bits of the word that `keep` has, and answers the word before.
    pub fn mask(&self, keep: u64) -> u64 {
        self.word.fetch_and(keep, Ordering::SeqCst)
    }

    /// Writes the word.
    pub fn store(&self, to: u64) {
        self.word.store(to, Ordering::SeqCst)
    }
}
