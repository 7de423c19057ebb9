//! Entries that are written down one after another.
ghost use Rattle.std.specs.Prelude.{◌≡◌, ◌<◌, ◌≤◌, [], length, IsTrue, OnOk, OnErr};
ghost use Rattle.dashmap_record.specs.History.Match.{rises};
ghost use Rattle.dashmap_record.specs.Notes.{IsSpent, SameNotes, with_entry};

use crate::history::Entered;
use std::alloc::{AllocError, Allocator};
use std::marker::Model;

/// Entries whose stamps rise strictly: a shard's history or a caller's log.
#[derive(Drop)]
pub(crate) struct Notes<K, V, A: Allocator> {
    entries: Vec<Entered<K, V>, A>,
    last: u64,
}

impl<K, V, A: Allocator> Model for Notes<K, V, A> {
    ghost use Rattle.std.specs.Prelude.{vec_capacity};
    ghost use Rattle.dashmap_record.specs.Notes.{Noted, AreInOrder};

    ghost Value = { Noted K V };

    ghost view = { λ n. record { entries = n.entries.items; last = n.last; room = vec_capacity n.entries } };

    ghost invariant = { λ n. AreInOrder
        (record { entries = n.entries.items; last = n.last; room = vec_capacity n.entries }) };
}

impl<K, V, A: Allocator> Notes<K, V, A> {
    /// No entries yet; their stamps are to be above `last`. It takes no memory.
    pub(crate) fn new(alloc: A, last: u64) -> Notes<K, V, A>
        ensures entries { result.entries ≡ [] }
        ensures last { result.last ≡ last }
    {
        Notes {
            entries: Vec::new(alloc),
            last,
        }
    }

    /// The last stamp.
    pub(crate) fn last(&self) -> u64
        ensures { result ≡ self.now.last }
    {
        self.last
    }

    /// Lends the entries, oldest first.
    pub(crate) fn entries(&self) -> &[Entered<K, V>]
        ensures entries { result.now ≡ self.now.entries }
        ensures rise { IsTrue (rises result.now) }
    {
        &self.entries
    }

    /// Makes room for one entry more. Where there is room already nothing changes.
    pub(crate) fn make_room(&mut self) -> Result<(), AllocError>
        ensures notes { SameNotes self.old self.new }
        ensures room { OnOk result (length self.new.entries < self.new.room) }
        ensures refused { OnErr result (IsSpent self.old) }
    {
        self.entries.reserve(1)
    }

    /// Writes an entry down. There has to be room, and its stamp has to be above the last.
    pub(crate) fn add(&mut self, entry: Entered<K, V>)
        requires room { length self.old.entries < self.old.room }
        requires above { self.old.last < entry.stamp }
        ensures { self.new ≡ with_entry self.old entry }
    {
        self.last = entry.stamp;
        self.entries.push_reserved(entry);
    }

    /// All entries, oldest first.
    pub(crate) fn into_entries(self) -> Vec<Entered<K, V>, A>
        ensures entries { result.items ≡ self.entries }
        ensures rise { IsTrue (rises result.items) }
    {
        let Notes { entries, last: _ } = self;
        entries
    }
}
