//! One shard and its history.
ghost use Rattle.std.specs.Prelude.{◌≡◌, ℕ, ◌+◌, ◌^◌, ◌≤◌, ◌↔◌, ◌⊎◌, [], max, Err, IsTrue, IfOk, OnOk, OnErr};
ghost use Rattle.dashmap_table.specs.Slots.{count};
ghost use Rattle.dashmap_record.specs.History.Entries.{key_of};
ghost use Rattle.dashmap_record.specs.History.Match.{rises};
ghost use Rattle.dashmap_record.specs.History.Replay.{told};
ghost use Rattle.dashmap_record.specs.declared.fault.RecordFault.TheVariants.{StampsSpent, NoMemory};
ghost use Rattle.dashmap_record.specs.Notes.{IsSpent, SameNotes, with_entry, written};
ghost use Rattle.dashmap_record.specs.Replaying.{found, after_under, no_pair, Replies};

use crate::caller::Caller;
use crate::effect::answer;
use crate::fault::RecordFault;
use crate::history::{Call, CallReply, Entered, next_stamp};
use crate::notes::Notes;
use dashmap_table::Shard;
use std::alloc::Allocator;
use std::hash::Hash;
use std::marker::Model;

/// A shard that records: its pairs and the history of the calls on it.
///
/// At every state the history's calls, made one after another on a shard without pairs, give the history's replies and
/// the shard's pairs; and the history's stamps rise strictly.
#[derive(Drop)]
pub struct RecordingShard<K: Eq + Hash, V: Eq, A: Allocator> {
    shard: Shard<K, V, A>,
    history: Notes<K, V, A>,
}

impl<K: Eq + Hash, V: Eq, A: Allocator> Model for RecordingShard<K, V, A> {
    ghost use Rattle.dashmap_record.specs.Replaying.{Kept, IsReplayed};

    ghost Value = { Kept K V };

    ghost view = { λ s. record { table = s.shard; history = s.history } };

    ghost invariant = { λ s. IsReplayed K.eq V.eq (record { table = s.shard; history = s.history }) };
}

impl<K: Copy + Eq + Hash, V: Copy + Eq, A: Allocator + Clone> RecordingShard<K, V, A> {
    /// A shard without pairs and with an empty history. It takes no memory.
    pub(crate) fn new(alloc: A, history: A) -> RecordingShard<K, V, A>
        ensures { result.history.entries ≡ [] }
    {
        RecordingShard {
            shard: Shard::new(alloc),
            history: Notes::new(history, 0),
        }
    }

    /// Makes a call on this shard and writes it down, in the shard's history and in the caller's log. Its reply is the
    /// one that is written down.
    ///
    /// `number` is the shard's, and `hash` the hash of the call's key. Log, history and shard grow before anything
    /// changes: a call that is refused leaves all three as they were.
    pub fn record(
        &mut self,
        number: usize,
        hash: u64,
        call: Call<K, V>,
        caller: &mut Caller<K, V, A>,
    ) -> Result<CallReply<K, V>, RecordFault>
        // The reply is that of the call on what the shard has, and this is what the shard has afterwards.
        ensures reply { IfOk result (λ reply. reply ≡ told V.eq call (found K.eq self.old.table hash (key_of call))) }
        ensures after { OnOk result ((h : ℕ) (q : K) →
            found K.eq self.new.table h q ≡ after_under K.eq V.eq hash call (found K.eq self.old.table) h q) }

        // One and the same entry is added to the log and to the history.
        ensures log { let stamp = max caller.old.log.last self.old.history.last + 1 in
            IfOk result (λ reply.
            SameNotes (with_entry caller.old.log (written caller.old.number stamp number hash call reply))
            caller.new.log) }
        ensures history { let stamp = max caller.old.log.last self.old.history.last + 1 in
            IfOk result (λ reply.
            SameNotes (with_entry self.old.history (written caller.old.number stamp number hash call reply))
            self.new.history) }
        ensures caller { caller.new.number ≡ caller.old.number }

        // A refused call adds and changes nothing.
        ensures refused { OnErr result ((self.new.table ≡ self.old.table)
            × SameNotes self.old.history self.new.history × SameNotes caller.old.log caller.new.log) }
        ensures spent { (result ≡ Err StampsSpent) ↔ (2 ^ 64 ≤ max caller.old.log.last self.old.history.last + 1) }
        ensures full { result ≡ Err NoMemory →
            IsSpent caller.old.log ⊎ (IsSpent self.old.history ⊎ (self.old.table.room ≤ count self.old.table.slots)) }
    {
        let Some(stamp) = next_stamp(caller.last(), self.history.last()) else {
            return Err(RecordFault::StampsSpent);
        };
        caller.log.make_room()?;
        self.history.make_room()?;
        let reply = answer(&mut self.shard, hash, &call)?;
        let entry = Entered {
            caller: caller.number(),
            stamp,
            shard: number,
            hash,
            call,
            reply,
        };
        caller.log.add(entry);
        self.history.add(entry);
        Ok(reply)
    }

    /// Lends the history, oldest entry first.
    ///
    /// ```text
    /// let last = map.look(0, |history| history.last().map(|entry| entry.stamp), &mut me).flatten();
    /// ```
    pub fn history(&self) -> &[Entered<K, V>]
        ensures history { result.now ≡ self.now.history.entries }
        ensures rise { IsTrue (rises result.now) }
        ensures replies { Replies K.eq V.eq (no_pair K V) result.now }
    {
        self.history.entries()
    }

    /// The history, oldest entry first. It takes no memory.
    pub(crate) fn into_history(self) -> Vec<Entered<K, V>, A>
        ensures history { result.items ≡ self.history.entries }
        ensures rise { IsTrue (rises result.items) }
        ensures replies { Replies K.eq V.eq (no_pair K V) result.items }
    {
        let RecordingShard {
            shard: _shard,
            history,
        } = self;
        history.into_entries()
    }
}
