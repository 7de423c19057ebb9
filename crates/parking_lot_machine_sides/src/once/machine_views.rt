//! What is seen of a machine of onces: who waits, who sleeps, and who is in debt.
ghost use Rattle.std.specs.Prelude.{◌≡◌, false, IfErr, IfOk};
ghost use Rattle.parking_lot_core_model.specs.declared.fault.SizeFault.TheVariants.{NoMemory};
ghost use Rattle.parking_lot_machine_sides.specs.Once.Entries.{list_of};
ghost use Rattle.parking_lot_machine_sides.specs.Once.OnceActs.{can_move, is_asleep};
ghost use Rattle.parking_lot_machine_sides.specs.Once.OnceDebts.{is_in_debt, owes};
ghost use Rattle.parking_lot_machine_sides.specs.Once.OnceFits.{Fits};
ghost use Rattle.parking_lot_machine_sides.specs.Once.OnceMachineLaws.{IsSoundMachine};
ghost use Rattle.parking_lot_machine_sides.specs.Once.OnceRanks.{AnyMayBeStepped};

use crate::once::entry::Entry;
use crate::once::once_machine::OnceMachine;
use crate::once::open_call::OpenCall;
use parking_lot_core_model::SizeFault;
use parking_lot_protocol::Act;
use parking_lot_protocol_waits::once::OncePhase;
use std::alloc::Allocator;

impl OpenCall {
    /// Whether its thread is in debt: it is in a section or is still to wake somebody; or it was woken, and doesn't
    /// wait again.
    pub fn is_in_debt(&self) -> bool
        ensures { result ≡ owes self.now }
    {
        match self.core.phase() {
            OncePhase::Checks(_)
            | OncePhase::Retreats(_)
            | OncePhase::Appends(_)
            | OncePhase::Rests(_)
            | OncePhase::Scans(..)
            | OncePhase::Clears(..)
            | OncePhase::Leaves(_)
            | OncePhase::Wakes(_) => true,
            OncePhase::Sleeps(_) => false,
            _ => self.woken,
        }
    }
}

impl<A: Allocator> OnceMachine<A> {
    /// Whether a thread sleeps in its call: it waits in a list, or was taken off it and isn't woken yet.
    pub fn is_asleep(&self, thread: usize) -> bool
        ensures { result ≡ is_asleep self.now thread }
    {
        match self.call(thread) {
            Some(call) => match call.core.act() {
                Act::Sleep => true,
                _ => false,
            },
            None => false,
        }
    }

    /// Whether a thread is in debt: from the step at which it has entered a section until that has ended and all whom
    /// it took are woken, and from where it was woken until it is answered or sleeps again.
    pub fn is_in_debt(&self, thread: usize) -> bool
        ensures { result ≡ is_in_debt self.now thread }
    {
        match self.call(thread) {
            Some(call) => call.is_in_debt(),
            None => false,
        }
    }

    /// What holds of the machine at every moment. It does nothing.
    pub fn known(&self)
        ensures fits { Fits self.now }
        ensures promises { IsSoundMachine self.now }
    {
        let _ = &self.words;
    }

    /// That another thread may be stepped from here on where this one can't move, for who goes on so: no more steps are
    /// left than before. It does nothing.
    pub fn others_go_on(&self, thread: usize)
        ensures { can_move self.now thread ≡ false → AnyMayBeStepped self.now thread }
    {
        let _ = &self.words;
    }
}

impl<A: Allocator + Clone + Drop> OnceMachine<A> {
    /// The threads that wait at a once, in the order in which they joined its list.
    pub fn queue(&self, once: usize) -> Result<Vec<usize, A>, SizeFault>
        ensures ok { IfOk result (λ threads. threads.items ≡ list_of self.now.waiting once) }
        ensures err { IfErr result (λ fault. fault ≡ NoMemory) }
    {
        let alloc = self.words.allocator().clone()?;
        threads_of(alloc, &self.waiting, once)
    }
}

/// The threads of a list, in order.
fn threads_of<A: Allocator + Drop>(
    alloc: A,
    entries: &[Entry],
    list: usize,
) -> Result<Vec<usize, A>, SizeFault>
    ensures ok { IfOk result (λ threads. threads.items ≡ list_of entries.now list) }
    ensures err { IfErr result (λ fault. fault ≡ NoMemory) }
{
    let mut threads = Vec::with_capacity(alloc, entries.len())?;
    for entry in entries {
        if entry.list == list {
            threads.push_reserved(entry.thread);
        }
    }
    Ok(threads)
}
