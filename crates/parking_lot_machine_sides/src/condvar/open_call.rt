//! A call that a thread is in.
ghost use Rattle.std.specs.Prelude.{◌≡◌, ◌+◌, ◌^◌, ◌<◌, ◌==◌};
ghost use Rattle.parking_lot_protocol_waits.specs.NotifyTable.{notify_told};
ghost use Rattle.parking_lot_protocol_waits.specs.WaitTable.{wait_told};
ghost use Rattle.parking_lot_machine_sides.specs.declared.condvar.open_call.Core.TheVariants as of;
ghost use Rattle.parking_lot_machine_sides.specs.Condvar.Calls.{call_for, off_list, reply_of, reply_in_notify};
ghost use Rattle.parking_lot_machine_sides.specs.Condvar.Calls.{reply_in_wait, started, took_one};
ghost use Rattle.parking_lot_machine_sides.specs.Condvar.Outsides.{hears_by, told_by};
ghost use Rattle.parking_lot_machine_sides.specs.Condvar.OwnSteps.{notify_goes, wait_goes};
ghost use Rattle.parking_lot_machine_sides.specs.Condvar.Turns.{enters, enters_beside, is_own, notify_is_own, takes_by};
ghost use Rattle.parking_lot_machine_sides.specs.Condvar.Turns.{wait_is_own};

use crate::condvar::calls::{CondvarCall, CondvarReply};
use crate::condvar::outside::{Outside, notify_fits, wait_fits};
use parking_lot_protocol_waits::{
    NotifyCore, NotifyPhase, NotifySeen, WaitAnswer, WaitCore, WaitPhase, WaitSeen,
};

/// What a call has asked for, and waits for.
#[derive(Clone, Copy)]
pub enum Core {
    Wait(WaitCore),
    Notify(NotifyCore),
}

/// A call that isn't answered yet.
#[derive(Clone, Copy)]
pub struct OpenCall {
    /// What was asked for.
    pub call: CondvarCall,
    /// What it has asked for, and waits for.
    pub core: Core,
    /// Of a wait, that nobody has taken it off the list.
    pub listed: bool,
    /// How many a notification has taken.
    pub taken: usize,
}

impl OpenCall {
    /// A call that begins.
    pub(crate) fn begun(call: CondvarCall) -> OpenCall
        ensures { result ≡ call_for call }
    {
        OpenCall {
            call,
            core: call.core().started(),
            listed: true,
            taken: 0,
        }
    }

    /// The call of a waiter once it is taken off the list.
    pub(crate) fn off_list(self) -> OpenCall
        ensures { result ≡ off_list self }
    {
        OpenCall {
            listed: false,
            ..self
        }
    }

    /// Whether its next act is one at the variable, of its own thread. Else it sleeps, acts at the mutex, or takes
    /// waiters.
    pub fn is_own(&self) -> bool
        ensures { result ≡ is_own self.now }
    {
        match self.core {
            Core::Wait(core) => wait_is_own(self.listed, core.phase()),
            Core::Notify(core) => notify_is_own(core.phase()),
        }
    }

    /// Whether that act enters the variable's section.
    pub fn enters(&self) -> bool
        ensures { result ≡ enters self.now }
    {
        match self.core {
            Core::Wait(core) => match core.phase() {
                WaitPhase::Enters(_) => true,
                WaitPhase::Expires(_) => self.listed,
                _ => false,
            },
            Core::Notify(core) => match core.phase() {
                NotifyPhase::Enters(_, _) => true,
                _ => false,
            },
        }
    }

    /// The mutex whose bucket that act enters too: a notification's, of the word that it has loaded.
    pub fn enters_beside(&self) -> Option<u64>
        ensures { result ≡ enters_beside self.now }
    {
        match self.core {
            Core::Wait(_) => None,
            Core::Notify(core) => match core.phase() {
                NotifyPhase::Enters(_, word) => Some(word.saturating_sub(1)),
                _ => None,
            },
        }
    }

    /// Whether it takes waiters off the list now.
    pub fn takes(&self) -> bool
        ensures { result ≡ takes_by (self.now.taken == 0) self.now.core }
    {
        match self.core {
            Core::Wait(_) => false,
            Core::Notify(core) => match core.phase() {
                NotifyPhase::Moves(true, _) => true,
                NotifyPhase::Moves(false, _) => self.taken == 0,
                _ => false,
            },
        }
    }

    /// What it is answered, if it is over.
    pub fn reply(&self) -> Option<CondvarReply>
        ensures { result ≡ reply_of self.now }
    {
        match self.core {
            Core::Wait(core) => reply_to_wait(core.phase()),
            Core::Notify(core) => reply_to_notify(self.call.is_of_all(), core.phase()),
        }
    }
}

impl OpenCall {
    /// The call of a notification once it has taken one more.
    pub(crate) fn took_one(self) -> OpenCall
        requires few { self.taken + 1 < 2 ^ 64 }
        ensures { result ≡ took_one self }
    {
        OpenCall {
            taken: self.taken + 1,
            ..self
        }
    }

    /// A wait once it is told what its act at the variable gave; one that is over goes.
    pub(crate) fn goes_on_waiting(self, core: WaitCore, seen: WaitSeen) -> Option<OpenCall>
        ensures { result ≡ wait_goes self core seen core.phase }
    {
        match core.phase() {
            WaitPhase::Ends(_) => None,
            WaitPhase::Quits(_) => Some(self.hears_waiting(core, seen).off_list()),
            _ => Some(self.hears_waiting(core, seen)),
        }
    }

    /// A notification once it is told what its act at the variable gave; one that is over goes.
    pub(crate) fn goes_on_notifying(self, core: NotifyCore, seen: NotifySeen) -> Option<OpenCall>
        ensures { result ≡ notify_goes self core seen core.phase }
    {
        match core.phase() {
            NotifyPhase::Ends(_) => None,
            _ => Some(self.hears_notifying(core, seen)),
        }
    }

    /// A wait once it is told what its act gave.
    fn hears_waiting(self, core: WaitCore, seen: WaitSeen) -> OpenCall
        ensures { result ≡ (record self { core = of.Wait (wait_told core seen) }) }
    {
        let mut core = core;
        core.next(seen);
        OpenCall {
            core: Core::Wait(core),
            ..self
        }
    }

    /// A notification once it is told what its act gave.
    fn hears_notifying(self, core: NotifyCore, seen: NotifySeen) -> OpenCall
        ensures { result ≡ (record self { core = of.Notify (notify_told core seen) }) }
    {
        let mut core = core;
        core.next(seen);
        OpenCall {
            core: Core::Notify(core),
            ..self
        }
    }

    /// Whether it may be told so, while somebody is left in the list or nobody.
    pub(crate) fn may_hear(&self, left: bool, seen: Outside) -> bool
        ensures { result ≡ hears_by self.now left seen self.now.core }
    {
        match self.core {
            Core::Wait(core) => wait_fits(self.call.is_timed(), self.listed, core.phase(), seen),
            Core::Notify(core) => notify_fits(self.taken, left, core.phase(), seen),
        }
    }

    /// The call once it is told what an act elsewhere gave.
    pub(crate) fn told(self, left: bool, seen: Outside) -> OpenCall
        ensures { result ≡ told_by self left seen self.core }
    {
        match self.core {
            Core::Wait(core) => self.hears_waiting(core, seen.to_wait()),
            Core::Notify(core) => self.hears_notifying(core, seen.to_notify(left)),
        }
    }
}

impl Core {
    /// The core as it begins.
    pub(crate) fn started(self) -> Core
        ensures { result ≡ started self }
    {
        match self {
            Core::Wait(core) => {
                let mut core = core;
                core.next(WaitSeen::Start);
                Core::Wait(core)
            }
            Core::Notify(core) => {
                let mut core = core;
                core.next(NotifySeen::Start);
                Core::Notify(core)
            }
        }
    }
}

/// Whether a wait's next act is one at the variable.
fn wait_is_own(listed: bool, phase: WaitPhase) -> bool
    ensures { result ≡ wait_is_own listed phase }
{
    match phase {
        WaitPhase::Enters(_)
        | WaitPhase::Checks(_)
        | WaitPhase::Retreats
        | WaitPhase::Appends(_)
        | WaitPhase::Shows(_)
        | WaitPhase::Rests(_)
        | WaitPhase::Forgets
        | WaitPhase::Ends(_) => true,
        WaitPhase::Expires(_) | WaitPhase::Quits(_) => listed,
        WaitPhase::Leaves(here) => here,
        _ => false,
    }
}

/// Whether a notification's is.
fn notify_is_own(phase: NotifyPhase) -> bool
    ensures { result ≡ notify_is_own phase }
{
    match phase {
        NotifyPhase::Loads(_)
        | NotifyPhase::Enters(_, _)
        | NotifyPhase::Checks(_, _)
        | NotifyPhase::Forgets(_)
        | NotifyPhase::Leaves(_)
        | NotifyPhase::Ends(_) => true,
        _ => false,
    }
}

/// What a wait is answered, if it is over.
fn reply_to_wait(phase: WaitPhase) -> Option<CondvarReply>
    ensures { result ≡ reply_in_wait phase }
{
    match phase {
        WaitPhase::Ends(WaitAnswer::Woken) => Some(CondvarReply::Woken),
        WaitPhase::Ends(WaitAnswer::TimedOut) => Some(CondvarReply::TimedOut),
        WaitPhase::Ends(WaitAnswer::WrongMutex | WaitAnswer::WrongLot) => {
            Some(CondvarReply::WrongMutex)
        }
        _ => None,
    }
}

/// What a notification is.
fn reply_to_notify(all: bool, phase: NotifyPhase) -> Option<CondvarReply>
    ensures { result ≡ reply_in_notify all phase }
{
    match phase {
        NotifyPhase::Ends(count) => Some(if all {
            CondvarReply::Count(count)
        } else {
            CondvarReply::Flag(count > 0)
        }),
        _ => None,
    }
}
