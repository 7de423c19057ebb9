//! What states of a world are told apart by: all that the further steps depend on, and what is answered.

use crate::outcome::Written;
use crate::reading::write_answer;
use crate::standing::{Stand, kind_of};
use crate::worlds::World;
use mapworld_state::{Guard, Phase, Way};
use parking_lot_core_model::Place;
use parking_lot_machine::{Core, Hold, LateRwPhase, RwSleeper};
use parking_lot_protocol_rw::UpgradePhase;
use std::alloc::{AllocError, Global};
use std::fmt;

/// A number for the kind of a guard.
fn guard_kind(stand: &Stand) -> u8 {
    match &stand.guard {
        None => 0,
        Some(Guard::Pair(Way::Shared)) => 1,
        Some(Guard::Pair(Way::Exclusive)) => 2,
        Some(Guard::Pair(Way::Occupied(_))) => 3,
        Some(Guard::Vacant(_)) => 4,
    }
}

/// What its call and its guard are, where they are, and how far.
fn write_place(stand: &Stand, out: &mut String) -> Written {
    let (next, kind, guard) = (stand.next, kind_of(stand), guard_kind(stand));
    write!(
        out,
        "\n{next} {kind} {guard} {} {}",
        stand.shard, stand.slot
    )?;
    let (visits, holds) = (stand.visits.len(), stand.holds.len());
    let (closes, is_started) = (u8::from(stand.closes), u8::from(stand.started.is_some()));
    write!(
        out,
        " {} {visits} {holds} {closes} {is_started}",
        stand.count
    )?;
    write!(out, " {}", u8::from(stand.block.is_some()))
}

/// Where a thread stands in its program. What its call was asked is known by the call's number.
fn write_stand(alloc: Global, stand: &Stand, out: &mut String) -> Written {
    write_place(stand, out)?;
    for (key, value) in &stand.reads {
        write!(out, " {key}={value}")?;
    }
    match &stand.phase {
        Phase::Release(answer) | Phase::Answer(answer) => {
            out.push_str("!")?;
            write_answer(alloc, answer, out)
        }
        _ => Ok(()),
    }
}

/// What a thread sleeps or slept for whose deadline has come.
fn write_sleeper(sleeper: RwSleeper, out: &mut String) -> Written {
    match sleeper {
        RwSleeper::Simple(core) => write!(out, " {:?}", core.phase()),
        RwSleeper::Upgradable(_) => Ok(()),
    }
}

/// Where a thread's call at a lock stands whose deadline has come.
fn write_late(late: LateRwPhase, out: &mut String) -> Written {
    match late {
        LateRwPhase::Expires(sleeper) => {
            out.push_str(" expires")?;
            write_sleeper(sleeper, out)
        }
        LateRwPhase::Quits(sleeper) => {
            out.push_str(" quits")?;
            write_sleeper(sleeper, out)
        }
        LateRwPhase::Masks => out.push_str(" masks"),
        LateRwPhase::Leaves => out.push_str(" leaves"),
        LateRwPhase::GivesUp => out.push_str(" gives-up"),
        LateRwPhase::LeavesPending(upgrades) => write!(out, " leaves-pending {upgrades}"),
        LateRwPhase::WasTaken(sleeper, by, is_handed) => {
            write!(out, " taken {by} {is_handed}")?;
            write_sleeper(sleeper, out)
        }
    }
}

/// Where a writer stands that gives its bit back, since its deadline has come.
fn write_yielding(phase: UpgradePhase, out: &mut String) -> Written {
    match phase {
        UpgradePhase::YieldLoads(upgrades) => write!(out, " yield-loads {upgrades}"),
        UpgradePhase::Yields(upgrades, word) => write!(out, " yields {upgrades} {word}"),
        UpgradePhase::Owes(_, _, core) => write!(out, " owes {:?}", core.phase()),
        UpgradePhase::Ends(..) => out.push_str(" ends"),
        _ => Ok(()),
    }
}

/// How far a thread's call at a lock is.
fn write_core(core: Core, out: &mut String) -> Written {
    match core {
        Core::Rw(core) => write!(out, " {:?}", core.phase()),
        Core::LateRw(late) => write_late(late, out),
        Core::Upgrade(core) => write_yielding(core.phase(), out),
        Core::Mutex(_) | Core::Late(_) => Ok(()),
    }
}

/// Where a thread's call at a lock stands.
fn write_call(world: &World, thread: usize, out: &mut String) -> Written {
    match world.locks().machine().call(thread) {
        Some(call) => {
            write!(out, "; {} {} {:?}", call.lock, call.others, call.spot)?;
            write_core(call.core, out)
        }
        None => Ok(()),
    }
}

/// How a thread holds the locks.
fn write_holds(world: &World, thread: usize, out: &mut String) -> Written {
    for shard in 0..world.shards() {
        match world.locks().machine().hold(thread, shard) {
            Hold::Shares(0) => {}
            hold => write!(out, " {shard}{hold:?}")?,
        }
    }
    Ok(())
}

/// Where a thread stands in the lot of sleepers; what tells its sleep from others doesn't count.
fn write_sleep(world: &World, thread: usize, out: &mut String) -> Written {
    match world.locks().machine().lot().place(thread) {
        None | Some(Place::Running) => Ok(()),
        Some(Place::Waiting(key, _)) => write!(out, " w{key}"),
        Some(Place::Held(key, _)) => write!(out, " h{key}"),
        Some(Place::Taken(token, key, _, is_woken)) => {
            write!(out, " t{} {key} {is_woken}", token.0)
        }
    }
}

/// What tells the thread's sleep from others.
fn mark_of(world: &World, thread: usize) -> Option<u64> {
    match world.locks().machine().lot().place(thread)? {
        Place::Waiting(_, sleep) | Place::Held(_, sleep) | Place::Taken(_, _, sleep, _) => {
            Some(sleep.mark)
        }
        Place::Running => None,
    }
}

/// Who is still to be woken, and whether out of the sleep in which it is now.
fn write_wakes(world: &World, out: &mut String) -> Written {
    for wakeup in world.locks().machine().wakes() {
        let is_current = mark_of(world, wakeup.thread) == Some(wakeup.mark);
        write!(out, "\nwakes {} {} {is_current}", wakeup.by, wakeup.thread)?;
    }
    Ok(())
}

/// The words and queues of the locks.
fn write_locks(world: &World, out: &mut String) -> Written {
    for shard in 0..world.shards() {
        write!(out, "\n{}:", world.word(shard))?;
        let key = shard.saturating_mul(2);
        write_queue(world, key, out)?;
        write_queue(world, key.saturating_add(1), out)?;
    }
    Ok(())
}

fn write_queue(world: &World, key: usize, out: &mut String) -> Written {
    match world.queue(key) {
        Ok(threads) => {
            for thread in &threads {
                write!(out, " {thread}")?;
            }
            out.push_str(".")
        }
        Err(_) => Err(AllocError),
    }
}

/// The pairs of the shards by their slots, and for how many there is room.
fn write_tables(world: &World, out: &mut String) -> Written {
    for table in world.tables() {
        write!(out, "\n{}", table.capacity())?;
        for slot in 0..table.slots() {
            if let Some((key, value)) = table.pair(slot) {
                write!(out, " {slot}:{key}={value}")?;
            }
        }
    }
    Ok(())
}

/// What a thread was answered so far.
fn write_answers(alloc: Global, world: &World, thread: usize, out: &mut String) -> Written {
    for reply in world.replies() {
        if reply.thread == thread {
            out.push_str(" ")?;
            write_answer(alloc, &reply.answer, out)?;
        }
    }
    Ok(())
}

/// Writes a state: two of which the texts are the same go on alike, step numbers aside, and were answered alike.
fn write_state(alloc: Global, world: &World, out: &mut String) -> Written {
    for thread in 0..world.threads() {
        if let Some(stand) = world.place(thread) {
            write_stand(alloc, stand, out)?;
        }
        write_call(world, thread, out)?;
        write_holds(world, thread, out)?;
        write_sleep(world, thread, out)?;
        write_answers(alloc, world, thread, out)?;
    }
    write_locks(world, out)?;
    write_tables(world, out)?;
    write_wakes(world, out)
}

/// What is ahead of a world, and what it was answered so far. Worlds of one case of which this is equal go on alike:
/// step numbers aside, the same steps can be made of both, and come to the same. `Debug` shows it, in lines.
#[derive(Drop, PartialEq, Eq)]
pub struct Ahead {
    pub(crate) text: String,
}

impl Ahead {
    ghost use Rattle.std.specs.Prelude.{◌≡◌};
    ghost use Rattle.mapworld_explorer.specs.Aheads.{text_of};

    /// It as a text.
    pub fn as_str(&self) -> &str
        ensures { result.now ≡ text_of self.now }
    {
        self.text.as_str()
    }
}

impl fmt::Debug for Ahead {
    fn fmt<W: fmt::Write>(&self, f: &mut fmt::Formatter<W>) -> fmt::Result {
        f.write_str(self.text.as_str())
    }
}

/// What is ahead of a world.
pub fn ahead_of(alloc: Global, world: &World) -> Result<Ahead, AllocError> {
    let mut text = String::new(alloc);
    write_state(alloc, world, &mut text)?;
    Ok(Ahead { text })
}
