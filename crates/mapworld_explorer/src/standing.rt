//! Where threads stand: what their next step is, whether others see it, and whether it may be fair.
ghost use Rattle.std.specs.Prelude.{◌≡◌, ◌<◌, true, false, length};
ghost use Rattle.mapworld_state.specs.Running.{can_move_in};
ghost use Rattle.mapworld_explorer.specs.Standing.{act_in, stores, HasEnded};

use crate::worlds::World;
use mapworld_state::{Phase, Place};
use mapworld_text::Change;
use parking_lot_machine::{Act, SectionAct};
use std::alloc::Global;

/// Where a thread stands.
pub(crate) type Stand = Place<u64, u64, Change, (u64, u64), Global>;

/// The act at a shard's lock that the thread's next step makes, while it is in a call there.
pub(crate) fn act_of(world: &World, thread: usize) -> Option<Act>
    ensures { result ≡ act_in world.now thread }
{
    match world.locks().machine().call(thread) {
        Some(call) => Some(call.core.act()),
        None => None,
    }
}

/// A number for the kind of a thread's next step.
pub(crate) fn kind_of(stand: &Stand) -> u8 {
    match &stand.phase {
        Phase::Rest => 0,
        Phase::Admit(_) => 1,
        Phase::Find(_) => 2,
        Phase::Grow(_) => 3,
        Phase::Append(..) => 4,
        Phase::Apply(_) => 5,
        Phase::View(..) => 6,
        Phase::Read(_) => 7,
        Phase::Change(_) => 8,
        Phase::Fill(_) => 9,
        Phase::Downgrade => 10,
        Phase::Idle(_) => 11,
        Phase::Reach(_) => 12,
        Phase::Part(_) => 13,
        Phase::Visit(_) => 14,
        Phase::Seek(_) => 15,
        Phase::Item(_) => 16,
        Phase::Give(_) => 17,
        Phase::Onward(_) => 18,
        Phase::Release(_) => 19,
        Phase::Answer(_) => 20,
    }
}

/// Whether nobody else sees the thread's next step, and it sees nothing that others change meanwhile: so its order to
/// their steps changes nothing but step numbers. It is one within the thread's own place, or a look into a shard that
/// it holds, or a change there while it holds the shard alone. A release, a downgrade and the walk to the next shard
/// are none, since they begin with an act at a lock's word.
pub(crate) fn is_alone(world: &World, thread: usize) -> bool {
    let Some(stand) = world.place(thread) else {
        return false;
    };
    match act_of(world, thread) {
        Some(Act::Spin) => true,
        Some(Act::Done(_)) => !matches!(stand.phase, Phase::Reach(_)),
        Some(_) => false,
        None => !matches!(
            stand.phase,
            Phase::Release(_) | Phase::Downgrade | Phase::Give(_)
        ),
    }
}

/// Whether the thread's next step stores in the section of a release, so that a fair one may come to something else.
pub fn may_be_fair(world: &World, thread: usize) -> bool
    ensures { result ≡ stores (act_in world.now thread) }
{
    matches!(
        act_of(world, thread),
        Some(Act::Section(SectionAct::Store { .. }))
    )
}

/// Whether no thread of a world can move.
pub(crate) fn has_ended(world: &World) -> bool
    ensures ended { result ≡ true → HasEnded world.now }
    ensures goes_on { result ≡ false
        → (thread : _) × (thread < length world.now.programs) × (can_move_in world.now thread ≡ true) }
{
    for thread in 0..world.threads() {
        if world.can_move(thread) {
            return false;
        }
    }
    true
}
