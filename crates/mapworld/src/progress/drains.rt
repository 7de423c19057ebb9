//! How a world is run to its end.
ghost use Rattle.std.specs.Prelude.{◌≡◌, ◌+◌, ◌<◌, ◌≤◌, ◌^◌, ℕ, true, false, MatchBool, length};
ghost use Rattle.mapworld_state.specs.Core.{state_of, Room, IsSoundCore, IsSlotted};
ghost use Rattle.mapworld_state.specs.Running.{bound_of, can_move_in, has_next};
ghost use Rattle.mapworld_state.specs.World.{setup_of};
ghost use Rattle.mapworld.specs.Progress.Drains.{DrainsBy, IsInTime, Makes, core_left};
ghost use Rattle.mapworld.specs.Progress.Rest.{IsAtRest};

use mapworld_calls::Deed;
use mapworld_state::{Core, Step};
use mapworld_steps::advance;
use parking_lot_machine::laws;
use std::alloc::Allocator;
use std::hash::{BuildHasher, Hash};

/// The next step of a thread, never fair and no deadline, if it can move: whether it was made.
fn step_once<
    K: Eq + Hash + Drop,
    V: Drop,
    S: BuildHasher,
    D: Deed<K, V> + Drop,
    A: Allocator + Clone,
>(core: &mut Core<K, V, S, D, D::Answer, A>, thread: usize) -> bool
    requires sound { IsSoundCore D.Deed S.BuildHasher S.Hasher.Hasher K.eq K.hash_input core.old }
    requires room { Room core.old }
    requires slots { IsSlotted D.Deed S.BuildHasher S.Hasher.Hasher K.eq K.hash_input core.old }
    requires next { has_next (state_of core.old) ≡ true }
    requires thread { thread < length core.old.places.items }
    ensures made { let setup = setup_of D.Deed S.BuildHasher S.Hasher.Hasher K.eq K.hash_input (state_of core.old) in
        MatchBool result
        (Makes setup (state_of core.old) (record { thread = thread; fair = false; deadline = false })
        (state_of core.new))
        ((state_of core.new ≡ state_of core.old) × (can_move_in (state_of core.old) thread ≡ false)) }
    ensures sound { IsSoundCore D.Deed S.BuildHasher S.Hasher.Hasher K.eq K.hash_input core.new }
    ensures room { Room core.new }
    ensures slots { IsSlotted D.Deed S.BuildHasher S.Hasher.Hasher K.eq K.hash_input core.new }
{
    core.locks.known();
    let step = Step {
        thread,
        fair: false,
        deadline: false,
    };
    advance(core, step)
}

/// Steps a thread on while it can move: how many steps it made.
fn step_on<
    K: Eq + Hash + Drop,
    V: Drop,
    S: BuildHasher,
    D: Deed<K, V> + Drop,
    A: Allocator + Clone,
>(core: &mut Core<K, V, S, D, D::Answer, A>, thread: usize) -> u64
    requires sound { IsSoundCore D.Deed S.BuildHasher S.Hasher.Hasher K.eq K.hash_input core.old }
    requires room { Room core.old }
    requires slots { IsSlotted D.Deed S.BuildHasher S.Hasher.Hasher K.eq K.hash_input core.old }
    requires time { length (state_of core.old).steps + core_left D.Deed S.BuildHasher S.Hasher.Hasher K.eq K.hash_input
        core.old thread + 1 < 2 ^ 63 }
    requires thread { thread < length core.old.places.items }
    ensures ran { let setup = setup_of D.Deed S.BuildHasher S.Hasher.Hasher K.eq K.hash_input (state_of core.old) in
        DrainsBy setup (state_of core.old) result (state_of core.new) }
    ensures falls { result + core_left D.Deed S.BuildHasher S.Hasher.Hasher K.eq K.hash_input core.new thread ≤
        core_left D.Deed S.BuildHasher S.Hasher.Hasher K.eq K.hash_input core.old thread }
    ensures stops { can_move_in (state_of core.new) thread ≡ false }
    ensures sound { IsSoundCore D.Deed S.BuildHasher S.Hasher.Hasher K.eq K.hash_input core.new }
    ensures room { Room core.new }
    ensures slots { IsSlotted D.Deed S.BuildHasher S.Hasher.Hasher K.eq K.hash_input core.new }
{
    let mut made = 0;
    'on: while step_once(core, thread) {
        made += 1;
    }
    made
}

/// Steps one thread after another on, as far as each can go: how many steps they made.
fn pass<K: Eq + Hash + Drop, V: Drop, S: BuildHasher, D: Deed<K, V> + Drop, A: Allocator + Clone>(
    core: &mut Core<K, V, S, D, D::Answer, A>,
) -> u64
    requires sound { IsSoundCore D.Deed S.BuildHasher S.Hasher.Hasher K.eq K.hash_input core.old }
    requires room { Room core.old }
    requires slots { IsSlotted D.Deed S.BuildHasher S.Hasher.Hasher K.eq K.hash_input core.old }
    requires time { IsInTime D.Deed S.BuildHasher S.Hasher.Hasher K.eq K.hash_input core.old }
    ensures ran { let setup = setup_of D.Deed S.BuildHasher S.Hasher.Hasher K.eq K.hash_input (state_of core.old) in
        DrainsBy setup (state_of core.old) result (state_of core.new) }
    ensures falls { (most : ℕ)
        → ((u : ℕ) → core_left D.Deed S.BuildHasher S.Hasher.Hasher K.eq K.hash_input core.old u < most) → (u : ℕ)
        → result + core_left D.Deed S.BuildHasher S.Hasher.Hasher K.eq K.hash_input core.new u < most }
    ensures stops { result ≡ 0 → (t : ℕ) → can_move_in (state_of core.new) t ≡ false }
    ensures sound { IsSoundCore D.Deed S.BuildHasher S.Hasher.Hasher K.eq K.hash_input core.new }
    ensures room { Room core.new }
    ensures slots { IsSlotted D.Deed S.BuildHasher S.Hasher.Hasher K.eq K.hash_input core.new }
{
    let mut made = 0;
    for thread in 0..core.places.len() {
        made += step_on(core, thread);
        core.locks.known();
    }
    made
}

/// Runs a world to its end: each thread is stepped on as far as it can go, and then the next, until nobody can move.
/// Answers how many steps that took, which is less than the world's bound. Then every call is answered and nobody holds
/// anything or waits. None of these steps is a deadline.
///
/// It takes no memory but what the calls take.
pub fn drain<
    K: Eq + Hash + Drop,
    V: Drop,
    S: BuildHasher,
    D: Deed<K, V> + Drop,
    A: Allocator + Clone,
>(core: &mut Core<K, V, S, D, D::Answer, A>) -> u64
    requires sound { IsSoundCore D.Deed S.BuildHasher S.Hasher.Hasher K.eq K.hash_input core.old }
    requires room { Room core.old }
    requires slots { IsSlotted D.Deed S.BuildHasher S.Hasher.Hasher K.eq K.hash_input core.old }
    requires time { IsInTime D.Deed S.BuildHasher S.Hasher.Hasher K.eq K.hash_input core.old }
    ensures ran { let setup = setup_of D.Deed S.BuildHasher S.Hasher.Hasher K.eq K.hash_input (state_of core.old) in
        DrainsBy setup (state_of core.old) result (state_of core.new) }
    ensures few { result < bound_of (state_of core.old) }
    ensures rest { IsAtRest (state_of core.new) }
    ensures time { IsInTime D.Deed S.BuildHasher S.Hasher.Hasher K.eq K.hash_input core.new }
    ensures sound { IsSoundCore D.Deed S.BuildHasher S.Hasher.Hasher K.eq K.hash_input core.new }
    ensures room { Room core.new }
    ensures slots { IsSlotted D.Deed S.BuildHasher S.Hasher.Hasher K.eq K.hash_input core.new }
{
    laws::somebody_can_move();
    laws::steps_are_few();
    core.locks.known();
    let mut made = 0;
    'passes: loop {
        let more = pass(core);
        made += more;
        if more == 0 {
            break;
        }
    }
    core.locks.known();
    made
}
