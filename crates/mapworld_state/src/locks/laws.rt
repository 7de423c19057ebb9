//! Laws of shards' locks.
ghost use Rattle.mapworld_state.specs.Locks.Counts.{CallsHoldWithin, DesksCountAsWords, QueuesAreWaiters};
ghost use Rattle.mapworld_state.specs.Locks.Footprints.{StepsTouchOneLock};
ghost use Rattle.mapworld_state.specs.Locks.Lawful.{LockStepsAreLawful};

use parking_lot_machine::laws;

/// A call that begins, moves or ends at locks that fit does so by the rules of locks, as its core says, and is paid for
/// by the steps that were left.
pub fn lock_steps_are_lawful()
    ensures { LockStepsAreLawful }
{}

/// A step changes the word of its thread's lock, or one of that lock's two queues, or neither, and no word and no queue
/// of another lock.
pub fn steps_touch_one_lock()
    ensures { StepsTouchOneLock }
{
    laws::each_step_is_a_case();
}

/// The queues of a shard's two keys have exactly the threads that wait there, each once.
pub fn queues_are_waiters()
    ensures { QueuesAreWaiters }
{
    laws::lists_are_waiters();
}

/// A desk has as many shared guards as its shard's word counts readers, and an exclusive one exactly where the writer
/// bit is set and nobody is pending.
pub fn desks_count_as_words()
    ensures { DesksCountAsWords }
{
    laws::modes_are_weighed();
}

/// In a call a thread holds its shard in no other way than the call is about: one that asks holds nothing or what it
/// asks for, one that gives up holds that or nothing, and one that turns its hold holds it.
pub fn calls_hold_within()
    ensures { CallsHoldWithin }
{}
