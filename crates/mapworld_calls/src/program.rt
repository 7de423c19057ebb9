//! Whether a program is fit to run, and how many guard numbers it takes.
ghost use Rattle.std.specs.Prelude.{◌≡◌, ◌↔◌, ◌≤◌, IsTrue, false, sum_by};
ghost use Rattle.mapworld_calls.specs.Programs.{HoldsOneGuard, is_drop, numbers_of, one_guard, saturated};

use crate::ask::{Ask, Held};

/// Whether a call on the guard is its last.
fn is_drop<V, D>(call: &Held<V, D>) -> bool
    ensures { result ≡ is_drop call.now }
{
    match call {
        Held::Drop => true,
        _ => false,
    }
}

/// Whether the program holds one guard at a time: behind each opening stands its drop, with nothing but calls on the
/// guard between.
/// A world takes only such programs, so that no thread waits for a shard while it holds a guard.
///
/// It reads the program once, takes no memory and cannot fail. A call on the guard where none is held is no fault: it
/// is answered `NoGuard`.
///
/// ```text
/// holds_one_guard(&[Begin(Get(1)), Held(Read(d)), Held(Drop)])          // true
/// holds_one_guard(&[Begin(Get(1)), Begin(Get(2)), Held(Drop)])          // false: a second opening
/// holds_one_guard(&[Begin(Get(1)), Keyed(Remove(2)), Held(Drop)])       // false: a keyed call under a guard
/// holds_one_guard(&[Begin(Get(1)), Walk(Len), Held(Drop)])              // false: a walk under a guard
/// holds_one_guard(&[Begin(Get(1)), Held(Read(d))])                      // false: no drop
/// ```
pub fn holds_one_guard<K, V, D>(program: &[Ask<K, V, D>]) -> bool
    ensures guarded { IsTrue result ↔ HoldsOneGuard program.now }
    ensures value { result ≡ one_guard false program.now }
{
    let mut held = false;
    for ask in program {
        match ask {
            Ask::Keyed(_) | Ask::Walk(_) => {
                if held {
                    return false;
                }
            }
            Ask::Begin(_) => {
                if held {
                    return false;
                }
                held = true;
            }
            Ask::Held(call) => held = held && !is_drop(call),
        }
    }
    !held
}

/// How many guard numbers a call takes.
fn numbers_of<K, V, D>(ask: &Ask<K, V, D>, shards: u64) -> u64
    ensures value { result ≡ numbers_of shards ask.now }
{
    match ask {
        Ask::Keyed(_) | Ask::Begin(_) => 1,
        Ask::Held(_) => 0,
        Ask::Walk(_) => shards,
    }
}

/// How many guard numbers the program takes on a map of so many shards: one for each keyed call and each opening, since
/// each takes a shard's guard once, as many as there are shards for each walk, and none for a call on the guard that is
/// held.
///
/// It reads the program once, takes no memory and cannot fail. A number past the greatest stays at that.
///
/// ```text
/// guard_numbers(&[Keyed(Insert(1, 1)), Begin(Get(1)), Held(Read(d)), Held(Drop), Walk(Len)], 2)          // 4
/// ```
pub fn guard_numbers<K, V, D>(program: &[Ask<K, V, D>], shards: u64) -> u64
    ensures { result ≡ saturated (sum_by (numbers_of shards) program.now) }
{
    let mut numbers: u64 = 0;
    for ask in program {
        numbers = numbers.saturating_add(numbers_of(ask, shards));
    }
    numbers
}
