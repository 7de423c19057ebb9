//! Lock words, for what no clause of them says: which words the steps find and write, that a lock can be had, and that
//! it excludes.
ghost use Rattle.std.specs.Prelude.{◌≡◌};

use lock_word::{HandoffWord, Owner};
use std::process::Abort;
use std::sync::Wait;
use std::sync::atomic::{AtomicU64, Ordering};
use std::thread;
use std::thread::Threads;

/// Waits for the lock, also for one that is handed over.
fn own<R: Wait>(rt: &R, lock: &HandoffWord) -> Owner
    ensures { result ≡ lock.now.word }
{
    for _ in rt.forever() {
        if let Ok(owner) = lock.word().acquire(0, 1) {
            return owner;
        }
        if let Some(owner) = lock.pick_up() {
            return owner;
        }
        thread::yield_now();
    }
    unreachable!()
}

/// Gives it up, or hands it over with bit 0 set throughout. It stops the program where another bit has changed.
fn give_up<R: Abort>(rt: &R, lock: &HandoffWord, owner: Owner, by_hand: bool)
    requires { owner ≡ lock.now.word }
{
    let given = if by_hand {
        lock.leave(owner)
    } else {
        match lock.word().release(owner, 1, 0) {
            Ok(()) => Ok(()),
            Err((owner, _word)) => Err(owner),
        }
    };
    match given {
        Ok(()) => {}
        Err(_owner) => panic!(rt; "another bit has changed"),
    }
}

/// Owns the lock so many times, every third time handing it over, and answers how often somebody else was inside.
fn rounds<R: Wait + Abort>(rt: &R, lock: &HandoffWord, inside: &AtomicU64, count: u64) -> u64 {
    let mut seen = 0u64;
    for round in 0..count {
        let owner = own(rt, lock);
        if inside.fetch_add(1, Ordering::SeqCst) != 0 {
            seen = seen.wrapping_add(1);
        }
        inside.fetch_sub(1, Ordering::SeqCst);
        give_up(rt, lock, owner, round % 3 == 0);
    }
    seen
}

/// Whether a free word is changed where it is as told, and refused where it isn't.
fn is_changed(lock: &HandoffWord) -> bool {
    let word = lock.word();
    let refused = word.change(0, 2) == Ok(()) && word.change(0, 2) == Err(2);
    refused && word.change(2, 0) == Ok(())
}

/// The same of an owner's.
fn is_owners_changed(lock: &HandoffWord) -> bool {
    let word = lock.word();
    word.load() == 1 && word.change(1, 3) == Ok(()) && word.change(3, 1) == Ok(())
}

/// Whether an owner finds bit 0, and leaves the word as it does.
fn is_owned<R: Wait + Abort>(rt: &R, lock: &HandoffWord, by_hand: bool, left: u64) -> bool {
    let owner = own(rt, lock);
    let found = is_owners_changed(lock);
    give_up(rt, lock, owner, by_hand);
    found && lock.word().load() == left
}

#[test]
fn words_are_as_they_were_written(rt: HostRuntime) {
    let lock = HandoffWord::new();
    let is_new = lock.word().load() == 0 && is_changed(&lock);
    assert!(rt; is_new && is_owned(&rt, &lock, true, 1) && is_owned(&rt, &lock, false, 0));
}

/// How often each of two threads that own the lock beside each other finds the other inside.
fn both_own<R: Wait + Threads + Abort + Sync>(rt: &R, lock: &HandoffWord) -> (u64, u64) {
    let inside = AtomicU64::new(0);
    thread::join(
        rt,
        || rounds(rt, lock, &inside, 3_000),
        || rounds(rt, lock, &inside, 3_000),
    )
}

#[test]
fn two_threads_exclude_each_other(rt: HostRuntime) {
    assert!(rt; both_own(&rt, &HandoffWord::new()) == (0, 0));
}
