//! What no clause says: that a history takes no bytes beside what it is kept with, that it may cross
//! threads, and that the counter of the docs counts.

use mapworld_calls::past::Past;
use mapworld_calls::past::example::{Counter, three_steps};

fn is_send_and_sync<T: Send + Sync + Drop>(_value: T) {}

#[test]
fn a_history_takes_no_bytes(rt: HostRuntime) {
    assert!(rt; size_of::<Past<u64>>() == 0);
    assert!(rt; size_of::<Past<[u64; 1000]>>() == 0);
    assert!(rt; size_of::<Counter>() == size_of::<u64>());
}

#[test]
fn a_counter_notes_its_steps(rt: HostRuntime) {
    let counter = three_steps();
    assert!(rt; counter.count == 10);
    is_send_and_sync(counter.report());
}
