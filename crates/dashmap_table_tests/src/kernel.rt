//! The lanes of a window, beside a loop that looks at one tag after another.
use dashmap_table::tags::{EMPTY, REMOVED, WIDTH, Wanted, lanes_at};

const SLOTS: usize = 64;

/// Tags of all kinds, in another order for each number.
fn some_tags(order: usize) -> [u8; SLOTS] {
    let mut tags = [EMPTY; SLOTS];
    for slot in 0..SLOTS {
        tags[slot] = match (slot * slot + slot * (order % 8) + order % 8) % 7 {
            0 | 1 => EMPTY,
            2 => REMOVED,
            3 => 127,
            4 => 0,
            _ => 1,
        };
    }
    tags
}

fn is_wanted(wanted: Wanted, tag: u8) -> bool {
    match wanted {
        Wanted::Tag(wanted) => tag == wanted,
        Wanted::Free => tag == EMPTY || tag == REMOVED,
        Wanted::Full => tag != EMPTY && tag != REMOVED,
    }
}

/// Whether the window's lanes are those that the loop finds, in rising order.
fn are_those_of_a_loop(tags: &[u8], from: usize, wanted: Wanted) -> bool {
    if from > tags.len() {
        return false;
    }
    let mut lanes = lanes_at(tags, from, wanted);
    for lane in 0..WIDTH.min(tags.len() - from) {
        if is_wanted(wanted, tags[from + lane]) {
            match lanes.first() {
                Some(first) if first == lane => lanes = lanes.without(first),
                _ => return false,
            }
        }
    }
    lanes.is_none() && lanes.first().is_none()
}

#[test]
fn lanes_are_those_of_a_loop_for_each_length(rt: HostRuntime) {
    let mut right = true;
    for order in 0..8 {
        let tags = some_tags(order);
        for length in 0..SLOTS + 1 {
            for from in 0..length + 1 {
                for tag in [EMPTY, REMOVED, 127, 1, 0] {
                    right &= are_those_of_a_loop(&tags[..length], from, Wanted::Tag(tag));
                }
                right &= are_those_of_a_loop(&tags[..length], from, Wanted::Free);
                right &= are_those_of_a_loop(&tags[..length], from, Wanted::Full);
            }
        }
    }
    assert!(rt; right);
}
