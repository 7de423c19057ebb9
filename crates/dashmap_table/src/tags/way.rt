//! The tag of a hash, and the order in which windows are looked through for it.
ghost use Rattle.std.specs.Prelude.{◌≡◌, ℕ, ◌+◌, ◌*◌, ◌%◌, ◌^◌, ◌<◌, ◌≤◌};
ghost use Rattle.dashmap_table.specs.Tags.Way.{tag_of, windows_of, on_way};

use crate::tags::window::WIDTH;

/// The tag of a slot that nothing was put into.
pub const EMPTY: u8 = 255;

/// The tag of a free slot that something was put into before.
pub const REMOVED: u8 = 128;

/// The tag of a hash: its seven highest bits.
#[inline(always)]
pub fn tag_of(hash: u64) -> u8
    ensures tag { result ≡ tag_of hash }
    ensures full { result < 128 }
{
    (hash >> 57) as u8
}

/// How many windows so many slots have.
#[inline(always)]
pub fn windows(slots: usize) -> usize
    requires { slots < 2 ^ 63 }
    ensures { result ≡ windows_of slots }
{
    (slots + (WIDTH - 1)) / WIDTH
}

/// Where the window begins that is looked through for a hash first, among windows that are all whole.
#[inline(always)]
pub fn first_on_way(hash: u64, slots: usize) -> usize
    requires some { 16 ≤ slots }
    requires whole { slots % 16 ≡ 0 }
    ensures window { result ≡ 16 * on_way (windows_of slots) hash 0 }
    ensures within { result + 16 ≤ slots }
{
    WIDTH * ((hash / 16) as usize & (slots / WIDTH - 1))
}

/// The window that is looked through for a hash after so many others. The first one is chosen by the hash's bits from
/// the fifth on, so that the number of its first slot is the hash with some bits left out. Each further one is the one
/// behind, with the first behind the last.
#[inline(always)]
pub fn window_on_way(hash: u64, passed: usize, windows: usize) -> usize
    requires within { passed < windows }
    requires small { windows ≤ 2 ^ 60 }
    ensures window { result ≡ on_way windows hash passed }
    ensures within { result < windows }
{
    let window = ((hash / 16) as usize & (windows - 1)) + passed;
    if window < windows {
        window
    } else {
        window - windows
    }
}
