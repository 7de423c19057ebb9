//! Which lanes of a window have what.
ghost use Rattle.std.specs.Prelude.{◌≡◌, ℕ, ◌+◌, ◌<◌, ◌≤◌, ◌↔◌, length};
ghost use Rattle.dashmap_table.specs.Tags.Lanes.{HasLane, IsWanted, lanes_by, accepts};

use crate::tags::lanes::Lanes;
use std::simd::prelude::*;

/// How many lanes a window has, unless the tags end before.
pub const WIDTH: usize = 16;

/// Which slots are looked for.
#[derive(Clone, Copy)]
pub enum Wanted {
    /// Those with this tag.
    Tag(u8),
    /// Those with nothing in them.
    Free,
    /// Those with something in them.
    Full,
}

impl Wanted {
    #[inline(always)]
    fn accepts(self, tag: u8) -> bool
        ensures { result ≡ accepts self tag }
    {
        match self {
            Wanted::Tag(wanted) => tag == wanted,
            Wanted::Free => tag >= 128,
            Wanted::Full => tag < 128,
        }
    }
}

#[inline(always)]
fn whole(tags: &[u8], from: usize, wanted: Wanted) -> Lanes
    requires { from + 16 ≤ length tags.now }
    ensures { result.bits ≡ lanes_by wanted tags.now from }
{
    let lanes = u8x16::from_slice(&tags[from..]);
    let bits = match wanted {
        Wanted::Tag(tag) => lanes.simd_eq(u8x16::splat(tag)).to_bitmask(),
        Wanted::Free => lanes.simd_ge(u8x16::splat(128)).to_bitmask(),
        Wanted::Full => lanes.simd_lt(u8x16::splat(128)).to_bitmask(),
    };
    Lanes { bits }
}

/// The lanes of a window of sixteen slots, among those that are wanted.
#[inline(always)]
pub fn whole_lanes_at(tags: &[u8], from: usize, wanted: Wanted) -> Lanes
    requires { from + 16 ≤ length tags.now }
    ensures { (k : ℕ) → HasLane result k ↔ IsWanted wanted tags.now from k }
{
    whole(tags, from, wanted)
}

/// The wanted lanes where fewer are left, one after another from the last on.
#[cold]
#[inline(never)]
fn part(tags: &[u8], from: usize, wanted: Wanted) -> Lanes
    requires within { from ≤ length tags.now }
    requires short { length tags.now < from + 16 }
    ensures { result.bits ≡ lanes_by wanted tags.now from }
{
    let mut bits = 0;
    let mut at = tags.len();
    while at > from {
        at -= 1;
        bits = 2 * bits + wanted.accepts(tags[at]) as u64;
    }
    Lanes { bits }
}

/// The lanes of the window that begins at a slot, among those that are wanted. There are fewer than sixteen where the
/// tags end before, and then they are looked at one after another.
#[inline(always)]
pub fn lanes_at(tags: &[u8], from: usize, wanted: Wanted) -> Lanes
    requires { from ≤ length tags.now }
    ensures { (k : ℕ) → HasLane result k ↔ IsWanted wanted tags.now from k }
{
    if tags.len() - from >= WIDTH {
        whole_lanes_at(tags, from, wanted)
    } else {
        part(tags, from, wanted)
    }
}
