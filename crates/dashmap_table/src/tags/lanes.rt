//! A set of lanes.
ghost use Rattle.std.specs.Prelude.{◌≡◌, ◌≢◌, ℕ, ◌<◌, ◌↔◌, IsTrue, MatchOption};
ghost use Rattle.dashmap_table.specs.Tags.Lanes.{HasLane};

/// Some of the lanes of a window, a bit for each.
#[derive(Clone, Copy)]
pub struct Lanes {
    pub(crate) bits: u64,
}

impl Lanes {
    /// Whether no lane is left.
    #[inline(always)]
    pub fn is_none(self) -> bool
        ensures { IsTrue result ↔ ((k : ℕ) → ¬ HasLane self k) }
    {
        self.bits == 0
    }

    /// The lowest lane.
    #[inline(always)]
    pub fn first(self) -> Option<usize>
        ensures { MatchOption result ((k : ℕ) → ¬ HasLane self k)
            (λ lane. HasLane self lane × ((k : ℕ) → k < lane → ¬ HasLane self k)) }
    {
        if self.bits == 0 {
            None
        } else {
            Some(self.bits.trailing_zeros() as usize)
        }
    }

    /// The lanes but one, which is among them.
    #[inline(always)]
    pub fn without(self, lane: usize) -> Lanes
        requires { HasLane self lane }
        ensures others { (k : ℕ) → HasLane result k ↔ (HasLane self k × (k ≢ lane)) }
        ensures fewer { result.bits < self.bits }
    {
        Lanes {
            bits: self.bits & !(1 << lane),
        }
    }
}
