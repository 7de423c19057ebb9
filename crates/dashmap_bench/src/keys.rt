//! Which keys the calls take, in which order.

/// The numbers that a run's keys are made of, in the order of its calls.
pub trait Way {
    /// The number of a turn's key.
    fn number(turn: u64) -> u64;
}

/// The numbers from one on.
pub struct Onward<const FIRST: u64>;

/// The numbers below one, each once in so many turns, with leaps between them.
pub struct Leaping<const KEYS: u64>;

/// So many numbers from one on, again and again.
pub struct Round<const FIRST: u64, const KEYS: u64>;

impl<const FIRST: u64> Way for Onward<FIRST> {
    #[inline(always)]
    fn number(turn: u64) -> u64 {
        turn.wrapping_add(FIRST)
    }
}

impl<const KEYS: u64> Way for Leaping<KEYS> {
    #[inline(always)]
    fn number(turn: u64) -> u64 {
        turn.wrapping_mul(7_919) % KEYS.max(1)
    }
}

impl<const FIRST: u64, const KEYS: u64> Way for Round<FIRST, KEYS> {
    #[inline(always)]
    fn number(turn: u64) -> u64 {
        (turn % KEYS.max(1)).wrapping_add(FIRST)
    }
}
