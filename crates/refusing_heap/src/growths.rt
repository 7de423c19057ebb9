//! Which growths are refused, and how many there were.
ghost use Rattle.std.specs.Prelude.{◌≡◌, ℕ};
ghost use Rattle.refusing_heap.specs.Refusals.{is_refused, later};

use std::sync::atomic::{AtomicU64, Ordering};

/// Which growths are refused. The first one asked for has the number 1.
#[derive(Clone, Copy, Debug, PartialEq, Eq)]
pub enum Refusal {
    /// None: they are only counted.
    Never,
    /// The one of this number, and no other.
    Once(u64),
    /// The one of this number and all later ones.
    Onwards(u64),
}

impl Refusal {
    /// Whether the growth of this number is refused.
    pub fn refuses(self, growth: u64) -> bool
        ensures { result ≡ is_refused self growth }
    {
        match self {
            Refusal::Never => false,
            Refusal::Once(only) => growth == only,
            Refusal::Onwards(first) => first <= growth,
        }
    }

    /// The same refusal so many growths later, or of the last number that there is.
    pub fn later(self, by: u64) -> Refusal
        ensures { result ≡ later by self }
    {
        match self {
            Refusal::Never => Refusal::Never,
            Refusal::Once(only) => Refusal::Once(only.saturating_add(by)),
            Refusal::Onwards(first) => Refusal::Onwards(first.saturating_add(by)),
        }
    }
}

/// The count of the growths of a heap, by whatever thread.
#[derive(Debug, Drop)]
pub struct Growths {
    refusal: Refusal,
    asked: AtomicU64,
    refused: AtomicU64,
}

impl Growths {
    /// Before the first growth.
    pub fn new(refusal: Refusal) -> Growths
        ensures { result.refusal ≡ refusal }
    {
        Growths {
            refusal,
            asked: AtomicU64::new(0),
            refused: AtomicU64::new(0),
        }
    }

    /// Counts one growth more, and tells whether it is refused: by its number, which no other growth has until 2^64
    /// were counted.
    pub fn refuse_next(&self) -> bool
        ensures { (growth : ℕ) × (result ≡ is_refused self.now.refusal growth) }
    {
        let growth = self.asked.fetch_add(1, Ordering::SeqCst).wrapping_add(1);
        let refused = self.refusal.refuses(growth);
        if refused {
            self.refused.fetch_add(1, Ordering::SeqCst);
        }
        refused
    }

    /// Which are refused.
    pub fn refusal(&self) -> Refusal
        ensures { result ≡ self.now.refusal }
    {
        self.refusal
    }

    /// How many were asked for.
    pub fn asked(&self) -> u64 {
        self.asked.load(Ordering::SeqCst)
    }

    /// How many were refused.
    pub fn refused(&self) -> u64 {
        self.refused.load(Ordering::SeqCst)
    }
}
