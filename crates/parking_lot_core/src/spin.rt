//! A counter of spins.
ghost use Rattle.std.specs.Prelude.{◌≡◌, ◌+◌, ℕ, min, nat_lt};

use std::hint;
use std::marker::Model;

/// How many rounds are worth spinning.
const ROUNDS: u32 = 10;

/// How many of them only spin.
const QUIET_ROUNDS: u32 = 3;

/// A counter for loops that wait for a short while: each round waits longer than the one before, and after ten rounds
/// the caller had better sleep.
///
/// Contracts see it as the number of rounds so far.
///
/// ```text
/// let mut spin = SpinWait::new();
/// while is_locked() && spin.spin() {}
/// ```
#[derive(Drop)]
pub struct SpinWait {
    rounds: u32,
}

impl Model for SpinWait {
    ghost use Rattle.std.specs.Prelude.{ℕ, ◌≤◌};

    ghost Value = { ℕ };

    ghost view = { λ s. s.rounds };

    ghost invariant = { λ s. s.rounds ≤ 10 };
}

impl SpinWait {
    /// No rounds yet.
    ///
    /// ```text
    /// let mut spin = SpinWait::new();
    /// let waited = spin.spin();   // true
    /// ```
    pub fn new() -> SpinWait
        ensures { result ≡ 0 }
    {
        SpinWait { rounds: 0 }
    }

    /// Begins anew.
    ///
    /// ```text
    /// let mut spin = SpinWait::new();
    /// spin.spin_no_yield();
    /// spin.reset();   // as new
    /// ```
    pub fn reset(&mut self)
        ensures { self.new ≡ 0 }
    {
        self.rounds = 0;
    }

    /// Waits for a round, and answers whether it did: not where ten rounds have passed. The first three rounds keep the
    /// processor, the others let another thread run.
    ///
    /// ```text
    /// let mut spin = SpinWait::new();
    /// if !spin.spin() { println!(rt; "time to sleep")?; }
    /// ```
    pub fn spin(&mut self) -> bool
        ensures answer { result ≡ nat_lt self.old 10 }
        ensures rounds { self.new ≡ min (self.old + 1) 10 }
    {
        if self.rounds >= ROUNDS {
            return false;
        }
        self.rounds += 1;
        if self.rounds <= QUIET_ROUNDS {
            relax(self.rounds);
        } else {
            thread_yield();
        }
        true
    }

    /// Waits for a round and keeps the processor, also where ten rounds have passed.
    ///
    /// ```text
    /// let mut spin = SpinWait::new();
    /// spin.spin_no_yield();
    /// ```
    pub fn spin_no_yield(&mut self)
        ensures { self.new ≡ min (self.old + 1) 10 }
    {
        if self.rounds < ROUNDS {
            self.rounds += 1;
        }
        relax(self.rounds);
    }
}

impl Default for SpinWait {
    ghost use Rattle.std.specs.Prelude.{◌≡◌};

    ghost is_default = { λ spin. spin ≡ 0 };

    /// No rounds yet.
    fn default() -> SpinWait {
        SpinWait::new()
    }
}

/// Keeps the processor for twice as long with each round: 2, 4, 8 hints and so on.
fn relax(rounds: u32) {
    for _hint in 0..1u32.wrapping_shl(rounds) {
        hint::spin_loop();
    }
}

/// Lets another thread run. Nothing is promised of when this one goes on.
///
/// ```text
/// for _ in rt.forever() {
///     if flag.load(Ordering::SeqCst) == 1 { break; }
///     thread_yield();
/// }
/// ```
pub fn thread_yield() {
    std::thread::yield_now();
}
