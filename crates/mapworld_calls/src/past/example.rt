//! The counter that the docs of `Past` show. It is proved so that a contract over a history is known to hold
//! and, by the edits in `must-fail/`, to refuse.

ghost use Rattle.std.specs.Prelude.{◌≡◌, ◌+◌, ◌<◌, ◌^◌, [], ◌∷◌, ◌++◌, sum};

use crate::past::{Listed, Past};

/// Steps of a list, in its order.
#[derive(Clone, Copy)]
struct Several<'a> {
    steps: &'a [u64],
}

impl<'a> Listed<u64> for Several<'a> {
    ghost listed = { λ several. several.steps.now };
}

/// A counter that notes each of its steps.
#[derive(Drop)]
pub struct Counter {
    /// The sum of the steps.
    pub count: u64,
    steps: Past<u64>,
    ghost counted: { sum steps.items ≡ count },
}

impl Counter {
    /// A counter of no steps.
    pub fn new() -> Counter
        ensures { result.steps.items ≡ [] }
    {
        Counter {
            count: 0,
            steps: Past::new(),
        }
    }

    /// Counts a step and notes it.
    pub fn add(&mut self, step: u64)
        requires fits { self.old.count + step < 2 ^ 64 }
        ensures noted { self.new.steps.items ≡ self.old.steps.items ++ step ∷ [] }
    {
        self.count += step;
        self.steps = self.steps.appended(&step);
    }

    /// Counts steps whose sum is known, and notes each.
    pub fn add_all(&mut self, steps: &[u64], whole: u64)
        requires sum { sum steps.now ≡ whole }
        requires fits { self.old.count + whole < 2 ^ 64 }
        ensures noted { self.new.steps.items ≡ self.old.steps.items ++ steps.now }
    {
        self.count += whole;
        self.steps = self.steps.appended_all(&Several { steps });
    }

    /// The steps so far.
    pub fn report(&self) -> Past<u64>
        ensures { result.items ≡ self.now.steps.items }
    {
        self.steps.duplicate()
    }
}

/// A counter that took the steps 2, 3 and 5.
pub fn three_steps() -> Counter
    ensures { result.steps.items ≡ 2 ∷ 3 ∷ 5 ∷ [] }
{
    let mut counter = Counter::new();
    counter.add(2);
    counter.add(3);
    counter.add(5);
    counter
}
