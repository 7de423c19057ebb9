//! What programs of a text do with a pair.

use mapworld_calls::Deed;

/// Reads a pair, key and value; stores its value times a number and one more number, cut to the width; and keeps the
/// pair where its value is in a range.
#[derive(Clone, Copy, Debug)]
pub struct Change {
    pub times: u64,
    pub more: u64,
    /// The least value that is kept.
    pub least: u64,
    /// The greatest one.
    pub most: u64,
}

impl Change {
    /// Leaves each value as it is, and keeps each pair.
    pub const NONE: Change = Change {
        times: 1,
        more: 0,
        least: 0,
        most: u64::MAX,
    };

    /// Adds a number to each value.
    pub fn add(self, more: u64) -> Change {
        Change {
            times: 1,
            more,
            ..self
        }
    }

    /// Puts a number in each value's place.
    pub fn set(self, more: u64) -> Change {
        Change {
            times: 0,
            more,
            ..self
        }
    }

    /// Keeps the pairs whose value is in that range, ends included.
    pub fn keep(self, least: u64, most: u64) -> Change {
        Change {
            least,
            most,
            ..self
        }
    }

    /// Keeps the pairs whose value is below that number.
    pub fn keep_below(self, number: u64) -> Change {
        match number.checked_sub(1) {
            Some(most) => self.keep(0, most),
            None => self.keep(1, 0),
        }
    }
}

impl Deed<u64, u64> for Change {
    type Answer = (u64, u64);

    ghost use Rattle.std.specs.Prelude.{nat_le, ◌&&◌, ◌+◌, ◌*◌, ◌%◌, ◌^◌};

    ghost answer_of = { λ deed key value. (key, value) };

    ghost keeps = { λ deed key value. nat_le deed.least value && nat_le value deed.most };

    ghost effect_of = { λ deed key value. (value * deed.times % 2 ^ 64 + deed.more) % 2 ^ 64 };

    fn answer(&self, key: &u64, value: &u64) -> (u64, u64) {
        (*key, *value)
    }

    fn keep(&self, _key: &u64, value: &u64) -> bool {
        self.least <= *value && *value <= self.most
    }

    fn effect(&self, _key: &u64, value: u64) -> u64 {
        value.wrapping_mul(self.times).wrapping_add(self.more)
    }
}
