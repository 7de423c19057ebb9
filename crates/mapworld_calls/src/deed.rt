ghost use Rattle.std.specs.Prelude.{◌≡◌, Bool};

/// What to do with one pair of the map, by three stated definitions of that pair alone.
///
/// A program of the world hands a deed to a call in the place of a closure: what it reads is its `answer`, whether the
/// pair stays is its `keep`, and what is stored in the value's place is its `effect`. `answer` and `keep` are asked of
/// the pair as it was found, before `effect`. None of them takes memory.
///
/// ```text
/// struct Add(u64);
///
/// impl Deed<u64, u64> for Add {
///     type Answer = u64;
///     ghost answer_of = { λ deed key value. value };
///     ghost keeps = { λ deed key value. true };
///     ghost effect_of = { λ deed key value. (value + deed.0) % 2 ^ 64 };
///     fn answer(&self, _key: &u64, value: &u64) -> u64 { *value }
///     fn keep(&self, _key: &u64, _value: &u64) -> bool { true }
///     fn effect(&self, _key: &u64, value: u64) -> u64 { value.wrapping_add(self.0) }
/// }
/// ```
pub trait Deed<K, V> {
    /// What reading a pair gives.
    type Answer: Copy;

    /// What `answer` gives of a pair.
    ghost answer_of: { Self → K → V → Self.Answer };

    /// What `keep` gives of a pair.
    ghost keeps: { Self → K → V → Bool };

    /// What `effect` stores in the place of the value.
    ghost effect_of: { Self → K → V → V };

    /// What is read of the pair.
    fn answer(&self, key: &K, value: &V) -> Self::Answer
        ensures { result ≡ answer_of self.now key.now value.now };

    /// Whether the pair is to stay.
    fn keep(&self, key: &K, value: &V) -> bool
        ensures { result ≡ keeps self.now key.now value.now };

    /// The value that is stored instead.
    fn effect(&self, key: &K, value: V) -> V
        ensures { result ≡ effect_of self.now key.now value };
}
