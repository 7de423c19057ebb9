//! What a full slot holds.
ghost use Rattle.std.specs.Prelude.{◌≡◌};
ghost use Rattle.std.specs.Borrow.{sem};
ghost use Rattle.dashmap_table.specs.Slots.{pair_of};
ghost use Rattle.dashmap_table.specs.Lending.{lends_own};

/// A pair with its hash.
#[derive(Drop)]
pub struct Entry<K, V> {
    pub(crate) hash: u64,
    pub(crate) key: K,
    pub(crate) value: V,
}

impl<K, V> Entry<K, V> {
    /// Lends the value for writing, beside its key.
    pub(crate) fn pair_mut(&mut self) -> (&K, &mut V)
        ensures* writes_back { sem 𝓛 (lends_own K.row V.row self.entry result.1) }
        ensures pair { pair_of self.old ≡ (result.0.now, result.1.now) }
    {
        (&self.key, &mut self.value)
    }

    /// Lends the value for writing.
    pub(crate) fn value_mut(&mut self) -> &mut V
        ensures* writes_back { sem 𝓛 (lends_own K.row V.row self.entry result) }
        ensures value { self.old.value ≡ result.now }
    {
        &mut self.value
    }
}
