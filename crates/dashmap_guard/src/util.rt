//! Small things that users of the map know.
ghost use Rattle.std.specs.Prelude.{◌≡◌};
ghost use Rattle.std.specs.Borrow.{Lends, sem};
ghost use Rattle.std.specs.Fn.{FnOnceReturnsAtMut};
ghost use Rattle.dashmap_guard.specs.contracts.util.SharedValue.{the_row};

use core::mem;

/// A value of its own, which is nothing but the value: a shard's lock excludes, and no value needs a cell.
///
/// A clone is a clone of the value, and is refused where that one is.
#[derive(Drop, Clone)]
pub struct SharedValue<T> {
    value: T,
}

impl<T> SharedValue<T> {
    /// Holds a value.
    ///
    /// ```text
    /// let shared = SharedValue::new(7u64);
    /// ```
    pub fn new(value: T) -> SharedValue<T>
        ensures { result.value ≡ value }
    {
        SharedValue { value }
    }

    /// Lends it.
    ///
    /// ```text
    /// let seven = *shared.get();
    /// ```
    pub fn get(&self) -> &T
        ensures { result.now ≡ self.now.value }
    {
        &self.value
    }

    /// Lends it for writing.
    ///
    /// ```text
    /// *shared.get_mut() = 8;
    /// ```
    pub fn get_mut(&mut self) -> &mut T
        ensures* writes_back { sem 𝓛 (Lends (the_row T.row) T.row self.entry result (λ value. record { value = value })) }
        ensures value { result.now ≡ self.old.value }
    {
        &mut self.value
    }

    /// Gives it back.
    ///
    /// ```text
    /// let seven = shared.into_inner();
    /// ```
    pub fn into_inner(self) -> T
        ensures { result ≡ self.value }
    {
        let SharedValue { value } = self;
        value
    }
}

/// How many bits a pointer has: 64.
pub const fn ptr_size_bits() -> usize
    ensures { result ≡ 64 }
{
    usize::BITS as usize
}

/// Takes the value out, hands it to the closure behind the first of the pair, and stores what the closure answers.
///
/// ```text
/// let mut count = 3u64;
/// map_in_place_2((2u64, &mut count), |factor, old| old.wrapping_mul(factor));   // 6
/// ```
pub fn map_in_place_2<T, U, F: FnOnce(U, T) -> T>(pair: (U, &mut T), f: F)
    requires { F.pre f pair.0 pair.1.now }
    ensures { F.post f pair.entry.0 pair.entry.1.now pair.exit.1.0.now }
{
    let (first, place) = pair;
    mem::replace_with(
        place,
        (first, f),
        |value, (first, f)|
            requires { F.pre f first value }
            ensures { F.post f first value result.0 }
        { (f(first, value), ()) },
    )
}

/// Lets a closure change a value.
pub(crate) fn change<T, F: FnOnce(&mut T)>(value: &mut T, f: F)
    requires { F.IsAlwaysCallable f }
    ensures { FnOnceReturnsAtMut F.FnOnce f value.old tt value.new }
{
    f(value)
}
