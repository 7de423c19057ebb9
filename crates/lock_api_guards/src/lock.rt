//! What the locks of users have in common.
ghost use Rattle.std.specs.Fn.{FnOnceReturnsAt, FnOnceReturnsAtMut};

use std::sync::Wait;

/// A lock whose value is reached by a std lock, taken for a closure's time. For the layer above.
///
/// ```text
/// let length = lock.with_value(|text| text.len());
/// ```
pub trait HasValue {
    /// The value.
    type Value;

    /// The runtime by which the std lock waits.
    type Waiting;

    /// Takes the std lock by its own try first, lends the value to the closure and answers what it answers.
    fn with_value<F: FnOnce(&Self::Value) -> U, U>(&self, f: F) -> U
    where
        Self::Waiting: Wait,
        requires { F.IsAlwaysCallable f }
        ensures { (value : Self.Value) × FnOnceReturnsAt F.FnOnce f value result };
}

/// A lock whose value can be written so. For the layer above.
///
/// ```text
/// lock.with_value_mut(|count| *count = 0);
/// ```
pub trait HasValueMut: HasValue {
    /// As `with_value`, for writing.
    fn with_value_mut<F: FnOnce(&mut Self::Value) -> U, U>(&self, f: F) -> U
    where
        Self::Waiting: Wait,
        requires { F.IsAlwaysCallable f }
        ensures { (old : Self.Value) × (new : Self.Value) × FnOnceReturnsAtMut F.FnOnce f old result new };
}

/// Lends a value to a closure. For the layer above.
///
/// ```text
/// lent(f, &*self.inner())
/// ```
pub fn lent<T, F: FnOnce(&T) -> U, U>(f: F, value: &T) -> U
    requires { F.IsAlwaysCallable f }
    ensures { FnOnceReturnsAt F.FnOnce f value.now result }
{
    f(value)
}

/// Lends a value to a closure for writing. For the layer above.
///
/// ```text
/// lent_mut(f, &mut *self.inner())
/// ```
pub fn lent_mut<T, F: FnOnce(&mut T) -> U, U>(f: F, value: &mut T) -> U
    requires { F.IsAlwaysCallable f }
    ensures { FnOnceReturnsAtMut F.FnOnce f value.old result value.new }
{
    f(value)
}
