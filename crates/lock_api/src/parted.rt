//! Holds of a mutex that are taken apart and put together.
ghost use Rattle.std.specs.Prelude.{◌≡◌};

use crate::mutex::Mutex;
use lock_api_guards::Hold;
use lock_api_raw::RawMutex;
use lock_api_rw::{HasRaw as _, Locked, RawHold};

/// Where a mutex over the raw mutex `R` is found.
pub(crate) trait MutexPlace<R> {
    /// The raw mutex of a place.
    ghost raw_of: { Self → R };

    /// Lends the raw mutex.
    fn raw_mutex(&self) -> &R
        ensures { result.now ≡ raw_of self.now };
}

/// A hold of a mutex over the raw mutex `R`, as a condition variable takes it: the place of the mutex, and the token.
pub(crate) trait Parted<R: RawMutex>: Hold {
    /// Where the mutex is found.
    type Place: MutexPlace<R>;

    /// The place of a hold's mutex.
    ghost place_of: { Self → Self.Place };

    /// The token of a hold.
    ghost token_of: { Self → R.Guard };

    /// The place, and a token that its raw mutex issued.
    fn into_parts(self) -> (Self::Place, R::Guard)
        ensures parts { result ≡ (place_of self, token_of self) }
        ensures issued { R.issued_by (token_of self) ≡ R.number (Self.Place.raw_of (place_of self)) };

    /// The hold of a place, by a token that its raw mutex issued.
    fn from_parts(place: Self::Place, token: R::Guard) -> Self
        requires { R.issued_by token ≡ R.number (Self.Place.raw_of place) }
        ensures { (place_of result ≡ place) × (token_of result ≡ token) };
}

impl<'l, R: RawMutex, T> MutexPlace<R> for &'l Mutex<R, T> {
    ghost raw_of = { λ place. place.now };

    fn raw_mutex(&self) -> &R {
        let mutex = *self;
        mutex.raw()
    }
}

impl<'l, R: RawMutex, T> Parted<R> for RawHold<&'l Mutex<R, T>, Locked> {
    type Place = &'l Mutex<R, T>;

    ghost place_of = { λ hold. hold.place };

    ghost token_of = { λ hold. hold.token };

    fn into_parts(self) -> (&'l Mutex<R, T>, R::Guard) {
        RawHold::into_parts(self)
    }

    fn from_parts(place: &'l Mutex<R, T>, token: R::Guard) -> RawHold<&'l Mutex<R, T>, Locked> {
        RawHold::new(place, token)
    }
}
