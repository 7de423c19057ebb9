//! In which bucket of keys a lock's list is.
ghost use Rattle.std.specs.Prelude.{◌≡◌, ◌<◌, ◌*◌, ◌%◌};

/// The bucket of a lock's first key, which is twice its number.
pub fn first_bucket(lock: usize, buckets: usize) -> usize
    requires some { 0 < buckets }
    ensures { result ≡ 2 * lock % buckets }
{
    (2 * (lock as u128) % (buckets as u128)) as usize
}
