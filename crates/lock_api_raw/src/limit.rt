//! How many readers a lock can count.

/// As many readers as a word of 64 bits counts above its four lowest bits, which say who else holds or awaits the lock.
pub const MAX_READERS: u64 = (1 << 60) - 1;
