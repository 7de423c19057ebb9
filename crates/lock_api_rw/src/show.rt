//! What the reader-writer lock prints.
use crate::rwlock::RwLock;
use lock_api_raw::RawRwLock;
use std::fmt;
use std::fmt::Debug;
use std::sync::Wait;

/// Prints the value by a try to read, or that it is locked. It waits for nobody.
impl<R: RawRwLock, T: Debug> Debug for RwLock<R, T>
where
    R::Runtime: Wait,
{
    fn fmt<F: fmt::Write>(&self, f: &mut fmt::Formatter<F>) -> fmt::Result {
        match self.try_read() {
            Some(guard) => f.debug_struct("RwLock").field("data", &*guard).finish(),
            None => f.write_str("RwLock { data: <locked> }"),
        }
    }
}
