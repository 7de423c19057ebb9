//! Calls of a recorded map as data, and what they reply.

use dashmap_record::{Call, CallReply, Caller, RecordFault, Recorded};
use lock_api_raw::RawRwLock;
use std::alloc::Allocator;
use std::hash::{BuildHasherDefault, FoldHasher};
use std::sync::Wait;

/// The hasher of the tests.
pub type Fold = BuildHasherDefault<FoldHasher>;

/// A recorded map of numbers, over any lock.
pub type Numbers<Q, A> = Recorded<u64, u64, Fold, Q, A>;

/// Makes a call, and answers what was written down of it.
pub fn make<Q: RawRwLock, A: Allocator + Clone>(
    map: &Numbers<Q, A>,
    call: Call<u64, u64>,
    caller: &mut Caller<u64, u64, A>,
    me: &mut Q::Party,
) -> Result<CallReply<u64, u64>, RecordFault>
where
    Q::Runtime: Wait,
{
    let value = match call {
        Call::Insert(key, value) => map.insert(key, value, caller, me)?,
        Call::GetCopied(key) => map.get_copied(&key, caller, me)?,
        Call::ReplaceIf(key, old, new) => {
            return Ok(CallReply::Flag(map.replace_if(&key, old, new, caller, me)?));
        }
        Call::Remove(key) => {
            return Ok(match map.remove(&key, caller, me)? {
                Some((key, value)) => CallReply::Pair(key, value),
                None => CallReply::None,
            });
        }
    };
    Ok(match value {
        Some(value) => CallReply::Value(value),
        None => CallReply::None,
    })
}
