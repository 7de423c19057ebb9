//! Replies, and what the calls that they belong to answer.
ghost use Rattle.std.specs.Prelude.{◌≡◌, Option, Bool};
ghost use Rattle.dashmap_record.specs.declared.history.entry.CallReply.{CallReply};
ghost use Rattle.dashmap_record.specs.Recorded.{value_reply, pair_reply};

use crate::history::CallReply;

/// A value that was there, or none, as it is written down.
pub(crate) fn value_reply<K, V>(value: Option<V>) -> CallReply<K, V>
    ensures { result ≡ value_reply value }
{
    match value {
        Some(value) => CallReply::Value(value),
        None => CallReply::None,
    }
}

/// A pair that was there, or none, as it is written down.
pub(crate) fn pair_reply<K, V>(pair: Option<(K, V)>) -> CallReply<K, V>
    ensures { result ≡ pair_reply pair }
{
    match pair {
        Some((key, value)) => CallReply::Pair(key, value),
        None => CallReply::None,
    }
}

/// The value that a reply tells of.
pub(crate) fn value_told<K: Drop, V: Drop>(reply: CallReply<K, V>) -> Option<V>
    requires { (o : Option V) × (reply ≡ value_reply o) }
    ensures { reply ≡ value_reply result }
{
    match reply {
        CallReply::None => None,
        CallReply::Value(value) => Some(value),
        CallReply::Pair(_, _) => unreachable!(),
        CallReply::Flag(_) => unreachable!(),
    }
}

/// The pair that a reply tells of.
pub(crate) fn pair_told<K: Drop, V: Drop>(reply: CallReply<K, V>) -> Option<(K, V)>
    requires { (o : Option (K × V)) × (reply ≡ pair_reply o) }
    ensures { reply ≡ pair_reply result }
{
    match reply {
        CallReply::None => None,
        CallReply::Value(_) => unreachable!(),
        CallReply::Pair(key, value) => Some((key, value)),
        CallReply::Flag(_) => unreachable!(),
    }
}

/// The flag that a reply tells of.
pub(crate) fn flag_told<K: Drop, V: Drop>(reply: CallReply<K, V>) -> bool
    requires { (b : Bool) × (reply ≡ CallReply.Flag b) }
    ensures { reply ≡ CallReply.Flag result }
{
    match reply {
        CallReply::None => unreachable!(),
        CallReply::Value(_) => unreachable!(),
        CallReply::Pair(_, _) => unreachable!(),
        CallReply::Flag(flag) => flag,
    }
}
