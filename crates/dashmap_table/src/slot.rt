//! What is done in one slot.
ghost use Rattle.std.specs.Prelude.{◌≡◌, Some, IsSome};
ghost use Rattle.std.specs.Option.{option_map};
ghost use Rattle.std.specs.Borrow.{sem};
ghost use Rattle.dashmap_table.specs.Lending.{lends_value};
ghost use Rattle.dashmap_table.specs.Slots.{pair_of, giving_pair, giving_value};

use crate::entry::Entry;
use std::mem;

/// Puts key and value into a full slot, and gives those that were there.
pub(crate) fn set_pair<K: Drop, V: Drop>(
    slot: &mut Option<Entry<K, V>>,
    key: K,
    value: V,
) -> Option<(K, V)>
    ensures pair { result ≡ option_map pair_of slot.old }
    ensures after { slot.new ≡ option_map (giving_pair key value) slot.old }
{
    match slot {
        Some(entry) => Some((
            mem::replace(&mut entry.key, key),
            mem::replace(&mut entry.value, value),
        )),
        None => None,
    }
}

/// Puts a value into a full slot, and gives the one that was there.
pub(crate) fn set_value<K, V: Drop>(slot: &mut Option<Entry<K, V>>, value: V) -> Option<V>
    ensures value { result ≡ option_map (λ e. e.value) slot.old }
    ensures after { slot.new ≡ option_map (giving_value value) slot.old }
{
    match slot {
        Some(entry) => Some(mem::replace(&mut entry.value, value)),
        None => None,
    }
}

/// Lends the value of a full slot for writing, beside its key.
pub(crate) fn lend_pair<K, V>(slot: &mut Option<Entry<K, V>>) -> (&K, &mut V)
    requires { IsSome slot.old }
    ensures* writes_back { sem 𝓛 (lends_value K.row V.row slot.entry result.1) }
    ensures pair { option_map pair_of slot.old ≡ Some (result.0.now, result.1.now) }
{
    match slot {
        Some(entry) => entry.pair_mut(),
        None => unreachable!(),
    }
}

/// Lends the value of a full slot for writing.
pub(crate) fn lend_value<K, V>(slot: &mut Option<Entry<K, V>>) -> &mut V
    requires { IsSome slot.old }
    ensures* writes_back { sem 𝓛 (lends_value K.row V.row slot.entry result) }
    ensures value { option_map (λ e. e.value) slot.old ≡ Some result.now }
{
    match slot {
        Some(entry) => entry.value_mut(),
        None => unreachable!(),
    }
}
