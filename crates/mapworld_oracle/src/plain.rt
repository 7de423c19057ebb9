//! The plain map: a list of pairs, and what each call is answered there and leaves. It knows no shards, no locks and no
//! steps.

use crate::said::Said;
use mapworld_calls::{Ask, Begin, Deed, Held, Keyed, Walk};
use std::alloc::{AllocError, Global};

/// A list of pairs with distinct keys.
#[derive(Drop)]
pub struct Plain {
    pub pairs: Vec<(u64, u64)>,
}

/// What a key has behind a call.
pub type Left = (u64, Option<u64>);

/// What a call is answered, and what it leaves at its key, if it changes that.
#[derive(Clone, Copy)]
pub struct Told {
    pub answer: Said<'static>,
    pub left: Option<Left>,
}

/// An answer, and nothing changed.
fn quiet(answer: Said<'static>) -> Told {
    Told { answer, left: None }
}

/// An answer, and what the key has then.
fn leaving(answer: Said<'static>, key: u64, value: Option<u64>) -> Told {
    Told {
        answer,
        left: Some((key, value)),
    }
}

impl Plain {
    /// The map of these pairs: of equal keys the last value stays.
    pub fn of(alloc: Global, pairs: &[(u64, u64)]) -> Result<Plain, AllocError> {
        let mut plain = Plain {
            pairs: Vec::new(alloc),
        };
        for (key, value) in pairs {
            plain.leave((*key, Some(*value)))?;
        }
        Ok(plain)
    }

    pub fn value(&self, key: u64) -> Option<u64> {
        self.pairs
            .iter()
            .find(|pair| pair.0 == key)
            .map(|pair| pair.1)
    }

    /// Leaves at a key what it is to have.
    pub fn leave(&mut self, left: Left) -> Result<(), AllocError> {
        let (key, value) = left;
        self.pairs.retain(|pair| pair.0 != key);
        if let Some(value) = value {
            self.pairs.push((key, value))?;
        }
        Ok(())
    }
}

/// What a guard is.
#[derive(Clone, Copy, PartialEq)]
pub enum Kind {
    Shared,
    Exclusive,
    Occupied,
    Vacant,
}

/// Whether a call opens a guard.
pub fn is_opening<D>(call: &Ask<u64, u64, D>) -> bool {
    matches!(call, Ask::Begin(_))
}

/// Whether a call waits for nobody.
pub fn is_try<D>(call: &Ask<u64, u64, D>) -> bool {
    matches!(
        call,
        Ask::Begin(Begin::TryGet(_) | Begin::TryGetMut(_) | Begin::TryEntry(_))
    )
}

/// Whether a call has a deadline.
pub fn has_deadline<D>(call: &Ask<u64, u64, D>) -> bool {
    matches!(
        call,
        Ask::Keyed(Keyed::InsertUntil(..) | Keyed::RemoveUntil(_))
            | Ask::Begin(Begin::GetUntil(_) | Begin::GetMutUntil(_))
    )
}

/// Whether a call goes over all shards.
pub fn is_walk<D>(call: &Ask<u64, u64, D>) -> bool {
    matches!(call, Ask::Walk(_))
}

/// Whether a call ends its guard in any case.
pub fn is_drop<D>(call: &Ask<u64, u64, D>) -> bool {
    matches!(call, Ask::Held(Held::Drop))
}

/// Whether a call on one key, or an opening, may be refused for memory.
pub fn may_grow<D>(call: &Ask<u64, u64, D>) -> bool {
    matches!(
        call,
        Ask::Keyed(Keyed::Insert(..) | Keyed::InsertUntil(..))
            | Ask::Begin(Begin::Entry(_) | Begin::TryEntry(_))
    )
}

/// After how many items a walk is dropped, if it is dropped early.
pub fn stop_of<D>(call: &Ask<u64, u64, D>) -> Option<u64> {
    match call {
        Ask::Walk(Walk::Iter(_, stop) | Walk::IterMut(_, stop)) => *stop,
        _ => None,
    }
}

/// Whether a walk tells what it reads of its pairs.
pub fn gives_reads<D>(call: &Ask<u64, u64, D>) -> bool {
    matches!(call, Ask::Walk(Walk::Iter(..) | Walk::IterMut(..)))
}

/// What a call on a key of that value is answered.
pub fn keyed<D: Deed<u64, u64, Answer = (u64, u64)>>(
    call: &Keyed<u64, u64, D>,
    value: Option<u64>,
) -> Told {
    match value {
        Some(old) => on_present(call, old),
        None => on_absent(call),
    }
}

/// What a call on an absent key is answered.
fn on_absent<D>(call: &Keyed<u64, u64, D>) -> Told {
    match call {
        Keyed::Insert(key, new) | Keyed::InsertUntil(key, new) => {
            leaving(Said::None, *key, Some(*new))
        }
        Keyed::Alter(..) => quiet(Said::Done),
        Keyed::ContainsKey(_) => quiet(Said::Flag(false)),
        _ => quiet(Said::None),
    }
}

/// What a call on a present key is answered.
fn on_present<D: Deed<u64, u64, Answer = (u64, u64)>>(call: &Keyed<u64, u64, D>, old: u64) -> Told {
    match call {
        Keyed::Insert(key, new) | Keyed::InsertUntil(key, new) => {
            leaving(Said::Value(old), *key, Some(*new))
        }
        Keyed::Remove(key) | Keyed::RemoveUntil(key) => {
            leaving(Said::Pair(*key, old), *key, None)
        }
        Keyed::RemoveIf(key, deed) => {
            if deed.keep(key, &old) {
                quiet(Said::None)
            } else {
                leaving(Said::Pair(*key, old), *key, None)
            }
        }
        Keyed::RemoveIfMut(key, deed) => {
            let new = deed.effect(key, old);
            if deed.keep(key, &old) {
                leaving(Said::None, *key, Some(new))
            } else {
                leaving(Said::Pair(*key, new), *key, None)
            }
        }
        Keyed::Alter(key, deed) => leaving(Said::Done, *key, Some(deed.effect(key, old))),
        Keyed::View(key, deed) => quiet(Said::Read(deed.answer(key, &old))),
        Keyed::ContainsKey(_) => quiet(Said::Flag(true)),
    }
}

/// What an opening is answered that comes to its shard, by whether its key is there; and the guard that it gives.
pub fn opened(call: &Begin<u64>, is_there: bool) -> (Said<'static>, Option<Kind>) {
    match call {
        Begin::Entry(_) | Begin::TryEntry(_) if is_there => (Said::Held, Some(Kind::Occupied)),
        Begin::Entry(_) | Begin::TryEntry(_) => (Said::Vacant, Some(Kind::Vacant)),
        Begin::Get(_) | Begin::TryGet(_) | Begin::GetUntil(_) if is_there => {
            (Said::Held, Some(Kind::Shared))
        }
        _ if is_there => (Said::Held, Some(Kind::Exclusive)),
        _ => (Said::None, None),
    }
}

/// What a call is answered under a guard of a key that has that value, and the guard that is left.
pub fn held<D: Deed<u64, u64, Answer = (u64, u64)>>(
    call: &Held<u64, D>,
    kind: Kind,
    key: u64,
    value: u64,
) -> (Told, Option<Kind>) {
    match (call, kind) {
        (Held::Drop, _) => (quiet(Said::Done), None),
        (Held::IntoKey, Kind::Occupied | Kind::Vacant) => (quiet(Said::Key(key)), None),
        (Held::Insert(new), Kind::Vacant) => {
            (leaving(Said::Held, key, Some(*new)), Some(Kind::Exclusive))
        }
        (Held::Read(deed), Kind::Shared | Kind::Exclusive | Kind::Occupied) => {
            (quiet(Said::Read(deed.answer(&key, &value))), Some(kind))
        }
        (Held::Write(deed), Kind::Exclusive | Kind::Occupied) => {
            let new = deed.effect(&key, value);
            (leaving(Said::Done, key, Some(new)), Some(kind))
        }
        (Held::Downgrade, Kind::Exclusive) => (quiet(Said::Held), Some(Kind::Shared)),
        (call, Kind::Occupied) => occupied(call, key, value),
        (_, kind) => (quiet(Said::WrongGuard), Some(kind)),
    }
}

/// What a call is answered that is for occupied guards alone.
fn occupied<D>(call: &Held<u64, D>, key: u64, value: u64) -> (Told, Option<Kind>) {
    match call {
        Held::IntoRef => (quiet(Said::Held), Some(Kind::Exclusive)),
        Held::Insert(new) => {
            (
                leaving(Said::Value(value), key, Some(*new)),
                Some(Kind::Occupied),
            )
        }
        Held::Remove => (leaving(Said::Value(value), key, None), None),
        Held::RemoveEntry => (leaving(Said::Pair(key, value), key, None), None),
        Held::ReplaceEntry(new) => (leaving(Said::Pair(key, value), key, Some(*new)), None),
        _ => (quiet(Said::WrongGuard), Some(Kind::Occupied)),
    }
}

/// What a walk leaves of a pair, where it changes that.
pub fn visited<D: Deed<u64, u64>>(call: &Walk<D>, pair: (u64, u64)) -> Option<Left> {
    let (key, value) = pair;
    match call {
        Walk::IterMut(deed, _) | Walk::AlterAll(deed) => {
            Some((key, Some(deed.effect(&key, value))))
        }
        Walk::Retain(deed) if deed.keep(&key, &value) => {
            Some((key, Some(deed.effect(&key, value))))
        }
        Walk::Retain(_) | Walk::Clear => Some((key, None)),
        _ => None,
    }
}

/// What a walk is answered that has counted so many pairs, where it tells no reads and not how much room there is.
pub fn walked<D>(call: &Walk<D>, count: usize) -> Said<'static> {
    match call {
        Walk::Len => Said::Count(count),
        Walk::IsEmpty => Said::Flag(count == 0),
        _ => Said::Done,
    }
}
