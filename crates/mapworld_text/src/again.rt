//! Programs once more, since a world takes those that it is made of.
ghost use Rattle.std.specs.Prelude.{◌≡◌, map, IfOk};

use crate::case::Asked;
use crate::change::Change;
use mapworld_calls::{Ask, Begin, Held, Keyed, Walk};
use std::alloc::{AllocError, Global};

/// A call on one key.
fn keyed_again(call: &Keyed<u64, u64, Change>) -> Keyed<u64, u64, Change>
    ensures { result ≡ call.now }
{
    match call {
        Keyed::Insert(key, value) => Keyed::Insert(*key, *value),
        Keyed::Remove(key) => Keyed::Remove(*key),
        Keyed::RemoveIf(key, deed) => Keyed::RemoveIf(*key, *deed),
        Keyed::RemoveIfMut(key, deed) => Keyed::RemoveIfMut(*key, *deed),
        Keyed::Alter(key, deed) => Keyed::Alter(*key, *deed),
        Keyed::View(key, deed) => Keyed::View(*key, *deed),
        Keyed::ContainsKey(key) => Keyed::ContainsKey(*key),
        Keyed::InsertUntil(key, value) => Keyed::InsertUntil(*key, *value),
        Keyed::RemoveUntil(key) => Keyed::RemoveUntil(*key),
    }
}

/// An opening.
fn begin_again(call: &Begin<u64>) -> Begin<u64>
    ensures { result ≡ call.now }
{
    match call {
        Begin::Get(key) => Begin::Get(*key),
        Begin::GetMut(key) => Begin::GetMut(*key),
        Begin::Entry(key) => Begin::Entry(*key),
        Begin::TryGet(key) => Begin::TryGet(*key),
        Begin::TryGetMut(key) => Begin::TryGetMut(*key),
        Begin::TryEntry(key) => Begin::TryEntry(*key),
        Begin::GetUntil(key) => Begin::GetUntil(*key),
        Begin::GetMutUntil(key) => Begin::GetMutUntil(*key),
    }
}

/// A call on a guard.
fn held_again(call: &Held<u64, Change>) -> Held<u64, Change>
    ensures { result ≡ call.now }
{
    match call {
        Held::Read(deed) => Held::Read(*deed),
        Held::Write(deed) => Held::Write(*deed),
        Held::Downgrade => Held::Downgrade,
        Held::Insert(value) => Held::Insert(*value),
        Held::IntoRef => Held::IntoRef,
        Held::Remove => Held::Remove,
        Held::RemoveEntry => Held::RemoveEntry,
        Held::ReplaceEntry(value) => Held::ReplaceEntry(*value),
        Held::IntoKey => Held::IntoKey,
        Held::Drop => Held::Drop,
    }
}

/// A walk.
fn walk_again(call: &Walk<Change>) -> Walk<Change>
    ensures { result ≡ call.now }
{
    match call {
        Walk::Iter(deed, stop) => Walk::Iter(*deed, *stop),
        Walk::IterMut(deed, stop) => Walk::IterMut(*deed, *stop),
        Walk::Retain(deed) => Walk::Retain(*deed),
        Walk::AlterAll(deed) => Walk::AlterAll(*deed),
        Walk::Clear => Walk::Clear,
        Walk::Len => Walk::Len,
        Walk::IsEmpty => Walk::IsEmpty,
        Walk::Capacity => Walk::Capacity,
        Walk::ShrinkToFit => Walk::ShrinkToFit,
    }
}

/// A call.
fn ask_again(ask: &Asked) -> Asked
    ensures { result ≡ ask.now }
{
    match ask {
        Ask::Keyed(call) => Ask::Keyed(keyed_again(call)),
        Ask::Begin(call) => Ask::Begin(begin_again(call)),
        Ask::Held(call) => Ask::Held(held_again(call)),
        Ask::Walk(call) => Ask::Walk(walk_again(call)),
    }
}

/// A program.
fn program_again(alloc: Global, program: &[Asked]) -> Result<Vec<Asked>, AllocError>
    ensures { IfOk result (λ again. again.items ≡ program.now) }
{
    let mut again = Vec::with_capacity(alloc, program.len())?;
    for ask in program {
        again.push(ask_again(ask))?;
    }
    Ok(again)
}

/// All programs once more, for a world that is made of them while the text's own stay. `AllocError` for want of memory.
///
/// ```text
/// let world = MapWorld::new(alloc, 2, hasher, pairs, programs_again(alloc, &case.programs)?)?;
/// ```
pub fn programs_again(alloc: Global, programs: &[Vec<Asked>]) -> Result<Vec<Vec<Asked>>, AllocError>
    ensures { IfOk result
        (λ again. map (λ program. program.items) again.items ≡ map (λ program. program.items) programs.now) }
{
    let mut again = Vec::with_capacity(alloc, programs.len())?;
    for program in programs {
        again.push(program_again(alloc, program)?)?;
    }
    Ok(again)
}
