//! Items that a closure is given, each with a party of its own, side by side.
ghost use Rattle.std.specs.Prelude.{◌≡◌, ◌<◌, List, [], ◌∷◌, ◌++◌, length, OnOk};
ghost use Rattle.std.specs.Option.{IsSome, IsSomeAnd};
ghost use Rattle.std.specs.Thread.{IsSync, IsSend};
ghost use Rattle.dashmap_parallel.specs.Gifts.{TookOn, EachBeside};

use std::alloc::Allocator;
use std::thread::{Threads, join_mut};

/// Items of which the last can be taken. What is below is generic in it, and not over a `Vec` of items: there the borrow
/// checker doesn't cover yet a closure that lends such an item, beside one that lends what is left.
pub(crate) trait Stack<X> {
    /// The items.
    ghost rest: { Self → List X };

    /// Takes the last item.
    fn take_last(&mut self) -> Option<X>
        requires some { 0 < length (rest self.old) }
        ensures last { IsSomeAnd result (λ x. rest self.old ≡ rest self.new ++ x ∷ []) };
}

impl<X, A: Allocator> Stack<X> for Vec<X, A> {
    ghost rest = { λ list. list.items };

    fn take_last(&mut self) -> Option<X> {
        self.pop()
    }
}

/// Gives a closure an item, with the first of some parties.
fn given_one<D, X: Drop, E, F: Fn(X, &mut D) -> Result<(), E>>(
    f: &F,
    item: &mut Option<X>,
    parties: &mut [D],
) -> Result<(), E>
    requires some { (length parties.old ≡ 1) × IsSome item.old }
    requires callable { F.IsAlwaysCallable f.now }
    ensures { OnOk result
        (IsSomeAnd item.old (λ x. EachBeside (TookOn F.Fn f.now) (x ∷ []) parties.old parties.new)) }
{
    match item.take() {
        Some(item) => f(item, &mut parties[0]),
        None => unreachable!(),
    }
}

/// Gives a closure each of some items, with the party that stands at its place, all side by side. All are given, also
/// where one is refused.
#[cycle(gifts)]
pub(crate) fn given_each<
    R: Threads + Sync,
    D: Send,
    X: Send + Drop,
    E: Send + Drop,
    S: Stack<X> + Send,
    F: Fn(X, &mut D) -> Result<(), E> + Sync,
>(rt: &R, f: &F, items: &mut S, parties: &mut [D]) -> Result<(), E>
    requires beside { length parties.old ≡ length (S.rest items.old) }
    requires callable { F.IsAlwaysCallable f.now }
    ensures { OnOk result (EachBeside (TookOn F.Fn f.now) (S.rest items.old) parties.old parties.new) }
{
    if parties.is_empty() {
        return Ok(());
    }
    let mut item = items.take_last();
    let (others, party) = parties.split_at_mut(parties.len() - 1);
    given_both(rt, f, items, others, &mut item, party)
}

/// Gives a closure the item that was taken and those that are left. A function of its own, so that what its closures
/// require is what it is given.
#[cycle(gifts)]
fn given_both<
    R: Threads + Sync,
    D: Send,
    X: Send + Drop,
    E: Send + Drop,
    S: Stack<X> + Send,
    F: Fn(X, &mut D) -> Result<(), E> + Sync,
>(
    rt: &R,
    f: &F,
    items: &mut S,
    others: &mut [D],
    item: &mut Option<X>,
    party: &mut [D],
) -> Result<(), E>
    requires beside { length others.old ≡ length (S.rest items.old) }
    requires alone { (length party.old ≡ 1) × IsSome item.old }
    requires callable { F.IsAlwaysCallable f.now }
    ensures { OnOk result
        (EachBeside (TookOn F.Fn f.now) (S.rest items.old) others.old others.new
        × IsSomeAnd item.old (λ x. EachBeside (TookOn F.Fn f.now) (x ∷ []) party.old party.new)) }
{
    let mut last = || -> Result<(), E>
        requires { (length party.now ≡ 1) × IsSome item.now × F.IsAlwaysCallable f.now }
        ensures { OnOk result (IsSomeAnd item.entry.now
            (λ x. EachBeside (TookOn F.Fn f.entry.now) (x ∷ []) party.entry.now party.exit.now)) }
    { given_one(f, item, party) };
    let mut rest = || -> Result<(), E>
        requires { IsSync R.row × IsSend D.row × IsSend X.row × IsSend E.row × IsSend S.row × IsSync F.row
            × (length others.now ≡ length (S.rest items.now)) × F.IsAlwaysCallable f.now }
        ensures { OnOk result
            (EachBeside (TookOn F.Fn f.entry.now) (S.rest items.entry.now) others.entry.now others.exit.now) }
    { given_each(rt, f, items, others) };
    let (last, rest) = join_mut(rt, &mut last, &mut rest);
    rest?;
    last
}
