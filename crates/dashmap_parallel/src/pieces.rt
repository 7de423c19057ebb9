//! Items that are visited in pieces, each piece by one party.
ghost use Rattle.std.specs.Prelude.{◌≡◌, ◌<◌, All, length};
ghost use Rattle.dashmap_parallel.specs.Visits.{VisitsBy, piece};

use dashmap_view::parallel::first_of;
use std::thread;
use std::thread::Threads;

/// The items of a piece.
fn items_of<T>(items: &[T], pieces: usize, number: usize) -> &[T]
    requires { number < pieces }
    ensures { result.now ≡ piece items.now pieces number }
{
    let from = first_of(items.len(), pieces, number);
    let to = first_of(items.len(), pieces, number + 1);
    let (_, rest) = items.split_at(from);
    let (mine, _) = rest.split_at(to - from);
    mine
}

/// Visits items, one after another.
fn visit_all<T, D, F: Fn(&T, &mut D)>(items: &[T], party: &mut D, f: &F)
    requires { F.IsAlwaysCallable f.now }
    ensures { All (VisitsBy F.Fn f.now) items.now }
{
    for item in items {
        f(item, party);
    }
}

/// Visits each item, pieces side by side: there is one for each party, contiguous, and the larger ones first.
pub(crate) fn in_pieces<R: Threads + Sync, T: Sync, D: Send, F: Fn(&T, &mut D) + Sync>(
    rt: &R,
    items: &[T],
    parties: &mut [D],
    f: &F,
)
    requires some { 0 < length parties.old }
    requires callable { F.IsAlwaysCallable f.now }
    ensures { All (VisitsBy F.Fn f.now) items.now }
{
    let pieces = parties.len();
    let part = |number: usize, party: &mut D|
        requires { (number < pieces) × F.IsAlwaysCallable f.now }
        ensures { All (VisitsBy F.Fn f.entry.now) (piece items.entry.now pieces number) }
    { visit_all(items_of(items, pieces, number), party, f) };
    thread::for_each_mut(rt, parties, pieces, &part);
}
