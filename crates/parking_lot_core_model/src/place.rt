//! Where the threads of a lot stand, and what an open section has done.
ghost use Rattle.std.specs.Prelude.{◌≡◌, ℕ, Some};
ghost use Rattle.parking_lot_core_model.specs.Places.{sleeps_timed, may_return, has_slept, taken_with, mark_of, is_due};
ghost use Rattle.parking_lot_core_model.specs.Places.{roused, late, status_of, may_check, may_join, may_take};
ghost use Rattle.parking_lot_core_model.specs.Places.{may_store, has_joined, passed_of, held_at};
ghost use Rattle.parking_lot_core_model.specs.declared.parking.UnparkToken.{UnparkToken};

use crate::lists::Numbered;
use crate::parking::{ParkToken, UnparkToken};

/// Where a registered thread of a [`Lot`](crate::Lot) stands.
#[derive(Clone, Copy, PartialEq, Eq, Debug)]
pub enum ThreadStatus {
    /// Outside every section and every list.
    Running,
    /// Between `enter` and `leave`.
    InSection,
    /// In a list.
    Waiting {
        /// The key of the list.
        key: usize,
        /// Whether its sleep has a deadline.
        timed: bool,
    },
    /// Its deadline has come. It may still stand in its list, or have been taken since.
    PastDeadline,
    /// Taken by another thread with this token, and not resumed yet.
    Taken(UnparkToken),
}

/// One sleep of a thread.
#[derive(Clone, Copy, PartialEq, Eq, Debug)]
pub struct Sleep {
    /// What tells the sleep from the lot's others: their count so far, modulo 2^64.
    pub mark: u64,
    /// Whether it has a deadline.
    pub timed: bool,
    /// Whether the deadline has come.
    pub late: bool,
}

/// What a lot keeps of a registered thread: a [`ThreadStatus`] with the sleep that it belongs to.
#[derive(Clone, Copy, PartialEq, Eq, Debug)]
pub enum Place {
    /// Outside every list.
    Running,
    /// In the key's list.
    Waiting(usize, Sleep),
    /// Taken out of the key's list by a section that is open, and hasn't given its token yet.
    Held(usize, Sleep),
    /// Taken with that token out of the key's list. The flag says whether it was woken.
    Taken(UnparkToken, usize, Sleep, bool),
}

/// A thread in a list, with the token that it parked with.
#[derive(Clone, Copy, PartialEq, Eq, Debug)]
pub struct Waiter {
    /// The thread.
    pub thread: usize,
    /// The token that it parked with.
    pub token: ParkToken,
}

impl Numbered for usize {
    ghost number_of = { λ key. key };

    fn number(&self) -> usize {
        *self
    }
}

/// A thread that a section took out of its list.
#[derive(Clone, Copy, PartialEq, Eq, Debug)]
pub struct Taking {
    /// The thread.
    pub thread: usize,
    /// The token that it parked with.
    pub token: ParkToken,
    /// The mark of the sleep that it was taken out of, for [`Lot::wake`](crate::Lot::wake).
    pub mark: u64,
}

/// How far a section has come.
#[derive(Clone, Copy, PartialEq, Eq, Debug)]
pub(crate) enum Phase {
    /// Nothing was done in it.
    Fresh,
    /// Its validation answered true.
    Valid,
    /// Its validation answered false.
    Invalid,
    /// Its thread has joined the list.
    Joined,
    /// It has passed that many waiters.
    Taking(usize),
    /// Its taking is over.
    Ended,
    /// Its store was said.
    Stored,
}

/// An open section.
#[derive(Clone, Copy, PartialEq, Eq, Debug)]
pub(crate) struct Section {
    /// Whose it is; none of an operation that is done whole.
    pub thread: Option<usize>,
    pub key: usize,
    pub phase: Phase,
    /// What those that it took are told.
    pub token: UnparkToken,
}

impl Place {
    /// Whether the thread sleeps in a timed wait whose deadline hasn't come.
    pub(crate) fn sleeps_timed(self) -> bool
        ensures { result ≡ sleeps_timed self }
    {
        match self {
            Place::Waiting(_, sleep) | Place::Held(_, sleep) | Place::Taken(_, _, sleep, false) => {
                sleep.timed && !sleep.late
            }
            _ => false,
        }
    }

    /// Whether the thread sleeps, and may come back into a section of that key.
    pub(crate) fn may_return(self, key: usize) -> bool
        ensures { result ≡ may_return key self }
    {
        match self {
            Place::Waiting(list, _) => list == key,
            Place::Taken(_, list, _, woken) => list == key && !woken,
            _ => false,
        }
    }

    /// Whether the thread fell asleep, and doesn't run again yet.
    pub(crate) fn has_slept(self) -> bool
        ensures { result ≡ has_slept self }
    {
        matches!(self, Place::Waiting(_, _) | Place::Taken(_, _, _, _))
    }

    /// The token that the thread was taken with.
    pub(crate) fn taken_with(self) -> Option<UnparkToken>
        ensures { result ≡ taken_with self }
    {
        match self {
            Place::Taken(token, _, _, _) => Some(token),
            _ => None,
        }
    }

    /// Whether the thread was taken out of the sleep with that mark, and isn't woken.
    pub(crate) fn is_due(self, mark: u64) -> bool
        ensures { result ≡ is_due mark self }
    {
        match self {
            Place::Taken(_, _, sleep, woken) => sleep.mark == mark && !woken,
            _ => false,
        }
    }

    /// The mark of the sleep that it belongs to; 0 of a running thread.
    pub(crate) fn mark(self) -> u64
        ensures { result ≡ mark_of self }
    {
        match self {
            Place::Running => 0,
            Place::Waiting(_, sleep) | Place::Held(_, sleep) | Place::Taken(_, _, sleep, _) => {
                sleep.mark
            }
        }
    }

    /// The same once a taken thread is woken.
    pub(crate) fn roused(self) -> Place
        ensures { result ≡ roused self }
    {
        match self {
            Place::Taken(token, key, sleep, _) => Place::Taken(token, key, sleep, true),
            other => other,
        }
    }

    /// The same once its deadline has come.
    pub(crate) fn late(self) -> Place
        ensures { result ≡ late self }
    {
        match self {
            Place::Running => Place::Running,
            Place::Waiting(key, sleep) => Place::Waiting(
                key,
                Sleep {
                    late: true,
                    ..sleep
                },
            ),
            Place::Held(key, sleep) => Place::Held(
                key,
                Sleep {
                    late: true,
                    ..sleep
                },
            ),
            Place::Taken(token, key, sleep, woken) => {
                Place::Taken(
                    token,
                    key,
                    Sleep {
                        late: true,
                        ..sleep
                    },
                    woken,
                )
            }
        }
    }

    /// What is told of it, where those that a section holds are to be told that token.
    pub(crate) fn status(self, token: UnparkToken) -> ThreadStatus
        ensures { (told : ℕ → UnparkToken) → ((key : ℕ) → held_at self ≡ Some key → told key ≡ token)
            → result ≡ status_of told self }
    {
        match self {
            Place::Running => ThreadStatus::Running,
            Place::Waiting(_, sleep) | Place::Held(_, sleep) | Place::Taken(_, _, sleep, _)
                if sleep.late => { ThreadStatus::PastDeadline }
            Place::Waiting(key, sleep) => ThreadStatus::Waiting {
                key,
                timed: sleep.timed,
            },
            Place::Held(_, _) => ThreadStatus::Taken(token),
            Place::Taken(told, _, _, _) => ThreadStatus::Taken(told),
        }
    }

    /// The key of the list that it was taken out of, while a section holds it.
    pub(crate) fn held_at(self) -> Option<usize>
        ensures { result ≡ held_at self }
    {
        match self {
            Place::Held(key, _) => Some(key),
            _ => None,
        }
    }
}

impl Phase {
    /// Whether nothing was done in the section.
    pub fn may_check(self) -> bool
        ensures { result ≡ may_check self }
    {
        matches!(self, Phase::Fresh)
    }

    /// Whether the section may join its thread to the list.
    pub fn may_join(self) -> bool
        ensures { result ≡ may_join self }
    {
        matches!(self, Phase::Fresh | Phase::Valid)
    }

    /// Whether the section may look for a waiter to take.
    pub fn may_take(self) -> bool
        ensures { result ≡ may_take self }
    {
        matches!(self, Phase::Fresh | Phase::Valid | Phase::Taking(_))
    }

    /// Whether the section may say its store.
    pub fn may_store(self) -> bool
        ensures { result ≡ may_store self }
    {
        matches!(
            self,
            Phase::Fresh | Phase::Valid | Phase::Taking(_) | Phase::Ended
        )
    }

    /// Whether its thread stands in the list.
    pub fn has_joined(self) -> bool
        ensures { result ≡ has_joined self }
    {
        matches!(self, Phase::Joined)
    }

    /// How many waiters it has passed.
    pub fn passed(self) -> usize
        ensures { result ≡ passed_of self }
    {
        match self {
            Phase::Taking(passed) => passed,
            _ => 0,
        }
    }
}
