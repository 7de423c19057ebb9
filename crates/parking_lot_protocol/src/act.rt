//! What a decision core asks for, and what it is told of it.
ghost use Rattle.std.specs.Prelude.{◌≡◌};
ghost use Rattle.parking_lot_protocol.specs.Acts.{change_of, is_start, is_entered, is_made, word_seen, exchange_seen};
ghost use Rattle.parking_lot_protocol.specs.Acts.{spun_seen, took_seen, stored_seen, woken_seen};

use parking_lot_core_model::{ParkToken, UnparkToken};

/// The token with which a lock is handed over to those that are woken: they own it, or its first part, at once.
pub const HAND_OVER: UnparkToken = UnparkToken(1);

/// The token of those that are woken to try again.
pub const TRY_AGAIN: UnparkToken = UnparkToken(0);

/// What a core does next.
#[derive(Clone, Copy, PartialEq, Eq, Debug)]
pub enum Act {
    /// Load the word.
    Load,
    /// Compare and exchange the word, from the first to the second.
    Exchange(u64, u64),
    /// Add to the word, modulo 2^64.
    Add(u64),
    /// Keep those bits of the word.
    FetchAnd(u64),
    /// Wait for a round of spinning, unless there were enough.
    Spin,
    /// Enter the section of a key of the row: 0 is the first, 1 the second.
    Enter(u8),
    /// An act in the section, or a wake after it.
    Section(SectionAct),
    /// Sleep until another thread wakes this one.
    Sleep,
    /// The call is over.
    Done(CoreAnswer),
}

/// An act in a section, or a wake after it.
#[derive(Clone, Copy, PartialEq, Eq, Debug)]
pub enum SectionAct {
    /// Load the word, to see whether to sleep.
    Check,
    /// Take the first waiter, whatever its token.
    TakeFirst,
    /// Take the next waiter that [`wake_sum`](crate::wake_sum) lets go at this sum.
    TakeNext(u64),
    /// Join the end of the list with that token.
    Append(ParkToken),
    /// Change the word by one of the two, as this release is plain or fair.
    Store { plain: WordChange, fair: WordChange },
    /// Leave the section.
    Leave,
    /// Wake one of those that the section took, in their order.
    Wake,
}

/// A change of a word: the bits that stay, and what is added to them, modulo 2^64. With no bit that stays it stores
/// `add`.
#[derive(Clone, Copy, PartialEq, Eq, Debug)]
pub struct WordChange {
    /// The bits that stay.
    pub keep: u64,
    /// What is added.
    pub add: u64,
}

impl WordChange {
    /// The new word.
    pub fn of(&self, word: u64) -> u64
        ensures { result ≡ change_of self.now word }
    {
        (word & self.keep).wrapping_add(self.add)
    }
}

/// What the last act gave.
#[derive(Clone, Copy, PartialEq, Eq, Debug)]
pub enum ActResult {
    /// Nothing yet: the call begins.
    Start,
    /// A load, a check or a lost exchange saw this word.
    Word(u64),
    /// The exchange was won.
    Exchanged,
    /// An add or a mask found this word.
    Before(u64),
    /// Whether a round was spun.
    Spun(bool),
    /// The section is entered.
    Entered,
    /// The token of the waiter that was taken, if one was, and whether waiters are left.
    Took {
        token: Option<ParkToken>,
        left: bool,
    },
    /// Which of the two changes was made.
    Stored {
        fair: bool,
    },
    /// The act was made.
    Made,
    /// Another thread woke this one, with that token.
    Woken(UnparkToken),
}

/// How a call ended.
#[derive(Clone, Copy, PartialEq, Eq, Debug)]
pub enum CoreAnswer {
    /// The caller owns what it asked for.
    Owned,
    /// A try found the lock taken; or the core was told what its act can't give.
    Refused,
    /// What the caller owned is given up.
    Released,
}

/// What a taking gave.
#[derive(Clone, Copy)]
pub(crate) struct Taking {
    /// The token of the one that was taken.
    pub token: Option<ParkToken>,
    /// Whether waiters are left.
    pub left: bool,
}

/// What is seen, by the kind of act that gives it.
impl ActResult {
    /// The call begins.
    pub(crate) fn is_start(self) -> bool
        ensures { result ≡ is_start self }
    {
        match self {
            ActResult::Start => true,
            ActResult::Word(_)
            | ActResult::Exchanged
            | ActResult::Before(_)
            | ActResult::Spun(_)
            | ActResult::Entered
            | ActResult::Took { .. }
            | ActResult::Stored { .. }
            | ActResult::Made
            | ActResult::Woken(_) => false,
        }
    }

    /// The section is entered.
    pub(crate) fn is_entered(self) -> bool
        ensures { result ≡ is_entered self }
    {
        match self {
            ActResult::Entered => true,
            ActResult::Start
            | ActResult::Word(_)
            | ActResult::Exchanged
            | ActResult::Before(_)
            | ActResult::Spun(_)
            | ActResult::Took { .. }
            | ActResult::Stored { .. }
            | ActResult::Made
            | ActResult::Woken(_) => false,
        }
    }

    /// The act was made.
    pub(crate) fn is_made(self) -> bool
        ensures { result ≡ is_made self }
    {
        match self {
            ActResult::Made => true,
            ActResult::Start
            | ActResult::Word(_)
            | ActResult::Exchanged
            | ActResult::Before(_)
            | ActResult::Spun(_)
            | ActResult::Entered
            | ActResult::Took { .. }
            | ActResult::Stored { .. }
            | ActResult::Woken(_) => false,
        }
    }

    /// A word that a load or a check saw.
    pub(crate) fn word(self) -> Option<u64>
        ensures { result ≡ word_seen self }
    {
        match self {
            ActResult::Word(word) => Some(word),
            ActResult::Start
            | ActResult::Exchanged
            | ActResult::Before(_)
            | ActResult::Spun(_)
            | ActResult::Entered
            | ActResult::Took { .. }
            | ActResult::Stored { .. }
            | ActResult::Made
            | ActResult::Woken(_) => None,
        }
    }

    /// Whether an exchange was won, and else the word that it saw.
    pub(crate) fn exchange(self) -> Option<Result<(), u64>>
        ensures { result ≡ exchange_seen self }
    {
        match self {
            ActResult::Word(word) => Some(Err(word)),
            ActResult::Exchanged => Some(Ok(())),
            ActResult::Start
            | ActResult::Before(_)
            | ActResult::Spun(_)
            | ActResult::Entered
            | ActResult::Took { .. }
            | ActResult::Stored { .. }
            | ActResult::Made
            | ActResult::Woken(_) => None,
        }
    }

    /// Whether a round was spun.
    pub(crate) fn spun(self) -> Option<bool>
        ensures { result ≡ spun_seen self }
    {
        match self {
            ActResult::Spun(spun) => Some(spun),
            ActResult::Start
            | ActResult::Word(_)
            | ActResult::Exchanged
            | ActResult::Before(_)
            | ActResult::Entered
            | ActResult::Took { .. }
            | ActResult::Stored { .. }
            | ActResult::Made
            | ActResult::Woken(_) => None,
        }
    }

    /// What a taking gave.
    pub(crate) fn took(self) -> Option<Taking>
        ensures { result ≡ took_seen self }
    {
        match self {
            ActResult::Took { token, left } => Some(Taking { token, left }),
            ActResult::Start
            | ActResult::Word(_)
            | ActResult::Exchanged
            | ActResult::Before(_)
            | ActResult::Spun(_)
            | ActResult::Entered
            | ActResult::Stored { .. }
            | ActResult::Made
            | ActResult::Woken(_) => None,
        }
    }

    /// Which of the two changes was made.
    pub(crate) fn stored(self) -> Option<bool>
        ensures { result ≡ stored_seen self }
    {
        match self {
            ActResult::Stored { fair } => Some(fair),
            ActResult::Start
            | ActResult::Word(_)
            | ActResult::Exchanged
            | ActResult::Before(_)
            | ActResult::Spun(_)
            | ActResult::Entered
            | ActResult::Took { .. }
            | ActResult::Made
            | ActResult::Woken(_) => None,
        }
    }

    /// The token of a wake.
    pub(crate) fn woken(self) -> Option<UnparkToken>
        ensures { result ≡ woken_seen self }
    {
        match self {
            ActResult::Woken(token) => Some(token),
            ActResult::Start
            | ActResult::Word(_)
            | ActResult::Exchanged
            | ActResult::Before(_)
            | ActResult::Spun(_)
            | ActResult::Entered
            | ActResult::Took { .. }
            | ActResult::Stored { .. }
            | ActResult::Made => None,
        }
    }
}
