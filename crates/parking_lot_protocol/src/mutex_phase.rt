//! Where a call at a mutex stands.
ghost use Rattle.std.specs.Prelude.{◌≡◌, ◌==◌, ◌+◌, ◌*◌, ◌-◌, ◌/◌, ◌%◌, ◌&&◌, ◌||◌, true, is_some, if◌then◌else◌};
ghost use Rattle.parking_lot_protocol.specs.declared.act.Act.TheVariants as act;
ghost use Rattle.parking_lot_protocol.specs.declared.act.CoreAnswer.TheVariants.{Owned, Released};
ghost use Rattle.parking_lot_protocol.specs.declared.mutex_phase.MutexPhase.TheVariants.{Loads, Locks, Parks, Enters};
ghost use Rattle.parking_lot_protocol.specs.declared.mutex_phase.MutexPhase.TheVariants.{Appends, Retreats, Relocks};
ghost use Rattle.parking_lot_protocol.specs.declared.mutex_phase.MutexPhase.TheVariants.{Unlocks, Looks, Stores};
ghost use Rattle.parking_lot_protocol.specs.declared.mutex_phase.MutexPhase.TheVariants.{Leaves, Wakes, Finishes, Ends};
ghost use Rattle.parking_lot_protocol.specs.MutexTable.{act_of, after, begins, once, retries, seeks, store_of, tries};
ghost use Rattle.parking_lot_protocol.specs.MutexTable.{won_or};
ghost use Rattle.parking_lot_rules.specs.Classes.{bit};

use crate::act::{Act, ActResult, CoreAnswer, HAND_OVER, SectionAct, Taking, WordChange};
use parking_lot_core_model::{DEFAULT_PARK_TOKEN, UnparkToken};

/// How many rounds a call spins before it sets the parked bit.
pub(crate) const ROUNDS: u8 = 10;

/// How many exchanges a try makes at most.
pub(crate) const TRIES: u8 = 64;

/// One that asks for the lock: whether it was woken to ask again, and how many rounds it may still spin before it goes
/// to sleep.
#[derive(Clone, Copy, PartialEq, Eq, Debug)]
pub struct Asking {
    pub woken: bool,
    pub rounds: u8,
}

/// One that gives the lock up: whether it hands it over to the first waiter whatever the schedule says, and whether it
/// asks for it again after that.
#[derive(Clone, Copy, PartialEq, Eq, Debug)]
pub struct Giving {
    pub fair: bool,
    pub again: bool,
}

/// Where a call stands: it has asked for the act that the case names, and waits for what it gives.
#[derive(Clone, Copy, PartialEq, Eq, Debug)]
pub enum MutexPhase {
    /// A call that asks for the lock, one that tries, one that gives it up, and a bump, before they begin.
    Locking,
    Trying,
    Unlocking(bool),
    Bumping,
    /// On the way to the lock: a load; the exchange that locks it, from 0 or with waiters there; a round of spinning;
    /// the exchange that sets the parked bit.
    Loads(Asking),
    Locks(Asking, bool),
    Spins(Asking),
    Parks(Asking),
    /// The section in which it goes to sleep: it enters, checks, and leaves at once; or it joins the list, leaves and
    /// sleeps.
    Enters(bool),
    Checks(bool),
    Retreats(bool),
    Appends,
    Rests,
    Sleeps,
    /// A try: a load, and exchanges, of which so many may still be lost; it is refused.
    TryLoads,
    TryLocks(bool, u8),
    Refuses,
    /// A bump looks for waiters; it begins to ask again.
    BumpLoads,
    Relocks,
    /// The lock is given up: the exchange that unlocks it; else a section in which the first waiter is taken, with
    /// whether one was and others are left; a wake; the end.
    Unlocks(Giving),
    Looks(Giving),
    Takes(Giving),
    Stores(Giving, bool, bool),
    Leaves(Giving, bool, bool),
    Wakes(Giving),
    Finishes(Giving),
    /// The call is over, or was told what its act can't give.
    Ends(CoreAnswer),
    Invalid,
}

/// One that asks, and may spin for as long as one that begins.
fn begins(woken: bool) -> Asking
    ensures { result ≡ begins woken }
{
    Asking {
        woken,
        rounds: ROUNDS,
    }
}

/// One that asks has seen the word: it locks an unlocked mutex, waits a while for a locked one where nobody else waits,
/// and else goes to sleep.
fn seeks(asking: Asking, word: u64) -> MutexPhase
    ensures { result ≡ seeks asking word }
{
    if word == 0 {
        MutexPhase::Locks(asking, false)
    } else if word == 2 {
        MutexPhase::Locks(asking, true)
    } else if word == 1 {
        if asking.rounds > 0 {
            MutexPhase::Spins(asking)
        } else {
            MutexPhase::Parks(asking)
        }
    } else {
        MutexPhase::Enters(asking.woken)
    }
}

/// One that tries has seen the word, and may make so many exchanges after the next.
fn tries(left: u8, word: u64) -> MutexPhase
    ensures { result ≡ tries left word }
{
    if word == 0 {
        MutexPhase::TryLocks(false, left)
    } else if word == 2 {
        MutexPhase::TryLocks(true, left)
    } else {
        MutexPhase::Refuses
    }
}

/// One that tries has lost an exchange.
fn retries(left: u8, word: u64) -> MutexPhase
    ensures { result ≡ retries left word }
{
    if left > 0 {
        tries(left - 1, word)
    } else {
        MutexPhase::Refuses
    }
}

/// The exchange that locks the mutex, from 0 or with waiters there.
fn locks(waiters: bool) -> Act
    ensures { result ≡ act.Exchange (2 * bit waiters) (2 * bit waiters + 1) }
{
    if waiters {
        Act::Exchange(2, 3)
    } else {
        Act::Exchange(0, 1)
    }
}

/// An exchange that locks the mutex was won, or lost to this word.
fn locks_or(outcome: Result<(), u64>, asking: Asking) -> MutexPhase
    ensures { result ≡ won_or (Ends Owned) (seeks asking) outcome }
{
    match outcome {
        Ok(()) => MutexPhase::Ends(CoreAnswer::Owned),
        Err(word) => seeks(asking, word),
    }
}

/// An exchange that sets the parked bit was won, or lost to this word.
fn parks_or(outcome: Result<(), u64>, asking: Asking) -> MutexPhase
    ensures { result ≡ won_or (Enters asking.woken) (seeks asking) outcome }
{
    match outcome {
        Ok(()) => MutexPhase::Enters(asking.woken),
        Err(word) => seeks(asking, word),
    }
}

/// A try's exchange was won, or lost to this word.
fn try_locks_or(outcome: Result<(), u64>, left: u8) -> MutexPhase
    ensures { result ≡ won_or (Ends Owned) (retries left) outcome }
{
    match outcome {
        Ok(()) => MutexPhase::Ends(CoreAnswer::Owned),
        Err(word) => retries(left, word),
    }
}

/// The exchange that unlocks the mutex was won, or waiters are there.
fn unlocks_or(outcome: Result<(), u64>, giving: Giving) -> MutexPhase
    ensures { result ≡ won_or (if giving.again then Relocks else Ends Released) (λ word. Looks giving) outcome }
{
    match outcome {
        Ok(()) if giving.again => MutexPhase::Relocks,
        Ok(()) => MutexPhase::Ends(CoreAnswer::Released),
        Err(_) => MutexPhase::Looks(giving),
    }
}

/// A round was spun, or there were enough.
fn spins(asking: Asking, spun: bool) -> MutexPhase
    ensures { result ≡ (if spun then Loads (record asking { rounds = asking.rounds - 1 }) else Parks asking) }
{
    if spun {
        let rounds = asking.rounds.saturating_sub(1);
        MutexPhase::Loads(Asking { rounds, ..asking })
    } else {
        MutexPhase::Parks(asking)
    }
}

/// The word was looked at in the section: 3 is locked, with the parked bit.
fn checks(woken: bool, word: u64) -> MutexPhase
    ensures { result ≡ (if word == 3 then Appends else Retreats woken) }
{
    if word == 3 {
        MutexPhase::Appends
    } else {
        MutexPhase::Retreats(woken)
    }
}

/// It was woken: it owns the lock that was handed over, or begins to ask again.
fn wakes(token: UnparkToken) -> MutexPhase
    ensures { result ≡ (if token.0 == 1 then Ends Owned else Loads (begins true)) }
{
    if token.0 == HAND_OVER.0 {
        MutexPhase::Ends(CoreAnswer::Owned)
    } else {
        MutexPhase::Loads(begins(true))
    }
}

/// A bump has seen the word: it gives the lock up where threads may wait.
fn bumps(word: u64) -> MutexPhase
    ensures { result ≡ (if word / 2 % 2 == 1 then Unlocks (record { fair = true; again = true }) else Ends Owned) }
{
    if (word / 2) % 2 == 1 {
        MutexPhase::Unlocks(Giving {
            fair: true,
            again: true,
        })
    } else {
        MutexPhase::Ends(CoreAnswer::Owned)
    }
}

/// The first waiter was taken, if there was one.
fn takes(giving: Giving, taking: Taking) -> MutexPhase
    ensures { result ≡ Stores giving (is_some taking.token) taking.left }
{
    MutexPhase::Stores(giving, taking.token.is_some(), taking.left)
}

/// The word is stored. The lock is handed over where somebody was taken, and the release is fair.
fn stores(giving: Giving, taken: bool, fair: bool) -> MutexPhase
    ensures { result ≡ Leaves giving taken (taken && (giving.fair || fair)) }
{
    MutexPhase::Leaves(giving, taken, taken && (giving.fair || fair))
}

/// The section is left.
fn leaves(giving: Giving, taken: bool) -> MutexPhase
    ensures { result ≡ (if taken then Wakes giving else Finishes giving) }
{
    if taken {
        MutexPhase::Wakes(giving)
    } else {
        MutexPhase::Finishes(giving)
    }
}

/// All is done, and a bump begins to ask again.
fn finishes(giving: Giving, seen: ActResult) -> Option<MutexPhase>
    ensures { result ≡ after (Finishes giving) seen }
{
    if giving.again {
        let _word = seen.word()?;
        Some(MutexPhase::Relocks)
    } else {
        None
    }
}

/// The phase, if that was seen.
fn once(seen: bool, phase: MutexPhase) -> Option<MutexPhase>
    ensures { result ≡ once seen phase }
{
    if seen { Some(phase) } else { None }
}

/// The store of a release: the lock stays locked where it is handed over, and the parked bit stays where waiters are
/// left.
fn store_of(handed: bool, left: bool) -> WordChange
    ensures { result ≡ store_of handed left }
{
    WordChange {
        keep: 0,
        add: u64::from(handed) + 2 * u64::from(left),
    }
}

impl MutexPhase {
    /// The act that it has asked for. Before it begins, and where it was told what its act can't give, it asks for
    /// nothing.
    pub fn act(self) -> Act
        ensures { result ≡ act_of self }
    {
        match self {
            MutexPhase::Loads(_) | MutexPhase::TryLoads => Act::Load,
            MutexPhase::BumpLoads | MutexPhase::Relocks => Act::Load,
            MutexPhase::Locks(_, waiters) | MutexPhase::TryLocks(waiters, _) => locks(waiters),
            MutexPhase::Spins(_) => Act::Spin,
            MutexPhase::Parks(_) => Act::Exchange(1, 3),
            MutexPhase::Enters(_) | MutexPhase::Looks(_) => Act::Enter(0),
            MutexPhase::Checks(_) => Act::Section(SectionAct::Check),
            MutexPhase::Appends => Act::Section(SectionAct::Append(DEFAULT_PARK_TOKEN)),
            MutexPhase::Sleeps => Act::Sleep,
            MutexPhase::Unlocks(_) => Act::Exchange(1, 0),
            MutexPhase::Takes(_) => Act::Section(SectionAct::TakeFirst),
            MutexPhase::Stores(giving, taken, left) => Act::Section(SectionAct::Store {
                plain: store_of(giving.fair && taken, left),
                fair: store_of(taken, left),
            }),
            MutexPhase::Retreats(_) | MutexPhase::Rests | MutexPhase::Leaves(..) => Act::Section(
                SectionAct::Leave,
            ),
            MutexPhase::Wakes(_) => Act::Section(SectionAct::Wake),
            MutexPhase::Finishes(Giving { again: true, .. }) => Act::Load,
            MutexPhase::Finishes(_) => Act::Done(CoreAnswer::Released),
            MutexPhase::Ends(answer) => Act::Done(answer),
            MutexPhase::Locking | MutexPhase::Trying => Act::Done(CoreAnswer::Refused),
            MutexPhase::Unlocking(_) | MutexPhase::Bumping => Act::Done(CoreAnswer::Refused),
            MutexPhase::Refuses | MutexPhase::Invalid => Act::Done(CoreAnswer::Refused),
        }
    }

    /// The phase that follows what the act of this one gave; `None` where the act can't give that.
    pub fn after(self, seen: ActResult) -> Option<MutexPhase>
        ensures { result ≡ after self seen }
    {
        match self {
            MutexPhase::Locking => once(seen.is_start(), MutexPhase::Loads(begins(false))),
            MutexPhase::Trying => once(seen.is_start(), MutexPhase::TryLoads),
            MutexPhase::Unlocking(fair) => once(
                seen.is_start(),
                MutexPhase::Unlocks(Giving { fair, again: false }),
            ),
            MutexPhase::Bumping => once(seen.is_start(), MutexPhase::BumpLoads),
            MutexPhase::Loads(asking) => Some(seeks(asking, seen.word()?)),
            MutexPhase::Locks(asking, _) => Some(locks_or(seen.exchange()?, asking)),
            MutexPhase::Spins(asking) => Some(spins(asking, seen.spun()?)),
            MutexPhase::Parks(asking) => Some(parks_or(seen.exchange()?, asking)),
            MutexPhase::Enters(woken) => once(seen.is_entered(), MutexPhase::Checks(woken)),
            MutexPhase::Checks(woken) => Some(checks(woken, seen.word()?)),
            MutexPhase::Retreats(woken) => once(seen.is_made(), MutexPhase::Loads(begins(woken))),
            MutexPhase::Appends => once(seen.is_made(), MutexPhase::Rests),
            MutexPhase::Rests => once(seen.is_made(), MutexPhase::Sleeps),
            MutexPhase::Sleeps => Some(wakes(seen.woken()?)),
            MutexPhase::TryLoads => Some(tries(TRIES - 1, seen.word()?)),
            MutexPhase::TryLocks(_, left) => Some(try_locks_or(seen.exchange()?, left)),
            MutexPhase::BumpLoads => Some(bumps(seen.word()?)),
            MutexPhase::Relocks => Some(seeks(begins(false), seen.word()?)),
            MutexPhase::Unlocks(giving) => Some(unlocks_or(seen.exchange()?, giving)),
            MutexPhase::Looks(giving) => once(seen.is_entered(), MutexPhase::Takes(giving)),
            MutexPhase::Takes(giving) => Some(takes(giving, seen.took()?)),
            MutexPhase::Stores(giving, taken, _) => Some(stores(giving, taken, seen.stored()?)),
            MutexPhase::Leaves(giving, taken, _) => once(seen.is_made(), leaves(giving, taken)),
            MutexPhase::Wakes(giving) => once(seen.is_made(), MutexPhase::Finishes(giving)),
            MutexPhase::Finishes(giving) => finishes(giving, seen),
            MutexPhase::Refuses | MutexPhase::Ends(_) | MutexPhase::Invalid => None,
        }
    }
}
