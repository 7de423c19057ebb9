//! What a call at a reader-writer lock asks for where it stands.
ghost use Rattle.std.specs.Prelude.{◌≡◌, ◌+◌, ◌<◌, ◌%◌, ◌^◌, true};
ghost use Rattle.parking_lot_protocol.specs.declared.act.Act.TheVariants as act;
ghost use Rattle.parking_lot_protocol.specs.declared.act.SectionAct.TheVariants as section;
ghost use Rattle.parking_lot_rules.specs.Classes.{bit};
ghost use Rattle.parking_lot_protocol.specs.RwTable.{act_of, answer_of, base_of, count_of, hands, last_act, may_hand};
ghost use Rattle.parking_lot_protocol.specs.RwTable.{share_of, store_of, sum_of};

use crate::act::{Act, CoreAnswer, SectionAct, WordChange};
use crate::rw_phase::{AfterWake, LockMode, Outcome, RwPhase, Scanning};
use crate::word::{PARKED, READER, UPGRADABLE, WRITER, WRITER_PARKED};
use parking_lot_core_model::ParkToken;

impl LockMode {
    /// What an admission adds to the word, and the token of one that waits for it.
    pub(crate) fn share(self) -> u64
        ensures { result ≡ share_of self }
    {
        match self {
            LockMode::Shared(_) => READER,
            LockMode::Exclusive => WRITER,
        }
    }

    /// The exchange that admits it at this word.
    fn admission(self, word: u64) -> Act
        ensures { result ≡ act.Exchange word ((word + share_of self) % 2 ^ 64) }
    {
        Act::Exchange(word, word.wrapping_add(self.share()))
    }
}

impl AfterWake {
    /// What one that scans for this has counted from the beginning: the hold that it keeps.
    fn base(self) -> u64
        ensures { result ≡ base_of self }
    {
        match self {
            AfterWake::FreedShared | AfterWake::FreedExclusive => 0,
            AfterWake::Downgraded => READER,
            AfterWake::AgainShared | AfterWake::AgainExclusive => 0,
        }
    }

    /// Whether the lock may be handed over.
    fn may_hand(self) -> bool
        ensures { result ≡ may_hand self }
    {
        match self {
            AfterWake::FreedShared | AfterWake::FreedExclusive => true,
            AfterWake::Downgraded => false,
            AfterWake::AgainShared | AfterWake::AgainExclusive => true,
        }
    }

    /// The last act, once all are woken.
    fn last_act(self) -> Act
        ensures { result ≡ last_act self }
    {
        match self {
            AfterWake::FreedShared | AfterWake::FreedExclusive => Act::Done(CoreAnswer::Released),
            AfterWake::Downgraded => Act::Done(CoreAnswer::Owned),
            AfterWake::AgainShared | AfterWake::AgainExclusive => Act::Load,
        }
    }
}

impl Outcome {
    /// What the caller is answered.
    fn answer(self) -> CoreAnswer
        ensures { result ≡ answer_of self }
    {
        match self {
            Outcome::Shared | Outcome::Exclusive | Outcome::Downgraded => CoreAnswer::Owned,
            Outcome::FreedShared | Outcome::FreedExclusive => CoreAnswer::Released,
        }
    }
}

/// 1 for true, 0 for false.
fn bit(flag: bool) -> u64
    ensures { result ≡ bit flag }
{
    if flag { 1 } else { 0 }
}

impl Scanning {
    /// The sum of what its thread keeps and of the tokens that it has taken.
    pub fn sum(&self) -> u64
        ensures { result ≡ sum_of self.now }
    {
        let greedy = (READER + UPGRADABLE) * bit(self.upgradable) + WRITER * bit(self.writer);
        self.rest.base() + READER * u64::from(self.shared) + greedy
    }

    /// How many it has taken.
    pub fn count(&self) -> u64
        ensures count { result ≡ count_of self.now }
        ensures small { result < 2 ^ 33 }
    {
        u64::from(self.shared) + bit(self.upgradable) + bit(self.writer)
    }

    /// Whether it hands the lock over, where the release is fair.
    pub(crate) fn hands(&self, fair: bool) -> bool
        ensures { result ≡ hands self.now fair }
    {
        self.rest.may_hand() && fair && self.count() > 0
    }

    /// What it stores.
    fn store(&self, handed: bool, left: bool) -> WordChange
        ensures { result ≡ store_of self.now handed left }
    {
        let left = bit(left);
        if handed {
            WordChange {
                keep: 0,
                add: self.sum() + left,
            }
        } else if self.rest.may_hand() {
            WordChange { keep: 0, add: left }
        } else {
            WordChange {
                keep: u64::MAX - PARKED + left,
                add: 0,
            }
        }
    }

    /// The two stores, as the release is plain or fair.
    fn stores(&self, left: bool) -> SectionAct
        ensures { result ≡ section.Store (store_of self.now (hands self.now self.now.fair) left)
            (store_of self.now (hands self.now true) left) }
    {
        SectionAct::Store {
            plain: self.store(self.hands(self.fair), left),
            fair: self.store(self.hands(true), left),
        }
    }
}

impl RwPhase {
    /// The act that it has asked for. Before it begins, and where it was told what its act can't give, it asks for
    /// nothing.
    pub fn act(self) -> Act
        ensures { result ≡ act_of self }
    {
        match self {
            RwPhase::Loads(_) | RwPhase::DrainLoads(_) | RwPhase::TryLoads(_) => Act::Load,
            RwPhase::BumpLoads(_) | RwPhase::Relocks(_) => Act::Load,
            RwPhase::Admits(seeking, word) => seeking.want.admission(word),
            RwPhase::TryAdmits(want, word, _) => want.admission(word),
            RwPhase::Spins(_) | RwPhase::DrainSpins(_) => Act::Spin,
            RwPhase::SetParked(_, word) => Act::Exchange(word, word.wrapping_add(PARKED)),
            RwPhase::DrainSetParked(_, word) => Act::Exchange(
                word,
                word.wrapping_add(WRITER_PARKED),
            ),
            RwPhase::Enters(..) | RwPhase::LooksExclusive(..) | RwPhase::EnterWakeSection =>
                Act::Enter(0),
            RwPhase::DrainEnters(_) | RwPhase::EnterWriterWakeSection(_) => Act::Enter(1),
            RwPhase::Sleeps(_) | RwPhase::DrainSleeps(_) => Act::Sleep,
            RwPhase::Unshares(_) => Act::Add(READER.wrapping_neg()),
            RwPhase::ClearWriterParked(..) => Act::FetchAnd(u64::MAX - WRITER_PARKED),
            RwPhase::Unlocks(..) => Act::Exchange(WRITER, 0),
            RwPhase::Downgrades => Act::Add(READER - WRITER),
            RwPhase::Finishes(rest) => rest.last_act(),
            RwPhase::Ends(outcome) => Act::Done(outcome.answer()),
            RwPhase::Checks(..) | RwPhase::DrainChecks(_) => Act::Section(SectionAct::Check),
            RwPhase::Appends(want) => Act::Section(SectionAct::Append(token(want.share()))),
            RwPhase::DrainAppends(_) => Act::Section(SectionAct::Append(token(WRITER))),
            RwPhase::TakeWriter(_) => Act::Section(SectionAct::TakeFirst),
            RwPhase::Scans(scanning) => Act::Section(SectionAct::TakeNext(scanning.sum())),
            RwPhase::Stores(scanning, left) => Act::Section(scanning.stores(left)),
            RwPhase::Retreats(..) | RwPhase::Rests(_) => Act::Section(SectionAct::Leave),
            RwPhase::DrainRetreats(_) | RwPhase::DrainRests(_) => Act::Section(SectionAct::Leave),
            RwPhase::LeaveWriterWakeSection(..) | RwPhase::Leaves(..) => Act::Section(
                SectionAct::Leave,
            ),
            RwPhase::Wakes(..) => Act::Section(SectionAct::Wake),
            RwPhase::Locking(_) | RwPhase::Trying(_) => Act::Done(CoreAnswer::Refused),
            RwPhase::UnlockingShared | RwPhase::UnlockingExclusive(_) => Act::Done(
                CoreAnswer::Refused,
            ),
            RwPhase::Downgrading | RwPhase::BumpingShared => Act::Done(CoreAnswer::Refused),
            RwPhase::BumpingExclusive | RwPhase::Refuses(_) => Act::Done(CoreAnswer::Refused),
            RwPhase::Invalid => Act::Done(CoreAnswer::Refused),
        }
    }
}

/// The token of that number.
fn token(number: u64) -> ParkToken
    ensures { result ≡ record { 0 = number } }
{
    ParkToken(number as usize)
}
