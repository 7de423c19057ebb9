//! What a call asks for where it stands.
ghost use Rattle.std.specs.Prelude.{◌≡◌, ◌+◌, ◌-◌, ◌<◌, ◌%◌, ◌^◌, true};
ghost use Rattle.parking_lot_protocol.specs.declared.act.Act.TheVariants as act;
ghost use Rattle.parking_lot_protocol.specs.declared.act.SectionAct.TheVariants as section;
ghost use Rattle.parking_lot_protocol.specs.RwTable.{hands, may_hand, taken_sum};
ghost use Rattle.parking_lot_protocol_rw.specs.UpgradeTable.{act_of, frees_act, frees_store, is_again, kept_share};
ghost use Rattle.parking_lot_protocol_rw.specs.UpgradeTable.{owes_act, seeks_act, yield_change};

use crate::upgrade_phase::{Hold, Release, UpgradePhase};
use parking_lot_core_model::ParkToken;
use parking_lot_protocol::word::{PARKED, READER, UPGRADABLE, WRITER, WRITER_PARKED, has_room};
use parking_lot_protocol::{Act, AfterWake, CoreAnswer, RwPhase, Scanning, SectionAct, WordChange};

/// The share of an upgradable owner, which counts as a reader.
const UPGRADER: u64 = READER + UPGRADABLE;

impl Hold {
    /// What it is worth in a word.
    pub(crate) fn share(self) -> u64
        ensures value { result ≡ kept_share self }
        ensures small { result < 32 }
    {
        match self {
            Hold::Nothing => 0,
            Hold::Shared => READER,
            Hold::Upgradable => UPGRADER,
            Hold::Exclusive => WRITER,
        }
    }
}

impl Release {
    /// Whether the hold is asked for again.
    pub(crate) fn is_again(self) -> bool
        ensures { result ≡ is_again self }
    {
        match self {
            Release::Plain | Release::Fair => false,
            Release::Again => true,
        }
    }
}

/// The exchange that adds an upgradable owner to this word.
pub(crate) fn admission(word: u64) -> Act
    ensures { result ≡ act.Exchange word ((word + 20) % 2 ^ 64) }
{
    Act::Exchange(word, word.wrapping_add(UPGRADER))
}

/// The act of one that asks for the upgradable hold as for an exclusive one. Where no reader more can be counted it
/// looks again.
fn seeks_act(phase: RwPhase) -> Act
    ensures { result ≡ seeks_act phase }
{
    match phase {
        RwPhase::Admits(_, word) => {
            if has_room(word) {
                admission(word)
            } else {
                Act::Load
            }
        }
        RwPhase::Appends(_) => Act::Section(SectionAct::Append(ParkToken(UPGRADER as usize))),
        phase => phase.act(),
    }
}

/// The tokens that it has taken.
fn taken_sum(scanning: Scanning) -> u64
    ensures { result ≡ taken_sum scanning }
{
    let rest = AfterWake::FreedExclusive;
    Scanning { rest, ..scanning }.sum()
}

/// Whether it hands the lock over, where the release is fair.
fn hands(scanning: Scanning, fair: bool) -> bool
    ensures { result ≡ hands scanning fair }
{
    may_hand(scanning.rest) && fair && scanning.count() > 0
}

/// Whether the lock may be handed over.
fn may_hand(rest: AfterWake) -> bool
    ensures { result ≡ may_hand rest }
{
    match rest {
        AfterWake::FreedShared | AfterWake::FreedExclusive => true,
        AfterWake::Downgraded => false,
        AfterWake::AgainShared | AfterWake::AgainExclusive => true,
    }
}

/// How the word changes where the upgradable hold is given up in a section. Readers stay counted.
fn frees_store(scanning: Scanning, handed: bool, left: bool) -> WordChange
    ensures { result ≡ frees_store scanning handed left }
{
    let left = u64::from(left);
    if handed {
        let taken = scanning.sum().wrapping_add(left);
        WordChange {
            keep: u64::MAX - PARKED,
            add: taken.wrapping_add(UPGRADER.wrapping_neg()),
        }
    } else {
        WordChange {
            keep: u64::MAX - PARKED + left,
            add: UPGRADER.wrapping_neg(),
        }
    }
}

/// The act of one that gives the upgradable hold up in a section, as one gives up an exclusive hold.
fn frees_act(release: Release, phase: RwPhase) -> Act
    ensures { result ≡ frees_act release phase }
{
    match phase {
        RwPhase::Stores(scanning, left) => Act::Section(SectionAct::Store {
            plain: frees_store(scanning, hands(scanning, scanning.fair), left),
            fair: frees_store(scanning, hands(scanning, true), left),
        }),
        RwPhase::Finishes(_) => {
            if release.is_again() {
                Act::Load
            } else {
                Act::Done(CoreAnswer::Released)
            }
        }
        phase => phase.act(),
    }
}

/// The act of one that owes waiters a look and keeps this.
fn owes_act(hold: Hold, answer: CoreAnswer, phase: RwPhase) -> Act
    ensures { result ≡ owes_act hold answer phase }
{
    match phase {
        RwPhase::Scans(scanning) => {
            let sum = hold.share().wrapping_add(taken_sum(scanning));
            Act::Section(SectionAct::TakeNext(sum))
        }
        RwPhase::Finishes(_) => Act::Done(answer),
        phase => phase.act(),
    }
}

/// How the word changes as one that waits for readers gives up: it counts as the upgradable owner again, or not at all.
fn yield_change(from: bool) -> WordChange
    ensures { result ≡ yield_change from }
{
    let add = if from {
        UPGRADER - WRITER
    } else {
        WRITER.wrapping_neg()
    };
    WordChange {
        keep: u64::MAX - WRITER_PARKED,
        add,
    }
}

impl UpgradePhase {
    /// The act that it has asked for. Before it begins, and where it was told what its act can't give, it asks for
    /// nothing.
    pub fn act(self) -> Act
        ensures { result ≡ act_of self }
    {
        match self {
            UpgradePhase::Plain(core) | UpgradePhase::Drains(core) => core.act(),
            UpgradePhase::Seeks(core) => seeks_act(core.phase()),
            UpgradePhase::Frees(release, core) => frees_act(release, core.phase()),
            UpgradePhase::Owes(hold, answer, core) => owes_act(hold, answer, core.phase()),
            UpgradePhase::TryLoads | UpgradePhase::TryUpgradeLoads => Act::Load,
            UpgradePhase::BumpLoads | UpgradePhase::Relocks => Act::Load,
            UpgradePhase::UnlockLoads(_) | UpgradePhase::YieldLoads(_) => Act::Load,
            UpgradePhase::TryAdmits(word, _) => admission(word),
            UpgradePhase::TryUpgrades(word, _) => Act::Exchange(
                word,
                word.wrapping_add((UPGRADER - WRITER).wrapping_neg()),
            ),
            UpgradePhase::Unlocks(_, word) => Act::Exchange(
                word,
                word.wrapping_add(UPGRADER.wrapping_neg()),
            ),
            UpgradePhase::Yields(from, word) => Act::Exchange(word, yield_change(from).of(word)),
            UpgradePhase::Upgrades => Act::Add((UPGRADER - WRITER).wrapping_neg()),
            UpgradePhase::ToShared => Act::Add(UPGRADABLE.wrapping_neg()),
            UpgradePhase::ToUpgradable => Act::Add(UPGRADER - WRITER),
            UpgradePhase::Ends(_, answer) => Act::Done(answer),
            UpgradePhase::Locking | UpgradePhase::Trying => Act::Done(CoreAnswer::Refused),
            UpgradePhase::Unlocking(_) | UpgradePhase::Bumping => Act::Done(CoreAnswer::Refused),
            UpgradePhase::Upgrading | UpgradePhase::TryingToUpgrade => Act::Done(
                CoreAnswer::Refused,
            ),
            UpgradePhase::DowngradingToShared | UpgradePhase::DowngradingToUpgradable => Act::Done(
                CoreAnswer::Refused,
            ),
            UpgradePhase::GivingUp(_) | UpgradePhase::Refuses => Act::Done(CoreAnswer::Refused),
            UpgradePhase::Invalid => Act::Done(CoreAnswer::Refused),
        }
    }
}
