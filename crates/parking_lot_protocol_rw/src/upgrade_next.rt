//! Where a call goes on, by what its act gave.
ghost use Rattle.std.specs.Prelude.{◌≡◌};
ghost use Rattle.parking_lot_protocol_rw.specs.UpgradeTable.{added, asks_now, begun, bumps, frees, held_before};
ghost use Rattle.parking_lot_protocol_rw.specs.UpgradeTable.{is_fair, is_handed, is_open, is_won, is_word, next_phase};
ghost use Rattle.parking_lot_protocol_rw.specs.UpgradeTable.{over, own_next, owes, owns_now, retries, retries_upgrade};
ghost use Rattle.parking_lot_protocol_rw.specs.UpgradeTable.{shown, tries, tries_upgrade, unlocks, won};
ghost use Rattle.parking_lot_protocol_rw.specs.declared.upgrade_phase.UpgradePhase.TheVariants.{Frees, Seeks};

use crate::inner::{asking, asking_at, draining, freeing, owing, told};
use crate::upgrade_phase::{Hold, Release, UpgradePhase};
use parking_lot_protocol::word::{has_room, is_parked, is_upgradable, is_written, readers};
use parking_lot_protocol::{ActResult, CoreAnswer, HAND_OVER, RwCore, RwPhase};

/// How many exchanges a try makes at most, after its first.
const TRIES: u8 = 63;

/// Whether an upgradable owner can be admitted at this word.
fn is_open(word: u64) -> bool
    ensures { result ≡ is_open word }
{
    has_room(word) && !(is_written(word) || is_upgradable(word))
}

/// A try has seen the word, and may make so many exchanges after the next.
fn tries(left: u8, word: u64) -> UpgradePhase
    ensures { result ≡ tries left word }
{
    if is_open(word) {
        UpgradePhase::TryAdmits(word, left)
    } else {
        UpgradePhase::Refuses
    }
}

/// A try has lost an exchange to this word, and may make so many more.
fn retries(left: u8, word: u64) -> UpgradePhase
    ensures { result ≡ retries left word }
{
    if left > 0 {
        tries(left - 1, word)
    } else {
        UpgradePhase::Refuses
    }
}

/// A try to upgrade has seen the word: it is admitted where there is no other reader.
fn tries_upgrade(left: u8, word: u64) -> UpgradePhase
    ensures { result ≡ tries_upgrade left word }
{
    if readers(word) == 1 {
        UpgradePhase::TryUpgrades(word, left)
    } else {
        UpgradePhase::Ends(Hold::Upgradable, CoreAnswer::Refused)
    }
}

/// A try to upgrade has lost an exchange to this word, and may make so many more.
fn retries_upgrade(left: u8, word: u64) -> UpgradePhase
    ensures { result ≡ retries_upgrade left word }
{
    if left > 0 {
        tries_upgrade(left - 1, word)
    } else {
        UpgradePhase::Ends(Hold::Upgradable, CoreAnswer::Refused)
    }
}

impl Release {
    /// Whether the lock is handed over whatever the schedule says.
    fn is_fair(self) -> bool
        ensures { result ≡ is_fair self }
    {
        match self {
            Release::Plain => false,
            Release::Fair | Release::Again => true,
        }
    }

    /// The hold is given up by a section.
    fn frees(self) -> UpgradePhase
        ensures { result ≡ frees self }
    {
        UpgradePhase::Frees(self, freeing(self.is_fair()))
    }

    /// It has seen the word: where nobody waits the hold is given up by one exchange.
    fn unlocks(self, word: u64) -> UpgradePhase
        ensures { result ≡ unlocks self word }
    {
        if is_parked(word) {
            self.frees()
        } else {
            UpgradePhase::Unlocks(self, word)
        }
    }

    /// The hold is given up.
    fn over(self) -> UpgradePhase
        ensures { result ≡ over self }
    {
        if self.is_again() {
            UpgradePhase::Relocks
        } else {
            UpgradePhase::Ends(Hold::Nothing, CoreAnswer::Released)
        }
    }
}

/// A bump has seen the word: it gives the hold up where others wait.
fn bumps(word: u64) -> UpgradePhase
    ensures { result ≡ bumps word }
{
    if is_parked(word) {
        Release::Again.frees()
    } else {
        UpgradePhase::Ends(Hold::Upgradable, CoreAnswer::Owned)
    }
}

impl Hold {
    /// The call ends so, with this hold: waiters are owed a look where the word says that there may be some.
    fn owes(self, answer: CoreAnswer, word: u64) -> UpgradePhase
        ensures { result ≡ owes self answer word }
    {
        if is_parked(word) {
            UpgradePhase::Owes(self, answer, owing())
        } else {
            UpgradePhase::Ends(self, answer)
        }
    }

    /// What one has that gives up: the upgradable hold from before, or nothing.
    fn before(from: bool) -> Hold
        ensures { result ≡ held_before from }
    {
        if from {
            Hold::Upgradable
        } else {
            Hold::Nothing
        }
    }
}

/// Whether the exchange was won.
fn is_won(seen: ActResult) -> bool
    ensures { result ≡ is_won seen }
{
    match seen {
        ActResult::Exchanged => true,
        _ => false,
    }
}

/// Whether the lock was handed over.
fn is_handed(seen: ActResult) -> bool
    ensures { result ≡ is_handed seen }
{
    match seen {
        ActResult::Woken(token) => token.0 == HAND_OVER.0,
        _ => false,
    }
}

/// Whether a word was seen.
fn is_word(seen: ActResult) -> bool
    ensures { result ≡ is_word seen }
{
    match seen {
        ActResult::Word(_) => true,
        _ => false,
    }
}

/// Whether one that asks for the upgradable hold, as for an exclusive one, has it now.
fn owns_now(phase: RwPhase, seen: ActResult) -> bool
    ensures { result ≡ owns_now phase seen }
{
    match phase {
        RwPhase::Admits(..) => is_won(seen),
        RwPhase::Sleeps(_) => is_handed(seen),
        _ => false,
    }
}

/// Whether a bump has woken all, and asks again.
fn asks_now(release: Release, phase: RwPhase, seen: ActResult) -> bool
    ensures { result ≡ asks_now release phase seen }
{
    match phase {
        RwPhase::Finishes(_) => release.is_again() && is_word(seen),
        _ => false,
    }
}

/// One that asks for the upgradable hold goes on.
fn seeks_on(core: RwCore, seen: ActResult) -> UpgradePhase
    ensures { result ≡ next_phase (Seeks core) seen }
{
    if owns_now(core.phase(), seen) {
        UpgradePhase::Ends(Hold::Upgradable, CoreAnswer::Owned)
    } else {
        UpgradePhase::Seeks(told(core, seen))
    }
}

/// One that gives the hold up in a section goes on.
fn frees_on(release: Release, core: RwCore, seen: ActResult) -> UpgradePhase
    ensures { result ≡ next_phase (Frees release core) seen }
{
    if asks_now(release, core.phase(), seen) {
        UpgradePhase::Relocks
    } else {
        UpgradePhase::Frees(release, told(core, seen))
    }
}

impl UpgradePhase {
    /// The phase that follows what the act of this one gave.
    pub(crate) fn after(self, seen: ActResult) -> UpgradePhase
        ensures { result ≡ next_phase self seen }
    {
        match self {
            UpgradePhase::Plain(core) => UpgradePhase::Plain(told(core, seen)),
            UpgradePhase::Seeks(core) => seeks_on(core, seen),
            UpgradePhase::Drains(core) => UpgradePhase::Drains(told(core, seen)),
            UpgradePhase::Frees(release, core) => frees_on(release, core, seen),
            UpgradePhase::Owes(hold, answer, core) => {
                UpgradePhase::Owes(hold, answer, told(core, seen))
            }
            phase => phase.own_after(seen),
        }
    }

    /// The same of one that doesn't go on as a call of shared and exclusive holds.
    fn own_after(self, seen: ActResult) -> UpgradePhase
        ensures { result ≡ own_next self seen }
    {
        match seen {
            ActResult::Start => self.begun(),
            ActResult::Word(word) => self.shown(word),
            ActResult::Exchanged => self.won(),
            ActResult::Before(word) => self.added(word),
            _ => UpgradePhase::Invalid,
        }
    }

    /// The call begins.
    fn begun(self) -> UpgradePhase
        ensures { result ≡ begun self }
    {
        match self {
            UpgradePhase::Locking => UpgradePhase::Seeks(asking()),
            UpgradePhase::Trying => UpgradePhase::TryLoads,
            UpgradePhase::Unlocking(release) => UpgradePhase::UnlockLoads(release),
            UpgradePhase::Bumping => UpgradePhase::BumpLoads,
            UpgradePhase::Upgrading => UpgradePhase::Upgrades,
            UpgradePhase::TryingToUpgrade => UpgradePhase::TryUpgradeLoads,
            UpgradePhase::DowngradingToShared => UpgradePhase::ToShared,
            UpgradePhase::DowngradingToUpgradable => UpgradePhase::ToUpgradable,
            UpgradePhase::GivingUp(from) => UpgradePhase::YieldLoads(from),
            _ => UpgradePhase::Invalid,
        }
    }

    /// A load saw this word, or an exchange was lost to it.
    fn shown(self, word: u64) -> UpgradePhase
        ensures { result ≡ shown self word }
    {
        match self {
            UpgradePhase::TryLoads => tries(TRIES, word),
            UpgradePhase::TryAdmits(_, left) => retries(left, word),
            UpgradePhase::TryUpgradeLoads => tries_upgrade(TRIES, word),
            UpgradePhase::TryUpgrades(_, left) => retries_upgrade(left, word),
            UpgradePhase::BumpLoads => bumps(word),
            UpgradePhase::Relocks => UpgradePhase::Seeks(asking_at(word)),
            UpgradePhase::UnlockLoads(release) => release.unlocks(word),
            UpgradePhase::Unlocks(release, _) => release.unlocks(word),
            UpgradePhase::YieldLoads(from) => UpgradePhase::Yields(from, word),
            UpgradePhase::Yields(from, _) => UpgradePhase::Yields(from, word),
            _ => UpgradePhase::Invalid,
        }
    }

    /// An exchange was won.
    fn won(self) -> UpgradePhase
        ensures { result ≡ won self }
    {
        match self {
            UpgradePhase::TryAdmits(..) => UpgradePhase::Ends(Hold::Upgradable, CoreAnswer::Owned),
            UpgradePhase::TryUpgrades(..) => UpgradePhase::Ends(Hold::Exclusive, CoreAnswer::Owned),
            UpgradePhase::Unlocks(release, _) => release.over(),
            UpgradePhase::Yields(from, word) => Hold::before(from).owes(CoreAnswer::Released, word),
            _ => UpgradePhase::Invalid,
        }
    }

    /// An addition found this word.
    fn added(self, word: u64) -> UpgradePhase
        ensures { result ≡ added self word }
    {
        match self {
            UpgradePhase::Upgrades => UpgradePhase::Drains(draining()),
            UpgradePhase::ToShared => Hold::Shared.owes(CoreAnswer::Owned, word),
            UpgradePhase::ToUpgradable => Hold::Upgradable.owes(CoreAnswer::Owned, word),
            _ => UpgradePhase::Invalid,
        }
    }
}
