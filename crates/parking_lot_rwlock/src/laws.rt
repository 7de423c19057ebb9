//! Laws of the uncontended ways: what a core asks for that is told what the one exchange saw.
ghost use Rattle.std.specs.Prelude.{◌≡◌, ◌<◌, ◌+◌, ◌-◌, ◌/◌, ◌%◌, ◌^◌, [], ◌∷◌, if◌then◌else◌};
ghost use Rattle.parking_lot_protocol.specs.declared.act.Act.TheVariants as act;
ghost use Rattle.parking_lot_protocol.specs.declared.act.ActResult.TheVariants as told;
ghost use Rattle.parking_lot_protocol.specs.declared.act.CoreAnswer.TheVariants.{Owned, Released};
ghost use Rattle.parking_lot_protocol.specs.declared.rw_phase.LockMode.TheVariants as want;
ghost use Rattle.parking_lot_protocol.specs.declared.rw_phase.RwPhase.TheVariants as call;
ghost use Rattle.parking_lot_protocol.specs.RwTable as rw;
ghost use Rattle.parking_lot_protocol_rw.specs.declared.upgrade_phase.Release.TheVariants as release;
ghost use Rattle.parking_lot_protocol_rw.specs.declared.upgrade_phase.UpgradePhase.TheVariants as upgrade;
ghost use Rattle.parking_lot_protocol_rw.specs.UpgradeTable as up;
ghost use Rattle.parking_lot_driver.specs.Ways.{Goes};

/// Where no writer owns the lock or waits for readers to leave, and one reader more can be counted, adding 16 to the
/// word is the way of a call that reads.
pub fn one_exchange_reads(recursive: bool, word: u64)
    requires free { word / 8 % 2 ≡ 0 }
    requires room { word / 16 + 1 < 2 ^ 60 }
    ensures { Goes rw.next_phase rw.act_of (call.Locking (want.Shared recursive))
        ((told.Start, act.Load) ∷ (told.Word word, act.Exchange word (word + 16))
        ∷ (told.Exchanged, act.Done Owned) ∷ []) }
{}

/// Taking 16 off the word is the way of a call that stops reading, where no writer may sleep until the readers have
/// left.
pub fn one_sum_stops_reading(word: u64)
    requires { word / 2 % 2 ≡ 0 }
    ensures { Goes rw.next_phase rw.act_of call.UnlockingShared
        ((told.Start, act.Add (2 ^ 64 - 16)) ∷ (told.Before word, act.Done Released) ∷ []) }
{}

/// The exchange from 0 to 8 is the way of a call that writes: the core looks once more for readers, and since the
/// exchange there is none.
pub fn one_exchange_writes(word: u64)
    requires { word / 16 ≡ 0 }
    ensures { Goes rw.next_phase rw.act_of (call.Locking want.Exclusive)
        ((told.Start, act.Load) ∷ (told.Word 0, act.Exchange 0 8)
        ∷ (told.Exchanged, act.Load) ∷ (told.Word word, act.Done Owned) ∷ []) }
{}

/// The exchange from 8 to 0 is the way of a call that stops writing, where nobody waits, fairly or not.
pub fn one_exchange_stops_writing(fair: bool)
    ensures { Goes rw.next_phase rw.act_of (call.UnlockingExclusive fair)
        ((told.Start, act.Exchange 8 0) ∷ (told.Exchanged, act.Done Released) ∷ []) }
{}

/// Adding 8 to the word is the way of a writer that becomes a reader, where nobody may sleep that wants the lock.
pub fn one_sum_downgrades(word: u64)
    requires { word % 2 ≡ 0 }
    ensures { Goes rw.next_phase rw.act_of call.Downgrading
        ((told.Start, act.Add 8) ∷ (told.Before word, act.Done Owned) ∷ []) }
{}

/// Where neither a writer nor an upgradable owner is in the way, and one reader more can be counted, adding 20 to the
/// word is the way of a call that asks for the upgradable hold.
pub fn one_exchange_takes_the_upgradable_hold(word: u64)
    requires unwritten { word / 8 % 2 ≡ 0 }
    requires free { word / 4 % 2 ≡ 0 }
    requires room { word / 16 + 1 < 2 ^ 60 }
    ensures { Goes up.next_phase up.act_of upgrade.Locking
        ((told.Start, act.Load) ∷ (told.Word word, act.Exchange word ((word + 20) % 2 ^ 64))
        ∷ (told.Exchanged, act.Done Owned) ∷ []) }
{}

/// Taking 20 off the word is the way of a call that gives the upgradable hold up, fairly or not, where nobody may sleep
/// that wants the lock.
pub fn one_exchange_gives_the_upgradable_hold_up(fair: bool, word: u64)
    requires { word % 2 ≡ 0 }
    ensures { Goes up.next_phase up.act_of (upgrade.Unlocking (if fair then release.Fair else release.Plain))
        ((told.Start, act.Load) ∷ (told.Word word, act.Exchange word ((word + (2 ^ 64 - 20)) % 2 ^ 64))
        ∷ (told.Exchanged, act.Done Released) ∷ []) }
{}

/// Adding 8 less 20 to the word is the way of an upgradable owner that becomes a writer: the core looks once more for
/// readers, and where the owner was alone there is none.
pub fn one_sum_upgrades(word: u64, left: u64)
    requires { left / 16 ≡ 0 }
    ensures { Goes up.next_phase up.act_of upgrade.Upgrading
        ((told.Start, act.Add (2 ^ 64 + 8 - 20)) ∷ (told.Before word, act.Load)
        ∷ (told.Word left, act.Done Owned) ∷ []) }
{}

/// The exchange from 20 to 8 is the way of a try to upgrade where nobody else reads, and nobody sleeps.
pub fn one_exchange_upgrades()
    ensures { Goes up.next_phase up.act_of upgrade.TryingToUpgrade
        ((told.Start, act.Load) ∷ (told.Word 20, act.Exchange 20 8) ∷ (told.Exchanged, act.Done Owned) ∷ []) }
{}

/// Taking 4 off the word is the way of an upgradable owner that becomes a reader, where nobody may sleep that wants the
/// lock.
pub fn one_sum_gives_the_upgrade_up(word: u64)
    requires { word % 2 ≡ 0 }
    ensures { Goes up.next_phase up.act_of upgrade.DowngradingToShared
        ((told.Start, act.Add (2 ^ 64 - 4)) ∷ (told.Before word, act.Done Owned) ∷ []) }
{}

/// Adding 12 to the word is the way of a writer that becomes an upgradable owner, where nobody may sleep that wants the
/// lock.
pub fn one_sum_keeps_the_upgradable_hold(word: u64)
    requires { word % 2 ≡ 0 }
    ensures { Goes up.next_phase up.act_of upgrade.DowngradingToUpgradable
        ((told.Start, act.Add 12) ∷ (told.Before word, act.Done Owned) ∷ []) }
{}
