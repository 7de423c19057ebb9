//! Laws of upgradable calls: how their acts move them between sections and lists.
ghost use Rattle.parking_lot_machine.specs.UpgradeLaws.{UpgradesAreSteps, UpgradesEnd, UpgradesKeep};
ghost use Rattle.parking_lot_machine.specs.UpgradeRanks.{UpgradeStepsFall};

/// What an upgradable call is told at a sound lock, whose word counts its thread as its phase says, is a step of the
/// rules there, and the phase that follows is ready again.
pub fn upgradable_answers_are_steps()
    ensures { UpgradesAreSteps }
{}

/// Each act of an upgradable call lowers the steps that are left of it, whatever it gives, as long as no reader count
/// is at its limit.
pub fn upgrade_steps_fall()
    ensures { UpgradeStepsFall }
{}

/// An upgradable call of a world begins ready, and stays one that a world runs: it asks where it has seen room for one
/// reader more, and doesn't bump.
pub fn upgradable_calls_keep()
    ensures { UpgradesKeep }
{}

/// The end of an upgradable call is a step of the rules or none, and leaves its thread with what it owns.
pub fn upgradable_ends_are_steps()
    ensures { UpgradesEnd }
{}
