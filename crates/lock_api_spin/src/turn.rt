//! The changes of a lock's word.
ghost use Rattle.std.specs.Prelude.{◌≡◌, ◌&&◌, nat_le, nat_lt};

use lock_api_desk::PackedWord;

/// A change of the word, by which a hold is taken, given up or turned into another.
#[derive(Clone, Copy)]
pub(crate) enum Turn {
    TakeShared,
    TakeExclusive,
    TakeUpgradable,
    GiveShared,
    GiveExclusive,
    GiveUpgradable,
    Upgrade,
    Downgrade,
    DowngradeToUpgradable,
    DowngradeUpgradable,
}

/// The exclusive hold is in the word, and no other.
fn is_exclusive(word: u64) -> bool
    ensures { result ≡ (nat_le 8 word && nat_lt word 16) }
{
    8 <= word && word < 16
}

impl Turn {
    /// The word afterwards, or None where the change isn't admitted.
    pub(crate) fn of(self, word: u64, limit: u64) -> Option<u64> {
        let readers = word / 16;
        let upgradable = word / 4 % 2;
        match self {
            Turn::TakeShared => PackedWord::with_shared(word, limit),
            Turn::TakeExclusive => PackedWord::with_exclusive(word),
            Turn::TakeUpgradable => PackedWord::with_upgradable(word, limit),
            Turn::Upgrade => PackedWord::with_upgrade(word),
            Turn::GiveShared if upgradable < readers => Some(PackedWord::without_shared(word)),
            Turn::GiveUpgradable if upgradable == 1 && 1 <= readers => {
                Some(PackedWord::without_upgradable(word))
            }
            Turn::DowngradeUpgradable if upgradable == 1 && 1 <= readers => {
                Some(PackedWord::upgradable_to_shared(word))
            }
            Turn::GiveExclusive if is_exclusive(word) => Some(PackedWord::without_exclusive(word)),
            Turn::Downgrade if is_exclusive(word) => Some(PackedWord::to_shared(word)),
            Turn::DowngradeToUpgradable if is_exclusive(word) => {
                Some(PackedWord::to_upgradable(word))
            }
            _ => None,
        }
    }
}
