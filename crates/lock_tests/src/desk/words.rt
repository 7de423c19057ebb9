//! Words, and raw states by themselves.
use crate::steps::all_right;
use lock_api_desk::{PackedWord, RawState, TokenTable};

#[test]
fn a_word_adds_up_what_is_out(rt: HostRuntime) {
    let mut packed = PackedWord::new(2);
    let empty = packed.word() == 0;
    let reader = packed.try_shared();
    let with_a_reader = packed.word() == 16;
    let upgradable = packed.try_upgradable();
    let with_both = packed.word() == 36;
    let taken = reader.is_some() && upgradable.is_some() && packed.readers_full();
    let refused = packed.try_shared().is_none() && packed.try_exclusive().is_none();
    let limits = [
        packed.limit(),
        PackedWord::new(u64::MAX).limit(),
        TokenTable::new(u64::MAX).limit(),
    ];
    let limited = limits == [2, (1 << 60) - 1, u64::MAX];
    all_right(
        &rt,
        &[empty, with_a_reader, with_both, taken, refused, limited],
    );
}

#[test]
fn words_change_by_8_and_4_and_16(rt: HostRuntime) {
    let with = [
        (PackedWord::with_shared(36, 3), Some(52)),
        (PackedWord::with_shared(36, 2), None),
        (PackedWord::with_shared(8, 3), None),
        (PackedWord::with_shared(u64::MAX - 15, u64::MAX), None),
        (PackedWord::with_exclusive(0), Some(8)),
        (PackedWord::with_exclusive(16), None),
        (PackedWord::with_upgradable(16, 2), Some(36)),
        (PackedWord::with_upgradable(20, 2), None),
        (PackedWord::with_upgrade(20), Some(8)),
        (PackedWord::with_upgrade(36), None),
    ];
    for (word, want) in with {
        assert!(rt; word == want, "{word:?} for {want:?}");
    }
    let without = [
        (PackedWord::without_shared(36), 20),
        (PackedWord::without_exclusive(8), 0),
        (PackedWord::without_upgradable(36), 16),
        (PackedWord::to_shared(8), 16),
        (PackedWord::to_upgradable(8), 20),
        (PackedWord::upgradable_to_shared(36), 32),
    ];
    for (word, want) in without {
        assert!(rt; word == want, "{word} for {want}");
    }
}
