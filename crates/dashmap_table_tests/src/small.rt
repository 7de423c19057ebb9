//! What a try found, and small things.

use dashmap_guard::{SharedValue, TryResult, map_in_place_2, ptr_size_bits};
use std::test::Fail;

#[test]
fn a_try_tells_what_it_found(rt: HostRuntime) -> Result<(), Fail> {
    let present: TryResult<u64> = TryResult::Present(5);
    let absent: TryResult<u64> = TryResult::Absent;
    let locked: TryResult<u64> = TryResult::Locked;
    assert!(rt; present.is_present() & !present.is_absent() & !present.is_locked());
    assert!(rt; absent.is_absent() & !absent.is_present() & !absent.is_locked());
    assert!(rt; locked.is_locked() & !locked.is_present() & !locked.is_absent());
    let told = format!(in rt.alloc(); "{present:?} {absent:?} {locked:?}")?;
    assert!(rt; told.as_str() == "Present(5) Absent Locked");
    assert!(rt; present.try_unwrap() == Some(5));
    assert!(rt; absent.try_unwrap().is_none());
    assert!(rt; locked.try_unwrap().is_none());
    assert!(rt; TryResult::Present(7u64).unwrap() == 7);
    Ok(())
}

#[test]
fn a_shared_value_is_nothing_but_its_value(rt: HostRuntime) -> Result<(), Fail> {
    let mut value = SharedValue::new(3u64);
    assert!(rt; *value.get() == 3);
    *value.get_mut() = 4;
    let copy = value.clone()?;
    assert!(rt; value.into_inner() == 4);
    assert!(rt; copy.into_inner() == 4);
    Ok(())
}

#[test]
fn a_value_is_mapped_in_its_place(rt: HostRuntime) -> Result<(), Fail> {
    let mut value = 3u64;
    map_in_place_2((2u64, &mut value), |by, old| by.wrapping_mul(old));
    assert!(rt; value == 6);
    assert!(rt; ptr_size_bits() == 64);
    Ok(())
}
