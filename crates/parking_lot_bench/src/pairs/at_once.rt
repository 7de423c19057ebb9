//! Calls that are over at once: notifications with nobody there, and one-time initializations that are done.

use crate::fault::Fault;
use lock_api_raw::RawCondvar as _;
use parking_lot_core::ThreadData;
use parking_lot_mutex::condvar::RawCondvar;
use parking_lot_mutex::once::Once;
use std::sync::Wait;

#[inline(never)]
pub fn by_notifying_one<R: Wait>(condvar: &RawCondvar<'_, '_, R>, calls: u32) {
    for _call in 0..calls {
        condvar.notify_one();
    }
}

#[inline(never)]
pub fn by_notifying_all<R: Wait>(condvar: &RawCondvar<'_, '_, R>, calls: u32) {
    for _call in 0..calls {
        condvar.notify_all();
    }
}

#[inline(never)]
pub fn by_once<R: Wait>(
    once: &Once<'_, '_, R>,
    me: &mut ThreadData,
    calls: u32,
) -> Result<(), Fault> {
    for _call in 0..calls {
        once.call_once(me, || Ok::<(), u8>(())).map_err(|_| Fault)?;
    }
    Ok(())
}
