//! Whether threads end as those do whose calls are made whole.

use parking_lot_explorer::{Broken, Calls, Ends, Three};
use std::process::Abort;

/// No rule was broken, and the threads end as wanted, in each of those ways.
pub fn end_so(
    rt: &impl Abort,
    programs: Three<Calls>,
    broken: &Option<Broken>,
    found: &[Ends],
    wanted: &[Ends],
) {
    assert!(rt; broken.is_none(), "{broken:?} of {programs:?}");
    for end in found {
        assert!(rt; wanted.contains(end), "{end:?} of {programs:?}");
    }
    for end in wanted {
        assert!(rt; found.contains(end), "never {end:?} of {programs:?}");
    }
}
