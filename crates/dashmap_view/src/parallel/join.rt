//! Lists put one behind another. For the layer above.
ghost use Rattle.std.specs.Prelude.{◌≡◌, IfOk};
ghost use Rattle.dashmap_view.specs.Parallel.Calls.{AreJoined};

use dashmap_table::NoMemory;
use std::alloc::Allocator;

/// All lists as one, in their order, unless one of them is a refusal.
pub fn joined<T: Drop, B: Allocator>(
    lists: Vec<Result<Vec<T, B>, NoMemory>, B>,
    alloc: B,
) -> Result<Vec<T, B>, NoMemory>
    ensures { IfOk result (λ v. AreJoined lists.items v.items) }
{
    let mut all = Vec::new(alloc);
    for list in lists {
        let mut list = list?;
        all.append(&mut list)?;
    }
    Ok(all)
}
