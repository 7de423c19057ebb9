//! Calls of further kinds of locks, which stand in crates above.
ghost use Rattle.std.specs.Prelude.{◌≡◌};
ghost use Rattle.parking_lot_driver.specs.Runs.{WasTold};
ghost use Rattle.parking_lot_protocol.specs.declared.act.Act.TheVariants.{Done};
ghost use Rattle.parking_lot_protocol.specs.declared.act.CoreAnswer.{CoreAnswer};

use crate::call::Call;
use crate::plain_place::PlainPlace;
use crate::table::Row;
use crate::told::Run;
use parking_lot_core::{SpinWait, ThreadData};
use parking_lot_protocol::{Act, ActResult};
use std::alloc::Allocator;
use std::sync::Wait;

/// Runs a call of any kind on a row to its end, and answers its core, which was told nothing but what the acts that it
/// asked for can give. It may sleep in the row's lists, and wakes those that it takes there.
///
/// A participant of another lot can't sleep: it yields and looks again.
#[inline(never)]
pub fn run_to_its_end<K: Call, R: Wait, A: Allocator>(
    row: &Row<'_, '_, R, A>,
    call: K,
    party: &mut ThreadData<A>,
) -> K::Core
    ensures told { WasTold K.Core.told K.Core.asks K.begun result }
    ensures end { (answer : CoreAnswer) × (K.Core.asks result ≡ Done answer) }
{
    let place = PlainPlace { row };
    let mut spin = SpinWait::new();
    let mut run = Run::begin(call);
    for _act in row.lot().runtime().forever() {
        match run.act() {
            Act::Done(_answer) => return run.core(),
            Act::Spin => {
                run.tell(ActResult::Spun(spin.spin()));
            }
            Act::Enter(key) => {
                spin.reset();
                place.enter(&mut run, key, party);
            }
            act => {
                run.tell(place.make(act));
            }
        }
    }
    unreachable!()
}
