//! Which waiters a waking section lets go.
ghost use Rattle.std.specs.Prelude.{◌≡◌};
ghost use Rattle.parking_lot_protocol.specs.Wake.{wake_answer};
ghost use Rattle.parking_lot_protocol.specs.WakeRules.{LooksRightly};

use crate::word::{READER, UPGRADABLE, WRITER, is_upgradable, is_written};
use parking_lot_core_model::{FilterOp, ParkToken};

/// What a waking section does at a waiter with that token, where the tokens that it has taken so far, and what its own
/// thread keeps, come to `sum`: it stops behind a writer, skips one that wants more than a shared hold beside an
/// upgradable owner, and else takes the waiter and adds its token. Tokens are 16 of a reader, 8 of a writer, 20 of one
/// that wants the upgradable hold.
///
/// ```text
/// assert_eq!(rt; wake_sum(16, ParkToken(8)), FilterOp::Unpark);
/// assert_eq!(rt; wake_sum(24, ParkToken(16)), FilterOp::Stop);
/// ```
pub fn wake_sum(sum: u64, token: ParkToken) -> FilterOp
    ensures answer { result ≡ wake_answer sum token.0 }
    ensures rules { LooksRightly sum token.0 result }
{
    answer_at(sum, token.0)
}

/// The same, by the token's number.
fn answer_at(sum: u64, token: usize) -> FilterOp
    ensures { result ≡ wake_answer sum token }
{
    let is_greedy = token == WRITER as usize || token == (READER + UPGRADABLE) as usize;
    if is_written(sum) {
        FilterOp::Stop
    } else if is_greedy && is_upgradable(sum) {
        FilterOp::Skip
    } else {
        FilterOp::Unpark
    }
}
