//! What is seen, by the kind of act that gives it.
ghost use Rattle.std.specs.Prelude.{◌≡◌, Some, None, is_some, option_map};
ghost use Rattle.parking_lot_protocol.specs.Acts.{is_start, is_entered, is_made, word_seen, exchange_seen, spun_seen};
ghost use Rattle.parking_lot_protocol.specs.Acts.{took_seen, stored_seen, woken_seen};
ghost use Rattle.parking_lot_protocol_waits.specs.Once.OnceTable.{once};

use crate::once::once_phase::OncePhase;
use parking_lot_core_model::UnparkToken;
use parking_lot_protocol::ActResult;

/// The phase, where the call begins.
pub(crate) fn begun(seen: ActResult, phase: OncePhase) -> Option<OncePhase>
    ensures { result ≡ once (is_start seen) phase }
{
    match seen {
        ActResult::Start => Some(phase),
        _ => None,
    }
}

/// The phase, where a section is entered.
pub(crate) fn entered(seen: ActResult, phase: OncePhase) -> Option<OncePhase>
    ensures { result ≡ once (is_entered seen) phase }
{
    match seen {
        ActResult::Entered => Some(phase),
        _ => None,
    }
}

/// The phase, where the act was made.
pub(crate) fn made(seen: ActResult, phase: OncePhase) -> Option<OncePhase>
    ensures { result ≡ once (is_made seen) phase }
{
    match seen {
        ActResult::Made => Some(phase),
        _ => None,
    }
}

/// A word that a load or a check saw.
pub(crate) fn word(seen: ActResult) -> Option<u64>
    ensures { result ≡ word_seen seen }
{
    match seen {
        ActResult::Word(word) => Some(word),
        _ => None,
    }
}

/// Whether an exchange was won, and else the word that it saw.
pub(crate) fn exchange(seen: ActResult) -> Option<Result<(), u64>>
    ensures { result ≡ exchange_seen seen }
{
    match seen {
        ActResult::Word(word) => Some(Err(word)),
        ActResult::Exchanged => Some(Ok(())),
        _ => None,
    }
}

/// Whether a round was spun.
pub(crate) fn spun(seen: ActResult) -> Option<bool>
    ensures { result ≡ spun_seen seen }
{
    match seen {
        ActResult::Spun(spun) => Some(spun),
        _ => None,
    }
}

/// Whether a waiter was taken, and whether waiters are left.
pub(crate) fn took(seen: ActResult) -> Option<(bool, bool)>
    ensures { result ≡ option_map (λ t. (is_some t.token, t.left)) (took_seen seen) }
{
    match seen {
        ActResult::Took { token, left } => Some((token.is_some(), left)),
        _ => None,
    }
}

/// Which of two changes was made.
pub(crate) fn stored(seen: ActResult) -> Option<bool>
    ensures { result ≡ stored_seen seen }
{
    match seen {
        ActResult::Stored { fair } => Some(fair),
        _ => None,
    }
}

/// The token of a wake.
pub(crate) fn woken(seen: ActResult) -> Option<UnparkToken>
    ensures { result ≡ woken_seen seen }
{
    match seen {
        ActResult::Woken(token) => Some(token),
        _ => None,
    }
}
