//! A call under way, as the sections see it.

use crate::call::Call;
use crate::decision::DecisionCore;
use crate::told::Run;
use parking_lot_core::UnparkToken;
use parking_lot_protocol::{Act, ActResult};

/// A call that has begun: it asks for an act, and is told what that gave. What the act can't give isn't told: then it
/// asks for the same again.
pub trait UnderWay: Copy {
    /// The act that it has asked for.
    fn act(&self) -> Act;

    /// Is told what its act gave, and answers the next.
    fn tell(&mut self, seen: ActResult) -> Act;

    /// The token for those that a section has taken, once it has stored.
    fn wake_token(&self) -> UnparkToken;
}

impl<K: Call<Core = C>, C: DecisionCore> UnderWay for Run<K, C> {
    fn act(&self) -> Act {
        Run::act(self)
    }

    fn tell(&mut self, seen: ActResult) -> Act {
        Run::tell(self, seen)
    }

    fn wake_token(&self) -> UnparkToken {
        Run::wake_token(self)
    }
}
