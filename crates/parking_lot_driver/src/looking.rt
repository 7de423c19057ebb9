//! A section that goes through the waiters of a key in order.

use crate::under_way::UnderWay;
use parking_lot_core::{FilterOp, ParkToken};
use parking_lot_protocol::{Act, ActResult, SectionAct, wake_sum};

/// A call that is shown one waiter after another. Of the last that it took it is told at the next one, or at the end:
/// only then it is known whether others are left.
#[derive(Clone, Copy)]
pub(crate) struct Looking<U: UnderWay> {
    pub run: U,
    /// The token of the last that was taken, as long as the call isn't told of it.
    pub taken: Option<ParkToken>,
}

impl<U: UnderWay> Looking<U> {
    /// Shows it a waiter, and answers what is to be done with it.
    pub fn shown(&mut self, token: ParkToken) -> FilterOp {
        self.told(true);
        match self.run.act() {
            Act::Section(SectionAct::TakeNext(sum)) => self.looks(sum, token),
            _ => FilterOp::Stop,
        }
    }

    /// Looks at a waiter with so large a sum.
    fn looks(&mut self, sum: u64, token: ParkToken) -> FilterOp {
        let op = wake_sum(sum, token);
        if op == FilterOp::Unpark {
            self.taken = Some(token);
        }
        op
    }

    /// Tells it of the last that was taken, and whether others are left.
    fn told(&mut self, left: bool) {
        if self.taken.is_some() {
            let token = self.taken;
            self.taken = None;
            self.run.tell(ActResult::Took { token, left });
        }
    }

    /// Tells it that there are no more to be shown.
    pub fn ended(&mut self, left: bool) {
        self.told(left);
        if let Act::Section(SectionAct::TakeNext(_)) = self.run.act() {
            self.run.tell(ActResult::Took { token: None, left });
        }
    }
}
