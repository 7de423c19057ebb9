//! A call in a section in which it may sleep: whether the lock was handed over to it.

use crate::timed_sleep::InTime;
use crate::under_way::UnderWay;
use parking_lot_core::UnparkToken;
use parking_lot_protocol::timed::{TimedAct, TimedSeen};
use parking_lot_protocol::{Act, ActResult, SectionAct};

/// A call that notes with which token it has joined a list, and whether it was woken with a share of the lock.
#[derive(Clone, Copy)]
pub(crate) struct Handed<U: Copy> {
    pub run: U,
    /// The token, which is the share that it wants.
    token: u64,
    /// Whether the lock was handed over to it.
    handed: bool,
}

impl<U: Copy> Handed<U> {
    /// A call that wasn't handed anything yet.
    pub fn of(run: U) -> Handed<U> {
        Handed {
            run,
            token: 0,
            handed: false,
        }
    }

    /// The share that was handed over to it, or 0.
    pub fn share(&self) -> u64 {
        if self.handed { self.token } else { 0 }
    }

    /// Notes the act that it has asked for.
    fn notes_act(&mut self, act: Act) {
        if let Act::Section(SectionAct::Append(token)) = act {
            self.token = token.0 as u64;
        }
    }

    /// Notes what it was told.
    fn notes_result(&mut self, seen: ActResult) {
        if let ActResult::Woken(token) = seen {
            self.handed = token.0 == 1;
        }
    }
}

impl<U: UnderWay> UnderWay for Handed<U> {
    fn act(&self) -> Act {
        self.run.act()
    }

    fn tell(&mut self, seen: ActResult) -> Act {
        let mut run = self.run;
        let act = run.tell(seen);
        self.run = run;
        self.notes_act(act);
        self.notes_result(seen);
        act
    }

    fn wake_token(&self) -> UnparkToken {
        self.run.wake_token()
    }
}

impl<T: InTime> InTime for Handed<T> {
    fn parked(&self) -> u64 {
        self.run.parked()
    }

    fn told(&mut self, seen: TimedSeen) -> TimedAct {
        let mut run = self.run;
        let act = run.told(seen);
        self.run = run;
        if let TimedAct::Makes(makes) = act {
            self.notes_act(makes);
        }
        if let TimedSeen::Plain(plain) = seen {
            self.notes_result(plain);
        }
        act
    }
}
