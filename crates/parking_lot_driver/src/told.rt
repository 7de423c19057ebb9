//! A call under way.
ghost use Rattle.std.specs.Prelude.{◌≡◌, ◌⊎◌, IfSome};
ghost use Rattle.parking_lot_driver.specs.Runs.{Ended, WasTold};
ghost use Rattle.parking_lot_protocol.specs.Acts.{Gives};
ghost use Rattle.parking_lot_protocol.specs.declared.act.Act.TheVariants.{Section, Done};
ghost use Rattle.parking_lot_protocol.specs.declared.act.ActResult.TheVariants.{Start};

use crate::call::Call;
use crate::decision::DecisionCore;
use parking_lot_core::UnparkToken;
use parking_lot_protocol::timed::giving;
use parking_lot_protocol::{Act, ActResult, CoreAnswer};
use std::alloc::AllocError;
use std::marker::Model;

/// A call that has begun: its core, which was told nothing but what the acts that it asked for can give.
#[derive(Copy)]
pub struct Run<K: Call<Core = C>, C: DecisionCore> {
    call: K,
    core: C,
}

impl<K: Call<Core = C>, C: DecisionCore> Model for Run<K, C> {
    ghost use Rattle.parking_lot_driver.specs.Runs.{WasTold};

    ghost Value = { K × C };

    ghost view = { λ run. (run.call, run.core) };

    ghost inverse = { λ run. record { call = run.0; core = run.1 } };

    ghost invariant = { λ run. WasTold C.told C.asks K.begun run.core };
}

impl<K: Call<Core = C>, C: DecisionCore> Clone for Run<K, C> {
    fn clone(&self) -> Result<Run<K, C>, AllocError> {
        Ok(*self)
    }
}

impl<K: Call<Core = C>, C: DecisionCore> Run<K, C> {
    /// Begins a call.
    pub fn begin(call: K) -> Run<K, C>
        ensures { result ≡ (call, C.told K.begun Start) }
    {
        let mut core = K::begin();
        core.next(ActResult::Start);
        Run { call, core }
    }

    /// The act that it has asked for.
    pub fn act(&self) -> Act
        ensures { result ≡ C.asks self.now.1 }
    {
        self.core.act()
    }

    /// Its core, which was told nothing but what the acts that it asked for can give.
    pub fn core(&self) -> C
        ensures core { result ≡ self.now.1 }
        ensures told { WasTold C.told C.asks K.begun result }
    {
        self.core
    }

    /// The token for those that a section has taken, once it has stored.
    pub fn wake_token(&self) -> UnparkToken
        ensures { result ≡ C.wakes self.now.1 }
    {
        self.core.wake_token()
    }

    /// Is told what its act gave, and answers the next. What the act can't give isn't told: then it asks for the same
    /// again.
    pub fn tell(&mut self, seen: ActResult) -> Act
        ensures act { result ≡ C.asks self.new.1 }
        ensures core { (self.new.1 ≡ C.told self.old.1 seen) ⊎ (self.new.1 ≡ self.old.1) }
    {
        if let Some(_word) = giving(self.act(), seen) {
            self.core.next(seen);
        }
        self.act()
    }

    /// Is told what its act gave at this word, and answers the next.
    pub fn learn(&mut self, seen: ActResult, _word: u64) -> Act
        requires { Gives (C.asks self.old.1) _word seen }
        ensures act { result ≡ C.asks self.new.1 }
        ensures core { self.new.1 ≡ C.told self.old.1 seen }
    {
        self.core.next(seen)
    }

    /// That a call which asks for its end has ended so.
    pub fn ended(&self, answer: CoreAnswer)
        requires { C.asks self.now.1 ≡ Done answer }
        ensures { Ended C.told C.asks K.begun answer }
    {
        let _core = &self.core;
    }
}
