//! Tries: cores that wait for nobody.
ghost use Rattle.std.specs.Prelude.{◌≡◌, ◌≢◌, ◌≤◌, IfOk, IfErr};
ghost use Rattle.parking_lot_driver.specs.Tries.{Admitted, Refused, WasToldOf};
ghost use Rattle.parking_lot_protocol.specs.declared.act.Act.TheVariants.{Load, Exchange, Done};
ghost use Rattle.parking_lot_protocol.specs.declared.act.ActResult.TheVariants.{Start, Word, Exchanged};
ghost use Rattle.parking_lot_protocol.specs.declared.act.CoreAnswer.TheVariants.{Owned};

use crate::call::Call;
use crate::decision::DecisionCore;
use crate::place::Place;
use crate::try_call::TryCall;
use parking_lot_protocol::{Act, ActResult};
use std::alloc::Allocator;

/// How many acts a try makes at most: a look at the word and 64 exchanges.
const TRY_ACTS: u32 = 65;

/// A try that has seen this word, and has won its first exchange, was admitted.
#[inline(always)]
pub fn admitted_at_once<K: Call>(_call: K, _word: u64, _to: u64)
    requires first { K.Core.asks (K.Core.told K.begun Start) ≡ Load }
    requires then { K.Core.asks (K.Core.told (K.Core.told K.begun Start) (Word _word)) ≡ Exchange _word _to }
    requires last { K.Core.asks (K.Core.told (K.Core.told (K.Core.told K.begun Start) (Word _word)) Exchanged) ≡ Done
        Owned }
    ensures { Admitted K.Core.told K.Core.asks K.begun }
{}

impl<R, A: Allocator> Place<'_, '_, '_, R, A> {
    /// Makes a try that has seen this word and no more, with what is in hand. That comes back where it was refused.
    pub fn try_on<K: TryCall>(&self, call: K, word: u64, had: K::Had) -> Result<K::Gained, K::Had>
        requires first { K.Core.asks (K.Core.told K.begun Start) ≡ Load }
        requires name { K.is_of had self.now.row.now.shared.now.word }
        ensures won { IfOk result (λ gained. K.gained_of gained self.now.row.now.shared.now.word) }
        ensures kept { IfErr result (λ had. K.is_of had self.now.row.now.shared.now.word) }
        ensures admitted { IfOk result (λ _. Admitted K.Core.told K.Core.asks K.begun) }
        ensures refused { IfErr result (λ _. Refused self.now.limit K.Core.told K.Core.asks K.begun) }
    {
        let mut core = K::begin();
        core.next(ActResult::Start);
        core.next(ActResult::Word(word));
        self.go_on_trying(call, core, 1, had)
    }

    /// The same of a try that has seen the word, and has lost its first exchange to the word that is there now.
    pub fn try_again<K: TryCall>(
        &self,
        call: K,
        word: u64,
        _to: u64,
        now: u64,
        had: K::Had,
    ) -> Result<K::Gained, K::Had>
        requires first { K.Core.asks (K.Core.told K.begun Start) ≡ Load }
        requires then { K.Core.asks (K.Core.told (K.Core.told K.begun Start) (Word word)) ≡ Exchange word _to }
        requires lost { now ≢ word }
        requires name { K.is_of had self.now.row.now.shared.now.word }
        ensures won { IfOk result (λ gained. K.gained_of gained self.now.row.now.shared.now.word) }
        ensures kept { IfErr result (λ had. K.is_of had self.now.row.now.shared.now.word) }
        ensures admitted { IfOk result (λ _. Admitted K.Core.told K.Core.asks K.begun) }
        ensures refused { IfErr result (λ _. Refused self.now.limit K.Core.told K.Core.asks K.begun) }
    {
        let mut core = K::begin();
        core.next(ActResult::Start);
        core.next(ActResult::Word(word));
        core.next(ActResult::Word(now));
        self.go_on_trying(call, core, 2, had)
    }

    /// Runs a try that was told of so many acts to its end. One that would admit a reader more than may be ends before.
    #[inline(never)]
    fn go_on_trying<K: TryCall<Core = C>, C: DecisionCore>(
        &self,
        _call: K,
        begun: C,
        count: u32,
        had: K::Had,
    ) -> Result<K::Gained, K::Had>
        requires first { C.asks (C.told K.begun Start) ≡ Load }
        requires few { count ≤ 65 }
        requires told { WasToldOf C.told C.asks K.begun count begun }
        requires tries { K.trying begun }
        requires name { K.is_of had self.now.row.now.shared.now.word }
        ensures won { IfOk result (λ gained. K.gained_of gained self.now.row.now.shared.now.word) }
        ensures kept { IfErr result (λ had. K.is_of had self.now.row.now.shared.now.word) }
        ensures admitted { IfOk result (λ _. Admitted C.told C.asks K.begun) }
        ensures refused { IfErr result (λ _. Refused self.now.limit C.told C.asks K.begun) }
    {
        let mut core = begun;
        let mut kept = had;
        for _made in count..TRY_ACTS {
            let act = core.act();
            if self.is_full(act) {
                return Err(kept);
            }
            match act {
                Act::Load => {
                    core.next(ActResult::Word(self.word().load()));
                }
                Act::Exchange(from, to) => match K::step(self.word(), kept, from, to) {
                    Ok(gained) => return Ok(gained),
                    Err((had, seen)) => {
                        kept = had;
                        core.next(ActResult::Word(seen));
                    }
                },
                _ => return Err(kept),
            }
        }
        Err(kept)
    }
}
