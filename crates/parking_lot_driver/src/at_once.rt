//! Calls that end by their first act: what they have come to.
ghost use Rattle.std.specs.Prelude.{◌≡◌, ◌/◌, ◌%◌, ℕ};
ghost use Rattle.parking_lot_driver.specs.Runs.{Ended};
ghost use Rattle.parking_lot_protocol.specs.declared.act.Act.TheVariants.{Load, Exchange, Add, Done};
ghost use Rattle.parking_lot_protocol.specs.declared.act.ActResult.TheVariants.{Start, Word, Exchanged, Before};
ghost use Rattle.parking_lot_protocol.specs.declared.act.CoreAnswer.{CoreAnswer};
ghost use Rattle.parking_lot_protocol.specs.declared.act.CoreAnswer.TheVariants.{Owned, Released};

use crate::call::Call;
use parking_lot_protocol::CoreAnswer;

/// A call that has seen this word, and has won the exchange by which it ends so, has ended.
#[inline(always)]
pub fn ended_after_a_load<K: Call>(_call: K, _word: u64, _to: u64, _answer: CoreAnswer)
    requires first { K.Core.asks (K.Core.told K.begun Start) ≡ Load }
    requires then { K.Core.asks (K.Core.told (K.Core.told K.begun Start) (Word _word)) ≡ Exchange _word _to }
    requires last { K.Core.asks (K.Core.told (K.Core.told (K.Core.told K.begun Start) (Word _word)) Exchanged) ≡ Done
        _answer }
    ensures { Ended K.Core.told K.Core.asks K.begun _answer }
{}

/// The same of a call that looks at the word once more, which is then as the exchange left it.
#[inline(always)]
pub fn owned_after_a_look<K: Call>(_call: K, _word: u64, _to: u64)
    requires first { K.Core.asks (K.Core.told K.begun Start) ≡ Load }
    requires then { K.Core.asks (K.Core.told (K.Core.told K.begun Start) (Word _word)) ≡ Exchange _word _to }
    requires look { K.Core.asks (K.Core.told (K.Core.told (K.Core.told K.begun Start) (Word _word)) Exchanged) ≡ Load }
    requires last { K.Core.asks
        (K.Core.told (K.Core.told (K.Core.told (K.Core.told K.begun Start) (Word _word)) Exchanged) (Word _to)) ≡ Done
        Owned }
    ensures { Ended K.Core.told K.Core.asks K.begun Owned }
{}

/// A call that owns the lock already and has looked at the word is over, and owns it still.
#[inline(always)]
pub fn owned_as_it_is<K: Call>(_call: K, _word: u64)
    requires first { K.Core.asks (K.Core.told K.begun Start) ≡ Load }
    requires last { K.Core.asks (K.Core.told (K.Core.told K.begun Start) (Word _word)) ≡ Done Owned }
    ensures { Ended K.Core.told K.Core.asks K.begun Owned }
{}

/// A call that has won the exchange with which it begins is over.
#[inline(always)]
pub fn ended_at_once<K: Call>(_call: K, _from: u64, _to: u64)
    requires first { K.Core.asks (K.Core.told K.begun Start) ≡ Exchange _from _to }
    requires last { K.Core.asks (K.Core.told (K.Core.told K.begun Start) Exchanged) ≡ Done Released }
    ensures { (answer : CoreAnswer) × Ended K.Core.told K.Core.asks K.begun answer }
{}

/// A call that has made the addition with which it begins, at this word, is over, with this answer.
#[inline(always)]
pub fn ended_by_sum<K: Call>(_call: K, _by: u64, _word: u64, _answer: CoreAnswer)
    requires first { K.Core.asks (K.Core.told K.begun Start) ≡ Add _by }
    requires last { K.Core.asks (K.Core.told (K.Core.told K.begun Start) (Before _word)) ≡ Done _answer }
    ensures { Ended K.Core.told K.Core.asks K.begun _answer }
{}

/// A call that has made the addition with which it begins, at this word, and has looked at what that left, owns the
/// lock.
#[inline(always)]
pub fn owned_by_sum<K: Call>(_call: K, _by: u64, _word: u64, _left: u64)
    requires first { K.Core.asks (K.Core.told K.begun Start) ≡ Add _by }
    requires look { K.Core.asks (K.Core.told (K.Core.told K.begun Start) (Before _word)) ≡ Load }
    requires last { K.Core.asks
        (K.Core.told (K.Core.told (K.Core.told K.begun Start) (Before _word)) (Word _left)) ≡ Done Owned }
    ensures { Ended K.Core.told K.Core.asks K.begun Owned }
{}
