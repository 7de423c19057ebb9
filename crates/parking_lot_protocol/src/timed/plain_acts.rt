//! What the acts of a call that waits can give.
ghost use Rattle.std.specs.Prelude.{IfSome};
ghost use Rattle.parking_lot_protocol.specs.Acts.{Gives};
ghost use Rattle.parking_lot_protocol.specs.declared.act.Act.TheVariants.{Section};

use crate::{Act, ActResult, SectionAct};

/// A word at which an act gives this, if there is one.
///
/// ```text
/// assert_eq!(rt; giving(Act::Exchange(0, 1), ActResult::Exchanged), Some(0));
/// assert_eq!(rt; giving(Act::Load, ActResult::Exchanged), None);
/// ```
pub fn giving(act: Act, seen: ActResult) -> Option<u64>
    ensures { IfSome result (λ word. Gives act word seen) }
{
    match (act, seen) {
        (Act::Load, ActResult::Word(word)) => Some(word),
        (Act::Exchange(from, _), ActResult::Exchanged) => Some(from),
        (Act::Exchange(from, _), ActResult::Word(word)) if word != from => Some(word),
        (Act::Add(_), ActResult::Before(word)) => Some(word),
        (Act::FetchAnd(_), ActResult::Before(word)) => Some(word),
        (Act::Spin, ActResult::Spun(_)) => Some(0),
        (Act::Enter(_), ActResult::Entered) => Some(0),
        (Act::Sleep, ActResult::Woken(_)) => Some(0),
        (Act::Section(act), seen) => giving_inside(act, seen),
        _ => None,
    }
}

/// The same of an act in a section, where each gives what it gives at any word.
fn giving_inside(act: SectionAct, seen: ActResult) -> Option<u64>
    ensures { IfSome result (λ word. Gives (Section act) word seen) }
{
    match (act, seen) {
        (SectionAct::Check, ActResult::Word(word)) => Some(word),
        (SectionAct::TakeFirst, ActResult::Took { .. }) => Some(0),
        (SectionAct::TakeNext(_), ActResult::Took { .. }) => Some(0),
        (SectionAct::Append(_), ActResult::Made) => Some(0),
        (SectionAct::Store { .. }, ActResult::Stored { .. }) => Some(0),
        (SectionAct::Leave, ActResult::Made) => Some(0),
        (SectionAct::Wake, ActResult::Made) => Some(0),
        _ => None,
    }
}
