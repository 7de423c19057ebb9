//! Projections, by which a guard is narrowed to a part of its value.
ghost use Rattle.std.specs.Prelude.{◌≡◌, Option, Some, IsSome};
ghost use Rattle.std.specs.Option.{option_copied, option_copied_mut};
ghost use Rattle.std.specs.Borrow.{Lends, LendsIf, sem};
ghost use Rattle.lock_api_raw.specs.Parts.{IsWay, IsTotalWay, then_focus, then_with, then_is_way, then_is_total};

use std::mem;

/// A way to one part of a value, which may be missing.
///
/// A projection says by two definitions what it does: `focus` is the part that a value has, and `with_focus` is the
/// value with its part replaced. `laws` says that they go together: a read after a write gives what was written,
/// writing back what was read changes nothing, of two writes the last counts, and a write where there is no such part
/// changes nothing. None of its calls takes memory.
///
/// ```text
/// struct First;
///
/// impl Projection<(u64, u64)> for First {
///     type Out = u64;
///     ghost focus = { λ by pair. Some pair.0 };
///     ghost with_focus = { λ by pair part. (part, pair.1) };
///     // .. `get`, `get_mut` and `part_mut` lend the field ..
/// }
///
/// First.set(&mut pair, 9); // Some(1) of (1, 2), which is (9, 2) then
/// ```
pub trait Projection<T> {
    /// The part. `set` lets a part go where there is no place for it.
    type Out: Drop;

    /// The part that a value has.
    ghost focus: { Self → T → Option Self.Out };

    /// The value with its part replaced.
    ghost with_focus: { Self → T → Self.Out → T };

    /// The part, or None where the value has no such part.
    ///
    /// ```text
    /// let first = First.get(&(1_u64, 2_u64)).copied();   // Some(1)
    /// ```
    fn get<'a>(&'a self, whole: &'a T) -> Option<&'a Self::Out>
        ensures { option_copied result ≡ focus self.now whole.now };

    /// The part for writing, where the value has one.
    ///
    /// ```text
    /// let mut pair = (1_u64, 2_u64);
    /// if let Some(first) = First::get_mut(&mut pair, &First) { *first = 9; }   // (9, 2)
    /// ```
    fn get_mut<'a>(whole: &'a mut T, by: &'a Self) -> Option<&'a mut Self::Out>
        ensures* writes_back { sem 𝓛 (LendsIf T.row Self.Out.row whole.entry result (with_focus by.now whole.old) whole.old) }
        ensures value { option_copied_mut result ≡ focus by.now whole.old };

    /// The part for writing, of a value that has one.
    ///
    /// ```text
    /// P::part_mut(self.guard.lend(), &self.by)
    /// ```
    fn part_mut<'a>(whole: &'a mut T, by: &'a Self) -> &'a mut Self::Out
        requires { IsSome (focus by.now whole.old) }
        ensures* writes_back { sem 𝓛 (Lends T.row Self.Out.row whole.entry result (with_focus by.now whole.old)) }
        ensures value { Some result.now ≡ focus by.now whole.old };

    /// Stores the part and answers the old one. Where there is no such part it answers None, lets the given one go and
    /// changes nothing.
    ///
    /// ```text
    /// let mut pair = (1_u64, 2_u64);
    /// let old = First.set(&mut pair, 9);   // Some(1)
    /// ```
    fn set(&self, whole: &mut T, part: Self::Out) -> Option<Self::Out>
        ensures old { result ≡ focus self.now whole.old }
        ensures stored { IsSome (focus self.now whole.old) → whole.new ≡ with_focus self.now whole.old part }
        ensures absent { focus self.now whole.old ≡ None → whole.new ≡ whole.old }
    {
        match Self::get_mut(whole, self) {
            Some(place) => Some(mem::replace(place, part)),
            None => None,
        }
    }

    /// Reading and writing the part go together.
    ghost laws: { (by : Self) → IsWay (focus by) (with_focus by) };
}

/// A projection that every value has a part for.
pub trait TotalProjection<T>: Projection<T> {
    /// There is always a part.
    ghost always: { (by : Self) → IsTotalWay (Self.focus by) (Self.with_focus by) };

    /// The part, which is always there.
    ///
    /// ```text
    /// let first = *First.part(&(1_u64, 2_u64));   // 1
    /// ```
    final fn part<'a>(&'a self, whole: &'a T) -> &'a Self::Out
        ensures { Self.focus self.now whole.now ≡ Some result.now }
    {
        self.get(whole).unwrap()
    }
}

/// First `P`, and then `Q` of the part that `P` gives.
///
/// The part is missing where either finds none, and a write leads back through both.
///
/// ```text
/// let inside = Then::new(First, Inside);
/// inside.set(&mut pair, 7); // Some(1) of (Some(1), 2), which is (Some(7), 2) then
/// ```
#[derive(Drop)]
pub struct Then<P, Q> {
    /// What is followed first.
    pub first: P,
    /// What is followed from there.
    pub second: Q,
}

impl<P, Q> Then<P, Q> {
    /// Keeps both. It takes no memory.
    ///
    /// ```text
    /// let inside = Then::new(First, Inside);
    /// ```
    pub fn new(first: P, second: Q) -> Then<P, Q>
        ensures first { result.first ≡ first }
        ensures second { result.second ≡ second }
    {
        Then { first, second }
    }
}

impl<T, P: Projection<T>, Q: Projection<P::Out>> Projection<T> for Then<P, Q> {
    type Out = Q::Out;

    ghost focus = { λ by. then_focus (P.focus by.first) (P.with_focus by.first) (Q.focus by.second)
        (Q.with_focus by.second) };

    ghost with_focus = { λ by. then_with (P.focus by.first) (P.with_focus by.first) (Q.focus by.second) (Q.with_focus by.second) };

    fn get<'a>(&'a self, whole: &'a T) -> Option<&'a Q::Out> {
        self.second.get(self.first.get(whole)?)
    }

    fn get_mut<'a>(whole: &'a mut T, by: &'a Self) -> Option<&'a mut Q::Out> {
        Q::get_mut(P::get_mut(whole, &by.first)?, &by.second)
    }

    fn part_mut<'a>(whole: &'a mut T, by: &'a Self) -> &'a mut Q::Out {
        Q::part_mut(P::part_mut(whole, &by.first), &by.second)
    }

    ghost laws = { λ by. then_is_way (P.focus by.first) (P.with_focus by.first) (Q.focus by.second)
        (Q.with_focus by.second) (P.laws by.first) (Q.laws by.second) };
}

impl<T, P: TotalProjection<T>, Q: TotalProjection<P::Out>> TotalProjection<T> for Then<P, Q> {
    ghost always = { λ by. then_is_total (P.focus by.first) (P.with_focus by.first) (Q.focus by.second)
        (Q.with_focus by.second) (P.always by.first) (Q.always by.second) };
}
