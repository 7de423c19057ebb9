//! What guards print: what the value that they lend prints.
use crate::arc_guard::ArcGuard;
use crate::guard::Guard;
use crate::held::{Hold, RwLockHold};
use crate::lend::Lender;
use crate::lock::HasValue;
use crate::mapped::Mapped;
use lock_api_raw::Projection;
use std::fmt;
use std::fmt::{Debug, Display};
use std::ops::Deref;
use std::sync::Wait;

impl<W: Lender + Drop, H: Hold> Debug for Guard<W, H>
where
    W::Part: Debug,
    H::Runtime: Wait,
{
    ghost debug_output = { λ guard. W.Part.debug_output (W.part guard.inner) };

    fn fmt<F: fmt::Write>(&self, f: &mut fmt::Formatter<F>) -> fmt::Result {
        Debug::fmt(self.look(), f)
    }
}

impl<W: Lender + Drop, H: Hold> Display for Guard<W, H>
where
    W::Part: Display,
    H::Runtime: Wait,
{
    ghost output = { λ guard. W.Part.output (W.part guard.inner) };

    ghost styled_output = { λ guard style. W.Part.styled_output (W.part guard.inner) style };

    fn fmt<F: fmt::Write>(&self, f: &mut fmt::Formatter<F>) -> fmt::Result {
        Display::fmt(self.look(), f)
    }
}

impl<W: Lender + Drop, H: Hold, P: Projection<W::Part> + Drop> Debug for Mapped<W, H, P>
where
    P::Out: Debug,
    H::Runtime: Wait,
{
    ghost use Rattle.std.specs.Option.{option_and_then};

    ghost debug_output = { λ m. option_and_then P.Out.debug_output (P.focus m.1 (W.part m.0.inner)) };

    fn fmt<F: fmt::Write>(&self, f: &mut fmt::Formatter<F>) -> fmt::Result {
        Debug::fmt(self.deref(), f)
    }
}

impl<W: Lender + Drop, H: Hold, P: Projection<W::Part> + Drop> Display for Mapped<W, H, P>
where
    P::Out: Display,
    H::Runtime: Wait,
{
    ghost use Rattle.std.specs.Option.{option_and_then};

    ghost output = { λ m. option_and_then P.Out.output (P.focus m.1 (W.part m.0.inner)) };

    ghost styled_output = { λ m style. option_and_then (λ part. P.Out.styled_output part style) (P.focus m.1 (W.part m.0.inner)) };

    fn fmt<F: fmt::Write>(&self, f: &mut fmt::Formatter<F>) -> fmt::Result {
        Display::fmt(self.deref(), f)
    }
}

impl<H: RwLockHold> Debug for ArcGuard<H>
where
    H::Lock: HasValue,
    <H::Lock as HasValue>::Value: Debug,
    <H::Lock as HasValue>::Waiting: Wait,
    H::Runtime: Wait,
{
    fn fmt<F: fmt::Write>(&self, f: &mut fmt::Formatter<F>) -> fmt::Result {
        self.with(|value| Debug::fmt(value, f))
    }
}

impl<H: RwLockHold> Display for ArcGuard<H>
where
    H::Lock: HasValue,
    <H::Lock as HasValue>::Value: Display,
    <H::Lock as HasValue>::Waiting: Wait,
    H::Runtime: Wait,
{
    fn fmt<F: fmt::Write>(&self, f: &mut fmt::Formatter<F>) -> fmt::Result {
        self.with(|value| Display::fmt(value, f))
    }
}
