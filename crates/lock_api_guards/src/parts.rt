//! Projections that programs need most: to a half of a pair, into an option, and to one of many.
ghost use Rattle.std.specs.Prelude.{◌≡◌, ℕ, Some};

use lock_api_raw::{Projection, TotalProjection};
use std::alloc::Allocator;

/// To the first of two. Every pair has it.
///
/// ```text
/// let first = MutexGuard::map(lock.lock(me), First); // of a lock of (1, "one"): 1
/// ```
#[derive(Drop)]
pub struct First;

impl<A: Drop, B> Projection<(A, B)> for First {
    type Out = A;

    ghost use Rattle.lock_api_raw.specs.Examples.{first_is_way};

    ghost focus = { λ by pair. Some pair.0 };

    ghost with_focus = { λ by pair part. (part, pair.1) };

    fn get<'a>(&'a self, whole: &'a (A, B)) -> Option<&'a A> {
        Some(&whole.0)
    }

    fn get_mut<'a>(whole: &'a mut (A, B), _by: &'a First) -> Option<&'a mut A> {
        Some(&mut whole.0)
    }

    fn part_mut<'a>(whole: &'a mut (A, B), _by: &'a First) -> &'a mut A {
        &mut whole.0
    }

    ghost laws = { λ by. first_is_way };
}

impl<A: Drop, B> TotalProjection<(A, B)> for First {
    ghost use Rattle.std.specs.Prelude.{refl};

    ghost always = { λ by whole. refl };
}

/// To the second of two. Every pair has it.
///
/// ```text
/// let second = MutexGuard::map(lock.lock(me), Second); // of a lock of (1, "one"): "one"
/// ```
#[derive(Drop)]
pub struct Second;

impl<A, B: Drop> Projection<(A, B)> for Second {
    type Out = B;

    ghost use Rattle.lock_api_guards.specs.Parts.{second_is_way};

    ghost focus = { λ by pair. Some pair.1 };

    ghost with_focus = { λ by pair part. (pair.0, part) };

    fn get<'a>(&'a self, whole: &'a (A, B)) -> Option<&'a B> {
        Some(&whole.1)
    }

    fn get_mut<'a>(whole: &'a mut (A, B), _by: &'a Second) -> Option<&'a mut B> {
        Some(&mut whole.1)
    }

    fn part_mut<'a>(whole: &'a mut (A, B), _by: &'a Second) -> &'a mut B {
        &mut whole.1
    }

    ghost laws = { λ by. second_is_way };
}

impl<A, B: Drop> TotalProjection<(A, B)> for Second {
    ghost use Rattle.std.specs.Prelude.{refl};

    ghost always = { λ by whole. refl };
}

/// To the inside of an option, which is missing in `None`.
///
/// ```text
/// match MutexGuard::try_map(lock.lock(me), Inside) {
///     Ok(inside) => { /* of a lock of Some(7): 7 */ }
///     Err(guard) => { /* of a lock of None, whose guard comes back */ }
/// }
/// ```
#[derive(Drop)]
pub struct Inside;

impl<A: Drop> Projection<Option<A>> for Inside {
    type Out = A;

    ghost use Rattle.lock_api_raw.specs.Examples.{with_inside, inside_is_way};

    ghost focus = { λ by whole. whole };

    ghost with_focus = { λ by. with_inside };

    fn get<'a>(&'a self, whole: &'a Option<A>) -> Option<&'a A> {
        whole.as_ref()
    }

    fn get_mut<'a>(whole: &'a mut Option<A>, _by: &'a Inside) -> Option<&'a mut A> {
        whole.as_mut()
    }

    fn part_mut<'a>(whole: &'a mut Option<A>, _by: &'a Inside) -> &'a mut A {
        whole.as_mut().unwrap()
    }

    ghost laws = { λ by. inside_is_way };
}

/// To the element of a list at an index, from 0. It is missing where the list is no longer than that.
///
/// ```text
/// match MutexGuard::try_map(lock.lock(me), At(1)) {
///     Ok(second) => { /* of a lock of [4, 5, 6]: 5 */ }
///     Err(guard) => { /* of a lock of [4], whose guard comes back */ }
/// }
/// ```
#[derive(Drop)]
pub struct At(pub usize);

impl<T: Drop, A: Allocator> Projection<Vec<T, A>> for At {
    type Out = T;

    ghost use Rattle.std.specs.Prelude.{slice_get};
    ghost use Rattle.std.specs.Vec.{with_item};
    ghost use Rattle.lock_api_guards.specs.Elements.{item_is_way};

    ghost focus = { λ by whole. slice_get whole.items by.0 };

    ghost with_focus = { λ by whole part. with_item whole by.0 part };

    fn get<'a>(&'a self, whole: &'a Vec<T, A>) -> Option<&'a T> {
        whole.get(self.0)
    }

    fn get_mut<'a>(whole: &'a mut Vec<T, A>, by: &'a At) -> Option<&'a mut T> {
        whole.get_mut(by.0)
    }

    fn part_mut<'a>(whole: &'a mut Vec<T, A>, by: &'a At) -> &'a mut T {
        &mut whole[by.0]
    }

    ghost laws = { λ by. item_is_way by.0 };
}
