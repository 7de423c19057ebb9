//! Looks at a list of entries.
ghost use Rattle.std.specs.Prelude.{◌≡◌, not, ◌&&◌, position, find};
ghost use Rattle.std.specs.List.{list_any};
ghost use Rattle.std.specs.Option.{option_copied};
ghost use Rattle.lock_api_desk.specs.Guards.{has_number, is_held, excludes};
ghost use Rattle.lock_api_desk.specs.Entries.{guard_in};

use crate::hold::{Entry, is_aside, mode_of};
use crate::mode::Mode;

/// Whether an entry has the number.
pub(crate) fn has_number<S, E, U>(entries: &[Entry<S, E, U>], number: u64) -> bool
    ensures { result ≡ list_any (λ entry. has_number number (guard_in entry)) entries.now }
{
    entries.iter().any(|entry| entry.number == number)
}

/// Whether a held entry excludes the mode.
pub(crate) fn excludes<S, E, U>(entries: &[Entry<S, E, U>], mode: Mode) -> bool
    ensures { result ≡ list_any (λ entry. is_held (guard_in entry) && excludes (guard_in entry).mode mode) entries.now }
{
    entries.iter().any(|entry| !is_aside(&entry.hold) && mode_of(&entry.hold).excludes(mode))
}

/// Whether an entry of another number is held.
pub(crate) fn holds_beside<S, E, U>(entries: &[Entry<S, E, U>], number: u64) -> bool
    ensures { result
        ≡ list_any (λ entry. not (has_number number (guard_in entry)) && is_held (guard_in entry)) entries.now }
{
    entries
        .iter()
        .any(|entry| entry.number != number && !is_aside(&entry.hold))
}

/// Where the number stands.
pub(crate) fn position_of<S, E, U>(entries: &[Entry<S, E, U>], number: u64) -> Option<usize>
    ensures { result ≡ position (λ entry. has_number number (guard_in entry)) entries.now }
{
    entries.iter().position(|entry| entry.number == number)
}

/// The held entry of the number.
pub(crate) fn held<'a, S, E, U>(
    entries: &'a [Entry<S, E, U>],
    number: u64,
) -> Option<&'a Entry<S, E, U>>
    ensures { option_copied result
        ≡ find (λ entry. has_number number (guard_in entry) && is_held (guard_in entry)) entries.now }
{
    entries
        .iter()
        .find(|entry| entry.number == number && !is_aside(&entry.hold))
}
