//! A map from numbers to lists, as one list of entries in the order in which they came.
//!
//! Its contracts speak of the map alone, so that what it is made of can change.
ghost use Rattle.std.specs.Prelude.{◌≡◌, ◌+◌, ◌<◌, ◌≤◌, ◌∷◌, ◌++◌, [], IfOk, OnOk, OnErr, MatchOption, ℕ, length, map};
ghost use Rattle.std.specs.Prelude.{position, remove, slice_get, is_some, if◌then◌else◌, filter, not, ◌==◌};
ghost use Rattle.parking_lot_core_model.specs.Lists.{updated, without_first, kept, is_under, IsNth};

use std::alloc::{AllocError, Allocator};

/// An item of the list under `key`.
#[derive(Clone, Copy)]
pub(crate) struct Entry<T> {
    pub key: usize,
    pub item: T,
}

/// A map from numbers to lists. A key that has never got an item has the empty list.
#[derive(Drop)]
pub(crate) struct Lists<T, A: Allocator> {
    entries: Vec<Entry<T>, A>,
}

impl<T: Copy, A: Allocator> Lists<T, A> {
    /// No items.
    pub fn new(alloc: A) -> Self
        ensures { kept result ≡ (λ (_ : ℕ). []) }
    {
        Lists {
            entries: Vec::new(alloc),
        }
    }

    /// Adds an item at the end of the key's list, or changes nothing.
    pub fn try_push(&mut self, key: usize, item: T) -> Result<(), AllocError>
        ensures ok { OnOk result (kept self.new ≡ updated (kept self.old) key (kept self.old key ++ item ∷ [])) }
        ensures err { OnErr result (kept self.new ≡ kept self.old) }
    {
        self.entries.push(Entry { key, item })?;
        Ok(())
    }

    /// Where the `nth` item of the key's list stands among all, counted from 0.
    fn find(&self, key: usize, nth: usize) -> Option<usize>
        ensures { MatchOption result (length (kept self.now key) ≤ nth)
            (λ at. (item : T) × IsNth self.now.entries.items key nth at item) }
    {
        let mut passed = 0;
        for (at, entry) in self.entries.iter().enumerate() {
            if entry.key == key {
                if passed == nth {
                    return Some(at);
                }
                passed += 1;
            }
        }
        None
    }

    /// Takes the `nth` item out of the key's list.
    fn take(&mut self, key: usize, nth: usize) -> Option<T>
        ensures item { result ≡ slice_get (kept self.old key) nth }
        ensures kept { kept self.new ≡ updated (kept self.old) key (remove (kept self.old key) nth) }
    {
        let at = self.find(key, nth)?;
        Some(self.entries.remove(at).item)
    }

    /// Empties the key's list.
    pub fn clear(&mut self, key: usize)
        ensures { kept self.new ≡ updated (kept self.old) key [] }
    {
        drop_under(&mut self.entries, key);
    }
}

/// What can be known by a number.
pub(crate) trait Numbered: Copy {
    /// The number.
    ghost number_of: { Self → ℕ };

    fn number(&self) -> usize
        ensures { result ≡ number_of self.now };
}

impl<T: Numbered, A: Allocator> Lists<T, A> {
    /// Where the first item of that number stands in the key's list.
    pub fn place_of(&self, key: usize, number: usize) -> Option<usize>
        ensures { result ≡ position (λ item. T.number_of item == number) (kept self.now key) }
    {
        position_under(&self.entries, key, number)
    }

    /// Takes the first item of that number out of the key's list, and answers whether there was one.
    pub fn take_number(&mut self, key: usize, number: usize) -> bool
        ensures kept { kept self.new ≡ updated (kept self.old) key
            (without_first (λ item. T.number_of item == number) (kept self.old key)) }
        ensures found { result ≡ is_some (position (λ item. T.number_of item == number) (kept self.old key)) }
    {
        match self.place_of(key, number) {
            Some(nth) => {
                self.take(key, nth);
                true
            }
            None => false,
        }
    }

    /// The numbers of the key's list, in order.
    pub fn numbers(&self, key: usize, alloc: A) -> Result<Vec<usize, A>, AllocError>
        ensures { IfOk result (λ numbers. numbers.items ≡ map T.number_of (kept self.now key)) }
    {
        numbers_under(&self.entries, key, alloc)
    }
}

/// Lets go of the entries under the key.
fn drop_under<T: Copy, A: Allocator>(entries: &mut Vec<Entry<T>, A>, key: usize)
    ensures { entries.new.items ≡ filter (λ e. not (is_under key e)) entries.old.items }
{
    entries.retain(|entry| entry.key != key);
}

/// Where the first item of that number stands among those under the key.
fn position_under<T: Numbered>(entries: &[Entry<T>], key: usize, number: usize) -> Option<usize>
    ensures { result ≡ position (λ e. T.number_of e.item == number) (filter (is_under key) entries.now) }
{
    entries
        .iter()
        .filter(|entry| entry.key == key)
        .position(|entry| entry.item.number() == number)
}

/// The numbers of the items under the key.
fn numbers_under<T: Numbered, A: Allocator>(
    entries: &[Entry<T>],
    key: usize,
    alloc: A,
) -> Result<Vec<usize, A>, AllocError>
    ensures { IfOk result
        (λ numbers. numbers.items ≡ map (λ e. T.number_of e.item) (filter (is_under key) entries.now)) }
{
    entries
        .iter()
        .filter(|entry| entry.key == key)
        .map(|entry| entry.item.number())
        .collect(alloc)
}
