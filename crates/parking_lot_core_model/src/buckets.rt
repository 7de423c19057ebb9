//! The buckets of keys: which sections are open, and which threads are in them.
//!
//! Its contracts speak of sections by bucket and of keys by thread, so that what it is made of can change.
ghost use Rattle.std.specs.Prelude.{◌≡◌, ◌<◌, ◌≤◌, ◌%◌, ◌+◌, OnOk, OnErr, IfOk, ℕ, Some, None, max, length};
ghost use Rattle.parking_lot_core_model.specs.Lists.{updated};
ghost use Rattle.parking_lot_core_model.specs.Buckets.{threads_with, buckets_for, slot, any_open};
ghost use Rattle.parking_lot_core_model.specs.declared.place.Section.{Section};
ghost use Rattle.parking_lot_core_model.specs.Machine.{let_in, let_out};

use crate::place::Section;
use std::alloc::{AllocError, Allocator};

/// How many buckets there are at first.
const FIRST_COUNT: usize = 16;

/// The sections that are open, by bucket, and the threads in them.
#[derive(Drop)]
pub(crate) struct Buckets<A: Allocator> {
    /// The section that is open in each bucket.
    by_bucket: Vec<Option<Section>, A>,
    /// The key of the section that each thread is in.
    by_thread: Vec<Option<usize>, A>,
    ghost some: { 0 < length by_bucket.items },
}

impl<A: Allocator> Buckets<A> {
    /// How many buckets there are.
    pub fn count(&self) -> usize
        ensures { result ≡ length self.now.by_bucket.items }
    {
        self.by_bucket.len()
    }

    /// The section that is open in the bucket of a key.
    pub fn at(&self, key: usize) -> Option<Section>
        ensures { result ≡ slot self.now.by_bucket.items (key % length self.now.by_bucket.items) }
    {
        look(&self.by_bucket, key % self.by_bucket.len())
    }

    /// The key of the section that a thread is in.
    pub fn key_of(&self, thread: usize) -> Option<usize>
        ensures { result ≡ slot self.now.by_thread.items thread }
    {
        look(&self.by_thread, thread)
    }

    /// Has another section, or none, be open in the bucket of a key.
    pub fn put(&mut self, key: usize, section: Option<Section>)
        ensures count { length self.new.by_bucket.items ≡ length self.old.by_bucket.items }
        ensures sections { slot self.new.by_bucket.items
            ≡ updated (slot self.old.by_bucket.items) (key % length self.old.by_bucket.items) section }
        ensures keys { slot self.new.by_thread.items ≡ slot self.old.by_thread.items }
        ensures seats { length self.new.by_thread.items ≡ length self.old.by_thread.items }
    {
        let bucket = key % self.by_bucket.len();
        self.by_bucket[bucket] = section;
    }

    /// Has a thread be in the section of a key, or in none.
    pub fn seat(&mut self, thread: usize, key: Option<usize>)
        requires { thread < length self.old.by_thread.items }
        ensures count { length self.new.by_bucket.items ≡ length self.old.by_bucket.items }
        ensures sections { slot self.new.by_bucket.items ≡ slot self.old.by_bucket.items }
        ensures keys { slot self.new.by_thread.items ≡ updated (slot self.old.by_thread.items) thread key }
        ensures seats { length self.new.by_thread.items ≡ length self.old.by_thread.items }
    {
        self.by_thread[thread] = key;
    }

    /// Has a thread be in the section of a key, where it is somebody's.
    pub fn let_in(&mut self, owner: Option<usize>, key: usize)
        requires { (t : ℕ) → owner ≡ Some t → t < length self.old.by_thread.items }
        ensures count { length self.new.by_bucket.items ≡ length self.old.by_bucket.items }
        ensures sections { slot self.new.by_bucket.items ≡ slot self.old.by_bucket.items }
        ensures keys { slot self.new.by_thread.items ≡ let_in owner key (slot self.old.by_thread.items) }
        ensures seats { length self.new.by_thread.items ≡ length self.old.by_thread.items }
    {
        if let Some(thread) = owner {
            self.seat(thread, Some(key));
        }
    }

    /// Has it be in none.
    pub fn let_out(&mut self, owner: Option<usize>)
        requires { (t : ℕ) → owner ≡ Some t → t < length self.old.by_thread.items }
        ensures count { length self.new.by_bucket.items ≡ length self.old.by_bucket.items }
        ensures sections { slot self.new.by_bucket.items ≡ slot self.old.by_bucket.items }
        ensures keys { slot self.new.by_thread.items ≡ let_out owner (slot self.old.by_thread.items) }
        ensures seats { length self.new.by_thread.items ≡ length self.old.by_thread.items }
    {
        if let Some(thread) = owner {
            self.seat(thread, None);
        }
    }

    /// Whether a section is open in a bucket.
    pub fn is_any_open(&self) -> bool
        ensures { result ≡ any_open (slot self.now.by_bucket.items) (length self.now.by_bucket.items) }
    {
        is_any_there(&self.by_bucket)
    }

    /// Makes room for so many threads, and has so many buckets, where there are less.
    pub fn make_room(&mut self, threads: usize, count: usize) -> Result<(), AllocError>
        ensures count { OnOk result (length self.new.by_bucket.items ≡ max (length self.old.by_bucket.items) count) }
        ensures seats { OnOk result (threads ≤ length self.new.by_thread.items) }
        ensures sections { slot self.new.by_bucket.items ≡ slot self.old.by_bucket.items }
        ensures keys { slot self.new.by_thread.items ≡ slot self.old.by_thread.items }
        ensures same { OnErr result (length self.new.by_bucket.items ≡ length self.old.by_bucket.items) }
        ensures stays { length self.old.by_thread.items ≤ length self.new.by_thread.items }
    {
        pad(&mut self.by_thread, threads)?;
        pad(&mut self.by_bucket, count)
    }
}

impl<A: Allocator + Clone> Buckets<A> {
    /// No section is open, and nobody is in one.
    pub fn new(alloc: A) -> Result<Self, AllocError>
        ensures { IfOk result (λ made. (length made.by_bucket.items ≡ 16)
            × (slot made.by_bucket.items ≡ (λ (_ : ℕ). None)) × (slot made.by_thread.items ≡ (λ (_ : ℕ). None))) }
    {
        Ok(Buckets {
            by_bucket: vec![in alloc.clone()?; None; FIRST_COUNT]?,
            by_thread: Vec::new(alloc),
        })
    }
}

/// What stands at an index, where something does.
fn look<T: Copy>(list: &[Option<T>], at: usize) -> Option<T>
    ensures { result ≡ slot list.now at }
{
    match list.get(at) {
        Some(there) => *there,
        None => None,
    }
}

/// Whether something stands at an index.
fn is_any_there(sections: &[Option<Section>]) -> bool
    ensures { result ≡ any_open (slot sections.now) (length sections.now) }
{
    for section in sections {
        if section.is_some() {
            return true;
        }
    }
    false
}

/// Adds free places behind the last, until there are so many.
fn pad<T: Copy + Drop, A: Allocator>(
    list: &mut Vec<Option<T>, A>,
    count: usize,
) -> Result<(), AllocError>
    ensures slots { slot list.new.items ≡ slot list.old.items }
    ensures ok { OnOk result (length list.new.items ≡ max (length list.old.items) count) }
    ensures err { OnErr result (length list.new.items ≡ length list.old.items) }
{
    let len = list.len();
    if len < count {
        list.reserve(count - len)?;
        for at in len..count {
            list.push_reserved(None);
        }
    }
    Ok(())
}

/// How many threads have so many numbers, where each has one, or two.
pub(crate) fn threads_with(paired: bool, numbers: usize) -> usize
    requires { numbers ≤ 131072 }
    ensures { result ≡ threads_with paired numbers }
{
    if paired { (numbers + 1) / 2 } else { numbers }
}

/// How many buckets of keys a lot has for so many threads: the least power of two that is 16 or more, and three times
/// as many as they are or more.
pub fn buckets_for(threads: usize) -> usize
    requires { threads ≤ 131072 }
    ensures { result ≡ buckets_for threads }
{
    let wanted = 3 * threads;
    let mut count = FIRST_COUNT;
    for round in 0..threads {
        if wanted <= count {
            return count;
        }
        count *= 2;
    }
    count
}
