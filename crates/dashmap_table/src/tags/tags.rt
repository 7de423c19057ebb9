//! The tags of a table.
ghost use Rattle.std.specs.Prelude.{◌≡◌, ℕ, ◌<◌, ◌^◌, [], length, replicate, slice_set, IfOk};

use crate::tags::way::EMPTY;
use std::alloc::{AllocError, Allocator, Global};
use std::marker::Model;

/// A tag for each slot of a table, or none at all, and then no memory. A contract sees the list of the tags.
#[derive(Drop)]
pub struct Tags<A: Allocator = Global> {
    bytes: Option<Vec<u8, A>>,
}

impl<A: Allocator> Model for Tags<A> {
    ghost use Rattle.std.specs.Prelude.{ℕ, List};
    ghost use Rattle.dashmap_table.specs.Tags.Tags.{tags_in};

    ghost Value = { List ℕ };

    ghost view = { λ t. tags_in t.bytes };
}

impl<A: Allocator> Tags<A> {
    /// No tags, which take no memory.
    pub fn none() -> Tags<A>
        ensures { result ≡ [] }
    {
        Tags { bytes: None }
    }

    /// The tags of so many slots that nothing was put into.
    pub fn empty(alloc: A, slots: usize) -> Result<Tags<A>, AllocError>
        ensures { IfOk result (λ tags. tags ≡ replicate slots 255) }
    {
        let mut bytes = Vec::new(alloc);
        bytes.resize(slots, EMPTY)?;
        Ok(Tags { bytes: Some(bytes) })
    }

    /// Lends the tags.
    #[inline(always)]
    pub fn as_slice(&self) -> &[u8]
        ensures tags { result.now ≡ self.now }
        ensures small { length self.now < 2 ^ 63 }
    {
        match &self.bytes {
            Some(bytes) => bytes.as_slice(),
            None => &[],
        }
    }

    /// Gives a slot another tag.
    #[inline(always)]
    pub fn set(&mut self, slot: usize, tag: u8)
        requires { slot < length self.old }
        ensures { self.new ≡ slice_set self.old slot tag }
    {
        match &mut self.bytes {
            Some(bytes) => bytes[slot] = tag,
            None => unreachable!(),
        }
    }
}
