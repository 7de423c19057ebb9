//! The guards of the running map.
//!
//! A guard holds the lock of one shard and names one slot of it. **It lends that slot's pair** until it is dropped: the
//! pair stays there, and nobody writes it but the holder of an exclusive guard. `get` of the map gives a
//! [`Ref`](mapref::one::Ref), `get_mut` a [`RefMut`](mapref::one::RefMut), and either is narrowed to a part of its
//! value by `map`.
//!
//! The guards are generic in the std guard `W` of the shard and in the raw hold `H`. `D` stands for the borrow of what
//! the thread lent to the call, so that it can't ask again with the same while the guard lives.
#![tactic(auto)]

pub mod leaving;
pub mod mapref;
mod try_result;
mod util;

pub use try_result::TryResult;
pub use util::{SharedValue, map_in_place_2, ptr_size_bits};
