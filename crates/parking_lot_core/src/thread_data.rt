//! A participant's own data.
ghost use Rattle.std.specs.Prelude.{◌≡◌};

use crate::chain::Chain;
use std::alloc::{Allocator, Global};
use std::marker::Model;

/// What a participant of a [`ParkingLot`](crate::ParkingLot) keeps of itself: the number of its lot, its own number
/// there and its recorded resources. It can't be copied, and is lent to whatever may wait.
///
/// Contracts see it as a `Participant`. One that is dropped without a `retire` stays counted.
#[derive(Drop)]
pub struct ThreadData<A: Allocator = Global> {
    pub(crate) lot: u64,
    pub(crate) thread: usize,
    pub(crate) resources: Vec<usize, A>,
    /// Its node, while it doesn't wait.
    pub(crate) node: Chain<A>,
}

impl<A: Allocator> Model for ThreadData<A> {
    ghost use Rattle.parking_lot_core.specs.Participants.{Participant};

    ghost Value = { Participant };

    ghost view = { λ t. record { lot = t.lot; thread = t.thread; resources = t.resources.items } };
}

impl<A: Allocator> ThreadData<A> {
    /// The number of the lot that made it.
    ///
    /// ```text
    /// let lot = me.lot_number();
    /// ```
    pub fn lot_number(&self) -> u64
        ensures { result ≡ self.now.lot }
    {
        self.lot
    }

    /// Its number in that lot, from 0.
    ///
    /// ```text
    /// let number = me.thread_number();   // from 0
    /// ```
    pub fn thread_number(&self) -> usize
        ensures { result ≡ self.now.thread }
    {
        self.thread
    }
}
