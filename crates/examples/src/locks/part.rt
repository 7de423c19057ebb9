//! Guards of a part of a value.
//!
//! `First`, `Second`, `Inside` and `At` are ready projections; `Then` puts two behind each other. Under `Inside` and `At`
//! the part may be missing, so `try_map` answers a `Result`.

use parking_lot::{First, Guard, Inside, LockTable, Mutex, ParkingLot, Second, ThreadData};
use std::alloc::Global;
use std::sync::Wait;

/// A player's score, and the badge that he may have.
type Player = (u64, Option<&'static str>);

/// Adds to the score, by a guard that lends the score alone.
fn score<R: Wait>(player: &Mutex<'_, '_, Player, R>, by: u64, me: &mut ThreadData) {
    let mut score = Guard::map(player.lock(me), First);
    *score = score.wrapping_add(by);
}

/// Gives a badge, and answers the one before.
fn award<R: Wait>(
    player: &Mutex<'_, '_, Player, R>,
    new: &'static str,
    me: &mut ThreadData,
) -> Option<&'static str> {
    let mut badge = Guard::map(player.lock(me), Second);
    let old = *badge;
    *badge = Some(new);
    old
}

/// A badge that somebody may have.
type Badge<'t, 'l, R> = Mutex<'t, 'l, Option<&'static str>, R>;

/// The length of the badge's name, where there is one.
fn letters<R: Wait>(badge: &Badge<'_, '_, R>, me: &mut ThreadData) -> Option<usize> {
    match Guard::try_map(badge.lock(me), Inside) {
        Ok(name) => Some((*name).len()),
        Err(whole) => {
            drop(whole); // the same guard, still locked: there was no badge
            None
        }
    }
}

/// A player's points, the badge before the last one, and how many letters it has.
pub fn run<R: Wait + Drop>(
    rt: R,
    alloc: Global,
) -> Result<(u64, Option<&'static str>, Option<usize>), anyhow::Error> {
    let lot = ParkingLot::new(rt, alloc, 1, 5)?;
    let table = LockTable::new(alloc, &lot, 2)?;
    let mut me = lot.thread_data()?;
    let player: Mutex<'_, '_, Player, R> = Mutex::new(&table, (10, None))?;
    score(&player, 5, &mut me);
    score(&player, 7, &mut me);
    let _ = award(&player, "gold", &mut me);
    let gold = award(&player, "silver", &mut me);
    let badge: Badge<'_, '_, R> = Mutex::new(&table, gold)?;
    let letters = letters(&badge, &mut me);
    Ok((player.into_inner().0, gold, letters))
}
