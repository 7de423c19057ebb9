//! The places of a lot's threads, by their numbers.
ghost use Rattle.std.specs.Prelude.{◌≡◌, map, slice_set, position, is_none};
ghost use Rattle.std.specs.Option.{option_map};
ghost use Rattle.parking_lot_core_model.specs.Places.{place_at, changed, held, told, moved_to};
ghost use Rattle.parking_lot_core_model.specs.Machine.{free_number};

use crate::parking::UnparkToken;
use crate::place::Place;
use std::alloc::Allocator;

/// The place of a thread, where it is registered.
pub(crate) fn place_at(places: &[Option<Place>], thread: usize) -> Option<Place>
    ensures { result ≡ place_at places.now thread }
{
    match places.get(thread) {
        Some(Some(place)) => Some(*place),
        _ => None,
    }
}

/// Puts a thread at a place, where there is its number.
pub(crate) fn put<A: Allocator>(
    places: &mut Vec<Option<Place>, A>,
    thread: usize,
    place: Option<Place>,
)
    ensures { places.new.items ≡ slice_set places.old.items thread place }
{
    if thread < places.len() {
        places[thread] = place;
    }
}

/// The least number that is free; the length where all are taken.
pub(crate) fn free_number(places: &[Option<Place>]) -> usize
    ensures { result ≡ free_number places.now }
{
    first_free(places).unwrap_or(places.len())
}

/// The least number below the length that is free.
fn first_free(places: &[Option<Place>]) -> Option<usize>
    ensures { result ≡ position is_none places.now }
{
    places.iter().position(|place| place.is_none())
}

/// Takes a waiting thread for a section of the key.
pub(crate) fn hold<A: Allocator>(places: &mut Vec<Option<Place>, A>, thread: usize, key: usize)
    ensures { places.new.items ≡ changed (held key) places.old.items thread }
{
    let place = place_at(places, thread).map(|place| match place {
        Place::Waiting(_, sleep) => Place::Held(key, sleep),
        other => other,
    });
    put(places, thread, place);
}

/// Has a waiting thread stand in another list.
pub(crate) fn relist<A: Allocator>(places: &mut Vec<Option<Place>, A>, thread: usize, key: usize)
    ensures { places.new.items ≡ changed (moved_to key) places.old.items thread }
{
    let place = place_at(places, thread).map(|place| match place {
        Place::Waiting(_, sleep) => Place::Waiting(key, sleep),
        other => other,
    });
    put(places, thread, place);
}

/// Tells those that the section of a key holds their token.
pub(crate) fn tell<A: Allocator>(
    places: &mut Vec<Option<Place>, A>,
    key: usize,
    token: UnparkToken,
    woken: bool,
)
    ensures { places.new.items ≡ map (option_map (told key token woken)) places.old.items }
{
    tell_each(places, key, token, woken);
}

/// The same of a slice.
fn tell_each(places: &mut [Option<Place>], key: usize, token: UnparkToken, woken: bool)
    ensures { places.new ≡ map (option_map (told key token woken)) places.old }
{
    for place in places.iter_mut() {
        *place = place_told(*place, key, token, woken);
    }
}

/// What is told of one place.
fn place_told(place: Option<Place>, key: usize, token: UnparkToken, woken: bool) -> Option<Place>
    ensures { result ≡ option_map (told key token woken) place }
{
    match place {
        Some(Place::Held(list, sleep)) if list == key => {
            Some(Place::Taken(token, list, sleep, woken))
        }
        other => other,
    }
}
