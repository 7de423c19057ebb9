//! Where each kind of step leads a thread.
ghost use Rattle.std.specs.Prelude.{◌≡◌, is_some, true, false, if◌then◌else◌, Some, None};
ghost use Rattle.mapworld_calls.specs.declared.ask.Ask.TheVariants as ask;
ghost use Rattle.mapworld_state.specs.declared.place.Request.TheVariants as request;
ghost use Rattle.mapworld_state.specs.declared.place.Guard.TheVariants as own;
ghost use Rattle.mapworld_calls.specs.Programs.{is_drop};
ghost use Rattle.mapworld_state.specs.Route.{IsWorldAmount, key_route};
ghost use Rattle.mapworld_state.specs.Moves.{request_key, request_manner, mode_of, is_last, lent_way, vacant_key};
ghost use Rattle.mapworld_state.specs.Moves.{shared_phase, exclusive_phase, occupied_phase, occupied_guard};
ghost use Rattle.mapworld_state.specs.Moves.{vacant_phase, vacant_guard};
ghost use Rattle.mapworld_state.specs.Moves.{held_phase, held_guard, start_phase, start_guard, start_shard, is_told};
ghost use Rattle.mapworld_state.specs.Moves.{start_counts};
ghost use Rattle.mapworld_state.specs.Moves.{ends_guard, takes_pair, changed_phase, growth_key, request_of};
ghost use Rattle.mapworld_state.specs.Moves.{opening_way, opening_mode, found_phase, found_done, found_guard};
ghost use Rattle.mapworld_state.specs.Moves.{block_behind};

use crate::route::shard_of;
use crate::walks::{stop_of, stops_at};
use mapworld_calls::{Answer, Ask, Begin, Held, Keyed, Walk};
use mapworld_state::{Growth, Guard, Manner, Mode, Phase, Request, Way};
use std::alloc::Allocator;
use std::hash::{BuildHasher, Hash};
use std::mem;

/// The key that a call is on its way to.
pub fn request_key<K, V, D>(request: &Request<K, V, D>) -> &K
    ensures { result.now ≡ request_key request.now }
{
    match request {
        Request::Keyed(call) => call.key(),
        Request::Begin(begin) => begin.key(),
    }
}

/// How an opening holds its shard.
fn opening_mode<K>(begin: &Begin<K>) -> Mode
    ensures { result ≡ opening_mode begin.now }
{
    match begin {
        Begin::Get(_) | Begin::TryGet(_) | Begin::GetUntil(_) => Mode::Shared,
        _ => Mode::Exclusive,
    }
}

/// How a call on one key holds its shard.
pub fn mode_of<K, V, D>(request: &Request<K, V, D>) -> Mode
    ensures { result ≡ mode_of request.now }
{
    match request {
        Request::Keyed(Keyed::View(_, _)) => Mode::Shared,
        Request::Keyed(Keyed::ContainsKey(_)) => Mode::Shared,
        Request::Keyed(_) => Mode::Exclusive,
        Request::Begin(begin) => opening_mode(begin),
    }
}

/// How long a call on one key waits for its shard.
pub fn request_manner<K, V, D>(request: &Request<K, V, D>) -> Manner
    ensures { result ≡ request_manner request.now }
{
    match request {
        Request::Begin(Begin::TryGet(_) | Begin::TryGetMut(_) | Begin::TryEntry(_)) => {
            Manner::Tries
        }
        Request::Begin(Begin::GetUntil(_) | Begin::GetMutUntil(_)) => Manner::UntilDeadline,
        Request::Keyed(Keyed::InsertUntil(_, _) | Keyed::RemoveUntil(_)) => Manner::UntilDeadline,
        _ => Manner::Waits,
    }
}

/// Whether a call on the guard is its last.
fn is_drop<V, D>(call: &Held<V, D>) -> bool
    ensures { result ≡ is_drop call.now }
{
    matches!(call, Held::Drop)
}

/// Whether a call is the last one of its block, if it has one.
pub fn is_last<K, V, D>(ask: &Ask<K, V, D>) -> bool
    ensures { result ≡ is_last ask.now }
{
    match ask {
        Ask::Keyed(_) => true,
        Ask::Begin(_) => false,
        Ask::Held(call) => is_drop(call),
        Ask::Walk(_) => true,
    }
}

/// Takes a guard apart that lends a pair: how it does.
pub fn lent_way<K: Drop>(guard: Option<Guard<K>>) -> Option<Way<K>>
    ensures { result ≡ lent_way guard }
{
    match guard {
        Some(Guard::Pair(way)) => Some(way),
        _ => None,
    }
}

/// Takes a vacant guard apart: the key that was handed in.
pub fn vacant_key<K: Drop>(guard: Option<Guard<K>>) -> Option<K>
    ensures { result ≡ vacant_key guard }
{
    match guard {
        Some(Guard::Vacant(key)) => Some(key),
        _ => None,
    }
}

/// The phase behind the start of a call on a shared guard.
fn shared_phase<K, V: Drop, D: Drop, T, A: Allocator>(call: Held<V, D>) -> Phase<K, V, D, T, A>
    ensures { result ≡ shared_phase call }
{
    match call {
        Held::Read(deed) => Phase::Read(deed),
        Held::Drop => Phase::Release(Answer::Done),
        _ => Phase::Answer(Answer::WrongGuard),
    }
}

/// The phase behind the start of a call on an exclusive guard.
fn exclusive_phase<K, V: Drop, D: Drop, T, A: Allocator>(call: Held<V, D>) -> Phase<K, V, D, T, A>
    ensures { result ≡ exclusive_phase call }
{
    match call {
        Held::Read(deed) => Phase::Read(deed),
        Held::Write(deed) => Phase::Change(Held::Write(deed)),
        Held::Downgrade => Phase::Downgrade,
        Held::Drop => Phase::Release(Answer::Done),
        _ => Phase::Answer(Answer::WrongGuard),
    }
}

/// The phase behind the start of a call on an occupied guard, and the guard behind it.
fn start_occupied<K: Drop, V: Drop, D: Drop, T, A: Allocator>(
    call: Held<V, D>,
    key: K,
) -> (Phase<K, V, D, T, A>, Option<Guard<K>>)
    ensures { result ≡ (occupied_phase call key, occupied_guard call key) }
{
    let phase = match call {
        Held::IntoRef => {
            let guard = Guard::Pair(Way::Exclusive);
            return (Phase::Answer(Answer::Held), Some(guard));
        }
        Held::IntoKey => return (Phase::Release(Answer::Key(key)), None),
        Held::Read(deed) => Phase::Read(deed),
        Held::Downgrade => Phase::Answer(Answer::WrongGuard),
        Held::Drop => Phase::Release(Answer::Done),
        call => Phase::Change(call),
    };
    (phase, Some(Guard::Pair(Way::Occupied(key))))
}

/// The phase behind the start of a call on a vacant guard, and the guard behind it.
fn start_vacant<K, V: Drop, D: Drop, T, A: Allocator>(
    call: Held<V, D>,
    key: K,
) -> (Phase<K, V, D, T, A>, Option<Guard<K>>)
    ensures { result ≡ (vacant_phase call key, vacant_guard call key) }
{
    let phase = match call {
        Held::IntoKey => return (Phase::Release(Answer::Key(key)), None),
        Held::Insert(value) => Phase::Fill(value),
        Held::Drop => Phase::Release(Answer::Done),
        _ => Phase::Answer(Answer::WrongGuard),
    };
    (phase, Some(Guard::Vacant(key)))
}

/// The phase behind the start of a call on a guard that lends a pair, and the guard behind it.
fn start_pair<K: Drop, V: Drop, D: Drop, T, A: Allocator>(
    call: Held<V, D>,
    way: Way<K>,
) -> (Phase<K, V, D, T, A>, Option<Guard<K>>)
    ensures { result ≡ (held_phase (Some (own.Pair way)) call, held_guard (Some (own.Pair way)) call) }
{
    match way {
        Way::Occupied(key) => start_occupied(call, key),
        Way::Exclusive => {
            let guard = Guard::Pair(Way::Exclusive);
            (exclusive_phase(call), Some(guard))
        }
        Way::Shared => {
            let guard = Guard::Pair(Way::Shared);
            (shared_phase(call), Some(guard))
        }
    }
}

/// The phase behind the start of a call on the guard, and the guard behind it.
fn start_held<K: Drop, V: Drop, D: Drop, T, A: Allocator>(
    call: Held<V, D>,
    guard: Option<Guard<K>>,
) -> (Phase<K, V, D, T, A>, Option<Guard<K>>)
    ensures { result ≡ (held_phase guard call, held_guard guard call) }
{
    match guard {
        None => (Phase::Answer(Answer::NoGuard), None),
        Some(Guard::Vacant(key)) => start_vacant(call, key),
        Some(Guard::Pair(way)) => start_pair(call, way),
    }
}

/// The phase behind the start of a walk: one that is to give no item asks for no shard.
fn start_walk<K, V, D, T, A: Allocator>(walk: Walk<D>) -> Phase<K, V, D, T, A>
    ensures { result ≡ start_phase (ask.Walk walk) None }
{
    if stops_at(stop_of(&walk), 0) {
        Phase::Idle(walk)
    } else {
        Phase::Reach(walk)
    }
}

/// The phase behind a call's start, and the guard behind it.
pub fn start_call<K: Drop, V: Drop, D: Drop, T, A: Allocator>(
    ask: Ask<K, V, D>,
    guard: Option<Guard<K>>,
) -> (Phase<K, V, D, T, A>, Option<Guard<K>>)
    ensures { result ≡ (start_phase ask guard, start_guard ask guard) }
{
    match ask {
        Ask::Keyed(keyed) => (Phase::Admit(Request::Keyed(keyed)), guard),
        Ask::Begin(begin) => (Phase::Admit(Request::Begin(begin)), guard),
        Ask::Held(call) => start_held(call, guard),
        Ask::Walk(walk) => (start_walk(walk), guard),
    }
}

/// The shard of a call that starts.
pub fn start_shard<K: Eq + Hash, V, D, S: BuildHasher>(
    hasher: &S,
    shards: usize,
    ask: &Ask<K, V, D>,
    shard: usize,
) -> usize
    requires { IsWorldAmount shards }
    ensures { result ≡ start_shard (key_route S.BuildHasher S.Hasher.Hasher K.hash_input hasher.now shards) ask.now
        shard }
{
    match ask {
        Ask::Keyed(call) => shard_of(hasher, shards, call.key()),
        Ask::Begin(begin) => shard_of(hasher, shards, begin.key()),
        Ask::Held(_) => shard,
        Ask::Walk(_) => 0,
    }
}

/// Whether a call is told at its start, by the phase behind it.
fn is_told<K, V, D, T, A: Allocator>(phase: &Phase<K, V, D, T, A>) -> bool
    ensures { result ≡ is_told phase.now }
{
    matches!(phase, Phase::Answer(_) | Phase::Release(Answer::Key(_)))
}

/// The block that a start counts its call in, by the phase behind it.
pub fn start_counts<K, V, D, T, A: Allocator>(
    phase: &Phase<K, V, D, T, A>,
    block: Option<usize>,
) -> Option<usize>
    ensures { result ≡ start_counts phase.now block }
{
    if is_told(phase) { block } else { None }
}

/// Whether a guard ends by a call that changes its pair.
pub fn ends_guard<V, D>(call: &Held<V, D>) -> bool
    ensures { result ≡ ends_guard call.now }
{
    matches!(
        call,
        Held::Remove | Held::RemoveEntry | Held::ReplaceEntry(_)
    )
}

/// Whether the guard's pair goes by such a call.
pub fn takes_pair<V, D>(call: &Held<V, D>) -> bool
    ensures { result ≡ takes_pair call.now }
{
    matches!(call, Held::Remove | Held::RemoveEntry)
}

/// The phase behind such a call's deed.
pub fn changed_phase<K, V, D, T, A: Allocator>(
    ends: bool,
    answer: Answer<K, V, T, A>,
) -> Phase<K, V, D, T, A>
    ensures { result ≡ changed_phase ends answer }
{
    if ends {
        Phase::Release(answer)
    } else {
        Phase::Answer(answer)
    }
}

/// The call for which a shard grows.
pub fn request_of<K, V, D>(call: Growth<K, V>) -> Request<K, V, D>
    ensures { result ≡ request_of call }
{
    match call {
        Growth::Insert(key, value) => Request::Keyed(Keyed::Insert(key, value)),
        Growth::InsertUntil(key, value) => Request::Keyed(Keyed::InsertUntil(key, value)),
        Growth::Entry(key) => Request::Begin(Begin::Entry(key)),
        Growth::TryEntry(key) => Request::Begin(Begin::TryEntry(key)),
    }
}

/// The phase behind a find of a key that is present.
fn present_phase<K: Drop, V: Drop, D: Drop, T, A: Allocator>(
    call: Keyed<K, V, D>,
) -> Phase<K, V, D, T, A>
    ensures { (room : _) → result ≡ found_phase (request.Keyed call) true room }
{
    match call {
        Keyed::View(key, deed) => Phase::View(key, deed),
        Keyed::ContainsKey(_) => Phase::Release(Answer::Flag(true)),
        call => Phase::Apply(call),
    }
}

/// The phase behind a find of a key that is absent.
fn absent_phase<K: Drop, V: Drop, D: Drop, T, A: Allocator>(
    call: Keyed<K, V, D>,
    room: bool,
) -> Phase<K, V, D, T, A>
    ensures { result ≡ found_phase (request.Keyed call) false room }
{
    match call {
        Keyed::Insert(key, value) | Keyed::InsertUntil(key, value) if room => {
            Phase::Append(key, value)
        }
        Keyed::Insert(key, value) => Phase::Grow(Growth::Insert(key, value)),
        Keyed::InsertUntil(key, value) => Phase::Grow(Growth::InsertUntil(key, value)),
        Keyed::Alter(_, _) => Phase::Release(Answer::Done),
        Keyed::ContainsKey(_) => Phase::Release(Answer::Flag(false)),
        _ => Phase::Release(Answer::None),
    }
}

/// The guard that an opening gives of a pair.
fn opening_way<K: Drop>(begin: Begin<K>) -> Way<K>
    ensures { result ≡ opening_way begin }
{
    match begin {
        Begin::Get(_) | Begin::TryGet(_) | Begin::GetUntil(_) => Way::Shared,
        Begin::GetMut(_) | Begin::TryGetMut(_) | Begin::GetMutUntil(_) => Way::Exclusive,
        Begin::Entry(key) | Begin::TryEntry(key) => Way::Occupied(key),
    }
}

/// The phase behind an opening's find of a key that is absent, and the guard that the find gives.
fn find_nothing<K: Drop, V, D, T, A: Allocator>(
    begin: Begin<K>,
    room: bool,
) -> (Phase<K, V, D, T, A>, Option<Guard<K>>)
    ensures { result ≡ (
      found_phase (request.Begin begin) false room,
      found_guard {V = V} {D = D} (request.Begin begin)
          false room,
    ) }
{
    match begin {
        Begin::Entry(key) | Begin::TryEntry(key) if room => {
            (Phase::Answer(Answer::Vacant), Some(Guard::Vacant(key)))
        }
        Begin::Entry(key) => (Phase::Grow(Growth::Entry(key)), None),
        Begin::TryEntry(key) => (Phase::Grow(Growth::TryEntry(key)), None),
        _ => (Phase::Release(Answer::None), None),
    }
}

/// The phase behind a find, and the guard that it gives, by whether the key is present and whether there is room for
/// it.
pub fn found<K: Drop, V: Drop, D: Drop, T, A: Allocator>(
    request: Request<K, V, D>,
    present: bool,
    room: bool,
) -> (Phase<K, V, D, T, A>, Option<Guard<K>>)
    ensures { result ≡ (found_phase request present room, found_guard request present room) }
{
    match (request, present) {
        (Request::Keyed(call), true) => (present_phase(call), None),
        (Request::Keyed(call), false) => (absent_phase(call, room), None),
        (Request::Begin(begin), true) => {
            let guard = Guard::Pair(opening_way(begin));
            (Phase::Answer(Answer::Held), Some(guard))
        }
        (Request::Begin(begin), false) => find_nothing(begin, room),
    }
}

/// How many of its calls the block that a find lists has done, if it lists one.
pub fn found_done<K, V, D>(request: &Request<K, V, D>, present: bool, room: bool) -> Option<usize>
    ensures { result ≡ found_done request.now present room }
{
    match (request, present) {
        (Request::Keyed(Keyed::ContainsKey(_)), _) => Some(1),
        (Request::Keyed(Keyed::View(_, _)), true) => None,
        (Request::Keyed(Keyed::Insert(_, _) | Keyed::InsertUntil(_, _)), false) => {
            if room { Some(0) } else { None }
        }
        (Request::Keyed(_), true) => Some(0),
        (Request::Begin(Begin::Entry(_) | Begin::TryEntry(_)), false) => {
            if room { Some(1) } else { None }
        }
        _ => Some(1),
    }
}

/// The block of a thread behind a step that may have listed one.
pub fn block_behind(done: Option<usize>, next: usize, block: Option<usize>) -> Option<usize>
    ensures { result ≡ block_behind done next block }
{
    if done.is_some() { Some(next) } else { block }
}

/// The block that a release counts its call in: that of the guard that ends.
pub fn release_counts<K>(guard: &Option<Guard<K>>, block: Option<usize>) -> Option<usize>
    ensures { result ≡ (if is_some guard.now then block else None) }
{
    if guard.is_some() { block } else { None }
}

/// Puts a phase in the place of the one before.
pub fn enter<K: Drop, V: Drop, D: Drop, T: Drop, A: Allocator>(
    phase: &mut Phase<K, V, D, T, A>,
    next: Phase<K, V, D, T, A>,
)
    ensures { phase.new ≡ next }
{
    drop(mem::replace(phase, next));
}
