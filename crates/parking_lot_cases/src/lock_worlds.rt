//! Worlds of locks.

use crate::memory::{Memory, is_done, listed};
use parking_lot_core::SizeFault;
use parking_lot_world::{LockAnswer, LockCall, LockKind, World, WorldStep};
use refusing_heap::{Case, Heap, Line, Said, Seen, made};

/// The kinds of its locks.
type Kinds = &'static [LockKind];

/// A call on a world of locks of these kinds.
#[derive(Clone, Copy)]
pub enum Call {
    New(Kinds),
    Run,
    Owners,
    Queue,
    Debts,
}

/// A thread asks for the mutex, and goes on until its call is answered, 50 steps at most. The last step is refused.
fn lock<A: Memory>(world: &mut World<A>, thread: usize) -> bool {
    let is_begun = world
        .run(&[WorldStep::Begin(thread, 0, LockCall::Lock)])
        .is_ok();
    for _ in 0..50 {
        if world.run(&[WorldStep::Go(thread, false)]).is_err() {
            return is_begun;
        }
    }
    false
}

/// Thread 0 owns the mutex, lock 0, and thread 1 waits for it.
fn play<A: Memory>(world: &mut World<A>) -> bool {
    let are_begun = lock(world, 0) && lock(world, 1);
    are_begun && world.answer(0) == Some(LockAnswer::Owned) && world.answer(1).is_none()
}

/// What came of a view of who owns a mutex, who waits for it, or who owes a wake.
fn list<A: Memory>(world: &World<A>, call: Call) -> Said {
    match call {
        Call::Owners => listed(world.owners(0), 1, SizeFault::NoMemory),
        Call::Queue => listed(world.queue(0), 1, SizeFault::NoMemory),
        Call::Debts => listed(world.debts(), 0, SizeFault::NoMemory),
        Call::New(_) | Call::Run => Said::Done,
    }
}

/// Asks a view, or runs steps, in a world where one thread owns a mutex and another waits. A view may do with less
/// memory than it asks for first.
fn look<A: Memory>(heap: &Heap, world: &mut World<A>, call: Call) -> Option<Seen> {
    let made = heap.asked();
    let is_played = play(world);
    let played = heap.asked();
    let before = if let Call::Run = call { made } else { played };
    let said = list(world, call);
    let behind = heap.asked();
    let is_owned = is_done(list(world, Call::Owners));
    let is_kept = is_owned && is_done(list(world, Call::Queue));
    Seen::of(before, behind, said.may_fit(heap) && is_played && is_kept)
}

fn make_world<A: Memory>(heap: &Heap, alloc: A, kinds: Kinds) -> Option<Seen> {
    let kinds = Vec::from_slice(alloc, kinds).ok()?;
    let before = heap.asked();
    made(World::new(alloc, 3, kinds), SizeFault::NoMemory).seen(heap, before, true)
}

/// Makes a call in a new world.
fn in_new<A: Memory>(heap: &Heap, world: Result<World<A>, SizeFault>, call: Call) -> Option<Seen> {
    match world {
        Ok(mut world) => look(heap, &mut world, call),
        Err(_) => None,
    }
}

/// Makes a call in a world of three threads and a lock of each kind.
fn with_world<A: Memory>(heap: &Heap, alloc: A, call: Call) -> Option<Seen> {
    match Vec::from_slice(alloc, EACH) {
        Ok(kinds) => in_new(heap, World::new(alloc, 3, kinds), call),
        Err(_) => None,
    }
}

impl<R: Drop> Case<R> for Call {
    fn run(self, _rt: R, heap: &Heap) -> Option<Seen> {
        match self {
            Call::New(kinds) => make_world(heap, heap, kinds),
            _ => with_world(heap, heap, self),
        }
    }
}

/// A lock of each kind.
const EACH: Kinds = &[
    LockKind::Mutex,
    LockKind::FairMutex,
    LockKind::Rw,
    LockKind::RwRecursive,
    LockKind::Condvar,
    LockKind::Once,
];

const FAIR: Kinds = &[LockKind::FairMutex; 2];

const LOCKS: Kinds = &[LockKind::Rw; 2];

const NO: &str = "nothing is made";

const KEPT: &str = "who owns, and who waits";

pub const LINES: &[Line<Call>] = &[
    ("new, mutexes", Call::New(&[LockKind::Mutex; 2]), NO),
    ("new, fair mutexes", Call::New(FAIR), NO),
    ("new, reader-writer locks", Call::New(LOCKS), NO),
    ("new, recursive", Call::New(&[LockKind::RwRecursive; 2]), NO),
    ("new, condvars", Call::New(&[LockKind::Condvar; 2]), NO),
    ("new, onces", Call::New(&[LockKind::Once; 2]), NO),
    ("new, a lock of each kind", Call::New(EACH), NO),
    ("run", Call::Run, "takes none"),
    ("owners", Call::Owners, KEPT),
    ("queue", Call::Queue, KEPT),
    ("debts", Call::Debts, KEPT),
];
