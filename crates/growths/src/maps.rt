//! Calls on maps as data.

use crate::memory::Memory;
use crate::rows::{EACH, Map, On, PAIR, Rows, Setup};
use dashmap_calls::{Answer, Call, Keyed, Many, Operator, Place, Try, Walk, make};
use refusing_heap::{Line, Seen, refused_growth};

/// A call on a map on which these were made before, and what it answers: where it is done; and where the first growth
/// is refused, the second, .., and behind the last of these alike.
#[derive(Clone, Copy)]
pub struct OnMap<'a>(&'a [Call], Call, Answer, &'a [Answer]);

/// The item of such a list for this growth, of which the first is 1; and this one for 0, where none is refused.
pub fn wanted<T: Copy>(done: T, refused: &[T], growth: u64) -> T {
    let mut wanted = done;
    for number in 0..refused.len() {
        if (number as u64) < growth {
            wanted = refused[number];
        }
    }
    wanted
}

/// More keys than are used.
const KEYS: u64 = 64;

/// How many pairs there are, and a number that tells of all of them.
fn pairs_of<T: Rows, A: Memory>(map: &Map<T, A>, me: &mut T::Party) -> (u64, u64) {
    let mut sum = 0u64;
    for key in 0..KEYS {
        sum = sum.wrapping_mul(31);
        if let Answer::Number(value) = make(map, Call::Key(Keyed::View(key)), me) {
            sum = sum.wrapping_add(value).wrapping_add(1);
        }
    }
    (map.len(me) as u64, sum)
}

/// Makes the call on a map that is lent, and compares what stands: first that no shard is held, since who asks for one
/// that is, waits.
pub fn look<T: Rows, R, A: Memory>(
    setup: &Setup<'_, T, R, A>,
    map: &Map<T, A>,
    me: &mut T::Party,
    call: OnMap<'_>,
) -> Option<Seen> {
    let OnMap(others, call, done, refused) = call;
    for other in others {
        let _answer = make(map, *other, me);
    }
    let pairs = pairs_of::<T, A>(map, me);
    let before = setup.heap.asked();
    let answer = make(map, call, me);
    let behind = setup.heap.asked();
    let growth = refused_growth(setup.heap, before);
    let is_so = setup.table.are_free() && answer == wanted(done, refused, growth);
    let is_kept = is_so && (growth == 0 || pairs_of::<T, A>(map, me) == pairs);
    Seen::of(before, behind, is_kept)
}

const NEW: &[Call] = &[];

const TWO: &[Call] = &[Call::Many(Many::Insert(0, 2, 0))];

const FULL: &[Call] = &[Call::Many(Many::Insert(0, 28, 0))];

const ROOM: &[Call] = &[
    Call::Many(Many::Insert(0, 40, 0)),
    Call::Many(Many::Remove(2, 40, 0)),
];

const PUT: Call = Call::Key(Keyed::Insert(1, 9));

const PUT_LAST: Call = Call::Key(Keyed::Insert(28, 9));

const SHL: Call = Call::Operator(Operator::Shl(1, 9));

const ENTRY: Call = Call::Entry(1, Place::OrInsert(9));

const TRY: Call = Call::Try(Try::Entry(1));

const ITER: Call = Call::Walk(Walk::Iter(0));

const ITER_MUT: Call = Call::Walk(Walk::IterMut(1));

const NONE: Answer = Answer::Absent;

const ONE: Answer = Answer::Number(1);

const BACK: &[Answer] = &[Answer::Back(1, 9)];

const LAST_BACK: &[Answer] = &[Answer::Back(28, 9)];

const KEY_BACK: &[Answer] = &[Answer::Refused(1)];

const MET: Answer = Answer::Three(2, 1, 2);

const STOPS: &[Answer] = &[Answer::Refused(0), Answer::Refused(1)];

const YES: Answer = Answer::Flag(true);

const NO: &[Answer] = &[Answer::Flag(false)];

const KEY: &str = "the key comes back; no pair; no hold";

const ITEMS: &str = "the items before it; the walk is over; no hold";

const TAKES_NONE: &str = "takes none";

const INTO_NEW: On<'static> = On::Map(OnMap(NEW, PUT, NONE, BACK));

const INTO_FULL: On<'static> = On::Map(OnMap(FULL, PUT_LAST, NONE, LAST_BACK));

const PRESENT: On<'static> = On::Map(OnMap(TWO, PUT, ONE, &[]));

const ENTERED: On<'static> = On::Map(OnMap(NEW, ENTRY, Answer::Number(9), KEY_BACK));

const READ: On<'static> = On::Map(OnMap(TWO, ITER, MET, STOPS));

const WRITTEN: On<'static> = On::Map(OnMap(TWO, ITER_MUT, Answer::Number(2), &[]));

const SHRUNK: On<'static> = On::Map(OnMap(ROOM, Call::ShrinkToFit, YES, NO));

pub const LINES: &[Line<On<'static>>] = &[
    ("insert, into a new shard", INTO_NEW, PAIR),
    ("insert, into a full shard", INTO_FULL, PAIR),
    ("insert, of a key that is there", PRESENT, TAKES_NONE),
    ("<<", On::Map(OnMap(NEW, SHL, NONE, BACK)), PAIR),
    ("entry", ENTERED, KEY),
    ("try_entry", On::Map(OnMap(NEW, TRY, ONE, KEY_BACK)), KEY),
    ("iter, two items", READ, ITEMS),
    ("iter_mut, two items", WRITTEN, TAKES_NONE),
    ("shrink_to_fit", SHRUNK, EACH),
];
