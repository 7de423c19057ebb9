//! Calls on the lot where they are never refused.
ghost use Rattle.std.specs.Prelude.{◌≡◌, ◌≢◌, ◌||◌, ℕ, None, Some, if◌then◌else◌, Ok, false, slice_set};
ghost use Rattle.parking_lot_core_model.specs.declared.place.Phase.TheVariants as phase;
ghost use Rattle.parking_lot_core_model.specs.declared.parking.FilterOp.TheVariants.{Stop, Unpark};
ghost use Rattle.parking_lot_core_model.specs.declared.parking.UnparkToken.{UnparkToken};
ghost use Rattle.parking_lot_core_model.specs.declared.place.Place.TheVariants.{Running, Taken, Waiting};
ghost use Rattle.parking_lot_core_model.specs.declared.place.Section.{Section};
ghost use Rattle.parking_lot_core_model.specs.declared.place.Sleep.{Sleep};
ghost use Rattle.parking_lot_core_model.specs.Places.{place_at, may_check, may_join, may_store, may_take, passed_of};
ghost use Rattle.parking_lot_core_model.specs.Results.{is_left};
ghost use Rattle.parking_lot_core_model.specs.Sound.{Sound};
ghost use Rattle.parking_lot_core_model.specs.Machine.{machine, given_up, quit_fault, quitted, return_fault, returned};
ghost use Rattle.parking_lot_core_model.specs.Machine.{any_phase, closed, enter_fault, in_phase, joined, opened};
ghost use Rattle.parking_lot_core_model.specs.Machine.{open_at, section_of, step_fault, stored};
ghost use Rattle.parking_lot_protocol.specs.Wake.{wake_answer};
ghost use Rattle.parking_lot_machine.specs.NextTakings.{NextTaken};
ghost use Rattle.parking_lot_machine.specs.Passes.{ArePassed};

use parking_lot_core_model::{
    DEFAULT_UNPARK_TOKEN, FilterOp, Lot, ParkResult, ParkToken, Taking, UnparkToken,
};
use parking_lot_protocol::wake_sum;
use std::alloc::Allocator;

/// Opens a section of a key.
pub(crate) fn enter<A: Allocator>(lot: &mut Lot<A>, thread: usize, key: usize)
    requires free { enter_fault (machine lot.old) thread key ≡ None }
    ensures opened { machine lot.new ≡ opened (machine lot.old) (Some thread) key }
    ensures sound { Sound (machine lot.new) }
{
    let _ = lot.enter(thread, key);
    lot.known();
}

/// Says in a section whether its thread is to join the list.
pub(crate) fn check<A: Allocator>(lot: &mut Lot<A>, thread: usize, joins: bool)
    requires inside { step_fault may_check (machine lot.old) thread ≡ None }
    ensures checked { (s : Section) → section_of (machine lot.old) thread ≡ Some s
        → machine lot.new ≡ in_phase (machine lot.old) s.key (if joins then phase.Valid else phase.Invalid) }
    ensures sound { Sound (machine lot.new) }
{
    let _ = lot.check(thread, joins);
    lot.known();
}

/// Says in a section that its store is made.
pub(crate) fn store<A: Allocator>(lot: &mut Lot<A>, thread: usize, token: UnparkToken)
    requires inside { step_fault may_store (machine lot.old) thread ≡ None }
    ensures stored { (s : Section) → section_of (machine lot.old) thread ≡ Some s
        → machine lot.new ≡ stored (machine lot.old) s.key token }
    ensures sound { Sound (machine lot.new) }
{
    let _ = lot.store_done(thread, token);
    lot.known();
}

/// Closes a section.
pub(crate) fn leave<A: Allocator>(lot: &mut Lot<A>, thread: usize)
    requires inside { step_fault any_phase (machine lot.old) thread ≡ None }
    ensures closed { (s : Section) → section_of (machine lot.old) thread ≡ Some s
        → machine lot.new ≡ closed (machine lot.old) s.key false }
    ensures sound { Sound (machine lot.new) }
{
    let _ = lot.leave(thread);
    lot.known();
}

/// Puts the section's thread at the end of its list. It has no deadline.
pub(crate) fn append<A: Allocator>(lot: &mut Lot<A>, thread: usize, token: ParkToken)
    requires inside { step_fault may_join (machine lot.old) thread ≡ None }
    ensures joined { (s : Section) → section_of (machine lot.old) thread ≡ Some s
        → machine lot.new ≡ joined (in_phase (machine lot.old) s.key phase.Joined) thread s.key token false }
    ensures sound { Sound (machine lot.new) }
{
    let _ = lot.append(thread, token, false);
    lot.known();
}

/// Opens a section of the key of a thread that sleeps there.
pub(crate) fn come_back<A: Allocator>(lot: &mut Lot<A>, thread: usize, key: usize)
    requires free { return_fault (machine lot.old) thread key ≡ None }
    ensures returned { machine lot.new ≡ returned (machine lot.old) thread key }
    ensures sound { Sound (machine lot.new) }
{
    let _ = lot.come_back(thread, key);
    lot.known();
}

/// Opens a section of the key of a thread that slept there and was taken. It runs from then on; its section has taken
/// nobody and has nothing to store, and says so.
pub(crate) fn find<A: Allocator>(lot: &mut Lot<A>, thread: usize, key: usize)
    requires free { return_fault (machine lot.old) thread key ≡ None }
    requires off { (token : UnparkToken) × (sleep : Sleep)
        × (place_at (machine lot.old).places thread ≡ Some (Taken token key sleep false)) }
    ensures found { machine lot.new ≡ stored
        (in_phase (record (returned (machine lot.old) thread key)
        { places = slice_set (machine lot.old).places thread (Some Running) }) key phase.Ended) key (record { 0 = 0 }) }
    ensures sound { Sound (machine lot.new) }
{
    come_back(lot, thread, key);
    quit_taken(lot, thread, key);
    store_nothing(lot, thread, key);
}

/// Says in a thread's section of a key that there is nothing to store.
fn store_nothing<A: Allocator>(lot: &mut Lot<A>, thread: usize, key: usize)
    requires store { step_fault may_store (machine lot.old) thread ≡ None }
    requires within { (s : Section) × (section_of (machine lot.old) thread ≡ Some s) × (s.key ≡ key) }
    ensures stored { machine lot.new ≡ stored (machine lot.old) key (record { 0 = 0 }) }
    ensures sound { Sound (machine lot.new) }
{
    store(lot, thread, DEFAULT_UNPARK_TOKEN);
}

/// Has a thread run that came back into its section and was taken.
fn quit_taken<A: Allocator>(lot: &mut Lot<A>, thread: usize, key: usize)
    requires there { quit_fault (machine lot.old) thread ≡ None }
    requires off { (token : UnparkToken) × (sleep : Sleep)
        × (place_at (machine lot.old).places thread ≡ Some (Taken token key sleep false)) }
    requires inside { (s : Section) × ((machine lot.old).inside thread ≡ Some key)
        × (open_at (machine lot.old) key ≡ Some s) × (s.key ≡ key) }
    ensures runs { machine lot.new ≡ in_phase
        (record (machine lot.old) { places = slice_set (machine lot.old).places thread (Some Running) }) key
        phase.Ended }
    ensures within { (s : Section) × (section_of (machine lot.new) thread ≡ Some s) × (s.key ≡ key) }
    ensures store { step_fault may_store (machine lot.new) thread ≡ None }
{
    let _ = lot.quit(thread);
}

/// Takes a thread that came back out of its list. Answers whether others are left there; then its section has nothing
/// to store, and says so, as it does where the caller says so.
pub(crate) fn quit<A: Allocator>(lot: &mut Lot<A>, thread: usize, key: usize, stores: bool) -> bool
    requires there { quit_fault (machine lot.old) thread ≡ None }
    requires waits { (sleep : Sleep) × (place_at (machine lot.old).places thread ≡ Some (Waiting key sleep)) }
    requires inside { (s : Section) × ((machine lot.old).inside thread ≡ Some key)
        × (open_at (machine lot.old) key ≡ Some s) × (s.key ≡ key) }
    ensures left { result ≡ is_left ((in_phase (given_up (machine lot.old) thread key) key phase.Ended).queues key) }
    ensures out { machine lot.new
        ≡ (if result || stores then stored (in_phase (given_up (machine lot.old) thread key) key phase.Ended) key
        (record { 0 = 0 }) else in_phase (given_up (machine lot.old) thread key) key phase.Ended) }
    ensures sound { Sound (machine lot.new) }
{
    quit_list(lot, thread, key);
    let left = lot.has_waiters(key);
    if left || stores {
        store_nothing(lot, thread, key);
    }
    lot.known();
    left
}

/// Takes a thread that came back out of its list.
fn quit_list<A: Allocator>(lot: &mut Lot<A>, thread: usize, key: usize)
    requires there { quit_fault (machine lot.old) thread ≡ None }
    requires waits { (sleep : Sleep) × (place_at (machine lot.old).places thread ≡ Some (Waiting key sleep)) }
    requires inside { (s : Section) × ((machine lot.old).inside thread ≡ Some key)
        × (open_at (machine lot.old) key ≡ Some s) × (s.key ≡ key) }
    ensures out { machine lot.new ≡ in_phase (given_up (machine lot.old) thread key) key phase.Ended }
    ensures within { (s : Section) × (section_of (machine lot.new) thread ≡ Some s) × (s.key ≡ key) }
    ensures store { step_fault may_store (machine lot.new) thread ≡ None }
{
    let _ = lot.quit(thread);
}

/// Takes the first waiter of the section's list, whatever it waits for. `None` where nobody is left that wasn't passed.
pub(crate) fn take_first<A: Allocator>(lot: &mut Lot<A>, thread: usize) -> Option<Taking>
    requires inside { step_fault may_take (machine lot.old) thread ≡ None }
    requires passed { (s : Section) → section_of (machine lot.old) thread ≡ Some s
        → ArePassed (λ token. Unpark) ((machine lot.old).queues s.key) (passed_of s.phase) }
    ensures next { (s : Section) → section_of (machine lot.old) thread ≡ Some s
        → NextTaken (λ token. Unpark) (machine lot.old) (machine lot.new) (Ok result) s.key }
    ensures sound { Sound (machine lot.new) }
{
    let wants = |_token: ParkToken| -> FilterOp
        ensures { result ≡ Unpark }
    { FilterOp::Unpark };
    let taking = lot.take_next(thread, wants).ok().flatten();
    lot.known();
    taking
}

/// Takes the first waiter of the section's list that a scan takes at that sum of tokens. `None` where it passes all.
pub(crate) fn take_next<A: Allocator>(lot: &mut Lot<A>, thread: usize, sum: u64) -> Option<Taking>
    requires inside { step_fault may_take (machine lot.old) thread ≡ None }
    requires passed { (s : Section) → section_of (machine lot.old) thread ≡ Some s
        → ArePassed (wake_answer sum) ((machine lot.old).queues s.key) (passed_of s.phase) }
    requires goes { (token : ℕ) → wake_answer sum token ≢ Stop }
    ensures next { (s : Section) → section_of (machine lot.old) thread ≡ Some s
        → NextTaken (wake_answer sum) (machine lot.old) (machine lot.new) (Ok result) s.key }
    ensures sound { Sound (machine lot.new) }
{
    let wants = |token: ParkToken| -> FilterOp
        ensures { result ≡ wake_answer sum token.0 }
    { wake_sum(sum, token) };
    let taking = lot.take_next(thread, wants).ok().flatten();
    lot.known();
    taking
}

/// Wakes a thread that was taken, and has it run. Answers the token that it was told.
pub(crate) fn rouse<A: Allocator>(lot: &mut Lot<A>, thread: usize, mark: u64) -> UnparkToken
    requires told { (token : UnparkToken) × (key : ℕ) × (sleep : Sleep)
        × (place_at (machine lot.old).places thread ≡ Some (Taken token key sleep false)) × (sleep.late ≡ false)
        × (sleep.mark ≡ mark) }
    ensures token { (token : UnparkToken) (key : ℕ) (sleep : Sleep)
        → place_at (machine lot.old).places thread ≡ Some (Taken token key sleep false) → result ≡ token }
    ensures runs { machine lot.new ≡ record (machine lot.old)
        { places = slice_set (machine lot.old).places thread (Some Running) } }
    ensures sound { Sound (machine lot.new) }
{
    lot.wake(thread, mark);
    let token = match lot.resume(thread, |_, _| {}) {
        Ok(ParkResult::Unparked(token)) => token,
        _ => DEFAULT_UNPARK_TOKEN,
    };
    lot.known();
    token
}
