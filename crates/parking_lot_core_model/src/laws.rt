//! Laws of the machine of lists, of which the contracts of [`Lot`](crate::Lot) speak.
ghost use Rattle.std.specs.Prelude.{◌≡◌, ℕ, Bool, List, Some, None, false, take, drop};
ghost use Rattle.std.specs.List.{list_any};
ghost use Rattle.parking_lot_core_model.specs.declared.parking.FilterOp.{FilterOp};
ghost use Rattle.parking_lot_core_model.specs.Buckets.{BucketsAreLeast};
ghost use Rattle.parking_lot_core_model.specs.Results.{is_take, chosen_by, passed_by};
ghost use Rattle.parking_lot_core_model.specs.declared.parking.ParkToken.{ParkToken};
ghost use Rattle.parking_lot_core_model.specs.declared.parking.UnparkToken.{UnparkToken};
ghost use Rattle.parking_lot_core_model.specs.declared.place.Phase.TheVariants as phase;
ghost use Rattle.parking_lot_core_model.specs.Machine.{Machine, joined, opened, in_phase, taken, stored, closed};
ghost use Rattle.parking_lot_core_model.specs.Machine.{unparked, returned, resumed, quitted, open_at};
ghost use Rattle.parking_lot_core_model.specs.Places.{place_at};
ghost use Rattle.parking_lot_core_model.specs.InSteps.{ShowsSame, takings, answers_of};
ghost use Rattle.parking_lot_core_model.specs.Sound.{Sound};
ghost use Rattle.parking_lot_core_model.specs.Runs.{Operation, after_all, fresh, fresh_paired};

/// Whatever operations and steps of sections are made on a new lot, in whatever order: a waiting thread stands in its
/// key's list once, and nobody stands in two lists or twice in one.
pub fn every_run_is_sound()
    ensures single { (limit number : ℕ) (operations : List Operation)
        → Sound (after_all (fresh limit number) operations) }
    ensures paired { (limit number : ℕ) (operations : List Operation)
        → Sound (after_all (fresh_paired limit number) operations) }
{}

/// A park is the entering of a section, the check of its validation, the appending and the leaving, where nothing comes
/// between: `valid` says what is left where the validation answers true, `invalid` what else.
pub fn park_is_its_steps()
    ensures valid { (m : Machine) (thread key : ℕ) (token : ParkToken) (timed : Bool) → Sound m → open_at m key ≡ None
        → m.inside thread ≡ None
        → closed (joined (in_phase (in_phase (opened m (Some thread) key) key phase.Valid) key phase.Joined) thread
        key token
        timed) key false ≡ joined m thread key token timed }
    ensures invalid { (m : Machine) (thread key : ℕ) → Sound m → open_at m key ≡ None → m.inside thread ≡ None
        → closed (in_phase (opened m (Some thread) key) key phase.Invalid) key false ≡ m }
{}

/// An unpark of the first waiter is the entering of a section, one taking, the store and the leaving. What is shown of
/// the lot is the same; but the whole operation has woken the thread, too.
pub fn unpark_one_is_its_steps()
    ensures { (m : Machine) (thread key : ℕ) (token : UnparkToken) → Sound m → open_at m key ≡ None
        → m.inside thread ≡ None
        → ShowsSame (closed (stored (taken (in_phase (opened m (Some thread) key) key (phase.Taking 0)) key 0) key
        token) key false)
        (unparked m key (take 1 (m.queues key)) (drop 1 (m.queues key)) token) }
{}

/// An unpark by a filter is the entering of a section, takings, the store and the leaving. Each taking passes so many
/// waiters as `passes` says and takes the next; behind the last the filter takes nobody, and answers `rest`. What is
/// shown of the lot is the same; but the whole operation has woken the threads, too.
pub fn unpark_filter_is_its_steps()
    ensures { (m : Machine) (thread key : ℕ) (token : UnparkToken) (passes : List ℕ) (rest : List FilterOp) → Sound m
        → open_at m key ≡ None → m.inside thread ≡ None → list_any is_take rest ≡ false
        → ShowsSame (closed (stored (in_phase (takings (opened m (Some thread) key) key 0 passes) key phase.Ended) key
        token)
        key false) (unparked m key (chosen_by (answers_of passes rest) (m.queues key))
        (passed_by (answers_of passes rest) (m.queues key)) token) }
{}

/// A sleeper's going on by itself is its coming back into a section, its quitting and its leaving: a late one that
/// stands in its list is off it then, and one that was taken has its token, and both run.
pub fn going_on_is_its_steps()
    ensures { (m : Machine) (thread key : ℕ) → Sound m → open_at m key ≡ None → m.inside thread ≡ None
        → closed (quitted (returned m thread key) thread key) key false ≡ resumed m thread (place_at m.places thread) }
{}

/// How many buckets threads have is the least power of two that is 16 or more, and three times as many as the threads,
/// or more.
pub fn buckets_are_least()
    ensures { BucketsAreLeast }
{}
