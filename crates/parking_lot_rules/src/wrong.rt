//! Steps that would be wrong: each has a sound lock from which it leads to one that isn't.
ghost use Rattle.parking_lot_rules.specs.Wrong.{DebtsAloneBreak, ForgetsTheWriter, GoesPastAWriter, IsWrong};
ghost use Rattle.parking_lot_rules.specs.Wrong.{JoinsUnchecked, KeepsItsBit, LeavesTheBit, StoresZero, WakesByNumber};

/// A reader's section that clears the second key's bit, and leaves the pending writer in the list: the writer would
/// sleep for good.
pub fn a_section_that_forgets_the_writer_is_wrong()
    ensures { IsWrong ForgetsTheWriter }
{}

/// A scan of the first list that takes another writer after the first.
pub fn a_scan_past_a_writer_is_wrong()
    ensures { IsWrong GoesPastAWriter }
{}

/// A thread that joins the first list without a look at the word: nobody need come to wake it.
pub fn a_join_without_a_check_is_wrong()
    ensures { IsWrong JoinsUnchecked }
{}

/// A section that leaves the parked bit set, though nobody is left: the bit would outlive the calls.
pub fn a_bit_on_an_empty_list_is_wrong()
    ensures { IsWrong LeavesTheBit }
{}

/// A release that stores 0, though waiters are left: nobody need look at the list again.
pub fn a_store_of_zero_with_waiters_is_wrong()
    ensures { IsWrong StoresZero }
{}

/// A wake of a thread that somebody else has taken since: what that one knows of it would be untrue.
pub fn a_wake_by_number_is_wrong()
    ensures { IsWrong WakesByNumber }
{}

/// A pending writer that gives up, and leaves its bit: it would outlive the call.
pub fn a_give_up_that_keeps_its_bit_is_wrong()
    ensures { IsWrong KeepsItsBit }
{}

/// That somebody owes the waiters something is true at every moment, and isn't enough to go on with: beside a woken
/// reader alone it holds, and once that reader owns the lock it doesn't. So the rules say more than that.
pub fn debts_alone_are_not_kept()
    ensures { DebtsAloneBreak }
{}
