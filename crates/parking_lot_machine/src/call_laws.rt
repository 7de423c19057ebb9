//! How calls at a machine of locks come to their answers.
ghost use Rattle.parking_lot_machine.specs.CallLaws.AnswerLaws.{CallsLead};

/// Each step leads every call on towards its answer: one that asks for the lock, until its thread owns it so; a try,
/// until that or a refusal; one whose deadline has come as it slept, to a refusal, unless it was woken before; and one
/// that gives a hold up, or turns it into another, until that is done. No step but its own deadline makes a call give
/// up, and what it is answered says how its thread owns the lock then. What it was asked stays.
pub fn calls_lead()
    ensures { CallsLead }
{}
