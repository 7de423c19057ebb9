//! Runs that can be made.
ghost use Rattle.parking_lot_rules.specs.Example.{RunsAreThere};

/// The steps can be made: with one bucket for all keys, a reader takes a lock, a writer asks for it and sleeps on the
/// second key, where the word is 26; the reader leaves and wakes the writer, which owns the lock, and the word is 8.
pub fn a_writer_waits_and_is_woken()
    ensures { RunsAreThere }
{}
