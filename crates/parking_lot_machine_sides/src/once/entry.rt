//! Many lists of threads, kept in one.
ghost use Rattle.std.specs.Prelude.{◌≡◌, is_some};
ghost use Rattle.std.specs.List.{position};
ghost use Rattle.parking_lot_machine_sides.specs.Once.Entries.{is_in};

/// A thread in one of many lists. A list has its threads in the order in which they stand among all entries.
#[derive(Clone, Copy, PartialEq, Eq, Debug)]
pub struct Entry {
    /// The number of the list.
    pub list: usize,
    /// The thread.
    pub thread: usize,
}

/// Where the first of a list stands.
pub(crate) fn first_of(entries: &[Entry], list: usize) -> Option<usize>
    ensures { result ≡ position (is_in list) entries.now }
{
    entries.iter().position(|entry| entry.list == list)
}
