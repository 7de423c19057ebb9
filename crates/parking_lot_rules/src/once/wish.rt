//! What a call of a one-time initialization wants.

/// What a call wants: to run its closure, or only to wait until one has ended well; and whether it goes on where the
/// last one failed.
#[derive(Clone, Copy, PartialEq, Eq, Debug)]
pub struct Wish {
    /// It runs its closure where none has run.
    pub runs: bool,
    /// It goes on where the last closure has failed.
    pub force: bool,
}
