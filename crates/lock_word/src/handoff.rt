//! Handing a lock over.
ghost use Rattle.std.specs.Prelude.{◌≡◌, IfErr, IfSome};

use crate::lock_word::LockWord;
use crate::owner::Owner;

/// The word of a lock, and a second word of it in which an owner leaves the right for another thread.
#[derive(Drop)]
pub struct HandoffWord {
    word: LockWord,
    left: LockWord,
    ghost same: { left ≡ word },
}

impl HandoffWord {
    /// The words of a new lock, which nobody owns.
    pub fn new() -> HandoffWord {
        let word = LockWord::new();
        let left = word.beside();
        HandoffWord { word, left }
    }

    /// The lock's word.
    #[inline(always)]
    pub fn word(&self) -> &LockWord
        ensures { result.now ≡ self.now.word }
    {
        &self.word
    }

    /// Leaves the right for another thread. The owner comes back where one lies there already, which can't be while
    /// there is an owner.
    pub fn leave(&self, owner: Owner) -> Result<(), Owner>
        requires { owner ≡ self.now.word }
        ensures { IfErr result (λ owner. owner ≡ self.now.word) }
    {
        match self.left.release(owner, 1, 0) {
            Ok(()) => Ok(()),
            Err((owner, _word)) => Err(owner),
        }
    }

    /// Picks up the right that was left, if it was.
    pub fn pick_up(&self) -> Option<Owner>
        ensures { IfSome result (λ owner. owner ≡ self.now.word) }
    {
        match self.left.acquire(0, 1) {
            Ok(owner) => Some(owner),
            Err(_word) => None,
        }
    }
}
