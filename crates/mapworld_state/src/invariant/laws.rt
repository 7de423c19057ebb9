//! Laws of steps: each function's contract is the law. They are for proofs, and do nothing when they run.
ghost use Rattle.mapworld_state.specs.Invariant.Laws.{StepsKeepSound, StepsOnlyAdd};

/// A step of any kind leads from a sound world to a sound one, where the world's keys are lawful. So all that follows
/// from soundness alone, as that replies and contents are those of the blocks, holds behind every run.
pub fn steps_keep_worlds_sound<K, V, S, D, T, A>()
    ensures { StepsKeepSound K V S D T A }
{}

/// A step takes no earlier step, block or reply away, and changes nothing that the world was made with.
pub fn steps_only_add<K, V, S, D, T, A>()
    ensures { StepsOnlyAdd K V S D T A }
{}
