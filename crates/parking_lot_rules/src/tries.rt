//! Laws of tries: why one is refused.
ghost use Rattle.parking_lot_rules.specs.Tries.{RefusedTriesAtAMutexHaveACause, RefusedTriesHaveACause};

/// A try that is refused saw, at some moment during it, a word that kept it out, and another thread was the cause at
/// that moment; or other threads made as many moves at that lock during the try as it has exchanges: 64, or one for a
/// try to write.
pub fn refused_tries_have_a_cause()
    ensures { RefusedTriesHaveACause }
{}

/// A try at a mutex that is refused saw that another thread owned it; or others made 64 steps there during the try.
pub fn refused_tries_at_a_mutex_have_a_cause()
    ensures { RefusedTriesAtAMutexHaveACause }
{}
