//! Laws of changed locks: the contract of each function is one law, and its body is empty.

ghost use Rattle.lk_why.specs.Unchanged.{AnUnchangedLockIsTheLock};

/// A lock of which nothing is changed makes the moves of the lock itself, with the same words,
/// phases, outcomes and entries. So what is said of a changed lock differs from the lock by the
/// change alone.
pub fn an_unchanged_lock_is_the_lock()
    ensures { AnUnchangedLockIsTheLock }
{}
