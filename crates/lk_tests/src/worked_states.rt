//! The law that no run is stuck is evaluated on states that are written out. A law that came to say
//! nothing would hold of all of them.
//!
//! Each function's contract evaluates definitions of `specs/Progress.antt`, and its body is empty.

ghost use Rattle.std.specs.Prelude.{◌≡◌, ◌++◌, [], ◌∷◌};
ghost use Rattle.lk_tests.specs.WorkedStates.{new, entering, releasing, late_link, finishing};
ghost use Rattle.lk_tests.specs.WorkedStates.{unread_link, not_granted, not_linked};
ghost use Rattle.lk_tests.specs.WorkedStates.{not_passed_on, still_counted, own_flag};
ghost use Rattle.lk_tests.specs.WorkedStates.{read_left, announced_left};
ghost use Rattle.lk_tests.specs.WorkedHistories.{left_free, ticket_moves, simple_moves, fifo_moves};
ghost use Rattle.lk_locks.specs.Progress.{IsFinishing, IsAtRest, AreFinishing, state_after};
ghost use Rattle.lk_locks.specs.Progress.{ComesToRest};
ghost use Rattle.lk_locks.specs.MainTheorem.{IsAsPromised};
ghost use Rattle.lk_locks.specs.declared.kinds.LockKind.TheVariants.{Ticket, Mcs, RwSimple, RwFifo};
ghost use Rattle.lk_locks.specs.declared.kinds.Move.TheVariants.{Call, Step};
ghost use Rattle.lk_locks.specs.declared.kinds.Op.TheVariants.{Acquire};
ghost use Rattle.lk_locks.specs.declared.kinds.StepKind.TheVariants.{Read, Write};

/// A finishing move is accepted, and is neither a failed poll nor a call for the lock. One after
/// another they lead to rest.
pub fn finishing_moves()
    ensures late { state_after (new Mcs) (entering ++ releasing) ≡ late_link }
    ensures links { IsFinishing late_link 1 (Step Write) }
    ensures polls { IsFinishing late_link 0 (Step Read) → ⊥ }
    ensures another { IsFinishing late_link 1 (Step Read) → ⊥ }
    ensures calls { IsFinishing not_granted 0 (Call Acquire) → ⊥ }
    ensures all { AreFinishing late_link finishing }
    ensures one_polls { AreFinishing late_link ((1, Step Write) ∷ (0, Step Read) ∷ []) → ⊥ }
    ensures rest { IsAtRest (state_after late_link finishing) }
    ensures no_rest { IsAtRest late_link → ⊥ }
{}

/// After a mistake a history can be as promised, though the lock does not come to rest: of a thread
/// that left and one that waits.
pub fn histories_of_mistakes()
    ensures ticket { IsAsPromised Ticket 2 left_free }
    ensures mcs { IsAsPromised Mcs 2 left_free }
    ensures simple { IsAsPromised RwSimple 2 read_left }
    ensures fifo { IsAsPromised RwFifo 2 announced_left }
{}

/// Each lock comes to rest after its moves, and does not after a mistake.
pub fn locks_that_come_to_rest()
    ensures ticket { ComesToRest (state_after (new Ticket) ticket_moves) }
    ensures mcs { ComesToRest late_link }
    ensures simple { ComesToRest (state_after (new RwSimple) simple_moves) }
    ensures fifo { ComesToRest (state_after (new RwFifo) fifo_moves) }
    ensures right_change { ComesToRest unread_link }
    ensures not_passed_on { ComesToRest not_passed_on → ⊥ }
    ensures not_granted { ComesToRest not_granted → ⊥ }
    ensures not_linked { ComesToRest not_linked → ⊥ }
    ensures still_counted { ComesToRest still_counted → ⊥ }
    ensures own_flag { ComesToRest own_flag → ⊥ }
{}
