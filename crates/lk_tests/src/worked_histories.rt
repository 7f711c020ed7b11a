//! The laws are evaluated on histories that are written out. A law that came to say nothing would
//! hold of all of them, or of none.
//!
//! Each function's contract evaluates the definitions of one file on worked histories, and its body
//! is empty.

ghost use Rattle.std.specs.Prelude.{◌≡◌, ℕ, ◌++◌, List, [], ◌∷◌, None, Some, Any};
ghost use Rattle.lk_tests.specs.WorkedHistories.{one_inside, left_free, handover, two_inside};
ghost use Rattle.lk_tests.specs.WorkedHistories.{unlocked_by_another, left_once, OfEachPromised};
ghost use Rattle.lk_tests.specs.WorkedHistories.{WritesAlone, overtaking, released_by_another};
ghost use Rattle.lk_tests.specs.WorkedHistories.{entry_without_act, asked_twice, act_without_call};
ghost use Rattle.lk_tests.specs.WorkedHistories.{reads, writes, two_readers, writers_in_turn};
ghost use Rattle.lk_tests.specs.WorkedHistories.{two_writers, reader_beside_writer};
ghost use Rattle.lk_tests.specs.WorkedHistories.{writer_beside_reader, writer_beside_downgraded};
ghost use Rattle.lk_tests.specs.WorkedHistories.{announcement, announced_entered, reader_passes};
ghost use Rattle.lk_tests.specs.WorkedHistories.{writer_passes, ticket_moves, mcs_moves};
ghost use Rattle.lk_tests.specs.WorkedHistories.{simple_moves, fifo_moves};
ghost use Rattle.lk_locks.specs.Legal.{Legal, subhistory};
ghost use Rattle.lk_locks.specs.Holding.{holder_after, holding_of, waiting_of, IsListed, Free};
ghost use Rattle.lk_locks.specs.Holding.{HeldBy, ReadBy, WrittenBy};
ghost use Rattle.lk_locks.specs.Exclusion.{IsQueueLock, HasOneHolder, IsHeldInTurn, IsHeldByHead};
ghost use Rattle.lk_locks.specs.Exclusion.{StopsWriting, HasOneWriter, IsNeverBesideReader};
ghost use Rattle.lk_locks.specs.Exclusion.{IsAnnouncedFirst};
ghost use Rattle.lk_locks.specs.Order.{request_order, entering_order, IsInOrder};
ghost use Rattle.lk_locks.specs.Calls.{ActsOnce, ActsInCalls, ReturnsNext};
ghost use Rattle.lk_locks.specs.Steps.{entries_after};
ghost use Rattle.lk_locks.specs.State.{start};
ghost use Rattle.lk_locks.specs.MainTheorem.{IsAsPromised};
ghost use Rattle.lk_locks.specs.declared.kinds.LockKind.TheVariants.{Ticket, Mcs, RwSimple, RwFifo};
ghost use Rattle.lk_locks.specs.declared.kinds.Op.TheVariants.{Acquire, WriteUnlock, Downgrade};
ghost use Rattle.lk_locks.specs.declared.kinds.LockKind.{LockKind};
ghost use Rattle.lk_locks.specs.declared.kinds.Entry.{Entry};
ghost use Rattle.lk_locks.specs.declared.kinds.Entry.TheVariants.{Called, Acted, Returned};

/// Hand-overs are legal. No thread enters before its turn, releases what another holds, or acts in
/// no call; and no thread is above the lock's.
pub fn legal_histories()
    ensures ticket { Legal Ticket 2 handover }
    ensures mcs { Legal Mcs 2 handover }
    ensures simple { Legal RwSimple 2 writers_in_turn }
    ensures fifo { Legal RwFifo 2 announced_entered }
    ensures overtaken { Legal Mcs 2 overtaking → ⊥ }
    ensures another { Legal Ticket 2 released_by_another → ⊥ }
    ensures unasked { Legal Ticket 2 entry_without_act → ⊥ }
    ensures uncalled { Legal Mcs 2 act_without_call → ⊥ }
    ensures writers { Legal RwSimple 2 (two_writers 0 1) → ⊥ }
    ensures passed { Legal RwFifo 3 reader_passes → ⊥ }
    ensures announced { Legal RwFifo 3 writer_passes → ⊥ }
    ensures strangers { Legal Ticket 1 handover → ⊥ }
    ensures own { subhistory 1 handover
        ≡ Called 1 Acquire ∷ Acted 1 Acquire ∷ Returned 1 Acquire ∷ [] }
{}

/// Holders and queue of histories. An act that is not allowed changes neither.
pub fn holders_of_histories()
    ensures nobody { holding_of Ticket [] ≡ Free }
    ensures first { holding_of Ticket one_inside ≡ HeldBy 0 }
    ensures free { holding_of Mcs left_free ≡ Free }
    ensures second { holding_of Mcs handover ≡ HeldBy 1 }
    ensures asked { waiting_of Ticket one_inside ≡ 0 ∷ 1 ∷ [] }
    ensures left { waiting_of Mcs handover ≡ 1 ∷ [] }
    ensures writer { holding_of RwSimple (writes 0) ≡ WrittenBy 0 }
    ensures readers { holding_of RwSimple two_readers ≡ ReadBy (0 ∷ 1 ∷ []) }
    ensures simple { waiting_of RwSimple two_readers ≡ [] }
    ensures reader { holding_of RwFifo announcement ≡ ReadBy (0 ∷ []) }
    ensures announced { waiting_of RwFifo announcement ≡ 1 ∷ [] }
    ensures entered { holding_of RwFifo announced_entered ≡ WrittenBy 1 }
    ensures none_waits { waiting_of RwFifo announced_entered ≡ [] }
    ensures not_released { waiting_of Ticket released_by_another ≡ 0 ∷ [] }
    ensures not_twice { waiting_of Mcs asked_twice ≡ 0 ∷ [] }
    ensures not_unlocked { holding_of RwSimple unlocked_by_another ≡ WrittenBy 0 }
    ensures not_left { holding_of RwSimple left_once ≡ WrittenBy 1 }
    ensures not_passed { holding_of RwFifo reader_passes ≡ ReadBy (0 ∷ []) }
    ensures not_announced { waiting_of RwFifo writer_passes ≡ 1 ∷ [] }
    ensures listed { IsListed (ReadBy (0 ∷ 1 ∷ [])) }
    ensures turned { IsListed (ReadBy (1 ∷ 0 ∷ [])) → ⊥ }
    ensures no_reader { IsListed (ReadBy []) → ⊥ }
{}

/// Two of the locks are queue locks. One thread is inside such a lock, the head of its queue, and
/// it alone releases.
pub fn holders_of_queue_locks()
    ensures ticket { IsQueueLock Ticket }
    ensures mcs { IsQueueLock Mcs }
    ensures simple { IsQueueLock RwSimple → ⊥ }
    ensures fifo { IsQueueLock RwFifo → ⊥ }
    ensures apart { HasOneHolder handover }
    ensures beside { (t u : ℕ) → HasOneHolder (two_inside t u) → ⊥ }
    ensures in_turn { IsHeldInTurn None handover }
    ensures not_in_turn { IsHeldInTurn None (two_inside 0 1) → ⊥ }
    ensures another { IsHeldInTurn None released_by_another → ⊥ }
    ensures head { IsHeldByHead Mcs handover }
    ensures overtakes { IsHeldByHead Mcs overtaking → ⊥ }
{}

/// A writer is alone.
pub fn writers_of_read_write_locks()
    ensures unlocked { StopsWriting 0 (Acted 0 WriteUnlock) }
    ensures downgraded { StopsWriting 0 (Acted 0 Downgrade) }
    ensures another { Any (StopsWriting 0) (Acted 1 WriteUnlock ∷ Acted 1 Downgrade ∷ []) → ⊥ }
    ensures in_turn { HasOneWriter writers_in_turn }
    ensures at_once { (t u : ℕ) → HasOneWriter (two_writers t u) → ⊥ }
    ensures alone { IsNeverBesideReader RwSimple writers_in_turn }
    ensures reader { (t u : ℕ) → IsNeverBesideReader RwSimple (reader_beside_writer t u) → ⊥ }
    ensures another_unlocks { IsNeverBesideReader RwSimple unlocked_by_another → ⊥ }
    ensures writer { (t u : ℕ) → IsNeverBesideReader RwSimple (writer_beside_reader t u) → ⊥ }
    ensures reader_stays { IsNeverBesideReader RwSimple left_once → ⊥ }
    ensures downgraded_reader { (t u : ℕ)
        → IsNeverBesideReader RwSimple (writer_beside_downgraded t u) → ⊥ }
    ensures first { IsAnnouncedFirst announced_entered }
    ensures reader_passes { IsAnnouncedFirst reader_passes → ⊥ }
    ensures writer_passes { IsAnnouncedFirst writer_passes → ⊥ }
{}

/// The thread that asked first enters first.
pub fn order_of_entering()
    ensures asked { request_order one_inside ≡ 0 ∷ 1 ∷ [] }
    ensures first { entering_order one_inside ≡ 0 ∷ [] }
    ensures both { entering_order handover ≡ 0 ∷ 1 ∷ [] }
    ensures in_order { IsInOrder handover }
    ensures out_of_order { IsInOrder overtaking → ⊥ }
    ensures not_asked { IsInOrder entry_without_act → ⊥ }
{}

/// A call acts once before it returns. Before its act comes a call, and what follows is the
/// return.
pub fn acts_of_calls()
    ensures once { ActsOnce Mcs handover }
    ensures never { ActsOnce Mcs entry_without_act → ⊥ }
    ensures twice { ActsOnce Mcs asked_twice → ⊥ }
    ensures simple { ActsOnce RwSimple writers_in_turn }
    ensures unannounced { ActsOnce RwFifo (writes 0) → ⊥ }
    ensures called { ActsInCalls Mcs handover }
    ensures not_called { ActsInCalls Mcs act_without_call → ⊥ }
    ensures acts_next { ActsInCalls Mcs asked_twice → ⊥ }
{}

/// Each part of the theorem is in it.
///
/// `Legal` fails of `act_without_call` alone; besides it `two_inside` has two holders, `overtaking`
/// no order, and `two_writers` two writers. Every legal history has these four other parts
/// (`lk_locks::theorems`), so no history tells the theorem from one without one of them, and each
/// is taken out of it here. The last part of `IsNeverBesideReader` is of the acts alone, allowed or
/// not. It fails of histories that are not legal: of `left_once`, and of a reader that comes beside
/// a writer.
pub fn parts_of_the_theorem()
    ensures legal { OfEachPromised Legal }
    ensures one_holder { OfEachPromised (λ kind n. HasOneHolder) }
    ensures in_order { OfEachPromised (λ kind n. IsInOrder) }
    ensures one_writer { OfEachPromised (λ kind n. HasOneWriter) }
    ensures no_reader_beside { OfEachPromised (λ kind n. IsNeverBesideReader kind) }
    ensures no_reader { OfEachPromised (λ kind n. WritesAlone kind) }
    ensures left_once { WritesAlone RwSimple left_once → ⊥ }
    ensures reader { WritesAlone RwFifo (reader_beside_writer 0 1) → ⊥ }
{}

/// Moves lead to the entries that they are due, and refused ones to none. What they lead to is as
/// promised.
pub fn runs_of_moves()
    ensures ticket { entries_after (start Ticket 2 (0 ∷ 0 ∷ []) 2) ticket_moves
        ≡ handover }
    ensures mcs { entries_after (start Mcs 2 (0 ∷ 0 ∷ 0 ∷ 0 ∷ 0 ∷ []) 2) mcs_moves
        ≡ handover }
    ensures simple { entries_after (start RwSimple 2 (0 ∷ 0 ∷ []) 2) simple_moves
        ≡ two_readers }
    ensures fifo { entries_after (start RwFifo 2 (0 ∷ 0 ∷ 0 ∷ []) 2) fifo_moves
        ≡ announced_entered }
    ensures queue_lock { IsAsPromised Mcs 2 handover }
    ensures read_write_lock { IsAsPromised RwFifo 2 announced_entered }
{}
