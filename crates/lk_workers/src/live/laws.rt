//! Laws of the running ticket lock. Each is proved, and does nothing when it is called.

ghost use Rattle.std.specs.Prelude.{None, Some};
ghost use Rattle.lk_locks.specs.declared.kinds.Op.TheVariants.{Acquire, Release};
ghost use Rattle.lk_locks.specs.declared.kinds.Phase.TheVariants.{AwaitTurn, PassOn};
ghost use Rattle.lk_locks.specs.declared.kinds.Phase.TheVariants.{ReadServing, TakeTicket};
ghost use Rattle.lk_locks.specs.laws.{after, Found, Nothing};
ghost use Rattle.lk_workers.specs.declared.live.LivePhase.TheVariants.{Idle, Waiting, Inside};
ghost use Rattle.lk_workers.specs.declared.live.LivePhase.TheVariants.{Leaving};
ghost use Rattle.lk_workers.specs.SeatSteps.{take_step, look_step, read_step, pass_step};
ghost use Rattle.lk_workers.specs.LockState.{RuleIsTheLock, OthersStay, IsEvent};

/// Between any two atomic steps the words and the seats are a state of the ticket lock, and a
/// dropped seat's view stays in it.
pub fn rule_is_the_lock()
    ensures state { RuleIsTheLock }
    ensures dropped { OthersStay }
{}

/// `take` is the call of an acquire and its fetch-and-add on `next_ticket`.
pub fn take_is_the_add()
    ensures { IsEvent take_step Idle (Some Acquire) (λ i r m. after i TakeTicket (Found m)) }
{}

/// `look` is the read of `now_serving` by a thread that waits.
pub fn look_is_the_read()
    ensures { IsEvent look_step Waiting None (λ i r m. after i (AwaitTurn r.ticket) (Found m)) }
{}

/// `read_serving` is the call of a release and its read of `now_serving`.
pub fn read_serving_is_the_read()
    ensures { IsEvent read_step Inside (Some Release)
        (λ i r m. after i (ReadServing r.ticket) (Found m)) }
{}

/// `pass` is the write of `now_serving` that ends a release.
pub fn pass_is_the_write()
    ensures { IsEvent pass_step Leaving None (λ i r m. after i (PassOn r.ticket) Nothing) }
{}
