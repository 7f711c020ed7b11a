//! The refusal of a move, and the name and the message of each. Each text is written once: reports,
//! messages and the library for C take theirs from here.

ghost use Rattle.std.specs.Prelude.{◌≡◌, ◌≤◌, length};
ghost use Rattle.lk_locks.specs.Refusals.{message_of, name_of, text_of};
ghost use Rattle.lk_locks.specs.Steps.{refusal_at};

use crate::locks::after_call;
use crate::{LockKind, Move, Phase, Refusal, StepKind};

// A refusal's name, its message, and both.
macro_rules! texts {
    ($refusal:expr; $($pattern:pat => $name:literal $message:literal,)+) => {
        match $refusal { $($pattern => ($name, $message, concat!($name, ": ", $message)),)+ }
    };
}

impl Refusal {
    fn texts(self) -> (&'static str, &'static str, &'static str)
        ensures name { result.0.now ≡ name_of self }
        ensures message { result.1.now ≡ message_of self }
        ensures text { result.2.now ≡ text_of self }
    {
        texts!(self;
            Refusal::NoSuchThread => "NoSuchThread" "no such thread",
            Refusal::WrongLock => "WrongLock" "the lock has no such operation or step",
            Refusal::Busy => "Busy" "the thread has a pending call",
            Refusal::NotHolder => "NotHolder" "the thread does not hold the lock in that mode",
            Refusal::AlreadyHolds => "AlreadyHolds" "the thread holds the lock already",
            Refusal::NoCall => "NoCall" "the thread has no pending call",
            Refusal::WrongStep { .. } => "WrongStep" "the thread's next step is a different one",
        )
    }

    /// Its name.
    pub fn name(self) -> &'static str
        ensures name { result.now ≡ name_of self }
        ensures short { length result.now ≤ 14 }
    {
        self.texts().0
    }

    /// Its message, as `Display` writes it.
    pub fn message(self) -> &'static str
        ensures { result.now ≡ message_of self }
    {
        self.texts().1
    }

    /// Its name and its message.
    pub fn text(self) -> &'static str
        ensures { result.now ≡ text_of self }
    {
        self.texts().2
    }
}

/// The refusal of a move that belongs to the lock, by a thread in this phase that takes this step
/// next, if there is one.
#[inline(always)]
pub(crate) fn refusal_at(
    kind: LockKind,
    phase: Phase,
    due: Option<StepKind>,
    action: Move,
) -> Option<Refusal>
    ensures { result ≡ refusal_at kind phase due action }
{
    match (due, action) {
        (None, Move::Call(op)) if after_call(kind, phase, op).is_some() => None,
        // A call that an idle thread may make acquires, and a thread that is not idle holds. A
        // second table of who may release could disagree.
        (None, Move::Call(op)) if after_call(kind, Phase::Idle, op).is_some() => {
            Some(Refusal::AlreadyHolds)
        }
        (None, Move::Call(_)) => Some(Refusal::NotHolder),
        (Some(_), Move::Call(_)) => Some(Refusal::Busy),
        (None, Move::Step(_)) => Some(Refusal::NoCall),
        (Some(next), Move::Step(step)) if next == step => None,
        (Some(next), Move::Step(_)) => Some(Refusal::WrongStep { next }),
    }
}
