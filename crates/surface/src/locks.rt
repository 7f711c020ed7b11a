//! Locks: a machine step by step, the sequential object, a history, and a keeper of all three.

ghost use Rattle.std.specs.Prelude.{◌≡◌, ◌≤◌, ◌<◌, ◌∷◌, [], length, false, true};
ghost use Rattle.std.specs.Prelude.{IfNone, IfOk, OnErr};
ghost use Rattle.lk_locks.specs.declared.kinds.Phase.TheVariants.{AwaitTurn};

use crate::words::Watched;
use arrayvec::ArrayVec;
use lk_locks::{
    Act, Entry, History, Holders, Keeper, LockKind, Machine, Move, Op, Outcome, Phase, PlayFault,
    Refusal, SeqLock, StepKind, words_needed,
};
use lk_words::{WordArray, Words};
use std::alloc::{AllocError, Global};

/// Returns a machine of 1 to 64 threads on words that this crate implements.
pub fn machine_on_own_words(kind: LockKind, threads: u8) -> Machine<Watched<WordArray>>
    requires { (0 < threads) × (threads ≤ 64) }
    ensures { (result.kind ≡ kind) × (length result.phases ≡ threads) }
{
    let count: usize = words_needed(kind, threads);
    Machine::new(kind, threads, Watched::new(WordArray::new(count)))
}

/// Makes a move if the machine accepts it. `check` knows that before, and changes nothing.
pub fn try_move<W: Words>(machine: &mut Machine<W>, thread: u8, action: Move) -> bool
    ensures { result ≡ false → machine.new ≡ machine.old }
{
    let checked: Result<(), Refusal> = machine.check(thread, action);
    let applied: Result<Outcome, Refusal> = machine.apply(thread, action);
    checked.is_ok() && applied.is_ok()
}

/// Goes on with the pending call of a thread, by the step that is next, if it has one.
pub fn go_on<W: Words>(machine: &mut Machine<W>, thread: u8) -> Option<Outcome>
    requires { thread < length machine.old.phases }
    ensures { IfNone result (machine.new ≡ machine.old) }
{
    let next: Option<StepKind> = machine.next_step(thread);
    machine.apply(thread, Move::Step(next?)).ok()
}

/// Lets a thread take the first ticket, 0. Returns its phase and the next ticket.
pub fn first_ticket() -> (Phase, u64)
    ensures { result ≡ (AwaitTurn 0, 1) }
{
    let thread: u8 = 0;
    let mut machine: Machine<WordArray> = Machine::new(LockKind::Ticket, 2, WordArray::new(2));
    let _ = machine.apply(thread, Move::Call(Op::Acquire));
    let _ = machine.apply(thread, Move::Step(StepKind::Add));
    let words: &WordArray = machine.words();
    (machine.phase(thread), words.get(0))
}

/// Returns the sequential object in which thread 1 requested after thread 0.
pub fn two_requests() -> SeqLock
    ensures { result.queue ≡ 0 ∷ 1 ∷ [] }
{
    let mut lock: SeqLock = SeqLock::new(LockKind::Mcs);
    lock.act(Act::Acquire(0));
    lock.act(Act::Acquire(1));
    lock
}

/// Makes an act if it is allowed, and returns whether it was.
pub fn try_act(lock: &mut SeqLock, act: Act) -> bool
    ensures { result ≡ false → lock.new ≡ lock.old }
{
    let is_allowed: bool = lock.allows(act);
    if is_allowed {
        lock.act(act);
    }
    is_allowed
}

/// Returns whether nobody holds the lock, requests it or has announced itself.
pub fn is_free(lock: &SeqLock) -> bool
    ensures { result ≡ true → lock.now.queue ≡ [] }
{
    let (queue, readers): (&[u8], &[u8]) = (lock.queue(), lock.readers());
    let (writer, announced): (Option<u8>, Option<u8>) = (lock.writer(), lock.announced());
    queue.is_empty() && readers.is_empty() && writer.is_none() && announced.is_none()
}

/// Returns a history with these entries. The room is made before they are added.
pub fn history_of(alloc: Global, entries: &[Entry]) -> Result<History, AllocError>
    requires { length entries.now ≤ 3 }
    ensures { IfOk result (λ history. history.entries ≡ entries.now) }
{
    let mut history: History = History::new(alloc);
    history.make_room()?;
    history.append(entries);
    Ok(history)
}

/// Returns how many entries a history has, and how many more fit with no growth.
pub fn size_of(history: &History) -> (usize, usize)
    ensures { result ≡ (length history.now.entries, history.now.room) }
{
    let entries: &[Entry] = history.entries();
    (entries.len(), history.room())
}

/// Returns a keeper of an MCS lock of 1 to 64 threads, on words of eight bits.
pub fn new_mcs(alloc: Global, threads: u8) -> Keeper<WordArray>
    requires { (0 < threads) × (threads ≤ 64) }
    ensures { result.entries ≡ [] }
{
    let words = WordArray::with_bits(words_needed(LockKind::Mcs, threads), 8);
    Keeper::new(alloc, LockKind::Mcs, threads, words)
}

/// Calls an operation. After a fault all is as before.
pub fn call<W: Words>(keeper: &mut Keeper<W>, thread: u8, op: Op) -> Result<Outcome, PlayFault>
    ensures { OnErr result (keeper.new ≡ keeper.old) }
{
    keeper.play(thread, Move::Call(op))
}

/// Takes the next step of a thread's call, if one is pending. After a fault all is as before.
pub fn step_on<W: Words>(keeper: &mut Keeper<W>, thread: u8) -> Result<Option<Outcome>, PlayFault>
    requires { thread < length keeper.old.state.phases }
    ensures { OnErr result (keeper.new ≡ keeper.old) }
{
    let Some(next): Option<StepKind> = keeper.next_step(thread) else {
        return Ok(None);
    };
    Ok(Some(keeper.play(thread, Move::Step(next))?))
}

/// Returns whether a thread holds the lock, in any mode.
pub fn is_holder<W: Words>(keeper: &Keeper<W>, thread: u8) -> bool {
    match keeper.holders() {
        Holders::Nobody => false,
        Holders::Holder(holder) => holder == thread,
        Holders::Readers(readers) => {
            let readers: ArrayVec<u8, 64> = readers;
            readers.as_slice().contains(&thread)
        }
        Holders::Writer(writer) => writer == thread,
    }
}

/// Returns the first thread in the queue, and the number of entries so far.
pub fn first_in_queue<W: Words>(keeper: &Keeper<W>) -> (Option<u8>, usize)
    ensures { result.1 ≡ length keeper.now.entries }
{
    let queue: ArrayVec<u8, 64> = keeper.queue();
    let entries: &[Entry] = keeper.entries();
    (queue.first().copied(), entries.len())
}
