//! A move that was made, as a page sees it: what it did to the words and to the thread.

ghost use Rattle.std.specs.Prelude.{◌≡◌, ◌<◌, ◌≤◌, List, length, IfOk, None, Some};
ghost use Rattle.lk_locks.specs.Steps.{refusal_of, refused_with};
ghost use Rattle.lk_locks.specs.Play.{tracker_of, tracker_after, holding_in, waiting_in};
ghost use Rattle.lk_locks.specs.declared.kinds.Entry.{Entry};
ghost use Rattle.lk_page.specs.Told.{IsRecord, kind_number, standing_of};
ghost use Rattle.lk_page.specs.Layout.{record_bytes, touched_word, found_of, left_of, thread_code};

use crate::changes::touches;
use crate::codes::{due_code, is_unlinked};
use crate::layout::{put_bytes, put_u64};
use crate::next::{allowed_calls, waits_after};
use crate::told::{Record, Standing, Touch};
use arrayvec::ArrayVec;
use lk_catalogue::{Observed, place_of};
use lk_locks::{Holders, LockKind, Refusal, Tracker};
use lk_replay::Line;
use lk_search::phase_code;
use lk_trace::{move_number, outcome_number};
use lk_words::WordArray;

/// The number of bytes of a record.
pub const RECORD_BYTES: usize = 56;

fn standing_of(lock: &Tracker<WordArray>, thread: u8) -> Standing
    ensures { result ≡ standing_of (holding_in lock.now) (waiting_in lock.now) thread }
{
    let (holds, writes) = match lock.holders() {
        Holders::Nobody => (false, false),
        Holders::Holder(t) => (thread == t, false),
        Holders::Readers(readers) => (readers.as_slice().contains(&thread), false),
        Holders::Writer(t) => (thread == t, thread == t),
    };
    Standing {
        holds,
        is_queued: lock.queue().as_slice().contains(&thread),
        writes,
    }
}

// The number of a transition's kind. Each transition of a lock has one.
fn kind_number(kind: LockKind, transition: Observed) -> u8
    ensures { result ≡ kind_number kind transition }
{
    place_of(kind, transition).map_or(u8::MAX, |place| place as u8)
}

/// Makes a move, and returns what it did.
pub fn play_line(lock: &mut Tracker<WordArray>, line: &Line) -> Result<Record, Refusal>
    ensures refused { refused_with result
        ≡ refusal_of lock.old.state line.now.thread line.now.action }
    ensures after { lock.new ≡ tracker_after lock.old line.now.thread line.now.action }
    ensures record { IfOk result (λ told. (es : List Entry)
        → lock.old ≡ tracker_of lock.old.state es
        → IsRecord (record { state = lock.old.state; entries = es }) line.now told) }
{
    lock.machine().check(line.thread, line.action)?;
    let from = lock.machine().phase(line.thread);
    let (first, second) = touches(lock.machine(), line.thread, line.action);
    let (outcome, _) = lock.play(line.thread, line.action)?;
    let standing = standing_of(lock, line.thread);
    let after = lock.machine().phase(line.thread);
    let transition = Observed {
        from,
        action: line.action,
        outcome,
        after,
    };
    Ok(Record {
        line: line.number,
        thread: line.thread,
        action: line.action,
        outcome,
        kind: kind_number(lock.kind(), transition),
        phase: after,
        due: lock.machine().next_step(line.thread),
        standing,
        calls: allowed_calls(lock.machine(), line.thread),
        waits: waits_after(lock.machine(), line.thread, outcome, standing.is_queued),
        first,
        second,
    })
}

fn touched_word(touch: Option<Touch>) -> u16
    ensures { result ≡ touched_word touch }
{
    touch.map_or(u16::MAX, |touch| u16::from(touch.word))
}

fn values_of(touch: Option<Touch>) -> (u64, u64)
    ensures found { result.0 ≡ found_of touch }
    ensures left { result.1 ≡ left_of touch }
{
    touch.map_or((0, 0), |touch| (touch.found, touch.left))
}

// The thread's standing after its move, as a sum of bits.
fn thread_code(told: &Record) -> u8
    ensures { result ≡ thread_code told.now }
{
    u8::from(told.standing.holds)
        + 2 * u8::from(told.standing.is_queued)
        + 4 * u8::from(told.standing.writes)
        + 8 * u8::from(is_unlinked(told.phase))
        + 16 * u8::from(told.waits)
}

/// The bytes of a record.
#[tactic(auto, unfolding(crate::specs::Layout::record_bytes))]
pub fn record_bytes(told: &Record) -> ArrayVec<u8, 56>
    ensures bytes { result.items ≡ record_bytes told.now }
    ensures size { length result.items ≡ 56 }
{
    let mut out = ArrayVec::new();
    let (code, number) = phase_code(told.phase);
    let (found, left) = values_of(told.first);
    let (found_second, left_second) = values_of(told.second);
    put_bytes(&mut out, &u32::to_le_bytes(told.line));
    put_bytes(
        &mut out,
        &[
            told.thread,
            move_number(told.action),
            told.kind,
            outcome_number(told.outcome),
            code,
            thread_code(told),
        ],
    );
    put_bytes(&mut out, &u16::to_le_bytes(touched_word(told.first)));
    put_bytes(&mut out, &u16::to_le_bytes(touched_word(told.second)));
    put_bytes(&mut out, &[due_code(told.due), told.calls]);
    put_u64(&mut out, found);
    put_u64(&mut out, left);
    put_u64(&mut out, found_second);
    put_u64(&mut out, left_second);
    put_u64(&mut out, number);
    out
}
