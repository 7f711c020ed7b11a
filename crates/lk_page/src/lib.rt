//! The proved code for a page, and for programs without the Rattle kit: the machine plays a
//! schedule, and each move is written out for a page to draw, or as a line of the report; a trace
//! is checked; a shortest run is found that has the lines of a sketch, or leads from a state to a
//! transition of a kind; the threads go on from a state until all are idle; and of a line that
//! cannot be read, it is told where it stops.
//!
//! It is built to a WebAssembly module that imports nothing. An exported function takes no memory
//! there, so all that it reads and writes are slices that the caller lends. page/MODULE.md lists
//! their bytes.
#![tactic(auto)]

ghost use Rattle.std.specs.Prelude.{◌≡◌, ◌<◌, ◌≤◌, ◌++◌, Err, IfSome, IsSomeAnd, None, Ok, drop};
ghost use Rattle.std.specs.Prelude.{length, take};
ghost use Rattle.std.specs.Option.{option_map_or};
ghost use Rattle.lk_lines.specs.Faults.{Fault};
ghost use Rattle.lk_replay.specs.Part.{part_size, with_part};
ghost use Rattle.lk_replay.specs.Report.{report_text};
ghost use Rattle.lk_replay.specs.Schedule.{Plan, plan_of};
ghost use Rattle.lk_catalogue.specs.Kinds.{kind_count};
ghost use Rattle.lk_search.specs.Runs.{initial};
ghost use Rattle.lk_search.specs.Sketches.{OfKind};
ghost use Rattle.lk_page.specs.Asked.{IsAsked, asked_by, lock_of, start_of};
ghost use Rattle.lk_page.specs.Checking.{checked_text, nothing};
ghost use Rattle.lk_page.specs.Codes.{expected_code, stop_of};
ghost use Rattle.lk_page.specs.FaultTexts.{text_of_number};
ghost use Rattle.lk_page.specs.Finishing.{IsFinished, IsFinishingNumber};
ghost use Rattle.lk_page.specs.Playing.{HasHistory};
ghost use Rattle.lk_page.specs.Sought as sought;
ghost use Rattle.lk_page.specs.Sought.{IsAnswer, IsAnswered, states_within};
ghost use Rattle.lk_page.specs.Told.{after_lines, beginning};
ghost use Rattle.lk_page.specs.TraceParts.{line_parts};
ghost use Rattle.lk_page.specs.Written.{IsTold};

mod asking;
mod changes;
mod check;
mod codes;
mod fault_texts;
mod finding;
mod finishing;
mod kind_texts;
mod layout;
mod next;
mod owned;
mod playing;
mod record;
mod sought;
mod state;
mod told;
mod trace_parts;

use asking::{asked_of, lock_of};
use check::check_text;
pub use check::{LtAnswer, LtStep};
use codes::{expected_code, fault_codes};
use fault_texts::fault_text;
use finding::{MOST_TEXT, seek, seek_from};
use finishing::{finishing_number, make_finishing};
use kind_texts::put_kind;
use lk_catalogue::kinds_of;
use lk_lines::{Expected, unreadable_header, unreadable_move};
use lk_locks::Tracker;
use lk_replay::{open_schedule, report_part};
use lk_search::{Bounds, Rounds};
use lk_trace::read_line;
use lk_words::WordArray;
use playing::play_moves;
use sought::{sought_code, sought_number};
use state::{STATE_BYTES, fault_bytes, state_bytes};
use trace_parts::{PARTS, head_size, parts_of};

/// Reads a schedule text, plays at most `most` of its moves up to the first refused one, writes a
/// record of 56 bytes of each, as many as fit, and the state after the last into the first 2,304
/// bytes of `state`.
///
/// It returns 0 if all moves asked for were accepted, 1 if the next is refused, 2 if the text has a
/// fault, which the state names, and 3, with nothing done, if `state` is too short.
#[unsafe(no_mangle)]
pub extern "C" fn play(text: &[u8], most: u64, records: &mut [u8], state: &mut [u8]) -> u64
    ensures short { length state.old < 2304
        → (result ≡ 3) × (records.new ≡ records.old) × (state.new ≡ state.old) }
    ensures told { 2304 ≤ length state.old
        → IsTold (plan_of text.now) most result records.old records.new state.old state.new }
{
    if state.len() < STATE_BYTES {
        return 3;
    }
    let (shape, lines, moves) = match open_schedule(text) {
        Ok(read) => read,
        Err(fault) => {
            let (code, line) = fault_codes(fault);
            state[..STATE_BYTES].copy_from_slice(fault_bytes(code, line).as_slice());
            return 2;
        }
    };
    let mut lock = Tracker::at_start(shape);
    let stopped = play_moves(&mut lock, lines, most, records);
    let bytes = state_bytes(&lock, moves, stopped);
    state[..STATE_BYTES].copy_from_slice(bytes.as_slice());
    u64::from(stopped.refused.is_some())
}

/// Writes the bytes of a schedule text's report from `skip` on, as many as there is room for.
/// Returns how many bytes of the report there are from `skip` on, counted to one more than the room
/// has.
#[unsafe(no_mangle)]
pub extern "C" fn report(text: &[u8], skip: u64, room: &mut [u8]) -> u64
    ensures size { result ≡ part_size (length room.old) skip (report_text text.now) }
    ensures part { room.new ≡ with_part room.old skip (report_text text.now) }
{
    report_part(text, skip, room)
}

/// Looks for a shortest run of a new lock with this number that has the lines of a sketch, in their
/// order, with other moves between them. Each thread takes the lock at most `rounds` times, and at
/// most `most` states are searched, or as many as fit into `cells` and `slots`.
///
/// It returns 0 if there is one, and writes the codes of its moves into the last places of `codes`;
/// 1 if no run has the lines; 2 if there are more states; 3 if the run has more moves than `codes`
/// has places; 4 if a line is none of a sketch, 5 if it is number 256, and 6 if there is no room
/// for what it admits. The moves, states or line are written to the first place of `number`. It
/// returns 7 if there is no such lock or the text has more than 65,535 bytes, and 8 if `number` is
/// empty, and nothing is written then.
#[tactic(auto, using(crate::proofs::Seeking::is_answered))]
#[unsafe(no_mangle)]
pub extern "C" fn find_moment(
    text: &[u8],
    lock: u64,
    threads: u64,
    bits: u64,
    rounds: u64,
    most: u64,
    cells: &mut [u64],
    slots: &mut [u32],
    codes: &mut [u64],
    number: &mut [u64],
) -> u64
    ensures short { length number.old ≡ 0
        → (result ≡ 8) × (codes.new ≡ codes.old) × (number.new ≡ number.old) }
    ensures unasked { 0 < length number.old
        → ¬ (IsAsked lock threads bits rounds × (length text.now < 65536))
        → (result ≡ 7) × (codes.new ≡ codes.old) × (number.new ≡ number.old) }
    ensures answered { let asked = asked_by lock threads bits rounds in
        0 < length number.old → IsAsked lock threads bits rounds → length text.now < 65536
        → IsAnswered (sought.IsTold text.now asked
        (states_within most (length cells.old) (start_of asked)) codes.new)
        result number.old number.new }
{
    if number.is_empty() {
        return 8;
    }
    if text.len() >= MOST_TEXT {
        return 7;
    }
    let Some(asked) = asked_of(lock, threads, bits, rounds) else {
        return 7;
    };
    let sought = seek(text, asked, most as usize, cells, slots, codes);
    number[0] = sought_number(sought);
    sought_code(sought)
}

// The lock after at most `most` moves of a schedule text, up to the first refused one. There is
// none if the text has a fault.
#[tactic(auto, using(crate::proofs::Resting::threads_of))]
fn lock_after(text: &[u8], most: u64) -> Option<Tracker<WordArray>>
    ensures faulty { (fault : Fault) → plan_of text.now ≡ Err fault → result ≡ None }
    ensures played { (p : Plan) → plan_of text.now ≡ Ok p → IsSomeAnd result
        (λ lock. lock.state ≡ (after_lines (beginning p) (take most p.moves)).state) }
    ensures threads { (p : Plan) → plan_of text.now ≡ Ok p → IfSome result
        (λ lock. length lock.state.phases ≡ p.shape.threads) }
    ensures some { IfSome result (λ lock. 0 < length lock.state.phases) }
    ensures kept { IfSome result (λ lock. HasHistory lock.state) }
{
    let Ok((shape, lines, _)) = open_schedule(text) else {
        return None;
    };
    // a shape has a thread
    let _threads = shape.threads();
    let mut lock = Tracker::at_start(shape);
    let _stopped = play_moves(&mut lock, lines, most, &mut []);
    Some(lock)
}

/// Plays at most `most` moves of a schedule text, as `play` does, and looks for a shortest run from
/// there whose last move is a transition of the kind with this number. Each thread begins at most
/// `rounds` more rounds, and at most `states` states are searched, or as many as fit into `cells`
/// and `slots`.
///
/// It returns and writes what `find_moment` does, but for the answers to a text that is no sketch.
/// It returns 7 if the text has a fault or `rounds` is above 255.
#[unsafe(no_mangle)]
pub extern "C" fn soon(
    text: &[u8],
    most: u64,
    kind: u64,
    rounds: u64,
    states: u64,
    cells: &mut [u64],
    slots: &mut [u32],
    codes: &mut [u64],
    number: &mut [u64],
) -> u64
    ensures short { length number.old ≡ 0
        → (result ≡ 8) × (codes.new ≡ codes.old) × (number.new ≡ number.old) }
    ensures many { 0 < length number.old → 255 < rounds
        → (result ≡ 7) × (codes.new ≡ codes.old) × (number.new ≡ number.old) }
    ensures faulty { (fault : Fault) → 0 < length number.old → plan_of text.now ≡ Err fault
        → (result ≡ 7) × (codes.new ≡ codes.old) × (number.new ≡ number.old) }
    ensures answered { (p : Plan) → 0 < length number.old → rounds < 256
        → plan_of text.now ≡ Ok p
        → let start = initial (after_lines (beginning p) (take most p.moves)).state in
        IsAnswered (IsAnswer (record { rounds = Rounds.UpTo rounds; goal = OfKind kind }) start 1
        (states_within states (length cells.old) start) codes.new)
        result number.old number.new }
{
    if number.is_empty() {
        return 8;
    }
    if rounds > 255 {
        return 7;
    }
    let Some(lock) = lock_after(text, most) else {
        return 7;
    };
    let bounds = Bounds::of_kind(Rounds::UpTo(rounds as u8), kind as usize);
    let sought = seek_from(
        lock.machine(),
        bounds,
        1,
        states as usize,
        cells,
        slots,
        codes,
    );
    number[0] = sought_number(sought);
    sought_code(sought)
}

/// Plays at most `most` moves of a schedule text, as `play` does, and returns the number of the
/// move by which a thread goes on from there: it is accepted, and is neither a call for the lock
/// nor a failed poll. It returns 0 if the thread has no such move, if there is no such thread, and
/// if the text has a fault.
#[unsafe(no_mangle)]
pub extern "C" fn finishing_move(text: &[u8], most: u64, thread: u64) -> u64
    ensures faulty { (fault : Fault) → plan_of text.now ≡ Err fault → result ≡ 0 }
    ensures outside { (p : Plan) → plan_of text.now ≡ Ok p → p.shape.threads ≤ thread
        → result ≡ 0 }
    ensures number { (p : Plan) → plan_of text.now ≡ Ok p → thread < p.shape.threads
        → IsFinishingNumber (after_lines (beginning p) (take most p.moves)).state thread result }
{
    let Some(lock) = lock_after(text, most) else {
        return 0;
    };
    if thread >= u64::from(lock.machine().threads()) {
        return 0;
    }
    finishing_number(lock.machine(), thread as u8)
}

/// Plays at most `most` moves of a schedule text, as `play` does, and goes on with moves by which
/// threads go on, one after another, until all threads are idle or `codes` is full: each is
/// accepted, and is neither a call for the lock nor a failed poll. Their codes are written into the
/// first places of `codes`, and how many they are into the first place of `number`.
///
/// It returns 0 if all threads are idle after them, and else 1. It returns 7 if the text has a
/// fault, and 8 if `number` is empty, and nothing is written then.
#[unsafe(no_mangle)]
pub extern "C" fn finish(text: &[u8], most: u64, codes: &mut [u64], number: &mut [u64]) -> u64
    ensures short { length number.old ≡ 0
        → (result ≡ 8) × (codes.new ≡ codes.old) × (number.new ≡ number.old) }
    ensures faulty { (fault : Fault) → 0 < length number.old → plan_of text.now ≡ Err fault
        → (result ≡ 7) × (codes.new ≡ codes.old) × (number.new ≡ number.old) }
    ensures finished { (p : Plan) → 0 < length number.old → plan_of text.now ≡ Ok p
        → IsFinished (after_lines (beginning p) (take most p.moves)).state result
        codes.old codes.new number.old number.new }
{
    if number.is_empty() {
        return 8;
    }
    let Some(mut lock) = lock_after(text, most) else {
        return 7;
    };
    let made = make_finishing(&mut lock, codes);
    number[0] = made as u64;
    u64::from(lock.finishing_move().is_some())
}

/// The number of kinds of transition of the lock with this number, and 0 if there is no such lock.
#[unsafe(no_mangle)]
pub extern "C" fn kinds(lock: u64) -> u64
    ensures count { lock < 4 → result ≡ kind_count (lock_of lock) }
    ensures none { 4 ≤ lock → result ≡ 0 }
{
    if lock > 3 {
        return 0;
    }
    kinds_of(lock_of(lock)).len() as u64
}

/// Writes the name of a kind of transition, its sentence, and the lines of a sketch of which each
/// shortest run of two threads has a transition of this kind. A line feed is between two of them.
/// Returns how many bytes that are: 0 if there is no such kind, or `text` is too short.
#[unsafe(no_mangle)]
pub extern "C" fn kind_text(lock: u64, kind: u64, text: &mut [u8]) -> u64
    ensures fits { result ≤ length text.old }
    ensures size { length text.new ≡ length text.old }
{
    if kind >= kinds(lock) {
        return 0;
    }
    put_kind(text, kinds_of(lock_of(lock))[kind as usize]).unwrap_or(0) as u64
}

// The first place at which something else is expected, of a header if `is_move` is 0, and else of a
// move.
fn stop_of(line: &[u8], is_move: u64) -> Option<(usize, Expected)>
    ensures { result ≡ stop_of is_move line.now }
{
    if is_move == 0 {
        unreadable_header(line)
    } else {
        unreadable_move(line)
    }
}

/// The column, in bytes from 1, at which a line stops being a header if `is_move` is 0, and else a
/// move: where the first word begins that may not be there, or the place at which one is missing.
/// It returns 0 if there is no such place.
#[unsafe(no_mangle)]
pub extern "C" fn stops_at(line: &[u8], is_move: u64) -> u64
    ensures { result ≡ option_map_or (λ stop. stop.0) (stop_of is_move line.now) 0 }
{
    stop_of(line, is_move).map_or(0, |stop| stop.0 as u64)
}

/// The number of what is expected at that column, and 0 if there is no such place.
#[unsafe(no_mangle)]
pub extern "C" fn expected(line: &[u8], is_move: u64) -> u64
    ensures { result ≡ option_map_or (λ stop. expected_code stop.1) (stop_of is_move line.now) 0 }
{
    stop_of(line, is_move).map_or(0, |stop| expected_code(stop.1))
}

/// Checks a trace to its end, or up to the first line that ends it, and returns the number of its
/// fault. Writes a record for each move that is made, as far as there is room. If a move differs
/// from the lock's, the next record is the step that its thread makes next, or one of zeros on no
/// word if it makes none.
#[unsafe(no_mangle)]
pub extern "C" fn lt_check(text: &[u8], steps: &mut [LtStep], answer: &mut LtAnswer) -> u32
    ensures fault { result ≡ answer.new.fault }
    ensures answer { answer.new ≡ (checked_text nothing steps.old text.now).answer }
    ensures records { steps.new ≡ (checked_text nothing steps.old text.now).steps }
{
    *answer = LtAnswer {
        line: 0,
        moves: 0,
        fault: 0,
        threads: 0,
    };
    check_text(text, steps, answer);
    answer.fault
}

/// Writes the text of a fault's number, without an end, as far as there is room, and returns how
/// long it is.
#[unsafe(no_mangle)]
pub extern "C" fn lt_fault_text(fault: u32, room: &mut [u8]) -> usize
    ensures length { result ≡ length (text_of_number fault) }
    ensures text { room.new ≡ take (length room.old) (text_of_number fault)
        ++ drop (length (text_of_number fault)) room.old }
{
    let text = fault_text(fault).as_bytes();
    let taken = text.len().min(room.len());
    room[..taken].copy_from_slice(&text[..taken]);
    text.len()
}

/// Reads a line of a trace, and writes the eleven numbers of its parts. Returns 1, or 0 if the line
/// is no move of a trace or `parts` has fewer than eleven places, and nothing is written then.
#[unsafe(no_mangle)]
pub extern "C" fn trace_line(line: &[u8], parts: &mut [u64]) -> u64
    ensures short { length parts.old < 11 → (result ≡ 0) × (parts.new ≡ parts.old) }
    ensures none { line_parts line.now ≡ None → (result ≡ 0) × (parts.new ≡ parts.old) }
    ensures parts { 11 ≤ length parts.old → IfSome (line_parts line.now)
        (λ numbers. (result ≡ 1) × (parts.new ≡ numbers ++ drop 11 parts.old)) }
{
    if parts.len() < PARTS {
        return 0;
    }
    let Some(read) = read_line(line) else {
        return 0;
    };
    parts[..PARTS].copy_from_slice(&parts_of(head_size(line), read.seen));
    1
}
