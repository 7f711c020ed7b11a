//! Plays the moves of a schedule that was opened, and writes a record of each. The moves are read
//! again as they are played.

ghost use Rattle.std.specs.Prelude.{◌≡◌, ◌+◌, ◌*◌, ◌<◌, ◌≤◌, [], length, take};
ghost use Rattle.lk_locks.specs.Play.{tracker_of};
ghost use Rattle.lk_replay.specs.Schedule.{AreMoves, moves_left};
ghost use Rattle.lk_page.specs.Layout.{record_bytes};
ghost use Rattle.lk_page.specs.Playing.{HavePlayed};
ghost use Rattle.lk_page.specs.Written.{with_bytes_at};

use crate::record::{RECORD_BYTES, play_line, record_bytes};
use crate::told::{Record, Stopped};
use lk_lines::Lines;
use lk_locks::Tracker;
use lk_replay::read_move;
use lk_words::WordArray;

// Writes record number `count`, if it fits wholly.
fn put_record(records: &mut [u8], count: u32, told: &Record)
    requires { count ≤ 65536 }
    ensures { records.new ≡ with_bytes_at records.old (count * 56) (record_bytes told.now) }
{
    let at = count as usize * RECORD_BYTES;
    let end = at + RECORD_BYTES;
    let bytes = record_bytes(told);
    if end <= records.len() {
        records[at..end].copy_from_slice(bytes.as_slice());
    }
}

/// Plays at most `most` of the moves in these lines, up to the first refused one.
pub fn play_moves(
    lock: &mut Tracker<WordArray>,
    lines: Lines<'_>,
    most: u64,
    records: &mut [u8],
) -> Stopped
    requires fresh { lock.old ≡ tracker_of lock.old.state [] }
    requires whole { AreMoves lines 0 }
    ensures played { HavePlayed lock.old.state (take most (moves_left lines.entry 0)) records.old
        lock.new result.count result.refused records.new }
    ensures threads { length lock.new.state.phases ≡ length lock.old.state.phases }
    ensures words { length lock.new.state.words ≡ length lock.old.state.words }
{
    let mut lines = lines;
    let mut count: u32 = 0;
    while (count as u64) < most {
        let Ok(Some(line)) = read_move(&mut lines, count as usize) else {
            break;
        };
        match play_line(lock, &line) {
            Ok(record) => {
                put_record(records, count, &record);
                count += 1;
            }
            Err(refusal) => {
                let refused = Some((line.number, refusal));
                return Stopped { count, refused };
            }
        }
    }
    Stopped {
        count,
        refused: None,
    }
}
