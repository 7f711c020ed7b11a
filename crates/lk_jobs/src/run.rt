//! A run as a schedule.

ghost use Rattle.std.specs.List.{flat_map};
ghost use Rattle.lk_text.specs.Texts.{Adds};
ghost use Rattle.lk_jobs.specs.Written.{header_line, move_line, schedule_of};

use lk_lines::lock_text;
use lk_locks::Shape;
use lk_search::{LOOKER, RunMove};
use lk_text::Text;
use lk_text::phrases::put_move;

/// Writes the header of a schedule or of a trace.
pub fn put_header(text: &mut Text, header: Shape)
    ensures { Adds (header_line header.kind header.threads header.bits) text.old text.new }
{
    text.put("lock ");
    text.put(lock_text(header.kind()));
    text.put(" threads ");
    text.put_number(u64::from(header.threads()));
    if header.bits() < 64 {
        text.put(" bits ");
        text.put_number(u64::from(header.bits()));
    }
    text.put("\n");
}

// Writes the line of a move, and nothing for a look at the position.
fn put_taken(text: &mut Text, taken: RunMove)
    ensures { Adds (move_line taken) text.old text.new }
{
    if taken.thread == LOOKER {
        return;
    }
    put_move(text, taken.thread, taken.action);
    text.put("\n");
}

/// Writes the lines of a run's moves.
#[tactic(auto, using(crate::proofs::Listed::one_line_more))]
pub fn put_moves(text: &mut Text, run: &[RunMove])
    ensures { Adds (flat_map move_line run.now) text.old text.new }
{
    for taken in run {
        put_taken(text, *taken);
    }
}

/// Writes the header of a run's lock, and a line for each move.
pub fn put_run(text: &mut Text, header: Shape, run: &[RunMove])
    ensures { Adds (schedule_of header.kind header.threads header.bits run.now)
        text.old text.new }
{
    put_header(text, header);
    put_moves(text, run);
}
