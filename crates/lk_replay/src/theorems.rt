//! The law of every report: what the text says that `report_of`, `run` and their callers give by
//! their contracts. The contract of the function is the law, and its body is empty.

ghost use Rattle.std.specs.Prelude.{ℕ, List};
ghost use Rattle.lk_replay.specs.Report.{report_text};
ghost use Rattle.lk_replay.specs.Whole.{IsReportOfText};

/// The report of every byte text that is a schedule describes the history that its accepted moves
/// leave on a new lock. That history is legal, and so exclusive and in order. Each line shows the
/// holders and the queue of the history so far.
pub fn every_report_is_as_promised()
    ensures { (bytes : List ℕ) → IsReportOfText bytes (report_text bytes) }
{}
