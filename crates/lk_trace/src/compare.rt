//! In what a line of a trace differs from the machine, with nothing changed.

ghost use Rattle.std.specs.Prelude.{◌≡◌, ◌<◌, ◌↔◌, None, Some, IsOk, IfOk, IfErr, IfSome, length};
ghost use Rattle.lk_trace.specs.Agreement.{Agrees};
ghost use Rattle.lk_trace.specs.Checks.{difference_of, effect_other, made_of, on, section_other};

use crate::{Difference, Made, Seen, TraceLine, WordName, name_at};
use lk_locks::{LockKind, Machine, Move, Outcome, StepEffect};
use lk_words::{Effect, WordArray};

// The difference of a move with this effect from the values given for its word.
fn effect_other(
    kind: LockKind,
    effect: Option<Effect>,
    given: WordName,
    given_found: Option<u64>,
    given_left: Option<u64>,
    given_wrote: Option<bool>,
) -> Option<Difference>
    ensures { result ≡ effect_other kind effect given given_found given_left given_wrote }
{
    let Some(effect) = effect else {
        return Some(Difference::OtherWord { word: None, given });
    };
    let own = name_at(kind, effect.word);
    let word = match own {
        Some(word) if word == given => word,
        _ => return Some(Difference::OtherWord { word: own, given }),
    };
    let (found, left, wrote) = (effect.found, effect.left, effect.found != effect.left);
    match given_found {
        Some(given) if found != given => return Some(Difference::FoundOther { word, found, given }),
        _ => {}
    }
    match given_left {
        Some(given) if left != given => return Some(Difference::LeftOther { word, left, given }),
        _ => {}
    }
    match given_wrote {
        Some(given) if wrote != given => Some(Difference::WroteOther { wrote }),
        _ => None,
    }
}

// The difference of a section with this outcome, after one of this count, from the given ones.
fn section_other(
    last: u64,
    outcome: Outcome,
    count: Option<u64>,
    given: Option<Outcome>,
) -> Option<Difference>
    ensures { result ≡ section_other last outcome count given }
{
    match (count, given) {
        (Some(given), _) if given <= last => Some(Difference::CountNotAbove { last, given }),
        (_, Some(given)) if outcome != given => Some(Difference::OtherOutcome { outcome, given }),
        _ => None,
    }
}

/// Returns a call of a thread, or the step that it makes next, as it would be made.
#[tactic(auto, using(crate::proofs::Waiting::would_wait))]
pub fn made_of(machine: &Machine<WordArray>, t: u8, m: Move) -> Made
    requires { t < length machine.now.phases }
    ensures value { result ≡ made_of machine.now t m }
    ensures within { IfSome result.effect (λ effect. effect.word < length machine.now.words) }
{
    let from = machine.phase(t);
    let (outcome, effect, section) = match (m, machine.effect(t)) {
        (Move::Call(_), _) => (Outcome::Called, None, None),
        (Move::Step(_), None) => (Outcome::Waits, None, None),
        (Move::Step(_), Some(StepEffect::OneWord(effect, outcome))) => {
            (outcome, Some(effect), None)
        }
        (Move::Step(_), Some(StepEffect::Monitor(section))) => {
            (section.outcome, None, Some(section))
        }
    };
    Made {
        from,
        outcome,
        effect,
        section,
    }
}

/// The move of a line, as it would be made, if the greatest count of a section so far was
/// `sections`. It is not made.
///
/// # Errors
///
/// Where the line differs from the machine first.
pub fn check_line(
    machine: &Machine<WordArray>,
    sections: u64,
    line: TraceLine,
) -> Result<Made, Difference>
    ensures made { IfOk result (λ made. made ≡ made_of machine.now line.thread line.action) }
    ensures none { IfOk result (λ made. difference_of (on machine.now sections) line ≡ None) }
    ensures differs { IfErr result
        (λ difference. difference_of (on machine.now sections) line ≡ Some difference) }
    ensures agrees { IsOk result ↔ Agrees (on machine.now sections) line }
{
    if let Err(refusal) = machine.check(line.thread, line.action) {
        return Err(Difference::Refused(refusal));
    }
    let made = made_of(machine, line.thread, line.action);
    let difference = match line.seen {
        Seen::Nothing => None,
        Seen::OnWord {
            word,
            found,
            left,
            wrote,
        } => effect_other(machine.kind(), made.effect, word, found, left, wrote),
        Seen::WithOutcome { count, outcome } => section_other(
            sections,
            made.outcome,
            count,
            outcome,
        ),
    };
    match difference {
        Some(difference) => Err(difference),
        None => Ok(made),
    }
}
