//! A move touches at most two words. A step of a queue lock is one operation, and its effect says
//! what it does to its word. Of a section, only the words that it changes are told.

ghost use Rattle.std.specs.Prelude.{◌≡◌, ◌≢◌, ◌<◌, ℕ, List, IfSome, None, length, option_map};
ghost use Rattle.lk_locks.specs.read_write.{Tells};
ghost use Rattle.lk_locks.specs.Steps.{change_of, refusal_of};
ghost use Rattle.lk_page.specs.Told.{AreTouched, IsChange, IsOwn, own_word};

use crate::told::Touch;
use lk_locks::{Machine, Move, SectionEffect, StepEffect};
use lk_words::{Effect, WordArray, Words};

// The word of an effect.
fn touch_of(effect: Option<Effect>) -> Option<Touch>
    requires { IfSome effect (λ e. e.word < 256) }
    ensures { result
        ≡ option_map (λ e. record { word = e.word; found = e.found; left = e.left }) effect }
{
    let effect = effect?;
    Some(Touch {
        word: effect.word as u8,
        found: effect.found,
        left: effect.left,
    })
}

// The words that a section changed.
fn changes(section: &SectionEffect) -> (Option<Touch>, Option<Touch>)
    requires first { IfSome section.now.first (λ e. e.word < 256) }
    requires second { IfSome section.now.second (λ e. e.word < 256) }
    ensures touched { (before after : List ℕ) → Tells section.now before after
        → AreTouched before after result.0 result.1 }
    ensures changed { (before after : List ℕ) → Tells section.now before after
        → result.0 ≢ None → IsChange result.0 }
{
    let second = touch_of(section.second);
    match section.first {
        Some(_) => (touch_of(section.first), second),
        None => (second, None),
    }
}

/// The words that a move which is accepted touches. A call touches none.
pub fn touches(
    machine: &Machine<WordArray>,
    thread: u8,
    action: Move,
) -> (Option<Touch>, Option<Touch>)
    requires { refusal_of machine.now thread action ≡ None }
    ensures touched { AreTouched machine.now.words (change_of machine.now thread action).words
        result.0 result.1 }
    ensures own { IsOwn (length machine.now.words) (own_word machine.now thread action)
        result.0 result.1 }
{
    if let Move::Call(_) = action {
        return (None, None);
    }
    // at most 129, so the place of each word fits a byte
    let _words = machine.words().as_slice();
    match machine.effect(thread) {
        Some(StepEffect::OneWord(effect, _)) => (touch_of(Some(effect)), None),
        Some(StepEffect::Monitor(section)) => changes(&section),
        None => (None, None),
    }
}
