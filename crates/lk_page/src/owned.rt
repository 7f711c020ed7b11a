//! The record that each thread of an MCS lock has: its two words, and the value by which a word
//! names it. All three are read off the operations of the machine's steps.

ghost use Rattle.std.specs.Prelude.{◌≡◌, ◌<◌, ◌≤◌};
ghost use Rattle.lk_page.specs.Owned.{next_word, locked_word, record_name, word_or_0, left_or_0};

use lk_locks::{LockKind, Phase, operation_of};
use lk_words::Operation;

fn word_or_0(operation: Option<Operation>) -> usize
    ensures { result ≡ word_or_0 operation }
{
    operation.map_or(0, |operation| operation.word())
}

// The value that the operation leaves in a word that holds 0.
fn left_or_0(operation: Option<Operation>, bits: u8) -> u64
    requires least { 2 ≤ bits }
    requires most { bits ≤ 64 }
    ensures { result ≡ left_or_0 bits operation }
{
    operation.map_or(0, |operation| operation.effect(0, bits).left)
}

/// The places of a thread's `next` and `locked`, and the value that names its record. Of another
/// lock all three are 0.
#[tactic(auto, using(crate::proofs::OwnedBytes::are_bytes))]
pub fn record_of(kind: LockKind, bits: u8, thread: u8) -> (u8, u8, u8)
    requires least { 2 ≤ bits }
    requires most { bits ≤ 64 }
    requires few { thread < 64 }
    ensures next { result.0 ≡ next_word kind bits thread }
    ensures locked { result.1 ≡ locked_word kind bits thread }
    ensures name { result.2 ≡ record_name kind bits thread }
{
    let next = word_or_0(operation_of(kind, bits, thread, Phase::ClearNext));
    let locked = word_or_0(operation_of(kind, bits, thread, Phase::AwaitGrant));
    let name = left_or_0(operation_of(kind, bits, thread, Phase::SwapTail), bits);
    (next as u8, locked as u8, name as u8)
}
