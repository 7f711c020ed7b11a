//! An operation on a word as a value: which one it is, on which word, and with which operands.
//!
//! The five are those in which Mellor-Crummey and Scott state their locks (ACM TOCS 9(1), 1991).
//! Different here: an operation is data, so a lock can name a thread's next operation before it is
//! made, and a caller that watches a step reads its effect on the word and does not derive it.

ghost use Rattle.std.specs.Prelude.{◌≡◌, ◌≤◌, ◌<◌, ◌+◌, ◌%◌, ◌^◌, length};
ghost use Rattle.lk_words.specs.Operations.{answer_of, effect_on, left_by, word_of, Fits};
ghost use Rattle.lk_words.specs.Operations.{words_after};

use crate::Words;
use crate::array::greatest_of;

/// One operation on one word, which is named by its place.
#[derive(Clone, Copy, PartialEq, Eq, Debug)]
pub enum Operation {
    Read { word: usize },
    Write { word: usize, value: u64 },
    Swap { word: usize, value: u64 },
    CompareAndSwap { word: usize, old: u64, new: u64 },
    FetchAndAdd { word: usize, addend: u64 },
}

/// The value that an operation returns to the thread that makes it.
#[derive(Clone, Copy, PartialEq, Eq, Debug)]
pub enum Answer {
    /// A write returns nothing.
    Nothing,
    /// The value that a read, a swap or a fetch-and-add found in the word.
    Found(u64),
    /// Whether a compare-and-swap replaced the word.
    Swapped(bool),
}

/// The effect of an operation on its word.
#[derive(Clone, Copy, PartialEq, Eq, Debug)]
pub struct Effect {
    /// The place of the word.
    pub word: usize,
    /// The value of the word before the operation.
    pub found: u64,
    /// The value of the word after it.
    pub left: u64,
    pub answer: Answer,
}

/// The sum of two words of `bits` bits, which wraps.
#[tactic(auto, using(crate::proofs::Prefix::left_of_sum))]
pub fn sum(bits: u8, word: u64, addend: u64) -> u64
    requires least { 2 ≤ bits }
    requires most { bits ≤ 64 }
    ensures value { result ≡ (word + addend) % 2 ^ bits }
    ensures fits { result < 2 ^ bits }
{
    word.wrapping_add(addend) & greatest_of(bits)
}

impl Operation {
    /// The place of its word.
    pub fn word(self) -> usize
        ensures { result ≡ word_of self }
    {
        match self {
            Operation::Read { word }
            | Operation::Write { word, .. }
            | Operation::Swap { word, .. }
            | Operation::CompareAndSwap { word, .. }
            | Operation::FetchAndAdd { word, .. } => word,
        }
    }

    /// The effect of the operation on a word of `bits` bits that holds `found`.
    pub fn effect(self, found: u64, bits: u8) -> Effect
        requires least { 2 ≤ bits }
        requires most { bits ≤ 64 }
        ensures word { result.word ≡ word_of self }
        ensures found { result.found ≡ found }
        ensures left { result.left ≡ left_by bits found self }
        ensures answer { result.answer ≡ answer_of found self }
    {
        let (word, left, answer) = match self {
            Operation::Read { word } => (word, found, Answer::Found(found)),
            Operation::Write { word, value } => (word, value, Answer::Nothing),
            Operation::Swap { word, value } => (word, value, Answer::Found(found)),
            Operation::CompareAndSwap { word, old, new } if found == old => {
                (word, new, Answer::Swapped(true))
            }
            Operation::CompareAndSwap { word, .. } => (word, found, Answer::Swapped(false)),
            Operation::FetchAndAdd { word, addend } => {
                (word, sum(bits, found, addend), Answer::Found(found))
            }
        };
        Effect {
            word,
            found,
            left,
            answer,
        }
    }
}

/// Makes the operation, by one call of the words' own. Its operands have to fit the words.
///
/// The contract says what the words and the answer are afterwards. It does not count the calls.
#[inline(always)]
pub fn perform<W: Words>(words: &mut W, operation: Operation) -> Answer
    requires { Fits (W.width words.old) (length (W.list words.old)) operation }
    ensures words { W.list words.new
        ≡ words_after (W.width words.old) (W.list words.old) operation }
    ensures answer { result ≡ (effect_on (W.width words.old) (W.list words.old) operation).answer }
    ensures width { W.width words.new ≡ W.width words.old }
{
    match operation {
        Operation::Read { word } => Answer::Found(words.read(word)),
        Operation::Write { word, value } => {
            words.write(word, value);
            Answer::Nothing
        }
        Operation::Swap { word, value } => Answer::Found(words.swap(word, value)),
        Operation::CompareAndSwap { word, old, new } => {
            Answer::Swapped(words.compare_and_swap(word, old, new))
        }
        Operation::FetchAndAdd { word, addend } => Answer::Found(words.fetch_and_add(word, addend)),
    }
}
