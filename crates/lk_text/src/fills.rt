//! Sentences with places in braces, and the values that fill them.

ghost use Rattle.std.specs.Prelude.{◌≡◌, ◌++◌, string_bytes, OnOk};
ghost use Rattle.lk_text.specs.Filled.{sentence_with, in_groups, place_text, texts_of, value_named};
ghost use Rattle.lk_text.specs.Filled.{value_text};

use crate::texts::Text;
use std::alloc::AllocError;
use std::fmt::{InlineText, Write};

/// A value for a place.
#[derive(Clone, Copy)]
pub enum Value<'a> {
    Number(u64),
    Text(&'a str),
    /// A text that was put together.
    Part(&'a Text),
    /// A text that is borrowed of nobody.
    Short(InlineText<40>),
    /// A word, and a number after it.
    Numbered(&'a str, u64),
    /// How many there are, with a comma before each three digits, and what they are: the first word
    /// if there is one, and else the second.
    Count(u64, &'a str, &'a str),
}

/// The name of a place, and what fills it.
pub type Place<'a> = (&'a str, Value<'a>);

// The groups of three digits before the last one of a number of 64 bits.
const GROUPS: u8 = 6;

// Writes a number with a comma before each three digits, as in 1,018.
fn put_grouped(text: &mut String, groups: u8, number: u64) -> Result<(), AllocError>
    ensures { OnOk result
        (string_bytes text.new ≡ string_bytes text.old ++ in_groups groups number) }
{
    if groups == 0 || number < 1000 {
        return write!(text, "{number}");
    }
    put_grouped(text, groups - 1, number / 1000)?;
    let last = number % 1000;
    let (hundreds, tens, ones) = (last / 100, last / 10 % 10, last % 10);
    write!(text, ",{hundreds}{tens}{ones}")
}

// Writes a value.
fn put_value(text: &mut String, value: Value<'_>) -> Result<(), AllocError>
    ensures { OnOk result
        (string_bytes text.new ≡ string_bytes text.old ++ value_text value.entry) }
{
    match value {
        Value::Number(number) => write!(text, "{number}"),
        Value::Text(said) => text.push_str(said),
        Value::Part(said) => text.push_str(said.as_str()?),
        Value::Short(said) => text.push_str(said.as_str()),
        Value::Numbered(word, number) => {
            text.push_str(word)?;
            write!(text, " {number}")
        }
        Value::Count(count, one, several) => {
            put_grouped(text, GROUPS, count)?;
            text.push(' ')?;
            text.push_str(if count == 1 { one } else { several })
        }
    }
}

// The value for the place of this name.
fn value_named<'a>(places: &[Place<'a>], name: &str) -> Option<Value<'a>>
    ensures { result ≡ value_named places.now name.now }
{
    let (_, value) = places.iter().find(|(place, _)| *place == name)?;
    Some(*value)
}

// Writes what fills the place of this name. A name that there is not stays as it is.
fn put_place(text: &mut String, places: &[Place<'_>], name: &str) -> Result<(), AllocError>
    ensures { OnOk result (string_bytes text.new
        ≡ string_bytes text.old ++ place_text (texts_of places.now) name.now) }
{
    match value_named(places, name) {
        Some(value) => put_value(text, value),
        None => {
            text.push('{')?;
            text.push_str(name)?;
            text.push('}')
        }
    }
}

// Writes a sentence, with its places `{name}` filled. A brace without its end stays as it is.
pub(crate) fn fill(
    text: &mut String,
    sentence: &str,
    places: &[Place<'_>],
) -> Result<(), AllocError>
    ensures { OnOk result (string_bytes text.new
        ≡ string_bytes text.old ++ sentence_with (texts_of places.now) sentence.now) }
{
    let mut rest = sentence;
    'places: while let Some((front, place)) = rest.split_once('{') {
        text.push_str(front)?;
        let Some((name, behind)) = place.split_once('}') else {
            text.push('{')?;
            return text.push_str(place);
        };
        put_place(text, places, name)?;
        rest = behind;
    }
    text.push_str(rest)
}
