//! Objects of JSON, written field by field.

ghost use Rattle.std.specs.Prelude.{OnOk};
ghost use Rattle.lk_text.specs.Texts.{Grows, Lengthens};

use crate::texts::Text;
use std::alloc::AllocError;
use std::fmt::Write;

// Writes a character of a string.
fn put_char(text: &mut String, c: char) -> Result<(), AllocError>
    ensures { OnOk result (Lengthens text.old text.new) }
{
    let code = c as u32;
    match c {
        '"' => text.push_str("\\\""),
        '\\' => text.push_str("\\\\"),
        _ if code < 32 => write!(text, "\\u{code:04x}"),
        _ => text.push(c),
    }
}

// Writes a string.
pub(crate) fn put_quoted(text: &mut String, said: &str) -> Result<(), AllocError>
    ensures { OnOk result (Lengthens text.old text.new) }
{
    text.push('"')?;
    for c in said.chars() {
        put_char(text, c)?;
    }
    text.push('"')
}

/// Begins a field of this name, after a comma if it is not the first of its object. The value
/// follows.
pub fn name(text: &mut Text, name: &str)
    ensures { Grows text.old text.new }
{
    if !text.ends_with('{') {
        text.put(",");
    }
    text.put_quoted(name);
    text.put(":");
}

/// Writes a field with a string.
pub fn string(text: &mut Text, field: &str, said: &str)
    ensures { Grows text.old text.new }
{
    name(text, field);
    text.put_quoted(said);
}

/// Writes a field with a text, unless it is empty.
pub fn text(text: &mut Text, field: &str, said: &Text)
    ensures { Grows text.old text.new }
{
    match said.as_str() {
        Ok("") => {}
        Ok(said) => string(text, field, said),
        Err(AllocError) => text.lose(),
    }
}

/// Writes a field with a number.
pub fn number(text: &mut Text, field: &str, number: u64)
    ensures { Grows text.old text.new }
{
    name(text, field);
    text.put_number(number);
}
