//! The texts of a kind of transition: its name, its sentence, and a sketch of it.

ghost use Rattle.std.specs.Prelude.{◌≡◌, ◌≤◌, IfSome, length};

use lk_catalogue::Kind;

// Writes bytes from a place on. Answers where they end, if they fit.
fn put(text: &mut [u8], at: usize, bytes: &[u8]) -> Option<usize>
    ensures size { length text.new ≡ length text.old }
    ensures fits { IfSome result (λ end. end ≤ length text.old) }
{
    let end = at.checked_add(bytes.len())?;
    text.get_mut(at..end)?.copy_from_slice(bytes);
    Some(end)
}

// Writes a line feed and a line from a place on. Answers where they end, if they fit.
fn put_line(text: &mut [u8], at: usize, line: &str) -> Option<usize>
    ensures size { length text.new ≡ length text.old }
    ensures fits { IfSome result (λ end. end ≤ length text.old) }
{
    let end = put(text, at, b"\n")?;
    put(text, end, line.as_bytes())
}

/// Writes the name of a kind, and after it its sentence and the lines of its sketch, each after a
/// line feed. Answers where they end, if they fit.
pub fn put_kind(text: &mut [u8], kind: Kind) -> Option<usize>
    ensures size { length text.new ≡ length text.old }
    ensures fits { IfSome result (λ end. end ≤ length text.old) }
{
    let end = put(text, 0, kind.name.as_bytes())?;
    let mut end = put_line(text, end, kind.says)?;
    for line in kind.sketch {
        end = put_line(text, end, line)?;
    }
    Some(end)
}
