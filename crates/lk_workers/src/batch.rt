//! Many reports as one text.

ghost use Rattle.std.specs.Prelude.{◌≡◌, map, IfOk};
ghost use Rattle.lk_workers.specs.Batch.{batch_text_of};

use itoa::Buffer;
use std::alloc::{AllocError, Global};

/// The reports in order, each after the line `file K`, K from 1.
///
/// # Errors
///
/// There was no memory for the text.
pub fn batch_text(alloc: Global, reports: &[Vec<u8>]) -> Result<Vec<u8>, AllocError>
    ensures { IfOk result (λ text. text.items ≡ batch_text_of (map (λ r. r.items) reports.now)) }
{
    let mut text = Vec::new(alloc);
    for place in 0..reports.len() {
        let mut digits = Buffer::new();
        text.extend_from_slice(b"file ")?;
        text.extend_from_slice(digits.format(place + 1).as_bytes())?;
        text.push(b'\n')?;
        text.extend_from_slice(reports[place].as_slice())?;
    }
    Ok(text)
}
