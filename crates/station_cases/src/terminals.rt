//! What a terminal shows.

use std::alloc::{AllocError, Global};

/// What is left on a terminal of these bytes: what follows a carriage return stands in place of the line up to there, as a line that is drawn
/// erases what stands after it (ESC [ K).
///
/// # Errors
///
/// Memory was refused.
pub(crate) fn left_of(alloc: Global, bytes: &[u8]) -> Result<Vec<u8>, AllocError> {
    let mut left = Vec::new(alloc);
    let mut start = 0usize;
    let mut skipped = 0usize;
    for byte in bytes {
        match *byte {
            _ if skipped > 0 => skipped = skipped.saturating_sub(1),
            0x1b => skipped = 2,
            b'\r' => left.truncate(start),
            other => left.push(other)?,
        }
        if *byte == b'\n' {
            start = left.len();
        }
    }
    Ok(left)
}
