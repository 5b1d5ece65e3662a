//! The lines that a plan has for words that change.

use std::alloc::{AllocError, Global};
use std::fmt;

/// The values of this many words from an address on, each after a space.
#[derive(Clone, Copy)]
struct Values<'a> {
    bytes: &'a [u8],
    at: usize,
    count: usize,
}

/// The word at this address; `None` after the end.
pub(crate) fn word_at(bytes: &[u8], at: usize) -> Option<u16> {
    let low = *bytes.get(at.saturating_mul(2))?;
    let high = *bytes.get(at.saturating_mul(2).saturating_add(1))?;
    Some(u16::from_le_bytes([low, high]))
}

fn changes_at(old: &[u8], new: &[u8], at: usize) -> bool {
    word_at(old, at) != word_at(new, at)
}

/// How many words from this address on change in a row.
fn run_at(old: &[u8], new: &[u8], at: usize) -> usize {
    let mut count = 0usize;
    for place in at..old.len() {
        if !changes_at(old, new, place) {
            return count;
        }
        count = count.saturating_add(1);
    }
    count
}

impl fmt::Display for Values<'_> {
    fn fmt<W: fmt::Write>(&self, f: &mut fmt::Formatter<W>) -> fmt::Result {
        for place in self.at..self.at.saturating_add(self.count) {
            write!(f, " 0x{:04x}", word_at(self.bytes, place).unwrap_or(0))?;
        }
        Ok(())
    }
}

/// The line for a run of words that change.
fn reported_run(
    alloc: Global,
    slave: usize,
    old: &[u8],
    new: &[u8],
    at: usize,
) -> Result<String, AllocError> {
    let count = run_at(old, new, at);
    let last = at.saturating_add(count).saturating_sub(1);
    let before = Values {
        bytes: old,
        at,
        count,
    };
    let after = Values {
        bytes: new,
        ..before
    };
    match count {
        1 => format!(in alloc; "slave {slave} word 0x{at:04x} old{before} new{after}\n"),
        2..=8 => {
            format!(in alloc;
                "slave {slave} words 0x{at:04x} to 0x{last:04x} old{before} new{after}\n"
            )
        }
        _ => { format!(in alloc; "slave {slave} words 0x{at:04x} to 0x{last:04x} count {count}\n") }
    }
}

/// Writes the lines for the words of a slave that change.
///
/// # Errors
///
/// Memory was refused.
pub fn tell_changes(
    alloc: Global,
    slave: usize,
    old: &[u8],
    new: &[u8],
    text: &mut String,
) -> Result<(), AllocError> {
    for at in 0..old.len() / 2 {
        let is_first = at == 0 || !changes_at(old, new, at - 1);
        if is_first && changes_at(old, new, at) {
            let line = reported_run(alloc, slave, old, new, at)?;
            text.push_str(line.as_str())?;
        }
    }
    Ok(())
}
