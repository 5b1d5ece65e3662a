//! Finds the place of a key in a text. The text is TOML, its strings and comments blanked.

use std::alloc::{AllocError, Global};

/// A part of a text, in bytes: from an offset on, to before another.
#[derive(Clone, Copy)]
pub(crate) struct Part<'t> {
    text: &'t str,
    /// Where it begins; `None` for the whole text.
    pub from: Option<usize>,
    to: usize,
}

/// What a byte leaves open: the byte that began a string or a comment, `\` where the next byte of a string is escaped, or 0 in code.
fn left_open(open: u8, byte: u8) -> u8 {
    match (open, byte) {
        (0, b'#' | b'"' | b'\'') | (b'"', b'\\') => byte,
        (b'\\', _) => b'"',
        (b'"', b'"') | (b'\'', b'\'') | (_, b'\n') => 0,
        _ => open,
    }
}

/// The text with a blank for each byte of a string or a comment. A string of several lines is taken for code from its second line on.
pub(crate) fn blanked(alloc: Global, text: &str) -> Result<String, AllocError> {
    let mut open = 0;
    let mut blanked = String::with_capacity(alloc, text.len())?;
    for byte in text.bytes() {
        open = left_open(open, byte);
        let is_kept = byte.is_ascii() && (open == 0 || byte == b'\n');
        blanked.push(if is_kept { char::from(byte) } else { ' ' })?;
    }
    Ok(blanked)
}

/// The number of the line, from 1, that has the byte at this offset.
pub fn line_at(text: &[u8], at: usize) -> usize {
    let before = text.iter().take(at).filter(|byte| **byte == b'\n');
    before.count().saturating_add(1)
}

impl<'t> Part<'t> {
    /// The whole of a text.
    pub(crate) fn entire(text: &'t str) -> Part<'t> {
        Part {
            text,
            from: None,
            to: text.len(),
        }
    }

    fn start(self) -> usize {
        self.from.unwrap_or(0)
    }

    /// The part from the key on; the same part where the key isn't found.
    pub(crate) fn from_key(self, key: &str) -> Part<'t> {
        let found = (self.start()..self.to).find(|at| stands_at(self.text, *at, key));
        Part {
            from: found.or(self.from),
            ..self
        }
    }

    /// The part of the entry `index`, from 0, of the array at a key: a table below a header `[[key]]`, or a value between brackets.
    pub(crate) fn entry(self, key: &str, index: usize) -> Part<'t> {
        let after = index.saturating_add(1);
        let array = self.from_key(key);
        let (from, next) = match self.header_at(key, index) {
            None => (array.value_at(index), array.value_at(after)),
            header => (header, self.header_at(key, after)),
        };
        match from {
            Some(_) => Part {
                from,
                to: next.unwrap_or(self.to),
                ..self
            },
            None => array,
        }
    }

    /// Where the header `[[key]]`, or `[[other.key]]`, stands for the time `index`, from 0.
    fn header_at(self, key: &str, index: usize) -> Option<usize> {
        let mut headers = (self.start()..self.to).filter(|at| header_key(self.text, *at)
            == Some(key));
        headers.nth(index)
    }

    /// Where value `index`, from 0, of the first array in the part begins.
    fn value_at(self, index: usize) -> Option<usize> {
        let mut depth = 0usize;
        let mut commas = 0usize;
        for at in self.start()..self.to {
            let byte = *self.text.as_bytes().get(at)?;
            depth = match byte {
                b'[' | b'{' => depth.saturating_add(1),
                b']' | b'}' if depth <= 1 => return None,
                b']' | b'}' => depth.saturating_sub(1),
                _ => depth,
            };
            commas = commas.saturating_add(usize::from(byte == b',' && depth == 1));
            if depth == 1 && commas == index && matches!(byte, b'[' | b'{' | b',') {
                let after = self.text.get(at.saturating_add(1)..)?;
                return Some(self.text.len().saturating_sub(after.trim_start().len()));
            }
        }
        None
    }
}

/// Whether a key stands at an offset: its name, with no other letter of a name before it, and `=`, `.` or `]` after it.
fn stands_at(text: &str, at: usize, key: &str) -> bool {
    let (Some(before), Some(rest)) = (text.get(..at), text.get(at..)) else {
        return false;
    };
    let is_begin = !before.ends_with(|c: char| c.is_ascii_alphanumeric() || c == '_' || c == '-');
    is_begin
        && rest.strip_prefix(key).is_some_and(|after| {
            after
                .trim_start_matches([' ', '\t'])
                .starts_with(['=', '.', ']'])
        })
}

/// The key of the header at an offset: `[[`, and before the next `]` the key, as the last name of a dotted one.
fn header_key(text: &str, at: usize) -> Option<&str> {
    let (names, _) = text.get(at..)?.strip_prefix("[[")?.split_once(']')?;
    let name = names.rsplit('.').next()?.trim_start_matches(' ');
    Some(name.split_once(' ').map_or(name, |(name, _)| name))
}
