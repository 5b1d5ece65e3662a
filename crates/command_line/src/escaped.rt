//! Texts that may hold what a user has typed, as they are printed.

use std::fmt;

/// A text that may hold what a user has typed, as it is printed: what controls a terminal is escaped.
#[derive(Clone, Copy)]
pub struct Escaped<'a> {
    pub text: &'a str,
    /// Whether it has lines, whose ends stay.
    pub has_lines: bool,
}

impl fmt::Display for Escaped<'_> {
    fn fmt<W: fmt::Write>(&self, f: &mut fmt::Formatter<W>) -> fmt::Result {
        for letter in self.text.chars() {
            if letter.is_control() && !(self.has_lines && letter == '\n') {
                write!(f, "{}", letter.escape_default())?;
            } else {
                write!(f, "{letter}")?;
            }
        }
        Ok(())
    }
}
