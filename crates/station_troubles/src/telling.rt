//! The line that follows the line of a fault.

use crate::noting::Noting;
use station_files::Store;
use station_listing::Code;
use std::io::Write;
use thiserror::Error;

/// What is reported of a fault `File` after calls that all succeeded.
pub const OUTPUT: &str = "standard output can't be written";

/// The same where standard input is read too.
pub const INPUT_OR_OUTPUT: &str =
    "standard input can't be read, or standard output can't be written";

/// The same where a capture is written too.
pub const CAPTURE_OR_OUTPUT: &str = "the capture or standard output can't be written";

/// What is reported of a fault or a refusal: where it comes from, and what is wrong there.
#[derive(Clone, Copy, Debug, Error)]
pub enum Reported<'a> {
    #[error("{0}")]
    Wrong(&'a str),
    /// A planned power cut has left a file as it was, since it couldn't be written.
    #[error("not saved: {0}")]
    Unsaved(&'a str),
}

impl<S: Store> Noting<'_, S> {
    /// What is reported of a fault or a refusal of this code; `streams` of the fault `File` where no call has failed. `None` where nothing was
    /// noted beside it, or memory was refused for a note.
    pub fn reported<'a>(&'a self, code: Code, streams: &'a str) -> Option<Reported<'a>> {
        if !self.notes.is_kept {
            return None;
        }
        match (code, &self.notes.last) {
            (Code::Stopped, Some(note)) if note.is_of_call() => {
                Some(Reported::Unsaved(note.text.as_str()))
            }
            (_, Some(note)) if note.code.number() == code.number() => {
                Some(Reported::Wrong(note.text.as_str()))
            }
            (Code::File, _) => Some(Reported::Wrong(streams)),
            _ => None,
        }
    }
}

/// Writes one line on a fault or a refusal of this code: what is reported of it, and how `program` explains the code; or else what the code means
/// and what to do. An error of `faults` is ignored.
pub fn tell_more<E: Write>(
    program: &str,
    code: Code,
    reported: Option<Reported<'_>>,
    faults: &mut E,
) {
    let _ = match reported {
        Some(reported) => writeln!(
            faults,
            "{reported}; see {program} explain {}",
            code.number()
        ),
        None => writeln!(faults, "{}", code.entry().explanation),
    };
}
