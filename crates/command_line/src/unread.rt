//! Tells why a command line asks for nothing that can be carried out.

use crate::escaped::Escaped;
use clap::Error;
use clap::error::ErrorKind;
use station_files::{ExitStatus, Fault, report_fault};
use std::alloc::Global;
use std::io::{self, Write};

/// Prints to the stream for faults what is wrong with the words, or the text of the help or the version, which was asked for; or that memory was
/// refused. Returns the exit status.
pub fn report_unread<E: Write>(alloc: Global, unread: &Error, faults: &mut E) -> ExitStatus {
    let text = match format!(in alloc; "{unread}") {
        Ok(text) if unread.kind() != ErrorKind::OutOfMemory => text,
        _ => return report_fault(Fault::Memory, faults),
    };
    let (text, has_lines) = (text.as_str(), true);
    if !unread.use_stderr() {
        let _ = faults.write_all(text.as_bytes());
        return ExitStatus::Done;
    }
    let _ = write!(faults, "{}", Escaped { text, has_lines });
    ExitStatus::Usage
}

/// Prints why the words can't be read, and returns the exit status: 5 where memory was refused, and 2 where one is not UTF-8.
pub fn refuse_words<E: Write>(error: &io::Error, faults: &mut E) -> u8 {
    if error.kind() == io::ErrorKind::OutOfMemory {
        return report_fault(Fault::Memory, faults) as u8;
    }
    let _ = writeln!(faults, "error: an argument is not UTF-8");
    ExitStatus::Usage as u8
}
