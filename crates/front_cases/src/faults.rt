//! Faults as they are printed.

use crate::trial::Tally;
use station_files::{Fault, report_fault};
use station_serve::refuse_words;
use std::alloc::Global;
use std::io;
use std::io::Print;

/// Each fault, the line that is printed of it, and the exit status.
const FAULTS: &[(Fault, &str, u8)] = &[
    (Fault::OddLength, "fault 1 OddLength\n", 3),
    (Fault::BadSize, "fault 2 BadSize\n", 3),
    (Fault::ImageOverLimit, "fault 19 ImageOverLimit\n", 3),
    (Fault::Memory, "fault 20 Memory\n", 5),
    (Fault::Disk, "fault 40 Disk\n", 4),
    (Fault::Lost, "fault 41 Lost\n", 4),
    (Fault::Stopped, "fault 42 Stopped\n", 4),
    (Fault::SlaveDead { slave: 3 }, "fault 43 SlaveDead 3\n", 4),
    (Fault::NotAJournal, "fault 50 NotAJournal\n", 3),
    (Fault::BadVersion { found: 9 }, "fault 51 BadVersion 9\n", 3),
    (Fault::BadJournal { at: 8 }, "fault 52 BadJournal 8\n", 3),
    (Fault::WrongLine, "fault 53 WrongLine\n", 3),
    (Fault::Unserved, "fault 81 Unserved\n", 4),
    (Fault::File, "fault 90 File\n", 3),
    (Fault::BadHex, "fault 91 BadHex\n", 3),
    (Fault::BadLine, "fault 92 BadLine\n", 3),
    (Fault::BadScript { command: 1 }, "fault 93 BadScript 1\n", 3),
    (Fault::Exists, "fault 94 Exists\n", 3),
    (Fault::Busy, "fault 95 Busy\n", 3),
    (Fault::NotAFile, "fault 97 NotAFile\n", 3),
    (Fault::TooLong, "fault 98 TooLong\n", 3),
    (Fault::OtherDevice, "fault 114 OtherDevice\n", 3),
];

/// Why arguments can't be read, and what is printed of that, and the exit status.
const REFUSALS: &[(io::ErrorKind, &str, u8)] = &[
    (
        io::ErrorKind::InvalidData,
        "error: an argument is not UTF-8\n",
        2,
    ),
    (io::ErrorKind::OutOfMemory, "fault 20 Memory\n", 5),
];

/// Counts a try, and prints how it went.
fn note(rt: &impl Print, is_right: bool, text: &str, tally: &mut Tally) -> io::Result<()> {
    tally.runs = tally.runs.saturating_add(1);
    if is_right {
        return print!(rt; "ok {text}");
    }
    tally.wrong = tally.wrong.saturating_add(1);
    print!(rt; "WRONG {text}")
}

/// Tries what is printed of each fault.
pub(crate) fn try_faults(rt: &impl Print, alloc: Global, tally: &mut Tally) -> io::Result<()> {
    for (fault, text, status) in FAULTS {
        let mut faults = Vec::new(alloc);
        let ended = report_fault(*fault, &mut faults) as u8;
        let is_right = ended == *status && faults.as_slice() == text.as_bytes();
        note(rt, is_right, text, tally)?;
    }
    Ok(())
}

/// Tries what is printed of arguments that can't be read.
pub(crate) fn try_refusals(rt: &impl Print, alloc: Global, tally: &mut Tally) -> io::Result<()> {
    for (kind, text, status) in REFUSALS {
        let mut faults = Vec::new(alloc);
        let ended = refuse_words(&io::Error::from(*kind), &mut faults);
        let is_right = ended == *status && faults.as_slice() == text.as_bytes();
        note(rt, is_right, text, tally)?;
    }
    Ok(())
}
