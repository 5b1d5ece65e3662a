//! Faults and refusals as the program prints them, and the exit status for each.
ghost use Rattle.std.specs.Prelude.{◌≡◌, ◌≢◌, ◌≤◌, ◌⊎◌};
ghost use Rattle.station_files.specs.Faults.{IsFaultless, IsOfStream, code_of, number_of, of_hex, of_line, of_process_image, of_words};
ghost use Rattle.station_files.specs.Faults.{status_of};

use sii_edit::{Cause, Refusal};
use sii_image::ImageFault;
use sii_words::WordsFault;
use station_listing::{Code, namesake};
use station_text::{HexFault, LineFault};
use std::alloc::{AllocError, AllocFailed};
use std::{fmt, io};

/// A fault that ends the program early. `Code` has the number and the name that it is printed with.
#[derive(Clone, Copy)]
pub enum Fault {
    /// An image has an odd number of bytes.
    OddLength,
    /// An image has a wrong number of words.
    BadSize,
    /// The line has no process image: more than 1,486 bytes in all, or more than 8 segments in one slave.
    ImageOverLimit,
    /// Memory was refused.
    Memory,
    /// A read, a write or a sync of the disk failed.
    Disk,
    /// A frame was lost.
    Lost,
    /// The site has stopped, as at a power cut.
    Stopped,
    /// The station gave up a slave; `slave` is its position on the line, from 0.
    SlaveDead { slave: u16 },
    /// The file is shorter than a journal's header, or its file gate isn't 0xA5.
    NotAJournal,
    /// The journal's version is unknown; `found` is its version byte.
    BadVersion { found: u8 },
    /// The journal is damaged; `at` is the first byte of its file that can't be read.
    BadJournal { at: usize },
    /// The journal belongs to another line.
    WrongLine,
    /// Work was left undone, and no other fault says why.
    Unserved,
    /// A file or a stream can't be read or written.
    File,
    /// The input is not hexadecimal text.
    BadHex,
    /// The text is not a line file.
    BadLine,
    /// The text is not a script; `command` is the place of the first bad command, from 0, and 0 where the text as a whole is bad.
    BadScript { command: usize },
    /// The journal's file exists already.
    Exists,
    /// Another station has locked the journal.
    Busy,
    /// Two names lead to the same file, one of which is to be written.
    SameFile,
    /// The name leads to a pipe, a device or a socket.
    NotAFile,
    /// The file is longer than any of its kind.
    TooLong,
    /// An image is that of another device than the one that it is to be written to, or has fewer words.
    OtherDevice,
}

/// A refused command, as it is printed.
#[derive(Clone, Copy)]
pub struct Refused {
    /// The cause.
    pub code: Code,
    /// The position of the refused edit in its group, from 0; `None` where the command as a whole is refused.
    pub position: Option<u8>,
}

/// Why a subcommand failed.
#[derive(Clone, Copy)]
pub enum Failure {
    /// A fault ended it.
    Fault(Fault),
    /// Its command was refused.
    Refused(Refusal),
}

/// The exit status of the program. The highest that applies wins.
#[derive(Clone, Copy, PartialEq, PartialOrd)]
pub enum ExitStatus {
    /// Everything was done.
    Done = 0,
    /// A command was refused, or two images differ.
    Refused = 1,
    /// The arguments are wrong.
    Usage = 2,
    /// A file can't be read or written, or its content is wrong.
    File = 3,
    /// A device failed, or the power was cut.
    Device = 4,
    /// Memory was refused.
    Memory = 5,
}

/// The higher of two statuses, which wins where both apply.
pub fn worse(one: ExitStatus, other: ExitStatus) -> ExitStatus
    ensures one { (result ≡ one) ⊎ (result ≡ other) }
    ensures highest { (number_of one ≤ number_of result) × (number_of other ≤ number_of result) }
    ensures done { result ≡ ExitStatus.Done → (one ≡ ExitStatus.Done) × (other ≡ ExitStatus.Done) }
    ensures faultless { IsFaultless result → IsFaultless one × IsFaultless other }
{
    match (one, other) {
        (ExitStatus::Done, _) => other,
        (_, ExitStatus::Done) => one,
        _ if one < other => other,
        _ => one,
    }
}

impl Fault {
    /// The code that the fault is printed with.
    pub fn code(self) -> Code {
        namesake!(self, Fault as Code: OddLength, BadSize, ImageOverLimit, Memory, Disk, Lost, Stopped, SlaveDead, NotAJournal, BadVersion,
            BadJournal, WrongLine, Unserved, File, BadHex, BadLine, BadScript, Exists, Busy, SameFile, NotAFile, TooLong, OtherDevice)
    }

    /// The exit status for this fault: `File`, `Device` or `Memory`.
    pub fn status(self) -> ExitStatus
        ensures exact { result ≡ status_of self }
        ensures done { result ≢ ExitStatus.Done }
        ensures fault { ¬ IsFaultless result }
    {
        match self {
            Fault::Memory => ExitStatus::Memory,
            Fault::Disk
            | Fault::Lost
            | Fault::Stopped
            | Fault::SlaveDead { .. }
            | Fault::Unserved => ExitStatus::Device,
            _ => ExitStatus::File,
        }
    }

    /// The number that is printed after the code, if there is one.
    fn detail(self) -> Option<usize> {
        match self {
            Fault::SlaveDead { slave } => Some(usize::from(slave)),
            Fault::BadVersion { found } => Some(usize::from(found)),
            Fault::BadJournal { at } => Some(at),
            Fault::BadScript { command } => Some(command),
            _ => None,
        }
    }
}

impl Refused {
    /// The exit status for this refusal: `Memory` where memory was refused, `Refused` otherwise.
    pub fn status(self) -> ExitStatus
        ensures { result ≢ ExitStatus.Done }
    {
        match self.code {
            Code::Memory => ExitStatus::Memory,
            _ => ExitStatus::Refused,
        }
    }
}

impl Failure {
    /// The code that the failure is printed with.
    pub fn code(self) -> Code {
        match self {
            Failure::Fault(fault) => fault.code(),
            Failure::Refused(refusal) => Refused::from(refusal).code,
        }
    }

    /// The exit status for this failure, which is never `Done`.
    pub fn status(self) -> ExitStatus
        ensures { result ≢ ExitStatus.Done }
    {
        match self {
            Failure::Fault(fault) => fault.status(),
            Failure::Refused(refusal) => Refused::from(refusal).status(),
        }
    }
}

impl fmt::Display for Fault {
    fn fmt<W: fmt::Write>(&self, f: &mut fmt::Formatter<W>) -> fmt::Result {
        let code = self.code();
        match self.detail() {
            Some(detail) => write!(f, "fault {code} {detail}"),
            None => write!(f, "fault {code}"),
        }
    }
}

impl fmt::Display for Refused {
    fn fmt<W: fmt::Write>(&self, f: &mut fmt::Formatter<W>) -> fmt::Result {
        let code = self.code;
        match self.position {
            Some(position) => write!(f, "refused {code} at {position}"),
            None => write!(f, "refused {code}"),
        }
    }
}

impl fmt::Display for Failure {
    fn fmt<W: fmt::Write>(&self, f: &mut fmt::Formatter<W>) -> fmt::Result {
        match self {
            Failure::Fault(fault) => write!(f, "{fault}"),
            Failure::Refused(refusal) => write!(f, "{}", Refused::from(*refusal)),
        }
    }
}

impl From<AllocError> for Fault {
    ghost use Rattle.station_files.specs.declared.faults.Fault.TheVariants.{Memory};

    ghost from_gives = { λ _ fault. fault ≡ Memory };

    fn from(_: AllocError) -> Self {
        Fault::Memory
    }
}

impl<T: Drop> From<AllocFailed<T>> for Fault {
    ghost use Rattle.station_files.specs.declared.faults.Fault.TheVariants.{Memory};

    ghost from_gives = { λ _ fault. fault ≡ Memory };

    fn from(_: AllocFailed<T>) -> Self {
        Fault::Memory
    }
}

impl From<io::Error> for Fault {
    ghost from_gives = { λ _ fault. IsOfStream fault };

    fn from(error: io::Error) -> Self {
        if error.kind() == io::ErrorKind::OutOfMemory {
            Fault::Memory
        } else {
            Fault::File
        }
    }
}

impl From<WordsFault> for Fault {
    ghost from_gives = { λ fault given. given ≡ of_words fault };

    fn from(fault: WordsFault) -> Self {
        namesake!(fault, WordsFault as Fault: Memory, OddLength, BadSize)
    }
}

impl From<ImageFault> for Fault {
    ghost from_gives = { λ fault given. given ≡ of_process_image fault };

    fn from(fault: ImageFault) -> Self {
        namesake!(fault, ImageFault as Fault: Memory, ImageOverLimit)
    }
}

impl From<HexFault> for Fault {
    ghost from_gives = { λ fault given. given ≡ of_hex fault };

    fn from(fault: HexFault) -> Self {
        namesake!(fault, HexFault as Fault: Memory, BadHex)
    }
}

impl From<LineFault> for Fault {
    ghost from_gives = { λ fault given. given ≡ of_line fault };

    fn from(fault: LineFault) -> Self {
        namesake!(fault, LineFault as Fault: Memory, BadLine)
    }
}

impl From<Refusal> for Refused {
    fn from(refusal: Refusal) -> Self {
        Refused {
            code: code_of(refusal.cause),
            position: refusal.position,
        }
    }
}

/// The code of the cause of a refusal.
fn code_of(cause: Cause) -> Code
    ensures { result ≡ code_of cause }
{
    namesake!(cause, Cause as Code: BadCategory, NoRoom, NoSlave, SameSlave, EmptyGroup, GroupTooLong, ImageTooLong, BadCheck, NoSuchCategory,
        SeveralCategories, BadChain, ImageOverLimit, Memory, WrongIdentity)
}

/// Work was left undone, and nothing says why.
impl Default for Failure {
    fn default() -> Self {
        Failure::Fault(Fault::Unserved)
    }
}

impl From<Fault> for Failure {
    ghost use Rattle.station_files.specs.declared.faults.Failure.TheVariants as failures;

    ghost from_gives = { λ fault failure. failure ≡ failures.Fault fault };

    fn from(fault: Fault) -> Self {
        Failure::Fault(fault)
    }
}
