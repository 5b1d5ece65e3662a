//! Why a subcommand on a wire failed, as it is printed, and the exit status.
ghost use Rattle.std.specs.Prelude.{◌≡◌, None};
ghost use Rattle.wire_faults.specs.Faults.{IsOfStream};
ghost use Rattle.wire_faults.specs.declared.faults.WireFault.TheVariants as wire;

use site_wire::{LineSeen, OpenWord, StopReason};
use slave_match::{Difference, Reason};
use station_files::{DeviceDiffers, ExitStatus, Fault};
use station_listing::Code;
use std::alloc::{AllocError, AllocFailed};
use std::{fmt, io};
use wire_frames::{LineFault, Sighting, SlaveFault};

/// Why a subcommand on a wire failed.
#[derive(Clone, Copy)]
pub enum WireFault {
    /// The line can't be brought up.
    Line(LineFault),
    /// The line file names another number of slaves than the line has; `slaves` is that of the line.
    OtherCount {
        slaves: usize,
    },
    /// The site on the wire has stopped. What was seen of a slave, if anything was, and the word that was in flight to it.
    Stopped {
        reason: StopReason,
        seen: Option<Sighting>,
        word: Option<OpenWord>,
    },
    /// This slave has been given up with this word, which isn't as it was to be.
    Unwritten {
        slave: u16,
        word: OpenWord,
    },
    /// The size of this slave's EEPROM can't be found; so many words are there by its word 0x3E.
    UnknownSize {
        slave: usize,
        says: u32,
    },
    /// This slave is in Safe-Operational or Operational.
    Running {
        slave: usize,
    },
    /// The PDI of this slave has the EEPROM, or is offered it.
    Held {
        slave: usize,
    },
    /// The command at this place of the script makes word 0x3E of this slave tell so many words, and it has others.
    OtherSize {
        command: usize,
        slave: usize,
        words: u32,
    },
    /// So many of the slaves of the line are as one is asked for, and it has to be one.
    NotOne {
        found: usize,
        slaves: usize,
    },
    /// An image is that of another device than this slave, or has fewer words.
    OtherDevice {
        slave: usize,
        why: DeviceDiffers,
    },
    /// This slave has other words than its image file, outside of those that a recovery writes; what that usually is.
    OtherWords {
        slave: usize,
        difference: Difference,
        reason: Reason,
    },
    /// This slave is to be given up, and has all words that it is to have.
    NothingPending {
        slave: usize,
    },
    /// A file, a stream or memory failed, or a file has a wrong form.
    Station(Fault),
}

/// The code with which it is printed that a line can't be brought up, and the number after it.
fn printed_line(fault: LineFault) -> (Code, Option<usize>) {
    let (code, slave) = match fault {
        LineFault::Memory => return (Code::Memory, None),
        LineFault::Silent => return (Code::Silent, None),
        LineFault::NoSlaves => return (Code::NoSlaves, None),
        LineFault::TooManySlaves { slaves } => (Code::TooManySlaves, slaves),
        LineFault::Unaddressed { slave } | LineFault::SharedAddress { slave, .. } => {
            (Code::StationAddress, slave)
        }
        LineFault::Slave { slave, why } => match why {
            SlaveFault::Dead(_) => (Code::SlaveDead, slave),
            SlaveFault::Held => (Code::Held, slave),
            SlaveFault::Smaller { .. } => (Code::SmallerChip, slave),
        },
    };
    (code, Some(usize::from(slave)))
}

/// The same of a site that has stopped.
fn printed_stop(reason: StopReason) -> (Code, Option<usize>) {
    match reason {
        StopReason::Journal => (Code::Disk, None),
        StopReason::Silent => (Code::Silent, None),
        StopReason::Differs { slave, .. } => (Code::Differs, Some(slave)),
        StopReason::WordFailed { slave } => (Code::WordFailed, Some(slave)),
        StopReason::NotOneDatagram { slave } => (Code::NotForWire, Some(slave)),
    }
}

/// Why work on a wire ended early: the fault of a file or stream, or want of memory; or else the reason for which its site has stopped, if
/// it has; or else the fault, with the word of a slave that was given up. `seen` is what was seen of the slaves.
pub fn why_ended(reason: Option<StopReason>, seen: LineSeen, fault: WireFault) -> WireFault
    ensures { IsOfStream fault → IsOfStream result }
{
    match (fault, reason) {
        (WireFault::Station(Fault::File), _) => fault,
        (WireFault::Station(Fault::Memory), _) => fault,
        (_, Some(reason)) => WireFault::Stopped {
            reason,
            seen: seen.stopped,
            word: reason.slave().and_then(|slave| word_of(&seen, slave)),
        },
        (_, None) => with_word(fault, &seen),
    }
}

/// The fault, with the word of the slave that was given up, if one was.
fn with_word(fault: WireFault, seen: &LineSeen) -> WireFault
    ensures { IsOfStream fault → IsOfStream result }
{
    let Some(slave) = given_up(fault) else {
        return fault;
    };
    match word_of(seen, usize::from(slave)) {
        Some(word) => WireFault::Unwritten { slave, word },
        None => fault,
    }
}

/// The slave that was given up, if that is the fault.
fn given_up(fault: WireFault) -> Option<u16>
    ensures { IsOfStream fault → result ≡ None }
{
    match fault {
        WireFault::Station(Fault::SlaveDead { slave }) => Some(slave),
        _ => None,
    }
}

/// The last word of a slave that wasn't seen as written, if there was one.
fn word_of(seen: &LineSeen, slave: usize) -> Option<OpenWord> {
    *seen.words.get(slave)?
}

impl WireFault {
    /// The code that the fault is printed with, and the number after it; of one of the station the code alone.
    fn printed(self) -> (Code, Option<usize>) {
        let (code, number) = match self {
            WireFault::Station(fault) => return (fault.code(), None),
            WireFault::Line(fault) => return printed_line(fault),
            WireFault::Stopped { reason, .. } => return printed_stop(reason),
            WireFault::NotOne { .. } => return (Code::NoSlave, None),
            WireFault::Unwritten { slave, .. } => (Code::SlaveDead, usize::from(slave)),
            WireFault::OtherCount { slaves } => (Code::OtherCount, slaves),
            WireFault::UnknownSize { slave, .. } => (Code::UnknownSize, slave),
            WireFault::Running { slave } => (Code::Running, slave),
            WireFault::Held { slave } => (Code::Held, slave),
            WireFault::OtherSize { command, .. } => (Code::OtherSize, command),
            WireFault::OtherDevice { slave, .. } => (Code::OtherDevice, slave),
            WireFault::OtherWords { slave, .. } => (Code::OtherWords, slave),
            WireFault::NothingPending { slave } => (Code::NothingPending, slave),
        };
        (code, Some(number))
    }

    /// The code that the fault is printed with.
    pub fn code(self) -> Code {
        self.printed().0
    }

    /// The exit status for this fault: that of the station's fault, 1 where no slave, or several, are meant, 3 where a file is another line's or
    /// isn't for this line, 5 where memory was refused, and 4 for any other.
    pub fn status(self) -> ExitStatus {
        match (self, self.code()) {
            (WireFault::Station(fault), _) => fault.status(),
            (_, Code::NoSlave) => ExitStatus::Refused,
            (
                _,
                Code::OtherCount
                | Code::OtherSize
                | Code::SmallerChip
                | Code::OtherDevice
                | Code::OtherWords
                | Code::NothingPending,
            ) => ExitStatus::File,
            (_, Code::Memory) => ExitStatus::Memory,
            _ => ExitStatus::Device,
        }
    }
}

impl fmt::Display for WireFault {
    fn fmt<W: fmt::Write>(&self, f: &mut fmt::Formatter<W>) -> fmt::Result {
        let (code, number) = self.printed();
        match self {
            WireFault::Station(fault) => return fault.fmt(f),
            WireFault::NotOne { .. } => return write!(f, "refused {code}"),
            _ => write!(f, "fault {code}")?,
        }
        if let Some(number) = number {
            write!(f, " {number}")?;
        }
        match self {
            WireFault::OtherWords { difference, .. } => write!(f, " ({difference})"),
            WireFault::Stopped {
                reason: StopReason::Differs { what, .. },
                ..
            } => write!(f, " ({what})"),
            _ => Ok(()),
        }
    }
}

impl From<Fault> for WireFault {
    ghost from_gives = { λ fault given. given ≡ wire.Station fault };

    fn from(fault: Fault) -> Self {
        WireFault::Station(fault)
    }
}

impl From<LineFault> for WireFault {
    ghost from_gives = { λ fault given. given ≡ wire.Line fault };

    fn from(fault: LineFault) -> Self {
        WireFault::Line(fault)
    }
}

impl From<io::Error> for WireFault {
    ghost use Rattle.wire_faults.specs.Faults.{IsOfStream};

    ghost from_gives = { λ _ fault. IsOfStream fault };

    fn from(error: io::Error) -> Self {
        WireFault::Station(Fault::from(error))
    }
}

impl From<AllocError> for WireFault {
    ghost use Rattle.wire_faults.specs.Faults.{IsOfStream};

    ghost from_gives = { λ _ fault. IsOfStream fault };

    fn from(error: AllocError) -> Self {
        WireFault::Station(Fault::from(error))
    }
}

impl<T: Drop> From<AllocFailed<T>> for WireFault {
    ghost use Rattle.wire_faults.specs.Faults.{IsOfStream};

    ghost from_gives = { λ _ fault. IsOfStream fault };

    fn from(_: AllocFailed<T>) -> Self {
        WireFault::Station(Fault::Memory)
    }
}
