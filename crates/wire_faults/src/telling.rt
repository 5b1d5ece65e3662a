//! What is reported of a fault beside its code: what was seen, what it usually is, and what to do.

use crate::faults::WireFault;
use rom_steps::TRIES;
use site_wire::{LeftAs, OpenWord, StopReason};
use slave_match::Reason;
use station_files::Fault;
use station_listing::Code;
use std::io::{self, Write};
use wire_frames::{LineFault, Sighting, SlaveFault, SlaveTrouble};

/// Prints this text and the end of a line.
macro_rules! told {
    ($faults:ident: $text:literal) => {
        writeln!($faults, $text)
    };
}

/// Tells what to do about what is the matter with a slave.
fn tell_remedy<E: Write>(cause: SlaveTrouble, faults: &mut E) -> io::Result<()> {
    match cause {
        SlaveTrouble::Silence =>
            told!(faults: "; the cable of the interface, or a slave's power, failed: put it right, and recover the line"),
        SlaveTrouble::Shared =>
            told!(faults: "; another master is on the line, or slaves keep their addresses: end it, switch the slaves off and on, and recover the line"),
        SlaveTrouble::CableOrPower =>
            told!(faults: "; a cable is pulled, or a slave has no power: put it right, and recover the line"),
        SlaveTrouble::Restarted =>
            told!(faults: "; it lost its power for a moment: look at its supply, and recover the line"),
        SlaveTrouble::StuckBusy =>
            told!(faults: "; its EEPROM or its processor hangs: switch it off and on, and recover the line"),
        SlaveTrouble::NoAcknowledge =>
            told!(faults: "; its EEPROM is missing, is worked on by its own processor, or still writes: look at its board, and recover the line"),
        SlaveTrouble::Ignores =>
            told!(faults: "; it may be held by its own processor or by another master: end it, and recover the line"),
    }
}

/// Tells what was seen of a slave, with the word that was in flight to it, if there was one, which others with its station address may have taken.
fn tell_seen<E: Write>(
    slave: u16,
    seen: Sighting,
    word: Option<OpenWord>,
    faults: &mut E,
) -> io::Result<()> {
    let way = match seen.command {
        1 | 4 | 7 => "read",
        _ => "written",
    };
    let (register, cause) = (seen.register, seen.cause());
    let what = cause.text();
    write!(
        faults,
        "slave {slave}: {what}; register 0x{register:04x} was {way}, "
    )?;
    match seen.counter {
        Some(counter) => write!(faults, "and counter {counter} came back")?,
        None => write!(faults, "and nothing came back")?,
    }
    if let Some(status) = seen.status {
        write!(
            faults,
            "; control and status was last 0x{status:02x} in 0x0503"
        )?;
    }
    if let Some(station) = seen.station {
        write!(faults, "; station address 0x{station:04x} at its place")?;
    }
    match seen.answering {
        None => write!(faults, "; no broadcast comes back")?,
        Some(0) => write!(faults, "; no slave answers a broadcast")?,
        Some(1) => write!(faults, "; slave 0 alone answers a broadcast")?,
        Some(count) => {
            let last = count.saturating_sub(1);
            write!(
                faults,
                "; {count} slaves answer a broadcast, 0 to {last} if they are the first ones"
            )?;
        }
    }
    if let (SlaveTrouble::Shared, Some(OpenWord { write, .. })) = (cause, word) {
        let (at, value) = (write.word, write.value);
        write!(
            faults,
            "; a slave that was plugged in may have taken its word 0x{at:04x}, 0x{value:04x}: scan finds which"
        )?;
    }
    tell_remedy(cause, faults)
}

/// Tells with which word a slave was given up.
fn tell_word<E: Write>(slave: u16, word: OpenWord, faults: &mut E) -> io::Result<()> {
    let OpenWord { write, left } = word;
    let (at, value) = (write.word, write.value);
    match left {
        LeftAs::Kept(has) =>
            told!(faults: "slave {slave}: word 0x{at:04x} keeps 0x{has:04x} and doesn't take 0x{value:04x}, though it is idle and acknowledges: its EEPROM is write protected: end that, and recover the line, or give the slave up: pending --give-up {slave}"),
        LeftAs::InFlight =>
            told!(faults: "slave {slave}: word 0x{at:04x} wasn't seen as 0x{value:04x}: switch it off and on, and recover the line"),
    }
}

/// Tells that the PDI of a slave has the EEPROM.
fn tell_held<E: Write>(slave: usize, faults: &mut E) -> io::Result<()> {
    told!(faults: "slave {slave}: its PDI has the EEPROM (0x0500, 0x0501): bring it to Init, or say --force")
}

/// Tells what a code means, and what to do.
fn tell_code<E: Write>(code: Code, faults: &mut E) -> io::Result<()> {
    writeln!(faults, "{}", code.entry().explanation)
}

/// Tells why a line can't be brought up.
fn tell_line<E: Write>(fault: LineFault, faults: &mut E) -> io::Result<()> {
    match fault {
        LineFault::Slave { slave, why } => match why {
            SlaveFault::Dead(seen) => tell_seen(slave, seen, None, faults),
            SlaveFault::Smaller { given, found } =>
                told!(faults: "slave {slave}: its image file has {given} words, and its EEPROM {found}: make the backup anew, or say --trust-images"),
            SlaveFault::Held => tell_held(usize::from(slave), faults),
        },
        LineFault::Unaddressed { slave } =>
            told!(faults: "slave {slave} has the station address 0: the master gives it one before it starts the station"),
        LineFault::SharedAddress {
            slave,
            other,
            station,
        } =>
            told!(faults: "slaves {other} and {slave} have the station address 0x{station:04x}: the master gives each one of its own before it starts the station"),
        LineFault::Silent =>
            told!(faults: "a frame was sent {TRIES} times, and none came back: look at the interface, the cable and the slaves' power"),
        LineFault::NoSlaves =>
            told!(faults: "a broadcast came back with counter 0: what the interface is connected to is no EtherCAT slave"),
        LineFault::TooManySlaves { slaves } =>
            told!(faults: "a broadcast came back with counter {slaves}: work on 64 slaves at a time"),
        LineFault::Memory => tell_code(Code::Memory, faults),
    }
}

/// Tells why a site has stopped.
fn tell_stop<E: Write>(
    code: Code,
    reason: StopReason,
    seen: Option<Sighting>,
    word: Option<OpenWord>,
    faults: &mut E,
) -> io::Result<()> {
    match (reason, seen) {
        (StopReason::Differs { slave, .. }, Some(seen))
        | (StopReason::WordFailed { slave }, Some(seen)) => {
            tell_seen(u16::try_from(slave).unwrap_or(u16::MAX), seen, word, faults)
        }
        (StopReason::Journal, _) => tell_code(code, faults),
        _ => writeln!(
            faults,
            "{reason}: recover the line; see sii_wire explain {}",
            code.number()
        ),
    }
}

/// Tells what it usually is that a slave has other words than its image file, and what to do.
fn tell_reason<E: Write>(slave: usize, reason: Reason, faults: &mut E) -> io::Result<()> {
    write!(faults, "slave {slave} ")?;
    match reason {
        Reason::Elsewhere(place) =>
            told!(faults: "has the identity of slave {place} of the line: cables are plugged elsewhere: plug them as they were; else say --found {slave} or --file {slave}"),
        Reason::SameType =>
            told!(faults: "was exchanged for one of the same vendor and product: say --exchanged {slave} to give it what its place had, or --found {slave} to take what it has"),
        Reason::OtherType =>
            told!(faults: "was exchanged for one of another type: put back the one that it was, or say --found {slave} to take what it has"),
        Reason::Torn =>
            told!(faults: "has them in the page of a word that a power cut met: say --file {slave} to write what its image file has"),
        Reason::Changed =>
            told!(faults: "was changed by another tool, or its image file was edited: say --found {slave} to take what it has, or --file {slave} to write what its image file has"),
    }
}

impl WireFault {
    /// Prints what there is to tell of the fault beside its code, on a line of its own; what `explain` says where there is nothing more.
    pub fn tell<E: Write>(self, faults: &mut E) -> io::Result<()> {
        match self {
            WireFault::Line(fault) => tell_line(fault, faults),
            WireFault::Stopped { reason, seen, word } => tell_stop(
                self.code(),
                reason,
                seen,
                word,
                faults,
            ),
            WireFault::Unwritten { slave, word } => tell_word(slave, word, faults),
            WireFault::NothingPending { slave } =>
                told!(faults: "slave {slave} has all words that it is to have: pending lists what each slave is to get"),
            WireFault::OtherCount { slaves } =>
                told!(faults: "the line has {slaves} slaves, and the line file names another number of them"),
            WireFault::UnknownSize { slave, says } =>
                told!(faults: "slave {slave}: word 0x3e says {says} words, and all words that were compared are alike: say its size by --words {slave}=N"),
            WireFault::Running { slave } =>
                told!(faults: "slave {slave} is in Safe-Operational or Operational (0x0130): bring it to Init, or say --force"),
            WireFault::Held { slave } => tell_held(slave, faults),
            WireFault::OtherSize {
                command,
                slave,
                words,
            } =>
                told!(faults: "command {command} makes word 0x3e of slave {slave} say {words} words, and its EEPROM has others: correct it, or say --resize"),
            WireFault::NotOne { found: 0, slaves } =>
                told!(faults: "none of the {slaves} slaves of the line is like this: scan lists them"),
            WireFault::NotOne { found, slaves } =>
                told!(faults: "{found} of the {slaves} slaves of the line are like this: name one by its place, which scan lists"),
            WireFault::OtherDevice { slave, why } =>
                told!(faults: "slave {slave} has {why}: name the right slave or image, or say --any-device"),
            WireFault::OtherWords { slave, reason, .. } => tell_reason(slave, reason, faults),
            WireFault::Station(Fault::SlaveDead { slave }) =>
                told!(faults: "slave {slave}: it stays busy, or its EEPROM doesn't acknowledge, or keeps another value: switch it off and on, and recover the line, or give it up: pending --give-up {slave}"),
            WireFault::Station(fault) => tell_code(fault.code(), faults),
        }
    }
}
