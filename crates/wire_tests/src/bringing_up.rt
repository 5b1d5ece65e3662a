//! What is found as a line on a wire is brought up.

use crate::bench::{Bench, Slave, Trouble, plan, wire_of};
use std::alloc::Global;
use wire_bringup::{FoundLine, FoundSlave, Sizes, bring_up};
use wire_frames::{LineFault, NumberedWire, SlaveFault, SlaveTrouble, Wire};
use wire_practice::{Cable, Mishap};
use wire_words::{Extent, SizeFound};

/// A line that is brought up, where frames have this mishap.
#[derive(Clone, Copy)]
pub(crate) struct Line<'a> {
    pub slaves: &'a [Slave],
    pub cable: Option<Cable>,
    pub mishap: Mishap,
}

/// What is found of a slave.
#[derive(Clone, Copy)]
pub(crate) enum Finding {
    /// Its words are read, whatever they are.
    Open,
    /// Its words are read: their numbers.
    Read,
    /// It can't be worked on.
    Dead(SlaveTrouble),
    /// So many words are worked on, so many are there by word 0x3E, the extent, and whether the chip is larger.
    Size(u16, u32, Extent, bool),
    /// It is refused, since it has fewer words than were given: those, and how many it has.
    Smaller(u16, u16),
    /// The PDI keeps the EEPROM.
    Held,
}

/// What is found of each slave, or why the line isn't brought up.
pub(crate) type Findings = Result<&'static [Finding], LineFault>;

/// How a line was brought up.
#[derive(Clone, Copy)]
pub(crate) struct Course {
    /// Whether this was found.
    pub is_so: bool,
    /// How many frames were sent, and after how many microseconds.
    pub frames: u64,
    pub time: u64,
}

// The words of a slave of 64 words: their numbers, but for the size.
const NUMBERS: &[u16] = &[
    0, 1, 2, 3, 4, 5, 6, 7, 8, 9, 10, 11, 12, 13, 14, 15, 16, 17, 18, 19, 20, 21, 22, 23, 24, 25,
    26, 27, 28, 29, 30, 31, 32, 33, 34, 35, 36, 37, 38, 39, 40, 41, 42, 43, 44, 45, 46, 47, 48, 49,
    50, 51, 52, 53, 54, 55, 56, 57, 58, 59, 60, 61, 0, 63,
];

// Whether this is found of a slave that can't be worked on.
fn is_fault(fault: &SlaveFault, finding: Finding) -> bool {
    match finding {
        Finding::Dead(cause) => match fault {
            SlaveFault::Dead(sighting) => sighting.cause() == cause,
            _ => false,
        },
        Finding::Smaller(given, found) => *fault == SlaveFault::Smaller { given, found },
        Finding::Held => *fault == SlaveFault::Held,
        _ => false,
    }
}

// Whether this is found of a slave.
fn is_so(found: &FoundSlave, finding: Finding) -> bool {
    match &found.words {
        Err(fault) => is_fault(fault, finding),
        Ok(held) => match finding {
            Finding::Open => true,
            Finding::Read => held.as_slice() == NUMBERS,
            Finding::Size(words, says, extent, is_larger) => {
                let size = SizeFound {
                    words,
                    says,
                    extent,
                    is_larger,
                };
                found.size == Some(size) && held.len() == usize::from(words)
            }
            _ => false,
        },
    }
}

// Whether the line has as many slaves as there are findings, and each is as its own says.
fn are_so(line: &FoundLine, findings: &[Finding]) -> bool {
    for place in 0..findings.len() {
        match line.slaves.get(place) {
            Some(found) if is_so(found, findings[place]) => {}
            _ => return false,
        }
    }
    line.slaves.len() == findings.len()
}

/// Whether this is found as the line on this wire is brought up, of whose sizes so much is known.
pub(crate) fn finds<W: Wire>(
    alloc: Global,
    bench: &Bench,
    wire: &mut NumberedWire<W>,
    sizes: &Sizes,
    findings: &Findings,
) -> bool {
    match bring_up(alloc, wire, &bench.clock, sizes) {
        Ok(line) => match findings {
            Ok(findings) => are_so(&line, *findings),
            Err(_) => false,
        },
        Err(fault) => match findings {
            Ok(_) => false,
            Err(wanted) => fault == *wanted,
        },
    }
}

/// How a line is brought up of whose sizes this is known, and whether this is found. None: memory was refused.
pub(crate) fn course_of(
    alloc: Global,
    line: &Line<'_>,
    sizes: &Sizes,
    findings: &Findings,
) -> Option<Course> {
    let trouble = Trouble {
        mishap: line.mishap,
        cut: None,
    };
    let bench = Bench::new();
    let mut wire = wire_of(alloc, &bench, line.slaves, line.cable)?;
    plan(&mut wire, &trouble);
    let is_so = finds(alloc, &bench, &mut wire, sizes, findings);
    Some(Course {
        is_so,
        frames: wire.sent(),
        time: bench.clock.now(),
    })
}
