//! A slave of two that is given up while words of it are pending: what is printed, and that a call which failed or was cut can be made again.

use crate::backups::{LINE, LIVE, NAME, OTHER, content, image, line_of};
use station_cases::{Pattern, Shelf, Trouble};
use station_rows::Form;
use std::alloc::{AllocError, Global};
use std::rt::Clock;
use wire_faults::WireFault;
use wire_frames::NumberedWire;
use wire_practice::{PracticeClock, PracticeWire};
use wire_scan::{Mend, PendingOrder, ScanOptions, Tells, list_pending};

/// The alias that slave 0 has, and that of its image file. The journal makes it alias 1.
const HAS: u16 = 3;

const KEPT: u16 = 2;

/// What is listed while nothing is given up, as slave 0 is, and after that.
const PENDING: &[u8] = b"slave 0 pending 2\nslave 0 word 0x0004 has 0x0003 pending 0x0001\n\
slave 0 word 0x0007 has 0x0007 pending 0x0019\nslave 1 pending 0\n";

const GIVEN_UP: &[u8] =
    b"slave 0 pending 2 given up\nslave 0 word 0x0004 has 0x0003 pending 0x0001\n\
slave 0 word 0x0007 has 0x0007 pending 0x0019\nslave 1 pending 0\n";

const NOTHING: &[u8] = b"slave 0 pending 0\nslave 1 pending 0\n";

/// Nothing that isn't done where nothing is said.
const UNSAID: ScanOptions = ScanOptions {
    trusts_images: false,
    is_forced: false,
    resizes: false,
    any_device: false,
    mends: [Mend::Unsaid; 64],
    tells: Tells {
        report: false,
        events: false,
        form: Form::Text,
    },
};

/// The files of the line.
fn files(alloc: Global) -> Result<Shelf, AllocError> {
    let mut shelf = Shelf::new(alloc)?;
    shelf.put(NAME, LINE)?;
    shelf.put("c-journal.bin", &content(alloc, LIVE, 4104)?)?;
    shelf.put("c-s0.bin", &image(alloc, KEPT)?)?;
    shelf.put("c-s1.bin", &image(alloc, OTHER)?)?;
    Ok(shelf)
}

/// Lists what is pending, and gives this slave up, if it is one. Returns what was printed, and the fault that came, if one did.
fn list<R: Clock + AllocGlobal>(
    rt: &R,
    gives_up: Option<u16>,
    shelf: &mut Shelf,
) -> Result<(Vec<u8>, Option<WireFault>), AllocError> {
    let clock = PracticeClock::new();
    let line = line_of(rt.alloc(), HAS)?;
    let mut wire = NumberedWire::new(PracticeWire::new(line, &clock), 7);
    let mut text = Vec::new(rt.alloc());
    let order = PendingOrder {
        line: NAME,
        asked: UNSAID,
        gives_up,
        form: Form::Text,
    };
    let ended = list_pending(rt, &mut wire, order, shelf, &mut text);
    Ok((text, ended.err()))
}

/// Whether just this is printed, and no fault comes.
fn prints<R: Clock + AllocGlobal>(
    rt: &R,
    gives_up: Option<u16>,
    shelf: &mut Shelf,
    wanted: &[u8],
) -> Result<bool, AllocError> {
    let (text, fault) = list(rt, gives_up, shelf)?;
    Ok(fault.is_none() && text.as_slice() == wanted)
}

/// Whether it is refused to give this slave up, since nothing of it is pending.
fn has_nothing<R: Clock + AllocGlobal>(
    rt: &R,
    slave: u16,
    shelf: &mut Shelf,
) -> Result<bool, AllocError> {
    let (_, fault) = list(rt, Some(slave), shelf)?;
    Ok(matches!(fault, Some(WireFault::NothingPending { .. })))
}

/// Whether the image files have these aliases.
fn has_aliases(alloc: Global, shelf: &Shelf, first: u16) -> Result<bool, AllocError> {
    Ok(
        shelf.holds("c-s0.bin", &image(alloc, first)?)?
            && shelf.holds("c-s1.bin", &image(alloc, OTHER)?)?,
    )
}

/// Whether nothing is written before a slave of which words are pending is given up, and then its image file and the journal are.
fn is_given_up<R: Clock + AllocGlobal>(rt: &R) -> Result<bool, AllocError> {
    let mut shelf = files(rt.alloc())?;
    let is_refused = has_nothing(rt, 1, &mut shelf)? && has_nothing(rt, 2, &mut shelf)?;
    let is_listed = prints(rt, None, &mut shelf, PENDING)? && shelf.writes == 0;
    let is_given_up = prints(rt, Some(0), &mut shelf, GIVEN_UP)? && shelf.writes == 2;
    Ok(
        is_refused
            && is_listed
            && is_given_up
            && has_aliases(rt.alloc(), &shelf, HAS)?
            && prints(rt, None, &mut shelf, NOTHING)?,
    )
}

#[test]
fn a_slave_is_given_up(rt: HostRuntime) {
    assert!(rt; is_given_up(&rt) == Ok(true));
}

/// Whether a call in which this goes wrong can be made again. Gives whether anything went wrong.
fn is_repeated<R: Clock + AllocGlobal>(
    rt: &R,
    trouble: Trouble,
    pattern: Pattern,
) -> Result<Option<bool>, AllocError> {
    let mut shelf = files(rt.alloc())?;
    shelf.trouble(trouble, pattern)?;
    let (_, fault) = list(rt, Some(0), &mut shelf)?;
    let mut left = shelf.left()?;
    let (_, again) = list(rt, Some(0), &mut left)?;
    let is_done = matches!(again, None | Some(WireFault::NothingPending { .. }));
    if !is_done || !has_aliases(rt.alloc(), &left, HAS)? || !prints(rt, None, &mut left, NOTHING)? {
        return Ok(None);
    }
    Ok(Some(fault.is_some()))
}

#[test]
fn a_slave_that_was_not_given_up_for_a_fault_is_the_next_time(rt: HostRuntime) {
    let mut failed = 0u32;
    for pattern in [Pattern::Old, Pattern::New] {
        for at in 0..4u64 {
            for trouble in [Trouble::Cut(at), Trouble::Error(at), Trouble::Full(at)] {
                let repeated = is_repeated(&rt, trouble, pattern);
                assert!(rt; matches!(repeated, Ok(Some(_))));
                if repeated == Ok(Some(true)) {
                    failed = failed.saturating_add(1);
                }
            }
        }
    }
    // The image file is written, and then the journal.
    assert!(rt; failed == 12);
}
