//! The files of a backup of two slaves, which stand on a wire in memory: what may be there before, that one which failed or was cut can be made
//! again, and what is printed of its folder.

use station_cases::{Pattern, Shelf, Trouble};
use station_files::{Fault, Store};
use station_listing::Code;
use station_serve::wire::back_up_to;
use station_troubles::{Noting, OUTPUT, Reported};
use std::alloc::{AllocError, Global};
use std::rt::Clock;
use wire_bringup::Sizes;
use wire_faults::WireFault;
use wire_frames::NumberedWire;
use wire_practice::{NO_QUIRKS, PracticeClock, PracticeLine, PracticeSlave, PracticeWire};
use wire_scan::backup_line;
use wire_session::begin_journal;

/// A file: its name, its first bytes, and how many it has. The others are 0.
type File = (&'static str, &'static [u8], usize);

/// The text of a new line file.
pub(crate) const LINE: &[u8] =
    b"journal = 'c-journal.bin'\n[[slave]]\nimage = 'c-s0.bin'\n[[slave]]\nimage = 'c-s1.bin'\n";

/// A journal of two slaves with an area of 4,096 bytes, in which nothing is live.
const EMPTY: &[u8] = &[0xA5, 2, 2, 0, 0, 0x10, 0, 0];

/// The same with the words that make slave 0's alias 1, live in half 0.
pub(crate) const LIVE: &[u8] = &[
    0xA5, 2, 2, 0, 0, 0x10, 0, 0, //
    0xA5, 0, 0x1C, 0, 0, 0, 1, 0, 0, 0, 0, 0, 0, 0, 0, 0, //
    2, 0, 0, 0, 4, 0, 1, 0, 1, 0, 0, 0, 7, 0, 1, 0, //
    0x19, 0, 0,
];

/// What is there before, and the file that is refused: `fault 94 Exists` tells it. None: all goes well.
const CASES: &[(&[File], Option<&str>)] = &[
    (&[], None),
    // A journal that is there without a line file: with live batches, no journal, of three slaves, cut off, and an empty one of the line.
    (&[("c-journal.bin", LIVE, 4104)], Some("\"c-journal.bin\":")),
    (
        &[("c-journal.bin", b"something else", 14)],
        Some("\"c-journal.bin\":"),
    ),
    (
        &[("c-journal.bin", &[0xA5, 2, 3, 0, 0, 0x10, 0, 0], 4104)],
        Some("\"c-journal.bin\":"),
    ),
    (
        &[("c-journal.bin", EMPTY, 4103)],
        Some("\"c-journal.bin\":"),
    ),
    (&[("c-journal.bin", EMPTY, 4104)], None),
    // The same, with the line file.
    (
        &[("c.toml", LINE, 84), ("c-journal.bin", LIVE, 4104)],
        Some("\"c-journal.bin\":"),
    ),
    (
        &[("c.toml", LINE, 84), ("c-journal.bin", EMPTY, 4104)],
        None,
    ),
    (&[("c.toml", LINE, 84)], None),
    // An image file with other words, one that is cut off, and one too long.
    (&[("c-s1.bin", &[], 128)], Some("\"c-s1.bin\":")),
    (&[("c-s0.bin", &[], 2)], Some("\"c-s0.bin\":")),
    (
        &[("c.toml", LINE, 84), ("c-s1.bin", &[], 130)],
        Some("\"c-s1.bin\":"),
    ),
];

/// The name of the line file.
pub(crate) const NAME: &str = "c.toml";

/// The alias of slave 1, which never changes.
pub(crate) const OTHER: u16 = 9;

/// The words of a slave with this alias: each but word 0x3E, which says 64 words, is its own number.
fn words(alloc: Global, alias: u16) -> Result<Vec<u16>, AllocError> {
    let mut words = Vec::new(alloc);
    for place in 0..64u16 {
        words.push(match place {
            4 => alias,
            0x3e => 0,
            _ => place,
        })?;
    }
    Ok(words)
}

/// The bytes of the image of such a slave.
pub(crate) fn image(alloc: Global, alias: u16) -> Result<Vec<u8>, AllocError> {
    let mut bytes = Vec::new(alloc);
    for word in &words(alloc, alias)? {
        let [low, high] = word.to_le_bytes();
        bytes.push(low)?;
        bytes.push(high)?;
    }
    Ok(bytes)
}

/// Two slaves, of which the first one has this alias.
pub(crate) fn line_of(alloc: Global, alias: u16) -> Result<PracticeLine, AllocError> {
    let mut slaves = Vec::new(alloc);
    for alias in [alias, OTHER] {
        slaves.push(PracticeSlave::switched_on(alloc, &words(alloc, alias)?, NO_QUIRKS)?)?;
    }
    Ok(PracticeLine::of(slaves, None))
}

/// Backs up the two slaves to `c.toml`. Gives the fault that comes, if one does.
fn back_up<R: Clock + AllocGlobal, S: Store>(
    rt: &R,
    alias: u16,
    store: &mut S,
) -> Result<Option<WireFault>, AllocError> {
    let clock = PracticeClock::new();
    let line = line_of(rt.alloc(), alias)?;
    let mut wire = NumberedWire::new(PracticeWire::new(line, &clock), 7);
    let mut text = Vec::new(rt.alloc());
    let sizes = Sizes::unknown();
    let backed_up = backup_line(rt, &mut wire, &sizes, NAME, store, &mut text);
    match backed_up {
        Ok(()) => Ok(begin_journal(rt.alloc(), NAME, store, &mut text).err()),
        Err(fault) => Ok(Some(fault)),
    }
}

/// Whether a file was refused that is there.
fn is_refused(ended: Option<WireFault>) -> bool {
    matches!(ended, Some(WireFault::Station(Fault::Exists)))
}

/// A file with these first bytes.
pub(crate) fn content(alloc: Global, first: &[u8], length: usize) -> Result<Vec<u8>, AllocError> {
    let mut bytes = first.to_vec(alloc)?;
    bytes.resize(length, 0)?;
    Ok(bytes)
}

/// Whether the images and the line file are there, and an empty journal with an area of so many bytes.
fn is_backup(alloc: Global, shelf: &Shelf, alias: u16, area: u32) -> Result<bool, AllocError> {
    let mut journal = content(alloc, EMPTY, (area as usize).saturating_add(8))?;
    for (byte, of_area) in journal.iter_mut().skip(4).zip(area.to_le_bytes()) {
        *byte = of_area;
    }
    Ok(
        shelf.holds("c-s0.bin", &image(alloc, alias)?)?
            && shelf.holds("c-s1.bin", &image(alloc, OTHER)?)?
            && shelf.holds("c.toml", LINE)?
            && shelf.holds("c-journal.bin", &journal)?,
    )
}

/// Whether a backup ends so where these files are there before: well, or with this file reported, and nothing written.
fn ends_so<R: Clock + AllocGlobal>(
    rt: &R,
    files: &[File],
    refused: Option<&str>,
) -> Result<bool, AllocError> {
    let alloc = rt.alloc();
    let mut shelf = Shelf::new(alloc)?;
    let mut area = 65536u32;
    for (name, first, length) in files {
        shelf.put(name, &content(alloc, first, *length)?)?;
        if *name == "c-journal.bin" {
            area = 4096;
        }
    }
    let mut noting = Noting::new(alloc, &mut shelf, true);
    let ended = back_up(rt, 1, &mut noting)?;
    let is_reported = match (refused, noting.reported(Code::Exists, OUTPUT)) {
        (Some(name), Some(Reported::Wrong(text))) => text.starts_with(name),
        _ => false,
    };
    drop(noting);
    match refused {
        Some(_) => Ok(is_reported && is_refused(ended) && shelf.writes == 0),
        None => Ok(ended.is_none() && is_backup(alloc, &shelf, 1, area)?),
    }
}

#[test]
fn a_backup_begins_with_nothing_of_the_past(rt: HostRuntime) {
    for (files, refused) in CASES {
        assert!(rt; ends_so(&rt, files, *refused) == Ok(true));
    }
}

/// The files that are left of a backup in which this goes wrong, and whether it ended with a fault.
fn left_by<R: Clock + AllocGlobal>(
    rt: &R,
    trouble: Trouble,
    pattern: Pattern,
) -> Result<(Shelf, bool), AllocError> {
    let mut shelf = Shelf::new(rt.alloc())?;
    shelf.trouble(trouble, pattern)?;
    let ended = back_up(rt, 1, &mut shelf)?;
    Ok((shelf.left()?, ended.is_some()))
}

/// Whether a backup in which this goes wrong can be made again, while the slaves are as they were; and, where slave 0 has another alias by now,
/// whether that is reported once its image file is there. Gives whether anything went wrong.
fn is_repeated<R: Clock + AllocGlobal>(
    rt: &R,
    trouble: Trouble,
    pattern: Pattern,
) -> Result<Option<bool>, AllocError> {
    let alloc = rt.alloc();
    let (mut same, has_failed) = left_by(rt, trouble, pattern)?;
    let (mut other, _) = left_by(rt, trouble, pattern)?;
    let is_there = other.bytes(alloc, "c-s0.bin")?.is_some();
    let again = back_up(rt, 1, &mut same)?;
    let changed = back_up(rt, 2, &mut other)?;
    if again.is_some() || !is_backup(alloc, &same, 1, 65536)? {
        return Ok(None);
    }
    if is_there != is_refused(changed) || is_there != changed.is_some() {
        return Ok(None);
    }
    Ok(Some(has_failed))
}

#[test]
fn a_backup_that_failed_can_be_made_again(rt: HostRuntime) {
    let mut failed = 0u32;
    for pattern in [Pattern::Old, Pattern::New] {
        for at in 0..8u64 {
            for trouble in [Trouble::Cut(at), Trouble::Error(at), Trouble::Full(at)] {
                let repeated = is_repeated(&rt, trouble, pattern);
                assert!(rt; matches!(repeated, Ok(Some(_))));
                if repeated == Ok(Some(true)) {
                    failed = failed.saturating_add(1);
                }
            }
        }
    }
    // Six files are written: two images, the line file, the journal, and the images once more.
    assert!(rt; failed == 36);
}

/// What a backup into this folder prints; nothing where it fails.
fn printed_of<R: Clock + AllocGlobal>(rt: &R, folder: &str) -> Result<Vec<u8>, AllocError> {
    let alloc = rt.alloc();
    let clock = PracticeClock::new();
    let mut wire = NumberedWire::new(PracticeWire::new(line_of(alloc, 1)?, &clock), 7);
    let mut shelf = Shelf::new(alloc)?;
    let mut text = Vec::new(alloc);
    let sizes = Sizes::unknown();
    match back_up_to(rt, folder, &sizes, &mut wire, &mut shelf, &mut text) {
        Ok(_) => Ok(text),
        Err(_) => Ok(Vec::new(alloc)),
    }
}

/// Whether a backup into this folder prints its name so, on one line with the name of the line file.
fn is_printed_as<R: Clock + AllocGlobal>(
    rt: &R,
    folder: &str,
    shown: &str,
) -> Result<bool, AllocError> {
    let text = printed_of(rt, folder)?;
    let lines = text.iter().filter(|byte| **byte == b'\n').count();
    Ok(text.starts_with(shown.as_bytes()) && text.ends_with(b".toml\n") && lines == 2)
}

#[test]
fn a_folder_is_printed_on_one_line(rt: HostRuntime) {
    assert!(rt; is_printed_as(&rt, "copies", "formatted 65536\nline copies/") == Ok(true));
    // What else controls a terminal can't stand in a line file.
    assert!(rt;
        is_printed_as(&rt, "a\t\u{9b}2J", "formatted 65536\nline a\\t\\u{9b}2J/") == Ok(true)
    );
}
