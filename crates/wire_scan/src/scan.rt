//! The subcommand `scan`.
ghost use Rattle.std.specs.Prelude.{◌≡◌};

use crate::journals::sizes_of as words_of_each;
use crate::keeping::{Beside, compare_all, load_images, sizes_of};
use crate::plan::is_there;
use crate::validating::validate_slaves;
use jrn_format::scan;
use line_changes::check_of;
use sii_words::{MAX_SLAVES, Words};
use slave_match::{Difference, Reason};
use station_files::{Fault, MOST_OF_JOURNAL, Store, load_line, read_file};
use station_rows::{Cell, END, Form, Rows, Value, data, named, said};
use station_text::LineFile;
use std::alloc::{AllocError, Global};
use std::io::Write;
use std::rt::Clock;
use wire_bringup::{FoundLine, FoundSlave, Sizes, SlaveState, bring_up, hand_back};
use wire_faults::WireFault;
use wire_frames::{LineFault, NumberedWire, Wire};
use wire_words::{Extent, SizeFound};

/// Brings up the line on this wire, and prints one line for each slave: its position, the number of words of its EEPROM, its alias,
/// whether its check byte is right, and its identity; or the fault for which it can't be worked on. After that stand its state, and what
/// was found of its EEPROM's size; or the same as a row of JSON. No file is read or written, and no word of a slave. The EEPROMs are handed back.
///
/// # Errors
///
/// As for `bring_up`, with nothing printed; `File` or `Memory`, as the output answers; and, once all slaves are printed, `Line` for the first
/// one that can't be worked on.
pub fn scan_line<R: Clock + AllocGlobal, W: Wire, O: Write>(
    rt: &R,
    wire: &mut NumberedWire<W>,
    sizes: &Sizes,
    form: Form,
    output: &mut O,
) -> Result<(), WireFault> {
    let found = bring_up(rt.alloc(), wire, rt, sizes)?;
    hand_back(wire, &found.states());
    rows_of(rt.alloc(), form, &found, &[])?.write(output)?;
    let _words = found.into_words(rt.alloc())?;
    Ok(())
}

/// Prints the slaves of the line on this wire as `scan_line` does, and after each whether it has the words of its image file, which the line file
/// `name` names. Words that a recovery writes don't count. Each slave has the size of its image file, where there is one. No file is written, and no
/// word of a slave.
///
/// # Errors
///
/// As for `load_line` and `load_images`; as for `bring_up`, with nothing printed; `File` or `Memory`, as the journal's file and the output answer;
/// and, once all slaves are printed, as for `validate_slaves`.
pub fn scan_files<R: Clock + AllocGlobal, W: Wire, S: Store, O: Write>(
    rt: &R,
    wire: &mut NumberedWire<W>,
    name: &str,
    form: Form,
    store: &mut S,
    output: &mut O,
) -> Result<(), WireFault>
    ensures { S.files store.new ≡ S.files store.old }
{
    let line = load_line(rt.alloc(), name, store)?;
    let images = load_images(rt.alloc(), &line.images, store)?;
    let found = bring_up(rt.alloc(), wire, rt, &sizes_of(&images, false))?;
    hand_back(wire, &found.states());
    let seen = beside_files(rt.alloc(), &line, &images, &found, store)?;
    rows_of(rt.alloc(), form, &found, &seen)?.write(output)?;
    let _slaves = validate_slaves(rt.alloc(), found, line.images.len())?;
    Ok(())
}

/// What is seen of each slave beside its image file; nothing where one can't be worked on, or there are others than image files.
fn beside_files<S: Store>(
    alloc: Global,
    line: &LineFile,
    images: &[Option<Words>],
    found: &FoundLine,
    store: &mut S,
) -> Result<Vec<Beside>, Fault>
    ensures { S.files store.new ≡ S.files store.old }
{
    let mut slaves = Vec::new(alloc);
    for each in &found.slaves {
        match &each.words {
            Ok(words) => slaves.push(words.try_copy()?)?,
            Err(_) => return Ok(Vec::new(alloc)),
        }
    }
    if slaves.len() != images.len() || slaves.is_empty() || slaves.len() > MAX_SLAVES {
        return Ok(Vec::new(alloc));
    }
    let name = line.journal.as_str();
    let bytes = if is_there(name, store)? {
        read_file(alloc, name, MOST_OF_JOURNAL, store)?
    } else {
        Vec::new(alloc)
    };
    let sizes = words_of_each(alloc, &slaves)?;
    // Without a journal of these slaves no batch is live.
    match scan(alloc, &bytes, &sizes) {
        Ok(journal) => compare_all(alloc, &slaves, images, journal.batches.as_slice()),
        Err(_) => compare_all(alloc, &slaves, images, &[]),
    }
}

/// The rows of the slaves that were found, with what is seen of them beside their image files.
fn rows_of(
    alloc: Global,
    form: Form,
    found: &FoundLine,
    seen: &[Beside],
) -> Result<Rows, AllocError> {
    let mut rows = Rows::new(alloc, form);
    for (slave, each) in (0u16..).zip(&found.slaves) {
        put_slave(
            &mut rows,
            slave,
            each,
            seen.get(usize::from(slave)).copied(),
        )?;
    }
    Ok(rows)
}

/// Puts the row of a slave: what its words say, or why it can't be worked on, and what was found of it.
fn put_slave(
    rows: &mut Rows,
    slave: u16,
    found: &FoundSlave,
    seen: Option<Beside>,
) -> Result<(), AllocError> {
    match &found.words {
        Ok(words) => {
            let identity = words.identity();
            let eeprom = [
                data("eeprom", Value::Begin),
                named("words", words.len()),
                named("alias", words.alias()),
                named("check", check_of(words)),
                named("vendor", Value::Long(identity.vendor)),
                named("product", Value::Long(identity.product)),
                named("revision", Value::Long(identity.revision)),
                named("serial", Value::Long(identity.serial)),
                END,
            ];
            put_found(rows, slave, &eeprom, found, seen)
        }
        Err(why) => {
            let fault = WireFault::Line(LineFault::Slave { slave, why: *why });
            let text = format!(in rows.alloc(); "{fault}")?;
            put_found(rows, slave, &fault_cells(text.as_str(), fault), found, seen)
        }
    }
}

/// Why a slave can't be worked on, which text prints so.
fn fault_cells<'a>(text: &'a str, fault: WireFault) -> [Cell<'a>; 5] {
    let code = fault.code();
    [
        said("", text),
        data("fault", Value::Begin),
        data("code", code.number()),
        data("name", code.entry().name),
        END,
    ]
}

/// Puts the row of a slave of which this is said: its state, the size of its EEPROM, and what is seen of its image file stand after it.
fn put_found(
    rows: &mut Rows,
    slave: u16,
    said_of: &[Cell<'_>],
    found: &FoundSlave,
    seen: Option<Beside>,
) -> Result<(), AllocError> {
    let mut cells = Vec::new(rows.alloc());
    cells.push(named("slave", slave))?;
    cells.extend_from_slice(said_of)?;
    cells.extend_from_slice(&state_cells(found.state))?;
    if let Some(size) = found.size {
        cells.extend_from_slice(&size_cells(size))?;
    }
    match seen {
        None => {}
        Some(Beside::Absent) => cells.push(named("file", "absent"))?,
        Some(Beside::Same) => cells.push(named("file", "same"))?,
        Some(Beside::Differs { difference, reason }) => {
            cells.extend_from_slice(&difference_cells(difference, reason))?;
        }
    }
    rows.put("slave", &cells)
}

/// In what a slave differs from its image file, and what that usually is.
fn difference_cells<'a>(difference: Difference, reason: Reason) -> [Cell<'a>; 9] {
    let word = |word: Option<u16>| word.map_or(Value::Absent, |word| Value::Word(word));
    [
        named("file", "differs"),
        data("difference", Value::Begin),
        named("words", difference.count),
        named("first", difference.first),
        named("has", word(difference.has)),
        named("kept", word(difference.kept)),
        named("usually", reason.name()),
        named("place", reason.place()),
        END,
    ]
}

/// The state of a slave (ETG.1000.6), whether it tells an error, and whether its PDI has the EEPROM.
fn state_cells<'a>(state: SlaveState) -> [Cell<'a>; 3] {
    let status = state.al_status.unwrap_or(0);
    let name = match status % 16 {
        1 => "init",
        2 => "preop",
        3 => "boot",
        4 => "safeop",
        8 => "op",
        _ => "unknown",
    };
    [
        named("state", name),
        named("error", status / 16 % 2 == 1),
        named("held", state.is_with_pdi()),
    ]
}

/// What word 0x3E says of the size of an EEPROM, and what was found: a number of words, or how far its words tell it.
fn size_cells<'a>(size: SizeFound) -> [Cell<'a>; 7] {
    let (found, extent) = match size.extent {
        Extent::Repeats(words) | Extent::EndsAt(words) => (named("found", words), Value::Absent),
        Extent::Open => (data("found", Value::Null), "open".into()),
        Extent::Uniform => (data("found", Value::Null), "alike".into()),
    };
    [
        data("size", Value::Begin),
        named("says", size.says),
        said("found", extent),
        found,
        data("extent", extent),
        named("larger", size.is_larger),
        END,
    ]
}
