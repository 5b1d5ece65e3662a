//! Reads the files of a line: the line file, and the EEPROM image of each slave.
ghost use Rattle.std.specs.Prelude.{◌≡◌, IfOk, IfErr, vec_len};
ghost use Rattle.station_files.specs.LineFiles.{names_of, DescribesLine, SpellsLine, SpellsPlant, SpellsSlaves, SpellsWords};
ghost use Rattle.station_files.specs.LineFiles.{RefusesLine, RefusesLineText, RefusesPlant, RefusesSlaves, RefusesWords};

use crate::faults::Fault;
use crate::notes::{Place, Wrong, note_image, note_text};
use crate::store::{MOST_OF_TEXT, Store, read_file, read_image_file};
use sii_words::{Plant, Words};
use station_listing::Code;
use station_text::{LineFault, LineFile, line_at, read_line};
use std::alloc::Global;

/// Reads the line file `name`.
///
/// # Errors
///
/// As for `read_file`; `BadLine` where it is not UTF-8 or not a line file; `Memory` at any point.
pub fn load_line<S: Store>(alloc: Global, name: &str, store: &mut S) -> Result<LineFile, Fault>
    ensures line { IfOk result (SpellsLine (S.files store.old) name.now) }
    ensures refused { IfErr result (RefusesLine (S.files store.old) name.now) }
    ensures same { S.files store.new ≡ S.files store.old }
{
    let bytes = read_file(alloc, name, MOST_OF_TEXT, store)?;
    spelt_line(alloc, name, &bytes, store)
}

/// The line that the file of this name describes, which has these bytes.
fn spelt_line<S: Store>(
    alloc: Global,
    name: &str,
    bytes: &[u8],
    store: &mut S,
) -> Result<LineFile, Fault>
    ensures line { IfOk result (DescribesLine bytes.now) }
    ensures refused { IfErr result (RefusesLineText bytes.now) }
    ensures same { S.files store.new ≡ S.files store.old }
{
    let text = match str::from_utf8(bytes) {
        Ok(text) => text,
        Err(error) => {
            let line = line_at(bytes, error.valid_up_to());
            store.note(Code::BadLine, Place::Line(name, line), &Wrong::NoUtf8);
            return Err(Fault::BadLine);
        }
    };
    match read_line(alloc, text) {
        Ok(line) => Ok(line),
        Err(LineFault::Memory) => Err(Fault::Memory),
        Err(LineFault::BadLine(trouble)) => {
            note_text(Code::BadLine, name, trouble, store);
            Err(Fault::BadLine)
        }
    }
}

/// Reads the EEPROM image of each slave, in the order of the line. Each file is validated before the next one is read.
///
/// # Errors
///
/// The fault of the first bad file: `File` where it is absent or can't be read; `NotAFile`; `OddLength`; `BadSize` where its words are not
/// 64 to 4,096, a multiple of 64. `Memory` may come at any point.
pub fn load_slaves<S: Store>(
    alloc: Global,
    line: &LineFile,
    store: &mut S,
) -> Result<Vec<Words>, Fault>
    ensures slaves { IfOk result (λ slaves. SpellsSlaves (S.files store.old) line.now slaves.items) }
    ensures count { IfOk result (λ slaves. vec_len slaves ≡ vec_len line.now.images) }
    ensures refused { IfErr result (RefusesSlaves (S.files store.old) (names_of line.now)) }
    ensures same { S.files store.new ≡ S.files store.old }
{
    let mut slaves = Vec::new(alloc);
    for image in &line.images {
        match load_slave(alloc, image.as_str(), store) {
            Ok(words) => slaves.push(words)?,
            Err(fault) => return Err(fault),
        }
    }
    Ok(slaves)
}

/// Reads the EEPROM image of a slave, as `load_slaves` does.
///
/// # Errors
///
/// As for `load_slaves`.
pub fn load_slave<S: Store>(alloc: Global, name: &str, store: &mut S) -> Result<Words, Fault>
    ensures words { IfOk result (SpellsWords (S.files store.old) name.now) }
    ensures refused { IfErr result (RefusesWords (S.files store.old) name.now) }
    ensures same { S.files store.new ≡ S.files store.old }
{
    let bytes = read_image_file(alloc, name, store)?;
    match Words::from_bytes(alloc, &bytes) {
        Ok(words) => Ok(words),
        Err(fault) => {
            let fault = Fault::from(fault);
            let size = Wrong::NoEeprom(bytes.len() / 2);
            note_image(fault, name, bytes.len(), size, store);
            Err(fault)
        }
    }
}

/// Reads the contents of the line whose line file is `name`.
///
/// # Errors
///
/// As for `load_line`, then as for `load_slaves`.
pub fn load_plant<S: Store>(alloc: Global, name: &str, store: &mut S) -> Result<Plant, Fault>
    ensures plant { IfOk result (SpellsPlant (S.files store.old) name.now) }
    ensures refused { IfErr result (RefusesPlant (S.files store.old) name.now) }
    ensures same { S.files store.new ≡ S.files store.old }
{
    let line = load_line(alloc, name, store)?;
    let slaves = load_slaves(alloc, &line, store)?;
    Ok(Plant::of(slaves))
}
