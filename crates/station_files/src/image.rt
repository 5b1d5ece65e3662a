//! Reads one EEPROM image from a file or a stream and writes one, as bytes or as hexadecimal text. The subcommand `alias`.
ghost use Rattle.std.specs.Prelude.{◌≡◌, List, ℕ, IfOk, IfErr, IfSome, IsSome, OnOk, option_map};
ghost use Rattle.std.specs.Io.KnownBytes.{Appends};
ghost use Rattle.sii_words.specs.Words.{bytes_of};
ghost use Rattle.station_files.specs.Faults.{IsOfStream};
ghost use Rattle.station_files.specs.ImageText.{RefusesInput, RefusesReading, Spells, SpellsLower, text_of};
ghost use Rattle.station_files.specs.Alias.{RefusesAlias, Renames};

use crate::faults::{Failure, Fault};
use crate::notes::{Place, Wrong, note_image, note_input};
use crate::store::{MOST_OF_TEXT, Store, read_file};
use crate::streams::{read_to_end, write_complete};
use sii_edit::alias_image;
use sii_words::ImageFile;
use station_listing::Code;
use station_text::{hex_lines, read_hex};
use std::alloc::{AllocError, Global};
use std::io::{Read, Write};

/// Reads an EEPROM image of 64 to 4,096 words, from the file of this name, or from the input, up to its end, where no name is given. With
/// `hex` the text is hexadecimal.
///
/// # Errors
///
/// `File` where the file is absent, or file or input can't be read; `NotAFile` and `TooLong` as for `read_file`; with `hex`, `BadHex` where the
/// text is not pairs of hexadecimal digits; `OddLength` for an odd number of bytes; `BadSize` for a wrong number of words. `Memory` may come at
/// any point.
pub fn read_image<R: Read, S: Store>(
    alloc: Global,
    hex: bool,
    file: Option<&str>,
    input: &mut R,
    store: &mut S,
) -> Result<ImageFile, Fault>
    ensures read { IfOk result (λ image. IfSome (text_of (option_map (λ name. name.now) file.entry) (R.remaining input.old) (S.files store.old))
        (λ text. Spells hex text (bytes_of image))) }
    ensures refused { IfErr result (λ fault. IfSome (text_of (option_map (λ name. name.now) file.entry) (R.remaining input.old) (S.files store.old))
        (λ text. RefusesInput hex text fault)) }
    ensures same { S.files store.new ≡ S.files store.old }
    ensures unread { IsSome file.entry → R.remaining input.new ≡ R.remaining input.old }
{
    let bytes = read_text(alloc, file, input, store)?;
    match spelt_image(alloc, hex, &bytes) {
        Ok(image) => Ok(image),
        Err(fault) => {
            note_spelt(fault, hex, file, &bytes, store);
            Err(fault)
        }
    }
}

/// Notes why a text is refused with this fault that should spell an image: that of the file of this name, or of the input.
fn note_spelt<S: Store>(fault: Fault, hex: bool, file: Option<&str>, text: &[u8], store: &mut S)
    ensures { S.files store.new ≡ S.files store.old }
{
    let Some(name) = file else {
        return note_input(fault, store);
    };
    let digits = text.iter().filter(|byte| !byte.is_ascii_whitespace());
    let bytes = if hex { digits.count() / 2 } else { text.len() };
    note_image(fault, name, bytes, Wrong::NoImage(bytes / 2), store)
}

/// The bytes of the file of this name, or those that are left of the input where no name is given.
fn read_text<R: Read, S: Store>(
    alloc: Global,
    file: Option<&str>,
    input: &mut R,
    store: &mut S,
) -> Result<Vec<u8>, Fault>
    ensures read { IfOk result (λ bytes. IfSome (text_of (option_map (λ name. name.now) file.entry) (R.remaining input.old) (S.files store.old))
        (λ text. bytes.items ≡ text)) }
    ensures refused { IfErr result (λ fault. IfSome (text_of (option_map (λ name. name.now) file.entry) (R.remaining input.old) (S.files store.old))
        (λ text. RefusesReading text fault)) }
    ensures same { S.files store.new ≡ S.files store.old }
    ensures unread { IsSome file.entry → R.remaining input.new ≡ R.remaining input.old }
{
    match file {
        Some(name) => read_file(alloc, name, MOST_OF_TEXT, store),
        None => Ok(read_to_end(alloc, input)?),
    }
}

/// The image that `input` holds: its bytes, or with `hex` their hexadecimal text.
fn spelt_image(alloc: Global, hex: bool, input: &[u8]) -> Result<ImageFile, Fault>
    ensures read { IfOk result (λ image. Spells hex input.now (bytes_of image)) }
    ensures refused { IfErr result (RefusesInput hex input.now) }
{
    if !hex {
        return Ok(ImageFile::from_bytes(alloc, input)?);
    }
    let Ok(text) = str::from_utf8(input) else {
        return Err(Fault::BadHex);
    };
    let spelt = read_hex(alloc, text)?;
    Ok(ImageFile::from_bytes(alloc, &spelt)?)
}

/// Writes an EEPROM image and flushes the output. With `hex` it writes lower case digits, 16 bytes a line.
fn write_image<W: Write>(
    alloc: Global,
    hex: bool,
    image: &ImageFile,
    output: &mut W,
) -> Result<(), Fault>
    ensures written { OnOk result ((text : List ℕ) × SpellsLower hex text (bytes_of image.now)
        × Appends (W.contents output.old) (W.contents output.new) text) }
    ensures failed { IfErr result IsOfStream }
{
    let text = spell_image(alloc, hex, image)?;
    write_complete(&text, output)
}

/// The output for an image: its bytes, or with `hex` their hexadecimal text.
fn spell_image(alloc: Global, hex: bool, image: &ImageFile) -> Result<Vec<u8>, AllocError>
    ensures { IfOk result (λ text. SpellsLower hex text.items (bytes_of image.now)) }
{
    let mut bytes = vec![in alloc; 0u8; 2 * image.as_slice().len()]?;
    image.as_bytes_into(&mut bytes);
    if hex {
        return hex_lines(alloc, &bytes);
    }
    Ok(bytes)
}

/// Reads an EEPROM image, of the file of this name or from the input, sets its configured station alias to `value`, updates the check byte,
/// and writes the image to the output. No file changes. With `hex` both texts are hexadecimal.
///
/// # Errors
///
/// As for `read_image`; then the refusal `BadCheck`, where the check byte of the image is wrong; then as for `write_image`. Nothing is
/// written before the image is read and accepted.
pub fn set_alias<R: Read, S: Store, W: Write>(
    alloc: Global,
    value: u16,
    hex: bool,
    file: Option<&str>,
    input: &mut R,
    store: &mut S,
    output: &mut W,
) -> Result<(), Failure>
    ensures renamed { OnOk result (Renames hex value (text_of (option_map (λ name. name.now) file.entry) (R.remaining input.old) (S.files store.old))
        (W.contents output.old) (W.contents output.new)) }
    ensures refused { IfErr result (λ failure.
        IfSome (text_of (option_map (λ name. name.now) file.entry) (R.remaining input.old) (S.files store.old))
        (λ text. RefusesAlias hex text failure)) }
    ensures same { S.files store.new ≡ S.files store.old }
{
    let mut image = read_image(alloc, hex, file, input, store)?;
    if let Err(refusal) = alias_image(&mut image, value) {
        match file {
            Some(name) => {
                let wrong = Wrong::BadCheck(image.check_byte());
                store.note(Code::BadCheck, Place::File(name), &wrong);
            }
            None => store.note(Code::BadCheck, Place::Named, &Wrong::InputBadCheck),
        }
        return Err(Failure::Refused(refusal));
    }
    write_image(alloc, hex, &image, output)?;
    Ok(())
}
