//! The subcommand `show`; and the subcommand `layout`: the process image of a line, as rows.
ghost use Rattle.std.specs.Prelude.{◌≡◌, IfOk, IfErr, IfSome, option_map, OnOk};
ghost use Rattle.station_files.specs.Faults.{IsOfStream};
ghost use Rattle.station_files.specs.ImageText.{RefusesInput, text_of};
ghost use Rattle.station_rows.specs.Show.{IsStatusOf, ShowsImage, ShowsStatus};
ghost use Rattle.station_files.specs.LineFiles.{ListsFiles, RefusesLayout};
ghost use Rattle.sii_image.specs.ProcessImage.{ProcessImageParts};

use crate::cell::{bare, data, named};
use crate::image::put_image;
use crate::rows::{Form, Rows};
use sii_image::{ProcessImage, image_of};
use sii_words::ImageFile;
use station_files::{ExitStatus, Fault, Store, load_plant, read_image};
use station_listing::{Listing, list_image};
use std::alloc::{AllocError, Global};
use std::io::{Read, Write};

/// What is shown of which image.
#[derive(Clone, Copy)]
pub struct ShowOptions<'a> {
    /// Whether the image is hexadecimal text.
    pub hex: bool,
    /// Whether each item is printed too.
    pub all: bool,
    /// Text, or rows of JSON.
    pub form: Form,
    /// The name of the image's file; `None` for the input.
    pub file: Option<&'a str>,
}

/// Reads an EEPROM image and prints its listing, and its items after it if they are asked for. The status is `Done` where the check byte is
/// right and the chain and all contents can be read, and `File` otherwise.
///
/// # Errors
///
/// As for `read_image`; then `Memory`, where the listing can't be made; then `File` or `Memory`, as the output answers. Nothing is printed
/// before the listing is complete.
pub fn show_image<R: Read, S: Store, W: Write>(
    alloc: Global,
    shown: ShowOptions<'_>,
    input: &mut R,
    store: &mut S,
    output: &mut W,
) -> Result<ExitStatus, Fault>
    ensures status { IfOk result (ShowsStatus shown.entry.hex
        (text_of (option_map (λ name. name.now) shown.entry.file) (R.remaining input.old) (S.files store.old))) }
    ensures refused { IfErr result (λ fault. IfSome
        (text_of (option_map (λ name. name.now) shown.entry.file) (R.remaining input.old) (S.files store.old))
        (λ text. RefusesInput shown.entry.hex text fault)) }
    ensures same { S.files store.new ≡ S.files store.old }
{
    let image = read_image(alloc, shown.hex, shown.file, input, store)?;
    print_image(alloc, shown.all, shown.form, &image, output)
}

/// Prints the listing of an image, with `all` its items after it and what its first words say, and returns the status.
fn print_image<W: Write>(
    alloc: Global,
    all: bool,
    form: Form,
    image: &ImageFile,
    output: &mut W,
) -> Result<ExitStatus, Fault>
    ensures status { IfOk result (ShowsImage image.now) }
    ensures failed { IfErr result IsOfStream }
{
    let listing = list_image(alloc, image)?;
    let mut rows = Rows::new(alloc, form);
    put_image(&mut rows, all, &listing, image.as_slice())?;
    rows.write(output)?;
    Ok(status_of(&listing))
}

/// `Done` for a sound listing, `File` for any other.
fn status_of(listing: &Listing) -> ExitStatus
    ensures { IsStatusOf listing.now result }
{
    if listing.is_sound() {
        ExitStatus::Done
    } else {
        ExitStatus::File
    }
}

/// Prints the process image of the line whose line file is `line`, from the images of its slaves. The journal isn't read, and no file
/// is written.
///
/// # Errors
///
/// As for `load_plant`; then `ImageOverLimit`, where the line has no process image, or `Memory`, with nothing printed; then `File` or `Memory`, as
/// the output answers.
pub fn show_layout<S: Store, W: Write>(
    alloc: Global,
    line: &str,
    form: Form,
    store: &mut S,
    output: &mut W,
) -> Result<(), Fault>
    ensures listed { OnOk result ((image : ProcessImageParts) × ListsFiles (S.files store.old) line.now image) }
    ensures refused { IfErr result (RefusesLayout (S.files store.old) line.now) }
    ensures same { S.files store.new ≡ S.files store.old }
{
    let plant = load_plant(alloc, line, store)?;
    let image = image_of(alloc, &plant)?;
    let mut rows = Rows::new(alloc, form);
    put_layout(&mut rows, None, &image)?;
    rows.write(output)?;
    Ok(())
}

/// Puts a row for each segment of a process image, and one for its sizes. `name` says which process image it is, where there are two.
pub fn put_layout(
    rows: &mut Rows,
    name: Option<&str>,
    image: &ProcessImage,
) -> Result<(), AllocError> {
    for segment in image.segments() {
        let direction = if segment.output { "out" } else { "in" };
        let row = [
            data("image", name),
            named("slave", segment.slave),
            named("sm", segment.manager),
            bare("direction", direction),
            named("offset", segment.offset),
            named("size", segment.size),
            named("bits", segment.bits),
        ];
        rows.put("segment", &row)?;
    }
    let row = [
        data("image", name),
        named("outputs", image.outputs()),
        named("inputs", image.inputs()),
        named("counter", image.expected_counter()),
    ];
    rows.put("sizes", &row)
}
