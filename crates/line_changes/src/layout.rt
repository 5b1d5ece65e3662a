//! Whether a line has another process image than before.
ghost use Rattle.std.specs.Prelude.{◌≡◌, IfErr};
ghost use Rattle.station_files.specs.Faults.{IsOfStream};

use crate::report::{Before, words_now};
use sii_image::{ImageFault, image_of};
use sii_words::Plant;
use station_files::{Fault, Store};
use station_listing::Code;
use station_rows::{Form, Rows, bare, data, put_layout, said};
use std::alloc::{AllocError, Global};
use std::io::Write;

/// Puts the process image of a line with these contents, as `layout` lists it, or that there is none. `name` says which one it is.
fn put_image(rows: &mut Rows, name: &str, plant: &Plant) -> Result<(), AllocError> {
    match image_of(rows.alloc(), plant) {
        Ok(image) => put_layout(rows, Some(name), &image),
        Err(ImageFault::ImageOverLimit) => {
            let code = Code::ImageOverLimit;
            let row = [
                said("", "none:"),
                data("image", name),
                bare("code", code.number()),
                bare("name", code.entry().name),
            ];
            rows.put("no_image", &row)
        }
        Err(ImageFault::Memory) => Err(AllocError {}),
    }
}

/// The process image of a line with these contents, as text.
fn rows_of(alloc: Global, plant: &Plant) -> Result<Rows, AllocError> {
    let mut rows = Rows::new(alloc, Form::Text);
    put_image(&mut rows, "", plant)?;
    Ok(rows)
}

/// Puts the process images of a line with the contents `before` and `after`, if they differ.
pub fn put_images(rows: &mut Rows, before: &Plant, after: &Plant) -> Result<(), AllocError> {
    let old = rows_of(rows.alloc(), before)?;
    let new = rows_of(rows.alloc(), after)?;
    if old.as_str() == new.as_str() {
        return Ok(());
    }
    rows.say(&[said("", "process image before")])?;
    put_image(rows, "before", before)?;
    rows.say(&[said("", "process image after")])?;
    put_image(rows, "after", after)
}

/// Prints the process image of a line, if it is another one than `before`: a line that says how many follow it, and then the image as `layout`
/// prints it. No file changes.
///
/// # Errors
///
/// As for `changes_since`; then `File` or `Memory`, as the output answers.
pub fn print_image<S: Store, W: Write>(
    alloc: Global,
    before: &Before,
    store: &mut S,
    output: &mut W,
) -> Result<(), Fault>
    ensures failed { IfErr result IsOfStream }
    ensures same { S.files store.new ≡ S.files store.old }
{
    let after = words_now(alloc, &before.line, store)?;
    let old = rows_of(alloc, &before.words)?;
    let new = rows_of(alloc, &after)?;
    let (old, image) = (old.as_str(), new.as_str());
    if old != image {
        let bytes = image.as_bytes();
        let lines = bytes.iter().filter(|byte| **byte == b'\n').count();
        writeln!(output, "event image {lines}")?;
        write!(output, "{image}")?;
        output.flush()?;
    }
    Ok(())
}
