//! The subcommand `diff`.
ghost use Rattle.std.specs.Prelude.{◌≡◌, IfOk, IfErr, option_map};
ghost use Rattle.line_changes.specs.Diff.{IfKnown, IsStatusOfPair, RefusesPair, TellsDifference};
ghost use Rattle.station_files.specs.Faults.{IsOfStream};

use crate::categories::put_categories;
use crate::difference::compare;
use crate::head::put_heads;
use crate::words::put_words;
use sii_words::ImageFile;
use station_files::{ExitStatus, Fault, Store, read_image};
use station_rows::{Form, Rows};
use std::alloc::Global;
use std::io::{Read, Write};

/// Which images are compared, and how.
#[derive(Clone, Copy)]
pub struct Compared<'a> {
    /// Whether the images are hexadecimal text.
    pub hex: bool,
    /// Text, or rows of JSON.
    pub form: Form,
    /// The name of the first image's file; `None` for the input.
    pub old: Option<&'a str>,
    /// The name of the second image's file; `None` for the input.
    pub new: Option<&'a str>,
}

/// Reads two EEPROM images and prints what they differ in. The input is meant for one of them, since it is read to its end. The status is
/// `Done` where the images have the same words, and `Refused` where they differ.
///
/// # Errors
///
/// As for `read_image`, of the first image and then of the second; then `Memory`, where the images can't be compared; then `File` or `Memory`,
/// as the output answers. Nothing is printed before the comparison is complete.
pub fn diff_images<R: Read, S: Store, W: Write>(
    alloc: Global,
    compared: Compared<'_>,
    input: &mut R,
    store: &mut S,
    output: &mut W,
) -> Result<ExitStatus, Fault>
    ensures status { IfOk result (λ status. IfKnown
        (option_map (λ name. name.now) compared.entry.old) (option_map (λ name. name.now) compared.entry.new)
        (R.remaining input.old) (S.files store.old) (λ first second. TellsDifference compared.entry.hex first second status)) }
    ensures refused { IfErr result (λ fault. IfKnown
        (option_map (λ name. name.now) compared.entry.old) (option_map (λ name. name.now) compared.entry.new)
        (R.remaining input.old) (S.files store.old) (λ first second. RefusesPair compared.entry.hex first second fault)) }
    ensures same { S.files store.new ≡ S.files store.old }
{
    let first = read_image(alloc, compared.hex, compared.old, input, store)?;
    let second = read_image(alloc, compared.hex, compared.new, input, store)?;
    print_difference(alloc, compared.form, &first, &second, output)
}

/// Prints what two images differ in, and returns the status.
fn print_difference<W: Write>(
    alloc: Global,
    form: Form,
    first: &ImageFile,
    second: &ImageFile,
    output: &mut W,
) -> Result<ExitStatus, Fault>
    ensures status { IfOk result (IsStatusOfPair first.now second.now) }
    ensures failed { IfErr result IsOfStream }
{
    let difference = compare(alloc, first, second)?;
    let mut rows = Rows::new(alloc, form);
    put_heads(&mut rows, difference.old, difference.new)?;
    put_categories(&mut rows, &difference.old_chain, &difference.new_chain)?;
    put_words(&mut rows, &difference.words)?;
    rows.write(output)?;
    Ok(difference.status())
}
