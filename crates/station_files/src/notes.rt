//! What is noted beside the fault of a file: what is wrong, and where.
ghost use Rattle.std.specs.Prelude.{◌≡◌};

use crate::faults::Fault;
use crate::store::Store;
use station_listing::Code;
use station_text::TextTrouble;
use thiserror::Error;

/// Where something is wrong.
#[derive(Clone, Copy)]
pub enum Place<'a> {
    /// What is wrong names its files itself.
    Named,
    /// In the file of this name.
    File(&'a str),
    /// In this line of the file of this name, from 1.
    Line(&'a str, usize),
}

/// What is wrong with a file or with standard input, as part of a sentence.
#[derive(Clone, Copy, Debug, Error)]
pub enum Wrong {
    #[error("it is a pipe, a device or a socket")]
    NotAFile,
    /// It has this many bytes.
    #[error("it has {0} bytes, which are too many")]
    TooLong(u64),
    #[error("the file is there already")]
    Exists,
    #[error("standard output goes to it too; where the shell has opened it by >, it is empty already")]
    Output,
    #[error("the file is there, and is no capture of this program")]
    NoCapture,
    #[error("no UTF-8")]
    NoUtf8,
    #[error("not pairs of hexadecimal digits alone")]
    NoHex,
    /// It has this many bytes.
    #[error("{0} bytes, an odd number, and a word has two")]
    OddLength(usize),
    /// A slave's image has this many words.
    #[error("{0} words, and an EEPROM has 64 to 4096, a multiple of 64")]
    NoEeprom(usize),
    /// An image has this many words.
    #[error("{0} words, and an image has 64 to 4096")]
    NoImage(usize),
    /// The check byte should be this one.
    #[error("the check byte, the low byte of word 7, must be 0x{0:02x}")]
    BadCheck(u8),
    #[error("standard input has not pairs of hexadecimal digits alone")]
    InputNoHex,
    #[error("standard input has an odd number of bytes, and a word has two")]
    InputOddLength,
    #[error("standard input has not the 64 to 4096 words of an image")]
    InputNoImage,
    #[error("the check byte of the image on standard input, the low byte of word 7, is wrong")]
    InputBadCheck,
}

/// Notes what is wrong in the text of the file of this name, if that is known.
pub(crate) fn note_text<S: Store>(
    code: Code,
    name: &str,
    trouble: Option<TextTrouble>,
    store: &mut S,
)
    ensures { S.files store.new ≡ S.files store.old }
{
    let Some(TextTrouble { line, what }) = trouble else {
        return;
    };
    let place = line.map_or(Place::File(name), |line| Place::Line(name, line));
    store.note(code, place, &what);
}

/// Notes why an image file of so many bytes is refused with this fault. `size` is what is wrong where that is its size.
pub(crate) fn note_image<S: Store>(
    fault: Fault,
    name: &str,
    bytes: usize,
    size: Wrong,
    store: &mut S,
)
    ensures { S.files store.new ≡ S.files store.old }
{
    match fault {
        Fault::OddLength => store.note(fault.code(), Place::File(name), &Wrong::OddLength(bytes)),
        Fault::BadSize => store.note(fault.code(), Place::File(name), &size),
        Fault::BadHex => store.note(fault.code(), Place::File(name), &Wrong::NoHex),
        _ => {}
    }
}

/// Notes why an image on standard input is refused with this fault.
pub(crate) fn note_input<S: Store>(fault: Fault, store: &mut S)
    ensures { S.files store.new ≡ S.files store.old }
{
    match fault {
        Fault::OddLength => store.note(fault.code(), Place::Named, &Wrong::InputOddLength),
        Fault::BadSize => store.note(fault.code(), Place::Named, &Wrong::InputNoImage),
        Fault::BadHex => store.note(fault.code(), Place::Named, &Wrong::InputNoHex),
        _ => {}
    }
}
