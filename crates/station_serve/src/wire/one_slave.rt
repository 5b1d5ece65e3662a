//! Which slave of a line a call is about; and the subcommands that read one, without a line file: `read`, `show`, `diff` and `verify`.
ghost use Rattle.std.specs.Prelude.{◌<◌, ◌≤◌, length, IfOk};

use crate::images::verify_image;
use crate::wire::serving::all_done;
use command_line::{ParsedArguments, number_in, small_in};
use line_changes::{Compared, diff_images};
use sii_words::{MAX_SLAVES, Words};
use station_files::{Entry, ExitStatus, Fault, Place, Store, Wrong, write_complete};
use station_listing::Code;
use station_rows::{ShowOptions, show_image};
use std::alloc::Global;
use std::io::Write;
use std::rt::Clock;
use wire_bringup::{FoundLine, Sizes, bring_up, hand_back};
use wire_faults::WireFault;
use wire_frames::{LineFault, NumberedWire, Wire};

/// Which slave is meant.
#[derive(Clone, Copy)]
pub enum Which {
    /// The one at this place of the line, from 0.
    Place(u16),
    /// The one with this configured station alias.
    Alias(u16),
    /// The one of this vendor and with this product code; with this serial number too, if one is said.
    Device(u32, u32, Option<u32>),
}

impl Which {
    /// Whether the slave at this place is meant, which has these words, if they can be read.
    fn fits(self, place: u16, words: Option<&Words>) -> bool {
        match (self, words) {
            (Which::Place(wanted), _) => place == wanted,
            (_, None) => false,
            (Which::Alias(alias), Some(words)) => words.alias() == alias,
            (Which::Device(vendor, product, serial), Some(words)) => {
                let own = words.identity();
                own.vendor == vendor
                    && own.product == product
                    && serial.is_none_or(|serial| serial == own.serial)
            }
        }
    }

    /// The place of the slave that is meant on a line that was found: `NotOne` where it is none of the line, or where several are like this.
    pub(crate) fn place_in(self, found: &FoundLine) -> Result<usize, WireFault>
        ensures { IfOk result (λ place. place < length found.now.slaves.items) }
    {
        let mut count = 0usize;
        let mut at = 0usize;
        for (place, slave) in (0u16..).zip(&found.slaves) {
            if self.fits(place, slave.words.as_ref().ok()) {
                count = count.saturating_add(1);
                at = usize::from(place);
            }
        }
        let slaves = found.slaves.len();
        if count == 1 && at < slaves {
            return Ok(at);
        }
        let found = count;
        Err(WireFault::NotOne { found, slaves })
    }
}

/// The slave that the arguments mean, and the word `name` after it, if it is there. Where an option says the slave, the first word is that one.
pub(crate) fn which_in<'a>(
    given: &ParsedArguments<'a>,
    name: &str,
) -> Result<(Which, Option<&'a str>), &'static str> {
    let (first, word) = (given.text("P"), given.text(name));
    let which = match (given.text("alias"), given.text("device"), first) {
        (Some(_), Some(_), _) => return Err("--alias isn't taken with --device"),
        (Some(alias), None, _) => {
            Which::Alias(small_in(alias).ok_or("--alias is a number, 0 to 65535")?)
        }
        (None, Some(device), _) => device_in(device).ok_or(
            "--device is VENDOR:PRODUCT or VENDOR:PRODUCT:SERIAL, each a number, as 0x00000002",
        )?,
        (None, None, Some(place)) => match small_in(place) {
            Some(place) if usize::from(place) < MAX_SLAVES => return Ok((
                Which::Place(place),
                word,
            )),
            _ => return Err("P is the slave's place on the line, 0 to 63"),
        },
        (None, None, None) => {
            return Err(
                "which slave? P is its place on the line, from 0; or say --alias or --device",
            );
        }
    };
    match word {
        None => Ok((which, first)),
        Some(_) => Err("P isn't taken with --alias or --device"),
    }
}

/// The device that a text spells: vendor, product code and perhaps serial number, with colons between them.
fn device_in(text: &str) -> Option<Which> {
    let (vendor, after) = text.split_once(':')?;
    let (product, serial) = match after.split_once(':') {
        Some((product, serial)) => (product, Some(number_in(serial)?)),
        None => (after, None),
    };
    Some(Which::Device(number_in(vendor)?, number_in(product)?, serial))
}

/// Which slave is read, with the sizes of EEPROMs as far as they are given, and for what.
#[derive(Clone, Copy)]
pub struct Look<'a> {
    pub which: Which,
    pub sizes: Sizes,
    pub purpose: Purpose<'a>,
}

/// What is done with the words of a slave.
#[derive(Clone, Copy)]
pub enum Purpose<'a> {
    /// They are written to the file of this name, or printed as bytes.
    Read(Option<&'a str>),
    /// What they say is printed.
    Show(ShowOptions<'a>),
    /// What they and an image file differ in is printed.
    Diff(Compared<'a>),
    /// The words in which they differ from the image file of this name are printed.
    Verify(&'a str),
}

/// Brings up the line, of 64 slaves at most, and hands its EEPROMs back.
pub(crate) fn find_slaves<H: Clock + AllocGlobal, W: Wire>(
    rt: &H,
    wire: &mut NumberedWire<W>,
    sizes: &Sizes,
) -> Result<FoundLine, LineFault>
    ensures { IfOk result (λ found. length found.slaves.items ≤ 64) }
{
    let found = bring_up(rt.alloc(), wire, rt, sizes)?;
    hand_back(wire, &found.states());
    Ok(found)
}

/// Reads one slave of the line on this wire, and prints what is asked for of its words. No word of a slave is written, and no file that is there.
/// Returns the exit status: `Refused` where the words differ from an image. It is `NotOne` where not one slave is meant, `Line` where it can't be
/// worked on, and `Exists` where the file for the words holds others.
pub(crate) fn look_at_slave<H: Clock + AllocGlobal, W: Wire, S: Store, O: Write>(
    rt: &H,
    wire: &mut NumberedWire<W>,
    look: Look<'_>,
    store: &mut S,
    output: &mut O,
) -> Result<ExitStatus, WireFault> {
    let found = find_slaves(rt, wire, &look.sizes)?;
    let place = look.which.place_in(&found)?;
    let slave = found.slaves.get(place).ok_or(LineFault::NoSlaves)?;
    let image = match &slave.words {
        Ok(words) => words.to_bytes()?,
        Err(why) => {
            let (slave, why) = (u16::try_from(place).unwrap_or(u16::MAX), *why);
            return Err(WireFault::Line(LineFault::Slave { slave, why }));
        }
    };
    let alloc = rt.alloc();
    let mut input = image.as_slice();
    let ended = match look.purpose {
        Purpose::Read(None) => return all_done(write_complete(&image, output)),
        Purpose::Read(Some(name)) => return all_done(write_new(alloc, name, &image, store)),
        Purpose::Verify(file) => verify_image(alloc, None, Some(file), &mut input, store, output),
        Purpose::Show(shown) => show_image(alloc, shown, &mut input, store, output),
        Purpose::Diff(compared) => diff_images(alloc, compared, &mut input, store, output),
    };
    Ok(ended?)
}

/// Writes an image to a file that isn't there, or has these bytes already.
fn write_new<S: Store>(
    alloc: Global,
    name: &str,
    image: &[u8],
    store: &mut S,
) -> Result<(), Fault> {
    if matches!(store.look(name)?, Entry::Absent) {
        store.write(name, image)?;
        return Ok(());
    }
    match store.read(alloc, name)? {
        Some(held) if held.as_slice() == image => Ok(()),
        _ => {
            store.note(Code::Exists, Place::File(name), &Wrong::Exists);
            Err(Fault::Exists)
        }
    }
}
