//! What an image says, as rows: its head and its chain; its other first words and its category General (ETG.1000.6, ETG.2010).
ghost use Rattle.std.specs.Prelude.{◌<◌};

use crate::cell::{BREAK, Cell, bare, named, said};
use crate::items::put_items;
use crate::rows::Rows;
use crate::value::Value;
use station_listing::{Items, ListedChain, Listing};
use std::alloc::AllocError;

/// Puts a row for the head of an image, one for each category, and one for the end of their chain. With `all` a category's name stands beside
/// its type, and the items of all categories follow, and what the first of these words say.
pub(crate) fn put_image(
    rows: &mut Rows,
    all: bool,
    listing: &Listing,
    words: &[u16],
) -> Result<(), AllocError> {
    let identity = listing.identity;
    let row = [
        named("words", listing.count),
        BREAK,
        named("alias", listing.alias),
        BREAK,
        named("check", listing.check),
        BREAK,
        named("vendor", Value::Long(identity.vendor)),
        named("product", Value::Long(identity.product)),
        named("revision", Value::Long(identity.revision)),
        named("serial", Value::Long(identity.serial)),
    ];
    rows.put("image", &row)?;
    match &listing.chain {
        ListedChain::Complete(categories) => {
            for category in categories {
                let name = if all { name_of(category.kind) } else { None };
                let row = [
                    named("category", category.kind),
                    bare("name", name),
                    named("words", category.words.len()),
                    cell_of(&category.items),
                ];
                rows.put("category", &row)?;
            }
            rows.put("end", &[said("", "end")])?;
            if all {
                put_items(rows, categories)?;
            }
        }
        ListedChain::RunsOut { at } => {
            rows.put("runs_out", &[said("", "runs out"), named("at", *at)])?
        }
    }
    if all { put_head(rows, words) } else { Ok(()) }
}

/// What a category's content is: the number of its items under what they are, or that it is bad.
fn cell_of<'a>(items: &Items) -> Cell<'a> {
    match items {
        Items::Strings(strings) => named("strings", strings.len()),
        Items::Units(units) => named("units", units.len()),
        Items::Managers(managers) => named("managers", managers.len()),
        Items::Pdos(pdos) => named("pdos", pdos.len()),
        Items::Malformed => named("bad", true),
        Items::General | Items::Words => named("words", Value::Absent),
    }
}

/// The name of a category's type (ETG.2010, category types), if it has one.
fn name_of(kind: u16) -> Option<&'static str> {
    Some(match kind {
        0 => "NOP",
        10 => "STRINGS",
        20 => "DataTypes",
        30 => "General",
        40 => "FMMU",
        41 => "SyncM",
        42 => "FmmuX",
        43 => "SyncUnit",
        50 => "TXPDO",
        51 => "RXPDO",
        60 => "DC",
        70 => "Timeouts",
        80 => "Dictionary",
        90 => "Hardware",
        100 => "VendorInformation",
        110 => "Images",
        _ => return None,
    })
}

/// The protocols that the bits of word 0x1C say the mailboxes have, lowest first.
const PROTOCOLS: [&str; 6] = ["aoe", "eoe", "coe", "foe", "soe", "voe"];

/// Puts rows of what the first words of an image say of the PDI, the mailboxes, their protocols, and the EEPROM.
fn put_head(rows: &mut Rows, words: &[u16]) -> Result<(), AllocError> {
    let byte = byte_at(words, 0);
    let word = pdi_of(byte);
    let pdi = [
        said("", "pdi"),
        named("control", Value::Word(word_at(words, 0))),
        named("configuration", Value::Word(word_at(words, 1))),
        named("second", Value::Word(word_at(words, 3))),
        named("impulse", word_at(words, 2)),
        named("type", Value::Kind { word, byte }),
        named("emulation", byte_at(words, 1) % 2 == 1),
    ];
    rows.put("pdi", &pdi)?;
    put_mailbox(rows, words, "bootstrap", 0x14)?;
    put_mailbox(rows, words, "standard", 0x18)?;
    let mut protocols = vec![in rows.alloc();
        said("", "protocols"),
        bare("bits", Value::Word(word_at(words, 0x1c))),
    ]?;
    push_bits(&mut protocols, byte_at(words, 0x38), &PROTOCOLS)?;
    rows.put("protocols", &protocols)?;
    let size = 64 * (usize::from(word_at(words, 0x3e)) + 1);
    let eeprom = [
        said("", "eeprom"),
        named("words", size),
        named("version", word_at(words, 0x3f)),
    ];
    rows.put("eeprom", &eeprom)
}

/// Puts where the mailboxes of this kind lie, as four words say it from this one on: for each way, the address and the length in bytes.
fn put_mailbox(
    rows: &mut Rows,
    words: &[u16],
    kind: &'static str,
    at: usize,
) -> Result<(), AllocError>
    requires { at < 64 }
{
    let row = [
        said("", "mailbox"),
        bare("mailbox", kind),
        named("out", Value::Word(word_at(words, at))),
        bare("out_length", word_at(words, at + 1)),
        named("in", Value::Word(word_at(words, at + 2))),
        bare("in_length", word_at(words, at + 3)),
    ];
    rows.put("mailbox", &row)
}

/// What the PDI of this type is (ETG.1000.4, register 0x0140).
fn pdi_of(byte: u8) -> Option<&'static str> {
    match byte {
        0x00 => Some("none"),
        0x04 => Some("digital-io"),
        0x05 => Some("spi"),
        0x07 => Some("bridge"),
        0x08 => Some("async16"),
        0x09 => Some("async8"),
        0x0a => Some("sync16"),
        0x0b => Some("sync8"),
        0x80 => Some("on-chip"),
        _ => None,
    }
}

/// What the bits of the CoE details enable, lowest first.
const COE: [&str; 6] = [
    "sdo",
    "sdo_info",
    "pdo_assign",
    "pdo_configuration",
    "upload",
    "complete_access",
];

/// What the flags say, lowest first.
const FLAGS: [&str; 5] = ["safeop", "not_lrw", "data_link", "id_status", "id_memory"];

/// Puts what the bits of a category General with these words enable, and what its four ports are, if the words go as far: four bits each, port 0
/// the lowest.
pub(crate) fn put_details(rows: &mut Rows, words: &[u16]) -> Result<(), AllocError> {
    let mut row = vec![in rows.alloc(); said("", "details")]?;
    push_bits(&mut row, byte_at(words, 5), &COE)?;
    push_bits(&mut row, byte_at(words, 6), &["foe"])?;
    push_bits(&mut row, byte_at(words, 7), &["eoe"])?;
    push_bits(&mut row, byte_at(words, 11), &FLAGS)?;
    rows.put("details", &row)?;
    let Some(ports) = words.get(8).copied() else {
        return Ok(());
    };
    let row = [
        said("", "ports"),
        bare("bits", Value::Word(ports)),
        bare("port0", physics_of(ports)),
        bare("port1", physics_of(ports / 16)),
        bare("port2", physics_of(ports / 256)),
        bare("port3", physics_of(ports / 4096)),
    ];
    rows.put("ports", &row)
}

/// Adds which bits of a byte are set, by what they mean, the lowest first.
fn push_bits(
    row: &mut Vec<Cell<'static>>,
    byte: u8,
    meanings: &[&'static str],
) -> Result<(), AllocError> {
    let mut rest = byte;
    for meaning in meanings {
        row.push(named(*meaning, rest % 2 == 1))?;
        rest /= 2;
    }
    Ok(())
}

/// What a port is, by the lowest four bits.
fn physics_of(bits: u16) -> &'static str {
    match bits % 16 {
        0 => "unused",
        1 => "mii",
        3 => "ebus",
        4 => "fast-hot-connect",
        _ => "other",
    }
}

/// The word at this place.
pub(crate) fn word_at(words: &[u16], at: usize) -> u16 {
    words.get(at).copied().unwrap_or(0)
}

/// The byte at this place.
pub(crate) fn byte_at(words: &[u16], at: usize) -> u8 {
    let [low, high] = word_at(words, at / 2).to_le_bytes();
    if at % 2 == 0 { low } else { high }
}

/// The number of two words, from this one on.
pub(crate) fn long_at(words: &[u16], at: usize) -> u32
    requires { at < 64 }
{
    u32::from(word_at(words, at)) + 65536 * u32::from(word_at(words, at + 1))
}
