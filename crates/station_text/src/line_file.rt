//! Reads the line file, which names the journal of a line and the image file of each slave.
ghost use Rattle.std.specs.Prelude.{◌≡◌, ◌≤◌, length, vec_len, string_bytes, codes, map, Some, IsSomeAnd};
ghost use Rattle.std.specs.List.{AllZip};
ghost use Rattle.toml.specs.Data.{get_member};
ghost use Rattle.toml.specs.Parse.{parse_document};
ghost use Rattle.toml.specs.View.{view, table_view};
ghost use Rattle.station_text.specs.Document.{text_at, values_at};
ghost use Rattle.station_text.specs.LineText.{AreImages, Describes, IsArea, NamesImage};
ghost use Rattle.station_text.specs.Reading.{Reads};

use crate::document::{find, find_text, find_values, has_only, read_document};
use crate::fault::{ValueFault, needed};
use crate::flaws::{TextTrouble, trouble_of};
use sii_words::MAX_SLAVES;
use std::alloc::Global;
use thiserror::Error;
use toml::{Table, Value};

/// The size of the journal's area in bytes if the line file has no key `area`.
const DEFAULT_AREA: u32 = 65_536;

/// The content of a line file.
#[derive(Drop)]
pub struct LineFile {
    /// The name of the journal's file.
    pub journal: String,
    /// The size of the journal's area in bytes: 4,096 to 4,194,304.
    pub area: u32,
    /// The name of each slave's image file, in the order of the line: 1 to 64 of them.
    pub images: Vec<String>,
    ghost area_least: { 4096 ≤ area },
    ghost area_most: { area ≤ 4194304 },
    ghost some_slave: { 1 ≤ vec_len images },
    ghost slaves_most: { vec_len images ≤ 64 },
}

/// Why a text gives no line file.
#[derive(Debug, Drop, Error)]
pub enum LineFault {
    /// Memory was refused.
    #[error("out of memory")]
    Memory,
    /// The text is not a line file. What is wrong there is reported, unless memory was refused for that.
    #[error("the text is no line file")]
    BadLine(Option<TextTrouble>),
}

/// Reads a line file in TOML: the key `journal`, an optional key `area`, an array of 1 to 64 tables `slave`, each with the key `image`, and no
/// other keys. Without `area` the area has 65,536 bytes.
///
/// # Errors
///
/// `BadLine` where the text is not TOML, or has other keys, lacks a key, or has a value of the wrong type or out of range; `Memory` at any
/// point.
pub fn read_line(alloc: Global, text: &str) -> Result<LineFile, LineFault>
    ensures { Reads LineFault.Memory (λ line. line) (λ line.
        IsSomeAnd (parse_document text.now) (λ document. Describes document line.journal line.area line.images.items)) result }
{
    match line_in(alloc, text) {
        Ok(line) => Ok(line),
        Err(ValueFault::Memory) => Err(LineFault::Memory),
        Err(ValueFault::Malformed | ValueFault::BadCommand(_)) => {
            Err(LineFault::BadLine(trouble_of(alloc, text, None).ok()))
        }
    }
}

/// The line that a text describes.
fn line_in(alloc: Global, text: &str) -> Result<LineFile, ValueFault>
    ensures { Reads ValueFault.Memory (λ line. line) (λ line.
        IsSomeAnd (parse_document text.now) (λ document. Describes document line.journal line.area line.images.items)) result }
{
    let table = read_document(alloc, text)?;
    line_of(alloc, &table)
}

fn line_of(alloc: Global, table: &Table) -> Result<LineFile, ValueFault>
    ensures { Reads ValueFault.Memory (λ line. line) (λ line.
        Describes (table_view table.now) line.journal line.area line.images.items) result }
{
    if !has_only(table, &["journal", "area", "slave"]) {
        return Err(ValueFault::Malformed);
    }
    let journal = read_name(alloc, table, "journal")?;
    let area = read_area(table)?;
    let images = read_images(alloc, table)?;
    Ok(LineFile {
        journal,
        area,
        images,
    })
}

/// The file name at a key.
fn read_name(alloc: Global, table: &Table, key: &str) -> Result<String, ValueFault>
    ensures { Reads ValueFault.Memory (λ name. name) (λ name. text_at key.now (table_view table.now) ≡ Some (string_bytes name)) result }
{
    let name = needed!(find_text(table, key));
    Ok(String::from_str(alloc, name)?)
}

fn read_area(table: &Table) -> Result<u32, ValueFault>
    ensures { Reads ValueFault.Memory (λ area. area) (IsArea (get_member (codes "area") (table_view table.now))) result }
{
    let Some(value) = find(table, "area") else {
        return Ok(DEFAULT_AREA);
    };
    match u32::try_from(needed!(value.as_integer())) {
        Ok(area @ 4_096..=4_194_304) => Ok(area),
        _ => Err(ValueFault::Malformed),
    }
}

fn read_images(alloc: Global, table: &Table) -> Result<Vec<String>, ValueFault>
    ensures { Reads ValueFault.Memory (λ images. images.items) (λ images.
        IsSomeAnd (values_at (codes "slave") (table_view table.now)) (λ slaves. AreImages slaves images)) result }
{
    read_image_names(alloc, needed!(find_values(table, "slave")))
}

/// The image file names of 1 to 64 slaves.
fn read_image_names(alloc: Global, slaves: &[Value]) -> Result<Vec<String>, ValueFault>
    ensures { Reads ValueFault.Memory (λ images. images.items) (AreImages (map view slaves.now)) result }
{
    if slaves.is_empty() || slaves.len() > MAX_SLAVES {
        return Err(ValueFault::Malformed);
    }
    let mut images = Vec::with_capacity(alloc, slaves.len())?;
    for slave in slaves {
        images.push(read_image_name(alloc, slave)?)?;
    }
    Ok(images)
}

/// The image file name of one slave.
fn read_image_name(alloc: Global, slave: &Value) -> Result<String, ValueFault>
    ensures { Reads ValueFault.Memory (λ name. name) (NamesImage (view slave.now)) result }
{
    match slave.as_table() {
        Some(table) if has_only(table, &["image"]) => read_name(alloc, table, "image"),
        _ => Err(ValueFault::Malformed),
    }
}
