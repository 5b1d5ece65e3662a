//! The items of an EEPROM image, each as a row with the strings that it refers to.

use crate::cell::{Cell, bare, named, said};
use crate::image::{byte_at, long_at, put_details, word_at};
use crate::rows::{Row, Rows};
use crate::value::Value;
use sii_cats::{FmmuUnit, FmmuUse, Manager, Pdo, kind};
use station_listing::{Items, ListedCategory};
use std::alloc::{AllocError, Global};

/// The type of a category DC.
const CLOCKS: u16 = 60;

/// An item as a row.
#[derive(Drop)]
pub struct Line<'a> {
    /// What the row is.
    row: &'static str,
    /// What the item is, as it is printed. No two items of a category have the same, unless two PDOs have the same index.
    pub item: String,
    /// What the item is, and what is said of it.
    pub cells: Vec<Cell<'a>>,
    /// How many of the cells say what the item is.
    pub labels: usize,
}

/// The lines of a category in the making.
#[derive(Drop)]
struct Lines<'a> {
    alloc: Global,
    kind: u16,
    strings: &'a [Vec<u8>],
    lines: Vec<Line<'a>>,
}

/// The strings that items refer to: those of the first category STRINGS, where it can be read.
fn strings_in(categories: &[ListedCategory]) -> &[Vec<u8>] {
    let mut all = categories.iter();
    let first = all.find(|category| category.kind == kind::STRINGS);
    match first.map(|category| &category.items) {
        Some(Items::Strings(strings)) => strings.as_slice(),
        _ => &[],
    }
}

/// Puts a row for each item of these categories, and what General says in words.
pub(crate) fn put_items(rows: &mut Rows, categories: &[ListedCategory]) -> Result<(), AllocError> {
    for category in categories {
        for line in lines_of(rows.alloc(), categories, category)? {
            rows.put(line.row, &line.cells)?;
        }
        if matches!(&category.items, Items::General) {
            put_details(rows, &category.words)?;
        }
    }
    Ok(())
}

/// The items of one of these categories, a line for each; none where its content isn't read.
pub fn lines_of<'a>(
    alloc: Global,
    categories: &'a [ListedCategory],
    category: &'a ListedCategory,
) -> Result<Vec<Line<'a>>, AllocError> {
    let mut lines = Lines {
        alloc,
        kind: category.kind,
        strings: strings_in(categories),
        lines: Vec::new(alloc),
    };
    match &category.items {
        Items::Strings(strings) => lines.push_strings(strings)?,
        Items::General => lines.push_general(&category.words)?,
        Items::Units(units) => lines.push_units(units)?,
        Items::Managers(managers) => lines.push_managers(managers)?,
        Items::Pdos(pdos) => lines.push_pdos(pdos)?,
        Items::Words if category.kind == CLOCKS => lines.push_modes(&category.words)?,
        Items::Malformed | Items::Words => {}
    }
    Ok(lines.lines)
}

impl<'a> Lines<'a> {
    /// Adds the line of an item: `labels` say which one it is.
    fn push(
        &mut self,
        row: &'static str,
        labels: &[Cell<'a>],
        said: &[Cell<'a>],
    ) -> Result<(), AllocError> {
        let label = Row {
            name: row,
            cells: &*labels,
        };
        let item = format!(in self.alloc; "{label}")?;
        let mut cells = labels.to_vec(self.alloc)?;
        cells.extend_from_slice(said)?;
        let labels = labels.len();
        self.lines.push(Line {
            row,
            item,
            cells,
            labels,
        })?;
        Ok(())
    }

    /// A reference to the string of this number, from 1.
    fn name(&self, number: u8) -> Value<'a> {
        let string = self.strings.get(usize::from(number).wrapping_sub(1));
        Value::Name(number, string.map(|string| string.as_slice()))
    }

    fn push_strings(&mut self, strings: &'a [Vec<u8>]) -> Result<(), AllocError> {
        for (place, string) in strings.iter().enumerate() {
            let label = named("string", place.saturating_add(1));
            self.push("string", &[label], &[bare("text", Value::String(string))])?;
        }
        Ok(())
    }

    /// Adds what the first fourteen bytes of a category General say (ETG.2010), without byte 4, which is reserved.
    fn push_general(&mut self, words: &[u16]) -> Result<(), AllocError> {
        let said_of = [
            named("group", self.name(byte_at(words, 0))),
            named("image", self.name(byte_at(words, 1))),
            named("order", self.name(byte_at(words, 2))),
            named("name", self.name(byte_at(words, 3))),
            named("coe", Value::Byte(byte_at(words, 5))),
            named("foe", Value::Byte(byte_at(words, 6))),
            named("eoe", Value::Byte(byte_at(words, 7))),
            named("soe", byte_at(words, 8)),
            named("ds402", byte_at(words, 9)),
            named("sysman", byte_at(words, 10)),
            named("flags", Value::Byte(byte_at(words, 11))),
            named("current", signed(word_at(words, 6))),
        ];
        self.push("general", &[said("", "general")], &said_of)
    }

    fn push_units(&mut self, units: &[FmmuUnit]) -> Result<(), AllocError> {
        for (place, unit) in units.iter().enumerate() {
            let word = match unit.usage() {
                FmmuUse::Unused => Some("unused"),
                FmmuUse::Outputs => Some("outputs"),
                FmmuUse::Inputs => Some("inputs"),
                FmmuUse::SyncManagerStatus => Some("status"),
                FmmuUse::Other => None,
            };
            let byte = unit.byte;
            let usage = bare("usage", Value::Kind { word, byte });
            self.push("fmmu", &[named("fmmu", place)], &[usage])?;
        }
        Ok(())
    }

    fn push_managers(&mut self, managers: &[Manager]) -> Result<(), AllocError> {
        for (place, manager) in managers.iter().enumerate() {
            let byte = manager.kind;
            let word = match byte {
                0 => Some("unused"),
                1 => Some("mailbox-out"),
                2 => Some("mailbox-in"),
                3 => Some("outputs"),
                4 => Some("inputs"),
                _ => None,
            };
            let said_of = [
                named("type", Value::Kind { word, byte }),
                named("start", Value::Word(manager.start)),
                named("length", manager.length),
                named("control", Value::Byte(manager.control)),
                named("status", Value::Byte(manager.status)),
                named("enable", Value::Byte(manager.enable)),
            ];
            self.push("sm", &[named("sm", place)], &said_of)?;
        }
        Ok(())
    }

    fn push_pdos(&mut self, pdos: &[Pdo]) -> Result<(), AllocError> {
        let (pdo_row, entry_row) = match self.kind {
            kind::TXPDOS => ("txpdo", "txpdo_entry"),
            _ => ("rxpdo", "rxpdo_entry"),
        };
        for pdo in pdos {
            let [head, index] = [said("", pdo_row), bare("index", Value::Word(pdo.index))];
            let manager = match pdo.manager {
                0xFF => Value::Null,
                number => number.into(),
            };
            let said_of = [
                named("entries", pdo.entries.len()),
                named("sm", manager),
                named("sync", pdo.synchronization),
                named("flags", Value::Word(pdo.flags)),
                named("name", self.name(pdo.name)),
            ];
            self.push(pdo_row, &[head, index], &said_of)?;
            for (place, entry) in pdo.entries.iter().enumerate() {
                let said_of = [
                    named("object", Value::Object(entry.index, entry.subindex)),
                    named("type", Value::Byte(entry.data_type)),
                    named("bits", entry.bit_length),
                    named("flags", Value::Word(entry.flags)),
                    named("name", self.name(entry.name)),
                ];
                let number = named("entry", place.saturating_add(1));
                self.push(entry_row, &[head, index, number], &said_of)?;
            }
        }
        Ok(())
    }

    /// Adds the operation modes of a category DC (ETG.2010), of twelve words each: times in nanoseconds, of SYNC0 and SYNC1. Words after the
    /// last whole one are ignored.
    fn push_modes(&mut self, words: &[u16]) -> Result<(), AllocError> {
        for (place, mode) in words.chunks_exact(12).enumerate() {
            let said_of = [
                named("cycle0", long_at(mode, 0)),
                named("shift0", long_at(mode, 2)),
                named("shift1", long_at(mode, 4)),
                named("factor1", signed(word_at(mode, 6))),
                named("activate", Value::Word(word_at(mode, 7))),
                named("factor0", signed(word_at(mode, 8))),
                named("name", self.name(byte_at(mode, 18))),
                named("description", self.name(byte_at(mode, 19))),
            ];
            self.push("dc", &[named("dc", place)], &said_of)?;
        }
        Ok(())
    }
}

/// A word as a number in two's complement.
fn signed<'a>(word: u16) -> Value<'a> {
    Value::Signed(i16::from_le_bytes(word.to_le_bytes()))
}
