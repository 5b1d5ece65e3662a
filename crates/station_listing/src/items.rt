//! Reads the content of a category into its items, by the type of the category.
ghost use Rattle.std.specs.Prelude.{◌≡◌, ◌≢◌, ◌↔◌, IfOk, IsTrue};
ghost use Rattle.station_listing.specs.ImageListing.{IsPdoType, SaysItems};

use sii_cats::{CatFault, FmmuUnit, Manager, Pdo, fmmus, pdos, strings, syncms};
use std::alloc::{AllocError, Global};

/// The items in the content of a category.
#[derive(Drop)]
pub enum Items {
    /// The strings of a category STRINGS (type 10), string 1 first.
    Strings(Vec<Vec<u8>>),
    /// A category General (type 30) of at least seven words.
    General,
    /// The units of a category FMMU (type 40), FMMU 0 first.
    Units(Vec<FmmuUnit>),
    /// The sync managers of a category SyncM (type 41), number 0 first.
    Managers(Vec<Manager>),
    /// The PDOs of a category TXPDO or RXPDO (types 50 and 51), in order.
    Pdos(Vec<Pdo>),
    /// A content of type 10, 50 or 51 that can't be read.
    Malformed,
    /// A content of any other type, or a category General of fewer than seven words: only its words are known.
    Words,
}

/// Reads the items in the content of a category of type `kind`.
pub(crate) fn read_items(alloc: Global, kind: u16, words: &[u16]) -> Result<Items, AllocError>
    ensures { IfOk result (SaysItems kind words.now) }
{
    match kind {
        10 => read_strings(alloc, words),
        30 if words.len() >= 7 => Ok(Items::General),
        40 => Ok(Items::Units(fmmus(alloc, words)?)),
        41 => Ok(Items::Managers(syncms(alloc, words)?)),
        50 | 51 => read_pdos(alloc, kind, words),
        _ => Ok(Items::Words),
    }
}

fn read_strings(alloc: Global, words: &[u16]) -> Result<Items, AllocError>
    ensures { IfOk result (SaysItems 10 words.now) }
{
    match strings(alloc, words) {
        Ok(found) => Ok(Items::Strings(found)),
        Err(CatFault::Memory) => Err(AllocError),
        Err(_) => Ok(Items::Malformed),
    }
}

fn read_pdos(alloc: Global, kind: u16, words: &[u16]) -> Result<Items, AllocError>
    requires { IsPdoType kind }
    ensures { IfOk result (SaysItems kind words.now) }
{
    match pdos(alloc, kind, words) {
        Ok(found) => Ok(Items::Pdos(found)),
        Err(CatFault::Memory) => Err(AllocError),
        Err(_) => Ok(Items::Malformed),
    }
}

impl Items {
    /// Whether the content is read.
    pub fn are_read(&self) -> bool
        ensures { IsTrue result ↔ ((self.now ≢ Items.Malformed) × (self.now ≢ Items.Words)) }
    {
        !matches!(self, Items::Malformed | Items::Words)
    }

    /// Whether the content should be readable, and isn't.
    pub fn are_malformed(&self) -> bool
        ensures { IsTrue result ↔ (self.now ≡ Items.Malformed) }
    {
        matches!(self, Items::Malformed)
    }
}
