//! What one slave adds to a process image.

ghost use Rattle.std.specs.Prelude.{◌≡◌, ◌≤◌, drop, length, slice_set, IfOk, IsTrue};
ghost use Rattle.sii_image.specs.ProcessData.{rows_of};

use crate::process_data::rows_of_words;
use crate::rows::Row;
use sii_cats::FIRST_HEADER;
use sii_words::Words;
use std::alloc::{AllocError, Global};
use std::marker::Model;
use std::snapshot::Snapshot;

/// A new alias of a slave: the new values of words 4 and 7.
#[derive(Clone, Copy)]
struct Name {
    alias: u16,
    seven: u16,
}

/// What one slave adds to a process image, read from the SyncM, TXPDO and RXPDO categories of its EEPROM (ETG.1000.6 and
/// ETG.2010). In contracts its value is the list of the slave's words; in memory it holds none of them.
#[derive(Drop)]
pub struct SlaveLayout {
    rows: Vec<Row>,
    contents: Snapshot<Words>,
    name: Option<Name>,
}

impl Model for SlaveLayout {
    ghost use Rattle.std.specs.Prelude.{ℕ, List, ◌≡◌};
    ghost use Rattle.sii_image.specs.ProcessData.{rows_of};
    ghost use Rattle.sii_image.specs.Named.{named};

    ghost Value = { List ℕ };

    ghost view = { λ slave. named slave.contents.value slave.name };

    ghost invariant = { λ slave. slave.rows.items ≡ rows_of (named slave.contents.value slave.name) };
}

fn have_same_categories(old: &[u16], new: &[u16]) -> bool
    requires old { 64 ≤ length old.now }
    requires new { 64 ≤ length new.now }
    ensures { IsTrue result → drop 64 old.now ≡ drop 64 new.now }
{
    old[FIRST_HEADER..] == new[FIRST_HEADER..]
}

fn copied(alloc: Global, rows: &[Row]) -> Result<Vec<Row>, AllocError>
    ensures { IfOk result (λ copy. copy.items ≡ rows.now) }
{
    rows.to_vec(alloc)
}

impl SlaveLayout {
    /// Reads the layout of a slave from its words. A slave whose categories can't be read adds nothing.
    ///
    /// # Errors
    ///
    /// `AllocError` if memory was refused.
    pub fn of(alloc: Global, words: &Words) -> Result<SlaveLayout, AllocError>
        ensures { IfOk result (λ slave. slave ≡ words.now) }
    {
        Ok(SlaveLayout {
            rows: rows_of_words(alloc, words.as_slice())?,
            contents: Snapshot::of(words),
            name: None,
        })
    }

    /// The layout of the slave with new words. `old` must be the words of this layout. The categories are read only if they
    /// differ from the old ones.
    ///
    /// # Errors
    ///
    /// `AllocError` if memory was refused.
    pub fn changed(
        &self,
        alloc: Global,
        old: &Words,
        new: &Words,
    ) -> Result<SlaveLayout, AllocError>
        requires { self.now ≡ old.now }
        ensures { IfOk result (λ slave. slave ≡ new.now) }
    {
        if !have_same_categories(old.as_slice(), new.as_slice()) {
            return SlaveLayout::of(alloc, new);
        }
        Ok(SlaveLayout {
            rows: copied(alloc, self.rows())?,
            contents: Snapshot::of(new),
            name: None,
        })
    }

    /// The layout of the slave with a new alias in word 4 and `seven` in word 7. `old` must be the words of this layout.
    /// Categories begin at word 64, so none is read.
    ///
    /// # Errors
    ///
    /// `AllocError` if memory was refused.
    pub fn renamed(
        &self,
        alloc: Global,
        old: &Words,
        alias: u16,
        seven: u16,
    ) -> Result<SlaveLayout, AllocError>
        requires { self.now ≡ old.now }
        ensures { IfOk result (λ slave. slave ≡ slice_set (slice_set old.now 4 alias) 7 seven) }
    {
        Ok(SlaveLayout {
            rows: copied(alloc, SlaveLayout::rows(self))?,
            contents: Snapshot::of(old),
            name: Some(Name { alias, seven }),
        })
    }

    pub(crate) fn rows(&self) -> &[Row]
        ensures { result.now ≡ rows_of self.now }
    {
        &self.rows
    }
}
