//! The content of a journal: batches of entries with their runs.

use sii_words::{ItemList, Run};

/// A list of runs.
pub type RunList = ItemList<Run>;

/// A list of entries.
pub type EntryList = ItemList<Entry>;

/// A list of batches.
pub type BatchList = ItemList<Batch>;

/// The layout of a journal's bytes.
#[derive(Clone, Copy, PartialEq, Eq)]
pub enum Form {
    /// Version 1: one area.
    One,
    /// Version 2: an area of two halves.
    Two,
    /// A migration from version 1 to version 2 that a power cut interrupted. Nothing is live.
    Moving,
}

/// The encoding of the batches in an area.
#[derive(Clone, Copy)]
pub enum Spelling {
    /// Version 1: no generation byte.
    Plain,
    /// Version 2: a generation byte follows the gate.
    WithGeneration,
}

/// An accepted command in the journal (a log record): its number, and the words that it changes.
#[derive(Drop)]
pub struct Entry {
    /// The command's number. It is for information, and isn't compared.
    pub number: u64,
    /// The changed words with their new values, 0 to 65,535 runs.
    pub runs: RunList,
}

/// Entries that are written to the journal, and later retired, as one unit of commit.
#[derive(Drop)]
pub struct Batch {
    /// The half of the area that holds the batch, 0 or 1; 0 in version 1.
    pub half: u8,
    /// The generation of that half, modulo 256; 0 in version 1.
    pub generation: u8,
    /// The commands, in the order in which they were accepted; 1 to 65,535 entries.
    pub entries: EntryList,
}

/// The live content of a journal, which recovery has to redo.
#[derive(Drop)]
pub struct Journal {
    /// The layout of the journal's bytes.
    pub form: Form,
    /// The live batches: those of the older half, then those of the newer half.
    pub batches: BatchList,
}
