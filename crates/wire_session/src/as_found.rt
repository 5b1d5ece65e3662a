//! A line as it was found on a wire.

use sii_words::Words;
use station_text::LineFile;

/// A line as it was found on a wire, before work on it begins.
#[derive(Drop)]
pub(crate) struct AsFound<'a> {
    /// The line file.
    pub(crate) line: &'a LineFile,
    /// The words of the slaves, in the order of the line.
    pub(crate) slaves: &'a [Words],
    /// The words that their image files are to hold as the work begins.
    pub(crate) images: &'a [Words],
    /// The bytes of the journal's file.
    pub(crate) journal: Vec<u8>,
}
