//! The journal's file beside the image files.
ghost use Rattle.std.specs.Prelude.{◌≡◌, ◌++◌, ◌∷◌, [], length, is_ok};
ghost use Rattle.wire_mirror.specs.JournalWrites.{WritesAfterLook};
ghost use Rattle.wire_mirror.specs.declared.journal_file.JournalCall.TheVariants as call;

use crate::images::Images;
use sii_words::History;
use site_file::RandomAccessFile;
use std::io;

/// The journal's file of a line on a wire. It isn't written once an image file couldn't be written or synced: so a batch is retired only once its words
/// are in these files.
#[derive(Drop)]
pub struct JournalFile<'m, F> {
    file: F,
    images: &'m Images<F>,
}

impl<'m, F> JournalFile<'m, F> {
    /// The journal's file, and the image files of its line.
    pub fn new(file: F, images: &'m Images<F>) -> JournalFile<'m, F> {
        JournalFile { file, images }
    }
}

// What is done for a write is noted. That what is noted is what is done is read from `look` and `write_file`.

/// What is done for a write to the journal.
#[derive(Drop)]
enum JournalCall {
    /// It is looked whether a call on an image file has failed. This was found.
    Looks(bool),
    /// The journal's file is written.
    Writes {
        /// The place, in bytes.
        at: u64,
        /// How many bytes.
        count: usize,
        /// Whether that succeeds.
        succeeded: bool,
    },
}

impl<'m, F: RandomAccessFile> JournalFile<'m, F> {
    /// Looks whether a call on an image file has failed.
    fn look(&self, calls: &mut History<JournalCall>) -> bool
        ensures { calls.new ≡ calls.old ++ call.Looks result ∷ [] }
    {
        let found = self.images.has_failed();
        calls.note(&JournalCall::Looks(found));
        found
    }

    /// Writes to the journal's file.
    fn write_file(&self, bytes: &[u8], at: u64, calls: &mut History<JournalCall>) -> io::Result<()>
        ensures { calls.new ≡ calls.old ++ call.Writes at (length bytes.now) (is_ok result) ∷ [] }
    {
        let written = self.file.write_all_at(bytes, at);
        calls.note(&JournalCall::Writes {
            at,
            count: bytes.len(),
            succeeded: written.is_ok(),
        });
        written
    }

    /// Writes to the journal's file, unless a call on an image file has failed.
    fn write_after_look(
        &self,
        bytes: &[u8],
        at: u64,
        calls: &mut History<JournalCall>,
    ) -> io::Result<()>
        ensures { WritesAfterLook at (length bytes.now) result calls.old calls.new }
    {
        if self.look(calls) {
            return Err(io::Error::other("an image file can't be written or synced"));
        }
        self.write_file(bytes, at, calls)
    }
}

impl<'m, F: RandomAccessFile> RandomAccessFile for JournalFile<'m, F> {
    fn len(&self) -> io::Result<u64> {
        self.file.len()
    }

    fn read_exact_at(&self, bytes: &mut [u8], at: u64) -> io::Result<()> {
        self.file.read_exact_at(bytes, at)
    }

    /// Fails too, with nothing written, where an image file couldn't be written or synced.
    fn write_all_at(&self, bytes: &[u8], at: u64) -> io::Result<()> {
        self.write_after_look(bytes, at, &mut History::new())
    }

    fn set_len(&self, length: u64) -> io::Result<()> {
        self.file.set_len(length)
    }

    fn sync_data(&self) -> io::Result<()> {
        self.file.sync_data()
    }
}
