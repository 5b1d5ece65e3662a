//! The open image files of the slaves on a wire.
ghost use Rattle.std.specs.Prelude.{◌≡◌, ◌++◌, ◌∷◌, [], Some, slice_get};
ghost use Rattle.site_file.specs.Owned.{file_at};
ghost use Rattle.wire_mirror.specs.Mirroring.{PutsWord, SyncsFile, SyncsMarked};
ghost use Rattle.wire_mirror.specs.declared.images.ImageCall.TheVariants as call;

use esc_model::WordWrite;
use sii_words::History;
use site_file::RandomAccessFile;
use std::sync::atomic::Ordering::SeqCst;
use std::sync::atomic::{AtomicBool, AtomicU64};

/// The open image files of 1 to 64 slaves on a wire, in the order of the line. Each part of the line may have them in a thread of its own.
#[derive(Drop)]
pub struct Images<F> {
    files: Vec<Option<F>>,
    /// Bit i stands for file i, which was written and not synced since.
    unsynced: AtomicU64,
    /// Whether a call on a file has failed. From then on the journal isn't written: what a later sync shows wouldn't count.
    has_failed: AtomicBool,
}

// What is done with image files. Each is noted: contracts say what was done with which file, at which place, and in which order. That what is noted is
// what is done is read from the five functions that do it: `mark`, `take_marks`, `write_at`, `sync_file` and `fail`.

/// What is done with the image files of a line.
#[derive(Drop)]
pub enum ImageCall {
    /// Two bytes are written to the file of a slave from a place on.
    Writes {
        /// The slave.
        slave: usize,
        /// The place, in bytes.
        at: u64,
        /// The bytes.
        bytes: [u8; 2],
        /// Whether that succeeds.
        succeeded: bool,
    },
    /// The file of this slave is marked as unsynced.
    Marks(usize),
    /// The marks of all files are taken away: bit i stands for file i.
    TakesMarks(u64),
    /// The file of a slave is synced.
    Syncs {
        /// The slave.
        slave: usize,
        /// Whether that succeeds.
        succeeded: bool,
    },
    /// From now on each look finds that a call has failed.
    Fails,
}

impl<F> Images<F> {
    /// These files, which are synced.
    pub fn new(files: Vec<Option<F>>) -> Images<F> {
        Images {
            files,
            unsynced: AtomicU64::new(0),
            has_failed: AtomicBool::new(false),
        }
    }

    /// Whether a call on a file has failed.
    pub(crate) fn has_failed(&self) -> bool {
        self.has_failed.load(SeqCst)
    }

    /// Marks the file of a slave as unsynced.
    fn mark(&self, slave: usize, calls: &mut History<ImageCall>)
        ensures { calls.new ≡ calls.old ++ call.Marks slave ∷ [] }
    {
        self.unsynced.fetch_or(1u64 << (slave % 64), SeqCst);
        calls.note(&ImageCall::Marks(slave));
    }

    /// Takes the marks of all files away.
    fn take_marks(&self, calls: &mut History<ImageCall>) -> u64
        ensures { calls.new ≡ calls.old ++ call.TakesMarks result ∷ [] }
    {
        let unsynced = self.unsynced.swap(0, SeqCst);
        calls.note(&ImageCall::TakesMarks(unsynced));
        unsynced
    }

    /// Lets each look from now on find that a call has failed.
    fn fail(&self, calls: &mut History<ImageCall>)
        ensures { calls.new ≡ calls.old ++ call.Fails ∷ [] }
    {
        self.has_failed.store(true, SeqCst);
        calls.note(&ImageCall::Fails);
    }
}

impl<F: RandomAccessFile> Images<F> {
    /// Writes a word at its place in the file of a slave, the low byte first, and marks the file as unsynced.
    pub(crate) fn put(&self, slave: usize, write: WordWrite, calls: &mut History<ImageCall>)
        ensures { PutsWord (file_at (slice_get self.now.files.items slave)) slave write calls.old calls.new }
    {
        let Some(Some(file)) = self.files.get(slave) else {
            return;
        };
        let place = u64::from(write.word) * 2;
        if self.write_at(file, slave, place, write.value.to_le_bytes(), calls) {
            self.mark(slave, calls);
        } else {
            self.fail(calls);
        }
    }

    /// Writes two bytes to the file of a slave from byte `at` on.
    fn write_at(
        &self,
        file: &F,
        slave: usize,
        at: u64,
        bytes: [u8; 2],
        calls: &mut History<ImageCall>,
    ) -> bool
        requires { file_at (slice_get self.now.files.items slave) ≡ Some file.now }
        ensures { calls.new ≡ calls.old ++ call.Writes slave at bytes result ∷ [] }
    {
        let succeeded = file.write_all_at(&bytes, at).is_ok();
        calls.note(&ImageCall::Writes {
            slave,
            at,
            bytes,
            succeeded,
        });
        succeeded
    }

    /// Syncs each file that is marked as unsynced.
    pub(crate) fn sync(&self, calls: &mut History<ImageCall>)
        ensures { SyncsMarked self.now.files.items calls.old calls.new }
    {
        let unsynced = self.take_marks(calls);
        for slave in 0..self.files.len() {
            self.sync_marked(slave, unsynced, calls);
        }
    }

    /// Syncs the file of a slave, if it is marked.
    fn sync_marked(&self, slave: usize, unsynced: u64, calls: &mut History<ImageCall>)
        ensures { SyncsFile unsynced slave (file_at (slice_get self.now.files.items slave)) calls.old calls.new }
    {
        let Some(Some(file)) = self.files.get(slave) else {
            return;
        };
        if (unsynced >> (slave % 64)) % 2 == 1 {
            if !self.sync_file(file, slave, calls) {
                self.fail(calls);
            }
        }
    }

    /// Syncs the file of a slave.
    fn sync_file(&self, file: &F, slave: usize, calls: &mut History<ImageCall>) -> bool
        requires { file_at (slice_get self.now.files.items slave) ≡ Some file.now }
        ensures { calls.new ≡ calls.old ++ call.Syncs slave result ∷ [] }
    {
        let succeeded = file.sync_data().is_ok();
        calls.note(&ImageCall::Syncs { slave, succeeded });
        succeeded
    }
}
