// The calls on the open files of a line. Each is noted: the contracts of `Asking` say what was asked of which file, and in which order. That a
// call which is noted is the one that is made is read from the four functions that make them.
ghost use Rattle.std.specs.Prelude.{◌≡◌, false, true, length, IfSome};
ghost use Rattle.std.specs.Option.{ForSome};
ghost use Rattle.site_file.specs.Parts.{AreOf, is_of};

use crate::access::RandomAccessFile;
use sii_words::History;
use site_shadow::LinePart;
use std::alloc::AllocError;
use std::io;
use std::snapshot::Snapshot;

/// A file of a line.
#[derive(Clone, Copy)]
pub enum LineFile {
    /// The journal.
    Journal,
    /// The EEPROM image of the slave with this number.
    Image(usize),
}

/// What is asked of an open file (POSIX: fstat, pread, pwrite, fdatasync). Places and lengths are in bytes.
#[derive(Drop)]
pub enum Call {
    /// Its length.
    TellsLength,
    /// Bytes from a place on.
    Reads {
        /// The place.
        at: u64,
        /// The number of bytes.
        count: usize,
    },
    /// To write bytes from a place on.
    Writes {
        /// The place.
        at: u64,
        /// The bytes. They take no memory.
        bytes: History<u8>,
    },
    /// To make durable what was written.
    Syncs,
}

/// One call: which file it was made on, what was asked, and whether it succeeded.
#[derive(Drop)]
pub struct Asked {
    file: LineFile,
    call: Call,
    succeeded: bool,
}

/// All calls of a device so far, and those before its log began. In contracts alone: they take no memory.
#[derive(Drop)]
pub struct Log {
    all: History<Asked>,
    begun: Snapshot<History<Asked>>,
}

/// An open file of a line, and which one it is.
pub struct NamedFile<'f, F> {
    name: LineFile,
    file: &'f F,
}

impl FileLog {
    ghost use Rattle.std.specs.Prelude.{◌↔◌, Some, IsTrue};

    /// Whether it was the device of this part.
    pub fn is_of(&self, part: LinePart) -> bool
        ensures { IsTrue result ↔ self.now.part ≡ Some part }
    {
        match (self.part, part) {
            (Some(LinePart::Disk), LinePart::Disk) | (Some(LinePart::Process), LinePart::Process) =>
                true,
            (Some(LinePart::Slave(own)), LinePart::Slave(slave)) => own == slave,
            _ => false,
        }
    }
}

impl<'f, F> NamedFile<'f, F> {
    /// The file with this name.
    pub fn new(name: LineFile, file: &'f F) -> NamedFile<'f, F>
        ensures name { result.name ≡ name }
        ensures file { result.file.now ≡ file.now }
    {
        NamedFile { name, file }
    }
}

impl<'f, F> Copy for NamedFile<'f, F> {}

impl<'f, F> Clone for NamedFile<'f, F> {
    ghost use Rattle.std.specs.Prelude.{⊤};

    ghost is_infallible = { λ _. ⊤ };

    fn clone(&self) -> Result<Self, AllocError> {
        Ok(*self)
    }
}

/// Notes what a device asks of its files.
#[derive(Drop)]
pub struct Asking {
    calls: Log,
    /// Whether a call was made.
    has_asked: bool,
    /// Whether no call was made before the log began.
    is_first: bool,
    /// The part of the line whose files may be asked. None: each file of the line may be.
    part: Option<LinePart>,
    ghost reported: { has_asked ≡ false → length calls.all ≡ 0 },
    ghost first: { is_first ≡ true → length calls.begun.value ≡ 0 },
    ghost own: { AreOf part calls.all },
}

/// What a device tells of the calls on its files.
#[derive(Drop)]
pub struct FileLog {
    /// All that it asked, in order. None where it stood behind two sites: then its log is not all.
    pub calls: Option<History<Asked>>,
    /// The part of the line whose device it was: it has asked the files of that part alone. None: the line's.
    pub part: Option<LinePart>,
    ghost own: { ForSome calls (AreOf part) },
}

impl Asking {
    ghost use Rattle.std.specs.Prelude.{[], ◌∷◌, is_ok, is_some, not};
    ghost use Rattle.site_file.specs.Calls.{asked, tells_length, reads, writes, syncs};
    ghost use Rattle.site_file.specs.Asking.{HasLog, TellsFiles, Asks, Begins};

    /// No call has been made yet. The files of this part may be asked; for None, each file of the line.
    pub fn new(part: Option<LinePart>) -> Asking
        ensures log { HasLog result.calls [] }
        ensures nothing { result.calls.all ≡ [] }
        ensures first { (result.is_first ≡ true) × (result.has_asked ≡ false) }
        ensures part { result.part ≡ part }
    {
        let all = History::new();
        let begun = Snapshot::of(&all);
        Asking {
            calls: Log { all, begun },
            has_asked: false,
            is_first: true,
            part,
        }
    }

    /// The part of the line whose files may be asked. None: each file of the line may be.
    pub fn part(&self) -> Option<LinePart>
        ensures { result ≡ self.now.part }
    {
        self.part
    }

    /// Whether this file may be asked.
    pub fn is_for(&self, file: LineFile) -> bool
        ensures { result ≡ is_of self.now.part file }
    {
        match (self.part, file) {
            (None, _) | (Some(LinePart::Disk), LineFile::Journal) => true,
            (Some(LinePart::Slave(own)), LineFile::Image(slave)) => own == slave,
            _ => false,
        }
    }

    /// The log begins here. What was asked before is remembered.
    pub fn begin(&mut self)
        ensures begins { Begins self.old.calls self.new.calls }
        ensures first { self.new.is_first ≡ not self.old.has_asked }
        ensures part { self.new.part ≡ self.old.part }
    {
        self.is_first = !self.has_asked;
        self.calls.begun = Snapshot::of(&self.calls.all);
    }

    /// All that was asked, unless a call was made before the log began: then that is not all in it.
    pub fn reported(self) -> FileLog
        ensures tells { TellsFiles self result }
        ensures some { is_some result.calls ≡ self.is_first }
        ensures all { IfSome result.calls (λ log. log ≡ self.calls.all) }
    {
        let part = self.part;
        if self.is_first {
            FileLog {
                calls: Some(self.into_all()),
                part,
            }
        } else {
            drop(self);
            FileLog { calls: None, part }
        }
    }

    /// Everything that was asked, also before the log began.
    fn into_all(self) -> History<Asked>
        ensures all { result ≡ self.calls.all }
        ensures first { self.is_first ≡ true → HasLog self.calls result }
    {
        let Asking { calls, .. } = self;
        let Log { all, begun: _ } = calls;
        all
    }

    /// A call was made, and succeeded or failed.
    fn note(&mut self, file: LineFile, call: Call, succeeded: bool)
        requires { is_of self.old.part file ≡ true }
        ensures asks { Asks self.old.calls self.new.calls (asked file call succeeded ∷ []) }
        ensures first { (self.new.is_first ≡ self.old.is_first) × (self.new.has_asked ≡ true) }
        ensures part { self.new.part ≡ self.old.part }
    {
        self.has_asked = true;
        let made = Asked {
            file,
            call,
            succeeded,
        };
        self.calls.all.note(&made);
    }

    /// Asks for the length of a file, in bytes.
    ///
    /// # Errors
    ///
    /// If the system can't tell it.
    pub fn len<F: RandomAccessFile>(&mut self, of: NamedFile<'_, F>) -> io::Result<u64>
        requires { is_of self.old.part of.name ≡ true }
        ensures part { self.new.part ≡ self.old.part }
        ensures asks { Asks self.old.calls self.new.calls (asked of.entry.name tells_length (is_ok result) ∷ []) }
    {
        let result = of.file.len();
        self.note(of.name, Call::TellsLength, result.is_ok());
        result
    }

    /// Fills `bytes` with those of a file from byte `at` on.
    ///
    /// # Errors
    ///
    /// If they can't be read, or the file ends before them.
    pub fn read<F: RandomAccessFile>(
        &mut self,
        from: NamedFile<'_, F>,
        bytes: &mut [u8],
        at: u64,
    ) -> io::Result<()>
        requires { is_of self.old.part from.name ≡ true }
        ensures part { self.new.part ≡ self.old.part }
        ensures asks { Asks self.old.calls self.new.calls (asked from.entry.name (reads at (length bytes.old)) (is_ok result) ∷ []) }
    {
        let count = bytes.len();
        let result = from.file.read_exact_at(bytes, at);
        self.note(from.name, Call::Reads { at, count }, result.is_ok());
        result
    }

    /// Writes all of `bytes` to a file from byte `at` on.
    ///
    /// # Errors
    ///
    /// If they can't be written. Some of them may have been written then.
    pub fn write<F: RandomAccessFile>(
        &mut self,
        to: NamedFile<'_, F>,
        bytes: &[u8],
        at: u64,
    ) -> io::Result<()>
        requires { is_of self.old.part to.name ≡ true }
        ensures part { self.new.part ≡ self.old.part }
        ensures asks { Asks self.old.calls self.new.calls (asked to.entry.name (writes at bytes.now) (is_ok result) ∷ []) }
    {
        let result = to.file.write_all_at(bytes, at);
        let call = Call::Writes {
            at,
            bytes: noted(bytes),
        };
        self.note(to.name, call, result.is_ok());
        result
    }

    /// Makes what was written to a file durable.
    ///
    /// # Errors
    ///
    /// If that failed. What was written since the last sync may be lost then.
    pub fn sync<F: RandomAccessFile>(&mut self, of: NamedFile<'_, F>) -> io::Result<()>
        requires { is_of self.old.part of.name ≡ true }
        ensures part { self.new.part ≡ self.old.part }
        ensures asks { Asks self.old.calls self.new.calls (asked of.entry.name syncs (is_ok result) ∷ []) }
    {
        let result = of.file.sync_data();
        self.note(of.name, Call::Syncs, result.is_ok());
        result
    }
}

/// These bytes, as a history.
fn noted(bytes: &[u8]) -> History<u8>
    ensures { result ≡ bytes.now }
{
    let mut history = History::new();
    for byte in bytes {
        history.note(byte);
    }
    history
}
