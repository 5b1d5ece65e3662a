//! What the program asks of a store of named files.
ghost use Rattle.std.specs.Prelude.{◌≡◌, ◌⊎◌, ℕ, ⊤, List, Option, None, option_map, IfOk, IfErr, IfSome, OnOk, length, map, string_bytes};
ghost use Rattle.station_files.specs.Faults.{IsOfLock, IsOfStream};
ghost use Rattle.station_files.specs.Files.{HasBytes, ChangesOnly, IsEntryOf, IsNoFile, RefusesFile, RefusesImageFile, ChangesAmong, HoldsAll};
ghost use Rattle.station_files.specs.Locations.{Leads, LeadsTo};

use crate::faults::Fault;
use crate::location::Location;
use crate::notes::{Place, Wrong};
use site_file::RandomAccessFile;
use station_listing::Code;
use std::alloc::Global;
use std::fmt::Display;
use std::io;

/// A store of named files, which are read and written as a whole, or opened for access at byte offsets.
pub trait Store {
    /// A file that is open for reading and writing at byte offsets.
    type File: RandomAccessFile + Send + Sync + Drop;

    /// The lock of a journal's file. No other station gets it while this value lives.
    type Lock: Drop;

    // The contents of each file, by its name, as far as they are known. None: nothing is known. Some None: there is no such file.
    ghost files: { Self → List ℕ → Option (Option (List ℕ)) } = { λ _ _. None };

    // Where each name leads, as far as that is known and stays so. None: nothing is known.
    ghost leads: { Leads } = { λ _. None };

    // The file was opened under this name, and had these bytes then, which a power cut leaves.
    ghost opened: { Self.File → (name bytes : List ℕ) → Type 0 } = { λ _ _ _. ⊤ };

    /// Looks what this name leads to. Nothing of a file is read, and no file changes.
    ///
    /// # Errors
    ///
    /// It leads to a folder, or the system can't tell.
    fn look(&mut self, name: &str) -> io::Result<Entry>
        ensures entry { IfOk result (λ entry. IfSome (files self.old name.now) (λ held. IsEntryOf held entry)) }
        ensures same { files self.new ≡ files self.old };

    /// Reads a whole file; `None` where there is no such file.
    ///
    /// # Errors
    ///
    /// The file can't be read, or memory was refused.
    fn read(&mut self, alloc: Global, name: &str) -> io::Result<Option<Vec<u8>>>
        ensures bytes { IfOk result (λ found. IfSome (files self.old name.now) (λ held.
            option_map (λ bytes. bytes.items) found ≡ held)) }
        ensures same { files self.new ≡ files self.old };

    /// Takes the memory that the next `write` of the file `name` needs, so that it is refused before any of several files is written. No
    /// file changes.
    ///
    /// # Errors
    ///
    /// Memory was refused, or the name can't be resolved.
    fn prepare(&mut self, name: &str) -> io::Result<()>
        ensures same { files self.new ≡ files self.old };

    /// Finds out where a name leads, so that two names of the same file can be recognized. No file changes. A store whose names are whole and
    /// without links answers `Location::of_name`.
    ///
    /// # Errors
    ///
    /// Memory was refused.
    fn locate(&mut self, alloc: Global, name: &str) -> io::Result<Location>
        ensures found { IfOk result (LeadsTo leads name.now) }
        ensures same { files self.new ≡ files self.old };

    /// Makes `bytes` the contents of the file `name`, which is created where it is absent. It is replaced as a whole: a power cut during the
    /// call leaves the old file or the new one. Once the call succeeds, the new contents survive a power cut.
    ///
    /// # Errors
    ///
    /// The file can't be written or synced, or memory was refused. The contract then claims nothing of this file; a file of the
    /// operating system has the old bytes or the new ones.
    fn write(&mut self, name: &str, bytes: &[u8]) -> io::Result<()>
        ensures written { OnOk result (HasBytes (files self.new) name.now bytes.now) }
        ensures others { ChangesOnly (files self.old) (files self.new) name.now };

    /// Opens an existing file, of which `bytes` were read, for access at byte offsets. It is replaced as a whole first, as `write` does, by a
    /// file with these bytes: what was read of the old one may be in the system's memory alone, where a write to the disk failed before,
    /// and a sync that succeeds doesn't show it. So these bytes survive a power cut from then on. A power cut during the call leaves the
    /// old file or the new one. The clauses of other calls know nothing of its contents until it is written as a whole.
    ///
    /// # Errors
    ///
    /// The file is absent, or can't be written, or can't be replaced or synced; or memory was refused.
    fn open(&mut self, name: &str, bytes: &[u8]) -> io::Result<Self::File>
        ensures opened { IfOk result (λ file. opened file name.now bytes.now) }
        ensures others { ChangesOnly (files self.old) (files self.new) name.now };

    /// Opens a file for access at byte offsets, and locks it without waiting until it is closed. An absent file is created, empty. Any
    /// other keeps what it holds.
    ///
    /// # Errors
    ///
    /// `Busy` where another station has the lock; `Io` where the file can't be created, opened for reading and writing, or locked.
    fn create(&mut self, name: &str) -> Result<Self::File, LockFault>
        ensures others { ChangesOnly (files self.old) (files self.new) name.now };

    /// Locks a journal's file without waiting. The lock lasts until it is dropped, or until the process ends. `None` where the file is
    /// absent or can't be opened; reading it then gives the error. Without the lock the file must not be written, even if it can be read.
    ///
    /// # Errors
    ///
    /// `Busy` where another station has the lock; `Io` where the system can't lock the file.
    fn lock(&mut self, name: &str) -> Result<Option<Self::Lock>, LockFault>
        ensures same { files self.new ≡ files self.old };

    /// Notes what is wrong and where, beside the fault or the refusal of this code that is answered next. No file changes. A store that tells
    /// nothing of it keeps this body.
    fn note<T: Display>(&mut self, _code: Code, _place: Place<'_>, _what: &T)
        ensures same { files self.new ≡ files self.old }
    {}
}

/// What a name leads to.
#[derive(Clone, Copy)]
pub enum Entry {
    /// Nothing.
    Absent,
    /// A file.
    File {
        /// Its length, in bytes.
        length: u64,
    },
    /// A pipe, a device or a socket.
    Other,
}

/// Why the lock of a journal was not taken.
#[derive(Drop)]
pub enum LockFault {
    /// Another station has the lock.
    Busy,
    /// The system can't lock the file.
    Io(io::Error),
}

impl From<io::Error> for LockFault {
    fn from(error: io::Error) -> Self {
        LockFault::Io(error)
    }
}

impl From<LockFault> for Fault {
    ghost from_gives = { IsOfLock };

    fn from(fault: LockFault) -> Self {
        match fault {
            LockFault::Busy => Fault::Busy,
            LockFault::Io(error) => Fault::from(error),
        }
    }
}

/// The most bytes of a text: a line file, a script.
pub const MOST_OF_TEXT: u64 = 1 << 26;

/// The most bytes of a journal: its header, and the longest area.
pub const MOST_OF_JOURNAL: u64 = 8 + (1 << 22);

/// The most bytes of an image: 65,536 words, all that an EEPROM's addresses reach.
const MOST_OF_IMAGE: u64 = 1 << 17;

/// Reads a whole file that must exist, and has no more than `most` bytes. Of one that is longer nothing is read.
///
/// # Errors
///
/// `File` where it is absent or can't be read; `NotAFile`; `TooLong`; `Memory`.
pub fn read_file<S: Store>(
    alloc: Global,
    name: &str,
    most: u64,
    store: &mut S,
) -> Result<Vec<u8>, Fault>
    ensures bytes { IfOk result (λ bytes. HasBytes (S.files store.old) name.now bytes.items) }
    ensures refused { IfErr result (RefusesFile most (S.files store.old) name.now) }
    ensures same { S.files store.new ≡ S.files store.old }
{
    match store.look(name)? {
        Entry::File { length } if length > most => {
            store.note(Code::TooLong, Place::File(name), &Wrong::TooLong(length));
            Err(Fault::TooLong)
        }
        entry => read_entry(alloc, name, entry, store),
    }
}

/// Reads a whole image file that must exist. Of one that is longer than any image nothing is read.
///
/// # Errors
///
/// `File` where it is absent or can't be read; `NotAFile`; of one of more than 131,072 bytes `OddLength` or, where they are whole words,
/// `BadSize`; `Memory`.
pub fn read_image_file<S: Store>(alloc: Global, name: &str, store: &mut S) -> Result<Vec<u8>, Fault>
    ensures bytes { IfOk result (λ bytes. HasBytes (S.files store.old) name.now bytes.items) }
    ensures refused { IfErr result (RefusesImageFile (S.files store.old) name.now) }
    ensures same { S.files store.new ≡ S.files store.old }
{
    match store.look(name)? {
        Entry::File { length } if length > MOST_OF_IMAGE && length % 2 == 1 => {
            store.note(Code::OddLength, Place::File(name), &Wrong::TooLong(length));
            Err(Fault::OddLength)
        }
        Entry::File { length } if length > MOST_OF_IMAGE => {
            store.note(Code::BadSize, Place::File(name), &Wrong::TooLong(length));
            Err(Fault::BadSize)
        }
        entry => read_entry(alloc, name, entry, store),
    }
}

/// Reads the whole file that this name leads to, as `entry` tells.
fn read_entry<S: Store>(
    alloc: Global,
    name: &str,
    entry: Entry,
    store: &mut S,
) -> Result<Vec<u8>, Fault>
    requires { IfSome (S.files store.old name.now) (λ held. IsEntryOf held entry) }
    ensures bytes { IfOk result (λ bytes. HasBytes (S.files store.old) name.now bytes.items) }
    ensures refused { IfErr result (λ fault. IsOfStream fault ⊎ IsNoFile (S.files store.old) name.now fault) }
    ensures same { S.files store.new ≡ S.files store.old }
{
    match entry {
        Entry::Absent => Err(Fault::File),
        Entry::Other => {
            store.note(Code::NotAFile, Place::File(name), &Wrong::NotAFile);
            Err(Fault::NotAFile)
        }
        Entry::File { .. } => match store.read(alloc, name)? {
            Some(bytes) => Ok(bytes),
            None => Err(Fault::File),
        },
    }
}

/// Takes the memory that the store needs to write the files of these names. No file changes.
///
/// # Errors
///
/// The first error of the store.
pub fn prepare_files<S: Store>(names: &[String], store: &mut S) -> io::Result<()>
    ensures same { S.files store.new ≡ S.files store.old }
{
    for slave in 0..names.len() {
        store.prepare(names[slave].as_str())?;
    }
    Ok(())
}

/// Writes `files` to the names `images`, each as a whole, one after the other. Requires one name for each file.
///
/// # Errors
///
/// The first error of the store. The files before that one are written.
pub fn write_files<S: Store>(images: &[String], files: &[Vec<u8>], store: &mut S) -> io::Result<()>
    requires { length images.now ≡ length files.now }
    ensures written { OnOk result (HoldsAll (S.files store.new) (map (λ name. string_bytes name) images.now) (map (λ file. file.items) files.now)) }
    ensures others { ChangesAmong (S.files store.old) (S.files store.new) (map (λ name. string_bytes name) images.now) }
{
    for slave in 0..images.len() {
        store.write(images[slave].as_str(), &files[slave])?;
    }
    Ok(())
}
