//! The files of the operating system as a store.

use crate::replacing::{Place, folder_of, holds, locate, look_at, place_of, replace, sync_folder};
use site_file::RandomAccessFile;
use station_files::{Entry, Location, LockFault, MOST_OF_TEXT, Store, read_about};
use std::alloc::Global;
use std::fs::{File, Files, OpenOptions, TryLockError};
use std::os::unix::fs::{FileExt, MetadataExt};
use std::{fs, io};

/// The files of the operating system. A name without a leading slash is relative to the current folder.
#[derive(Drop)]
pub struct FileStore<'r, R> {
    files: &'r R,
    alloc: Global,
    /// The names of the files whose next write takes no memory, and where each is replaced.
    prepared: Vec<(String, Place)>,
    /// The files that replaced others, kept open: each is locked, so the lock of a journal survives its replacement.
    replaced: Vec<File>,
    /// The folders whose names were synced.
    synced: Vec<String>,
    /// The names of the files that were opened. This process wrote all that they hold.
    opened: Vec<String>,
}

/// A file of the operating system, open for reading and writing at byte offsets.
#[derive(Drop)]
pub struct SystemFile {
    file: File,
}

impl<'r, R> FileStore<'r, R> {
    /// A store over the files that `files` gives access to.
    pub fn new(alloc: Global, files: &'r R) -> Self {
        FileStore {
            files,
            alloc,
            prepared: Vec::new(alloc),
            replaced: Vec::new(alloc),
            synced: Vec::new(alloc),
            opened: Vec::new(alloc),
        }
    }
}

impl<R: Files<File = File>> FileStore<'_, R> {
    /// The file of this name, if it is one that this store has put in its place. Its lock is this store's, so no other opening of the file gets it.
    fn written(&self, name: &str) -> io::Result<Option<File>> {
        for file in &self.replaced {
            if is_in_place(self.files, file, name)? {
                return Ok(Some(file.try_clone()?));
            }
        }
        Ok(None)
    }

    /// Syncs the folder of this file, unless it was synced before.
    fn sync_once(&mut self, name: &str) -> io::Result<()> {
        let folder = folder_of(name);
        if self.synced.iter().any(|synced| synced.as_str() == folder) {
            return Ok(());
        }
        sync_folder(self.files, name)?;
        self.synced.push(String::from_str(self.alloc, folder)?)?;
        Ok(())
    }
}

impl<R: Files<File = File>> Store for FileStore<'_, R> {
    type File = SystemFile;

    /// A lock (`flock`) on the file, held until it is dropped.
    type Lock = File;

    fn read(&mut self, alloc: Global, name: &str) -> io::Result<Option<Vec<u8>>> {
        match File::open(self.files, name) {
            Ok(mut file) => {
                // Memory for as many bytes as the system says that it has, and no more than a text has.
                let length = file.metadata()?.len().min(MOST_OF_TEXT);
                read_about(alloc, length as usize, &mut file).map(Some)
            }
            Err(error) if error.kind() == io::ErrorKind::NotFound => Ok(None),
            Err(error) => Err(error),
        }
    }

    fn look(&mut self, name: &str) -> io::Result<Entry> {
        match fs::metadata(self.files, name) {
            Ok(found) if found.is_file() => Ok(Entry::File {
                length: found.len(),
            }),
            Ok(found) if found.is_dir() => Err(io::Error::from(io::ErrorKind::IsADirectory)),
            Ok(_) => Ok(Entry::Other),
            Err(error) if error.kind() == io::ErrorKind::NotFound => Ok(Entry::Absent),
            Err(error) => Err(error),
        }
    }

    fn prepare(&mut self, name: &str) -> io::Result<()> {
        let place = place_of(self.files, self.alloc, name)?;
        look_at(self.files, &place)?;
        let name = String::from_str(self.alloc, name)?;
        self.prepared.push((name, place))?;
        self.replaced.reserve(self.prepared.len())?;
        Ok(())
    }

    fn locate(&mut self, alloc: Global, name: &str) -> io::Result<Location> {
        locate(self.files, alloc, name)
    }

    fn write(&mut self, name: &str, bytes: &[u8]) -> io::Result<()> {
        // Of another file these bytes may be in the system's memory alone, though a sync succeeds.
        if self.opened.iter().any(|opened| opened.as_str() == name) {
            if let Some(file) = holds(self.files, name, bytes) {
                return file.sync_all();
            }
        }
        self.replaced.reserve(1)?;
        let prepared = self
            .prepared
            .iter()
            .find(|(known, _)| known.as_str() == name);
        let file = match prepared {
            Some((_, place)) => replace(self.files, place, bytes)?,
            None => replace(self.files, &place_of(self.files, self.alloc, name)?, bytes)?,
        };
        self.replaced.push(file)?;
        Ok(())
    }

    fn open(&mut self, name: &str, bytes: &[u8]) -> io::Result<SystemFile> {
        let _found = fs::metadata(self.files, name)?;
        let place = place_of(self.files, self.alloc, name)?;
        self.opened.push(String::from_str(self.alloc, name)?)?;
        self.replaced.reserve(1)?;
        let file = replace(self.files, &place, bytes)?;
        self.replaced.push(file.try_clone()?)?;
        self.sync_once(name)?;
        Ok(SystemFile { file })
    }

    fn create(&mut self, name: &str) -> Result<SystemFile, LockFault> {
        let file = OpenOptions::new()
            .read(true)
            .write(true)
            .create(true)
            .open(self.files, name)?;
        take_lock(&file)?;
        Ok(SystemFile { file })
    }

    fn lock(&mut self, name: &str) -> Result<Option<File>, LockFault> {
        // To open a pipe would wait for who writes it.
        if !matches!(self.look(name), Ok(Entry::File { .. })) {
            return Ok(None);
        }
        let written = self.written(name)?;
        let Some(file) = written.or_else(|| File::open(self.files, name).ok()) else {
            return Ok(None);
        };
        take_lock(&file)?;
        if !is_in_place(self.files, &file, name)? {
            return Err(LockFault::Busy);
        }
        // Of a link also the folder that it leads to, so that a power cut keeps these names.
        self.sync_once(name)?;
        let place = place_of(self.files, self.alloc, name)?;
        self.sync_once(place.path.as_str())?;
        Ok(Some(file))
    }
}

/// Locks a file without waiting, until it is closed.
fn take_lock(file: &File) -> Result<(), LockFault> {
    file.try_lock().map_err(|error| match error {
        TryLockError::WouldBlock => LockFault::Busy,
        TryLockError::Error(error) => LockFault::Io(error),
    })
}

/// Whether `name` still names the open file: another station may have replaced it in the meantime.
fn is_in_place<R: Files>(files: &R, file: &File, name: &str) -> io::Result<bool> {
    let found = fs::metadata(files, name)?;
    let opened = file.metadata()?;
    Ok(found.dev() == opened.dev() && found.ino() == opened.ino())
}

impl RandomAccessFile for SystemFile {
    fn len(&self) -> io::Result<u64> {
        Ok(self.file.metadata()?.len())
    }

    fn read_exact_at(&self, bytes: &mut [u8], at: u64) -> io::Result<()> {
        self.file.read_exact_at(bytes, at)
    }

    fn write_all_at(&self, bytes: &[u8], at: u64) -> io::Result<()> {
        self.file.write_all_at(bytes, at)
    }

    fn set_len(&self, length: u64) -> io::Result<()> {
        self.file.set_len(length)
    }

    fn sync_data(&self) -> io::Result<()> {
        self.file.sync_data()
    }
}
