//! Replaces a file of the operating system as a whole, so that a power cut leaves the old file or the new one.
ghost use Rattle.std.specs.Prelude.{◌≡◌, string_bytes, IfOk};

use station_files::{FileId, Location, name_beside};
use std::alloc::Global;
use std::fs::{File, Files, Metadata, OpenOptions, Permissions};
use std::io::Read;
use std::os::fd::AsFd;
use std::os::unix::fs::{MetadataExt, OpenOptionsExt, PermissionsExt, fchown};
use std::{fs, io};

/// The number of bytes of a file that are compared at a time.
const PIECE: usize = 512;

/// How many symbolic links lead from one to the next at most.
const MOST_LINKS: u32 = 40;

/// The mark of a file that this program makes, until it is in its place: the sticky bit, which means nothing for a file.
const MARK: u32 = 0o1000;

/// The bits of a mode that can be set.
const ALL_BITS: u32 = 0o7777;

/// The mode of a new file, of which the process takes away those of its mask.
const NEW_MODE: u32 = 0o666;

/// Where a file is replaced. Once this is made, replacing the file takes no memory.
#[derive(Drop)]
pub(crate) struct Place {
    /// The file's name, which is not a symbolic link.
    pub(crate) path: String,
    /// The name of the new file, until it is renamed.
    beside: String,
}

/// Opens the file `name` for reading if it has exactly these bytes. Takes no memory.
pub(crate) fn holds<R: Files<File = File>>(files: &R, name: &str, bytes: &[u8]) -> Option<File> {
    let mut file = File::open(files, name).ok()?;
    is_rest(&mut file, bytes).ok()?.then_some(file)
}

/// Whether what is left to read is exactly these bytes.
fn is_rest<R: Read>(input: &mut R, bytes: &[u8]) -> io::Result<bool> {
    let mut buffer = [0u8; PIECE];
    for piece in bytes.chunks(PIECE) {
        let count = piece.len().min(PIECE);
        let found = &mut buffer[..count];
        input.read_exact(found)?;
        if &*found != piece {
            return Ok(false);
        }
    }
    Ok(input.read(&mut buffer)? == 0)
}

/// Where the file `name` is replaced, or created. Of a symbolic link that is the file that it points to, also where that isn't there yet.
pub(crate) fn place_of<R: Files<File = File>>(
    files: &R,
    alloc: Global,
    name: &str,
) -> io::Result<Place> {
    let path = entire_name(files, alloc, name)?;
    let beside = name_beside(alloc, path.as_str())?;
    Ok(Place { path, beside })
}

/// The whole name of a file, in which no link is left. Where there is no such file, it is the name that the file would get. It fails where the
/// name leads nowhere: through a file that is no folder, or through links in a circle.
fn entire_name<R: Files<File = File>>(files: &R, alloc: Global, name: &str) -> io::Result<String> {
    let mut path = String::from_str(alloc, name)?;
    for _link in 0..MOST_LINKS {
        match files.canonicalize(alloc, path.as_str()) {
            Ok(found) => return Ok(found.into_string()),
            Err(error) if error.kind() == io::ErrorKind::NotFound => {}
            Err(error) => return Err(error),
        }
        match after_link(files, alloc, path.as_str())? {
            Some(after) => path = after,
            None => return in_entire_folder(files, alloc, path.as_str()),
        }
    }
    Err(io::Error::other("too many links"))
}

/// Where a symbolic link leads; `None` where there is no link of this name.
fn after_link<R: Files<File = File>>(
    files: &R,
    alloc: Global,
    name: &str,
) -> io::Result<Option<String>> {
    match fs::symlink_metadata(files, name) {
        Ok(found) if found.is_symlink() => {}
        _ => return Ok(None),
    }
    let target = files.read_link(alloc, name)?.into_string();
    match name.rsplit_once('/') {
        Some((folder, _)) if !target.as_str().starts_with('/') => {
            Ok(Some(format!(in alloc; "{folder}/{target}")?))
        }
        _ => Ok(Some(target)),
    }
}

/// The whole name of a file that isn't there, in which no link is left.
fn in_entire_folder<R: Files<File = File>>(
    files: &R,
    alloc: Global,
    name: &str,
) -> io::Result<String> {
    let last = name.rsplit_once('/').map_or(name, |(_, last)| last);
    match files.canonicalize(alloc, folder_of(name)) {
        Ok(found) => {
            let folder = found.as_str();
            let folder = folder.strip_suffix('/').unwrap_or(folder);
            Ok(format!(in alloc; "{folder}/{last}")?)
        }
        Err(error) if error.kind() == io::ErrorKind::OutOfMemory => Err(error),
        Err(_) => Ok(String::from_str(alloc, name)?),
    }
}

/// The folder that holds the file `name`.
pub(crate) fn folder_of(name: &str) -> &str {
    match name.rsplit_once('/') {
        Some((folder, _)) if folder.is_empty() => "/",
        Some((folder, _)) => folder,
        None => ".",
    }
}

/// Where the file `name` is, and which names and files it may meet there. A name that can't be followed stands for itself.
pub(crate) fn locate<R: Files<File = File>>(
    files: &R,
    alloc: Global,
    name: &str,
) -> io::Result<Location>
    ensures { IfOk result (λ found. string_bytes found.name ≡ name.now) }
{
    let Place { path, beside } = match place_of(files, alloc, name) {
        Ok(place) => place,
        Err(error) if error.kind() == io::ErrorKind::OutOfMemory => return Err(error),
        Err(_) => return Ok(Location::of_name(alloc, name)?),
    };
    Ok(Location {
        name: String::from_str(alloc, name)?,
        id: id_of(files, name),
        beside_id: id_of(files, beside.as_str()),
        path,
        beside,
    })
}

/// What tells the file of this name from others; `None` where there is none, or the system doesn't tell.
fn id_of<R: Files<File = File>>(files: &R, name: &str) -> Option<FileId> {
    let found = fs::metadata(files, name).ok()?;
    Some(FileId {
        device: found.dev(),
        number: found.ino(),
    })
}

/// Replaces the file at this place by a new file with these bytes, or creates it. The new file has the group and the mode of the old one, and
/// its owner where the system lets the caller give it away; it is returned open for reading and writing, locked where the system can lock it.
/// Takes no memory. It fails as `look_at` does, or where the new file can't be made so, written, synced or renamed.
pub(crate) fn replace<R: Files<File = File>>(
    files: &R,
    place: &Place,
    bytes: &[u8],
) -> io::Result<File> {
    let name = place.path.as_str();
    let beside = place.beside.as_str();
    let old = old_file(files, name)?;
    let mut file = create_beside(files, beside)?;
    let filled = fill(&mut file, old.as_ref(), bytes);
    if let Err(error) = filled.and_then(|()| fs::rename(files, beside, name)) {
        let _ = fs::remove_file(files, beside);
        return Err(error);
    }
    let mode = file.metadata()?.mode();
    file.set_permissions(Permissions::from_mode(mode & ALL_BITS & !MARK))?;
    sync_folder(files, name)?;
    Ok(file)
}

/// The file of this name, which is to be replaced; `None` where there is none. It fails where the file can't be read and written, or is none.
fn old_file<R: Files<File = File>>(files: &R, name: &str) -> io::Result<Option<Metadata>> {
    match fs::metadata(files, name) {
        Ok(found) if !found.is_file() => return Err(io::Error::other("it is no file")),
        Ok(_) => {}
        Err(error) if error.kind() == io::ErrorKind::NotFound => return Ok(None),
        Err(error) => return Err(error),
    }
    let file = OpenOptions::new().read(true).write(true).open(files, name)?;
    Ok(Some(file.metadata()?))
}

/// Looks whether the file at this place can be replaced: it fails where the file can't be written, or is no file; or beside it lies a file that
/// this program didn't make. Nothing changes.
pub(crate) fn look_at<R: Files<File = File>>(files: &R, place: &Place) -> io::Result<()> {
    let _old = old_file(files, place.path.as_str())?;
    let _left = is_left(files, place.beside.as_str())?;
    Ok(())
}

/// Whether a file of this name is left over from a run that was cut: it has the mark. It fails where there is one without the mark.
fn is_left<R: Files<File = File>>(files: &R, name: &str) -> io::Result<bool> {
    match fs::symlink_metadata(files, name) {
        Ok(found) if found.is_file() && found.mode() & MARK != 0 => Ok(true),
        Ok(_) => Err(io::Error::other(
            "beside it lies .NAME.new, which this program didn't make; move it away",
        )),
        Err(_) => Ok(false),
    }
}

/// Creates the file of this name, with the mark. One that is left over is removed first. Any other stays.
fn create_beside<R: Files<File = File>>(files: &R, name: &str) -> io::Result<File> {
    if is_left(files, name)? {
        fs::remove_file(files, name)?;
    }
    OpenOptions::new()
        .read(true)
        .write(true)
        .create_new(true)
        .mode(NEW_MODE | MARK)
        .open(files, name)
}

/// Gives a new file the group and the mode of the old one, with the mark, and its owner where the system allows that; locks it where the system
/// can, writes these bytes and syncs it.
fn fill(file: &mut File, old: Option<&Metadata>, bytes: &[u8]) -> io::Result<()> {
    if let Some(old) = old {
        let made = file.metadata()?;
        if (made.uid(), made.gid()) != (old.uid(), old.gid())
            && fchown(file.as_fd(), Some(old.uid()), Some(old.gid())).is_err()
        {
            // Only root gives files away. By group and mode the same users may write it as before.
            fchown(file.as_fd(), None, Some(old.gid()))?;
        }
        file.set_permissions(Permissions::from_mode(old.mode() & ALL_BITS | MARK))?;
    }
    let _ = file.try_lock();
    io::Write::write_all(file, bytes)?;
    file.sync_all()
}

/// Syncs the folder of the file `name`, so that a power cut keeps the names in it.
pub(crate) fn sync_folder<R: Files<File = File>>(files: &R, name: &str) -> io::Result<()> {
    File::open(files, folder_of(name))?.sync_all()
}
