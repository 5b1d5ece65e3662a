//! The standard streams of a program that was started without some of them, and where its text goes where its standard output is a wire.

use either::Either;
use std::fs::{File, Files, OpenOptions};
use std::io;
use std::os::fd::AsRawFd;

/// Opens the null device for each of the descriptors 0, 1 and 2 that is closed, for as long as the files live that are returned. Else a file that
/// is opened next would get that descriptor, and the program would print into it. Call it before any file is opened.
///
/// # Errors
///
/// One of them is closed, and the null device can't be opened.
pub fn hold_streams<R: Files<File = File>>(files: &R) -> io::Result<[Option<File>; 3]> {
    let mut held = [None, None, None];
    for slot in &mut held {
        // The system gives the lowest number that is free.
        if File::open(files, "/")?.as_raw_fd() > 2 {
            break;
        }
        let null = OpenOptions::new()
            .read(true)
            .write(true)
            .open(files, "/dev/null")?;
        *slot = Some(null);
    }
    Ok(held)
}

/// The file of this name, to add text to it; or this stream.
///
/// # Errors
///
/// The file isn't there, or can't be written.
pub fn open_text<R: Files<File = File>, E: Drop>(
    files: &R,
    name: Option<&str>,
    stream: E,
) -> io::Result<Either<File, E>> {
    match name {
        Some(name) => Ok(Either::Left(OpenOptions::new().append(true).open(files, name)?)),
        None => Ok(Either::Right(stream)),
    }
}
