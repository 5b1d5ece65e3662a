//! Inputs and outputs in memory, which fail as is planned.
ghost use Rattle.std.specs.Io.{WritesAtMost};

use std::alloc::Global;
use std::io;
use std::io::{Read, Write};
use std::sync::Mutex;

/// What an input does after its bytes.
#[derive(Clone, Copy)]
pub enum Then {
    Ends,
    /// It fails with this error in place of the end.
    Fails(io::ErrorKind),
    /// It goes on for ever, a byte a call.
    GoesOn,
}

/// An input of these bytes.
#[derive(Clone, Copy)]
pub struct Source<'a> {
    pub rest: &'a [u8],
    /// Whether its next call is interrupted.
    pub is_interrupted: bool,
    pub then: Then,
}

impl Read for Source<'_> {
    fn read(&mut self, buf: &mut [u8]) -> io::Result<usize> {
        if self.is_interrupted {
            self.is_interrupted = false;
            return Err(io::Error::from(io::ErrorKind::Interrupted));
        }
        if !self.rest.is_empty() {
            return self.rest.read(buf);
        }
        match (self.then, buf.first_mut()) {
            (Then::Fails(kind), _) => Err(io::Error::from(kind)),
            (Then::GoesOn, Some(byte)) => {
                *byte = 0x30;
                Ok(1)
            }
            _ => Ok(0),
        }
    }
}

/// How an output answers once it has taken all that it takes.
#[derive(Clone, Copy, PartialEq, Eq)]
pub enum Full {
    /// With an error, as a closed pipe or a full disk.
    Fails,
    /// It takes none of the bytes.
    TakesNone,
}

/// How many bytes an output takes, and how it answers then.
#[derive(Clone, Copy)]
pub struct Room {
    pub bytes: usize,
    pub then: Full,
}

/// Room for all that is printed.
pub(crate) const ALL: Room = Room {
    bytes: usize::MAX,
    then: Full::Fails,
};

/// The streams of a run.
#[derive(Clone, Copy)]
pub struct Streams<'a> {
    pub input: Source<'a>,
    pub room: Room,
    /// On a terminal, on which output and faults stand too, by how many milliseconds the clock goes on each time it is read.
    pub terminal: Option<u64>,
}

/// The exit status of a run, and what it printed.
#[derive(Drop)]
pub struct Printed {
    pub status: u8,
    /// What was written to standard output; on a terminal all that was written to it.
    pub output: Vec<u8>,
    /// What was written to standard error.
    pub faults: Vec<u8>,
}

/// What was written to an output or a terminal.
#[derive(Drop)]
pub struct Screen {
    written: Mutex<Vec<u8>>,
    room: Room,
}

impl Screen {
    /// A screen on which there is so much room.
    pub fn new(alloc: Global, room: Room) -> Screen {
        Screen {
            written: Mutex::new(Vec::new(alloc)),
            room,
        }
    }

    /// A screen on which there is room for all that is printed.
    pub fn all(alloc: Global) -> Screen {
        Screen::new(alloc, ALL)
    }

    /// What was written to it.
    pub fn into_bytes(self) -> Vec<u8> {
        let Screen { written, room: _ } = self;
        written.into_inner()
    }
}

/// Puts bytes after those that were written, as far as there is room; how many these are.
fn take(written: &mut Vec<u8>, room: Room, buf: &[u8]) -> io::Result<usize>
    ensures { WritesAtMost result buf.now }
{
    let count = buf.len().min(room.bytes.saturating_sub(written.len()));
    if count == 0 && !buf.is_empty() && room.then == Full::Fails {
        return Err(io::Error::from(io::ErrorKind::BrokenPipe));
    }
    written.extend_from_slice(&buf[..count])?;
    Ok(count)
}

/// A writer to a screen. Writers that write at the same time fail.
#[derive(Clone, Copy)]
pub struct Pen<'s> {
    pub screen: &'s Screen,
}

impl Write for Pen<'_> {
    fn write(&mut self, buf: &[u8]) -> io::Result<usize> {
        match self.screen.written.try_lock() {
            Some(mut written) => take(&mut written, self.screen.room, buf),
            None => Err(io::Error::other("two writers at a time")),
        }
    }

    fn flush(&mut self) -> io::Result<()> {
        Ok(())
    }
}
