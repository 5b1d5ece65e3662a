//! A capture file that is being written.
ghost use Rattle.std.specs.Prelude.{◌≤◌, length, IfOk};
ghost use Rattle.line_watch.specs.Pcap.{IsRecord};

use crate::pcap::{BEGIN, LONGEST, Way, file_header, record_of};
use arrayvec::ArrayVec;
use ecat_frame::MAX_LEN;
use site_file::RandomAccessFile;
use std::io;
use std::rt::Clock;
use std::sync::{Mutex, Wait};

/// Why a capture can't begin in a file.
#[derive(Drop)]
pub enum BeginFault {
    /// The file holds something, and that isn't a capture of this program.
    Occupied,
    /// The file can't be read or written.
    Io(io::Error),
}

impl From<io::Error> for BeginFault {
    fn from(error: io::Error) -> Self {
        BeginFault::Io(error)
    }
}

/// A capture file, to which several threads may write. Each record is written by one call, one after the other, in the order of their times.
///
/// If the clock can't be read or a record can't be written, nothing more is written: the file then ends with the record before, if it can
/// be cut there.
#[derive(Drop)]
pub struct Capture<F> {
    file: F,
    /// Where the next record begins; `None` once one couldn't be written.
    end: Mutex<Option<u64>>,
}

impl<F: RandomAccessFile + Drop> Capture<F> {
    /// Begins a capture in this file, and removes what it holds.
    ///
    /// # Errors
    ///
    /// `Occupied` where the file isn't empty and doesn't begin as a capture of this program does. It stays as it is then. `Io` where it
    /// can't be read or written.
    pub fn begin(file: F) -> Result<Capture<F>, BeginFault> {
        if !is_vacant(&file)? {
            return Err(BeginFault::Occupied);
        }
        file.set_len(0)?;
        file.write_all_at(&file_header(), 0)?;
        Ok(Capture {
            file,
            end: Mutex::new(Some(BEGIN as u64)),
        })
    }

    /// Writes down a frame with these bytes, 1,500 at most, that goes this way now. They may be any, as those of a frame that was falsified
    /// on a wire.
    pub fn note<R: Wait + Clock>(&self, rt: &R, way: Way, frame: &[u8])
        requires { length frame.now ≤ MAX_LEN }
    {
        let mut end = self.end.lock(rt);
        let Some(at) = *end else {
            return;
        };
        *end = append(&self.file, at, rt, way, frame).ok();
        if end.is_none() {
            let _ = self.file.set_len(at);
        }
    }

    /// Ends the capture.
    ///
    /// # Errors
    ///
    /// If not every frame was written down.
    pub fn end(self) -> io::Result<()> {
        match self.end.into_inner() {
            Some(_) => Ok(()),
            None => Err(io::Error::other("the capture has no further frames")),
        }
    }
}

/// Whether the file is empty, or begins as a capture of this program does.
fn is_vacant<F: RandomAccessFile>(file: &F) -> io::Result<bool> {
    let length = file.len()?;
    if length < BEGIN as u64 {
        return Ok(length == 0);
    }
    let mut start = [0u8; BEGIN];
    file.read_exact_at(&mut start, 0)?;
    Ok(start == file_header())
}

/// The record of a frame with these bytes, that goes this way now.
fn record_now<R: Clock>(rt: &R, way: Way, frame: &[u8]) -> io::Result<ArrayVec<u8, LONGEST>>
    requires { length frame.now ≤ MAX_LEN }
    ensures { IfOk result (λ noted. IsRecord way frame.now noted.items) }
{
    let now = rt.since_1970()?;
    let seconds = u32::try_from(now.as_secs()).unwrap_or(u32::MAX);
    Ok(record_of(seconds, now.subsec_nanos(), way, frame))
}

/// Writes the record of a frame at this byte of the file. Returns where it ends.
fn append<F: RandomAccessFile, R: Clock>(
    file: &F,
    at: u64,
    rt: &R,
    way: Way,
    frame: &[u8],
) -> io::Result<u64>
    requires { length frame.now ≤ MAX_LEN }
{
    let record = record_now(rt, way, frame)?;
    file.write_all_at(record.as_slice(), at)?;
    Ok(at.wrapping_add(record.len() as u64))
}
