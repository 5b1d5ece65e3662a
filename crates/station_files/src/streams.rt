//! Reads a stream to its end, and prints on one.
ghost use Rattle.std.specs.Prelude.{◌≡◌, IfOk, IfSome, OnOk, IfErr, ◌≢◌};
ghost use Rattle.std.specs.Io.KnownBytes.{IsAtEnd, Appends};
ghost use Rattle.station_files.specs.Faults.{IsOfStream, IsFaultless, status_of};

use crate::faults::{ExitStatus, Fault};
use crate::store::MOST_OF_TEXT;
use std::alloc::Global;
use std::io;
use std::io::{Read, Write};

/// Reads all remaining bytes of a reader, as `read_about` does, of which nobody knows how many they are.
///
/// # Errors
///
/// As for `read_about`.
pub fn read_to_end<R: Read>(alloc: Global, input: &mut R) -> io::Result<Vec<u8>>
    ensures all { IfOk result (λ bytes. IfSome (R.remaining input.old) (λ rest. bytes.items ≡ rest)) }
    ensures end { OnOk result (IsAtEnd (R.remaining input.new)) }
{
    read_about(alloc, 0, input)
}

/// Reads all remaining bytes of a reader. An interrupted read is tried again. Takes memory for `length` bytes first, so that it isn't taken
/// piece by piece where these are all.
///
/// # Errors
///
/// The error of the reader; or memory was refused; or the reader reported no end within 1,048,576 reads, or 67,108,864 bytes. What was read is
/// lost.
pub fn read_about<R: Read>(alloc: Global, length: usize, input: &mut R) -> io::Result<Vec<u8>>
    ensures all { IfOk result (λ bytes. IfSome (R.remaining input.old) (λ rest. bytes.items ≡ rest)) }
    ensures end { OnOk result (IsAtEnd (R.remaining input.new)) }
{
    let mut bytes = Vec::with_capacity(alloc, length)?;
    let mut buffer = [0u8; 4096];
    for _read in 0..1_048_576u32 {
        match input.read(&mut buffer) {
            Ok(0) => return Ok(bytes),
            Ok(_) if bytes.len() as u64 >= MOST_OF_TEXT => {
                return Err(io::Error::from(io::ErrorKind::FileTooLarge));
            }
            Ok(count) => bytes.extend_from_slice(&buffer[..count])?,
            Err(error) if error.kind() == io::ErrorKind::Interrupted => {}
            Err(error) => return Err(error),
        }
    }
    Err(io::Error::other("no end within 1048576 reads"))
}

/// Writes all of `bytes` and flushes the output.
///
/// # Errors
///
/// `File` or `Memory`, as the output answers. Part of the bytes may be written.
pub fn write_complete<W: Write>(bytes: &[u8], output: &mut W) -> Result<(), Fault>
    ensures written { OnOk result (Appends (W.contents output.old) (W.contents output.new) bytes.now) }
    ensures failed { IfErr result IsOfStream }
{
    output.write_all(bytes)?;
    output.flush()?;
    Ok(())
}

/// Prints a fault as one line, and returns its exit status. An error of `faults` is ignored.
pub fn report_fault<E: Write>(fault: Fault, faults: &mut E) -> ExitStatus
    ensures exact { result ≡ status_of fault }
    ensures done { result ≢ ExitStatus.Done }
    ensures fault { ¬ IsFaultless result }
{
    let _ = writeln!(faults, "{fault}");
    fault.status()
}
