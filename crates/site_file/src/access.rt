//! The calls on an open file that a line needs.

use std::io;

/// An open file that is read and written at byte offsets. No contract says what a file holds, so the methods have no clauses.
pub trait RandomAccessFile {
    /// Returns the length of the file, in bytes.
    ///
    /// # Errors
    ///
    /// If the system can't tell it.
    fn len(&self) -> io::Result<u64>;

    /// Fills `bytes` with those of the file from byte `at` on.
    ///
    /// # Errors
    ///
    /// If they can't be read, or the file ends before them.
    fn read_exact_at(&self, bytes: &mut [u8], at: u64) -> io::Result<()>;

    /// Writes all of `bytes` from byte `at` on. The file grows if they reach past its end.
    ///
    /// # Errors
    ///
    /// If they can't be written. Some of them may have been written then.
    fn write_all_at(&self, bytes: &[u8], at: u64) -> io::Result<()>;

    /// Makes the file this long: it loses what is after that, or grows by zeros.
    ///
    /// # Errors
    ///
    /// If its length can't be changed.
    fn set_len(&self, length: u64) -> io::Result<()>;

    /// Makes all written bytes and the file's length durable, so that they survive a power cut.
    ///
    /// # Errors
    ///
    /// If that failed. What was written since the last sync may be lost then, even if a later sync succeeds.
    fn sync_data(&self) -> io::Result<()>;
}
