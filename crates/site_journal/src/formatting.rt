//! Formatting a disk as an empty journal.

ghost use Rattle.std.specs.Prelude.{◌≡◌, ◌+◌, ◌≤◌, ◌∷◌, [], length, replicate, IsTrue};
ghost use Rattle.jrn_format.specs.Header.{IsCapacity};
ghost use Rattle.site_journal.specs.Formatting.{after_gate, pieces, PutsDown, LaysDown, Formats, WritesPieces};

use jrn_format::{AREA_START, CLOSED, OPEN, header};
use site_core::{DeviceFault, Site};

/// The zeros of an area are written in pieces of at most this many bytes.
const PIECE: usize = 4096;

/// Writes the file gate, and syncs it.
fn put_gate<S: Site>(site: &mut S, gate: u8) -> Result<(), DeviceFault>
    requires { IsTrue (S.line site.old).has_disk }
    ensures puts { PutsDown (S.seen site.old) 0 (gate ∷ []) 2 result (S.seen site.new) }
    ensures pieces { WritesPieces (S.seen site.old) (S.seen site.new) }
    ensures line { S.line site.new ≡ S.line site.old }
{
    site.disk_write(0, &[gate])?;
    site.disk_sync()
}

/// Writes `count` zeros from byte `at` on, piece by piece.
fn lay_zeros<S: Site>(site: &mut S, at: usize, count: u32) -> Result<(), DeviceFault>
    requires disk { IsTrue (S.line site.old).has_disk }
    requires inside { at ≤ length (S.seen site.old).state.disk.bytes }
    requires going { ¬ IsTrue (S.seen site.old).is_stopped }
    requires end { at + count ≤ 8 + 4194304 }
    ensures lays { LaysDown (S.seen site.old) at (replicate count 0) (pieces count) result (S.seen site.new) }
    ensures pieces { WritesPieces (S.seen site.old) (S.seen site.new) }
    ensures line { S.line site.new ≡ S.line site.old }
{
    let total = count as usize;
    let zeros = [0u8; PIECE];
    for piece in 0..total.div_ceil(PIECE) {
        let done = piece * PIECE;
        let size = PIECE.min(total - done);
        site.disk_write(at + done, &zeros[..size])?;
    }
    Ok(())
}

/// Writes the header after the file gate and an area of zeros, and syncs both.
fn put_area<S: Site>(site: &mut S, slaves: u16, capacity: u32) -> Result<(), DeviceFault>
    requires disk { IsTrue (S.line site.old).has_disk }
    requires some { 1 ≤ length (S.seen site.old).state.disk.bytes }
    requires capacity { IsCapacity capacity }
    ensures puts { PutsDown (S.seen site.old) 1 (after_gate slaves capacity) (2 + pieces capacity) result (S.seen site.new) }
    ensures pieces { WritesPieces (S.seen site.old) (S.seen site.new) }
    ensures line { S.line site.new ≡ S.line site.old }
{
    site.disk_write(1, &header(slaves, capacity)[1..])?;
    lay_zeros(site, AREA_START, capacity)?;
    site.disk_sync()
}

/// Formats the disk as an empty journal of version 2 for the slaves of the site. Bytes after the journal's area stay.
///
/// The area has `capacity` bytes, which must be 4,096 to 4,194,304. The site must have a disk.
///
/// The file gate is closed first and opened last. So a power cut on the way leaves one of these: the old bytes, except for the first
/// byte; a file with a closed gate; or the new journal, except for the first byte. Each write has at most 4,096 bytes.
///
/// # Errors
///
/// `Disk` or `Stopped`, as `disk_write` and `disk_sync` answer. A power cut leaves what it may leave on the way.
pub fn format<S: Site>(site: &mut S, capacity: u32) -> Result<(), DeviceFault>
    requires disk { IsTrue (S.line site.old).has_disk }
    requires capacity { IsCapacity capacity }
    ensures formats { Formats (length (S.line site.old).sizes) capacity (S.seen site.old) result (S.seen site.new) }
    ensures pieces { WritesPieces (S.seen site.old) (S.seen site.new) }
    ensures line { S.line site.new ≡ S.line site.old }
{
    let slaves = site.slaves();
    put_gate(site, CLOSED)?;
    put_area(site, slaves, capacity)?;
    put_gate(site, OPEN)
}
