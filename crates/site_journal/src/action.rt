//! The actions that a book hands out for the disk.

ghost use Rattle.std.specs.Prelude.{◌≡◌, IsTrue};
ghost use Rattle.book_model.specs.Events.{gate_byte};
ghost use Rattle.site_journal.specs.Action.{BeginsInside, DoesAction};

use book_model::DiskNext;
use jrn_format::{CLOSED, OPEN};
use site_core::{DeviceFault, Site};

/// The byte that closes or opens a gate.
fn gate_byte(closed: bool) -> u8
    ensures { result ≡ gate_byte closed }
{
    if closed { CLOSED } else { OPEN }
}

/// Carries out an action that a book handed out for the disk: one write, or one sync. `Idle` and `Stop` make no device call.
///
/// The site must have a disk, and a write must begin inside it or right after its last byte.
///
/// # Errors
///
/// `Disk` or `Stopped`, as `disk_write` and `disk_sync` answer.
pub fn do_action<S: Site>(site: &mut S, action: &DiskNext) -> Result<(), DeviceFault>
    requires disk { IsTrue (S.line site.old).has_disk }
    requires inside { BeginsInside action.now (S.seen site.old) }
    ensures does { DoesAction action.now (S.seen site.old) result (S.seen site.new) }
    ensures line { S.line site.new ≡ S.line site.old }
{
    match action {
        DiskNext::Write { at, bytes } => site.disk_write(*at, bytes.as_slice()),
        DiskNext::Gate { at, closed } => site.disk_write(*at, &[gate_byte(*closed)]),
        DiskNext::Sync => site.disk_sync(),
        DiskNext::Idle | DiskNext::Stop => Ok(()),
    }
}
