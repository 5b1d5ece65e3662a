//! Reading the journal on a disk.

ghost use Rattle.std.specs.Prelude.{◌≡◌, IfOk, IsTrue};
ghost use Rattle.site_journal.specs.Reading.{ReadsAll, ReadsJournal};

use crate::fault::ReadFault;
use jrn_format::{Journal, capacity, scan};
use site_core::Site;
use std::alloc::Global;

/// Syncs the disk, and reads all of it.
fn read_disk<S: Site>(alloc: Global, site: &mut S) -> Result<Vec<u8>, ReadFault>
    requires { IsTrue (S.line site.old).has_disk }
    ensures reads { ReadsAll (λ bytes. bytes.items) (S.seen site.old) result (S.seen site.new) }
    ensures line { S.line site.new ≡ S.line site.old }
{
    site.disk_sync()?;
    let count = site.disk_len()?;
    let mut bytes = vec![in alloc; 0u8; count]?;
    site.disk_read(0, &mut bytes)?;
    Ok(bytes)
}

/// Reads the journal on the disk, for slaves with `sizes` words. Returns the length of its area in bytes, and what is live in it.
///
/// The disk is synced first, so that a power cut leaves just the bytes that were read. The site must have a disk.
///
/// # Errors
///
/// `Device` with `Disk` or `Stopped`, as the disk answers; `Journal` with `Memory` if memory is refused for the disk's bytes; then
/// `Journal` as for `scan`. A power cut leaves nothing that it couldn't leave before.
pub fn read_journal<S: Site>(
    alloc: Global,
    site: &mut S,
    sizes: &[u16],
) -> Result<(u32, Journal), ReadFault>
    requires { IsTrue (S.line site.old).has_disk }
    ensures reads { ReadsJournal sizes.now (S.seen site.old) result (S.seen site.new) }
    ensures line { S.line site.new ≡ S.line site.old }
{
    let bytes = read_disk(alloc, site)?;
    let journal = scan(alloc, &bytes, sizes)?;
    Ok((capacity(&bytes), journal))
}
