//! Which slaves a site owns, and their sizes.

ghost use Rattle.std.specs.Prelude.{◌≡◌, ◌↔◌, IfOk, IsTrue};
ghost use Rattle.esc_rom.specs.Owned.{OwnsAll, AreSizes};

use site_core::Site;
use std::alloc::{AllocError, Global};

/// Whether the site owns the EEPROM half of every slave of its line.
pub fn owns_all<S: Site>(site: &S) -> bool
    ensures { IsTrue result ↔ OwnsAll (S.line site.now) }
{
    for slave in 0..site.slaves() {
        if !site.owns(slave) {
            return false;
        }
    }
    true
}

/// The number of words of each slave's EEPROM, in the order of the line. The site must own every slave.
///
/// # Errors
///
/// Memory was refused. No device call is made.
pub fn line_sizes<S: Site>(alloc: Global, site: &S) -> Result<Vec<u16>, AllocError>
    requires { OwnsAll (S.line site.now) }
    ensures { IfOk result (λ sizes. AreSizes sizes.items (S.line site.now) (S.seen site.now)) }
{
    let mut sizes = Vec::new(alloc);
    for slave in 0..site.slaves() {
        sizes.push(site.words_of(slave))?;
    }
    Ok(sizes)
}
