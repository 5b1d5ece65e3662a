//! The words that the slaves of a line in memory hold.
ghost use Rattle.std.specs.Prelude.{◌≡◌, ◌≤◌, length, IfOk};
ghost use Rattle.esc_rom.specs.Owned.{OwnsAll};
ghost use Rattle.site_shadow.specs.Line.{half_of};
ghost use Rattle.book_model.specs.Opening.{words_in};

use esc_model::RomHalf;
use sii_words::{Plant, Words};
use site_core::Site;
use site_mem::Pattern;
use site_shadow::{Device, ShadowSite};
use std::alloc::{AllocError, Global};

/// A copy of the words of all slaves of a line. A word in flight has its old value. The site must own the EEPROM of every slave.
pub(crate) fn contents_of<D: Device + Drop>(
    alloc: Global,
    site: &ShadowSite<D>,
) -> Result<Plant, AllocError>
    requires { OwnsAll site.now.line }
    ensures { IfOk result (λ plant. plant ≡ words_in site.now.seen.state.halves) }
{
    let count = site.slaves();
    let parts = site.snapshot(alloc, Pattern::Old)?;
    let mut slaves = Vec::new(alloc);
    for slave in 0..count {
        let _size = site.words_of(slave);
        slaves.push(copy_words(&parts.halves[usize::from(slave)])?)?;
    }
    Ok(Plant::of(slaves))
}

/// A copy of the words of a half, which must have some.
fn copy_words(half: &Option<RomHalf>) -> Result<Words, AllocError>
    requires { 1 ≤ length (half_of half.now).words }
    ensures { IfOk result (λ words. words ≡ (half_of half.now).words) }
{
    match half {
        Some(half) => half.words().try_copy(),
        None => unreachable!(),
    }
}
