//! Whether the check bytes of a line are right.
ghost use Rattle.std.specs.Prelude.{IfOk};
ghost use Rattle.station_listing.specs.ImageListing.{SaysCheck};
ghost use Rattle.line_changes.specs.Report.{SayChecks};

use sii_words::{Plant, Words};
use station_listing::CheckByte;
use std::alloc::{AllocError, Global};

/// The low byte of word 7 of a slave, compared with the check byte of its words 0 to 6.
pub fn check_of(words: &Words) -> CheckByte
    ensures { SaysCheck words.now result }
{
    if words.check_ok() {
        return CheckByte::Right;
    }
    let [found, _] = words.as_slice()[7].to_le_bytes();
    CheckByte::Wrong {
        found,
        expected: words.check_byte(),
    }
}

/// Whether the check byte of each slave is right, in the order of the line.
pub(crate) fn checks_of(alloc: Global, plant: &Plant) -> Result<Vec<CheckByte>, AllocError>
    ensures { IfOk result (λ checks. SayChecks plant.now checks.items) }
{
    let mut checks = Vec::new(alloc);
    for slave in 0..plant.len() {
        checks.push(check_of(plant.slave(slave)))?;
    }
    Ok(checks)
}
