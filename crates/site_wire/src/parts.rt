//! Of which part of a line a device was, by what is told of it.
ghost use Rattle.std.specs.Prelude.{◌≡◌, Some, IsTrue};
ghost use Rattle.site_shadow.specs.declared.lending.LinePart.{LinePart};

use crate::device::{WireDevice, WireLog};
use crate::reach::Reach;
use site_file::RandomAccessFile;
use site_shadow::{Lends, LinePart};
use std::rt::Clock;

/// A device that tells to which part of its line it was lent.
pub trait TellsPart: Lends {
    // This is told of a device of this part.
    ghost is_of: { LinePart → Self.Logged → Type 0 };

    /// Whether this is told of a device of this part.
    fn is_reported_of(reported: &Self::Logged, part: LinePart) -> bool
        ensures { IsTrue result → is_of part reported.now };
}

impl<'f, L: Reach + Copy + Drop, F: RandomAccessFile + Drop, C: Clock> TellsPart
    for WireDevice<'f, L, F, C> {
    ghost is_of = { λ part reported. reported.journal.part ≡ Some part };

    fn is_reported_of(reported: &WireLog, part: LinePart) -> bool {
        reported.journal.is_of(part)
    }
}
