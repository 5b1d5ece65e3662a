ghost use Rattle.kept_wire.specs.Keeping.{SiteKeepsOnWire, SiteServesOnWire, PartIsOnWire, DiskIsOnFile, CutLeavesKeptOnWire};

use kept_files::{a_cut_at_a_desk_is_kept, a_cut_of_the_journal};

/// What a station keeps throughout its calls on one thread, it keeps of the journal's file and of real slaves: what a power cut leaves of all of them at
/// one moment, also in the middle of a call, at a stop and after it, is kept for each machine for which it was kept before.
///
/// The file held the site's disk, and each slave followed its half, as the device was put behind the site, and the slaves could have answered what was sent.
pub fn a_station_keeps_a_wire<L, F, C>()
    ensures keeps { SiteKeepsOnWire L F C }
    ensures serves { SiteServesOnWire L F C }
{}

/// The part of a slave or of the disk at a desk: what its device has done, and what a power cut leaves by it, in each call and between two.
pub fn a_part_is_on_a_wire<L, F, C>()
    ensures slave { PartIsOnWire L F C }
    ensures disk { DiskIsOnFile L F C }
{}

/// At any moment of a desk's history a power cut leaves a recoverable state of the journal's file and of real slaves, all of them together, each by what
/// its own part's device has done, wherever that is in its job.
pub fn a_cut_leaves_kept_on_a_wire<F, S>()
    ensures { CutLeavesKeptOnWire F S }
{
    a_cut_of_the_journal::<F>();
    a_cut_at_a_desk_is_kept();
}
