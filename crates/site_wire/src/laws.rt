//! Laws that hold for a real slave and its shadow, and for the journal's file. The functions here do nothing: the contract of each is the law.

ghost use Rattle.site_wire.specs.After.{BroughtUpIsAfter, AmendedLeavesNoMore};
ghost use Rattle.site_wire.specs.RealSlaves.{DefinedServes};
ghost use Rattle.site_wire.specs.JournalLaws.{JournalIsFollowed, CutBetweenCalls};
ghost use Rattle.site_wire.specs.Moments.{SlavesAreBehind, LeavesTogether, CutLeavesNoMore};

/// A slave as bring-up leaves it follows its half in the shadow. Of a slave that follows its half, or is being told its word again or read back, a
/// power cut leaves what it may leave of the half.
#[tactic(auto, using(crate::proofs::AmendedLaws::brought_up_is_after, crate::proofs::AmendedLaws::amended_leaves_no_more))]
pub fn brought_up_follows()
    ensures brought_up { BroughtUpIsAfter }
    ensures leaves { AmendedLeavesNoMore }
{}

/// A slave that does just what the definition of a slave says is a real slave by what is sent to it: so for each course of datagrams there is one.
#[tactic(auto, using(crate::proofs::Living::defined_serves))]
pub fn defined_slave_serves()
    ensures { DefinedServes }
{}

/// Behind a device on a wire real slaves follow the site; at each moment, also with a datagram under way, at a stop and after it, a power cut leaves of
/// all of them what it could have left of the site.
pub fn slaves_follow<L, F, C>()
    ensures { SlavesAreBehind L F C }
{}

/// At each moment of all that a device has done, also in the middle of a call, at a stop and after it, a power cut leaves of the journal's file and of
/// all real slaves together what it could have left of the site in the call that ends then. The file held the disk as the site began.
#[tactic(auto, using(crate::proofs::Doings::leaves_together))]
pub fn moments_leave_no_more<L, F, C>()
    ensures done { LeavesTogether L F C }
    ensures cut { CutLeavesNoMore L F C }
{}

/// A file that holds the disk of a site, as the device is put behind it before its first call, follows the disk from then on, as `files_follow` of
/// `site_file` says: at any moment a power cut leaves in it what it may leave of the disk, and as long as no call on it fails and the site goes
/// on, it holds the disk's bytes, and what is synced of the disk is synced in it.
#[tactic(auto, using(crate::proofs::JournalFile::journal_is_followed))]
pub fn journal_follows<L, F, C>()
    ensures { JournalIsFollowed L F C }
{}

/// Between two calls a power cut leaves of that file and of all real slaves together what it may leave of the site at that moment, unless the
/// device or the site has stopped.
pub fn leave_no_more<L, F, C>()
    ensures { CutBetweenCalls L F C }
{}
