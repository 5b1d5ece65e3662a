ghost use Rattle.kept_files.specs.Cuts.{CutIsKept, JournalIsCut, ImageIsCut};
ghost use Rattle.kept_files.specs.DeskFiles.{PartHasItsFile, CutLeavesKeptParts};

/// At any moment of a desk's history a power cut leaves a recoverable state, wherever each device is in the job that is out for it.
///
/// The desk was made of a book that had just been opened on the line. Of the calls of the book until the cut, the jobs that they handed out and that
/// have returned are done, and the one that is out for a device, if there is one, is in progress. Recoverable means: redo of the live journal
/// that is left gives the contents after a prefix of the accepted commands, with every durable one in it.
pub fn a_cut_at_a_desk_is_kept()
    ensures { CutIsKept }
{}

/// The journal's file behind the site of the disk's thread: what a power cut leaves in it, in a call of the action that is out or between two
/// actions, it may have left of the disk while this action is in progress.
pub fn a_cut_of_the_journal<F>()
    ensures { JournalIsCut F }
{}

/// The same of a slave's image file behind the site of its thread, and of the slave's half.
pub fn a_cut_of_the_slave_images<F>()
    ensures { ImageIsCut F }
{}

/// The file of a part of a desk: if it held the part as the device's log began, it has followed the part's site from there on.
pub fn a_part_has_its_file<F>()
    ensures { PartHasItsFile F }
{}

/// At any moment of a desk's history a power cut leaves a recoverable state in the files, all of them together, each by the log of its own part's
/// device, wherever that is in its job.
pub fn a_cut_leaves_kept_parts<F, S>()
    ensures { CutLeavesKeptParts F S }
{}
