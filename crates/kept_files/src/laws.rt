ghost use Rattle.kept_files.specs.KeptFiles.{SiteHasFiles, CutLeavesKept, SiteKeepsOn, SiteKeepsServing, RecoveryLeavesContents};

/// The files behind a site: all that was asked of them since they held the state in which the site began, and what that makes of them.
pub fn a_site_has_files<F>()
    ensures { SiteHasFiles F }
{}

/// What a station keeps throughout its calls, it keeps of the files behind its site.
///
/// Let all that a power cut could leave of the site be kept for a machine before the calls, and stay so at each moment of them, as `Alone::open`
/// and `recover` of `station_alone` say. Then what a power cut leaves in the files at any moment, all of them together, is kept for this machine:
/// the journal that is left can be redone, and redo gives the contents after a prefix of the commands, with every acknowledged one in it.
pub fn a_cut_leaves_kept_files()
    ensures { CutLeavesKept }
{}

/// The same from a site's first call on, with what the files hold now: the state of the site, if no call on them has failed and it goes on.
pub fn a_site_keeps_its_files<F>()
    ensures { SiteKeepsOn F }
{}

/// The same of a station that was opened on the way and then accepted commands: what a power cut leaves in the files is kept for the machine, or
/// for the session that began with that open, with a prefix of these commands accepted.
pub fn a_station_keeps_its_files<F>()
    ensures { SiteKeepsServing F }
{}

/// A recovery that is complete has left the contents in the files: each slave's image has the words with which the session began, all of them
/// synced, if no call on a file has failed and the site goes on.
pub fn a_recovery_leaves_the_contents()
    ensures { RecoveryLeavesContents }
{}
