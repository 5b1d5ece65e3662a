//! Laws of the files behind a shadow. The functions here do nothing: the contract of each is the law.

ghost use Rattle.site_file.specs.DeviceLaws.{NewHolds, RestHolds, WriteHolds, SyncHolds, LengthHolds, ReadHolds, RestLeavesNoMore};
ghost use Rattle.site_file.specs.DeviceLaws.{WriteLeavesNoMore, SyncOfLeavesNoMore};
ghost use Rattle.site_file.specs.AllFiles.{BeginsToFollow, FollowsOn, SiteIsFollowed};
ghost use Rattle.site_file.specs.Laws.{OneFileIsAsked, WordIsDurable, WordMayHoldAnything, WordsAreDurable, WriteFollows, WriteMayHoldAnything};
ghost use Rattle.site_file.specs.Laws.{FailedWriteLeavesNoMore, SyncFollows, SyncLeavesNoMore, SomethingBecomes, AnyWordMayBeLeft};

/// Once a half has come to rest on a device of files, the image of its slave holds its words, the new one among them, all of it synced; so it is
/// after any number of words. Until then, whatever fails, a power cut leaves in the image what it may leave of the half: anything in the
/// two bytes of the word in flight, and no other change. No other file is asked anything.
pub fn word_is_kept()
    ensures others { OneFileIsAsked }
    ensures durable { WordIsDurable }
    ensures at_each_moment { WordMayHoldAnything }
    ensures all { WordsAreDurable }
{}

/// As long as no call has failed the journal's file is the shadow's disk: its bytes, and which of them are synced. While a call is under way, and
/// after one that failed, a power cut leaves of the file what it may leave of the shadow.
pub fn journal_follows()
    ensures write { WriteFollows }
    ensures in_a_write { WriteMayHoldAnything }
    ensures failed_write { FailedWriteLeavesNoMore }
    ensures sync { SyncFollows }
    ensures in_a_sync { SyncLeavesNoMore }
{}

/// The definitions of this crate are neither empty nor too narrow. Whatever was asked of a file, and however that ended, there is a file that it
/// leads to; and a power cut as a word is written may leave any other in its place.
pub fn each_log_has_a_file()
    ensures becomes { SomethingBecomes }
    ensures torn { AnyWordMayBeLeft }
{}

/// What a device asks, as its contracts say it, leaves its files as the shadow is: after each call that goes well, whatever a file may have become
/// by all that it was asked until then, it is the journal that is the shadow's disk, or the image of the words of a slave's half.
pub fn device_holds<F>()
    ensures begins { NewHolds }
    ensures rest { RestHolds F }
    ensures write { WriteHolds F }
    ensures sync { SyncHolds F }
    ensures length { LengthHolds F }
    ensures read { ReadHolds F }
{}

/// At each moment of a call of a device, whatever is answered, a power cut leaves of the file that is asked what it may leave of the shadow: of an
/// image any value of the word in flight, of the journal anything in the range that is written. No other file changes.
pub fn device_leaves_no_more<F>()
    ensures rest { RestLeavesNoMore F }
    ensures write { WriteLeavesNoMore F }
    ensures sync { SyncOfLeavesNoMore F }
{}

/// Files that hold the parts of a site, as its device is put behind it before its first call, follow the site from then on, call by call: what the
/// device asks in a call of the site is a piece of its log, and a power cut in this piece leaves of the files, all at once, a pair that it may
/// have left of the site in this call or right after it. As long as no call on a file fails and the site goes on, they hold its bytes and words,
/// and what is synced of the site is synced in them. Of a part of a line this holds for the files that it owns.
pub fn files_follow<F>()
    ensures begins { BeginsToFollow F }
    ensures goes_on { FollowsOn F }
    ensures site { SiteIsFollowed F }
{}
