//! Laws that hold for every site. The functions here do nothing: the contract of each is the law.

ghost use Rattle.site_core.specs.Laws.{LengthAddsNothing, ReadAddsNothing, SyncAddsNothing, CycleAddsNothing, SyncLeavesBytes, WriteLeavesBegun, BegunLeavesMore, StopAddsNothing, SinceIsUnion, IdleLeavesWords, LeavesCounts, StopKeepsCounts, LengthKeepsCounts, ReadKeepsCounts, WriteKeepsCounts, SyncKeepsCounts, ExchangeKeepsCounts, CycleKeepsCounts};

/// Calls that only read, a sync and a cycle never add to what a power cut may leave.
pub fn reading_adds_nothing()
    ensures length { LengthAddsNothing }
    ensures read { ReadAddsNothing }
    ensures sync { SyncAddsNothing }
    ensures cycle { CycleAddsNothing }
{}

/// Before, in and after a write, a power cut leaves only what one in its middle may leave. That includes all it could leave before.
pub fn write_leaves_begun()
    ensures only { WriteLeavesBegun }
    ensures more { BegunLeavesMore }
{}

/// After a successful sync, a power cut leaves of the disk exactly the bytes that a read gives.
pub fn sync_leaves_bytes()
    ensures { SyncLeavesBytes }
{}

/// A power cut never adds to what a later one may leave. If all EEPROM halves are idle, it leaves exactly their words.
pub fn stop_adds_nothing()
    ensures nothing { StopAddsNothing }
    ensures idle { IdleLeavesWords }
{}

/// What a power cut could have left over two sequences of calls, one after the other, is what it could have left over either of them.
pub fn since_is_union()
    ensures { SinceIsUnion }
{}

/// A power cut keeps the number of EEPROM halves, and the number of words of each.
pub fn stop_keeps_counts()
    ensures left { LeavesCounts }
    ensures state { StopKeepsCounts }
{}

/// Each device call keeps the number of EEPROM halves, and the number of words of each.
pub fn calls_keep_counts()
    ensures length { LengthKeepsCounts }
    ensures read { ReadKeepsCounts }
    ensures write { WriteKeepsCounts }
    ensures sync { SyncKeepsCounts }
    ensures exchange { ExchangeKeepsCounts }
    ensures cycle { CycleKeepsCounts }
{}
