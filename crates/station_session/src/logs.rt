//! Whether a run tells of all devices of its line.
ghost use Rattle.std.specs.Prelude.{◌≡◌, IsTrue};
ghost use Rattle.station_files.specs.Faults.{IsFaultless};
ghost use Rattle.station_session.specs.Noting.{NotesWhy};
ghost use Rattle.station_session.specs.RunFiles.{AreLogsReported, AreSlavesReported, IsAllReported, IsPartReported};

use script_session::{DeskLog, PartLog, RunLog};
use site_file::FileLog;
use site_shadow::LinePart;
use station_files::{ExitStatus, Failures, Fault};

/// What a run tells of the calls on the files of its line.
pub type FilesLog = RunLog<FileLog>;

/// The same status, or that of `Unserved`, which is noted, where it is without a fault and a log is missing.
pub(crate) fn with_all_reported(
    status: ExitStatus,
    reported: &FilesLog,
    failures: &mut Failures,
) -> ExitStatus
    ensures noted { NotesWhy (result ≡ status) result failures.old failures.new }
    ensures all { IsFaultless result → IsAllReported reported.now }
{
    let is_enough = match status {
        ExitStatus::Done | ExitStatus::Refused => is_all_reported(reported),
        _ => true,
    };
    if is_enough {
        return status;
    }
    failures.note(Fault::Unserved)
}

/// Whether the logs of all devices are reported, those of a desk's each of its own part.
fn is_all_reported(reported: &FilesLog) -> bool
    ensures { IsTrue result → IsAllReported reported.now }
{
    match (&reported.desk, &reported.after) {
        (Some(desk), Some(after)) => after.calls.is_some() && are_logs_reported(desk),
        _ => false,
    }
}

/// Whether the logs of the devices at a desk are reported, each of its own part.
fn are_logs_reported(reported: &DeskLog<FileLog>) -> bool
    ensures { IsTrue result → AreLogsReported reported.now }
{
    if !is_part_reported(&reported.disk.reported, LinePart::Disk) {
        return false;
    }
    if !are_slaves_reported(reported.slaves.as_slice()) {
        return false;
    }
    reported.line.reported.calls.is_some()
}

/// Whether the log of each slave's device is reported.
fn are_slaves_reported(reported: &[PartLog<FileLog>]) -> bool
    ensures { IsTrue result → AreSlavesReported reported.now }
{
    for place in 0..reported.len() {
        if !is_part_reported(&reported[place].reported, LinePart::Slave(place)) {
            return false;
        }
    }
    true
}

/// Whether the log of the device of this part is reported.
fn is_part_reported(reported: &FileLog, part: LinePart) -> bool
    ensures { IsTrue result → IsPartReported part reported.now }
{
    if !reported.is_of(part) {
        return false;
    }
    reported.calls.is_some()
}
