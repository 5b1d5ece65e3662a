//! What is reported of the devices of a line on a wire.
ghost use Rattle.std.specs.Prelude.{◌≡◌, Err, Ok, IfOk, IfSome, IsErr, IsTrue};
ghost use Rattle.script_session.specs.Running.{IsNoneReported};
ghost use Rattle.wire_faults.specs.declared.faults.WireFault.TheVariants as wire;
ghost use Rattle.wire_session.specs.Slaves.{AreOfParts, AreOfSlaves};

use script_session::{DeskLog, PartLog, RunLog};
use site_shadow::LinePart;
use site_wire::TellsPart;
use station_files::{ExitStatus, Fault};
use wire_faults::WireFault;

/// How the work on a line ended, and what is reported of its devices. `T` is what one device tells.
#[derive(Drop)]
pub struct Worked<V, T> {
    /// The value, or the fault that ended the work.
    pub ended: Result<V, WireFault>,
    /// Of no device where none has had the line.
    pub reported: RunLog<T>,
}

impl<V, T: Drop> Worked<V, T> {
    /// How the work ended. What is reported is lost.
    pub fn into_ended(self) -> Result<V, WireFault>
        ensures { result ≡ self.ended }
    {
        let Worked { ended, reported: _ } = self;
        ended
    }
}

impl<V, T> Worked<V, T> {
    /// A fault came before the line had a device.
    pub(crate) fn failed(fault: WireFault) -> Worked<V, T>
        ensures ended { result.ended ≡ Err fault }
        ensures none { IsNoneReported result.reported }
    {
        Worked {
            ended: Err(fault),
            reported: RunLog::none(),
        }
    }

    /// The same of a fault that isn't of the wire.
    pub(crate) fn of_fault(fault: Fault) -> Worked<V, T>
        ensures ended { result.ended ≡ Err (wire.Station fault) }
        ensures none { IsNoneReported result.reported }
    {
        Worked::failed(WireFault::Station(fault))
    }
}

/// How work on a line ended: `Unserved` where it was without a fault and a part's device isn't reported as its own.
pub(crate) fn of_own_parts<D: TellsPart>(
    ended: Result<ExitStatus, WireFault>,
    reported: &RunLog<D::Logged>,
) -> Result<ExitStatus, WireFault>
    ensures own { IfOk result (λ status. (ended ≡ Ok status) × IfSome reported.now.desk (AreOfParts D.is_of)) }
    ensures failed { IsErr ended → IsErr result }
{
    let status = ended?;
    if let Some(desk) = &reported.desk {
        if !are_of_parts::<D>(desk) {
            return Err(WireFault::Station(Fault::Unserved));
        }
    }
    Ok(status)
}

/// Whether this is reported of the devices of the disk's part and of each slave's, each of its own.
fn are_of_parts<D: TellsPart>(reported: &DeskLog<D::Logged>) -> bool
    ensures { IsTrue result → AreOfParts D.is_of reported.now }
{
    D::is_reported_of(&reported.disk.reported, LinePart::Disk)
        && are_of_slaves::<D>(reported.slaves.as_slice())
}

/// Whether this is reported of the devices of the slaves' parts, each of its own.
fn are_of_slaves<D: TellsPart>(parts: &[PartLog<D::Logged>]) -> bool
    ensures { IsTrue result → AreOfSlaves D.is_of parts.now }
{
    for slave in 0..parts.len() {
        if !D::is_reported_of(&parts[slave].reported, LinePart::Slave(slave)) {
            return false;
        }
    }
    true
}
