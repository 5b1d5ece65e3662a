//! What has gone wrong in a subcommand.
ghost use Rattle.std.specs.Prelude.{◌≡◌, ◌≢◌, [], slice_get, IfErr, IfOk, OnErr, OnOk};
ghost use Rattle.station_files.specs.Failures.{met_by, with_failure};
ghost use Rattle.station_files.specs.Faults.{IsFaultless, status_of};
ghost use Rattle.station_files.specs.declared.faults.Failure.TheVariants as failures;

use crate::faults::{ExitStatus, Failure, Fault};
use arrayvec::ArrayVec;
use std::io::Write;

/// How many failures are kept. No subcommand has as many: its work, what is saved after that, its report and its capture fail once each.
const MOST: usize = 8;

/// The failures of a subcommand, in the order in which they came. The subcommand goes on as far as it can, and they are printed at its end.
#[derive(Drop)]
pub struct Failures {
    met: ArrayVec<Failure, MOST>,
}

impl Failures {
    /// None yet.
    pub fn none() -> Failures
        ensures { met_by result ≡ [] }
    {
        Failures {
            met: ArrayVec::new(),
        }
    }

    /// Notes a failure, and returns its exit status. After eight failures none is kept any more.
    pub fn note_failure(&mut self, failure: Failure) -> ExitStatus
        ensures done { result ≢ ExitStatus.Done }
        ensures noted { met_by self.new ≡ with_failure (met_by self.old) failure }
    {
        let _ = self.met.try_push(failure);
        failure.status()
    }

    /// Notes a fault, as `note_failure` does, and returns its exit status.
    pub fn note(&mut self, fault: Fault) -> ExitStatus
        ensures exact { result ≡ status_of fault }
        ensures done { result ≢ ExitStatus.Done }
        ensures fault { ¬ IsFaultless result }
        ensures noted { met_by self.new ≡ with_failure (met_by self.old) (failures.Fault fault) }
    {
        let _ = self.note_failure(Failure::Fault(fault));
        fault.status()
    }

    /// The exit status for a result: `Done`, or that of the fault, which is noted.
    pub fn note_end(&mut self, ended: Result<(), Fault>) -> ExitStatus
        ensures done { OnOk ended (result ≡ ExitStatus.Done) }
        ensures fault { OnErr ended (¬ IsFaultless result) }
        ensures noted { IfErr ended (λ fault. met_by self.new ≡ with_failure (met_by self.old) (failures.Fault fault)) }
        ensures same { OnOk ended (self.new ≡ self.old) }
    {
        match ended {
            Ok(()) => ExitStatus::Done,
            Err(fault) => self.note(fault),
        }
    }

    /// The exit status that work ended with, or that of its fault, which is noted.
    pub fn note_status(&mut self, ended: Result<ExitStatus, Fault>) -> ExitStatus
        ensures ended { IfOk ended (λ status. result ≡ status) }
        ensures fault { OnErr ended (¬ IsFaultless result) }
        ensures noted { IfErr ended (λ fault. met_by self.new ≡ with_failure (met_by self.old) (failures.Fault fault)) }
        ensures same { OnOk ended (self.new ≡ self.old) }
    {
        match ended {
            Ok(status) => status,
            Err(fault) => self.note(fault),
        }
    }

    /// The one that came first.
    pub fn first(&self) -> Option<Failure>
        ensures { result ≡ slice_get (met_by self.now) 0 }
    {
        self.met.as_slice().first().copied()
    }

    /// Prints each on a line of its own. An error of the stream is ignored.
    pub fn print<E: Write>(&self, stream: &mut E) {
        for failure in self.met.as_slice() {
            let _ = writeln!(stream, "{failure}");
        }
    }
}
