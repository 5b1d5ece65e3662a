ghost use Rattle.std.specs.Prelude.{◌≡◌, MatchResult, IfOk, IfErr, IsTrue};
ghost use Rattle.esc_rom.specs.Owned.{OwnsAll};
ghost use Rattle.station_alone.specs.Rounds.{IsDone, IsLeft, IsSmall, IsWorking};
ghost use Rattle.station_alone.specs.Keeping.{KeepsThroughout};
ghost use Rattle.station_alone.specs.Recovery.{
  BeginsRecovered,
  CountsRecovered,
  FailsToRecover,
  HasRecovered,
  MakesFewCalls,
  RecoversBySteps,
};

use crate::rounds::redo;
use crate::step::stand;
use crate::{Alone, Found, OpenFault};
use site_core::Site;
use std::alloc::Global;

/// What a recovery found, and what it did.
#[derive(Clone, Copy)]
pub struct Recovered {
    /// Number of batches that were live in the journal.
    pub batches: u64,
    /// Number of commands in these batches.
    pub commands: u64,
    /// Number of issues: words sent to slaves, each counted as often as it was sent.
    pub words: u64,
}

/// Recovers with a station that was opened; `found` counts what was live in its journal.
fn finish<S: Site>(station: Alone<S>, found: Found) -> Result<(Alone<S>, Recovered), (S, OpenFault)>
    requires working { IsWorking station }
    requires small { IsSmall station.book }
    ensures done { IfOk result (λ r. IsDone found station r.1 r.0) }
    ensures left { IfErr result (λ e. IsLeft e.1 station (S.line e.0) (S.seen e.0)) }
{
    let mut station = station;
    match redo(&mut station) {
        Ok(words) => {
            let recovered = Recovered {
                batches: found.batches,
                commands: found.commands,
                words,
            };
            Ok((station, recovered))
        }
        Err(fault) => {
            let (core, site) = station.into_parts();
            drop(core);
            Err((site, fault))
        }
    }
}

/// Recovers a line: opens a station on the site, redoes and retires what is live, and migrates an old journal to version 2.
///
/// Afterwards the slaves hold the contents after a prefix of the commands accepted before, with every acknowledged one in it. A
/// recovery may be cut at any moment, and run again. The site must have a disk and own the EEPROM of every slave of its line.
///
/// # Errors
///
/// First as for `Alone::open`. Then the first fault that occurs: `Journal` with the device fault `Disk` or `Stopped`; `Slave` with
/// `SlaveDead` for a slave that is given up; `Memory` for a write of a migration. The site is handed back as the calls so far left it, and
/// what was recoverable stays so.
pub fn recover<S: Site>(alloc: Global, site: S) -> Result<(Alone<S>, Recovered), (S, OpenFault)>
    requires disk { IsTrue (S.line site).has_disk }
    requires slaves { OwnsAll (S.line site) }
    ensures line { MatchResult result (λ r. r.0.line ≡ S.line site) (λ e. S.line e.0 ≡ S.line site) }
    ensures keeps { MatchResult result (λ r. KeepsThroughout (S.seen site) r.0.seen) (λ e. KeepsThroughout (S.seen site) (S.seen e.0)) }
    ensures few_calls { MatchResult result
        (λ r. MakesFewCalls (S.line site).sizes (S.seen site) r.0.seen)
        (λ e. MakesFewCalls (S.line site).sizes (S.seen site) (S.seen e.0)) }
    ensures counts { IfOk result (λ r. CountsRecovered (S.line site).sizes (S.seen site) r.1 r.0) }
    ensures steps { IfOk result (λ r. RecoversBySteps (S.line site) (S.seen site) r.0) }
    ensures recovered { IfOk result (λ r. HasRecovered r.0) }
    ensures begins { IfOk result (λ r. BeginsRecovered (S.seen site) r.0) }
    ensures refused { IfErr result (λ e. FailsToRecover (S.line site) (S.seen site) e.1 (S.line e.0) (S.seen e.0)) }
{
    match Alone::open_counted(alloc, site) {
        Ok((station, found)) => {
            stand(&station);
            finish(station, found)
        }
        Err(refused) => Err(refused),
    }
}
