//! What a thread returns at its end: its site and the log of its jobs.

ghost use Rattle.std.specs.Prelude.{◌≡◌};
ghost use Rattle.site_core.specs.State.{Seen};
ghost use Rattle.station_jobs.specs.Cycling.{IsCycled};
ghost use Rattle.station_jobs.specs.Flushing.{IsFlushed};
ghost use Rattle.station_jobs.specs.Working.{IsWorked};

use crate::cycle_notes::CycleLog;
use crate::log::{DiskLog, SlaveLog};
use site_core::Site;
use std::marker::Model;
use std::snapshot::Snapshot;

/// A log of jobs that took a site from one state to another.
pub trait Leads {
    /// The jobs of the log, in order and with nothing in between, led from the first state to the second.
    ghost leads: { Self → Seen → Seen → Type 0 };
}

impl Leads for DiskLog {
    ghost leads = { IsFlushed };
}

impl Leads for SlaveLog {
    ghost leads = { λ log old new. IsWorked log.slave log.jobs old new };
}

impl Leads for CycleLog {
    ghost leads = { IsCycled };
}

/// The site of a thread that has ended, with the log of its jobs.
///
/// The type guarantees that the jobs of the log led the site from where it was at the start to where it is now.
#[derive(Drop)]
pub struct End<S: Site, L: Leads> {
    site: S,
    log: L,
    start: Snapshot<S>,
}

impl<S: Site, L: Leads> Model for End<S, L> {
    ghost use Rattle.std.specs.Prelude.{◌≡◌};
    ghost use Rattle.station_jobs.specs.Ends.{Stay};

    ghost Value = { Stay S L };

    ghost view = { λ end. record { start = end.start.value; site = end.site; log = end.log } };

    ghost invariant = { λ end. (S.line end.site ≡ S.line end.start.value) × L.leads end.log (S.seen end.start.value) (S.seen end.site) };
}

impl<S: Site, L: Leads> End<S, L> {
    /// The end of a thread whose jobs led from the start to this site.
    pub(crate) fn new(site: S, log: L, start: Snapshot<S>) -> Self
        requires line { S.line site ≡ S.line start.value }
        requires leads { L.leads log (S.seen start.value) (S.seen site) }
        ensures start { result.start ≡ start.value }
        ensures site { result.site ≡ site }
        ensures log { result.log ≡ log }
    {
        End { site, log, start }
    }

    /// The log of the jobs.
    pub fn log(&self) -> &L
        ensures log { result.now ≡ self.now.log }
        ensures line { S.line self.now.site ≡ S.line self.now.start }
        ensures led { L.leads self.now.log (S.seen self.now.start) (S.seen self.now.site) }
    {
        &self.log
    }

    /// The site.
    pub fn site(&self) -> &S
        ensures { result.now ≡ self.now.site }
    {
        &self.site
    }

    /// The site, and the log of its jobs.
    pub fn into_parts(self) -> (S, L)
        ensures site { result.0 ≡ self.site }
        ensures log { result.1 ≡ self.log }
        ensures line { S.line self.site ≡ S.line self.start }
        ensures led { L.leads self.log (S.seen self.start) (S.seen self.site) }
    {
        let End {
            site,
            log,
            start: _,
        } = self;
        (site, log)
    }
}
