//! The loop of the process data thread.

ghost use Rattle.std.specs.Prelude.{◌≡◌, ◌≤◌, [], length, replicate, IsTrue, false};
ghost use Rattle.station_jobs.specs.Cycling.{Cycles};
ghost use Rattle.station_jobs.specs.Setting.{SetsLine, TakesJob};

use crate::cycle::{CycleJob, CycleOutcome};
use crate::cycle_notes::CycleLog;
use crate::dispatch::{Dispatch, Turn};
use crate::end::End;
use arrayvec::ArrayVec;
use cyclic::{CycleFault, configure, reconfigure, turn};
use sii_image::{IMAGE_BYTES, Plan};
use site_core::Site;
use std::snapshot::Snapshot;
use std::sync::Wait;

/// `count` zero bytes.
pub fn zero_bytes(count: usize) -> ArrayVec<u8, IMAGE_BYTES>
    requires { count ≤ 1486 }
    ensures { result.items ≡ replicate count 0 }
{
    let mut bytes = ArrayVec::from([0; IMAGE_BYTES]);
    bytes.truncate(count);
    bytes
}

/// Configures the line for a plan: only the slaves whose segments differ, if it is configured for `last`, and otherwise all of it.
fn set_line<S: Site>(site: &mut S, last: &Option<Plan>, plan: &Plan) -> Result<(), CycleFault>
    requires { IsTrue (S.line site.old).has_process }
    ensures sends { SetsLine (length (S.line site.old).sizes) last.now plan.now (S.seen site.old) result (S.seen site.new) }
    ensures line { S.line site.new ≡ S.line site.old }
{
    match last {
        Some(old) => reconfigure(site, old, plan),
        None => configure(site, plan),
    }
}

/// Configures the line for the job's plan, and exchanges its process data. `last` is the plan that the line is configured for.
fn take_turn<S: Site>(site: &mut S, last: &mut Option<Plan>, job: CycleJob) -> CycleOutcome
    requires { IsTrue (S.line site.old).has_process }
    ensures takes { TakesJob (length (S.line site.old).sizes) last.old job (S.seen site.old) result last.new (S.seen site.new) }
    ensures line { S.line site.new ≡ S.line site.old }
{
    let CycleJob { plan, outputs } = job;
    let mut inputs = zero_bytes(plan.image.inputs());
    if let Err(fault) = set_line(site, last, &plan) {
        *last = None;
        return CycleOutcome {
            inputs,
            result: Err(fault),
        };
    }
    let result = turn(site, &plan, &outputs, &mut inputs);
    *last = Some(plan);
    CycleOutcome { inputs, result }
}

/// Exchanges process data, once for each job of the dispatch, until the dispatch answers `Stop` or the site has stopped.
///
/// It reports the outcome of each job to the dispatch before it asks for the next one, also where the site stopped in it. It asks again
/// after `Again`. After a lost frame or a wrong working counter it goes on.
/// Before each exchange the line is configured for the job's plan: by `reconfigure` if the last configuration succeeded, else by
/// `configure`. If this fails, nothing is exchanged.
///
/// The site has to own the process halves of all slaves, and the dispatch must have handed out nothing yet.
pub fn cycle_loop<S: Site, D: Dispatch<CycleLog>, R: Wait>(
    rt: &R,
    mut site: S,
    mut dispatch: D,
) -> End<S, CycleLog>
    requires process { IsTrue (S.line site).has_process }
    requires fresh { D.log dispatch ≡ [] }
    ensures start { result.start ≡ site }
    ensures cycles { Cycles (length (S.line site).sizes) (D.has_ended dispatch)
        (λ outcomes. D.has_job dispatch ≡ false → D.are_reported dispatch outcomes) result.log (S.seen site) (S.seen result.site) }
{
    let start = Snapshot::of(&site);
    let mut last = None;
    for _ in rt.forever() {
        match dispatch.next(rt) {
            Turn::Again => {}
            Turn::Stop => break,
            Turn::Work(job) => {
                let outcome = take_turn(&mut site, &mut last, job);
                let has_stopped = outcome.result == Err(CycleFault::Stopped);
                dispatch.done(rt, outcome);
                if has_stopped {
                    break;
                }
            }
        }
    }
    End::new(site, dispatch.into_log(), start)
}
