//! The loop of a slave's thread.

ghost use Rattle.std.specs.Prelude.{◌≡◌, []};
ghost use Rattle.site_core.specs.Line.{Owns};
ghost use Rattle.station_jobs.specs.Working.{CallsSlave, IsCall, Works};

use crate::dispatch::{Dispatch, Turn};
use crate::end::End;
use crate::hook::Hook;
use crate::log::{RomLog, SlaveLog};
use book_model::{RomNext, RomOutcome};
use esc_rom::{issue, settle};
use site_core::Site;
use std::snapshot::Snapshot;
use std::sync::Wait;

/// Issues or settles one word of a slave.
fn call<S: Site>(site: &mut S, slave: u16, job: RomNext) -> RomOutcome
    requires owns { Owns (S.line site.old) slave }
    requires call { IsCall job }
    ensures calls { CallsSlave slave job result (S.seen site.old) (S.seen site.new) }
    ensures line { S.line site.new ≡ S.line site.old }
{
    match job {
        RomNext::Issue { word, value } => match issue(site, slave, word, value) {
            Ok(issued) => RomOutcome::Issued(issued),
            Err(_) => RomOutcome::Stopped,
        },
        RomNext::Settle { taken } => match settle(site, slave, taken) {
            Ok(settled) => RomOutcome::Settled(settled),
            Err(_) => RomOutcome::Stopped,
        },
        RomNext::Idle | RomNext::Stop => unreachable!(),
    }
}

/// Issues and settles the words of one slave that the dispatch hands out, one after another.
///
/// It ends when the dispatch answers `Stop`, the site has stopped, or the hook answers false. It reports each outcome to the dispatch,
/// except the one for which the hook answers false, and asks again after `Again`. The site has to own the slave's EEPROM half. The
/// dispatch must have handed out nothing yet, and may hand out only issues and settles.
pub fn work<S: Site, D: Dispatch<RomLog>, G: Hook, R: Wait>(
    rt: &R,
    mut site: S,
    slave: u16,
    mut dispatch: D,
    hook: &G,
) -> End<S, SlaveLog>
    requires owns { Owns (S.line site) slave }
    requires fresh { D.log dispatch ≡ [] }
    requires calls { (job : RomNext) → D.may_hand dispatch job → IsCall job }
    ensures start { result.start ≡ site }
    ensures slave { result.log.slave ≡ slave }
    ensures works { Works slave (D.has_ended dispatch) (G.may_hold hook.now) result.log.jobs (S.seen site) (S.seen result.site) }
{
    let start = Snapshot::of(&site);
    for _ in rt.forever() {
        match dispatch.next(rt) {
            Turn::Again => {}
            Turn::Stop => break,
            Turn::Work(job) => {
                let outcome = call(&mut site, slave, job);
                if !hook.pass(slave) {
                    break;
                }
                dispatch.done(rt, outcome);
                if outcome == RomOutcome::Stopped {
                    break;
                }
            }
        }
    }
    let log = SlaveLog {
        slave,
        jobs: dispatch.into_log(),
    };
    End::new(site, log, start)
}
