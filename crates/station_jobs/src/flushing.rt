//! The loop of the disk's thread.

ghost use Rattle.std.specs.Prelude.{◌≡◌, [], IsTrue};
ghost use Rattle.station_jobs.specs.Flushing.{CanBegin, DoesAction, Flushes};

use crate::dispatch::{Dispatch, Turn};
use crate::end::End;
use crate::log::DiskLog;
use book_model::DiskNext;
use site_core::{DeviceFault, Site};
use site_journal::do_action;
use std::snapshot::Snapshot;
use std::sync::Wait;

/// Does one action on the disk.
fn act<S: Site>(site: &mut S, action: DiskNext) -> Result<(), DeviceFault>
    requires disk { IsTrue (S.line site.old).has_disk }
    requires begins { CanBegin action (S.seen site.old).state.disk }
    ensures does { DoesAction action result (S.seen site.old) (S.seen site.new) }
    ensures line { S.line site.new ≡ S.line site.old }
{
    do_action(site, &action)
}

/// Does the disk actions that the dispatch hands out, one after another, until the dispatch answers `Stop` or the site has stopped.
///
/// It reports each outcome to the dispatch, and asks again after `Again`. The site has to own the disk. The dispatch must have handed out
/// nothing yet, and may hand out only actions that begin inside the disk or right after its end.
pub fn flush<S: Site, D: Dispatch<DiskLog>, R: Wait>(
    rt: &R,
    mut site: S,
    mut dispatch: D,
) -> End<S, DiskLog>
    requires disk { IsTrue (S.line site).has_disk }
    requires fresh { D.log dispatch ≡ [] }
    requires begins { (action : DiskNext) → D.may_hand dispatch action → CanBegin action (S.seen site).state.disk }
    ensures start { result.start ≡ site }
    ensures flushes { Flushes (D.has_ended dispatch) result.log (S.seen site) (S.seen result.site) }
{
    let start = Snapshot::of(&site);
    for _ in rt.forever() {
        match dispatch.next(rt) {
            Turn::Again => {}
            Turn::Stop => break,
            Turn::Work(action) => {
                let result = act(&mut site, action);
                dispatch.done(rt, result);
                if result == Err(DeviceFault::Stopped) {
                    break;
                }
            }
        }
    }
    End::new(site, dispatch.into_log(), start)
}
