//! A line that is served on one thread, one part after the other.

ghost use Rattle.std.specs.Prelude.{◌≤◌, ◌+◌};

use crate::memory::put;
use crate::session::Scenario;
use crate::sites::{number_of, sites_of};
use site_core::Site;
use site_mem::MemSite;
use station_jobs::{End, NoHook, SlaveLog, flush, work};
use station_threads::{Desk, Ends, Refusals, Sites, Tickets};
use std::alloc::Global;
use std::process::Abort;
use std::sync::Wait;

/// Serves the slaves, in order.
fn work_each<T: Tickets + Send + Sync, R: Refusals + Send + Sync, W: Wait + Abort>(
    rt: &W,
    alloc: Global,
    desk: &Desk<T, R>,
    slaves: Vec<MemSite>,
) -> Vec<End<MemSite, SlaveLog>> {
    let mut ends = Vec::new(alloc);
    for site in slaves {
        let slave = number_of(ends.len());
        assert!(rt; site.owns(slave));
        let end = work(rt, site, slave, desk.rom_side(slave), &NoHook);
        put(rt, &mut ends, end);
    }
    ends
}

/// Serves the disk, and then the slaves. The disk has to stop before it waits for them.
pub(crate) fn serve_alone<T: Tickets + Send + Sync, R: Refusals + Send + Sync, W: Wait + Abort>(
    rt: &W,
    alloc: Global,
    desk: &Desk<T, R>,
    scenario: &Scenario,
) -> Ends<MemSite>
    requires { desk.now.limit ≤ 8 + scenario.now.plan.area }
{
    let Sites {
        disk,
        slaves,
        cycle,
    } = sites_of(rt, alloc, &scenario.plan, scenario.trouble);
    drop(cycle);
    let flusher = flush(rt, disk, desk.disk_side());
    Ends {
        flusher,
        workers: work_each(rt, alloc, desk, slaves),
        cycle: None,
    }
}
