//! Starts a thread for each part of a line.

ghost use Rattle.std.specs.Prelude.{◌≡◌, ◌≤◌, [], length, IfSome, IsTrue, MatchResult};
ghost use Rattle.site_core.specs.Line.{Owns};
ghost use Rattle.station_threads.specs.Parts.{IsEndOfSlave};
ghost use Rattle.station_threads.specs.Starting.{IsStarted, IsTurning, IsWorkerOf};
ghost use denote.Param.Send.{IsSync};

use crate::desk::Desk;
use desk_book::{Refusals, Tickets};
use site_core::Site;
use station_jobs::{CycleLog, DiskLog, End, Hook, SlaveLog, cycle_loop, flush, work};
use std::snapshot::Snapshot;
use std::sync::Wait;
use std::thread::{Promise, PromisedHandle, Scope, Threads};

/// What the thread of the disk or of the process data promises: its end began with this site.
#[derive(Drop)]
pub(crate) struct Since<S> {
    site: Snapshot<S>,
}

impl<S: Site> Promise<End<S, DiskLog>> for Since<S> {
    ghost kept_by = { λ since end. end.start ≡ since.site.value };
}

impl<S: Site> Promise<End<S, CycleLog>> for Since<S> {
    ghost kept_by = { λ since end. end.start ≡ since.site.value };
}

/// What the thread of a slave promises: its end is this slave's, and began with this site.
#[derive(Drop)]
pub(crate) struct SinceOf<S> {
    slave: u16,
    site: Snapshot<S>,
}

impl<S: Site> Promise<End<S, SlaveLog>> for SinceOf<S> {
    ghost use Rattle.station_threads.specs.Parts.{IsEndOfSlave};

    ghost kept_by = { λ since end. IsEndOfSlave since.slave since.site.value end };
}

/// A thread with what it promised of its end. If it couldn't be created, the end of the work, which was then done on the calling thread.
type Started<L, P> = Result<PromisedHandle<L, P>, L>;

/// The thread of the disk.
pub(crate) type Flusher<S> = Started<End<S, DiskLog>, Since<S>>;

/// The thread of a slave.
pub(crate) type Worker<S> = Started<End<S, SlaveLog>, SinceOf<S>>;

/// The process data thread. `None` without process data.
pub(crate) type Turning<S> = Option<Started<End<S, CycleLog>, Since<S>>>;

/// Starts a thread for this work, whose end keeps the promise. If it can't be created, finishes the desk and does this work here.
fn start<
    's,
    E,
    T: Tickets,
    R: Refusals,
    L: Send + Drop + 's,
    P: Promise<L> + Drop,
    F: FnOnce() -> L + Send + 's,
    W: Wait + Threads + Sync,
>(
    scope: &'s Scope<'s, E>,
    rt: &W,
    desk: &Desk<T, R>,
    promise: P,
    work: F,
) -> Result<PromisedHandle<L, P>, L>
    requires runs { F.pre work }
    requires keeps { (end : L) → F.post work end → P.kept_by promise end }
    ensures { MatchResult result (λ handle. handle.promise ≡ promise) (λ end. P.kept_by promise end) }
{
    match scope.spawn_with(promise, work) {
        Ok(handle) => Ok(handle),
        Err(refused) => {
            desk.finish(rt);
            Err((refused.value)())
        }
    }
}

/// Starts the disk's thread. If it can't be created, finishes the desk and serves the disk on this thread.
pub(crate) fn start_flusher<
    's,
    E,
    T: Tickets + Send + Sync,
    R: Refusals + Send + Sync,
    S: Site + Send + Drop + 's,
    W: Wait + Threads + Sync,
>(scope: &'s Scope<'s, E>, rt: &'s W, desk: &'s Desk<T, R>, site: S) -> Flusher<S>
    requires owned { IsTrue (S.line site).has_disk }
    requires long { desk.now.limit ≤ length (S.seen site).state.disk.bytes }
    ensures { IsStarted site result }
{
    let since = Since {
        site: Snapshot::of(&site),
    };
    let serves = move || -> End<S, DiskLog>
        requires sync { IsSync W.row }
        requires owned { IsTrue (S.line site).has_disk }
        requires long { desk.now.limit ≤ length (S.seen site).state.disk.bytes }
        ensures { result.start ≡ site }
    { flush(rt, site, desk.disk_side()) };
    start(scope, rt, desk, since, serves)
}

/// Starts a slave's thread. If it can't be created, finishes the desk and serves the slave on this thread.
pub(crate) fn start_worker<
    's,
    E,
    T: Tickets + Send + Sync,
    R: Refusals + Send + Sync,
    S: Site + Send + Drop + 's,
    G: Hook + Sync,
    W: Wait + Threads + Sync,
>(
    scope: &'s Scope<'s, E>,
    rt: &'s W,
    desk: &'s Desk<T, R>,
    hook: &'s G,
    slave: u16,
    site: S,
) -> Worker<S>
    requires owned { Owns (S.line site) slave }
    ensures { IsWorkerOf slave site result }
{
    let since = SinceOf {
        slave,
        site: Snapshot::of(&site),
    };
    let side = desk.rom_side(slave);
    let serves = move || -> End<S, SlaveLog>
        requires sync { IsSync W.row × IsSync G.row }
        requires owned { Owns (S.line site) slave }
        requires jobs { (side.slave ≡ slave) × (side.log ≡ []) }
        ensures { IsEndOfSlave slave site result }
    { work(rt, site, slave, side, hook) };
    start(scope, rt, desk, since, serves)
}

/// Starts the process data thread, if there is a site for it. If it can't be created, finishes the desk and serves the process data on this
/// thread.
pub(crate) fn start_cycle<
    's,
    E,
    T: Tickets + Send + Sync,
    R: Refusals + Send + Sync,
    S: Site + Send + Drop + 's,
    W: Wait + Threads + Sync,
>(scope: &'s Scope<'s, E>, rt: &'s W, desk: &'s Desk<T, R>, site: Option<S>) -> Turning<S>
    requires { IfSome site (λ site. IsTrue (S.line site).has_process) }
    ensures { IsTurning site result }
{
    let site = site?;
    let since = Since {
        site: Snapshot::of(&site),
    };
    let serves = move || -> End<S, CycleLog>
        requires sync { IsSync W.row }
        requires owned { IsTrue (S.line site).has_process }
        ensures { result.start ≡ site }
    { cycle_loop(rt, site, desk.cycle_side()) };
    Some(start(scope, rt, desk, since, serves))
}
