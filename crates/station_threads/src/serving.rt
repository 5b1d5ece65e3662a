//! Serves a line from a desk, all its parts at the same time.

ghost use Rattle.std.specs.Prelude.{◌≡◌, ◌≤◌, [], length, vec_len, vec_capacity, IfOk, IfErr, MatchResult};
ghost use Rattle.station_threads.specs.Sites.{OwnParts, OwnSlaves, AreEndsOfSites, IsEndOfTurns};
ghost use Rattle.station_threads.specs.Starting.{TurnsInto, AreWorkersOf, EndAs};

use crate::client::Client;
use crate::closing::Ends;
use crate::desk::Desk;
use crate::sites::Sites;
use crate::starting::{Turning, Worker, start_cycle, start_flusher, start_worker};
use desk_book::{Refusals, Tickets};
use site_core::Site;
use station_jobs::{CycleLog, End, Hook, SlaveLog};
use std::alloc::Global;
use std::sync::Wait;
use std::thread;
use std::thread::{Promise, PromisedHandle, Scope, Threads};

/// Starts the workers, in order. False if a thread couldn't be created, and that slave was served on this thread.
fn start_workers<
    's,
    E,
    T: Tickets + Send + Sync,
    R: Refusals + Send + Sync,
    S: Site + Send + Drop + 's,
    G: Hook + Sync,
    W: Wait + Threads + Sync,
>(
    scope: &'s Scope<'s, E>,
    rt: &'s W,
    desk: &'s Desk<T, R>,
    hook: &'s G,
    sites: Vec<S>,
    workers: &mut Vec<Worker<S>>,
) -> bool
    requires owned { OwnSlaves S.line sites.items }
    requires empty { workers.old.items ≡ [] }
    requires room { vec_len sites ≤ vec_capacity workers.old }
    ensures { AreWorkersOf sites.items workers.new.items }
{
    let mut all_there = true;
    for site in sites {
        let slave = workers.len() as u16;
        let worker = start_worker(scope, rt, desk, hook, slave, site);
        all_there = all_there && worker.is_ok();
        workers.push_reserved(worker);
    }
    all_there
}

/// Waits for the end of a part, unless it has ended already.
fn join<T: Drop, P: Promise<T>, R: Threads>(rt: &R, started: Result<PromisedHandle<T, P>, T>) -> T
    ensures { MatchResult started (λ handle. P.kept_by handle.promise result) (λ end. result ≡ end) }
{
    match started {
        Ok(handle) => handle.join(rt),
        Err(end) => end,
    }
}

/// Waits for the end of each worker, in order.
fn join_workers<S: Site + Drop, R: Threads>(
    rt: &R,
    workers: Vec<Worker<S>>,
    ends: &mut Vec<End<S, SlaveLog>>,
)
    requires empty { ends.old.items ≡ [] }
    requires room { vec_len workers ≤ vec_capacity ends.old }
    ensures { EndAs workers.items ends.new.items }
{
    for worker in workers {
        ends.push_reserved(join(rt, worker));
    }
}

/// Waits for the end of the process data thread, if there is one.
fn join_turning<S: Site + Drop, R: Threads>(rt: &R, turning: Turning<S>) -> Option<End<S, CycleLog>>
    ensures { TurnsInto turning result }
{
    match turning {
        Some(started) => Some(join(rt, started)),
        None => None,
    }
}

/// The sites of a line, with memory for its workers and their ends.
#[derive(Drop)]
struct PreparedLine<S: Site> {
    sites: Sites<S>,
    workers: Vec<Worker<S>>,
    ends: Vec<End<S, SlaveLog>>,
    ghost empty: { (workers.items ≡ []) × (ends.items ≡ []) },
    ghost room: { (vec_len sites.slaves ≤ vec_capacity workers) × (vec_len sites.slaves ≤ vec_capacity ends) },
}

/// Serves all parts, with threads of this scope. The process data comes last: if it has to be served on this thread, all workers are there.
fn serve_in<
    's,
    E,
    T: Tickets + Send + Sync,
    R: Refusals + Send + Sync,
    S: Site + Send + Drop + 's,
    G: Hook + Sync,
    C: Client<T, R>,
    W: Wait + Threads + Sync,
>(
    scope: &'s Scope<'s, E>,
    rt: &'s W,
    desk: &'s Desk<T, R>,
    prepared: PreparedLine<S>,
    hook: &'s G,
    client: &mut C,
) -> Ends<S>
    requires owned { OwnParts S.line prepared.sites.disk prepared.sites.slaves.items prepared.sites.cycle }
    requires long { desk.now.limit ≤ length (S.seen prepared.sites.disk).state.disk.bytes }
    ensures flusher { result.flusher.start ≡ prepared.sites.disk }
    ensures workers { AreEndsOfSites prepared.sites.slaves.items result.workers.items }
    ensures cycle { IsEndOfTurns prepared.sites.cycle result.cycle }
{
    let PreparedLine {
        sites,
        mut workers,
        mut ends,
    } = prepared;
    let Sites {
        disk,
        slaves,
        cycle,
    } = sites;
    let flusher = start_flusher(scope, rt, desk, disk);
    let all_work = start_workers(scope, rt, desk, hook, slaves, &mut workers);
    let turning = start_cycle(scope, rt, desk, cycle);
    if all_work && flusher.is_ok() && !matches!(&turning, Some(Err(_))) {
        client.drive(rt, desk);
    }
    desk.finish(rt);
    join_workers(rt, workers, &mut ends);
    let flusher = join(rt, flusher);
    let cycle = join_turning(rt, turning);
    Ends {
        flusher,
        workers: ends,
        cycle,
    }
}

/// Serves a line: threads do what the desk hands out, while the client drives the desk on this thread.
///
/// The disk, each slave and, if it has a site, the process data get a thread each. Once the client returns, the desk is finished, and
/// this waits for the end of each thread. The hook is for tests.
///
/// Each site has to own what it is served for, as `own_parts` checks. The disk has to reach at least to the end of the journal's area.
///
/// If a thread can't be created, the desk is finished, that part is served on this thread, and the client isn't called. The process data
/// thread is started last, so that the threads whose work ends its cycles are there by then.
///
/// # Errors
///
/// The sites are handed back, and nothing was started: there isn't one site for each slave of the desk's book (`Desk::slaves`), or
/// memory was refused for the workers or their ends.
pub fn serve_line<
    'e,
    T: Tickets + Send + Sync,
    R: Refusals + Send + Sync,
    S: Site + Send + Drop + 'e,
    G: Hook + Sync,
    C: Client<T, R>,
    W: Wait + Threads + Sync,
>(
    rt: &'e W,
    alloc: Global,
    desk: &'e Desk<T, R>,
    sites: Sites<S>,
    hook: &'e G,
    client: &'e mut C,
) -> Result<Ends<S>, Sites<S>>
    requires owned { OwnParts S.line sites.disk sites.slaves.items sites.cycle }
    requires long { desk.now.limit ≤ length (S.seen sites.disk).state.disk.bytes }
    ensures count { IfOk result (λ _. length sites.slaves.items ≡ length T.opened.words) }
    ensures flusher { IfOk result (λ ends. ends.flusher.start ≡ sites.disk) }
    ensures workers { IfOk result (λ ends. AreEndsOfSites sites.slaves.items ends.workers.items) }
    ensures cycle { IfOk result (λ ends. IsEndOfTurns sites.cycle ends.cycle) }
    ensures handed_back { IfErr result (λ same. same ≡ sites) }
{
    let slaves = sites.slaves.len();
    if slaves != desk.slaves(rt) {
        return Err(sites);
    }
    let Ok(workers) = Vec::with_capacity(alloc, slaves) else {
        return Err(sites);
    };
    let Ok(ends) = Vec::with_capacity(alloc, slaves) else {
        drop(workers);
        return Err(sites);
    };
    let prepared = PreparedLine {
        sites,
        workers,
        ends,
    };
    Ok(thread::scope(
        thread::scope_env(),
        rt,
        move |scope| -> Ends<S>
            requires owned { OwnParts S.line prepared.sites.disk prepared.sites.slaves.items prepared.sites.cycle }
            requires long { desk.now.limit ≤ length (S.seen prepared.sites.disk).state.disk.bytes }
            ensures flusher { result.flusher.start ≡ prepared.sites.disk }
            ensures workers { AreEndsOfSites prepared.sites.slaves.items result.workers.items }
            ensures cycle { IsEndOfTurns prepared.sites.cycle result.cycle }
        { serve_in(scope, rt, desk, prepared, hook, client) },
    ))
}
