//! Serves a line for two submitters, and closes its desk.

ghost use Rattle.std.specs.Prelude.{◌≡◌, ◌≤◌, ◌<◌, ◌+◌, [], length, IfErr};
ghost use Rattle.station_threads.specs.Sites.{OwnParts};
ghost use Rattle.site_shadow.specs.Site.{SiteValue};

use crate::alone::serve_alone;
use crate::line::{Plan, book_of};
use crate::memory::{Memory, put, room};
use crate::report::{Report, report_of};
use crate::sites::{Trouble, sites_of};
use crate::submitter::{Driver, Pace, Submitter, ended, start_submitting};
use book_core::Core;
use runner_cases::asks::Ask;
use site_mem::MemSite;
use station_jobs::Hook;
use station_threads::{
    BlankLedger, Desk, Ends, Receipt, Refusals, Share, Sites, Tickets, serve_line,
};
use std::alloc::Global;
use std::marker::Brand;
use std::process::Abort;
use std::sync::Wait;
use std::thread;
use std::thread::{Scope, Threads};

/// What isn't handed in when the desk is closed.
#[derive(Clone, Copy)]
pub(crate) enum LeftOut {
    Nothing,
    /// The end of slave 1.
    End,
    /// The share of the second submitter.
    Share,
}

/// How a line is served.
#[derive(Clone, Copy)]
pub(crate) enum Way {
    /// Each part in a thread.
    Threads,
    /// On one thread, one part after the other. The disk has to stop.
    Alone,
}

/// A line with two submitters: the commands of each, and in how many rounds it submits them.
#[derive(Clone, Copy)]
pub(crate) struct Scenario {
    pub(crate) plan: Plan,
    pub(crate) first: &'static [Ask],
    pub(crate) second: &'static [Ask],
    pub(crate) rounds: usize,
    pub(crate) pace: Pace,
    pub(crate) way: Way,
    pub(crate) trouble: Trouble,
    pub(crate) left_out: LeftOut,
    pub(crate) memory: Memory,
}

/// A desk, the scenario in which it is served, and the hook of its workers.
#[derive(Drop)]
struct Service<'a, T: Tickets, R: Refusals, G> {
    desk: &'a Desk<T, R>,
    scenario: &'a Scenario,
    hook: &'a G,
}

/// Serves the line while the driver submits. Hands the sites back if memory was refused.
fn try_serve<
    T: Tickets + Send + Sync,
    R: Refusals + Send + Sync,
    G: Hook + Sync,
    W: Wait + Threads + Sync + Abort,
>(
    rt: &W,
    alloc: Global,
    desk: &Desk<T, R>,
    sites: Sites<MemSite>,
    hook: &G,
    driver: &mut Driver<T, R>,
) -> Result<Ends<MemSite>, Sites<MemSite>>
    requires owned { OwnParts (λ (site : SiteValue). site.line) sites.disk sites.slaves.items sites.cycle }
    requires long { desk.now.limit ≤ length sites.disk.seen.state.disk.bytes }
    ensures { IfErr result (λ same. same ≡ sites) }
{
    serve_line(rt, alloc, desk, sites, hook, driver)
}

/// Serves the line while the driver submits, with a second try where a growth is refused on purpose.
fn serve<
    T: Tickets + Send + Sync,
    R: Refusals + Send + Sync,
    G: Hook + Sync,
    W: Wait + Threads + Sync + Abort,
>(rt: &W, alloc: Global, service: Service<T, R, G>, driver: &mut Driver<T, R>) -> Ends<MemSite>
    requires { service.desk.now.limit ≤ 8 + service.scenario.now.plan.area }
{
    let Service {
        desk,
        scenario,
        hook,
    } = service;
    let sites = sites_of(rt, alloc, &scenario.plan, scenario.trouble);
    match try_serve(rt, alloc, desk, sites, hook, driver) {
        Ok(ends) => ends,
        Err(sites) => {
            assert!(rt; scenario.memory == Memory::RefusedOnce);
            try_serve(rt, alloc, desk, sites, hook, driver)
                .ok()
                .expect(rt, "memory")
        }
    }
}

/// Serves the line while both submit, the other on a thread of the scope.
fn serve_in<
    's,
    E,
    T: Tickets + Send + Sync + 's,
    R: Refusals + Send + Sync + 's,
    G: Hook + Sync,
    W: Wait + Threads + Sync + Abort,
>(
    scope: &'s Scope<'s, E>,
    rt: &'s W,
    alloc: Global,
    service: Service<'s, T, R, G>,
    driver: &mut Driver<T, R>,
    other: Submitter<T, R>,
) -> (Ends<MemSite>, Submitter<T, R>)
    requires { service.desk.now.limit ≤ 8 + service.scenario.now.plan.area }
{
    let started = start_submitting(scope, rt, service.desk, other);
    let ends = serve(rt, alloc, service, driver);
    (ends, ended(rt, started))
}

/// Serves the line by threads, while both submit.
fn serve_both<
    'e,
    T: Tickets + Send + Sync + 'e,
    R: Refusals + Send + Sync + 'e,
    G: Hook + Sync,
    W: Wait + Threads + Sync + Abort,
>(
    rt: &'e W,
    alloc: Global,
    service: Service<'e, T, R, G>,
    driver: &'e mut Driver<T, R>,
    other: Submitter<T, R>,
) -> (Ends<MemSite>, Submitter<T, R>)
    requires { service.desk.now.limit ≤ 8 + service.scenario.now.plan.area }
{
    thread::scope(
        thread::scope_env(),
        rt,
        move |scope| -> (Ends<MemSite>, Submitter<T, R>)
            requires { service.desk.now.limit ≤ 8 + service.scenario.now.plan.area }
        { serve_in(scope, rt, alloc, service, driver, other) },
    )
}

/// The shares and receipts of the two submitters, except what isn't to be handed in.
fn held<T: Tickets, R: Refusals>(
    rt: &impl Abort,
    alloc: Global,
    first: Submitter<T, R>,
    other: Submitter<T, R>,
    left_out: LeftOut,
) -> (Vec<Share<T, R>>, Vec<Receipt>) {
    let (one, mut receipts) = first.into_parts();
    let (other, others) = other.into_parts();
    hand_in(rt, &mut receipts, others);
    let mut shares = room(rt, alloc, 2);
    put(rt, &mut shares, one);
    if matches!(left_out, LeftOut::Share) {
        drop(other);
    } else {
        put(rt, &mut shares, other);
    }
    (shares, receipts)
}

/// Puts these receipts after the others.
fn hand_in(rt: &impl Abort, receipts: &mut Vec<Receipt>, others: Vec<Receipt>) {
    for receipt in others {
        put(rt, receipts, receipt);
    }
}

/// The ends, except the one that isn't to be handed in.
fn ends_but(mut ends: Ends<MemSite>, left_out: LeftOut) -> Ends<MemSite> {
    if matches!(left_out, LeftOut::End) && ends.workers.len() > 1 {
        drop(ends.workers.remove(1));
    }
    ends
}

/// A driver and the other submitter, with the only two shares of the desk, of which this is the first.
fn both_of<T: Tickets, R: Refusals, W: Wait + Abort>(
    rt: &W,
    alloc: Global,
    desk: &Desk<T, R>,
    share: Share<T, R>,
    scenario: &Scenario,
) -> (Driver<T, R>, Submitter<T, R>) {
    let first = Submitter::new(rt, alloc, desk, share, scenario, scenario.first);
    let share = desk.share(rt).ok().expect(rt, "a share");
    let other = Submitter::new(rt, alloc, desk, share, scenario, scenario.second);
    assert!(rt; desk.share(rt).is_err());
    let asks = scenario.first.len().saturating_add(scenario.second.len());
    let driver = Driver {
        submitter: first,
        accepted: asks.saturating_mul(scenario.rounds) as u64,
    };
    (driver, other)
}

/// What the submitters hold, and the ends of the line's threads, except what isn't to be handed in.
type Left<T, R> = ((Vec<Share<T, R>>, Vec<Receipt>), Ends<MemSite>);

/// Serves the line from the desk.
fn serve_at<
    T: Tickets + Send + Sync,
    R: Refusals + Send + Sync,
    G: Hook + Sync,
    W: Wait + Threads + Sync + Abort,
>(
    rt: &W,
    alloc: Global,
    desk: &Desk<T, R>,
    share: Share<T, R>,
    scenario: &Scenario,
    hook: &G,
) -> Left<T, R>
    requires { desk.now.limit ≤ 8 + scenario.now.plan.area }
{
    let (mut driver, other) = both_of(rt, alloc, desk, share, scenario);
    let service = Service {
        desk,
        scenario,
        hook,
    };
    let (ends, mut other) = match scenario.way {
        Way::Threads => serve_both(rt, alloc, service, &mut driver, other),
        Way::Alone => (serve_alone(rt, alloc, desk, scenario), other),
    };
    other.wait_all(rt, desk);
    (
        held(rt, alloc, driver.submitter, other, scenario.left_out),
        ends_but(ends, scenario.left_out),
    )
}

/// Serves the line from a desk of this book, and closes the desk. None: memory for the desk was refused.
fn serve_by<
    T: Tickets + Send + Sync,
    R: Refusals + Send + Sync,
    G: Hook + Sync,
    W: Wait + Threads + Sync + Abort,
>(
    rt: &W,
    alloc: Global,
    tickets: BlankLedger,
    refusals: BlankLedger,
    core: Core,
    scenario: &Scenario,
    hook: &G,
) -> Option<Report>
    requires core { core ≡ T.opened }
    requires none { core.accepted ≡ [] }
    requires tickets { (tickets.name ≡ T.name) × (tickets.count ≡ T.parts) }
    requires refusals { (refusals.name ≡ R.name) × (refusals.count ≡ R.parts) }
    requires parts { (1 < tickets.count) × (1 < refusals.count) }
    requires area { core.capacity ≡ scenario.now.plan.area }
{
    let Ok((desk, share)) = Desk::<T, R>::with_share(alloc, core, tickets, refusals) else {
        return None;
    };
    let (held, ends) = serve_at(rt, alloc, &desk, share, scenario, hook);
    Some(report_of(rt, alloc, desk, held, ends, scenario.memory))
}

/// Serves the line, and closes its desk. None: memory for the desk was refused.
fn try_session<G: Hook + Sync, W: Wait + Threads + Sync + Abort>(
    rt: &W,
    alloc: Global,
    scenario: &Scenario,
    hook: &G,
) -> Option<Report> {
    assert!(rt; scenario.plan.area >= 4096);
    let core = book_of(rt, alloc, &scenario.plan);
    serve_by::<Brand, Brand, G, W>(
        rt,
        alloc,
        BlankLedger::new(3),
        BlankLedger::new(3),
        core,
        scenario,
        hook,
    )
}

/// Serves the line, and closes its desk, with a second try where a growth is refused on purpose.
pub(crate) fn session<G: Hook + Sync, W: Wait + Threads + Sync + Abort>(
    rt: &W,
    alloc: Global,
    scenario: &Scenario,
    hook: &G,
) -> Report {
    match try_session(rt, alloc, scenario, hook) {
        Some(report) => report,
        None => {
            assert!(rt; scenario.memory == Memory::RefusedOnce);
            try_session(rt, alloc, scenario, hook).expect(rt, "memory")
        }
    }
}
