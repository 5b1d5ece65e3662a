//! How often a desk hands out the process data cycle of one image.

ghost use Rattle.std.specs.Prelude.{◌≡◌, ◌<◌, []};

use crate::line::book_of;
use crate::served::TURNING;
use book_core::Core;
use station_jobs::{CycleOutcome, Dispatch, Turn, zero_bytes};
use station_threads::{BlankLedger, Desk, Refusals, Tickets};
use std::alloc::Global;
use std::marker::Brand;
use std::process::Abort;
use std::sync::Wait;
use std::test::*;
use std::time::{Duration, Instant};

/// Whether a new desk of this book hands out so many cycles, and none once it is finished.
fn hands_out<T: Tickets + Send + Sync, R: Refusals + Send + Sync, W: Wait + Abort>(
    rt: &W,
    alloc: Global,
    tickets: BlankLedger,
    refusals: BlankLedger,
    core: Core,
    count: usize,
) -> bool
    requires core { core ≡ T.opened }
    requires none { core.accepted ≡ [] }
    requires tickets { (tickets.name ≡ T.name) × (tickets.count ≡ T.parts) }
    requires refusals { (refusals.name ≡ R.name) × (refusals.count ≡ R.parts) }
    requires parts { (1 < tickets.count) × (1 < refusals.count) }
{
    let (desk, _share) = Desk::<T, R>::with_share(alloc, core, tickets, refusals)
        .ok()
        .expect(rt, "memory");
    let mut side = desk.cycle_side();
    for _turn in 0..count {
        let Turn::Work(job) = side.next(rt) else {
            return false;
        };
        let inputs = zero_bytes(job.plan.image.inputs());
        side.done(
            rt,
            CycleOutcome {
                inputs,
                result: Ok(4),
            },
        );
    }
    desk.finish(rt);
    matches!(side.next(rt), Turn::Stop)
}

#[test]
fn cycles_of_one_image_are_ten_milliseconds_apart(rt: HostRuntime) {
    let core = book_of(&rt, rt.alloc(), &TURNING.plan);
    let start = Instant::now(&rt).ok().expect(&rt, "a clock");
    assert!(rt;
        hands_out::<Brand, Brand, HostRuntime>(
            &rt,
            rt.alloc(),
            BlankLedger::new(2),
            BlankLedger::new(2),
            core,
            20
        )
    );
    let took = start.elapsed(&rt).ok().expect(&rt, "a clock");
    assert!(rt; took >= Duration::from_millis(150));
}
