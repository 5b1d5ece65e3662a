//! A run by threads on a wire on which each frame takes a while, so that the others have something to send meanwhile.

use crate::wire_threads::reported_on;
use crate::wires::{Bench, bench_of, parts_on, slaves_of};
use ecat_frame::Frame;
use runner_cases::line::THREE;
use site_wire::{LiveLine, LockedLine};
use std::alloc::Global;
use std::rt::Clock;
use std::sync::Wait;
use std::thread::Threads;
use std::time::Duration;
use std::{io, thread};
use wire_frames::{NumberedWire, Wire};
use wire_practice::PracticeWire;

/// How long a frame takes, in microseconds.
const PAUSE: u64 = 500;

/// A wire on which each frame takes a while, once it is slow.
#[derive(Drop)]
pub(crate) struct SlowWire<'r, W, C> {
    pub wire: W,
    clock: &'r C,
    pub is_slow: bool,
    /// How many datagrams a frame has had at most since, without its number.
    most: usize,
}

impl<'r, W, C> SlowWire<'r, W, C> {
    /// One that isn't slow yet.
    pub(crate) fn new(wire: W, clock: &'r C) -> SlowWire<'r, W, C> {
        SlowWire {
            wire,
            clock,
            is_slow: false,
            most: 0,
        }
    }
}

impl<'r, W: Wire, C: Clock> Wire for SlowWire<'r, W, C> {
    ghost gives = { W.gives };

    fn send(&mut self, frame: &[u8]) -> io::Result<()> {
        if self.is_slow {
            if let Ok(sent) = Frame::parse(frame) {
                self.most = self.most.max(sent.count().saturating_sub(1));
            }
            thread::sleep(self.clock, Duration::from_micros(PAUSE));
        }
        self.wire.send(frame)
    }

    fn receive(&mut self, bytes: &mut [u8]) -> io::Result<usize> {
        self.wire.receive(bytes)
    }
}

/// Whether a run prints what it should, and how many datagrams its frames had at most. None: memory was refused, or the line isn't brought up.
fn ended<R: Wait + Threads + Clock + Sync>(
    rt: &R,
    alloc: Global,
    bench: &Bench,
) -> Option<(bool, usize)> {
    let under = PracticeWire::new(slaves_of(alloc, &THREE)?, &bench.clock);
    let mut wire = NumberedWire::new(SlowWire::new(under, rt), 7);
    let parts = parts_on(alloc, bench, &mut wire)?;
    wire.wire().is_slow = true;
    let locked = LockedLine::new(LiveLine::new(wire));
    let reported = reported_on(rt, alloc, bench, &locked, parts)?;
    let most = locked.into_line().into_wire().wire().most;
    Some((reported.is_all, most))
}

/// Whether a run prints what it should, and a frame of it has the datagrams of several slaves.
fn is_joined<R: Wait + Threads + Clock + Sync>(rt: &R, alloc: Global) -> Option<bool> {
    let bench = bench_of(alloc, &THREE)?;
    let (is_all, most) = ended(rt, alloc, &bench)?;
    Some(is_all && (most == 2 || most == 3))
}

// Threads decide themselves when they have something to send, so it is tried a few times.
#[test]
fn a_frame_takes_what_several_threads_have_to_send(rt: HostRuntime) {
    let mut is_seen = false;
    for _run in 0..20u32 {
        is_seen = is_seen || is_joined(&rt, rt.alloc()) == Some(true);
    }
    assert!(rt; is_seen);
}
