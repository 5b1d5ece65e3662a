//! A run by threads, in which a datagram of a frame of several comes back with a working counter of 0.

use crate::joined::SlowWire;
use crate::wire_threads::reported_on;
use crate::wires::{Bench, bench_of, parts_on, slaves_of};
use ecat_frame::{Command, Datagram, Frame};
use runner_cases::line::THREE;
use site_wire::{LiveLine, LockedLine};
use std::alloc::Global;
use std::io;
use std::rt::Clock;
use std::sync::Wait;
use std::thread::Threads;
use wire_frames::{NumberedWire, Wire};
use wire_practice::PracticeWire;

/// A wire on which the first datagram of a frame comes back with a working counter of 0, once, where the second one writes. The next datagram to
/// the slave of each is compared with the one of that frame.
#[derive(Drop)]
pub(crate) struct FalseWire<W> {
    wire: W,
    /// Whether it is still to happen.
    is_planned: bool,
    /// Whether the frame is under way.
    is_under_way: bool,
    /// The frame.
    frame: Frame,
    /// Whether the next datagrams to the slaves of its first two were the same. None: none has gone there yet.
    again: [Option<bool>; 2],
}

/// What came of a run.
#[derive(Clone, Copy)]
struct Outcome {
    /// Whether it printed what it should.
    is_all: bool,
    /// Whether the first datagram made its slave busy.
    is_work: bool,
    /// Whether the next datagrams to the slaves of the first two were the same. None: none has gone there.
    again: [Option<bool>; 2],
}

/// The first two datagrams of a frame.
fn first_two(frame: &Frame) -> Option<(Datagram<'_>, Datagram<'_>)> {
    let mut datagrams = frame.datagrams();
    let first = datagrams.next()?;
    Some((first, datagrams.next()?))
}

/// Whether a frame has datagrams for two slaves, and its number, and the second one writes.
fn is_for_two(frame: &Frame) -> bool {
    match first_two(frame) {
        Some((_, second)) => frame.count() > 2 && second.command == Command::Fpwr,
        None => false,
    }
}

/// Whether a datagram makes a slave busy that takes it: it writes a command other than 000.
fn begins_work(datagram: Datagram<'_>) -> bool {
    match datagram.content {
        [_, high, ..] => datagram.command == Command::Fpwr && high % 8 != 0,
        _ => false,
    }
}

/// Whether two datagrams go to the same slave.
fn have_same_slave(one: Datagram<'_>, other: Datagram<'_>) -> bool {
    one.address % 65536 == other.address % 65536
}

/// Whether two datagrams ask the same.
fn ask_the_same(one: Datagram<'_>, other: Datagram<'_>) -> bool {
    one.command.code() == other.command.code()
        && one.address == other.address
        && one.content == other.content
}

impl<W> FalseWire<W> {
    /// Compares a datagram that is sent after the frame.
    fn note(&mut self, sent: Datagram<'_>) {
        let Some((first, second)) = first_two(&self.frame) else {
            return;
        };
        let [one, other] = self.again;
        if one.is_none() && have_same_slave(sent, first) {
            self.again[0] = Some(ask_the_same(sent, first));
        }
        if other.is_none() && have_same_slave(sent, second) {
            self.again[1] = Some(ask_the_same(sent, second));
        }
    }

    /// Notes a frame that is sent.
    fn look_at(&mut self, sent: Frame) {
        if self.is_planned && is_for_two(&sent) {
            self.is_planned = false;
            self.is_under_way = true;
            self.frame = sent;
            return;
        }
        for datagram in sent.datagrams() {
            self.note(datagram);
        }
    }

    /// The frame's bytes on the way back, with a working counter of 0 for its first datagram.
    fn falsify(&mut self, bytes: &mut [u8]) {
        self.is_under_way = false;
        if let Some((first, _)) = first_two(&self.frame) {
            let at = first.content.len().saturating_add(12);
            if let Some(counter) = bytes.get_mut(at) {
                *counter = 0;
            }
        }
    }
}

impl<W: Wire> Wire for FalseWire<W> {
    ghost gives = { λ _. Unit {0} };

    fn send(&mut self, bytes: &[u8]) -> io::Result<()> {
        if let Ok(sent) = Frame::parse(bytes) {
            self.look_at(sent);
        }
        self.wire.send(bytes)
    }

    fn receive(&mut self, bytes: &mut [u8]) -> io::Result<usize> {
        let length = self.wire.receive(bytes)?;
        if self.is_under_way {
            self.falsify(bytes);
        }
        Ok(length)
    }
}

/// What comes of a run. None: memory was refused, or the line isn't brought up.
fn ended<R: Wait + Threads + Clock + Sync>(
    rt: &R,
    alloc: Global,
    bench: &Bench,
) -> Option<Outcome> {
    let false_wire = FalseWire {
        wire: PracticeWire::new(slaves_of(alloc, &THREE)?, &bench.clock),
        is_planned: false,
        is_under_way: false,
        frame: Frame::new(),
        again: [None; 2],
    };
    let mut wire = NumberedWire::new(SlowWire::new(false_wire, rt), 7);
    let parts = parts_on(alloc, bench, &mut wire)?;
    let slow = wire.wire();
    slow.is_slow = true;
    slow.wire.is_planned = true;
    let locked = LockedLine::new(LiveLine::new(wire));
    let reported = reported_on(rt, alloc, bench, &locked, parts)?;
    let mut wire = locked.into_line().into_wire();
    let false_wire = &wire.wire().wire;
    Some(Outcome {
        is_all: reported.is_all,
        is_work: match first_two(&false_wire.frame) {
            Some((first, _)) => begins_work(first),
            None => false,
        },
        again: false_wire.again,
    })
}

/// Whether a run prints what it should, the first datagram is sent again unless it made its slave busy, and the second one isn't. None where no
/// frame had two.
fn is_seen<R: Wait + Threads + Clock + Sync>(rt: &R, alloc: Global) -> Option<bool> {
    let bench = bench_of(alloc, &THREE)?;
    let came = ended(rt, alloc, &bench)?;
    match came.again {
        [None, None] if came.is_all => None,
        again => Some(came.is_all && again == [Some(!came.is_work), Some(false)]),
    }
}

// Threads decide themselves when they have something to send, so it is tried a few times.
#[test]
fn a_datagram_that_no_slave_counted_is_sent_again_alone(rt: HostRuntime) {
    let mut seen = None;
    for _run in 0..20u32 {
        if seen.is_none() {
            seen = is_seen(&rt, rt.alloc());
        }
    }
    assert!(rt; seen == Some(true));
}
