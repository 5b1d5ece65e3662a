//! Runs of the program over files and streams in memory.

use station_cases::{Pen, Printed, Screen, Shelf, Streams};
use station_serve::serve;
use std::alloc::Global;
use std::io;
use std::rt::Clock;
use std::sync::Wait;
use std::sync::atomic::AtomicU64;
use std::sync::atomic::Ordering::SeqCst;
use std::thread::Threads;
use std::time::Duration;

/// What runs are tried with, and what the last one printed.
#[derive(Drop)]
pub(crate) struct Bench {
    pub alloc: Global,
    pub printed: Printed,
}

/// A handle whose clock goes on by so many milliseconds each time it is read. By the time of day it stands still, at 5 nanoseconds after second 3.
#[derive(Drop)]
struct Stepping<'r, H> {
    _handle: &'r H,
    alloc: Global,
    step: u64,
    read: AtomicU64,
}

impl<H: Wait> Wait for Stepping<'_, H> {}

impl<H: Threads> Threads for Stepping<'_, H> {}

impl<H> Alloc for Stepping<'_, H> {
    type A = Global;

    fn alloc(&self) -> Global {
        self.alloc
    }
}

impl<H> Clock for Stepping<'_, H> {
    fn monotonic(&self) -> io::Result<Duration> {
        Ok(Duration::from_millis(self.read.fetch_add(self.step, SeqCst)))
    }

    fn since_1970(&self) -> io::Result<Duration> {
        Ok(Duration::new(3, 5))
    }
}

impl Bench {
    /// A bench on which nothing was run.
    pub fn new(alloc: Global) -> Bench {
        let printed = Printed {
            status: 0,
            output: Vec::new(alloc),
            faults: Vec::new(alloc),
        };
        Bench { alloc, printed }
    }
}

/// Runs the program on these arguments, its name first. What it prints stands on the bench in place of what the last run printed.
pub(crate) fn run_on(
    rt: &(impl Wait + Threads + Sync),
    bench: &mut Bench,
    args: &[String],
    streams: &Streams,
    shelf: &mut Shelf,
) {
    let output = Screen::new(bench.alloc, streams.room);
    let faults = Screen::all(bench.alloc);
    let stepping = Stepping {
        _handle: rt,
        alloc: bench.alloc,
        step: streams.terminal.unwrap_or(0),
        read: AtomicU64::new(0),
    };
    let status = served(&stepping, args, streams, shelf, &output, &faults);
    bench.printed = Printed {
        status,
        output: output.into_bytes(),
        faults: faults.into_bytes(),
    };
}

/// The exit status of a run that writes to these screens.
fn served<H: Wait + Threads + Sync>(
    rt: &Stepping<'_, H>,
    args: &[String],
    streams: &Streams,
    shelf: &mut Shelf,
    output: &Screen,
    faults: &Screen,
) -> u8 {
    let mut input = streams.input;
    let mut pen = Pen { screen: output };
    let (mut other, terminal) = match streams.terminal {
        Some(_) => (pen, Some(pen)),
        None => (Pen { screen: faults }, None),
    };
    let streams = station_serve::Streams {
        output: &mut pen,
        faults: &mut other,
    };
    serve(rt, args, &mut input, shelf, streams, terminal)
}
