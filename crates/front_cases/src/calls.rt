//! Tries a run whose power is cut, or whose disk fails, in each of its calls that write or sync.

use crate::bench::Bench;
use crate::tries::{print_words, try_after};
use station_cases::{Printed, Run, Shelf, Trouble, wrong_of};
use std::alloc::Global;
use std::io;
use std::sync::Wait;
use std::thread::Threads;

/// What goes wrong in a call.
#[derive(Clone, Copy)]
pub(crate) enum Mishap {
    /// The power is cut.
    Cut,
    /// The call fails.
    Error,
    /// It fails, and all calls after it.
    Full,
    /// It fails, and then the disk works again, without a power cut before the next run.
    Mended,
}

impl Mishap {
    fn at(self, call: u64) -> Trouble {
        match self {
            Mishap::Cut => Trouble::Cut(call),
            Mishap::Error | Mishap::Mended => Trouble::Error(call),
            Mishap::Full => Trouble::Full(call),
        }
    }
}

/// How a try of a call ended.
#[derive(Clone, Copy)]
enum Ended<'a> {
    /// There are more calls.
    GoesOn,
    /// The run made fewer calls, so all were tried.
    Last,
    /// This isn't as is expected.
    Wrong(&'a str),
}

/// A line that is mended: its files, and how many commands are in it then at least.
#[derive(Drop)]
struct Mended {
    files: Vec<u8>,
    durable: usize,
}

/// The lines that were tried already, so that none is tried twice.
#[derive(Drop)]
struct Tried {
    /// The lines that one recovery mends.
    once: Vec<Mended>,
    /// The lines that a recovery mends after an earlier one was cut, in each of its calls.
    after_cuts: Vec<Mended>,
}

/// How many calls a run makes at most.
const CALLS: u64 = 1000;

/// Tries a run in which each call in turn goes wrong, and what is run after it.
///
/// # Errors
///
/// The run is malformed, or memory was refused.
pub(crate) fn try_calls<'a>(
    rt: &(impl Wait + Threads + Sync),
    bench: &mut Bench,
    run: &Run<'a>,
    mishap: Mishap,
) -> io::Result<&'a str> {
    let mut tried = Tried {
        once: Vec::new(bench.alloc),
        after_cuts: Vec::new(bench.alloc),
    };
    for call in 0..CALLS {
        match try_call(rt, bench, run, (mishap, call), &mut tried)? {
            Ended::GoesOn => {}
            Ended::Last if call == 0 => return Err(io::Error::other("no call")),
            Ended::Last => return Ok(""),
            Ended::Wrong(wrong) => return Ok(wrong),
        }
    }
    Err(io::Error::other("calls without an end"))
}

/// Tries a run in which this goes wrong, and what is run after it.
fn try_call<'a>(
    rt: &(impl Wait + Threads + Sync),
    bench: &mut Bench,
    run: &Run<'a>,
    (mishap, call): (Mishap, u64),
    tried: &mut Tried,
) -> io::Result<Ended<'a>> {
    let trouble = mishap.at(call);
    let mut shelf = run.shelf(bench.alloc)?;
    run.prepare(bench.alloc, &mut shelf)?;
    shelf.trouble(trouble, run.pattern()?)?;
    print_words(rt, bench, run, run.args(), &mut shelf)?;
    let wrong = wrong_mishap(bench, run, trouble, &shelf)?;
    if !wrong.is_empty() {
        return Ok(Ended::Wrong(wrong));
    }
    let reported = durable_of(&bench.printed);
    if reported.is_some() != run.count("totals").is_some_and(|first| call >= first) {
        return Ok(Ended::Wrong("whether the totals are told"));
    }
    let durable = reported.unwrap_or(0);
    let has_come = shelf.troubles.has_come();
    if matches!(mishap, Mishap::Mended) {
        shelf.trouble(Trouble::Nothing, run.pattern()?)?;
        print_words(rt, bench, run, run.text("first"), &mut shelf)?;
        if bench.printed.status != 0 {
            return Ok(Ended::Wrong("a recovery on a disk that works again"));
        }
    }
    match try_left(rt, bench, run, &shelf, durable, tried)? {
        "" if has_come => Ok(Ended::GoesOn),
        "" => Ok(Ended::Last),
        wrong => Ok(Ended::Wrong(wrong)),
    }
}

/// What isn't as is expected of a run in which a call went wrong. A power cut may leave anything to print; a failure is reported.
fn wrong_mishap<'a>(
    bench: &Bench,
    run: &Run<'a>,
    trouble: Trouble,
    shelf: &Shelf,
) -> io::Result<&'a str> {
    if !shelf.troubles.has_come() {
        wrong_of(bench.alloc, run, &bench.printed, shelf)
    } else if matches!(trouble, Trouble::Cut(_)) || is_reported(&bench.printed) {
        Ok("")
    } else {
        Ok("the fault of a failure")
    }
}

/// Whether a run printed a fault of a file or a device.
fn is_reported(printed: &Printed) -> bool {
    (printed.status == 3 || printed.status == 4) && printed.faults.starts_with(b"fault ")
}

/// What a run prints if this many commands are durable.
const REPORTED: &[(&str, usize)] = &[
    (" durable 0 ", 0),
    (" durable 1 ", 1),
    (" durable 2 ", 2),
    (" durable 3 ", 3),
];

/// How many commands are durable by the totals that a run printed. None: it printed no totals.
fn durable_of(printed: &Printed) -> Option<usize> {
    let text = str::from_utf8(&printed.output).unwrap_or("");
    for (words, count) in REPORTED {
        if text.contains(*words) {
            return Some(*count);
        }
    }
    None
}

/// Tries what is run after a run, over what a power cut leaves; where the run says so, also after a cut in each call of a first such try.
fn try_left<'a>(
    rt: &(impl Wait + Threads + Sync),
    bench: &mut Bench,
    run: &Run<'a>,
    shelf: &Shelf,
    durable: usize,
    tried: &mut Tried,
) -> io::Result<&'a str> {
    let mut left = shelf.left()?;
    if run.said("again").is_none() {
        return try_after(rt, bench, run, &mut left, durable);
    }
    if !is_new(bench.alloc, run, &left, durable, &mut tried.after_cuts)? {
        return Ok("");
    }
    try_cuts(rt, bench, run, &left, durable, &mut tried.once)
}

/// The bytes of all files that a run writes.
fn written(alloc: Global, run: &Run, shelf: &Shelf) -> io::Result<Vec<u8>> {
    let mut files = Vec::new(alloc);
    for name in run.values("again") {
        if let Some(bytes) = shelf.bytes(alloc, name.as_str().unwrap_or(""))? {
            files.extend_from_slice(&bytes)?;
        }
    }
    Ok(files)
}

/// Whether a line was not tried yet, with so many commands or more. From now on it was.
fn is_new(
    alloc: Global,
    run: &Run,
    shelf: &Shelf,
    durable: usize,
    tried: &mut Vec<Mended>,
) -> io::Result<bool> {
    let files = written(alloc, run, shelf)?;
    if tried.iter().any(|one| one.durable >= durable && one.files.as_slice() == files.as_slice()) {
        return Ok(false);
    }
    tried.push(Mended { files, durable })?;
    Ok(true)
}

/// Cuts the power in each call of a recovery, and tries what is run after, each line once.
fn try_cuts<'a>(
    rt: &(impl Wait + Threads + Sync),
    bench: &mut Bench,
    run: &Run<'a>,
    shelf: &Shelf,
    durable: usize,
    tried: &mut Vec<Mended>,
) -> io::Result<&'a str> {
    for call in 0..CALLS {
        let mut cut = shelf.left()?;
        cut.trouble(Trouble::Cut(call), run.pattern()?)?;
        print_words(rt, bench, run, run.text("first"), &mut cut)?;
        let wrong = try_mended(rt, bench, run, &mut cut.left()?, durable, tried)?;
        if !wrong.is_empty() || !cut.troubles.has_come() {
            return Ok(wrong);
        }
    }
    Err(io::Error::other("calls without an end"))
}

/// Tries what is run after a run, unless that was tried on this line.
fn try_mended<'a>(
    rt: &(impl Wait + Threads + Sync),
    bench: &mut Bench,
    run: &Run<'a>,
    left: &mut Shelf,
    durable: usize,
    tried: &mut Vec<Mended>,
) -> io::Result<&'a str> {
    if !is_new(bench.alloc, run, left, durable, tried)? {
        return Ok("");
    }
    try_after(rt, bench, run, left, durable)
}
