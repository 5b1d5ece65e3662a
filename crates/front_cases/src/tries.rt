//! Tries a run once, or with each input and each output that fails after some bytes. A try answers what isn't as is expected, if anything.

use crate::bench::{Bench, run_on};
use station_cases::{
    Full, Printed, Room, Run, Shelf, bytes_of, has_options, parted, tell_changes, wrong_of,
};
use std::alloc::Global;
use std::sync::Wait;
use std::thread::Threads;
use std::{io, mem};

/// Tries a run with its input.
///
/// # Errors
///
/// The run is malformed, or memory was refused.
pub(crate) fn try_once<'a>(
    rt: &(impl Wait + Threads + Sync),
    bench: &mut Bench,
    run: &Run<'a>,
    shelf: &mut Shelf,
) -> io::Result<&'a str> {
    let input = run.input(bench.alloc)?;
    try_with(rt, bench, run, &input, shelf)
}

/// Tries a run with this input.
fn try_with<'a>(
    rt: &(impl Wait + Threads + Sync),
    bench: &mut Bench,
    run: &Run<'a>,
    input: &[u8],
    shelf: &mut Shelf,
) -> io::Result<&'a str> {
    run.prepare(bench.alloc, shelf)?;
    let words = run.words(bench.alloc)?;
    run_on(rt, bench, &words, &run.streams(input), shelf);
    wrong_of(bench.alloc, run, &bench.printed, shelf)
}

/// Tries a run with each beginning of its input, all of it among them.
///
/// # Errors
///
/// The run is malformed, or memory was refused.
pub(crate) fn try_inputs<'a>(
    rt: &(impl Wait + Threads + Sync),
    bench: &mut Bench,
    run: &Run<'a>,
) -> io::Result<&'a str> {
    let input = run.input(bench.alloc)?;
    for count in 0..=input.len() {
        let part = input.get(..count).unwrap_or(&input);
        let wrong = try_with(rt, bench, run, part, &mut run.shelf(bench.alloc)?)?;
        if !wrong.is_empty() {
            return Ok(wrong);
        }
    }
    Ok("")
}

/// Tries a run with outputs that take each number of bytes but all: it prints just these, and ends in a fault of a file.
///
/// # Errors
///
/// The run is malformed, or memory was refused.
pub(crate) fn try_outputs<'a>(
    rt: &(impl Wait + Threads + Sync),
    bench: &mut Bench,
    run: &Run<'a>,
    then: Full,
) -> io::Result<&'a str> {
    let entire = match run.said("output") {
        Some(contents) => bytes_of(bench.alloc, run.named, contents)?,
        None => Vec::new(bench.alloc),
    };
    for bytes in 0..entire.len() {
        let taken = entire.get(..bytes).unwrap_or(&entire);
        let wrong = try_output(rt, bench, run, Room { bytes, then }, taken)?;
        if !wrong.is_empty() {
            return Ok(wrong);
        }
    }
    Ok("")
}

fn try_output<'a>(
    rt: &(impl Wait + Threads + Sync),
    bench: &mut Bench,
    run: &Run<'a>,
    room: Room,
    taken: &[u8],
) -> io::Result<&'a str> {
    let mut shelf = run.shelf(bench.alloc)?;
    print_into(rt, bench, run, room, &mut shelf)?;
    let printed = &bench.printed;
    let is_reported = printed.status == 3
        && printed.faults.as_slice() == "fault 90 File\n".as_bytes();
    if !is_reported || printed.output.as_slice() != taken {
        return Ok("a cut output");
    }
    try_after(rt, bench, run, &mut shelf, 0)
}

fn print_into(
    rt: &(impl Wait + Threads + Sync),
    bench: &mut Bench,
    run: &Run,
    room: Room,
    shelf: &mut Shelf,
) -> io::Result<()> {
    run.prepare(bench.alloc, shelf)?;
    let input = run.input(bench.alloc)?;
    let words = run.words(bench.alloc)?;
    let mut streams = run.streams(&input);
    streams.room = room;
    run_on(rt, bench, &words, &streams, shelf);
    Ok(())
}

/// Tries what is run after each try of a run, over the files that it left. So many commands were durable.
///
/// # Errors
///
/// The run is malformed, or memory was refused.
pub(crate) fn try_after<'a>(
    rt: &(impl Wait + Threads + Sync),
    bench: &mut Bench,
    run: &Run<'a>,
    shelf: &mut Shelf,
    durable: usize,
) -> io::Result<&'a str> {
    for step in run.values("behind") {
        let next = Run {
            own: step,
            case: step,
            named: run.named,
            durable,
        };
        let wrong = try_once(rt, bench, &next, shelf)?;
        if !wrong.is_empty() {
            return Ok(wrong);
        }
    }
    Ok("")
}

/// Runs a command line without input.
///
/// # Errors
///
/// Memory was refused.
pub(crate) fn print_words(
    rt: &(impl Wait + Threads + Sync),
    bench: &mut Bench,
    run: &Run,
    words: &str,
    shelf: &mut Shelf,
) -> io::Result<()> {
    let args = parted(bench.alloc, words)?;
    run_on(rt, bench, &args, &run.streams(&[]), shelf);
    Ok(())
}

/// Tries a run that prints a page, which has each option of this help.
///
/// # Errors
///
/// The run is malformed, or memory was refused.
pub(crate) fn try_page<'a>(
    rt: &(impl Wait + Threads + Sync),
    bench: &mut Bench,
    run: &Run<'a>,
    shelf: &mut Shelf,
) -> io::Result<&'a str> {
    run.prepare(bench.alloc, shelf)?;
    print_words(rt, bench, run, run.text("first"), shelf)?;
    let help = mem::replace(&mut bench.printed.output, Vec::new(bench.alloc));
    print_words(rt, bench, run, run.args(), shelf)?;
    let page = &bench.printed.output;
    if help.is_empty() || !has_options(bench.alloc, page, &help, run.text("option"))? {
        return Ok("an option of the help");
    }
    wrong_of(bench.alloc, run, &bench.printed, shelf)
}

/// Tries a plan and then a run: the plan says what the run prints, and the words that it changes, and writes nothing.
///
/// # Errors
///
/// The run is malformed, or memory was refused.
pub(crate) fn try_plan<'a>(
    rt: &(impl Wait + Threads + Sync),
    bench: &mut Bench,
    run: &Run<'a>,
    shelf: &mut Shelf,
) -> io::Result<&'a str> {
    run.prepare(bench.alloc, shelf)?;
    let before = shelf.left()?;
    print_words(rt, bench, run, run.text("first"), shelf)?;
    if shelf.writes != 0 || !changes_of(bench.alloc, run, &before, shelf)?.is_empty() {
        return Ok("what a plan writes");
    }
    let plan = mem::replace(&mut bench.printed, Bench::new(bench.alloc).printed);
    print_words(rt, bench, run, run.args(), shelf)?;
    let changes = changes_of(bench.alloc, run, &before, shelf)?;
    let is_reported = is_foreseen(&plan, bench, changes.as_str())?;
    bench.printed = plan;
    Ok(if is_reported { "" } else { "the plan" })
}

/// Whether a plan says what the last run printed, and then these words that it changed.
fn is_foreseen(plan: &Printed, bench: &Bench, changes: &str) -> io::Result<bool> {
    let printed = &bench.printed;
    let output = str::from_utf8(&printed.output).unwrap_or("");
    let expected = format!(in bench.alloc; "{output}{changes}writes words ")?;
    let is_same = plan.status == printed.status
        && plan.faults.as_slice() == printed.faults.as_slice();
    Ok(is_same && plan.output.starts_with(expected.as_bytes()))
}

/// The lines for the words of all slaves that are others on the second shelf.
fn changes_of(alloc: Global, run: &Run, before: &Shelf, after: &Shelf) -> io::Result<String> {
    let mut text = String::new(alloc);
    for (slave, image) in run.values("images").iter().enumerate() {
        let name = image.as_str().unwrap_or("");
        let old = before.bytes(alloc, name)?;
        let new = after.bytes(alloc, name)?;
        match (old, new) {
            (Some(old), Some(new)) => tell_changes(alloc, slave, &old, &new, &mut text)?,
            _ => return Err(io::Error::other("no image")),
        }
    }
    Ok(text)
}
