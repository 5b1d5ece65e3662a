//! Tries the runs of a case, and prints how each went.

use crate::bench::Bench;
use crate::calls::{Mishap, try_calls};
use crate::tries::{try_after, try_inputs, try_once, try_outputs, try_page, try_plan};
use station_cases::{Full, Run, Shelf};
use std::io::Print;
use std::sync::Wait;
use std::thread::Threads;
use std::{io, slice};
use toml::{Table, Value};

/// How many runs were tried, and how many didn't go as expected.
#[derive(Drop)]
pub(crate) struct Tally {
    pub runs: u64,
    pub wrong: u64,
}

/// Tries the runs of a case.
///
/// # Errors
///
/// The case is malformed, memory was refused, or nothing can be printed.
pub(crate) fn try_case(
    rt: &(impl Print + Wait + Threads + Sync),
    bench: &mut Bench,
    named: &Table,
    case: &Value,
    tally: &mut Tally,
) -> io::Result<()> {
    match (case.get("each"), case.get("steps")) {
        (Some(Value::Array(rows)), None) => {
            for row in rows.iter() {
                try_row(rt, bench, named, case, runs_of(row), tally)?;
            }
            Ok(())
        }
        (None, Some(steps)) => try_row(rt, bench, named, case, runs_of(steps), tally),
        (None, None) => try_row(rt, bench, named, case, slice::from_ref(case), tally),
        _ => Err(io::Error::other("malformed runs")),
    }
}

/// The runs of a row: those of an array, or a single one.
fn runs_of(row: &Value) -> &[Value] {
    match row {
        Value::Array(runs) => runs.as_slice(),
        _ => slice::from_ref(row),
    }
}

/// Tries runs in a row over the files of their case.
fn try_row(
    rt: &(impl Print + Wait + Threads + Sync),
    bench: &mut Bench,
    named: &Table,
    case: &Value,
    runs: &[Value],
    tally: &mut Tally,
) -> io::Result<()> {
    let durable = 0;
    let first = Run {
        own: case,
        case,
        named,
        durable,
    };
    let mut shelf = first.shelf(bench.alloc)?;
    for own in runs {
        let run = Run { own, ..first };
        try_run(rt, bench, &run, &mut shelf, tally)?;
    }
    Ok(())
}

/// Tries a run over the files of a store.
fn try_run(
    rt: &(impl Print + Wait + Threads + Sync),
    bench: &mut Bench,
    run: &Run,
    shelf: &mut Shelf,
    tally: &mut Tally,
) -> io::Result<()> {
    let wrong = try_so(rt, bench, run, shelf)?;
    tally.runs = tally.runs.saturating_add(1);
    if wrong.is_empty() {
        return println!(rt; "ok {}: {}", name_of(run.case), run.args());
    }
    tally.wrong = tally.wrong.saturating_add(1);
    tell(rt, bench, run, wrong)
}

/// Tries a run in the way that it says.
fn try_so<'a>(
    rt: &(impl Wait + Threads + Sync),
    bench: &mut Bench,
    run: &Run<'a>,
    shelf: &mut Shelf,
) -> io::Result<&'a str> {
    match run.text("way") {
        "" => try_plainly(rt, bench, run, shelf),
        "inputs" => try_inputs(rt, bench, run),
        "outputs that fail" => try_outputs(rt, bench, run, Full::Fails),
        "outputs that take none" => try_outputs(rt, bench, run, Full::TakesNone),
        "power cuts" => try_calls(rt, bench, run, Mishap::Cut),
        "calls that fail" => try_calls(rt, bench, run, Mishap::Error),
        "full disks" => try_calls(rt, bench, run, Mishap::Full),
        "disks that forget" => try_calls(rt, bench, run, Mishap::Mended),
        "page" => try_page(rt, bench, run, shelf),
        "plan" => try_plan(rt, bench, run, shelf),
        _ => Err(io::Error::other("an unknown way")),
    }
}

/// Tries a run once, and what is run after it.
fn try_plainly<'a>(
    rt: &(impl Wait + Threads + Sync),
    bench: &mut Bench,
    run: &Run<'a>,
    shelf: &mut Shelf,
) -> io::Result<&'a str> {
    match try_once(rt, bench, run, shelf)? {
        "" => try_after(rt, bench, run, shelf, 0),
        wrong => Ok(wrong),
    }
}

/// The name of a case.
pub(crate) fn name_of(case: &Value) -> &str {
    match case.get("name") {
        Some(Value::String(name)) => name.as_str(),
        _ => "",
    }
}

/// Prints what is wrong with a run, and what it printed.
fn tell(rt: &impl Print, bench: &Bench, run: &Run, wrong: &str) -> io::Result<()> {
    let printed = &bench.printed;
    println!(rt; "WRONG {}: {}: {wrong}", name_of(run.case), run.args())?;
    println!(rt; "status {}", printed.status)?;
    println!(rt;
        "output:\n{}",
        str::from_utf8(&printed.output).unwrap_or("no UTF-8")
    )?;
    println!(rt;
        "faults:\n{}",
        str::from_utf8(&printed.faults).unwrap_or("no UTF-8")
    )
}
