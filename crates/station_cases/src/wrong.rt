//! Whether a run goes as is expected.

use crate::contents::number_of;
use crate::expected::fits;
use crate::run::Run;
use crate::shelf::Shelf;
use crate::streams::Printed;
use crate::terminals::left_of;
use std::alloc::Global;
use std::io;
use toml::Value;

/// What isn't as is expected after a run; empty where all is.
///
/// # Errors
///
/// Contents are malformed, or memory was refused.
pub fn wrong_of<'a>(
    alloc: Global,
    run: &Run<'a>,
    printed: &Printed,
    shelf: &Shelf,
) -> io::Result<&'a str> {
    if run.is_said("any") || is_excused(run, printed) {
        return Ok("");
    }
    let wrong = wrong_print(alloc, run, printed)?;
    if !wrong.is_empty() {
        return Ok(wrong);
    }
    let wrong = wrong_count(run, printed, shelf);
    if !wrong.is_empty() {
        return Ok(wrong);
    }
    wrong_files(alloc, run, shelf)
}

/// Whether a run printed the fault that may come in place of all that is expected.
fn is_excused(run: &Run, printed: &Printed) -> bool {
    let fault = run.text("unless");
    !fault.is_empty() && printed.faults.as_slice() == fault.as_bytes()
}

fn wrong_print<'a>(alloc: Global, run: &Run<'a>, printed: &Printed) -> io::Result<&'a str> {
    if i64::from(printed.status) != run.number("status") {
        return Ok("the status");
    }
    if !is_shown(alloc, run, printed)? {
        return Ok("the output");
    }
    match is_printed(alloc, run, "faults", &printed.faults)? {
        true => Ok(""),
        false => Ok("the faults"),
    }
}

/// Whether standard output, or what is left on a terminal, is as expected, and all that was drawn on the terminal.
fn is_shown(alloc: Global, run: &Run, printed: &Printed) -> io::Result<bool> {
    match run.said("drawn") {
        Some(drawn) => {
            let is_drawn = fits(alloc, run.named, drawn, &printed.output)?;
            let left = left_of(alloc, &printed.output)?;
            Ok(is_printed(alloc, run, "output", &left)? && is_drawn)
        }
        None => is_printed(alloc, run, "output", &printed.output),
    }
}

/// Whether a stream has what is expected of it.
fn is_printed(alloc: Global, run: &Run, key: &str, printed: &[u8]) -> io::Result<bool> {
    match run.said(key) {
        Some(expected) => fits(alloc, run.named, expected, printed),
        None => Ok(printed.is_empty()),
    }
}

fn wrong_count(run: &Run, printed: &Printed, shelf: &Shelf) -> &'static str {
    let has_come = shelf.troubles.has_come();
    if run.count("error_at").is_some() && has_come != (printed.status != 0) {
        "whether it makes so many calls"
    } else if !is_count(run.said("writes"), shelf.writes == 0, shelf.writes) {
        "how many files are written"
    } else if !is_count(run.said("replaced"), true, shelf.replaced) {
        "how many files are replaced"
    } else {
        ""
    }
}

/// Whether a count is as is expected: any is where that is a text. Where nothing is said, `absent` decides.
fn is_count(expected: Option<&Value>, absent: bool, count: usize) -> bool {
    match expected {
        Some(Value::Integer(number)) => i64::try_from(count).ok() == Some(*number),
        Some(_) => true,
        None => absent,
    }
}

/// The first file that isn't left as is expected; empty where all are.
fn wrong_files<'a>(alloc: Global, run: &Run<'a>, shelf: &Shelf) -> io::Result<&'a str> {
    if run.is_said("unchanged") {
        let wrong = wrong_file(alloc, run, run.case.get("files"), shelf)?;
        if !wrong.is_empty() {
            return Ok(wrong);
        }
    }
    if !is_mended(alloc, run, shelf)? {
        return Ok("that is no state behind some of the commands");
    }
    wrong_file(alloc, run, run.said("left"), shelf)
}

/// The first of these files that isn't left so; empty where all are.
fn wrong_file<'a>(
    alloc: Global,
    run: &Run<'a>,
    files: Option<&'a Value>,
    shelf: &Shelf,
) -> io::Result<&'a str> {
    let files = match files {
        Some(Value::Table(files)) => files,
        Some(_) => return Ok("no table of files"),
        None => return Ok(""),
    };
    for (name, contents) in files.iter() {
        if !is_left(alloc, run, name.as_str(), contents, shelf)? {
            return Ok(name.as_str());
        }
    }
    Ok("")
}

/// Whether a file is left so, or isn't there where `false` is expected.
fn is_left(
    alloc: Global,
    run: &Run,
    name: &str,
    contents: &Value,
    shelf: &Shelf,
) -> io::Result<bool> {
    let is_absent = matches!(contents, Value::Boolean(false));
    match shelf.bytes(alloc, name)? {
        Some(bytes) if !is_absent => fits(alloc, run.named, contents, &bytes),
        Some(_) => Ok(false),
        None => Ok(is_absent),
    }
}

/// Whether the files are as after so many commands as were durable, or more.
fn is_mended(alloc: Global, run: &Run, shelf: &Shelf) -> io::Result<bool> {
    let states = run.values("mended");
    for state in states {
        let files = state.get("files").unwrap_or(state);
        if wrong_file(alloc, run, Some(files), shelf)?.is_empty() {
            return Ok(number_of(state.get("commands")) >= run.durable);
        }
    }
    Ok(states.is_empty())
}
