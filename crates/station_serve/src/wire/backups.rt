//! The subcommand `backup`.

use crate::wire::serving::all_done;
use command_line::Escaped;
use jiff_core::civil::DateTime;
use station_files::{ExitStatus, Fault, Store};
use std::io::Write;
use std::rt::Clock;
use wire_bringup::Sizes;
use wire_faults::WireFault;
use wire_frames::{NumberedWire, Wire};
use wire_scan::backup_line;
use wire_session::begin_journal;

/// Backs up the line into files of this folder, whose names have the time of the day, and prints the name of the line file on one line, whatever it
/// has.
///
/// # Errors
///
/// As for `back_up`; `File` where the system's clock can't be read, with nothing written.
pub fn back_up_to<H: Clock + AllocGlobal, W: Wire, S: Store, O: Write>(
    rt: &H,
    folder: &str,
    sizes: &Sizes,
    wire: &mut NumberedWire<W>,
    store: &mut S,
    output: &mut O,
) -> Result<ExitStatus, WireFault> {
    let stem = dated_name(rt, folder, false)?;
    let line = format!(in rt.alloc(); "{stem}.toml")?;
    let ended = back_up(rt, &line, sizes, wire, store, output)?;
    let (text, has_lines) = (line.as_str(), false);
    let name = Escaped { text, has_lines };
    writeln!(output, "line {name}")?;
    Ok(ended)
}

/// Backs up the line, and makes an empty journal for it if there is none.
pub(crate) fn back_up<H: Clock + AllocGlobal, W: Wire, S: Store, O: Write>(
    rt: &H,
    line: &str,
    sizes: &Sizes,
    wire: &mut NumberedWire<W>,
    store: &mut S,
    output: &mut O,
) -> Result<ExitStatus, WireFault> {
    backup_line(rt, wire, sizes, line, store, output)?;
    all_done(begin_journal(rt.alloc(), line, store, output))
}

/// A name in this folder that says the date and the time now, in UTC, as `FOLDER/20261126-211500`; where it is exact, with microseconds, as
/// `FOLDER/20261126-211500.123456`. `File` where the system's clock can't be read.
pub(crate) fn dated_name<R: Clock + AllocGlobal>(
    rt: &R,
    folder: &str,
    is_exact: bool,
) -> Result<String, Fault> {
    let now = now_in_utc(rt).ok_or(Fault::File)?;
    let (year, month, day) = (now.date.year, now.date.month, now.date.day);
    let (hour, minute, second) = (now.time.hour, now.time.minute, now.time.second);
    let stem = format!(in rt.alloc();
        "{folder}/{year:04}{month:02}{day:02}-{hour:02}{minute:02}{second:02}"
    )?;
    if !is_exact {
        return Ok(stem);
    }
    let microsecond = now.time.subsec_nanosecond / 1000;
    Ok(format!(in rt.alloc(); "{stem}.{microsecond:06}")?)
}

/// The date and the time now, in UTC.
fn now_in_utc<R: Clock>(rt: &R) -> Option<DateTime> {
    let since_1970 = rt.since_1970().ok()?;
    DateTime::from_nanosecond(i128::try_from(since_1970.as_nanos()).ok()?).ok()
}
