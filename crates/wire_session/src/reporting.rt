//! What is reported at the end of a run or a recovery: why the line has stopped, and what has changed.
ghost use Rattle.std.specs.Prelude.{◌≡◌, IfErr};
ghost use Rattle.station_files.specs.Faults.{IsOfStream};
ghost use Rattle.wire_session.specs.Reporting.{IsExplained, IsReported};

use line_changes::{Before, print_image, print_report};
use sii_words::MAX_SLAVES;
use site_wire::LockedLine;
use station_files::{Fault, Store};
use std::alloc::Global;
use std::io::Write;
use std::sync::Wait;
use wire_faults::{WireFault, why_ended};
use wire_frames::{Handed, Wire};
use wire_scan::Tells;

/// Tells of a fault that ended the work why the line on the wire has stopped, if it has.
pub(crate) fn tell_why<T: Copy, R: Wait, W: Wire>(
    rt: &R,
    locked: &LockedLine<W>,
    ended: Result<T, WireFault>,
) -> Result<T, WireFault>
    ensures { IsExplained ended result }
{
    match ended {
        Ok(value) => Ok(value),
        Err(fault) => Err(why_ended(locked.reason(rt), locked.seen(rt), fault)),
    }
}

/// Prints whether the process image of a line is another one than `before`, and what has changed on it, as far as that is asked for, if the work
/// on it has ended without a fault. No file changes.
///
/// # Errors
///
/// The fault that ended the work. Else `File` or `Memory`, as an image file or the output answers.
pub(crate) fn report_end<T: Copy, S: Store, O: Write>(
    alloc: Global,
    tells: Tells,
    before: &Before,
    ended: Result<T, WireFault>,
    store: &mut S,
    output: &mut O,
) -> Result<T, WireFault>
    ensures reported { IsReported ended result }
    ensures same { S.files store.new ≡ S.files store.old }
{
    match ended {
        Ok(value) => match print_asked(alloc, tells, before, store, output) {
            Ok(()) => Ok(value),
            Err(fault) => Err(WireFault::Station(fault)),
        },
        Err(fault) => Err(fault),
    }
}

/// Names the slaves whose EEPROM couldn't be handed back as it was found, if events are reported, after work that ended so.
///
/// # Errors
///
/// The fault that ended the work. Else `File` or `Memory`, as the output answers.
pub(crate) fn tell_handed<T: Copy, O: Write>(
    tells: Tells,
    handed: [Handed; MAX_SLAVES],
    ended: Result<T, WireFault>,
    output: &mut O,
) -> Result<T, WireFault>
    ensures reported { IsReported ended result }
{
    if !tells.events {
        return ended;
    }
    let reported = print_handed(&handed, output);
    match ended {
        Ok(value) => match reported {
            Ok(()) => Ok(value),
            Err(fault) => Err(WireFault::Station(fault)),
        },
        Err(fault) => Err(fault),
    }
}

/// Prints a line for each slave whose EEPROM couldn't be handed back.
fn print_handed<O: Write>(handed: &[Handed; MAX_SLAVES], output: &mut O) -> Result<(), Fault>
    ensures failed { IfErr result IsOfStream }
{
    for (slave, one) in handed.iter().enumerate() {
        match one {
            Handed::Nothing | Handed::Back => {}
            Handed::Uncounted => writeln!(output, "event access {slave} uncounted")?,
            Handed::Silent => writeln!(output, "event access {slave} silent")?,
        }
    }
    output.flush()?;
    Ok(())
}

/// Prints whether the process image is another one than `before`, and what has changed, as far as that is asked for.
fn print_asked<S: Store, O: Write>(
    alloc: Global,
    tells: Tells,
    before: &Before,
    store: &mut S,
    output: &mut O,
) -> Result<(), Fault>
    ensures failed { IfErr result IsOfStream }
    ensures same { S.files store.new ≡ S.files store.old }
{
    if tells.events {
        print_image(alloc, before, store, output)?;
    }
    if tells.report {
        return print_report(alloc, tells.form, before, store, output);
    }
    Ok(())
}
