//! The report after a run or a recovery.
ghost use Rattle.std.specs.Prelude.{◌≡◌, IfErr, IfOk};
ghost use Rattle.station_files.specs.Faults.{IsOfStream};
ghost use Rattle.station_files.specs.LineFiles.{SpellsSlaves};
ghost use Rattle.line_changes.specs.Report.{Reports};

use crate::changes::{ChangedWord, changed_words, put_changes};
use crate::checks::checks_of;
use sii_words::Plant;
use station_files::{ExitStatus, Fault, Store, load_line, load_slaves};
use station_listing::CheckByte;
use station_rows::{Form, Rows, data, named, said};
use station_text::LineFile;
use std::alloc::Global;
use std::io::Write;

/// The help text on the option that asks for a report.
pub const REPORT: &str = "Prints after everything else, unless a fault ends the work:
  slave P word 0xW old 0xO new 0xN
                   word W of slave P had the value O before, and has N now;
                   neighbouring words as plan prints them
  slave P check ok whether the check byte of slave P is right, for each slave;
                   or: check bad 0xNN expected 0xNN
  line in order; ..
                   each check byte is right; or: line not in order, wrong check
                   bytes C; .. A slave acts on its new words only when it starts
                   again";

/// A line before a run or a recovery: its line file, and the words of the slaves.
#[derive(Drop)]
pub struct Before {
    pub line: LineFile,
    pub words: Plant,
}

/// What has changed, and how the line is now.
#[derive(Drop)]
pub struct Report {
    /// The words that differ, with their values before and now.
    pub changes: Vec<ChangedWord>,
    /// Whether the check byte of each slave is right, in the order of the line.
    pub checks: Vec<CheckByte>,
}

/// What has changed on a line since `before`, by the words that its image files hold now. No file changes.
///
/// # Errors
///
/// `Memory`; `File` where an image file can't be read, or no longer has the words of an EEPROM.
pub fn changes_since<S: Store>(
    alloc: Global,
    before: &Before,
    store: &mut S,
) -> Result<Report, Fault>
    ensures reported { IfOk result (Reports (S.files store.old) before.now) }
    ensures failed { IfErr result IsOfStream }
    ensures same { S.files store.new ≡ S.files store.old }
{
    let after = words_now(alloc, &before.line, store)?;
    Ok(Report {
        changes: changed_words(alloc, &before.words, &after)?,
        checks: checks_of(alloc, &after)?,
    })
}

/// The words that the image files of a line hold.
pub(crate) fn words_now<S: Store>(
    alloc: Global,
    line: &LineFile,
    store: &mut S,
) -> Result<Plant, Fault>
    ensures spelt { IfOk result (λ plant. SpellsSlaves (S.files store.old) line.now plant) }
    ensures failed { IfErr result IsOfStream }
    ensures same { S.files store.new ≡ S.files store.old }
{
    match load_slaves(alloc, line, store) {
        Ok(slaves) => Ok(Plant::of(slaves)),
        Err(Fault::Memory) => Err(Fault::Memory),
        Err(_) => Err(Fault::File),
    }
}

/// Prints what has changed on a line since `before`: the words that differ, whether the check byte of each slave is right, and whether the
/// line is in order, which it is where each check byte is right; as text, or as rows of JSON. No file changes.
///
/// # Errors
///
/// As for `changes_since`; then `File` or `Memory`, as the output answers.
pub fn print_report<S: Store, W: Write>(
    alloc: Global,
    form: Form,
    before: &Before,
    store: &mut S,
    output: &mut W,
) -> Result<(), Fault>
    ensures failed { IfErr result IsOfStream }
    ensures same { S.files store.new ≡ S.files store.old }
{
    let report = changes_since(alloc, before, store)?;
    let mut rows = Rows::new(alloc, form);
    put_changes(&mut rows, &report.changes)?;
    for (slave, check) in report.checks.iter().enumerate() {
        rows.put("check", &[named("slave", slave), named("check", *check)])?;
    }
    let others = report
        .checks
        .iter()
        .filter(|check| **check != CheckByte::Right);
    let wrong = others.count();
    let starts = "a slave acts on its new words only when it starts again";
    let line = match wrong {
        0 => format!(in alloc; "line in order; {starts}")?,
        _ => format!(in alloc; "line not in order, wrong check bytes {wrong}; {starts}")?,
    };
    let row = [
        said("", line.as_str()),
        data("in_order", wrong == 0),
        data("wrong", wrong),
    ];
    rows.put("order", &row)?;
    rows.write(output)
}

/// Reads a line and its words as its files hold them, if a report is asked for. No file changes.
///
/// # Errors
///
/// As for `load_line`, then as for `load_slaves`.
pub fn look_before<S: Store>(
    alloc: Global,
    is_asked: bool,
    name: &str,
    store: &mut S,
) -> Result<Option<Before>, Fault>
    ensures same { S.files store.new ≡ S.files store.old }
{
    if !is_asked {
        return Ok(None);
    }
    let line = load_line(alloc, name, store)?;
    let words = Plant::of(load_slaves(alloc, &line, store)?);
    Ok(Some(Before { line, words }))
}

/// Prints the report after work that ended with this status, if one is asked for. After a fault nothing is reported. No file changes.
///
/// # Errors
///
/// The fault of `look_before`; then as for `print_report`.
pub fn report_after<S: Store, W: Write>(
    alloc: Global,
    form: Form,
    looked: Result<Option<Before>, Fault>,
    status: ExitStatus,
    store: &mut S,
    output: &mut W,
) -> Result<(), Fault>
    ensures same { S.files store.new ≡ S.files store.old }
{
    match looked {
        _ if !matches!(status, ExitStatus::Done | ExitStatus::Refused) => Ok(()),
        Ok(Some(before)) => print_report(alloc, form, &before, store, output),
        Ok(None) => Ok(()),
        Err(fault) => Err(fault),
    }
}
