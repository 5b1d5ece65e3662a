//! What is printed at the end of a subcommand.

use sii_edit::{Command, Edit, Expect, GuardedEdit};
use sii_words::Identity;
use station_files::{ExitStatus, Failures, Store, load_line, load_script, load_slaves};
use station_listing::Code;
use station_plan::PlanAnswers;
use station_rows::{LineRows, RefusedCommand};
use station_session::RunNames;
use std::alloc::Global;
use std::io::Write;

/// The exit status of a plan. The commands that it refuses are put to `refused`.
pub(crate) fn status_of_plan<F>(
    planned: Result<PlanAnswers, F>,
    refused: &mut Vec<RefusedCommand>,
) -> Result<ExitStatus, F> {
    let planned = planned?;
    *refused = planned.refused;
    Ok(planned.answered.status())
}

/// Prints failures, and a row for each, if rows are written. An error of a stream is ignored.
pub(crate) fn print_failures<W: Write, E: Write>(
    failures: &Failures,
    lines: &mut LineRows<'_, W>,
    faults: &mut E,
) {
    failures.print(faults);
    if lines.is_json() {
        failures.print(lines);
        let _ = lines.flush();
    }
}

/// Prints a line on each command that was refused: why, and what to do; of one that expects another slave, what is expected and what its image file
/// has. An error of `faults` is ignored.
pub(crate) fn tell_refused<S: Store, E: Write>(
    alloc: Global,
    program: &str,
    files: RunNames<'_>,
    refused: &[RefusedCommand],
    store: &mut S,
    faults: &mut E,
) {
    for one in refused {
        let RefusedCommand { command, code, .. } = *one;
        let other = match code {
            Code::WrongIdentity => other_slave(alloc, files, one, store),
            _ => None,
        };
        let _ = match other {
            Some((slave, found, expected)) => writeln!(
                faults,
                "command {command}: slave {slave} has vendor 0x{:08x} product 0x{:08x} revision 0x{:08x}, \
                    and vendor 0x{:08x} product 0x{:08x} revision 0x{:08x} is expected; see {program} explain 21",
                found.vendor,
                found.product,
                found.revision,
                expected.vendor,
                expected.product,
                expected.revision
            ),
            None => writeln!(faults, "command {command}: {}", code.entry().explanation),
        };
    }
}

/// A slave that a command expects to be another one than it is, if the files still say so: what it is by its image file, and what is expected.
fn other_slave<S: Store>(
    alloc: Global,
    files: RunNames<'_>,
    refused: &RefusedCommand,
    store: &mut S,
) -> Option<(u16, Identity, Expect)> {
    let script = load_script(alloc, files.script, store).ok()?;
    let Command::Guarded(edits) = script.commands.get(usize::try_from(refused.command).ok()?)?
    else {
        return None;
    };
    let GuardedEdit { expect, edit } = edits.as_slice().get(usize::try_from(refused.at?).ok()?)?;
    let (Edit::Alias { slave, .. } | Edit::Category { slave, .. } | Edit::Image { slave, .. }) =
        edit;
    let (slave, expected) = (*slave, (*expect)?);
    let line = load_line(alloc, files.line, store).ok()?;
    let slaves = load_slaves(alloc, &line, store).ok()?;
    let found = slaves.get(usize::from(slave))?.identity();
    let own = (found.vendor, found.product, found.revision);
    let is_other = own != (expected.vendor, expected.product, expected.revision);
    is_other.then_some((slave, found, expected))
}
