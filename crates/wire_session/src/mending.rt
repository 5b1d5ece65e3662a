//! The subcommand `recover`, where image files are to be written to their slaves.
ghost use Rattle.wire_mirror.specs.declared.journal_file.JournalFile.{JournalFile};
ghost use Rattle.wire_session.specs.Running.{MendsLine};

use crate::logs::Worked;
use crate::running::run_found;
use line_watch::Watch;
use site_wire::WireLog;
use station_files::{ExitStatus, Store};
use std::io::Write;
use std::mem;
use std::rt::Clock;
use std::sync::Wait;
use std::thread::Threads;
use wire_frames::{NumberedWire, Wire};
use wire_scan::{ScanOptions, find_line};

/// Recovers the line on this wire, whose line file is `name`, and writes to its slaves the words of image files, as was said, as commands. Prints as
/// `run_script` does.
///
/// # Errors
///
/// As for `find_line`, where slaves in any state are allowed; then as for `run_script`.
pub fn mend_line<
    R: Wait + Threads + Clock + AllocGlobal + Sync,
    W: Wire + Send + Drop,
    S: Store,
    O: Write,
    T: Write,
>(
    watch: Watch<'_, T, R>,
    wire: NumberedWire<W>,
    name: &str,
    asked: ScanOptions,
    store: &mut S,
    output: &mut O,
) -> Worked<ExitStatus, WireLog>
    ensures { MendsLine (JournalFile S.File) result asked.mends S.leads (S.files store.old) (S.files store.new) name.now }
{
    let mut wire = wire;
    let forced = ScanOptions {
        is_forced: true,
        ..asked
    };
    match find_line(watch.rt, &mut wire, name, forced, store) {
        Ok(found) => {
            let mut found = found;
            let commands = mem::replace(&mut found.mends, Vec::new(watch.rt.alloc()));
            run_found(watch, found, commands, wire, store, output)
        }
        Err(fault) => {
            drop(wire);
            Worked::failed(fault)
        }
    }
}
