//! The program as a function of its arguments and streams.

use crate::arguments::lines_form;
use crate::ending::{print_failures, status_of_plan, tell_refused};
use crate::pages::{explanation, print_page};
use crate::serving::{Host, Streams, watch_of};
use crate::wire::arguments::{Arguments, Reading, Task, Tenure};
use crate::wire::backups::{back_up, back_up_to};
use crate::wire::capture::{begin_capture, end_capture};
use crate::wire::changing::{change_slave, last_line, require_ended};
use crate::wire::one_slave::look_at_slave;
use command_line::{InputScript, ParsedArguments};
use line_watch::{Capture, Cleared, ObservedWire, Progress, Watch};
use station_files::{ExitStatus, Failures, Fault, Store, report_fault};
use station_rows::{LineRows, RefusedCommand};
use station_troubles::{CAPTURE_OR_OUTPUT, Noting, OUTPUT, tell_more};
use std::alloc::Global;
use std::io::{self, Write};
use std::rt::Clock;
use wire_faults::WireFault;
use wire_frames::{NumberedWire, TimedWire, Wire};
use wire_scan::{
    CaptureNames, Mend, PendingOrder, ScanOptions, keep_capture_separate, list_pending, scan_files,
    scan_line,
};
use wire_session::{init_on_wire, mend_line, plan_on_wire, recover_line, run_script};

/// A wire that a call owns.
pub trait OwnWire: Wire + Send + Drop {}

impl<L: Wire + Send + Drop> OwnWire for L {}

/// A connection to a line.
#[derive(Drop)]
pub struct Connection<L> {
    pub wire: L,
    /// The number after which the frames are numbered.
    pub number: u32,
}

/// Carries out a command line over this connection, and returns the exit status: `Done`; `Refused` where a command was refused; `File` for a
/// file or its form; `Device` for the line; or `Memory`. Each fault has a second line after it, but with `--quiet` without `--verbose`. A line on the
/// terminal, if there is one, tells how far the work is.
///
/// Each frame is written down in the file of the capture, if one is named, once it is sent or received. Where the capture can't begin, no
/// frame is sent and nothing is read or written. If it can't be written further, the work goes on as without it, and the fault is printed
/// after all others.
pub fn serve_on_wire<
    H: Host,
    L: OwnWire,
    S: Store,
    O: Write,
    E: Write,
    T: Write + Send + Copy + Drop,
>(
    rt: &H,
    arguments: Arguments<'_>,
    connection: Connection<L>,
    store: &mut S,
    streams: Streams<'_, O, E>,
    terminal: Option<T>,
) -> ExitStatus {
    let mut arguments = arguments;
    let mut joined = InputScript::new(store, arguments.script.take());
    serve_noting(rt, &arguments, connection, &mut joined, streams, terminal)
}

/// The same with the script among the files of the store. What is noted of files is kept, if a fault has a second line.
fn serve_noting<H: Host, L: OwnWire, S: Store, O: Write, E: Write, T: Write + Send + Copy + Drop>(
    rt: &H,
    arguments: &Arguments<'_>,
    connection: Connection<L>,
    store: &mut S,
    streams: Streams<'_, O, E>,
    terminal: Option<T>,
) -> ExitStatus {
    let alloc = rt.alloc();
    let task = arguments.task;
    let given = &arguments.given;
    let is_quiet = given.has("quiet") || matches!(task, Task::Reads(Reading::Explain(_)));
    let is_reported = given.has("verbose") || !is_quiet;
    let Streams { output, faults } = streams;
    let remembers = is_reported && !matches!(task, Task::Reads(_));
    let mut lines = LineRows::new(alloc, lines_form(given), remembers, output);
    let mut noting = Noting::new(alloc, store, is_reported);
    let (ended, planned, capture, seen) = match begin_separate(alloc, given, &mut noting) {
        Ok(capture) => {
            let progress = Progress::begin(rt, if is_quiet { None } else { terminal });
            let watch = watch_of(rt, progress.as_ref());
            let begun = capture.as_ref();
            let (ended, planned) = do_observed(
                watch,
                arguments,
                begun,
                connection,
                &mut noting,
                &mut lines,
            );
            (ended, planned, capture, OUTPUT)
        }
        Err(fault) => {
            drop(connection);
            let ended = Err(WireFault::Station(fault));
            (ended, Vec::new(alloc), None, CAPTURE_OR_OUTPUT)
        }
    };
    let status = status_of(ended, is_reported, seen, &noting, &mut lines, faults);
    if is_reported {
        let files = task.run_files();
        let kept = lines.refused();
        tell_refused(alloc, "sii_wire", files, kept, &mut noting, faults);
        tell_refused(alloc, "sii_wire", files, &planned, &mut noting, faults);
    }
    let mut failures = Failures::none();
    let status = end_capture(capture, status, &mut failures);
    print_failures(&failures, &mut lines, faults);
    status
}

/// Carries out a task on this wire, whose frames are written to the capture, if there is one, and count for the progress. The line of the progress
/// gives way to the text. Gives the commands that a plan refuses, too.
fn do_observed<H: Host, L: OwnWire, S: Store, O: Write, T: Write + Send + Drop>(
    watch: Watch<'_, T, H>,
    arguments: &Arguments<'_>,
    capture: Option<&Capture<S::File>>,
    connection: Connection<L>,
    store: &mut S,
    output: &mut O,
) -> (Result<ExitStatus, WireFault>, Vec<RefusedCommand>) {
    let Connection { wire, number } = connection;
    let Watch { rt, progress } = watch;
    let timed = TimedWire::new(wire, rt, arguments.given.milliseconds("timeout"));
    let observed = ObservedWire::new(timed, capture, progress, rt);
    let numbered = match arguments.tenure {
        Tenure::Own => NumberedWire::new(observed, number),
        Tenure::Lent { is_forced, room } => NumberedWire::lent(observed, number, is_forced, room),
    };
    let mut cleared = Cleared::new(output, progress, rt);
    let mut refused = Vec::new(rt.alloc());
    let task = arguments.task;
    let ended = do_task(watch, task, numbered, store, &mut cleared, &mut refused);
    watch.erase();
    (ended, refused)
}

/// Begins the capture, if one is named and it is neither the line file, nor the script, nor a file of the line. It fails as `keep_capture_separate`
/// and then `begin_capture` do.
fn begin_separate<S: Store>(
    alloc: Global,
    given: &ParsedArguments<'_>,
    store: &mut S,
) -> Result<Option<Capture<S::File>>, Fault> {
    if let (Some(capture), Some(line)) = (given.text("capture"), given.text("LINE")) {
        let script = given.text("SCRIPT");
        let names = CaptureNames {
            capture,
            line,
            script,
        };
        keep_capture_separate(alloc, names, store)?;
    }
    begin_capture(given.text("capture"), store)
}

/// Carries out a task on this wire. The commands that a plan refuses are put to `refused`.
fn do_task<H: Host, W: OwnWire, S: Store, O: Write, T: Write>(
    watch: Watch<'_, T, H>,
    task: Task<'_>,
    wire: NumberedWire<W>,
    store: &mut S,
    output: &mut O,
    refused: &mut Vec<RefusedCommand>,
) -> Result<ExitStatus, WireFault> {
    match task {
        Task::Reads(task) => {
            let mut wire = wire;
            let ended = read(watch.rt, task, &mut wire, store, output, refused);
            drop(wire);
            ended
        }
        Task::Run(order, folder) => {
            if let Some(folder) = folder {
                require_ended(watch.rt.alloc(), folder, store)?;
            }
            run_script(watch, wire, order, store, output).into_ended()
        }
        Task::Recover(line, asked) => recover(watch, wire, line, asked, store, output),
        Task::RecoverLast(folder, asked) => {
            let line = last_line(watch.rt.alloc(), folder)?;
            writeln!(output, "line {line}")?;
            recover(watch, wire, line.as_str(), asked, store, output)
        }
        Task::Pending(order, folder) => pending(watch, wire, order, folder, store, output),
        Task::Change(change) => change_slave(watch, wire, change, store, output),
    }
}

/// Carries out a task that leaves the words of all slaves as they are.
fn read<H: Clock + AllocGlobal, W: Wire, S: Store, O: Write>(
    rt: &H,
    task: Reading<'_>,
    wire: &mut NumberedWire<W>,
    store: &mut S,
    output: &mut O,
    refused: &mut Vec<RefusedCommand>,
) -> Result<ExitStatus, WireFault> {
    match task {
        Reading::Scan(Some(line), _, form) => {
            all_done(scan_files(rt, wire, line, form, store, output))
        }
        Reading::Scan(None, sizes, form) => all_done(scan_line(rt, wire, &sizes, form, output)),
        Reading::Backup(line, sizes) => back_up(rt, line, &sizes, wire, store, output),
        Reading::BackupTo(folder, sizes) => back_up_to(rt, folder, &sizes, wire, store, output),
        Reading::Init(line, asked) => all_done(init_on_wire(rt, wire, line, asked, store, output)),
        Reading::Plan(order) => {
            status_of_plan(plan_on_wire(rt, wire, order, store, output), refused)
        }
        Reading::Look(look) => look_at_slave(rt, wire, look, store, output),
        Reading::Explain(code) => all_done(print_page(explanation(rt.alloc(), code), output)),
    }
}

/// Recovers a line, and writes the image files to their slaves of which that is said.
fn recover<H: Host, W: OwnWire, S: Store, O: Write, T: Write>(
    watch: Watch<'_, T, H>,
    wire: NumberedWire<W>,
    line: &str,
    asked: ScanOptions,
    store: &mut S,
    output: &mut O,
) -> Result<ExitStatus, WireFault> {
    let is_image_right = |said: &Mend| matches!(said, Mend::File | Mend::Exchanged);
    if asked.mends.iter().any(is_image_right) {
        return mend_line(watch, wire, line, asked, store, output).into_ended();
    }
    all_done(recover_line(watch.rt, wire, line, asked, store, output).into_ended())
}

/// Prints what a recovery is still to write to a line, that of the last call that changed one slave where none is named, and gives up a slave and
/// recovers the others, if that is said.
fn pending<H: Host, W: OwnWire, S: Store, O: Write, T: Write>(
    watch: Watch<'_, T, H>,
    wire: NumberedWire<W>,
    order: PendingOrder<'_>,
    folder: Option<&str>,
    store: &mut S,
    output: &mut O,
) -> Result<ExitStatus, WireFault> {
    let last = folder
        .map(|folder| last_line(watch.rt.alloc(), folder))
        .transpose()?;
    let line = last.as_ref().map_or(order.line, |last| last.as_str());
    let order = PendingOrder { line, ..order };
    let mut wire = wire;
    let listed = list_pending(watch.rt, &mut wire, order, store, output);
    if listed.is_ok() && order.gives_up.is_some() {
        return recover(watch, wire, line, order.asked, store, output);
    }
    drop(wire);
    all_done(listed)
}

/// `Done` where no fault came.
pub(crate) fn all_done<F, E: From<F>>(ended: Result<(), F>) -> Result<ExitStatus, E> {
    ended?;
    Ok(ExitStatus::Done)
}

/// The exit status for a result: that of what was done, or that of the fault, which is printed, with what there is to tell of it if `is_reported`:
/// where none of the files gave it, that it came of these streams. An error of a stream is ignored.
fn status_of<S: Store, O: Write, E: Write>(
    ended: Result<ExitStatus, WireFault>,
    is_reported: bool,
    streams: &'static str,
    store: &Noting<'_, S>,
    lines: &mut LineRows<'_, O>,
    faults: &mut E,
) -> ExitStatus {
    let fault = match ended {
        Ok(status) => return status,
        Err(fault) => fault,
    };
    let _ = writeln!(faults, "{fault}");
    if lines.is_json() {
        let _ = writeln!(lines, "{fault}");
        let _ = lines.flush();
    }
    match fault {
        _ if !is_reported => {}
        WireFault::Station(station) if !matches!(station, Fault::SlaveDead { .. }) => {
            let reported = store.reported(station.code(), streams);
            tell_more("sii_wire", station.code(), reported, faults);
        }
        _ => {
            let _ = fault.tell(faults);
        }
    }
    fault.status()
}

/// Prints why the file for the text can't be opened, and returns the exit status.
pub fn refuse_text<E: Write>(error: io::Error, faults: &mut E) -> u8 {
    report_fault(Fault::from(error), faults) as u8
}
