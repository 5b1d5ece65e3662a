//! The program as a function of its arguments and streams.

use crate::arguments::lines_form;
use crate::ending::{print_failures, status_of_plan, tell_refused};
use crate::images::{alias_in_place, keep_images_separate, verify_image};
use crate::line_work::work_on_line;
use crate::pages::{MANUAL_HEAD, explanation, print_page};
use crate::request::{Request, Task, read_arguments, rows, station};
use command_line::{
    INPUT, InputScript, Script, Unread, completion_script, manual_page, report_unread,
};
use line_changes::{Compared, diff_images};
use line_watch::{Progress, Watch};
use station_files::{
    ExitStatus, Failure, Failures, Fault, Store, read_to_end, report_fault, set_alias,
    write_complete, write_slave,
};
use station_line::init_line;
use station_plan::{plan_script, show_journal};
use station_rows::{LineRows, RefusedCommand, ShowOptions, show_image, show_layout};
use station_troubles::{INPUT_OR_OUTPUT, Noting, OUTPUT, tell_more};
use std::alloc::Global;
use std::io::{Read, Write};
use std::rt::Clock;
use std::sync::Wait;
use std::thread::Threads;

/// What a program runs on: threads that wait for each other, clocks and memory.
pub trait Host: Wait + Threads + Clock + AllocGlobal + Sync {}

impl<H: Wait + Threads + Clock + AllocGlobal + Sync> Host for H {}

/// Where the program prints.
#[derive(Drop)]
pub struct Streams<'a, W, E> {
    /// What was asked for.
    pub output: &'a mut W,
    /// Its faults.
    pub faults: &'a mut E,
}

/// Carries out a command line and returns the exit status: 0 done, 1 a command was refused or two images differ, 2 wrong
/// usage, 3 a file or its form, 4 a device or a power cut, 5 out of memory. The first argument is the program's name.
///
/// Where faults are printed to a terminal, `terminal` writes to it too. Then a second line follows the line of a fault, as with `--verbose`,
/// and without `--quiet` a line is drawn with the progress of `run` and `recover`.
pub fn serve<H: Host, R: Read, S: Store, W: Write, E: Write, T: Write + Send + Drop>(
    rt: &H,
    args: &[String],
    input: &mut R,
    store: &mut S,
    streams: Streams<'_, W, E>,
    terminal: Option<T>,
) -> u8 {
    match read_arguments(rt.alloc(), args) {
        Ok(request) => serve_request(rt, request, input, store, streams, terminal) as u8,
        Err(unread) => show_usage(rt.alloc(), &unread, streams) as u8,
    }
}

/// Carries out a command line that was read. A script that is typed or comes from standard input is handed on as a file.
fn serve_request<H: Host, R: Read, S: Store, W: Write, E: Write, T: Write + Send + Drop>(
    rt: &H,
    request: Request<'_>,
    input: &mut R,
    store: &mut S,
    streams: Streams<'_, W, E>,
    terminal: Option<T>,
) -> ExitStatus {
    let mut request = request;
    let is_reported = request.given.has("verbose") || terminal.is_some();
    let is_quiet = request.given.has("quiet");
    let progress = Progress::begin(rt, if is_quiet { None } else { terminal });
    let watch = watch_of(rt, progress.as_ref());
    let script = match (request.script.take(), request.task.run_files()) {
        (None, Some(files)) if files.script == INPUT => {
            let (name, text) = (INPUT, read_to_end(rt.alloc(), input));
            Some(Script { name, text })
        }
        (script, _) => script,
    };
    let mut joined = InputScript::new(store, script);
    serve_and_tell(watch, &request, is_reported, input, &mut joined, streams)
}

/// The runtime, and the progress that counts what a task does.
pub(crate) fn watch_of<'a, T, H>(rt: &'a H, progress: Option<&'a Progress<T>>) -> Watch<'a, T, H> {
    Watch { rt, progress }
}

/// Carries out a task, and then prints what has gone wrong. If `is_reported`, a second line says what the first was about, and one for each command
/// that was refused says what to do. Rows of JSON say too what has gone wrong.
fn serve_and_tell<H: Host, R: Read, S: Store, W: Write, E: Write, T: Write + Send>(
    watch: Watch<'_, T, H>,
    request: &Request<'_>,
    is_reported: bool,
    input: &mut R,
    store: &mut S,
    streams: Streams<'_, W, E>,
) -> ExitStatus {
    let alloc = watch.rt.alloc();
    let (task, form) = (request.task, lines_form(&request.given));
    let Streams { output, faults } = streams;
    let remembers = is_reported && matches!(task, Task::Work(_));
    let mut lines = LineRows::new(alloc, form, remembers, output);
    let mut noting = Noting::new(alloc, store, is_reported);
    let mut failures = Failures::none();
    let mut planned = Vec::new(alloc);
    let status = match task {
        Task::Work(asked) => {
            work_on_line(watch, asked, form, &mut noting, &mut lines, &mut failures)
        }
        _ => match do_task(alloc, task, input, &mut noting, &mut lines, &mut planned) {
            Ok(status) => status,
            Err(failure) => failures.note_failure(failure),
        },
    };
    print_failures(&failures, &mut lines, faults);
    if !is_reported {
        return status;
    }
    if let Some(failure) = failures.first() {
        let reported = noting.reported(failure.code(), streams_of(task));
        tell_more("sii_station", failure.code(), reported, faults);
    }
    if let Some(files) = task.run_files() {
        let kept = lines.refused();
        tell_refused(alloc, "sii_station", files, kept, &mut noting, faults);
        tell_refused(alloc, "sii_station", files, &planned, &mut noting, faults);
    }
    status
}

/// What is reported of the streams of a task, where one of them fails.
fn streams_of(task: Task<'_>) -> &'static str {
    match task {
        Task::Alias(_, _, None)
        | Task::Show(ShowOptions { file: None, .. })
        | Task::Write(_, None, _)
        | Task::Verify(None, _)
        | Task::Verify(_, None)
        | Task::Diff(Compared { old: None, .. } | Compared { new: None, .. }) => INPUT_OR_OUTPUT,
        _ => OUTPUT,
    }
}

/// Carries out a task that isn't work on a line. The commands that a plan refuses are put to `refused`.
fn do_task<R: Read, S: Store, W: Write>(
    alloc: Global,
    task: Task<'_>,
    input: &mut R,
    store: &mut S,
    output: &mut W,
    refused: &mut Vec<RefusedCommand>,
) -> Result<ExitStatus, Failure> {
    keep_images_separate(alloc, task, store)?;
    match task {
        Task::Work(_) => {}
        Task::Alias(value, hex, file) => set_alias(alloc, value, hex, file, input, store, output)?,
        Task::AliasInPlace(value, hex, name) => {
            alias_in_place(alloc, value, hex, name, input, store)?
        }
        Task::Write(name, file, any_device) => {
            write_slave(alloc, name, file, any_device, input, store)?
        }
        Task::Verify(found, wanted) => {
            return Ok(verify_image(alloc, found, wanted, input, store, output)?);
        }
        Task::Show(shown) => return Ok(show_image(alloc, shown, input, store, output)?),
        Task::Diff(compared) => return Ok(diff_images(alloc, compared, input, store, output)?),
        Task::Layout(line, form) => show_layout(alloc, line, form, store, output)?,
        Task::Explain(code) => print_page(explanation(alloc, code), output)?,
        Task::Completions(shell) => {
            print_page(completion_script(alloc, station(&rows()), shell), output)?
        }
        Task::Man => print_page(manual_page(alloc, station(&rows()), MANUAL_HEAD), output)?,
        Task::Init(line) => init_line(alloc, line, store, output)?,
        Task::Plan(names, form) => {
            let planned = plan_script(alloc, names.line, names.script, form, store, output);
            return Ok(status_of_plan(planned, refused)?);
        }
        Task::Journal(line, form) => show_journal(alloc, line, form, store, output)?,
    }
    Ok(ExitStatus::Done)
}

/// Prints the help or the version that was asked for, or what is wrong with the arguments.
fn show_usage<W: Write, E: Write>(
    alloc: Global,
    unread: &Unread,
    streams: Streams<'_, W, E>,
) -> ExitStatus {
    let Streams { output, faults } = streams;
    if unread.use_stderr() {
        return report_unread(alloc, unread, faults);
    }
    let printed = match format!(in alloc; "{unread}") {
        Ok(text) => write_complete(text.as_bytes(), output).map_err(|_| Fault::File),
        Err(_) => Err(Fault::Memory),
    };
    match printed {
        Ok(()) => ExitStatus::Done,
        Err(fault) => report_fault(fault, faults),
    }
}
