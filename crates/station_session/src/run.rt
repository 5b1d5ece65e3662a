//! The subcommand `run`.
ghost use Rattle.std.specs.Prelude.{◌≡◌, is_some, false, IfErr, IfOk, IsTrue, OnErr};
ghost use Rattle.station_files.specs.Faults.{IsFaultless};
ghost use Rattle.script_session.specs.Running.{IsNoneReported};
ghost use Rattle.station_line.specs.Answers.{IsOfAnswers, exit_status};
ghost use Rattle.station_line.specs.Opened.{is_old, IsFresh};
ghost use Rattle.station_line.specs.Refusals.{RefusesRun};
ghost use Rattle.station_session.specs.Noting.{NotesWhy};
ghost use Rattle.station_session.specs.RunFiles.{IsAllReported, KeepsRunFiles, RunKeepsFiles};
ghost use Rattle.station_session.specs.Session.{EndsRun, RunsFiles};

use crate::fused::{Fuse, run_fused};
use crate::logs::{FilesLog, with_all_reported};
use line_watch::{Cleared, Watch, Watched};
use script_session::{LineRun, RunLog, Start, Task, Work, run_line};
use site_file::{FileDevice, OpenFiles};
use station_files::{ExitStatus, Failures, Fault, Store, worse};
use station_line::{Answered, LoadedLine, Session, load, open_files};
use std::io::Write;
use std::rt::Clock;
use std::sync::Wait;
use std::thread::Threads;

/// The names of the files that a run is given.
#[derive(Clone, Copy)]
pub struct RunNames<'a> {
    /// The line file.
    pub line: &'a str,
    /// The script.
    pub script: &'a str,
}

/// How far a run or a recovery came, its exit status, and what was asked of the files of its line.
#[derive(Drop)]
pub struct Ran {
    /// Whether it began. If not, a file of the line couldn't be opened, and no device has had these files.
    pub is_begun: bool,
    /// The exit status.
    pub status: ExitStatus,
    /// What was asked of the files.
    pub reported: FilesLog,
}

impl Ran {
    /// A run that wasn't begun, or one in memory.
    pub(crate) fn without_files(is_begun: bool, status: ExitStatus) -> Ran
        ensures begun { result.is_begun ≡ is_begun }
        ensures status { result.status ≡ status }
        ensures reported { IsNoneReported result.reported }
    {
        Ran {
            is_begun,
            status,
            reported: RunLog::none(),
        }
    }
}

/// Runs a script on a line: submits its commands in order, serves them by threads on the line's files, and prints the answer to each command
/// and the totals. Returns how far it came, the exit status, and all that was asked of the line's files.
///
/// The files are read in this order: line file, images of the slaves, journal, script, images that the script names. After any later fault,
/// which is noted, the files hold what was written so far, and a recovery completes it.
///
/// With a fuse, the commands are served on one thread on a copy of the line in memory, and what the power cut leaves is saved.
///
/// Without a fuse, the progress of `watch` counts what is done, if there is one. Its line is erased before anything is printed, and at the
/// end.
///
/// # Errors
///
/// As for `load`. No file was written, and none was opened for writing.
pub fn run_script<
    S: Store,
    W: Write,
    T: Write + Send,
    R: Wait + Threads + Clock + AllocGlobal + Sync,
>(
    watch: Watch<'_, T, R>,
    names: RunNames<'_>,
    fuse: Option<Fuse>,
    store: &mut S,
    output: &mut W,
    failures: &mut Failures,
) -> Result<Ran, Fault>
    ensures ran { IfOk result (λ ran. RunsFiles S.leads (is_some fuse) (S.files store.old) (S.files store.new) names.entry.line.now
        names.entry.script.now ran.status) }
    ensures begun { IfOk result (λ ran. IsFaultless ran.status → IsTrue ran.is_begun) }
    ensures kept { is_some fuse ≡ false → IfOk result (λ ran. IsTrue ran.is_begun
        → KeepsRunFiles S.File (S.files store.old) names.entry.line.now names.entry.script.now ran.status ran.reported) }
    ensures reported { is_some fuse ≡ false → IfOk result (λ ran. IsFaultless ran.status → IsAllReported ran.reported) }
    ensures unbegun { IfOk result (λ ran. ran.is_begun ≡ false → IsNoneReported ran.reported) }
    ensures refused { IfErr result (RefusesRun (S.files store.old) S.leads names.entry.line.now names.entry.script.now) }
    ensures same { OnErr result (S.files store.new ≡ S.files store.old) }
    ensures noted { IfOk result (λ ran. NotesWhy (IsOfAnswers ran.status) ran.status failures.old failures.new) }
    ensures unnoted { OnErr result (failures.new ≡ failures.old) }
{
    let RunNames { line, script } = names;
    match load(watch.rt.alloc(), line, script, store) {
        Ok(given) => Ok(run_given(watch, given, fuse, store, output, failures)),
        Err(fault) => Err(fault),
    }
}

/// Serves the commands, with a fuse in memory, and else on the line's files, which it opens.
fn run_given<S: Store, W: Write, T: Write + Send, R: Wait + Threads + Clock + AllocGlobal + Sync>(
    watch: Watch<'_, T, R>,
    given: LoadedLine<S::Lock>,
    fuse: Option<Fuse>,
    store: &mut S,
    output: &mut W,
    failures: &mut Failures,
) -> Ran
    requires fresh { IsFresh given.session.line given.session.site }
    requires old { given.session.is_old ≡ is_old given.session.site.seen.state.disk.bytes }
    ensures ends { EndsRun (is_some fuse) (S.files store.old) (S.files store.new) given.session.line given.session.site given.commands.items
        result.status }
    ensures begun { IsFaultless result.status → IsTrue result.is_begun }
    ensures kept { is_some fuse ≡ false → IsTrue result.is_begun
        → RunKeepsFiles S.File given.session.site.seen given.commands.items result.status result.reported }
    ensures reported { is_some fuse ≡ false → IsFaultless result.status → IsAllReported result.reported }
    ensures unbegun { result.is_begun ≡ false → IsNoneReported result.reported }
    ensures noted { NotesWhy (IsOfAnswers result.status) result.status failures.old failures.new }
{
    match fuse {
        Some(fuse) => {
            let status = run_fused(watch.rt.alloc(), given, fuse, store, output, failures);
            Ran::without_files(true, status)
        }
        None => match open_files(
            watch.rt.alloc(),
            &given.session.line,
            &given.session.site,
            store,
        ) {
            Ok(files) => run_opened(watch, given, files, store, output, failures),
            Err(fault) => {
                drop(given);
                Ran::without_files(false, failures.note(fault))
            }
        },
    }
}

/// Serves the commands by threads on the open files of the line. The line of the progress gives way to what is printed.
fn run_opened<S: Store, W: Write, T: Write + Send, R: Wait + Threads + Clock + AllocGlobal + Sync>(
    watch: Watch<'_, T, R>,
    given: LoadedLine<S::Lock>,
    files: OpenFiles<S::File>,
    store: &mut S,
    output: &mut W,
    failures: &mut Failures,
) -> Ran
    requires fresh { IsFresh given.session.line given.session.site }
    requires old { given.session.is_old ≡ is_old given.session.site.seen.state.disk.bytes }
    ensures ends { EndsRun false (S.files store.old) (S.files store.new) given.session.line given.session.site given.commands.items result.status }
    ensures begun { IsTrue result.is_begun }
    ensures kept { RunKeepsFiles S.File given.session.site.seen given.commands.items result.status result.reported }
    ensures reported { IsFaultless result.status → IsAllReported result.reported }
    ensures noted { NotesWhy (IsOfAnswers result.status) result.status failures.old failures.new }
{
    let Watch { rt, progress } = watch;
    let LoadedLine { session, commands } = given;
    let Session {
        line,
        site,
        is_old,
        refusal: _,
        lock: _lock,
    } = session;
    watch.expect(commands.len());
    let start = Start {
        site: site.with_device(Watched::new(FileDevice::new(files), progress, rt)),
        is_old,
    };
    let task = Task {
        work: Work {
            commands,
            tells_events: false,
        },
        turns: true,
    };
    let LineRun {
        answers,
        closed,
        ended,
        reported,
        ..
    } = run_line(
        rt,
        &line,
        start,
        task,
        store,
        &mut Cleared::new(output, progress, rt),
    );
    let noted = worse(failures.note_end(closed), note_answered(ended, failures));
    let status = with_all_reported(worse(answers.status(), noted), &reported, failures);
    watch.erase();
    Ran {
        is_begun: true,
        status,
        reported,
    }
}

/// The exit status that these answers give, or that of the fault, which is noted.
fn note_answered(ended: Result<Answered, Fault>, failures: &mut Failures) -> ExitStatus
    ensures answered { IfOk ended (λ answered. result ≡ exit_status answered) }
    ensures fault { OnErr ended (¬ IsFaultless result) }
    ensures noted { NotesWhy (IsOfAnswers result) result failures.old failures.new }
{
    match ended {
        Ok(answered) => answered.status(),
        Err(fault) => failures.note(fault),
    }
}
