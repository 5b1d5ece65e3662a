//! The subcommand `recover`.
ghost use Rattle.std.specs.Prelude.{◌≡◌, IfErr, IfOk, OnErr};
ghost use Rattle.station_files.specs.Faults.{IsFaultless};
ghost use Rattle.station_line.specs.Opened.{IsFresh};
ghost use Rattle.station_line.specs.Refusals.{RefusesRecovery};
ghost use Rattle.station_session.specs.Noting.{NotesWhy};
ghost use Rattle.station_session.specs.Session.{EndsRecovery, RecoversFiles};

use crate::logs::with_all_reported;
use crate::run::Ran;
use line_watch::{Cleared, Watch, Watched};
use script_session::{LineRun, recover_by_threads};
use site_core::Site;
use site_file::{FileDevice, OpenFiles};
use station_alone::Recovered;
use station_files::{ExitStatus, Failures, Fault, Store, worse};
use station_line::{Answered, Session, load_session, of_journal, open_files, write_recovered};
use std::io::Write;
use std::rt::Clock;
use std::sync::Wait;
use std::thread::Threads;

/// Recovers the line whose line file is `name`, on its files, and prints what was recovered: threads redo what is live in its journal, one for each
/// slave, and the line is recovered after them. Returns how far it came, the exit status, and what was asked of the files.
///
/// The files are read in this order: line file, images of the slaves, journal. After any later fault, which is noted, the files hold what
/// was written so far, and another recovery completes it. What a power cut leaves in the open files at any moment, all of them together, is kept
/// for each machine for which what was read is kept; after `Done` each image has the contents, synced.
///
/// The progress of `watch` counts what is done, if there is one. Its line is erased before anything is printed, and at the end.
///
/// # Errors
///
/// As for `load_session`; then `NotAJournal`, `BadVersion`, `WrongLine` or `BadJournal` where the journal is refused. No file was written,
/// and none was opened for writing.
pub fn recover_line<
    S: Store,
    W: Write,
    T: Write + Send,
    R: Wait + Threads + Clock + AllocGlobal + Sync,
>(
    watch: Watch<'_, T, R>,
    name: &str,
    store: &mut S,
    output: &mut W,
    failures: &mut Failures,
) -> Result<Ran, Fault>
    ensures recovered { IfOk result (λ ran. RecoversFiles S.File S.leads (S.files store.old) (S.files store.new) name.now ran) }
    ensures refused { IfErr result (RefusesRecovery (S.files store.old) S.leads name.now) }
    ensures same { OnErr result (S.files store.new ≡ S.files store.old) }
    ensures noted { IfOk result (λ ran. NotesWhy (ran.status ≡ ExitStatus.Done) ran.status failures.old failures.new) }
    ensures unnoted { OnErr result (failures.new ≡ failures.old) }
{
    let session = load_session(watch.rt.alloc(), name, store)?;
    let refusal = session.refusal;
    match refusal {
        None => Ok(recover_session(watch, session, store, output, failures)),
        Some(fault) => {
            drop(session);
            Err(of_journal(fault))
        }
    }
}

/// Opens the files of a line that was read, and recovers the line on them.
fn recover_session<
    S: Store,
    W: Write,
    T: Write + Send,
    R: Wait + Threads + Clock + AllocGlobal + Sync,
>(
    watch: Watch<'_, T, R>,
    session: Session<S::Lock>,
    store: &mut S,
    output: &mut W,
    failures: &mut Failures,
) -> Ran
    requires fresh { IsFresh session.line session.site }
    ensures ends { EndsRecovery S.File (S.files store.old) (S.files store.new) session.line session.site.seen result }
    ensures noted { NotesWhy (result.status ≡ ExitStatus.Done) result.status failures.old failures.new }
{
    match open_files(watch.rt.alloc(), &session.line, &session.site, store) {
        Ok(files) => recover_opened(watch, session, files, store, output, failures),
        Err(fault) => {
            drop(session);
            Ran::without_files(false, failures.note(fault))
        }
    }
}

/// Recovers the line by threads on its open files. The line of the progress gives way to what is printed.
fn recover_opened<
    S: Store,
    W: Write,
    T: Write + Send,
    R: Wait + Threads + Clock + AllocGlobal + Sync,
>(
    watch: Watch<'_, T, R>,
    session: Session<S::Lock>,
    files: OpenFiles<S::File>,
    store: &mut S,
    output: &mut W,
    failures: &mut Failures,
) -> Ran
    requires fresh { IsFresh session.line session.site }
    ensures ends { EndsRecovery S.File (S.files store.old) (S.files store.new) session.line session.site.seen result }
    ensures noted { NotesWhy (result.status ≡ ExitStatus.Done) result.status failures.old failures.new }
{
    let Watch { rt, progress } = watch;
    let Session {
        line,
        site,
        is_old: _,
        refusal: _,
        lock: _lock,
    } = session;
    // Its contract says that there is a half for each slave.
    let _slaves = site.slaves();
    let site = site.with_device(Watched::new(FileDevice::new(files), progress, rt));
    let LineRun {
        ended,
        recovered,
        reported,
        ..
    } = recover_by_threads(rt, &line, site, store);
    let told = with_all_reported(note_ended(ended, failures), &reported, failures);
    let printed = print_recovered(recovered, &mut Cleared::new(output, progress, rt), failures);
    watch.erase();
    Ran {
        is_begun: true,
        status: worse(told, printed),
        reported,
    }
}

/// `Done`, or the exit status of the fault that ended a recovery, which is noted.
fn note_ended(ended: Result<Answered, Fault>, failures: &mut Failures) -> ExitStatus
    ensures fault { OnErr ended (¬ IsFaultless result) }
    ensures noted { NotesWhy (result ≡ ExitStatus.Done) result failures.old failures.new }
{
    match ended {
        Ok(_) => ExitStatus::Done,
        Err(fault) => failures.note(fault),
    }
}

/// Prints the counts of a recovery that came to its end, and returns the exit status. A fault of the output is noted.
fn print_recovered<W: Write>(
    recovered: Option<Recovered>,
    output: &mut W,
    failures: &mut Failures,
) -> ExitStatus
    ensures { NotesWhy (result ≡ ExitStatus.Done) result failures.old failures.new }
{
    let Some(recovered) = recovered else {
        return ExitStatus::Done;
    };
    match write_recovered(recovered, output) {
        Ok(()) => ExitStatus::Done,
        Err(error) => failures.note(Fault::from(error)),
    }
}
