//! Recovers a line by threads: has a desk serve it, to which no command is submitted, and recovers and saves the line after that.

ghost use Rattle.std.specs.Prelude.{◌≡◌, [], false, length, Err, IfErr, IfSome, IsErr, IsSomeAnd, IsTrue, Ok, OnOk, Some};
ghost use Rattle.esc_rom.specs.Owned.{OwnsAll};
ghost use Rattle.site_core.specs.State.{Seen};
ghost use Rattle.station_alone.specs.Opening.{BeginsSession};
ghost use Rattle.station_files.specs.Files.{ChangesAmong};
ghost use Rattle.station_line.specs.Site.{files_of, IsFollowed};
ghost use Rattle.script_session.specs.After.{SavesRecovered};
ghost use Rattle.script_session.specs.Recovering.{CountsAll, IsOpenedHere, RecoversByThreads, RedoesOpened};
ghost use Rattle.script_session.specs.Running.{DeskGoes, EndsReported, LedAtDesk, OfDevices, OfRecovery, RunGoes, TellsOf, line_reported};
ghost use Rattle.script_session.specs.Running.{whole_of};
ghost use Rattle.script_session.specs.Saving.{MayFail};

use crate::after::reported_of;
use crate::logs::RunLog;
use crate::running::{LineRun, end_left};
use crate::threads::{Left, serve_task};
use crate::work::{Task, Work};
use site_shadow::{Lends, ShadowSite};
use station_alone::{Alone, Found, Recovered};
use station_files::{Fault, Store};
use station_line::{Answered, of_open};
use station_text::LineFile;
use std::io::sink;
use std::sync::Wait;
use std::thread::Threads;

/// Opens a station on this line, has threads redo what is live in its journal, recovers the line after them, and saves what it holds. The recovery
/// retires what they have left live, and migrates an old journal. Nothing is printed, and no process data are exchanged. Where no thread can be
/// made, this one does it all. Where the desk wasn't closed, or a part of it didn't end soundly, nothing more is written.
///
/// Of what was recovered, batches and commands are those that the open found. The words are all issues, by threads and after them.
///
/// The fault that ends the work is that of `Alone::open_counted`, as `of_open` gives it; then as for `serve_task`; then that of the desk; then as for
/// `end_line`.
pub fn recover_by_threads<D: Lends + Send, S: Store, R: Wait + Threads + AllocGlobal + Sync>(
    rt: &R,
    line: &LineFile,
    site: ShadowSite<D>,
    store: &mut S,
) -> LineRun<D::Logged>
    requires disk { IsTrue site.line.has_disk }
    requires owned { OwnsAll site.line }
    ensures others { ChangesAmong (S.files store.old) (S.files store.new) (files_of line.now) }
    ensures failed { IfErr result.ended (MayFail (S.files store.old) (S.files store.new)) }
    ensures closed { result.closed ≡ Ok tt }
    ensures goes { RunGoes (OfRecovery site.seen (OfDevices D.follows D.well D.tells result.reported)) site.seen [] (IsErr result.ended) }
    ensures saved { OnOk result.ended (SavesRecovered (λ s. IsSomeAnd (whole_of result.reported.desk result.reported.after) (λ whole.
        IsSomeAnd result.recovered (λ all. RecoversByThreads site all s)
        × EndsReported D.follows D.well D.tells false site (length line.now.images.items) whole s.seen)) (S.files store.new) line.now site.seen) }
{
    match Alone::open_counted(rt.alloc(), site) {
        Ok((alone, found)) => redo_opened(rt, line, alone, found, store),
        Err((left, fault)) => LineRun {
            answers: Answered::AllAccepted,
            closed: Ok(()),
            ended: Err(of_open(fault)),
            recovered: None,
            reported: RunLog::of_opening(reported_of(left)),
        },
    }
}

/// Has threads redo what is live in the journal of this station, in which the open found this much, recovers the line after them, and saves what it
/// holds.
fn redo_opened<D: Lends + Send, S: Store, R: Wait + Threads + AllocGlobal + Sync>(
    rt: &R,
    line: &LineFile,
    alone: Alone<ShadowSite<D>>,
    found: Found,
    store: &mut S,
) -> LineRun<D::Logged>
    requires opened { IsOpenedHere alone }
    ensures others { ChangesAmong (S.files store.old) (S.files store.new) (files_of line.now) }
    ensures failed { IfErr result.ended (MayFail (S.files store.old) (S.files store.new)) }
    ensures closed { result.closed ≡ Ok tt }
    ensures followed { IsFollowed (TellsOf D.follows D.tells (line_reported result.reported.desk result.reported.opening)) alone.seen }
    ensures goes { (before : Seen) → BeginsSession before alone
        → DeskGoes (OfRecovery before (OfDevices D.follows D.well D.tells result.reported)) alone [] (IsErr result.ended) }
    ensures saved { (before : Seen) → BeginsSession before alone
        → OnOk result.ended (SavesRecovered (λ s. IsSomeAnd (whole_of result.reported.desk result.reported.after) (λ whole.
        IsSomeAnd result.recovered (λ all. RedoesOpened alone found all s)
        × LedAtDesk D.follows D.well D.tells false (length line.now.images.items) alone whole s.seen)) (S.files store.new) line.now before) }
{
    // Its contract says that the station stands.
    let _capacity = alone.core().capacity();
    let alloc = rt.alloc();
    let task = Task {
        work: Work {
            commands: Vec::new(alloc),
            tells_events: false,
        },
        turns: false,
    };
    match serve_task(rt, alloc, alone, line.images.len(), task, &mut sink()) {
        Ok(left) => match left.ending.reported {
            Ok(()) => {
                let mut left = left;
                let sent = left.words;
                // No command is left that would be served after the recovery.
                left.ending.is_driven = true;
                let mut run = end_left(alloc, line, left, store, &mut sink());
                run.recovered = count_all(found, sent, run.recovered);
                run
            }
            Err(fault) => LineRun {
                answers: left.ending.answered,
                closed: Ok(()),
                ended: Err(fault),
                recovered: None,
                reported: RunLog::of_desk(left.reported, None),
            },
        },
        Err(why) => LineRun {
            answers: Answered::AllAccepted,
            closed: Ok(()),
            ended: Err(why.fault),
            recovered: None,
            reported: RunLog::of_unserved(why.reported),
        },
    }
}

/// The counts of a recovery: what the open found, and the words that threads have sent and those of the recovery after them, if it came to its end.
fn count_all(found: Found, sent: u64, after: Option<Recovered>) -> Option<Recovered>
    ensures { IfSome after (λ one. IsSomeAnd result (CountsAll found sent one)) }
{
    match after {
        Some(after) => Some(Recovered {
            batches: found.batches,
            commands: found.commands,
            words: sent.saturating_add(after.words),
        }),
        None => None,
    }
}
