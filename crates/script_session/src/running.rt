//! Runs the commands of a script on a line: opens a station there, has threads serve the commands, and recovers and saves the line after that.

ghost use Rattle.std.specs.Prelude.{◌≡◌, [], length, IfErr, IsErr, IsSomeAnd, IsTrue, Ok, OnOk, Some};
ghost use Rattle.esc_rom.specs.Owned.{OwnsAll};
ghost use Rattle.station_files.specs.Files.{ChangesAmong};
ghost use Rattle.station_line.specs.Opened.{is_old};
ghost use Rattle.station_line.specs.Site.{files_of, IsFollowed};
ghost use Rattle.script_session.specs.After.{LedOn, SavesRecovered};
ghost use Rattle.script_session.specs.Parts.{IsLineOf};
ghost use Rattle.script_session.specs.Running.{DeskGoes, EndsReported, GoesAfter, HasEnded, LedAtDesk, OfDevices, RunGoes, SavesDesk, SavesSite};
ghost use Rattle.script_session.specs.Running.{TellsOf, line_reported, whole_of};
ghost use Rattle.script_session.specs.Saving.{MayFail, SavesLeft};

use crate::after::{DeskLeft, end_line, reported_of};
use crate::closing::Ending;
use crate::logs::RunLog;
use crate::threads::{Left, serve_task};
use crate::work::Task;
use site_shadow::{Lends, ShadowSite};
use station_alone::{Alone, Recovered};
use station_files::{Fault, Store};
use station_line::{Answered, of_open, open_station};
use station_text::LineFile;
use station_threads::CloseFault;
use std::alloc::Global;
use std::io::Write;
use std::sync::Wait;
use std::thread::Threads;

/// A line on which a run begins.
#[derive(Drop)]
pub struct Start<S> {
    /// The site of the line.
    pub site: S,
    /// Whether the version byte of its journal is other than 2.
    pub is_old: bool,
}

/// How a run on a line ended, and what is reported of the line's devices. `T` is what one device tells.
#[derive(Drop)]
pub struct LineRun<T> {
    /// How the commands were answered at the desk.
    pub answers: Answered,
    /// The fault with which the desk was closed, if there is one: an answer or the totals couldn't be printed, or memory for a receipt was refused.
    /// The line is recovered and saved all the same.
    pub closed: Result<(), Fault>,
    /// How the others were answered after the desk, or the fault that ended the run.
    pub ended: Result<Answered, Fault>,
    /// What was recovered after the desk, if that came to its end.
    pub recovered: Option<Recovered>,
    /// What is reported of the devices.
    pub reported: RunLog<T>,
}

/// Opens the station on this line, a journal that isn't of version 2 being recovered and migrated first, serves the commands by threads, recovers the
/// line so that nothing is live, and saves what it holds. Prints the answer to each command and the totals. Where no thread can be made, the commands
/// are served on this one. Where the desk wasn't closed, or a part of it didn't end soundly, nothing more is written.
///
/// The fault that ends the run is that of `open_station`, as `of_open` gives it; then as for `serve_task`; then that of the desk; then as for
/// `end_line`.
pub fn run_line<D: Lends + Send, S: Store, O: Write, R: Wait + Threads + AllocGlobal + Sync>(
    rt: &R,
    line: &LineFile,
    start: Start<ShadowSite<D>>,
    task: Task,
    store: &mut S,
    output: &mut O,
) -> LineRun<D::Logged>
    requires disk { IsTrue start.site.line.has_disk }
    requires owned { OwnsAll start.site.line }
    requires old { start.is_old ≡ is_old start.site.seen.state.disk.bytes }
    ensures others { ChangesAmong (S.files store.old) (S.files store.new) (files_of line.now) }
    ensures failed { IfErr result.ended (MayFail (S.files store.old) (S.files store.new)) }
    ensures goes { RunGoes (OfDevices D.follows D.well D.tells result.reported) start.site.seen task.work.commands.items (IsErr result.ended) }
    ensures saved { (answered : Answered) → HasEnded result answered → SavesSite
        (λ last. IsSomeAnd (whole_of result.reported.desk result.reported.after)
        (λ whole. EndsReported D.follows D.well D.tells task.turns start.site (length line.now.images.items) whole last.seen))
        (S.files store.new) line.now start.site task.work.commands.items answered }
{
    let Start { site, is_old } = start;
    match open_station(rt.alloc(), site, is_old) {
        Ok(alone) => run_opened(rt, line, alone, task, store, output),
        Err((left, fault)) => {
            drop(task);
            LineRun {
                answers: Answered::AllAccepted,
                closed: Ok(()),
                ended: Err(of_open(fault)),
                recovered: None,
                reported: RunLog::of_opening(reported_of(left)),
            }
        }
    }
}

/// Serves the commands by threads on the line of this station, recovers the line, and saves what it holds. The station must not have accepted a
/// command yet.
fn run_opened<D: Lends + Send, S: Store, O: Write, R: Wait + Threads + AllocGlobal + Sync>(
    rt: &R,
    line: &LineFile,
    alone: Alone<ShadowSite<D>>,
    task: Task,
    store: &mut S,
    output: &mut O,
) -> LineRun<D::Logged>
    requires none { alone.book.accepted ≡ [] }
    ensures others { ChangesAmong (S.files store.old) (S.files store.new) (files_of line.now) }
    ensures failed { IfErr result.ended (MayFail (S.files store.old) (S.files store.new)) }
    ensures followed { IsFollowed (TellsOf D.follows D.tells (line_reported result.reported.desk result.reported.opening)) alone.seen }
    ensures goes { DeskGoes (OfDevices D.follows D.well D.tells result.reported) alone task.work.commands.items (IsErr result.ended) }
    ensures saved { (answered : Answered) → HasEnded result answered → SavesDesk
        (λ last. IsSomeAnd (whole_of result.reported.desk result.reported.after)
        (λ whole. LedAtDesk D.follows D.well D.tells task.turns (length line.now.images.items) alone whole last.seen))
        (S.files store.new) line.now alone task.work.commands.items answered }
{
    match serve_task(rt, rt.alloc(), alone, line.images.len(), task, output) {
        Ok(left) => end_left(rt.alloc(), line, left, store, output),
        Err(why) => LineRun {
            answers: Answered::AllAccepted,
            closed: Ok(()),
            ended: Err(why.fault),
            recovered: None,
            reported: RunLog::of_unserved(why.reported),
        },
    }
}

/// Recovers a line that a desk has left, and saves what it holds, if the desk was closed, and its parts ended soundly; also where an answer couldn't
/// be printed. Otherwise nothing more is written.
pub(crate) fn end_left<D: Lends, S: Store, O: Write>(
    alloc: Global,
    line: &LineFile,
    left: Left<ShadowSite<D>, D::Logged>,
    store: &mut S,
    output: &mut O,
) -> LineRun<D::Logged>
    requires line { IsLineOf (length line.now.images.items) left.site.line }
    requires reported { OnOk left.ending.reported (left.ending.closed ≡ Ok tt) }
    ensures others { ChangesAmong (S.files store.old) (S.files store.new) (files_of line.now) }
    ensures failed { IfErr result.ended (MayFail (S.files store.old) (S.files store.new)) }
    ensures closed { left.ending.reported ≡ Ok tt → result.closed ≡ Ok tt }
    ensures desk { result.reported.desk ≡ Some left.reported }
    ensures sound { OnOk result.ended (left.sound ≡ Ok tt) }
    ensures goes { left.ending.closed ≡ Ok tt → GoesAfter (OfDevices D.follows D.well D.tells result.reported) left.ending.is_driven left.sound
        left.unserved.items left.site.seen (IsErr result.ended) }
    ensures saved { (answered : Answered) → HasEnded result answered → SavesLeft (S.files store.new) line.now left answered }
    ensures followed { OnOk result.ended (IsTrue left.ending.is_driven → IsSomeAnd result.reported.after (λ after. SavesRecovered
        (LedOn D.follows D.well D.tells after (length line.now.images.items) result.recovered left.site) (S.files store.new) line.now
        left.site.seen)) }
{
    let Left {
        site,
        unserved,
        ending,
        sound,
        words: _,
        reported: desk,
    } = left;
    let Ending {
        is_driven,
        answered,
        closed,
        reported,
    } = ending;
    let (closed, ready) = faults_of(closed, reported, sound);
    match ready {
        Ok(()) => {
            let left = DeskLeft {
                site,
                is_driven,
                commands: unserved,
            };
            let (after, recovered) = end_line(alloc, line, left, store, output);
            LineRun {
                answers: answered,
                closed,
                ended: after.ended,
                recovered,
                reported: RunLog::of_desk(desk, Some(after.reported)),
            }
        }
        Err(fault) => {
            drop(site);
            drop(unserved);
            LineRun {
                answers: answered,
                closed,
                ended: Err(fault),
                recovered: None,
                reported: RunLog::of_desk(desk, None),
            }
        }
    }
}

/// The fault with which a desk was closed, if there is one, and the fault for which its line is not recovered, if there is one: that of a desk that
/// wasn't closed, or that of the ends of its parts.
fn faults_of(
    closed: Result<(), CloseFault>,
    reported: Result<(), Fault>,
    sound: Result<(), Fault>,
) -> (Result<(), Fault>, Result<(), Fault>)
    requires { OnOk reported (closed ≡ Ok tt) }
    ensures closed { OnOk result.0 (OnOk result.1 (reported ≡ Ok tt)) }
    ensures ready { OnOk result.1 ((closed ≡ Ok tt) × (sound ≡ Ok tt)) }
    ensures sound { closed ≡ Ok tt → result.1 ≡ sound }
    ensures quiet { reported ≡ Ok tt → result.0 ≡ Ok tt }
{
    match closed {
        Ok(()) => (reported, sound),
        Err(_) => (Ok(()), reported),
    }
}
