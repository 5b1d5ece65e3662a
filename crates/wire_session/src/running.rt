//! The subcommand `run`.
ghost use Rattle.std.specs.Prelude.{◌≡◌, ◌≤◌, ◌∷◌, ◌++◌, [], false, length, map, None, Ok, IfOk, IfSome, IsErr, IsOkAnd, IsSomeAnd, IsTrue, OnOk};
ghost use Rattle.esc_rom.specs.Owned.{OwnsAll};
ghost use Rattle.station_files.specs.Files.{ChangesAmong};
ghost use Rattle.station_files.specs.FileNames.{files_with, written_of};
ghost use Rattle.station_files.specs.Locations.{AreSeparate};
ghost use Rattle.station_line.specs.Answers.{AnswersGive};
ghost use Rattle.station_line.specs.Validating.{HasJournal, IsRunSeparate};
ghost use Rattle.station_line.specs.Opened.{is_old};
ghost use Rattle.station_line.specs.Site.{files_of};
ghost use Rattle.script_session.specs.Running.{EndsReported, OfDevices, RunGoes, SavesSite, whole_of};
ghost use Rattle.wire_scan.specs.Opening.{IsFound};
ghost use Rattle.wire_scan.specs.Keeping.{AreOfImages};
ghost use Rattle.wire_mirror.specs.declared.journal_file.JournalFile.{JournalFile};
ghost use Rattle.wire_session.specs.Keeping.{KeepsFound};
ghost use Rattle.wire_session.specs.Running.{BeginsWithMends, EndsFound, RunsScript};
ghost use Rattle.wire_session.specs.Slaves.{AreOfParts};

use crate::as_found::AsFound;
use crate::expecting::expect_words;
use crate::followed::{Followed, followed};
use crate::logs::{Worked, of_own_parts};
use crate::reporting::{report_end, tell_handed, tell_why};
use kept_wire::a_cut_leaves_kept_on_a_wire;
use line_changes::Before;
use line_watch::Watch;
use script_session::{LineRun, Start, Task, Work, run_line};
use sii_edit::Command;
use sii_words::Plant;
use site_shadow::ShadowSite;
use site_wire::{LiveLine, LockedLine, TellsPart, WireLog};
use station_files::{ExitStatus, Fault, Script, Store, load_script, worse};
use station_line::{Answered, is_old, site_of};
use station_text::LineFile;
use std::alloc::{AllocError, Global};
use std::io::Write;
use std::mem;
use std::rt::Clock;
use std::sync::Wait;
use std::thread::Threads;
use wire_bringup::hand_back;
use wire_faults::WireFault;
use wire_frames::{NumberedWire, Wire};
use wire_mirror::{Images, JournalFile};
use wire_scan::{
    FoundWire, Named, ScanOptions, find_line, keep_script_separate, open_line, validate_commands,
    validate_images,
};

/// What a run is given, or the plan of one.
#[derive(Clone, Copy)]
pub struct RunOrder<'a> {
    /// The names of the line file and of the script.
    pub named: Named<'a>,
    /// What is asked for that isn't done where nothing is said.
    pub asked: ScanOptions,
}

/// What was found for a run: the line, and the commands: those that write image files to their slaves, as was said, and then those of the script.
#[derive(Drop)]
pub(crate) struct RunInputs<L> {
    pub(crate) found: FoundWire<L>,
    pub(crate) commands: Vec<Command>,
}

/// Runs the script file that the order names on the line on this wire: submits its commands in order, after those that write image files to their
/// slaves, as was said, serves them by threads, one for each slave, which share the wire, and prints the answer to each, what is reported of them as
/// it happens, and the totals. Each image file is replaced first by a new file with the words that its slave was found with, or is to get, and
/// gets each word that the slave has shown, before the batch that names it is retired. A journal that isn't of version 2 is recovered and migrated
/// first. Where no thread can be made, one serves all. The EEPROMs are handed back as they were found. The progress of `watch` is told how much is to
/// be written, if there is one. Returns the exit status: `Done`, or that of the worst refusal.
///
/// # Errors
///
/// As for `load_script`; then as for `find_line` and `keep_script_separate`; then, unless that is allowed, as for `validate_commands`, and as for
/// `validate_images`. Nothing is written up to there. Then as for `open_line`, `open_station` and `serve_task`; `Disk` where a file of the line
/// can't be written or synced any more; or why the line on the wire has stopped. A recovery completes what was begun. Then `File` or `Memory`,
/// as the store answers.
pub fn run_script<
    R: Wait + Threads + Clock + AllocGlobal + Sync,
    W: Wire + Send + Drop,
    S: Store,
    O: Write,
    T: Write,
>(
    watch: Watch<'_, T, R>,
    wire: NumberedWire<W>,
    order: RunOrder<'_>,
    store: &mut S,
    output: &mut O,
) -> Worked<ExitStatus, WireLog>
    ensures { RunsScript (JournalFile S.File) result order.entry.asked.mends S.leads (S.files store.old) (S.files store.new)
        order.entry.named.line.now order.entry.named.script.now }
{
    let mut wire = wire;
    match find_all(watch.rt, &mut wire, order, store) {
        Ok(given) => {
            let RunInputs { found, commands } = given;
            run_found(watch, found, commands, wire, store, output)
        }
        Err(fault) => {
            drop(wire);
            Worked::failed(fault)
        }
    }
}

/// Reads the script, and then finds the line. No file changes. A script that can't be read leaves the wire alone.
pub(crate) fn find_all<R: Clock + AllocGlobal, W: Wire, S: Store>(
    rt: &R,
    wire: &mut NumberedWire<W>,
    order: RunOrder<'_>,
    store: &mut S,
) -> Result<RunInputs<S::Lock>, WireFault>
    ensures found { IfOk result (λ given.
        IsFound (S.files store.old) order.entry.named.line.now given.found.line given.found.slaves.items given.found.journal.items) }
    ensures validated { IfOk result (λ given. HasJournal (map length given.found.slaves.items) given.found.journal.items) }
    ensures some { IfOk result (λ given. 1 ≤ length given.found.slaves.items) }
    ensures most { IfOk result (λ given. length given.found.slaves.items ≤ 64) }
    ensures spelt { IfOk result (λ given. BeginsWithMends (S.files store.old) given.found.line order.entry.asked.mends given.found.journal.items
        given.found.slaves.items order.entry.named.script.now given.commands.items) }
    ensures kept { IfOk result (λ given. AreOfImages (S.files store.old) given.found.line order.entry.asked.mends given.found.journal.items
        given.found.slaves.items) }
    ensures images { IfOk result (λ given. length given.found.images.items ≡ length given.found.slaves.items) }
    ensures separate { IfOk result (λ given.
        IsRunSeparate S.leads given.found.line order.entry.named.line.now order.entry.named.script.now) }
    ensures same { S.files store.new ≡ S.files store.old }
{
    let RunOrder { named, asked } = order;
    let script = load_script(rt.alloc(), named.script, store)?;
    match find_line(rt, wire, named.line, asked, store) {
        Ok(found) => match validate_script(rt.alloc(), named, &found, &script, asked, store) {
            Ok(()) => {
                let Script { commands, .. } = script;
                with_mends(rt.alloc(), wire, found, commands)
            }
            Err(fault) => {
                hand_back(wire, &found.states);
                drop(found);
                drop(script);
                Err(fault)
            }
        },
        Err(fault) => {
            drop(script);
            Err(fault)
        }
    }
}

/// A line that was found, with the commands that write image files to its slaves, and these after them.
fn with_mends<W: Wire, L: Drop>(
    alloc: Global,
    wire: &mut NumberedWire<W>,
    found: FoundWire<L>,
    commands: Vec<Command>,
) -> Result<RunInputs<L>, WireFault>
    ensures found { IfOk result (λ given. given.found ≡ record found { mends = given.found.mends }) }
    ensures commands { IfOk result (λ given. given.commands.items ≡ found.mends.items ++ commands.items) }
{
    let mut found = found;
    let mut after = commands;
    match found.mends.append(&mut after) {
        Ok(()) => {
            let commands = mem::replace(&mut found.mends, Vec::new(alloc));
            Ok(RunInputs { found, commands })
        }
        Err(AllocError) => {
            hand_back(wire, &found.states);
            drop(found);
            drop(after);
            Err(WireFault::Station(Fault::Memory))
        }
    }
}

/// Looks whether the script is separate from the files of the line, and whether its commands may be run on the slaves.
fn validate_script<S: Store>(
    alloc: Global,
    named: Named<'_>,
    found: &FoundWire<S::Lock>,
    script: &Script,
    asked: ScanOptions,
    store: &mut S,
) -> Result<(), WireFault>
    requires some { 1 ≤ length found.now.slaves.items }
    requires most { length found.now.slaves.items ≤ 64 }
    ensures separate { OnOk result (AreSeparate S.leads (length (written_of None found.now.line))
        (files_with None found.now.line named.entry.line.now ++ named.entry.script.now ∷ [])) }
    ensures same { S.files store.new ≡ S.files store.old }
{
    keep_script_separate(alloc, &found.line, named, store)?;
    if !asked.resizes {
        validate_commands(alloc, &found.slaves, &script.commands)?;
    }
    if asked.any_device {
        return Ok(());
    }
    validate_images(&found.slaves, script)
}

/// Runs the commands on a line that was found, hands the EEPROMs back, and prints what has changed if that is asked for.
pub(crate) fn run_found<
    R: Wait + Threads + Clock + AllocGlobal + Sync,
    W: Wire + Send + Drop,
    S: Store,
    O: Write,
    T: Write,
>(
    watch: Watch<'_, T, R>,
    found: FoundWire<S::Lock>,
    commands: Vec<Command>,
    wire: NumberedWire<W>,
    store: &mut S,
    output: &mut O,
) -> Worked<ExitStatus, WireLog>
    requires some { 1 ≤ length found.slaves.items }
    requires most { length found.slaves.items ≤ 64 }
    requires count { length found.slaves.items ≡ length found.line.images.items }
    requires images { length found.images.items ≡ length found.line.images.items }
    ensures ends { EndsFound result (S.files store.old) (S.files store.new) found.line found.slaves.items found.journal.items commands.items }
    ensures keeps { KeepsFound (JournalFile S.File) result found.slaves.items found.journal.items commands.items }
{
    let FoundWire {
        line,
        slaves,
        images,
        mends: _,
        states,
        journal,
        lock: _lock,
        tells,
    } = found;
    expect_words(watch, &journal, &slaves, &commands);
    // No process data go over a wire: no slave is in a state in which it takes them (ETG.1000.6).
    let task = Task {
        work: Work {
            commands,
            tells_events: tells.events,
        },
        turns: false,
    };
    let locked = LockedLine::new(LiveLine::new(wire));
    let as_found = AsFound {
        line: &line,
        slaves: &slaves,
        images: &images,
        journal,
    };
    let Worked {
        ended,
        reported: of_devices,
    } = run_opened(watch.rt, as_found, &locked, task, store, output);
    let explained = tell_why(watch.rt, &locked, ended);
    let mut wire = locked.into_line().into_wire();
    hand_back(&mut wire, &states);
    let reported = tell_handed(tells, wire.handed(), explained, output);
    drop(wire);
    let words = Plant::of(slaves);
    let before = Before { line, words };
    Worked {
        ended: report_end(watch.rt.alloc(), tells, &before, reported, store, output),
        reported: of_devices,
    }
}

/// Opens the files of a line, and runs the commands. Each image file follows its slave.
fn run_opened<
    R: Wait + Threads + Clock + AllocGlobal + Sync,
    W: Wire + Send + Drop,
    S: Store,
    O: Write,
>(
    rt: &R,
    found: AsFound<'_>,
    locked: &LockedLine<W>,
    task: Task,
    store: &mut S,
    output: &mut O,
) -> Worked<ExitStatus, WireLog>
    requires some { 1 ≤ length found.slaves.now }
    requires most { length found.slaves.now ≤ 64 }
    requires count { length found.slaves.now ≡ length found.line.now.images.items }
    requires images { length found.images.now ≡ length found.line.now.images.items }
    requires still { task.turns ≡ false }
    ensures ends { EndsFound result (S.files store.old) (S.files store.new)
        found.entry.line.now found.entry.slaves.now found.entry.journal.items task.work.commands.items }
    ensures keeps { KeepsFound (JournalFile S.File) result found.entry.slaves.now found.entry.journal.items task.work.commands.items }
{
    let AsFound {
        line,
        slaves,
        images: kept,
        journal,
    } = found;
    let files = match open_line(rt.alloc(), line, kept, &journal, store) {
        Ok(files) => files,
        Err(fault) => {
            drop(journal);
            drop(task);
            return Worked::of_fault(fault);
        }
    };
    let is_old = is_old(&journal);
    let images = Images::new(files.images);
    let device = followed(rt, locked, files.journal, &images);
    // Its contract says what a power cut leaves at a desk.
    a_cut_leaves_kept_on_a_wire::<
        JournalFile<'_, S::File>,
        ShadowSite<Followed<'_, R, W, S::File>>,
    >();
    match site_of(rt.alloc(), slaves, journal, device) {
        Ok(site) => run_site(rt, line, Start { site, is_old }, task, store, output),
        Err(AllocError) => {
            drop(task);
            Worked::of_fault(Fault::Memory)
        }
    }
}

/// Runs the commands on this line. `Unserved` where a part's device isn't reported as its own.
fn run_site<R: Wait + Threads + AllocGlobal + Sync, D: TellsPart + Send, S: Store, O: Write>(
    rt: &R,
    line: &LineFile,
    start: Start<ShadowSite<D>>,
    task: Task,
    store: &mut S,
    output: &mut O,
) -> Worked<ExitStatus, D::Logged>
    requires disk { IsTrue start.site.line.has_disk }
    requires owned { OwnsAll start.site.line }
    requires old { start.is_old ≡ is_old start.site.seen.state.disk.bytes }
    ensures own { IfOk result.ended (λ status. IfSome result.reported.desk (AreOfParts D.is_of)) }
    ensures others { ChangesAmong (S.files store.old) (S.files store.new) (files_of line.now) }
    ensures goes { start.site.seen.past ≡ [] → RunGoes (OfDevices D.follows D.well D.tells result.reported) start.site.seen task.work.commands.items
        (IsErr result.ended) }
    ensures saved { IfOk result.ended (AnswersGive (SavesSite (λ last. IsSomeAnd (whole_of result.reported.desk result.reported.after) (λ reported.
        EndsReported D.follows D.well D.tells task.turns start.site (length line.now.images.items) reported last.seen)) (S.files store.new) line.now
        start.site task.work.commands.items)) }
{
    let LineRun {
        answers,
        closed,
        ended,
        recovered: _,
        reported,
    } = run_line(rt, line, start, task, store, output);
    Worked {
        ended: of_own_parts::<D>(end_of(answers, closed, ended), &reported),
        reported,
    }
}

/// How a run ended: with the exit status that its answers give, or a fault, that of its desk first.
pub(crate) fn end_of(
    answers: Answered,
    closed: Result<(), Fault>,
    ended: Result<Answered, Fault>,
) -> Result<ExitStatus, WireFault>
    ensures closed { OnOk result (closed ≡ Ok tt) }
    ensures ended { IfOk result (AnswersGive (λ answered. IsOkAnd ended (λ given.
        answered ≡ Answered.AllAccepted → (answers ≡ Answered.AllAccepted) × (given ≡ Answered.AllAccepted)))) }
{
    match closed {
        Ok(()) => match ended {
            Ok(given) => Ok(worse(answers.status(), given.status())),
            Err(fault) => Err(WireFault::Station(fault)),
        },
        Err(fault) => Err(WireFault::Station(fault)),
    }
}
