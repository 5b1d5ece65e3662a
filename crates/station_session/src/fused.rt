//! A run with a planned power cut, on a line in memory.
ghost use Rattle.std.specs.Prelude.{◌≡◌, ◌↔◌, length, true, IfOk, IsTrue, MatchResult, OnOk};
ghost use Rattle.esc_rom.specs.Owned.{OwnsAll};
ghost use Rattle.script_session.specs.Saving.{SavesServed};
ghost use Rattle.station_files.specs.Failures.{met_by};
ghost use Rattle.station_files.specs.Faults.{IsFaultless};
ghost use Rattle.station_files.specs.Files.{ChangesAmong};
ghost use Rattle.station_line.specs.Answers.{IsOfAnswers};
ghost use Rattle.station_line.specs.Opened.{is_old, IsFresh, StartsFrom};
ghost use Rattle.station_line.specs.Site.{files_of};
ghost use Rattle.station_session.specs.Noting.{Notes, NotesWhy};
ghost use Rattle.station_session.specs.Session.{EndsRun, IsRefusal};

use sii_edit::Command;
use site_journal::ReadFault;
use site_mem::{FaultPlan, Pattern};
use site_shadow::{Device, ShadowSite};
use station_alone::{Alone, OpenFault};
use station_files::{ExitStatus, Failures, Fault, Store, worse};
use station_line::{Answered, LoadedLine, Session, migrated, of_open, save_site, serve_commands};
use station_text::LineFile;
use std::alloc::Global;
use std::io::Write;

/// A planned power cut of a run.
#[derive(Clone, Copy)]
pub struct Fuse {
    /// How many writes succeed before the power cut, once the station is open: disk writes, syncs, and words that a slave takes.
    pub writes: u32,
    /// The value of a torn word after the power cut. Its low byte is the value of each unsynced byte of the journal.
    pub left: u16,
}

/// How the work on a station in memory ended.
#[derive(Drop)]
struct StationEnd {
    /// How the commands were answered.
    answered: Answered,
    /// The fault with which they were served, if there is one.
    served: Result<(), Fault>,
    /// The fault with which the line was saved, if there is one.
    saved: Result<(), Fault>,
}

/// Opens the station on the line in memory, serves the commands up to the power cut, and saves what the line holds. A fault is noted.
pub(crate) fn run_fused<S: Store, W: Write>(
    alloc: Global,
    given: LoadedLine<S::Lock>,
    fuse: Fuse,
    store: &mut S,
    output: &mut W,
    failures: &mut Failures,
) -> ExitStatus
    requires fresh { IsFresh given.session.line given.session.site }
    requires old { given.session.is_old ≡ is_old given.session.site.seen.state.disk.bytes }
    ensures ends { EndsRun true (S.files store.old) (S.files store.new) given.session.line given.session.site given.commands.items result }
    ensures noted { NotesWhy (IsOfAnswers result) result failures.old failures.new }
{
    let LoadedLine { session, commands } = given;
    let Session {
        line,
        site,
        is_old,
        refusal: _,
        lock: _lock,
    } = session;
    // The sync at the opening of the station counts as a write too.
    let plan = FaultPlan::fused(u64::from(fuse.writes) + 1, Pattern::Fill(fuse.left));
    match open_over(alloc, site, is_old, plan) {
        Ok(alone) => {
            let StationEnd {
                answered,
                served,
                saved,
            } = run_station(alloc, &line, alone, commands, store, output);
            let ended = worse(failures.note_end(served), failures.note_end(saved));
            worse(answered.status(), ended)
        }
        Err((left, fault)) => {
            drop(commands);
            give_up(alloc, &line, left, fault, store, failures)
        }
    }
}

/// Opens the station. A journal that isn't of version 2, as `is_old` says, is recovered and migrated first. Then `device` stands behind the site.
///
/// # Errors
///
/// As for `migrated` and `Alone::open`, with the site as they hand it back.
fn open_over<D: Device + Drop, E: Device>(
    alloc: Global,
    site: ShadowSite<D>,
    is_old: bool,
    device: E,
) -> Result<Alone<ShadowSite<E>>, (ShadowSite<E>, OpenFault)>
    requires disk { IsTrue site.line.has_disk }
    requires owned { OwnsAll site.line }
    ensures line { MatchResult result (λ alone. alone.line ≡ site.line) (λ back. back.0.line ≡ site.line) }
    ensures starts { IfOk result (λ alone. StartsFrom is_old site alone) }
{
    if !is_old {
        return Alone::open(alloc, site.with_device(device));
    }
    match migrated(alloc, site) {
        Ok(left) => Alone::open(alloc, left.with_device(device)),
        Err((back, fault)) => Err((back.with_device(device), fault)),
    }
}

/// Whether the journal was read, and its content was refused.
fn is_refused(fault: &OpenFault) -> bool
    ensures { IsTrue result ↔ IsRefusal fault.now }
{
    matches!(fault, OpenFault::Journal(ReadFault::Journal(_)))
}

/// Notes why a line in memory can't be opened or recovered, and saves what the line holds. No file is written where the journal was
/// refused.
fn give_up<D: Device + Drop, S: Store>(
    alloc: Global,
    line: &LineFile,
    site: ShadowSite<D>,
    fault: OpenFault,
    store: &mut S,
    failures: &mut Failures,
) -> ExitStatus
    requires disk { IsTrue site.line.has_disk }
    requires slaves { length site.line.sizes ≡ length line.now.images.items }
    ensures status { ¬ IsFaultless result }
    ensures others { ChangesAmong (S.files store.old) (S.files store.new) (files_of line.now) }
    ensures refused { IsRefusal fault → S.files store.new ≡ S.files store.old }
    ensures noted { Notes (met_by failures.old) (met_by failures.new) }
{
    let is_refused = is_refused(&fault);
    let status = failures.note(of_open(fault));
    if is_refused {
        drop(site);
        return status;
    }
    let saved = save_site(alloc, line, site, store);
    worse(status, failures.note_end(saved))
}

/// Serves the commands on a station in memory, and saves what its line holds, also after a fault.
fn run_station<D: Device + Drop, S: Store, W: Write>(
    alloc: Global,
    line: &LineFile,
    mut alone: Alone<ShadowSite<D>>,
    commands: Vec<Command>,
    store: &mut S,
    output: &mut W,
) -> StationEnd
    requires disk { IsTrue alone.line.has_disk }
    requires slaves { length alone.line.sizes ≡ length line.now.images.items }
    ensures others { ChangesAmong (S.files store.old) (S.files store.new) (files_of line.now) }
    ensures saved { OnOk result.served (OnOk result.saved (SavesServed (S.files store.new) line.now alone commands.items result.answered)) }
{
    let mut answered = Answered::AllAccepted;
    let slaves = line.images.len() as u16;
    let served = serve_commands(&mut alone, slaves, commands, output, &mut answered);
    let (core, site) = alone.into_parts();
    drop(core);
    let saved = save_site(alloc, line, site, store);
    StationEnd {
        answered,
        served,
        saved,
    }
}
