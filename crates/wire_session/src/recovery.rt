//! The subcommand `recover`.
ghost use Rattle.std.specs.Prelude.{◌≡◌, ◌≤◌, [], false, length, IfOk, IfSome, IsErr, IsSomeAnd, IsTrue};
ghost use Rattle.esc_rom.specs.Owned.{OwnsAll};
ghost use Rattle.station_files.specs.Files.{ChangesAmong};
ghost use Rattle.station_line.specs.Site.{files_of, switched_on};
ghost use Rattle.script_session.specs.After.{SavesRecovered};
ghost use Rattle.script_session.specs.Running.{EndsReported, OfDevices, OfRecovery, RunGoes, whole_of};
ghost use Rattle.wire_mirror.specs.declared.journal_file.JournalFile.{JournalFile};
ghost use Rattle.wire_session.specs.Keeping.{KeepsRecovered};
ghost use Rattle.wire_session.specs.Recovery.{EndsOpenedRecovery, Recovers};
ghost use Rattle.wire_session.specs.Slaves.{AllHold, AreOfParts};
ghost use Rattle.wire_session.specs.Reporting.{IsPrinted};

use crate::as_found::AsFound;
use crate::followed::{Followed, followed};
use crate::logs::{Worked, of_own_parts};
use crate::reporting::{report_end, tell_why};
use crate::running::end_of;
use kept_wire::a_cut_leaves_kept_on_a_wire;
use line_changes::Before;
use script_session::{LineRun, recover_by_threads};
use sii_words::Plant;
use site_shadow::ShadowSite;
use site_wire::{LiveLine, LockedLine, TellsPart, WireLog};
use station_alone::Recovered;
use station_files::{ExitStatus, Fault, Store};
use station_line::{site_of, write_recovered};
use station_text::LineFile;
use std::alloc::{AllocError, Global};
use std::io::Write;
use std::rt::Clock;
use std::sync::Wait;
use std::thread::Threads;
use wire_bringup::hand_back;
use wire_faults::WireFault;
use wire_frames::{NumberedWire, Wire};
use wire_mirror::{Images, JournalFile};
use wire_scan::{FoundWire, ScanOptions, find_line, open_line};

/// Recovers the line on this wire, whose line file is `name`, with its journal: what is live in the journal is done, and the slaves then
/// hold the contents after a prefix of the commands accepted before, with every acknowledged one in it. Threads do it, one for each slave,
/// which share the wire; where no thread can be made, one does it all. Each image file is replaced first by a new file with the words that its
/// slave was found with, and gets each word that the slave has shown, before the batch that names it is retired. Prints what was recovered. The
/// EEPROMs are handed back as they were found. No image file is written to its slave: `mend_line` does that too.
///
/// # Errors
///
/// As for `find_line`, where slaves in any state are allowed. Nothing is written up to there. Then `NotAJournal`, `BadVersion`, `WrongLine` or
/// `BadJournal` where the journal is refused, with no word written; `SlaveDead` for a slave that is given up; `Disk` where a file of the line can't
/// be written or synced any more; or why the site on the wire has stopped. Another recovery completes what was begun. Then `File` or `Memory`, as
/// the store or the output answers.
pub fn recover_line<
    R: Wait + Threads + Clock + AllocGlobal + Sync,
    W: Wire + Send + Drop,
    S: Store,
    O: Write,
>(
    rt: &R,
    wire: NumberedWire<W>,
    name: &str,
    asked: ScanOptions,
    store: &mut S,
    output: &mut O,
) -> Worked<(), WireLog>
    ensures { Recovers (JournalFile S.File) result asked.mends S.leads (S.files store.old) (S.files store.new) name.now }
{
    let mut wire = wire;
    let forced = ScanOptions {
        is_forced: true,
        ..asked
    };
    match find_line(rt, &mut wire, name, forced, store) {
        Ok(found) => recover_found(rt, found, wire, store, output),
        Err(fault) => {
            drop(wire);
            Worked::failed(fault)
        }
    }
}

/// Recovers a line that was found, hands the EEPROMs back, and prints what has changed if that is asked for.
fn recover_found<
    R: Wait + Threads + Clock + AllocGlobal + Sync,
    W: Wire + Send + Drop,
    S: Store,
    O: Write,
>(
    rt: &R,
    found: FoundWire<S::Lock>,
    wire: NumberedWire<W>,
    store: &mut S,
    output: &mut O,
) -> Worked<(), WireLog>
    requires some { 1 ≤ length found.slaves.items }
    requires most { length found.slaves.items ≤ 64 }
    requires count { length found.slaves.items ≡ length found.line.images.items }
    requires images { length found.images.items ≡ length found.line.images.items }
    ensures ends { EndsOpenedRecovery (AllHold found.slaves.items result.reported) result.ended
        (S.files store.old) (S.files store.new) found.line (switched_on found.slaves.items found.journal.items) }
    ensures keeps { KeepsRecovered (JournalFile S.File) result found.slaves.items found.journal.items }
{
    let FoundWire {
        line,
        slaves,
        images,
        mends: _,
        states,
        journal,
        lock: _lock,
        tells,
    } = found;
    let locked = LockedLine::new(LiveLine::new(wire));
    let as_found = AsFound {
        line: &line,
        slaves: &slaves,
        images: &images,
        journal,
    };
    let Worked { ended, reported } = recover_opened(rt, as_found, &locked, store, output);
    let explained = tell_why(rt, &locked, ended);
    let mut wire = locked.into_line().into_wire();
    hand_back(&mut wire, &states);
    drop(wire);
    let words = Plant::of(slaves);
    let before = Before { line, words };
    Worked {
        ended: report_end(rt.alloc(), tells, &before, explained, store, output),
        reported,
    }
}

/// Opens the files of a line, and recovers the line. Each image file follows its slave.
fn recover_opened<
    R: Wait + Threads + Clock + AllocGlobal + Sync,
    W: Wire + Send + Drop,
    S: Store,
    O: Write,
>(
    rt: &R,
    found: AsFound<'_>,
    locked: &LockedLine<W>,
    store: &mut S,
    output: &mut O,
) -> Worked<(), WireLog>
    requires some { 1 ≤ length found.slaves.now }
    requires most { length found.slaves.now ≤ 64 }
    requires count { length found.slaves.now ≡ length found.line.now.images.items }
    requires images { length found.images.now ≡ length found.line.now.images.items }
    ensures ends { EndsOpenedRecovery (AllHold found.entry.slaves.now result.reported) result.ended
        (S.files store.old) (S.files store.new) found.entry.line.now (switched_on found.entry.slaves.now found.entry.journal.items) }
    ensures keeps { KeepsRecovered (JournalFile S.File) result found.entry.slaves.now found.entry.journal.items }
{
    let AsFound {
        line,
        slaves,
        images: kept,
        journal,
    } = found;
    let files = match open_line(rt.alloc(), line, kept, &journal, store) {
        Ok(files) => files,
        Err(fault) => {
            drop(journal);
            return Worked::of_fault(fault);
        }
    };
    let images = Images::new(files.images);
    let device = followed(rt, locked, files.journal, &images);
    // Its contract says what a power cut leaves at a desk.
    a_cut_leaves_kept_on_a_wire::<
        JournalFile<'_, S::File>,
        ShadowSite<Followed<'_, R, W, S::File>>,
    >();
    match site_of(rt.alloc(), slaves, journal, device) {
        Ok(site) => recover_site(rt, line, site, store, output),
        Err(AllocError) => Worked::of_fault(Fault::Memory),
    }
}

/// Recovers a line by threads, saves what its slaves hold to their image files, and prints what was recovered. `Unserved` where a part's device isn't
/// reported as its own.
fn recover_site<R: Wait + Threads + AllocGlobal + Sync, D: TellsPart + Send, S: Store, O: Write>(
    rt: &R,
    line: &LineFile,
    site: ShadowSite<D>,
    store: &mut S,
    output: &mut O,
) -> Worked<(), D::Logged>
    requires disk { IsTrue site.line.has_disk }
    requires owned { OwnsAll site.line }
    ensures own { IfOk result.ended (λ done. IfSome result.reported.desk (AreOfParts D.is_of)) }
    ensures others { ChangesAmong (S.files store.old) (S.files store.new) (files_of line.now) }
    ensures goes { site.seen.past ≡ [] → RunGoes (OfRecovery site.seen (OfDevices D.follows D.well D.tells result.reported)) site.seen []
        (IsErr result.ended) }
    ensures saved { IfOk result.ended (λ done. SavesRecovered (λ s. IsSomeAnd (whole_of result.reported.desk result.reported.after) (λ reported.
        EndsReported D.follows D.well D.tells false site (length line.now.images.items) reported s.seen)) (S.files store.new) line.now site.seen) }
{
    let LineRun {
        answers,
        closed,
        ended,
        recovered,
        reported,
    } = recover_by_threads(rt, line, site, store);
    let ended = of_own_parts::<D>(end_of(answers, closed, ended), &reported);
    Worked {
        ended: print_recovered(ended, recovered, output),
        reported,
    }
}

/// Prints what was recovered, if the work ended without a fault.
fn print_recovered<O: Write>(
    ended: Result<ExitStatus, WireFault>,
    recovered: Option<Recovered>,
    output: &mut O,
) -> Result<(), WireFault>
    ensures { IsPrinted ended result }
{
    match ended {
        Ok(_) => {
            if let Some(recovered) = recovered {
                write_recovered(recovered, output)?;
            }
            Ok(())
        }
        Err(fault) => Err(fault),
    }
}
