//! Refused memory: a growth that is refused loses nothing, wherever it is. The gate refuses none; `tools/refuse_each` refuses each. Then one call
//! answers that memory was refused, or with the disk's fault if the disk needed it, and does the same as ever when it is made again.

use book_model::Fault;
use runner_cases::asks::Ask;
use runner_cases::line::{THREE, parts_of};
use runner_cases::runs::{ASKS, End, SERVED, Way, end_of, is_found, kept_by, recovers};
use runner_cases::sites::{Trouble, aliases_of, is_memory, off, open, recovered, site_of};
use runner_cases::stations::{fault_of, serve, status_of, submit};
use site_mem::{MemSite, Parts};
use station_alone::{Alone, Answer, Choice, OpenFault};
use std::alloc::Global;

/// What is done with three queued commands.
#[derive(Clone, Copy, PartialEq)]
enum Work {
    /// They are served.
    Serve,
    /// Their batch is appended, and the station is dropped.
    Append,
}

/// Opens a station, at the second try if the first is refused memory.
fn opened(alloc: Global, site: MemSite) -> Result<Alone<MemSite>, (MemSite, OpenFault)> {
    match open(alloc, site) {
        Ok(station) => Ok(station),
        Err((site, fault)) if is_memory(fault) => open(alloc, site),
        Err(refused) => Err(refused),
    }
}

/// Whether a command is accepted, at the second try if the first is refused memory, which must change nothing.
fn is_accepted(alloc: Global, station: &mut Alone<MemSite>, ask: &Ask) -> bool {
    let before = status_of(station);
    let mut answer = submit(alloc, station, ask);
    if answer == Answer::NoMemory && status_of(station) == before {
        answer = submit(alloc, station, ask);
    }
    matches!(answer, Answer::Accepted(_))
}

fn are_accepted(alloc: Global, station: &mut Alone<MemSite>) -> bool {
    for ask in ASKS {
        if !is_accepted(alloc, station, ask) {
            return false;
        }
    }
    true
}

/// Whether an action of the disk is carried out, at the second try if the first is refused memory, which must change nothing; or the
/// disk was refused memory, which closes the book.
fn is_written(station: &mut Alone<MemSite>) -> bool {
    let before = status_of(station);
    let mut answer = station.act(&Choice::Disk);
    if answer == Answer::NoMemory && status_of(station) == before {
        answer = station.act(&Choice::Disk);
    }
    answer == Answer::Did || answer == Answer::Failed(Fault::Disk)
}

/// Whether the four actions that append a batch are carried out.
fn is_appended(station: &mut Alone<MemSite>) -> bool {
    for _action in 0..4u8 {
        if fault_of(station).is_none() && !is_written(station) {
            return false;
        }
    }
    true
}

/// Whether steps in a row are answered, at the second try if the first is refused memory, which must change nothing.
fn is_run(station: &mut Alone<MemSite>) -> bool {
    let choices = [Choice::Disk, Choice::Rom(0), Choice::Rom(1), Choice::Rom(2)];
    let before = status_of(station);
    station.run(&choices).is_ok() || (status_of(station) == before && station.run(&choices).is_ok())
}

/// Whether the work succeeds. Rounds end when an action of the disk is refused memory, and begin again with the same action.
fn goes_well(alloc: Global, station: &mut Alone<MemSite>, work: Work) -> bool {
    if !are_accepted(alloc, station) || !is_appended(station) {
        return false;
    }
    if work == Work::Append {
        return true;
    }
    let is_well = is_run(station);
    serve(station);
    serve(station);
    is_well
}

fn worked(alloc: Global, station: Alone<MemSite>, work: Work) -> (MemSite, Option<End>) {
    let mut station = station;
    let is_well = goes_well(alloc, &mut station, work);
    let end = end_of(&station);
    (off(station), if is_well { Some(end) } else { None })
}

/// How the work ends; None if it fails.
fn ended(alloc: Global, site: MemSite, work: Work) -> (MemSite, Option<End>) {
    match opened(alloc, site) {
        Ok(station) => worked(alloc, station, work),
        Err((site, _fault)) => (site, None),
    }
}

/// Whether a recovery completes, at the second try if the first is refused memory, and finds some of these aliases.
fn recovers_at_last(alloc: Global, parts: Parts, kept: &[[u16; 3]]) -> bool {
    let Some(site) = site_of(alloc, parts, &Trouble::Nothing) else {
        return false;
    };
    let (site, came) = recovered(alloc, site);
    let left = site.into_parts();
    match came {
        Err(fault) if is_memory(fault) => recovers(alloc, left, kept),
        _ => {
            let is_found = is_found(&left, kept);
            drop(left);
            came.is_ok() && is_found
        }
    }
}

/// Whether nothing is lost after the work has ended.
fn is_kept(alloc: Global, parts: Parts, work: Work, end: &End) -> bool {
    if work == Work::Serve && end.fault.is_none() {
        let aliases = aliases_of(&parts);
        drop(parts);
        return *end == SERVED && aliases == [9, 1, 7];
    }
    let is_disk = end.fault.is_none() || end.fault == Some(Fault::Disk);
    recovers_at_last(alloc, parts, kept_by(Way::Queued, end.status[1])) && is_disk
}

/// Whether the work succeeds, and nothing is lost. None: memory was refused for the line.
fn loses_nothing(alloc: Global, work: Work) -> Option<bool> {
    let site = site_of(alloc, parts_of(alloc, &THREE)?, &Trouble::Nothing)?;
    let (site, end) = ended(alloc, site, work);
    match end {
        Some(end) => Some(is_kept(alloc, site.into_parts(), work, &end)),
        None => Some(false),
    }
}

/// Like `loses_nothing`, on a second line if memory was refused for the first.
fn loses_nothing_at_last(alloc: Global, work: Work) -> bool {
    match loses_nothing(alloc, work) {
        Some(is_well) => is_well,
        None => loses_nothing(alloc, work) == Some(true),
    }
}

#[test]
fn a_refused_growth_loses_nothing(rt: HostRuntime) {
    assert!(rt; loses_nothing_at_last(rt.alloc(), Work::Serve));
    assert!(rt; loses_nothing_at_last(rt.alloc(), Work::Append));
}
