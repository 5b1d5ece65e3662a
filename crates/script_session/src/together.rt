//! Puts a line together again from the ends of its threads, and tells of the devices of its parts.

ghost use Rattle.std.specs.Prelude.{◌≡◌, ◌<◌, ◌≤◌, ◌+◌, ◌∷◌, ◌++◌, [], List, length, vec_capacity, IfOk, IfSome};
ghost use Rattle.std.specs.Prelude.{IsOkAnd, IsTrue};
ghost use Rattle.std.specs.List.{AllZip};
ghost use Rattle.site_core.specs.State.{Seen};
ghost use Rattle.site_shadow.specs.Line.{half_of, halves_of};
ghost use Rattle.site_shadow.specs.Site.{SiteValue};
ghost use Rattle.station_jobs.specs.Ends.{Stay};
ghost use Rattle.station_threads.specs.declared.closing.Ends.{Ends};
ghost use Rattle.station_jobs.specs.Flushing.{IsFlushed};
ghost use Rattle.station_jobs.specs.declared.log.SlaveLog.{SlaveLog};
ghost use Rattle.station_threads.specs.Places.{AllPlaced};
ghost use Rattle.script_session.specs.Parts.{
  AreLeftBy,
  EndsWith,
  HasDiskOf,
  IsDeskReported,
  IsLineOf,
  IsRoom,
  IsTogether,
  IsWorkFollowed,
  Telling,
};
ghost use Rattle.station_line.specs.Site.{IsFollowed};

use crate::logs::{DeskLog, PartLog, taken_back};
use crate::separate::site_of;
use esc_model::RomHalf;
use esc_rom::owns_all;
use site_core::Site;
use site_shadow::{Device, Lends, Parts, ShadowSite};
use station_files::Fault;
use station_jobs::{CycleLog, End, Leads, SlaveLog};
use station_threads::{Ends, Sites};
use std::alloc::{AllocError, Global};

/// The EEPROM halves of slaves, as their workers left them, or why one is missing; and what is reported of their devices. Both are in order.
#[derive(Drop)]
pub(crate) struct OfSlaves<T> {
    pub(crate) halves: Result<Vec<Option<RomHalf>>, Fault>,
    pub(crate) reported: Vec<PartLog<T>>,
}

impl<T> OfSlaves<T> {
    /// Empty lists, with room for this many slaves.
    pub(crate) fn room(alloc: Global, slaves: usize) -> Result<OfSlaves<T>, AllocError>
        ensures room { IfOk result IsRoom }
        ensures reserved { IfOk result (λ room. slaves ≤ vec_capacity room.reported) }
    {
        let halves = Vec::with_capacity(alloc, slaves)?;
        let reported = Vec::with_capacity(alloc, slaves)?;
        Ok(OfSlaves {
            halves: Ok(halves),
            reported,
        })
    }
}

/// These halves and this one, unless one is missing or memory is refused.
fn with_half(
    halves: Result<Vec<Option<RomHalf>>, Fault>,
    half: Result<Option<RomHalf>, Fault>,
) -> Result<Vec<Option<RomHalf>>, Fault>
    ensures { IfOk result (λ more. IsOkAnd halves (λ had. IsOkAnd half (λ one. more.items ≡ had.items ++ one ∷ []))) }
{
    match (halves, half) {
        (Ok(mut halves), Ok(half)) => {
            halves.push(half)?;
            Ok(halves)
        }
        (Err(fault), half) => {
            drop(half);
            Err(fault)
        }
        (Ok(halves), Err(fault)) => {
            drop(halves);
            Err(fault)
        }
    }
}

/// What is kept of a line that was taken apart, until it is put together again.
#[derive(Drop)]
pub(crate) struct Complete<D, T> {
    /// The line's device, which has lent each part one.
    pub(crate) device: D,
    /// What was reported of it before.
    pub(crate) reported: PartLog<T>,
    /// Empty lists with room for what the workers leave.
    pub(crate) room: OfSlaves<T>,
}

/// The parts of a site. The device of the line takes the site's back, and tells of it.
fn parts_of<D: Lends>(site: ShadowSite<D>, entire: &mut D) -> (Parts, PartLog<D::Logged>)
    ensures disk { IfSome result.0.disk (λ bytes. bytes.items ≡ site.seen.state.disk.bytes) }
    ensures halves { halves_of result.0.halves.items ≡ site.seen.state.halves }
    ensures reported { IsFollowed (Telling D.follows D.well D.tells result.1) site.seen }
{
    let has_stopped = site.has_stopped();
    let (parts, device) = site.into_parts();
    (parts, taken_back(entire, device, has_stopped))
}

/// The parts of the site with which a thread ended. The device of the line takes the site's back, and tells of it.
fn parts_at<D: Lends, L: Leads + Drop>(
    end: End<ShadowSite<D>, L>,
    entire: &mut D,
) -> (Parts, PartLog<D::Logged>)
    ensures disk { IfSome result.0.disk (λ bytes. bytes.items ≡ end.site.seen.state.disk.bytes) }
    ensures halves { halves_of result.0.halves.items ≡ end.site.seen.state.halves }
    ensures led { L.leads end.log end.start.seen end.site.seen }
    ensures reported { IsFollowed (Telling D.follows D.well D.tells result.1) end.site.seen }
{
    let (site, _log) = end.into_parts();
    parts_of(site, entire)
}

/// What is reported of the device of a site that no desk has served. The device of the line takes it back.
fn reported_of<D: Lends>(site: ShadowSite<D>, entire: &mut D) -> PartLog<D::Logged>
    ensures { IsFollowed (Telling D.follows D.well D.tells result) site.seen }
{
    let (parts, reported) = parts_of(site, entire);
    drop(parts);
    reported
}

/// What is reported of the devices of the slaves' sites, in order, that no desk has served. `room` is empty.
fn reported_of_slaves<D: Lends>(
    sites: Vec<ShadowSite<D>>,
    entire: &mut D,
    room: Vec<PartLog<D::Logged>>,
) -> Vec<PartLog<D::Logged>>
    requires empty { room.items ≡ [] }
    requires room { length sites.items ≤ vec_capacity room }
    ensures { AllZip (λ site reported. IsFollowed (Telling D.follows D.well D.tells reported) site.seen) sites.items result.items }
{
    let mut reported = room;
    for site in sites {
        reported.push_reserved(reported_of(site, entire));
    }
    reported
}

/// What is reported of the devices of a line that was taken apart into these sites, which no desk has served. The line's device takes back what it
/// lent them.
pub(crate) fn reported_unserved<D: Lends>(
    entire: Complete<D, D::Logged>,
    sites: Sites<ShadowSite<D>>,
) -> DeskLog<D::Logged>
    requires room { IsRoom entire.room }
    requires reserved { length sites.slaves.items ≤ vec_capacity entire.room.reported }
    ensures line { result.line ≡ entire.reported }
    ensures disk { IsFollowed (Telling D.follows D.well D.tells result.disk) sites.disk.seen }
    ensures slaves { AllZip (λ site reported. IsFollowed (Telling D.follows D.well D.tells reported) site.seen) sites.slaves.items
        result.slaves.items }
{
    let Complete {
        mut device,
        reported,
        room,
    } = entire;
    let Sites {
        disk,
        slaves,
        cycle,
    } = sites;
    let OfSlaves {
        halves,
        reported: room,
    } = room;
    drop(halves);
    if let Some(cycle) = cycle {
        drop(reported_of(cycle, &mut device));
    }
    DeskLog {
        line: reported,
        disk: reported_of(disk, &mut device),
        slaves: reported_of_slaves(slaves, &mut device, room),
    }
}

/// The EEPROM half of this slave, as its worker left it, and what is reported of its device. `Unserved` where the half is missing.
fn half_at<D: Lends>(
    slave: usize,
    end: End<ShadowSite<D>, SlaveLog>,
    entire: &mut D,
) -> (Result<Option<RomHalf>, Fault>, PartLog<D::Logged>)
    ensures half { IfOk result.0 (λ half. EndsWith slave end (half_of half)) }
    ensures reported { IsWorkFollowed (Telling D.follows D.well D.tells result.1) end }
{
    let (mut parts, reported) = parts_at(end, entire);
    if slave >= parts.halves.len() {
        drop(parts);
        return (Err(Fault::Unserved), reported);
    }
    let half = parts.halves.swap_remove(slave);
    drop(parts);
    (Ok(half), reported)
}

/// The same lists with the next slave in them, as its worker left it.
fn with_slave<D: Lends>(
    left: OfSlaves<D::Logged>,
    end: End<ShadowSite<D>, SlaveLog>,
    entire: &mut D,
) -> OfSlaves<D::Logged>
    requires { length left.reported.items < vec_capacity left.reported }
    ensures left { (workers : List (Stay SiteValue SlaveLog)) → AreLeftBy D.follows D.well D.tells workers left
        → AreLeftBy D.follows D.well D.tells (workers ++ end ∷ []) result }
    ensures count { length result.reported.items ≡ length left.reported.items + 1 }
    ensures reserved { vec_capacity result.reported ≡ vec_capacity left.reported }
{
    let OfSlaves {
        halves,
        mut reported,
    } = left;
    let (half, part) = half_at(reported.len(), end, entire);
    reported.push_reserved(part);
    OfSlaves {
        halves: with_half(halves, half),
        reported,
    }
}

/// The EEPROM halves of all slaves, in order, as their workers left them, and what is reported of their devices.
fn slaves_at<D: Lends>(
    room: OfSlaves<D::Logged>,
    workers: Vec<End<ShadowSite<D>, SlaveLog>>,
    entire: &mut D,
) -> OfSlaves<D::Logged>
    requires room { IsRoom room }
    requires reserved { length workers.items ≤ vec_capacity room.reported }
    ensures left { AreLeftBy D.follows D.well D.tells workers.items result }
{
    let mut left = room;
    for end in workers {
        left = with_slave(left, end, entire);
    }
    left
}

/// Whether the site is a line of `slaves` slaves, all of them owned, with its disk.
fn is_line_of<D: Device>(site: &ShadowSite<D>, slaves: usize) -> bool
    ensures { IsTrue result → IsLineOf slaves site.now.line }
{
    site.has_disk() && usize::from(site.slaves()) == slaves && owns_all(site)
}

/// The device of the line takes back that of the process data, if a thread exchanged them.
fn end_cycle<D: Lends>(cycle: Option<End<ShadowSite<D>, CycleLog>>, entire: &mut D) {
    if let Some(end) = cycle {
        let (parts, reported) = parts_at(end, entire);
        drop(parts);
        drop(reported);
    }
}

/// The parts of the flusher's site, what is reported of its device, and the ends of the workers. The device of the line takes back those of the disk
/// and of the process data.
fn split<D: Lends>(
    ends: Ends<ShadowSite<D>>,
    entire: &mut D,
) -> (Parts, PartLog<D::Logged>, Vec<End<ShadowSite<D>, SlaveLog>>)
    ensures disk { IfSome result.0.disk (λ bytes. bytes.items ≡ ends.flusher.site.seen.state.disk.bytes) }
    ensures flushed { IsFlushed ends.flusher.log ends.flusher.start.seen ends.flusher.site.seen }
    ensures reported { IsFollowed (Telling D.follows D.well D.tells result.1) ends.flusher.site.seen }
    ensures workers { result.2 ≡ ends.workers }
{
    let Ends {
        flusher,
        workers,
        cycle,
    } = ends;
    end_cycle(cycle, entire);
    let (parts, reported) = parts_at(flusher, entire);
    (parts, reported, workers)
}

/// The line with the disk of these parts and these EEPROM halves.
fn line_of<D: Device + Drop>(
    alloc: Global,
    line: Parts,
    device: D,
    halves: Vec<Option<RomHalf>>,
) -> Result<ShadowSite<D>, Fault>
    ensures new { IfOk result (λ site. site.seen.past ≡ []) }
    ensures disk { IfOk result (λ site. HasDiskOf line.disk site) }
    ensures halves { IfOk result (λ site. site.seen.state.halves ≡ halves_of halves.items) }
{
    let Parts { sizes, disk, .. } = line;
    let parts = Parts {
        sizes,
        disk,
        halves,
        process: None,
    };
    site_of(alloc, parts, device)
}

/// The site, if it is a line of `slaves` slaves with its disk; otherwise `Unserved`.
fn entire_line<D: Device + Drop>(site: ShadowSite<D>, slaves: usize) -> Result<ShadowSite<D>, Fault>
    ensures { IfOk result (λ entire. (entire ≡ site) × IsLineOf slaves entire.line) }
{
    if is_line_of(&site, slaves) {
        Ok(site)
    } else {
        drop(site);
        Err(Fault::Unserved)
    }
}

/// The line with the disk of these parts and these EEPROM halves, if it is one of `slaves` slaves.
fn joined<D: Device + Drop>(
    alloc: Global,
    line: Parts,
    device: D,
    halves: Result<Vec<Option<RomHalf>>, Fault>,
    slaves: usize,
) -> Result<ShadowSite<D>, Fault>
    ensures { (ends : Ends SiteValue) → IfSome line.disk (λ bytes. bytes.items ≡ ends.flusher.site.seen.state.disk.bytes)
        → IfOk halves (λ found. AllPlaced EndsWith 0 ends.workers.items (halves_of found.items))
        → IfOk result (λ site. IsTogether ends site × IsLineOf slaves site.line) }
{
    match halves {
        Ok(halves) => {
            let made = line_of(alloc, line, device, halves)?;
            entire_line(made, slaves)
        }
        Err(fault) => {
            drop(line);
            drop(device);
            Err(fault)
        }
    }
}

/// The line of these ends: its disk and each slave's EEPROM half as the threads left them; and what is reported of the devices. The line's device
/// takes back what it lent them, and is put behind it.
///
/// # Errors
///
/// `Unserved` where these are not the ends of one line of `slaves` slaves; `Memory`. What is reported of the devices is reported all the same.
pub(crate) fn put_together<D: Lends>(
    alloc: Global,
    entire: Complete<D, D::Logged>,
    slaves: usize,
    ends: Ends<ShadowSite<D>>,
) -> (Result<ShadowSite<D>, Fault>, DeskLog<D::Logged>)
    requires room { IsRoom entire.room }
    requires reserved { length ends.workers.items ≤ vec_capacity entire.room.reported }
    ensures together { IfOk result.0 (λ site. IsTogether ends site × IsLineOf slaves site.line) }
    ensures reported { (opened : Seen) → IsFollowed (Telling D.follows D.well D.tells entire.reported) opened
        → IsDeskReported D.follows D.well D.tells opened result.1 ends }
{
    let Complete {
        mut device,
        reported,
        room,
    } = entire;
    let (parts, disk, workers) = split(ends, &mut device);
    let left = slaves_at(room, workers, &mut device);
    let OfSlaves {
        halves,
        reported: of_slaves,
    } = left;
    let site = joined(alloc, parts, device, halves, slaves);
    let reported = DeskLog {
        line: reported,
        disk,
        slaves: of_slaves,
    };
    (site, reported)
}
