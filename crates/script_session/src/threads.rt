//! Serves a line by threads.

ghost use Rattle.std.specs.Prelude.{◌≡◌, ◌+◌, ◌≤◌, [], true, false, is_some, length, vec_capacity, IfErr, IfOk, IfSome, IsTrue, OnOk};
ghost use Rattle.site_core.specs.State.{Seen, State};
ghost use Rattle.site_shadow.specs.Line.{halves_of};
ghost use Rattle.script_session.specs.Asking.{no_counts};
ghost use Rattle.script_session.specs.AtDesk.{IsUnservedReported, OpensDesk, ServesFollowed, ServesSites};
ghost use Rattle.script_session.specs.Parts.{
  AreSound,
  EndsSynced,
  IsCount,
  IsDeskLeft,
  IsDeskReported,
  IsLineOf,
  IsLineReported,
  IsRoom,
  IsServable,
  IsTogether,
  OwnUpTo,
  Telling,
  issues_of,
};
ghost use Rattle.station_line.specs.Site.{IsFollowed};

use crate::asked::NamesCommands;
use crate::closing::{AtDesk, Ending, hand_in};
use crate::issues::issues_of;
use crate::logs::{DeskLog, PartLog, UnservedLog, reported_by};
use crate::separate::{InMemory, lent_sites, servable_sites};
use crate::soundness::{disk_is_synced, validate_ends};
use crate::submitter::Submitter;
use crate::together::{Complete, OfSlaves, put_together, reported_unserved};
use crate::work::{Task, Work};
use book_core::Core;
use sii_edit::Command;
use site_core::Site;
use site_shadow::{Device, Lends, Parts, ShadowSite};
use station_alone::Alone;
use station_files::Fault;
use station_jobs::NoHook;
use station_line::Answered;
use station_threads::{BlankLedger, Desk, Refusals, Share, Sites, Tickets, serve_line};
use std::alloc::{AllocError, Global};
use std::io::Write;
use std::marker::{Brand, PhantomData};
use std::sync::Wait;
use std::thread::Threads;

/// A line after it was served at a desk. `T` is what its devices tell.
#[derive(Drop)]
pub struct Left<S, T> {
    /// The line, put together again.
    pub site: S,
    /// The commands where they were not submitted, and otherwise none.
    pub unserved: Vec<Command>,
    /// How the work ended.
    pub ending: Ending,
    /// The fault to be reported where the ends of the parts don't show that all is in place: `Unserved` where a site has stopped, or something has
    /// failed that a device was asked, though the desk may have heard of nothing; `Memory` where the disk isn't synced, since jobs
    /// stopped for want of memory.
    pub sound: Result<(), Fault>,
    /// Number of issues: words sent to slaves, each counted as often as it was sent. `u64::MAX` where there were more.
    pub words: u64,
    /// What is reported of the devices of the line and its parts.
    pub reported: DeskLog<T>,
}

/// Why a line was not served, or not put together again after that. `T` is what its devices tell.
#[derive(Drop)]
pub struct NotServed<T> {
    /// The fault.
    pub fault: Fault,
    /// What is reported of the devices.
    pub reported: UnservedLog<T>,
}

/// Serves the commands of this task by threads on the line of this station, which has `slaves` slaves, and puts the line together again. Prints the
/// answer to each command, what is reported of them as it happens, and the totals. If a thread can't be started, no command is submitted. The
/// station must not have accepted a command yet.
///
/// Where the task says so, a thread exchanges process data meanwhile, with process halves in memory, which are just switched on.
///
/// # Errors
///
/// `Unserved` where the station's site can't be taken apart, or what is put together in the end isn't a line with its disk and `slaves`
/// slaves; `Memory`. At the desk nothing fails but for want of memory. The site is dropped, and its devices' logs are given. A fault during the work
/// is no error here: `Left::ending` has it.
pub fn serve_task<D: Lends + Send, O: Write, W: Wait + Threads + Sync>(
    rt: &W,
    alloc: Global,
    alone: Alone<ShadowSite<D>>,
    slaves: usize,
    task: Task,
    output: &mut O,
) -> Result<Left<ShadowSite<D>, D::Logged>, NotServed<D::Logged>>
    requires none { alone.book.accepted ≡ [] }
    ensures line { IfOk result (λ left. IsLineOf slaves left.site.line) }
    ensures parts { IfOk result (λ left. ServesFollowed D.follows D.well D.tells task.turns alone task.work.commands.items left) }
    ensures failed { IfErr result (λ why. IsUnservedReported D.follows D.well D.tells alone task.work.commands.items why.reported) }
    ensures unserved { IfOk result (λ left. left.ending.is_driven ≡ false → left.unserved.items ≡ task.work.commands.items) }
{
    let Task { work, turns } = task;
    let (core, site) = alone.into_parts();
    let Prepared { sites, entire } = match prepare(alloc, site, core.capacity(), turns) {
        Ok(prepared) => prepared,
        Err(why) => {
            drop(core);
            drop(work);
            return Err(why);
        }
    };
    let opening = Opening::of(core);
    match serve_at_desk::<Brand, Brand, Brand, D, O, W>(rt, alloc, opening, sites, work, output) {
        Ok(at) => put_back(alloc, entire, slaves, at),
        Err(sites) => Err(NotServed {
            fault: Fault::Memory,
            reported: UnservedLog::Separate(reported_unserved(entire, sites)),
        }),
    }
}

/// What a line is taken apart into: the sites of its parts, and what is kept to put it together again.
#[derive(Drop)]
struct Prepared<D: Device, T> {
    sites: Sites<ShadowSite<D>>,
    entire: Complete<D, T>,
}

/// A line taken apart in memory, whose device has lent no part one yet.
#[derive(Drop)]
struct Separate<D: Device, T> {
    sites: Sites<InMemory>,
    /// An empty list with room for the sites of the slaves, each with its device.
    lent: Vec<ShadowSite<D>>,
    /// Empty lists with room for what the workers leave.
    room: OfSlaves<T>,
}

/// The sites of the line's parts in memory, one for process data only if they are exchanged, and room for all that follows. No device has a share in
/// it.
fn taken_apart<D: Device + Drop, T: Drop>(
    alloc: Global,
    line: Parts,
    capacity: u32,
    turns: bool,
) -> Result<Separate<D, T>, Fault>
    ensures turning { IfOk result (λ separate. is_some separate.sites.cycle ≡ turns) }
    ensures sites { (state : State) → IfSome line.disk (λ bytes. bytes.items ≡ state.disk.bytes) → halves_of line.halves.items ≡ state.halves
        → IfOk result (λ separate. IsServable capacity state separate.sites) }
    ensures lent { IfOk result (λ separate. (separate.lent.items ≡ []) × (length separate.sites.slaves.items ≤ vec_capacity separate.lent)) }
    ensures room { IfOk result (λ separate. IsRoom separate.room × (length separate.sites.slaves.items ≤ vec_capacity separate.room.reported)) }
{
    let sites = servable_sites(alloc, line, capacity, turns)?;
    match room_for(alloc, sites.slaves.len()) {
        Ok((lent, room)) => Ok(Separate { sites, lent, room }),
        Err(AllocError) => {
            drop(sites);
            Err(Fault::Memory)
        }
    }
}

/// Empty lists with room for the sites of so many slaves, each with its device, and for what the workers leave.
fn room_for<D: Device + Drop, T: Drop>(
    alloc: Global,
    slaves: usize,
) -> Result<(Vec<ShadowSite<D>>, OfSlaves<T>), AllocError>
    ensures lent { IfOk result (λ room. (room.0.items ≡ []) × (slaves ≤ vec_capacity room.0)) }
    ensures room { IfOk result (λ room. IsRoom room.1 × (slaves ≤ vec_capacity room.1.reported)) }
{
    let lent = Vec::with_capacity(alloc, slaves)?;
    let room = OfSlaves::room(alloc, slaves)?;
    Ok((lent, room))
}

/// Takes a line apart, with a part for process data only if `turns` says so, and makes room to put it together again. The line's device lends
/// each part its own once nothing can fail any more.
///
/// # Errors
///
/// `Unserved` where the site isn't a whole line with a disk that reaches to the end of a journal's area of `capacity` bytes; `Memory`. The site is
/// dropped, and the log of its device is given. It has lent none.
fn prepare<D: Lends>(
    alloc: Global,
    site: ShadowSite<D>,
    capacity: u32,
    turns: bool,
) -> Result<Prepared<D, D::Logged>, NotServed<D::Logged>>
    ensures turning { IfOk result (λ prepared. is_some prepared.sites.cycle ≡ turns) }
    ensures sites { IfOk result (λ prepared. IsServable capacity site.seen.state prepared.sites) }
    ensures room { IfOk result (λ prepared. IsRoom prepared.entire.room) }
    ensures reserved { IfOk result (λ prepared. length prepared.sites.slaves.items ≤ vec_capacity prepared.entire.room.reported) }
    ensures reported { IfOk result (λ prepared. IsFollowed (Telling D.follows D.well D.tells prepared.entire.reported) site.seen) }
    ensures failed { IfErr result (λ why. IsLineReported D.follows D.well D.tells site.seen why.reported) }
    ensures count { length site.line.sizes ≡ length site.seen.state.halves }
{
    // Its contract says that there is a half for each slave.
    let _slaves = site.slaves();
    let has_stopped = site.has_stopped();
    let (parts, mut device) = site.into_parts();
    let reported = reported_by(&mut device, has_stopped);
    match taken_apart(alloc, parts, capacity, turns) {
        Ok(Separate { sites, lent, room }) => {
            let sites = lent_sites(&mut device, sites, lent);
            Ok(Prepared {
                sites,
                entire: Complete {
                    device,
                    reported,
                    room,
                },
            })
        }
        Err(fault) => {
            drop(device);
            Err(NotServed {
                fault,
                reported: UnservedLog::Line(reported),
            })
        }
    }
}

/// Puts a line of `slaves` slaves together again, which a desk has served, with its device, and tells of the devices.
fn put_back<D: Lends>(
    alloc: Global,
    entire: Complete<D, D::Logged>,
    slaves: usize,
    at: AtDesk<ShadowSite<D>>,
) -> Result<Left<ShadowSite<D>, D::Logged>, NotServed<D::Logged>>
    requires room { IsRoom entire.room }
    requires reserved { length at.ends.workers.items ≤ vec_capacity entire.room.reported }
    ensures line { IfOk result (λ left. IsLineOf slaves left.site.line) }
    ensures left { IfOk result (λ left. IsTogether at.ends left.site × (left.ending ≡ at.ending)) }
    ensures unserved { IfOk result (λ left. left.unserved ≡ at.unserved) }
    ensures reported { IfOk result (λ left. (opened : Seen) → IsFollowed (Telling D.follows D.well D.tells entire.reported) opened
        → IsDeskReported D.follows D.well D.tells opened left.reported at.ends) }
    ensures sound { IfOk result (λ left. OnOk left.sound (AreSound left.reported × EndsSynced at.ends.flusher.log)) }
    ensures words { IfOk result (λ left. IsCount (issues_of at.ends.workers.items) left.words) }
    ensures failed { IfErr result (λ why. IsDeskLeft D.follows D.well D.tells entire.reported at.ends why.reported) }
{
    let AtDesk {
        ends,
        ending,
        unserved,
    } = at;
    let is_synced = disk_is_synced(&ends);
    let words = issues_of(ends.workers.as_slice());
    let (put, reported) = put_together(alloc, entire, slaves, ends);
    match put {
        Ok(site) => {
            let sound = validate_ends(&reported, is_synced);
            Ok(Left {
                site,
                unserved,
                ending,
                sound,
                words,
                reported,
            })
        }
        Err(fault) => {
            drop(unserved);
            Err(NotServed {
                fault,
                reported: UnservedLog::Desk(reported),
            })
        }
    }
}

/// Makes a desk of the book, serves the sites there while the commands are submitted, and closes the desk. If memory is refused, nothing is started
/// and the sites are handed back.
fn serve_at_desk<
    'o,
    T: Tickets + Send + Sync,
    R: Refusals + Send + Sync,
    C: NamesCommands,
    D: Device + Drop + Send,
    O: Write,
    W: Wait + Threads + Sync,
>(
    rt: &W,
    alloc: Global,
    opening: Opening,
    sites: Sites<ShadowSite<D>>,
    work: Work,
    output: &'o mut O,
) -> Result<AtDesk<ShadowSite<D>>, Sites<ShadowSite<D>>>
    requires opening { OpensDesk T.opened T.name T.parts R.name R.parts opening }
    requires commands { work.commands.items ≡ C.commands }
    requires sites { OwnUpTo (8 + opening.core.capacity) sites }
    ensures served { IfOk result (ServesSites T.opened C.commands sites) }
    ensures handed_back { IfErr result (λ same. same ≡ sites) }
{
    let Ok(opened) = open_desk::<T, R>(alloc, opening) else {
        drop(work);
        return Err(sites);
    };
    let Opened { desk, share, room } = opened;
    let Work {
        commands,
        tells_events,
    } = work;
    let mut submitter = Submitter::<'o, T, R, C, O> {
        alloc,
        commands,
        tells_events,
        output,
        share,
        answered: Answered::AllAccepted,
        came: None,
        of: PhantomData,
    };
    match serve_line(rt, alloc, &desk, sites, &NoHook, &mut submitter) {
        Ok(ends) => Ok(hand_in(desk, submitter, room, ends)),
        Err(sites) => {
            drop(desk);
            drop(submitter);
            drop(room);
            Err(sites)
        }
    }
}

/// What a desk is made of: the book, and a ledger for the tickets and one for the refusals, both blank.
#[derive(Drop)]
pub(crate) struct Opening {
    pub(crate) core: Core,
    pub(crate) tickets: BlankLedger,
    pub(crate) refusals: BlankLedger,
}

impl Opening {
    /// The book, with ledgers of two parts each.
    pub(crate) fn of(core: Core) -> Self
        ensures core { result.core ≡ core }
        ensures parts { (result.tickets.count ≡ 2) × (result.refusals.count ≡ 2) }
    {
        Opening {
            core,
            tickets: BlankLedger::new(2),
            refusals: BlankLedger::new(2),
        }
    }
}

/// A new desk, a share for the submitter, and an empty list with room for that share.
#[derive(Drop)]
struct Opened<T: Tickets, R: Refusals> {
    desk: Desk<T, R>,
    share: Share<T, R>,
    room: Vec<Share<T, R>>,
}

/// A new desk, with its first share for the submitter and room for that share.
fn open_desk<T: Tickets, R: Refusals>(
    alloc: Global,
    opening: Opening,
) -> Result<Opened<T, R>, AllocError>
    requires { OpensDesk T.opened T.name T.parts R.name R.parts opening }
    ensures limit { IfOk result (λ opened. opened.desk.limit ≡ 8 + opening.core.capacity) }
    ensures share { IfOk result (λ opened. opened.share ≡ no_counts) }
    ensures room { IfOk result (λ opened. (opened.room.items ≡ []) × (1 ≤ vec_capacity opened.room)) }
{
    let Ok(room) = Vec::with_capacity(alloc, 1) else {
        drop(opening);
        return Err(AllocError);
    };
    let Opening {
        core,
        tickets,
        refusals,
    } = opening;
    let (desk, share) = Desk::with_share(alloc, core, tickets, refusals)?;
    Ok(Opened { desk, share, room })
}
