ghost use Rattle.std.specs.Prelude.{◌≡◌, ℕ, ◌<◌, ◌↔◌, length, All, IsTrue, IfOk};
ghost use Rattle.std.specs.List.{AllByRecursion};
ghost use Rattle.esc_model.specs.WordAccess.{IsIdle};
ghost use Rattle.jrn_format.specs.Journal.{IsJournal};
ghost use Rattle.book_model.specs.Memory.{OutOfMemory};
ghost use Rattle.book_model.specs.Entries.{sizes_of};
ghost use Rattle.book_model.specs.Opening.{words_in, book_on};
ghost use Rattle.world_law.specs.Happenings.{CanOpen};
ghost use Rattle.world_run.specs.Step.{Happened, Went};
ghost use Rattle.world_run.specs.Returns.{MayReturn, ScansTo};

use crate::half::WordEnd;
use crate::happenings::{DiskEnd, Event, Left};
use crate::leaving::LeftByte;
use crate::line::WorldLine;
use crate::making::World;
use crate::station::{Asked, Station};
use book_model::{CoreFault, RomNext, RomOutcome, SubmitRefusal};
use jrn_format::{Journal, JournalFault, capacity, scan};
use sii_edit::{Cause, Command};
use sii_image::ImageFault;
use site_core::{DeviceFault, Issued, Settled};
use std::alloc::Global;
use std::mem::replace;

/// Whether a command was refused because memory was refused.
fn is_memory(refusal: SubmitRefusal) -> bool
    ensures { OutOfMemory refusal → IsTrue result }
{
    match refusal {
        SubmitRefusal::Command(refusal) => refusal.cause == Cause::Memory,
        _ => false,
    }
}

/// Whether what is in progress with the slave may end with this outcome.
fn may_return(line: &mut WorldLine, asked: Asked, slave: u16, outcome: RomOutcome) -> bool
    requires { slave < length line.old.halves }
    ensures may { IsTrue result ↔ MayReturn asked outcome slave line.old }
    ensures same { line.new ≡ line.old }
{
    match (asked, outcome) {
        (Asked::Issue, RomOutcome::Issued(Issued::Taken)) => return line.took(slave),
        (Asked::Issue, RomOutcome::Issued(Issued::NotTaken)) => return !line.took(slave),
        (Asked::Issue, RomOutcome::Issued(Issued::Lost)) => return true,
        (Asked::Settle { taken }, RomOutcome::Settled(Settled::Written)) => {
            if !taken {
                return false;
            }
            return line.is_well(slave);
        }
        (Asked::Settle { .. }, RomOutcome::Settled(Settled::Again)) => return line.is_idle(slave),
        (Asked::Settle { .. }, RomOutcome::Settled(Settled::Dead)) => return true,
        (Asked::Issue | Asked::Settle { .. }, RomOutcome::Stopped) => return true,
        _ => return false,
    }
}

/// Each byte is below 256.
fn are_bytes(bytes: &[u8])
    ensures { All (λ (byte : ℕ). byte < 256) bytes.now }
{}

/// The journal that the bytes spell for slaves of these sizes; `None` if they spell none.
fn scan_bytes(alloc: Global, bytes: &[u8], sizes: &[u16]) -> Result<Option<Journal>, CoreFault>
    ensures { IfOk result (λ found. ScansTo bytes.now sizes.now found) }
{
    are_bytes(bytes);
    match scan(alloc, bytes, sizes) {
        Ok(journal) => return Ok(Some(journal)),
        Err(JournalFault::Memory) => return Err(CoreFault::Memory),
        Err(JournalFault::NotAJournal) => return Ok(None),
        Err(JournalFault::BadVersion { .. }) => return Ok(None),
        Err(JournalFault::WrongLine) => return Ok(None),
        Err(JournalFault::BadJournal { .. }) => return Ok(None),
    }
}

/// Puts this station, or none, in place of the one there. That one is dropped by a call, so that its drop is proved once.
fn set_station(place: &mut Option<Station>, station: Option<Station>)
    ensures { place.new ≡ station }
{
    drop(replace(place, station));
}

impl World {
    fn submit(&mut self, command: &Command) -> Result<(), CoreFault>
        ensures { Went (Event.Submit command.now) self.old result self.new }
    {
        let Some(station) = &mut self.station else {
            return Ok(());
        };
        match station.submit(command) {
            Ok(_number) => return Ok(()),
            Err(refusal) => {
                if is_memory(refusal) {
                    return Err(CoreFault::Memory);
                }
                return Ok(());
            }
        }
    }

    fn plan(&mut self) -> Result<(), CoreFault>
        ensures { Went Event.Plan self.old result self.new }
    {
        let Some(station) = &mut self.station else {
            return Ok(());
        };
        match station.plan() {
            Ok(_plan) => return Ok(()),
            Err(ImageFault::ImageOverLimit) => return Ok(()),
            Err(ImageFault::Memory) => return Err(CoreFault::Memory),
        }
    }

    fn migrate(&mut self)
        ensures { Happened Event.Migrate self.old self.new }
    {
        let Some(station) = &mut self.station else {
            return;
        };
        station.migrate();
    }

    fn finish(&mut self)
        ensures { Happened Event.Finish self.old self.new }
    {
        let Some(station) = &mut self.station else {
            return;
        };
        station.finish();
    }

    fn begin_action(&mut self) -> Result<(), CoreFault>
        ensures { Went Event.DiskBegin self.old result self.new }
    {
        self.disk.reserve()?;
        let Some(station) = &mut self.station else {
            return Ok(());
        };
        if station.action().is_some() {
            return Ok(());
        }
        station.begin_action()?;
        match station.action() {
            Some(action) => {
                self.disk.begin(action);
                return Ok(());
            }
            None => return Ok(()),
        }
    }

    fn end_action(&mut self) -> Result<(), CoreFault>
        ensures { Went (Event.DiskDone DiskEnd.Done) self.old result self.new }
    {
        let Some(station) = &mut self.station else {
            return Ok(());
        };
        let Some(action) = station.action() else {
            return Ok(());
        };
        self.disk.end(action)?;
        station.end_action(Ok(()));
        Ok(())
    }

    fn fail_action(&mut self, fault: DeviceFault, bytes: &Vec<LeftByte>)
        ensures { Happened (Event.DiskDone (DiskEnd.Failed fault bytes.now)) self.old self.new }
    {
        let Some(station) = &mut self.station else {
            return;
        };
        let Some(action) = station.action() else {
            return;
        };
        if let DeviceFault::Lost = fault {
            return;
        }
        self.disk.fail(action, bytes);
        station.end_action(Err(fault));
    }

    fn issue(&mut self, slave: u16, takes: bool)
        ensures { Happened (Event.RomIssue slave takes) self.old self.new }
    {
        if usize::from(slave) >= self.line.len() {
            return;
        }
        let Some(station) = &mut self.station else {
            return;
        };
        match station.rom_next(slave) {
            RomNext::Issue { word, value } => {
                self.line.issue(slave, takes, word, value);
                return;
            }
            RomNext::Settle { .. } => return,
            RomNext::Idle => return,
            RomNext::Stop => return,
        }
    }

    fn come_back(&mut self, slave: u16, outcome: RomOutcome)
        ensures { Happened (Event.RomDone slave outcome) self.old self.new }
    {
        if usize::from(slave) >= self.line.len() {
            return;
        }
        let Some(station) = &mut self.station else {
            return;
        };
        if !may_return(&mut self.line, station.asked(slave), slave, outcome) {
            return;
        }
        station.rom_done(slave, outcome);
    }

    fn rest(&mut self, slave: u16, end: WordEnd)
        ensures { Happened (Event.RomResolve slave end) self.old self.new }
    {
        if usize::from(slave) >= self.line.len() {
            return;
        }
        self.line.rest(slave, end);
    }

    fn stop(&mut self, left: &Left)
        ensures { Happened (Event.Stop left.now) self.old self.new }
    {
        set_station(&mut self.station, None);
        self.disk.stop(&left.bytes);
        self.line.stop(&left.words);
    }

    /// Whether the station is down, or closed by a fault with nothing in progress.
    fn can_open(&self) -> bool
        ensures { IsTrue result ↔ CanOpen self.now.book }
    {
        match &self.station {
            Some(station) => return station.is_over(),
            None => return true,
        }
    }

    /// The journal on the disk; `None` if there is none.
    fn scan(&self) -> Result<Option<Journal>, CoreFault>
        ensures { IfOk result (λ found. ScansTo self.now.state.disk.bytes (sizes_of (words_in self.now.state.halves)) found) }
    {
        let sizes = self.line.sizes(self.alloc)?;
        scan_bytes(self.alloc, self.disk.bytes(), &sizes)
    }

    /// Opens a station on this journal.
    fn start(&self, journal: Journal) -> Result<Station, CoreFault>
        requires { IsJournal self.now.state.disk.bytes (sizes_of (words_in self.now.state.halves)) journal }
        ensures { IfOk result (λ station. station ≡ book_on self.now.state journal) }
    {
        let _one_to_64 = self.line.len();
        let words = self.line.words(self.alloc)?;
        Station::open(self.alloc, words, capacity(self.disk.bytes()), journal)
    }

    fn open(&mut self) -> Result<(), CoreFault>
        ensures { Went Event.Open self.old result self.new }
    {
        if !self.can_open() {
            return Ok(());
        }
        if !self.line.are_idle() {
            return Ok(());
        }
        let Some(journal) = self.scan()? else {
            return Ok(());
        };
        self.come_up(journal)
    }

    /// The station comes up on this journal.
    fn come_up(&mut self, journal: Journal) -> Result<(), CoreFault>
        requires can { CanOpen self.old.book }
        requires idle { AllByRecursion IsIdle self.old.state.halves }
        requires journal { IsJournal self.old.state.disk.bytes (sizes_of (words_in self.old.state.halves)) journal }
        ensures { Went Event.Open self.old result self.new }
    {
        let station = self.start(journal)?;
        self.disk.sync();
        set_station(&mut self.station, Some(station));
        Ok(())
    }
}

/// Lets an event happen in a world, with the choices that it names. If it can't happen now, nothing changes.
///
/// # Errors
///
/// `Memory`: memory was refused, for `Submit`, `Plan`, `DiskBegin`, `DiskDone` with `Done`, or `Open`. The world stays as it is.
pub fn step(world: &mut World, event: Event) -> Result<(), CoreFault>
    ensures { Went event world.old result world.new }
{
    match event {
        Event::Submit(command) => return world.submit(&command),
        Event::Plan => return world.plan(),
        Event::Migrate => {
            world.migrate();
            return Ok(());
        }
        Event::Finish => {
            world.finish();
            return Ok(());
        }
        Event::DiskBegin => return world.begin_action(),
        Event::DiskDone(DiskEnd::Done) => return world.end_action(),
        Event::DiskDone(DiskEnd::Failed { fault, bytes }) => {
            world.fail_action(fault, &bytes);
            return Ok(());
        }
        Event::RomIssue { slave, takes } => {
            world.issue(slave, takes);
            return Ok(());
        }
        Event::RomDone { slave, outcome } => {
            world.come_back(slave, outcome);
            return Ok(());
        }
        Event::RomResolve { slave, end } => {
            world.rest(slave, end);
            return Ok(());
        }
        Event::Stop(left) => {
            world.stop(&left);
            return Ok(());
        }
        Event::Open => return world.open(),
    }
}
