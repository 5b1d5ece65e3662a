ghost use Rattle.std.specs.Prelude.{◌≡◌, ◌≢◌, ◌≤◌, ◌↔◌, Err, false, is_some, vec_len, IfOk, OnOk, OnErr, IsTrue};
ghost use Rattle.std.specs.List.{AllByRecursion};
ghost use Rattle.std.specs.Option.{option_copied};
ghost use Rattle.jrn_format.specs.Live.{CanBeLive};
ghost use Rattle.book_model.specs.Entries.{sizes_of};
ghost use Rattle.book_model.specs.Book.{slave_at};
ghost use Rattle.book_model.specs.Open.{open_book, finish, migrate};
ghost use Rattle.book_model.specs.Submit.{IsSubmitted, with_command};
ghost use Rattle.book_model.specs.DiskSteps.{disk_next, disk_done};
ghost use Rattle.book_model.specs.RomSteps.{rom_next, rom_done};
ghost use Rattle.book_core.specs.Plan.{IsPlan};
ghost use Rattle.world_run.specs.Progress.{handed_out, as_action, asked_of, asked_next, asked_then, IsClosedAndIdle};

use book_core::Core;
use book_model::{CoreFault, DiskNext, RomNext, RomOutcome, SubmitRefusal};
use jrn_format::Journal;
use sii_edit::Command;
use sii_image::{ImageFault, Plan};
use sii_words::Words;
use site_core::DeviceFault;
use std::alloc::Global;
use std::marker::Model;

/// What is in progress with a slave.
#[derive(Clone, Copy)]
pub(crate) enum Asked {
    Nothing,
    /// An issue was handed out.
    Issue,
    /// A settle was handed out; `taken` says whether the slave took the datagram of the issue, as far as the book knows.
    Settle { taken: bool },
}

/// A station that is up: its book, and the actions that the book has handed out and that haven't ended.
#[derive(Drop)]
pub(crate) struct Station {
    core: Core,
    action: Option<DiskNext>,
    asked: Vec<Asked>,
}

impl Model for Station {
    ghost use Rattle.book_model.specs.Book.{Book};
    ghost use Rattle.world_run.specs.Progress.{KnowsProgress};

    ghost Value = { Book };

    ghost view = { λ s. s.core };

    ghost invariant = { λ s. KnowsProgress s.action s.asked.items s.core };
}

/// The action that is in progress once this is handed out for the disk.
fn as_action(next: DiskNext) -> Option<DiskNext>
    ensures { result ≡ as_action next }
{
    match next {
        DiskNext::Idle | DiskNext::Stop => None,
        action => Some(action),
    }
}

/// What is in progress with a slave once this is handed out for it.
fn asked_next(next: RomNext, before: Asked) -> Asked
    ensures { result ≡ asked_next next before }
{
    match next {
        RomNext::Issue { .. } => Asked::Issue,
        RomNext::Settle { taken } => Asked::Settle { taken },
        RomNext::Idle | RomNext::Stop => before,
    }
}

/// What is in progress with a slave after this outcome.
fn asked_then(asked: Asked, outcome: RomOutcome) -> Asked
    ensures { result ≡ asked_then asked outcome }
{
    match (asked, outcome) {
        (Asked::Issue, RomOutcome::Settled(_)) => Asked::Issue,
        (Asked::Settle { taken }, RomOutcome::Issued(_)) => Asked::Settle { taken },
        _ => Asked::Nothing,
    }
}

/// Whether nothing is in progress with any slave.
fn are_idle(asked: &[Asked]) -> bool
    ensures { IsTrue result ↔ AllByRecursion (λ (a : Asked). a ≡ Asked.Nothing) asked.now }
{
    for a in asked {
        if let Asked::Issue | Asked::Settle { .. } = a {
            return false;
        }
    }
    true
}

impl Station {
    /// Opens a station on a journal and the words of 1 to 64 slaves.
    pub(crate) fn open(
        alloc: Global,
        slaves: Vec<Words>,
        capacity: u32,
        journal: Journal,
    ) -> Result<Station, CoreFault>
        requires some { 1 ≤ vec_len slaves }
        requires most { vec_len slaves ≤ 64 }
        requires live { CanBeLive journal.form capacity (sizes_of slaves.items) journal.batches }
        ensures { IfOk result (λ station. station ≡ open_book slaves.items capacity journal) }
    {
        let asked = vec![in alloc; Asked::Nothing; slaves.len()]?;
        let core = Core::open(alloc, slaves, capacity, journal)?;
        Ok(Station {
            core,
            action: None,
            asked,
        })
    }

    pub(crate) fn core(&self) -> &Core
        ensures { result.now ≡ self.now }
    {
        &self.core
    }

    /// A caller submits a command.
    pub(crate) fn submit(&mut self, command: &Command) -> Result<u64, SubmitRefusal>
        ensures answer { IsSubmitted self.old command.now result }
        ensures accepted { OnOk result (self.new ≡ with_command self.old command.now) }
        ensures refused { OnErr result (self.new ≡ self.old) }
    {
        self.core.submit(command)
    }

    /// A caller asks for a plan.
    pub(crate) fn plan(&mut self) -> Result<Plan, ImageFault>
        ensures plan { IsPlan self.old result }
        ensures same { self.new ≡ self.old }
    {
        self.core.plan()
    }

    pub(crate) fn finish(&mut self)
        ensures { self.new ≡ finish self.old }
    {
        self.core.finish();
    }

    pub(crate) fn migrate(&mut self)
        ensures { self.new ≡ (migrate self.old).1 }
    {
        let _asked = self.core.migrate();
    }

    /// The action of the disk that is in progress.
    pub(crate) fn action(&self) -> Option<&DiskNext>
        ensures action { option_copied result ≡ handed_out self.now }
        ensures out { is_some result ≡ self.now.is_handed_out }
    {
        self.action.as_ref()
    }

    /// The book hands out its next action for the disk, if it has one.
    pub(crate) fn begin_action(&mut self) -> Result<(), CoreFault>
        requires { self.old.is_handed_out ≡ false }
        ensures ok { OnOk result (self.new ≡ (disk_next self.old).1) }
        ensures err { OnErr result (self.new ≡ self.old) }
    {
        let next = self.core.disk_next()?;
        self.action = as_action(next);
        Ok(())
    }

    /// The action of the disk ends with this outcome.
    pub(crate) fn end_action(&mut self, outcome: Result<(), DeviceFault>)
        requires { outcome ≢ Err DeviceFault.Lost }
        ensures { self.new ≡ disk_done self.old outcome }
    {
        self.core.disk_done(outcome);
        self.action = None;
    }

    /// The book hands out its next action for the slave, if it has one.
    pub(crate) fn rom_next(&mut self, slave: u16) -> RomNext
        ensures answer { result ≡ (rom_next self.old slave).0 }
        ensures book { self.new ≡ (rom_next self.old slave).1 }
    {
        let at = usize::from(slave);
        let next = self.core.rom_next(slave);
        if at < self.asked.len() {
            self.asked[at] = asked_next(next, self.asked[at]);
        }
        next
    }

    /// What is in progress with the slave.
    pub(crate) fn asked(&self, slave: u16) -> Asked
        ensures { result ≡ asked_of (slave_at self.now slave).operation }
    {
        let at = usize::from(slave);
        if at >= self.asked.len() {
            return Asked::Nothing;
        }
        self.asked[at]
    }

    /// The action for the slave ends with this outcome.
    pub(crate) fn rom_done(&mut self, slave: u16, outcome: RomOutcome)
        ensures { self.new ≡ rom_done self.old slave outcome }
    {
        let at = usize::from(slave);
        self.core.rom_done(slave, outcome);
        if at < self.asked.len() {
            self.asked[at] = asked_then(self.asked[at], outcome);
        }
    }

    /// Whether a fault has closed the station and nothing is in progress.
    pub(crate) fn is_over(&self) -> bool
        ensures { IsTrue result ↔ IsClosedAndIdle self.now }
    {
        if self.core.fault().is_none() {
            return false;
        }
        if self.action.is_some() {
            return false;
        }
        are_idle(&self.asked)
    }
}
