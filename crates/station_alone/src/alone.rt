ghost use Rattle.std.specs.Prelude.{◌≡◌, [], ◌∷◌, IfOk, IfErr, OnErr, IsTrue};

use crate::choice::{Answer, Choice};
use crate::disk::do_disk;
use crate::fault::OpenFault;
use crate::migration::ask_migration;
use crate::opening::{Found, open_core};
use crate::rom::do_rom;
use crate::submit::do_submit;
use book_core::Core;
use book_model::RomNext;
use sii_edit::Command;
use site_core::Site;
use std::alloc::{AllocError, Global};
use std::marker::Model;

/// A station on one thread: a book, and the site on which its actions are carried out.
///
/// Contracts see the book, what the site is made of, and the site's state and past.
#[derive(Drop)]
pub struct Alone<S: Site> {
    alloc: Global,
    core: Core,
    site: S,
}

impl<S: Site> Model for Alone<S> {
    ghost use Rattle.station_alone.specs.Station.{Station, station, Stands};

    ghost Value = { Station };

    ghost view = { λ a. station a.core (S.line a.site) (S.seen a.site) };

    ghost invariant = { λ a. Stands (station a.core (S.line a.site) (S.seen a.site)) };
}

impl<S: Site> Alone<S> {
    ghost use Rattle.book_model.specs.RomSteps.{rom_next};
    ghost use Rattle.esc_rom.specs.Owned.{OwnsAll};
    ghost use Rattle.station_alone.specs.Station.{Stands};
    ghost use Rattle.station_alone.specs.Steps.{Steps, Serves, StepsInOrder, most_calls, most_calls_of};
    ghost use Rattle.station_alone.specs.Keeping.{GoesOn, Keeps, KeepsInOrder, KeepsThroughout, Went, accepted_by, accepted_in};
    ghost use Rattle.station_alone.specs.Opening.{Opens, OpensCounted, FailsToOpen, BeginsSession};

    /// Opens a station on a site: syncs the disk and reads its journal, and then opens and reads each slave.
    ///
    /// The site must have a disk and own the EEPROM of every slave of its line.
    ///
    /// # Errors
    ///
    /// `Journal` as for `read_journal`, then `Slave` as for `read_slaves`; `Memory` before the first device call or after the last one.
    /// The site is handed back as the calls so far left it; a power cut leaves nothing that it couldn't leave before.
    pub fn open(alloc: Global, site: S) -> Result<Alone<S>, (S, OpenFault)>
        requires disk { IsTrue (S.line site).has_disk }
        requires slaves { OwnsAll (S.line site) }
        ensures opens { IfOk result (λ alone. Opens (S.line site) (S.seen site) alone) }
        ensures begins { IfOk result (λ alone. BeginsSession (S.seen site) alone) }
        ensures keeps { IfOk result (λ alone. KeepsThroughout (S.seen site) alone.seen) }
        ensures fails { IfErr result (λ back. FailsToOpen (S.line site) (S.seen site) back.1 (S.line back.0) (S.seen back.0)) }
        ensures keeps_back { IfErr result (λ back. KeepsThroughout (S.seen site) (S.seen back.0)) }
    {
        let (alone, _found) = Self::open_counted(alloc, site)?;
        Ok(alone)
    }

    /// Like `open`, but also counts the live batches of the journal and their commands.
    ///
    /// # Errors
    ///
    /// As for `open`.
    pub fn open_counted(alloc: Global, site: S) -> Result<(Alone<S>, Found), (S, OpenFault)>
        requires disk { IsTrue (S.line site).has_disk }
        requires slaves { OwnsAll (S.line site) }
        ensures opens { IfOk result (λ opened. OpensCounted (S.line site) (S.seen site) opened.0 opened.1) }
        ensures begins { IfOk result (λ opened. BeginsSession (S.seen site) opened.0) }
        ensures keeps { IfOk result (λ opened. KeepsThroughout (S.seen site) opened.0.seen) }
        ensures fails { IfErr result (λ back. FailsToOpen (S.line site) (S.seen site) back.1 (S.line back.0) (S.seen back.0)) }
        ensures keeps_back { IfErr result (λ back. KeepsThroughout (S.seen site) (S.seen back.0)) }
    {
        let mut site = site;
        match open_core(alloc, &mut site) {
            Ok((core, found)) => Ok((Alone { alloc, core, site }, found)),
            Err(fault) => Err((site, fault)),
        }
    }

    /// Makes one step: submits a command, asks for a migration, or carries out one action that the book hands out.
    pub fn step(&mut self, choice: Choice) -> Answer
        ensures steps { Steps choice self.old result self.new }
        ensures goes_on { GoesOn (accepted_by choice result) (most_calls choice) self.old self.new }
        ensures keeps { Keeps (accepted_by choice result) self.old self.new }
    {
        self.act(&choice)
    }

    /// Like `step`, but borrows the choice.
    pub fn act(&mut self, choice: &Choice) -> Answer
        ensures steps { Steps choice.now self.old result self.new }
        ensures goes_on { GoesOn (accepted_by choice.now result) (most_calls choice.now) self.old self.new }
        ensures keeps { Keeps (accepted_by choice.now result) self.old self.new }
    {
        self.go(choice)
    }

    /// Like `step` with `Choice::Rom`, but also returns what the book handed out for the slave.
    pub fn serve(&mut self, slave: u16) -> (RomNext, Answer)
        ensures next { result.0 ≡ (rom_next self.old.book slave).0 }
        ensures serves { Serves (rom_next self.old.book slave).0 slave self.old result.1 self.new }
        ensures goes_on { GoesOn [] 10001 self.old self.new }
        ensures keeps { Keeps [] self.old self.new }
    {
        do_rom(&mut self.core, &mut self.site, slave)
    }

    fn go(&mut self, choice: &Choice) -> Answer
        ensures { Went choice.now self.old result self.new }
    {
        match choice {
            Choice::Submit(command) => self.submit(command),
            Choice::Disk => self.write_on(),
            Choice::Rom(slave) => self.serve_one(*slave),
            Choice::Migrate => self.migrate(),
        }
    }

    /// Like `step` with `Choice::Submit`, but borrows the command.
    pub fn submit(&mut self, command: &Command) -> Answer
        ensures { Went (Choice.Submit command.now) self.old result self.new }
    {
        do_submit(&mut self.core, command)
    }

    fn write_on(&mut self) -> Answer
        ensures { Went Choice.Disk self.old result self.new }
    {
        do_disk(&mut self.core, &mut self.site)
    }

    fn serve_one(&mut self, slave: u16) -> Answer
        ensures { Went (Choice.Rom slave) self.old result self.new }
    {
        let (_next, answer) = self.serve(slave);
        answer
    }

    fn migrate(&mut self) -> Answer
        ensures { Went Choice.Migrate self.old result self.new }
    {
        ask_migration(&mut self.core)
    }

    /// Makes these steps one after another. Returns one answer for each choice, in their order.
    ///
    /// # Errors
    ///
    /// Memory was refused for the answers; then no step was made. Memory refused within a step is its answer `NoMemory`.
    pub fn run(&mut self, choices: &[Choice]) -> Result<Vec<Answer>, AllocError>
        ensures steps { IfOk result (λ answers. StepsInOrder choices.now self.old answers.items self.new) }
        ensures goes_on { IfOk result (λ answers. GoesOn (accepted_in choices.now answers.items) (most_calls_of choices.now) self.old self.new) }
        ensures keeps { IfOk result (λ answers. Keeps (accepted_in choices.now answers.items) self.old self.new) }
        ensures in_order { IfOk result (λ answers. KeepsInOrder choices.now self.old answers.items self.new) }
        ensures refused { OnErr result (self.new ≡ self.old) }
    {
        let mut answers = Vec::with_capacity(self.alloc, choices.len())?;
        for choice in choices {
            answers.push_reserved(self.act(choice));
        }
        Ok(answers)
    }

    /// The book.
    pub fn core(&self) -> &Core
        ensures book { result.now ≡ self.now.book }
        ensures stands { Stands self.now }
    {
        &self.core
    }

    /// Takes the station apart into its book and its site, both unchanged.
    pub fn into_parts(self) -> (Core, S)
        ensures book { result.0 ≡ self.book }
        ensures line { S.line result.1 ≡ self.line }
        ensures seen { S.seen result.1 ≡ self.seen }
    {
        let Alone {
            alloc: _,
            core,
            site,
        } = self;
        (core, site)
    }
}
