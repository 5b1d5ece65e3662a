ghost use Rattle.std.specs.Prelude.{◌≡◌, ◌<◌, Bool, length, true, false, is_some};

use crate::book::Core;
use book_model::{Fault, RomNext, RomOutcome};
use book_parts::Operation;
use site_core::{Issued, Settled};

/// How often a word is issued at most before its slave is given up.
const MOST_ISSUES: u8 = 3;

impl Core {
    ghost use Rattle.book_model.specs.Book as book;
    ghost use Rattle.book_model.specs.Book.{slave_at, with_fault, IsAbout};
    ghost use Rattle.book_core.specs.Wear.{IssuesFew};
    ghost use Rattle.book_model.specs.RomSteps.{rom_next, rom_done, without_work, with_operation, with_written, with_again};

    /// Hands out the next action for the slave, numbered from 0. `rom_done` reports its outcome; until then the answer is `Idle`.
    ///
    /// The answer is `Stop` if there is no such slave, once the book has a fault, and for a slave with nothing to write in a finished
    /// book whose commands are all durable.
    ///
    /// Since the open a slave gets at most three issues for each word that the entries found then and the accepted commands name for it.
    pub fn rom_next(&mut self, slave: u16) -> RomNext
        ensures answer { result ≡ (rom_next self.old slave).0 }
        ensures book { self.new ≡ (rom_next self.old slave).1 }
        ensures wear { IssuesFew self.new }
    {
        let next = self.next_for(slave);
        self.issues_few();
        next
    }

    /// What `rom_next` hands out.
    fn next_for(&mut self, slave: u16) -> RomNext
        ensures answer { result ≡ (rom_next self.old slave).0 }
        ensures book { self.new ≡ (rom_next self.old slave).1 }
    {
        let slave = usize::from(slave);
        if slave >= self.work.len() {
            return RomNext::Stop;
        }
        match self.work.operation(slave) {
            Operation::NoOperation => self.issue(slave),
            Operation::Unsettled { word, value, taken } => self.settle(slave, word, value, taken),
            Operation::Issuing { .. } | Operation::Settling { .. } => RomNext::Idle,
        }
    }

    /// No slave was issued too many words, as the type's invariant says.
    fn issues_few(&self)
        ensures { IssuesFew self.now }
    {
        let _fault = self.fault;
    }

    /// Hands out the next word of an idle slave.
    fn issue(&mut self, slave: usize) -> RomNext
        requires slave { slave < length self.old.slaves }
        requires vacant { (slave_at self.old slave).operation ≡ book.NoOperation }
        ensures answer { result ≡ (rom_next self.old slave).0 }
        ensures book { self.new ≡ (rom_next self.old slave).1 }
    {
        if self.fault.is_some() {
            return RomNext::Stop;
        }
        match self.work.issue(slave) {
            Some((word, value)) => RomNext::Issue { word, value },
            None => self.without_work(),
        }
    }

    /// Hands out the settle of the word that was issued.
    fn settle(&mut self, slave: usize, word: u16, value: u16, taken: bool) -> RomNext
        requires slave { slave < length self.old.slaves }
        requires unsettled { (slave_at self.old slave).operation ≡ book.Unsettled word value taken }
        ensures answer { result ≡ (rom_next self.old slave).0 }
        ensures book { self.new ≡ (rom_next self.old slave).1 }
    {
        if self.fault.is_some() {
            return RomNext::Stop;
        }
        self.work
            .set_operation(slave, Operation::Settling { word, value, taken });
        RomNext::Settle { taken }
    }

    /// The answer for a slave with no word to write.
    fn without_work(&self) -> RomNext
        ensures { result ≡ without_work self.now }
    {
        if self.is_finished && self.ledger.durable() >= self.ledger.len() {
            RomNext::Stop
        } else {
            RomNext::Idle
        }
    }

    /// Reports the outcome of the issue or settle that `rom_next` handed out. With nothing handed out, no such slave, or an outcome of
    /// the other kind, nothing changes.
    pub fn rom_done(&mut self, slave: u16, outcome: RomOutcome)
        ensures { self.new ≡ rom_done self.old slave outcome }
    {
        if usize::from(slave) >= self.work.len() {
            return;
        }
        match self.work.operation(usize::from(slave)) {
            Operation::Issuing { word, value } => self.issued(slave, word, value, outcome),
            Operation::Settling { word, value, .. } => self.settled(slave, word, value, outcome),
            Operation::NoOperation | Operation::Unsettled { .. } => {}
        }
    }

    /// Takes in the outcome of an issue.
    fn issued(&mut self, slave: u16, word: u16, value: u16, outcome: RomOutcome)
        requires slave { slave < length self.old.slaves }
        requires issuing { (slave_at self.old slave).operation ≡ book.Issuing word value }
        ensures { self.new ≡ rom_done self.old slave outcome }
    {
        match outcome {
            RomOutcome::Issued(issued) => {
                let taken = issued == Issued::Taken;
                let operation = Operation::Unsettled { word, value, taken };
                self.work.set_operation(usize::from(slave), operation);
            }
            RomOutcome::Stopped => self.give_up(slave, Fault::Stopped),
            RomOutcome::Settled(_) => {}
        }
    }

    /// Takes in the outcome of a settle.
    fn settled(&mut self, slave: u16, word: u16, value: u16, outcome: RomOutcome)
        requires slave { slave < length self.old.slaves }
        requires settling { (taken : Bool) × ((slave_at self.old slave).operation ≡ book.Settling word value taken) }
        ensures { self.new ≡ rom_done self.old slave outcome }
    {
        match outcome {
            RomOutcome::Settled(Settled::Written) => {
                self.work.written(usize::from(slave), word, value);
            }
            RomOutcome::Settled(Settled::Again) => self.again(slave, word),
            RomOutcome::Settled(Settled::Dead) => self.give_up(slave, Fault::SlaveDead { slave }),
            RomOutcome::Stopped => self.give_up(slave, Fault::Stopped),
            RomOutcome::Issued(_) => {}
        }
    }

    /// The word must be issued again; a slave is given up if its word has had all its issues.
    fn again(&mut self, slave: u16, word: u16)
        requires slave { slave < length self.old.slaves }
        requires about { IsAbout (slave_at self.old slave).operation word }
        ensures { self.new ≡ with_again self.old slave word }
    {
        if self.work.issues(usize::from(slave), word) >= MOST_ISSUES {
            self.give_up(slave, Fault::SlaveDead { slave });
        } else {
            self.work
                .set_operation(usize::from(slave), Operation::NoOperation);
        }
    }

    /// Ends what is being done with the slave; the book has a fault.
    fn give_up(&mut self, slave: u16, fault: Fault)
        requires { slave < length self.old.slaves }
        ensures { self.new ≡ with_fault (with_operation self.old slave book.NoOperation) fault }
    {
        self.work
            .set_operation(usize::from(slave), Operation::NoOperation);
        self.fault = Some(self.fault.unwrap_or(fault));
    }
}
