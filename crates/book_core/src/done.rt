ghost use Rattle.std.specs.Prelude.{◌≡◌, ◌++◌, [], false, true};
ghost use Rattle.jrn_format.specs.Halves.{InOlder};
ghost use Rattle.book_model.specs.Entries.{sizes_of};
ghost use Rattle.book_parts.specs.Line.{NeverFall};
ghost use Rattle.book_parts.specs.Spot.{as_place};
ghost use Rattle.book_parts.specs.Ledger.{appended, gone_durable};
ghost use Rattle.book_core.specs.Stands.{IsAppending, cell_counts};
ghost use Rattle.book_core.specs.Live.{joined, with_live};

use crate::book::Core;
use crate::step::Step;
use book_model::Fault;
use book_parts::{Area, Ledger, LineWork, Spot};
use jrn_format::Batch;
use sii_words::ItemList;
use site_core::DeviceFault;

/// The appended batch goes live: its commands are durable, and its words are to be written to the slaves.
fn go_live(area: &mut Area, ledger: &mut Ledger, work: &mut LineWork, spot: Spot)
    requires cells { cell_counts work.old.slaves ≡ sizes_of ledger.old.base }
    requires appending { IsAppending (as_place spot) area.old ledger.old work.old }
    requires alone { as_place spot ≡ InOlder → work.old.newer ≡ [] }
    requires order { NeverFall ((work.old.older ++ work.old.newer) ++ appended ledger.old) }
    ensures area { area.new ≡ with_live (as_place spot) area.old (appended ledger.old) }
    ensures ledger { ledger.new ≡ gone_durable ledger.old }
    ensures work { work.new ≡ joined (as_place spot) work.old (appended ledger.old) }
{
    let entries = ItemList::from_vec(ledger.go_durable());
    let batch = Batch {
        half: area.half_in(spot),
        generation: area.generation_in(spot),
        entries,
    };
    area.join(spot, &batch);
    match spot {
        Spot::InOlder => work.join_older(batch.entries.as_slice()),
        Spot::InNewer => work.join_newer(batch.entries.as_slice()),
    }
}

impl Core {
    ghost use Rattle.book_model.specs.Book.{with_fault};
    ghost use Rattle.book_model.specs.DiskSteps.{disk_done, went_on};

    /// Reports the outcome of the action that `disk_next` handed out.
    ///
    /// `Disk` and `Stopped` become the book's fault if it has none yet. Nothing changes on `Lost`, which no disk answers, or with
    /// nothing handed out.
    pub fn disk_done(&mut self, outcome: Result<(), DeviceFault>)
        ensures { self.new ≡ disk_done self.old outcome }
    {
        if !self.is_handed_out {
            return;
        }
        match outcome {
            Ok(()) => self.go_on(),
            Err(DeviceFault::Disk) => self.fail(Fault::Disk),
            Err(DeviceFault::Stopped) => self.fail(Fault::Stopped),
            Err(DeviceFault::Lost) => {}
        }
    }

    /// The action failed: the book has a fault.
    fn fail(&mut self, fault: Fault)
        ensures { self.new ≡ with_fault (record self.old { is_handed_out = false }) fault }
    {
        self.is_handed_out = false;
        self.fault = Some(self.fault.unwrap_or(fault));
    }

    /// The action succeeded: the book goes on to the next step.
    fn go_on(&mut self)
        ensures { self.new ≡ went_on (record self.old { is_handed_out = false }) self.old.doing }
    {
        self.is_handed_out = false;
        match self.step {
            Step::OpenSync(spot) => {
                go_live(&mut self.area, &mut self.ledger, &mut self.work, spot);
                self.step = Step::Resting;
            }
            Step::CloseSync => {
                self.work.retire();
                self.area.retire();
                self.step = Step::Resting;
            }
            Step::VersionSync => {
                self.area.become_version_2();
                self.step = Step::Resting;
                self.is_migrating = false;
            }
            step => self.step = step.after(self.area.form()),
        }
    }
}
