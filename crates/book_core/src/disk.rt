ghost use Rattle.std.specs.Prelude.{◌≡◌, ℕ, Option, None, Some, true, false, is_some, IsSome, IfOk, OnOk, OnErr, if◌then◌else◌};
ghost use Rattle.book_model.specs.declared.next.DiskNext.{DiskNext};

use crate::book::Core;
use crate::step::Step;
use book_model::{CoreFault, DiskNext};
use book_parts::Spot;
use jrn_format::encode_batch;
use sii_words::ItemList;
use std::alloc::{AllocError, Global};

/// The byte of the journal's file that holds its version.
const VERSION_AT: usize = 1;

/// The mark of a migration.
const MARK: [u8; 4] = *b"MIG2";

/// The byte of the journal's file at which the mark begins, after the first gate.
const MARK_AT: usize = 9;

/// A write of these bytes, from byte `at` of the journal's file on.
fn write(alloc: Global, at: usize, bytes: &[u8]) -> Result<DiskNext, AllocError>
    ensures { IfOk result (λ next. next ≡ DiskNext.Write at bytes.now) }
{
    let mut copy = Vec::new(alloc);
    copy.extend_from_slice(bytes)?;
    Ok(DiskNext::Write {
        at,
        bytes: ItemList::from_vec(copy),
    })
}

impl Core {
    ghost use Rattle.std.specs.Option.{option_map};
    ghost use Rattle.jrn_format.specs.declared.journal.Form.{Form};
    ghost use Rattle.jrn_format.specs.Halves.{Place, place_of, entries_size};
    ghost use Rattle.book_model.specs.Cells.{is_any};
    ghost use Rattle.book_model.specs.Book as book;
    ghost use Rattle.book_model.specs.DiskSteps.{disk_next, disk_room, can_retire, can_migrate, doing_next, action_of};
    ghost use Rattle.book_parts.specs.Spot.{as_place};
    ghost use Rattle.book_core.specs.Parts.{doing_of, next_entries, next_place};
    ghost use Rattle.book_core.specs.Steps.{place_appended};
    ghost use Rattle.book_core.specs.Handing.{IsNext, IsOther, IsWrite, HandsOut};

    /// Hands out the next action for the disk. `disk_done` reports its outcome; until then the answer is `Idle`.
    ///
    /// The answer is `Stop` once the book has a fault, and in a finished book that has no action for the disk.
    ///
    /// # Errors
    ///
    /// `Memory`: memory was refused for the bytes of a write or for the words of a new batch. It comes in place of a write alone. The book
    /// stays as it is.
    pub fn disk_next(&mut self) -> Result<DiskNext, CoreFault>
        ensures { HandsOut self.old self.new result }
    {
        if self.is_handed_out {
            return Ok(DiskNext::Idle);
        }
        if self.fault.is_some() {
            return Ok(DiskNext::Stop);
        }
        let step = self.next_step();
        if let Step::Resting = step {
            return Ok(self.without_step());
        }
        if let Step::Payload(spot) = step {
            return self.write_payload(spot);
        }
        self.hand_out(step)
    }

    /// The answer of a book that has no action for the disk.
    fn without_step(&self) -> DiskNext
        requires { IsNext self.now Step.Resting }
        ensures { disk_next self.now ≡ (result, self.now) }
    {
        if self.is_finished {
            DiskNext::Stop
        } else {
            DiskNext::Idle
        }
    }

    /// How many bytes the `Write` has that `disk_next` would give now; 0 if it would give none.
    pub fn disk_room(&self) -> usize
        ensures { result ≡ disk_room self.now }
    {
        if self.is_handed_out || self.fault.is_some() {
            return 0;
        }
        match self.next_step() {
            Step::Payload(_) => self.payload_size(),
            Step::Mark => MARK.len(),
            Step::Version => 1,
            _ => 0,
        }
    }

    /// The step to hand out now. In a resting book: an append if a half has room for the queue, else a retire, else a migration that was
    /// asked for.
    fn next_step(&self) -> Step
        ensures doing { doing_of (next_entries self.now) result ≡ doing_next self.now self.now.doing }
        ensures version_2 { IsSome (place_appended result) → self.now.form ≡ Form.Two }
    {
        let Step::Resting = self.step else {
            return self.step;
        };
        if let Some(spot) = self.next_spot() {
            Step::Payload(spot)
        } else if self.can_retire() {
            Step::CloseGate
        } else if self.can_migrate() {
            Step::FarGate
        } else {
            Step::Resting
        }
    }

    /// Whether something is live, and all words of the older half are settled.
    fn can_retire(&self) -> bool
        ensures { result ≡ can_retire self.now }
    {
        self.area.is_any() && self.work.is_settled()
    }

    /// Whether a migration was asked for, and nothing is live.
    fn can_migrate(&self) -> bool
        ensures { result ≡ can_migrate self.now }
    {
        self.is_migrating && !self.area.is_any()
    }

    /// Where the queue goes as one batch; `None` if it is empty, or no half has room. Only in version 2 are commands queued.
    fn next_spot(&self) -> Option<Spot>
        ensures place { option_map as_place result ≡ next_place self.now }
        ensures version_2 { IsSome result → self.now.form ≡ Form.Two }
    {
        if self.ledger.queued().is_empty() {
            return None;
        }
        self.area.place_of(self.ledger.queued_bytes())
    }

    /// How many bytes the write of a batch has: all that follows its gate, and the closed gate at its end.
    fn payload_size(&self) -> usize
        requires { (place : Place) × (doing_next self.now self.now.doing ≡ book.Payload place (next_entries self.now)) }
        ensures { result ≡ entries_size (next_entries self.now) }
    {
        match self.step {
            Step::Resting => self.ledger.queued_bytes() as usize,
            _ => self.ledger.appended_bytes() as usize,
        }
    }

    /// Hands out the write of a batch after its gate: the batch that is being appended, else one of the whole queue.
    fn write_payload(&mut self, spot: Spot) -> Result<DiskNext, CoreFault>
        requires { IsNext self.old (Step.Payload spot) }
        ensures { HandsOut self.old self.new result }
    {
        if let Step::Resting = self.step {
            return self.write_queue(spot);
        }
        self.write_again(spot)
    }

    /// Hands out the write of the whole queue as one batch.
    #[tactic(auto, using(crate::proofs::HandLaws::writes))]
    fn write_queue(&mut self, spot: Spot) -> Result<DiskNext, CoreFault>
        requires next { IsNext self.old (Step.Payload spot) }
        requires resting { self.old.doing ≡ book.Resting }
        ensures { HandsOut self.old self.new result }
    {
        let generation = self.area.generation_in(spot);
        let at = self.area.gate_at(spot) + 1;
        self.work.reserve(self.ledger.queued())?;
        let bytes = encode_batch(self.alloc, generation, self.ledger.queued())?;
        self.ledger.begin();
        self.step = Step::Payload(spot);
        self.is_handed_out = true;
        Ok(DiskNext::Write {
            at,
            bytes: ItemList::from_vec(bytes),
        })
    }

    /// Hands out the write of the batch that is being appended.
    #[tactic(auto, using(crate::proofs::HandLaws::writes))]
    fn write_again(&mut self, spot: Spot) -> Result<DiskNext, CoreFault>
        requires next { IsNext self.old (Step.Payload spot) }
        requires begun { self.old.doing ≡ book.Payload (as_place spot) (next_entries self.old) }
        ensures { HandsOut self.old self.new result }
    {
        let generation = self.area.generation_in(spot);
        let at = self.area.gate_at(spot) + 1;
        let bytes = encode_batch(self.alloc, generation, self.ledger.appended())?;
        self.is_handed_out = true;
        Ok(DiskNext::Write {
            at,
            bytes: ItemList::from_vec(bytes),
        })
    }

    /// Hands out a step other than rest and the write of a batch.
    #[tactic(auto, using(crate::proofs::HandLaws::writes))]
    fn hand_out(&mut self, step: Step) -> Result<DiskNext, CoreFault>
        requires next { IsNext self.old step }
        requires other { IsOther step }
        ensures { HandsOut self.old self.new result }
    {
        let action = self.action(step)?;
        self.step = step;
        self.is_handed_out = true;
        Ok(action)
    }

    /// The action that such a step asks of the disk.
    fn action(&self, step: Step) -> Result<DiskNext, AllocError>
        requires other { IsOther step }
        requires version_2 { IsSome (place_appended step) → self.now.form ≡ Form.Two }
        ensures action { IfOk result (λ next. action_of self.now (doing_of (next_entries self.now) step) ≡ Some next) }
        ensures memory { OnErr result (IsWrite step) }
    {
        Ok(match step {
            Step::OpenGate(spot) => DiskNext::Gate {
                at: self.area.gate_at(spot),
                closed: false,
            },
            Step::CloseGate => DiskNext::Gate {
                at: self.area.older_at(),
                closed: true,
            },
            Step::FarGate => DiskNext::Gate {
                at: self.area.far_at(),
                closed: true,
            },
            Step::Mark => write(self.alloc, MARK_AT, &MARK)?,
            Step::Version => write(self.alloc, VERSION_AT, &[2])?,
            _ => DiskNext::Sync,
        })
    }
}
