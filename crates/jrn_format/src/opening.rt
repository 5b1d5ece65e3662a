//! Laws of a journal that was read: what a book may be opened with.

ghost use Rattle.std.specs.Prelude.{◌≡◌, ℕ, List, length, map, All};
ghost use Rattle.std.specs.Int.{w32};
ghost use Rattle.std.specs.List.{flat_map, AllByRecursion};
ghost use Rattle.sii_words.specs.Redo.{LiesInside};
ghost use Rattle.jrn_format.specs.declared.journal.Entry.{Entry};
ghost use Rattle.jrn_format.specs.declared.journal.Batch.{Batch};
ghost use Rattle.jrn_format.specs.declared.journal.Journal.{Journal};
ghost use Rattle.jrn_format.specs.Batch.{IsWithin};
ghost use Rattle.jrn_format.specs.Header.{field_at};
ghost use Rattle.jrn_format.specs.Journal.{IsJournal};
ghost use Rattle.jrn_format.specs.Live.{CanBeLive};

/// The batches of a journal that was read fit its area: their order and generations are right, and each half has room for its
/// batches and a closed gate.
pub fn journal_can_be_live()
    ensures { (file sizes : List ℕ) (journal : Journal) → IsJournal file sizes journal
        → CanBeLive journal.form (field_at w32 4 file) sizes journal.batches }
{}

/// The runs of batches that are within a line lie inside each plant of that line, as redo requires.
pub fn runs_of_batches_lie_inside()
    ensures { (plant : List (List ℕ)) (batches : List Batch) → AllByRecursion (IsWithin (map (λ words. length words) plant)) batches
        → All (LiesInside plant) (flat_map (λ (entry : Entry). entry.runs) (flat_map (λ (batch : Batch). batch.entries) batches)) }
{}
