//! Laws of the journal format, apart from any code. Each function's contract is a law, and its body does nothing.

ghost use Rattle.std.specs.Prelude.{◌≡◌, ◌≢◌, ◌<◌, ◌↔◌, ℕ, List, [], ◌∷◌, ◌++◌, length, map, All};
ghost use Rattle.sii_words.specs.Redo.{LiesInside};
ghost use Rattle.sii_words.specs.declared.run.Run.{Run};
ghost use Rattle.jrn_format.specs.Area.{spelt_batches, IsClosed, IsLive};
ghost use Rattle.jrn_format.specs.Batch.{spelt_batch, spelt_after, CanStand, LiesWithin};
ghost use Rattle.jrn_format.specs.Fault.{IsNoJournal};
ghost use Rattle.jrn_format.specs.Journal.{IsJournal};
ghost use Rattle.jrn_format.specs.declared.fault.JournalFault.{JournalFault};
ghost use Rattle.jrn_format.specs.declared.journal.Batch.{Batch};
ghost use Rattle.jrn_format.specs.declared.journal.Journal.{Journal};
ghost use Rattle.jrn_format.specs.declared.journal.Spelling.{Spelling};

/// A file is at most one journal.
pub fn one_journal()
    ensures { (file sizes : List ℕ) (journal other : Journal) → IsJournal file sizes journal → IsJournal file sizes other
        → journal ≡ other }
{}

/// A file is refused with at most one fault.
pub fn one_fault()
    ensures { (file sizes : List ℕ) (fault other : JournalFault) → All (λ byte. byte < 256) file
        → IsNoJournal file sizes fault → IsNoJournal file sizes other → fault ≡ other }
{}

/// A file with a fault is not a journal.
pub fn journal_or_fault()
    ensures { (file sizes : List ℕ) (fault : JournalFault) (journal : Journal) → All (λ byte. byte < 256) file
        → IsNoJournal file sizes fault → IsJournal file sizes journal → ⊥ }
{}

/// At most one list of batches is live in an area.
pub fn one_live()
    ensures { (spelling : Spelling) (half : ℕ) (area : List ℕ) (batches others : List Batch)
        → IsLive spelling half area batches → IsLive spelling half area others → batches ≡ others }
{}

/// Nothing is live in an area if and only if it begins with a closed gate.
pub fn nothing_is_live()
    ensures { (spelling : Spelling) (half : ℕ) (area : List ℕ) → IsLive spelling half area [] ↔ IsClosed area }
{}

/// A well-formed batch placed in front of an area is live, followed by the batches that are live in that area.
pub fn first_is_live()
    ensures { (spelling : Spelling) (half : ℕ) (batch : Batch) (batches : List Batch) (rest : List ℕ)
        → CanStand spelling half batch → IsLive spelling half rest batches
        → IsLive spelling half (spelt_batch spelling batch ++ rest) (batch ∷ batches) }
{}

/// If the first gate is closed, nothing is live, whatever bytes follow. This is how a half is retired.
pub fn retire()
    ensures { (spelling : Spelling) (half gate : ℕ) (rest : List ℕ) → gate ≢ 0xA5 → IsLive spelling half (gate ∷ rest) [] }
{}

/// The bytes that follow the live batches may be any closed gate and anything after it: a new batch is written there before it
/// is live.
pub fn written_after()
    ensures { (spelling : Spelling) (half : ℕ) (batches : List Batch) (gate : ℕ) (rest : List ℕ) (other : ℕ) (after : List ℕ)
        → IsLive spelling half (spelt_batches spelling batches ++ gate ∷ rest) batches → other ≢ 0xA5
        → IsLive spelling half (spelt_batches spelling batches ++ other ∷ after) batches }
{}

/// A batch written after the gate that ends the live batches, and followed by a closed gate, becomes live when that gate is
/// opened.
pub fn append()
    ensures { (spelling : Spelling) (half : ℕ) (batches : List Batch) (gate : ℕ) (rest : List ℕ) (batch : Batch) (closing : ℕ)
        (after : List ℕ)
        → IsLive spelling half (spelt_batches spelling batches ++ gate ∷ rest) batches → CanStand spelling half batch → closing ≢ 0xA5
        → rest ≡ spelt_after spelling batch.generation batch.entries ++ closing ∷ after
        → IsLive spelling half (spelt_batches spelling batches ++ 0xA5 ∷ rest) (batches ++ batch ∷ []) }
{}

/// A run that is within a line's sizes lies inside each plant of those sizes.
pub fn runs_lie_inside()
    ensures { (plant : List (List ℕ)) (run : Run) → LiesWithin (map (λ words. length words) plant) run → LiesInside plant run }
{}
