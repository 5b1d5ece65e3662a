//! Laws of the two halves of version 2, as batches become live and are retired.

ghost use Rattle.std.specs.Prelude.{◌≡◌, ◌≢◌, ℕ, List, [], ◌∷◌, ◌++◌, IsSome};
ghost use Rattle.jrn_format.specs.declared.journal.Entry.{Entry};
ghost use Rattle.jrn_format.specs.declared.journal.Batch.{Batch};
ghost use Rattle.jrn_format.specs.declared.journal.Spelling.TheVariants.{WithGeneration};
ghost use Rattle.jrn_format.specs.Area.{IsLive};
ghost use Rattle.jrn_format.specs.Journal.{AreLive};
ghost use Rattle.jrn_format.specs.Halves.{Halves, Place, InOlder, live, half_of, batches_in, batch_in, with_batch, older_area, newer_area, place_of, IsSplit, HalvesStand, HasNext, StandsBeside};
ghost use Rattle.jrn_format.specs.Halves.{retired as after_retire};

/// The batches of the halves are the live batches of the area.
pub fn halves_are_live()
    ensures { (halves : Halves) (area older newer : List ℕ) → IsSplit halves.at area older newer → HalvesStand halves older newer
        → AreLive area (live halves) }
{}

/// Whatever value a torn gate has, either the batch after it is live too, or just the batches before it are.
pub fn torn_gate()
    ensures { (half : ℕ) (area : List ℕ) (batches : List Batch) (batch : Batch) (gate : ℕ) → HasNext half area batches batch gate
        → (gate ≢ 0xA5 → IsLive WithGeneration half area batches)
        × (gate ≡ 0xA5 → IsLive WithGeneration half area (batches ++ batch ∷ [])) }
{}

/// A batch that becomes live is the last of the live batches, if it goes to the older half only while the newer half is empty.
pub fn new_batch_is_last()
    ensures { (halves : Halves) (place : Place) (batch : Batch) → (place ≡ InOlder → halves.newer ≡ [])
        → live (with_batch halves place batch) ≡ live halves ++ batch ∷ [] }
{}

/// A batch whose gate is opened becomes live in its half, and the live batches of the other half stay.
pub fn batch_goes_live()
    ensures { (halves : Halves) (place : Place) (entries : List Entry) (area beside : List ℕ) → StandsBeside halves place beside
        → HasNext (half_of halves place) area (batches_in halves place) (batch_in halves place entries) 0xA5
        → HalvesStand (with_batch halves place (batch_in halves place entries)) (older_area place area beside) (newer_area place area beside) }
{}

/// If the first gate of the older half is closed, just the batches of the newer half are live.
pub fn older_half_is_retired()
    ensures { (halves : Halves) (area older newer rest : List ℕ) (gate : ℕ) → older ≡ gate ∷ rest → gate ≢ 0xA5
        → IsSplit halves.at area older newer → HalvesStand halves older newer → AreLive area halves.newer }
{}

/// Commands that fit into the journal still fit after a retire.
pub fn room_stays_after_a_retire()
    ensures { (room : ℕ) (halves : Halves) (entries : List Entry) → IsSome (place_of room halves entries)
        → IsSome (place_of room (after_retire halves) entries) }
{}
