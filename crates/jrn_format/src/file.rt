//! Laws of a file of version 2: its header, its halves and the bytes after them.

ghost use Rattle.std.specs.Prelude.{◌≡◌, ◌≢◌, ◌+◌, ℕ, List, [], ◌∷◌, ◌++◌, length, take, drop};
ghost use Rattle.std.specs.Int.{w32};
ghost use Rattle.std.specs.List.{AllByRecursion};
ghost use Rattle.jrn_format.specs.declared.journal.Entry.{Entry};
ghost use Rattle.jrn_format.specs.declared.journal.Batch.{Batch};
ghost use Rattle.jrn_format.specs.declared.journal.Form.TheVariants.{Two};
ghost use Rattle.jrn_format.specs.Batch.{IsWithin};
ghost use Rattle.jrn_format.specs.Header.{field_at};
ghost use Rattle.jrn_format.specs.Journal.{IsJournal};
ghost use Rattle.jrn_format.specs.Halves.{Halves, Place, live, half_of, batches_in, batch_in, with_batch, HalvesStand, HasNext, StandsBeside};
ghost use Rattle.jrn_format.specs.Halves.{retired as after_retire};
ghost use Rattle.jrn_format.specs.Live.{halves_in};
ghost use Rattle.jrn_format.specs.File.{before, IsFile, IsLiveFile, StandInFile, StandComplete};

/// A journal of version 2 has a complete header and complete halves, which hold its batches.
pub fn journal_stands_complete()
    ensures { (file sizes : List ℕ) (batches : List Batch) → IsJournal file sizes (record { form = Two; batches = batches })
        → StandComplete (length sizes) (field_at w32 4 file) (halves_in batches) file }
{}

/// A file with a complete header and complete halves, whose batches are within the line, is a journal of version 2.
pub fn complete_file_is_a_journal()
    ensures { (file sizes : List ℕ) (capacity : ℕ) (halves : Halves) → StandComplete (length sizes) capacity halves file
        → AllByRecursion (IsWithin sizes) (live halves)
        → IsJournal file sizes (record { form = Two; batches = live halves }) }
{}

/// The batches of a file's halves are the live batches of the file.
pub fn file_is_live()
    ensures { (halves : Halves) (head bytes : List ℕ) → StandInFile halves head bytes → IsLiveFile head bytes (live halves) }
{}

/// Overwriting bytes of one half leaves the rest of the file unchanged.
pub fn bytes_of_a_half_change()
    ensures { (head : List ℕ) (at : ℕ) (p q over r two last bytes : List ℕ) → IsFile head at (p ++ (q ++ r)) two last bytes
        → length over ≡ length q
        → let start = length (before at head two ++ p) in
        IsFile head at (p ++ (over ++ r)) two last (take start bytes ++ over ++ drop (start + length over) bytes) }
{}

/// Whatever value the gate before a new batch has, either the batch is live after the others, or just the others are.
pub fn batch_goes_live_in_a_file()
    ensures { (halves : Halves) (place : Place) (entries : List Entry) (head area beside last bytes : List ℕ) (gate : ℕ)
        → IsFile head (half_of halves place) area beside last bytes → StandsBeside halves place beside
        → HasNext (half_of halves place) area (batches_in halves place) (batch_in halves place entries) gate
        → (gate ≢ 0xA5 → StandInFile halves head bytes)
        × (gate ≡ 0xA5 → StandInFile (with_batch halves place (batch_in halves place entries)) head bytes) }
{}

/// Closing the first gate of the older half retires it: the newer half becomes the older one, or nothing is live and the next batch
/// goes to half 0.
pub fn older_half_is_retired_in_a_file()
    ensures { (halves : Halves) (head rest newer last bytes : List ℕ) (gate : ℕ) → IsFile head halves.at (gate ∷ rest) newer last bytes
        → gate ≢ 0xA5
        → HalvesStand halves (0xA5 ∷ rest) newer → StandInFile (after_retire halves) head bytes }
{}
