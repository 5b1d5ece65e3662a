//! Laws of an empty journal: as formatted, and at each step of a migration. Nothing is live in it.

ghost use Rattle.std.specs.Prelude.{◌≡◌, ◌≢◌, ◌<◌, ◌≤◌, ◌^◌, ℕ, List, ◌∷◌, ◌++◌, length, take, drop, replicate};
ghost use Rattle.jrn_format.specs.declared.journal.Batch.{Batch};
ghost use Rattle.jrn_format.specs.declared.journal.Form.{Form};
ghost use Rattle.jrn_format.specs.declared.journal.Form.TheVariants.{One, Two};
ghost use Rattle.jrn_format.specs.Header.{header_bytes, IsCapacity};
ghost use Rattle.jrn_format.specs.Journal.{IsJournal};
ghost use Rattle.jrn_format.specs.Migration.{IsEmptyJournal, IsClosedFile, IsReady};

/// A header of version 2 followed by an area of zeros is a journal of version 2 in which nothing is live.
pub fn formatted()
    ensures { (sizes : List ℕ) (capacity : ℕ) (rest file : List ℕ) → length sizes < 2 ^ 16 → IsCapacity capacity
        → file ≡ header_bytes 2 (length sizes) capacity ++ (replicate capacity 0 ++ rest) → IsEmptyJournal file sizes Two }
{}

/// While the version byte is 1 and the first gate is closed, the file is an empty journal of version 1, whatever the other bytes of
/// the area are.
pub fn stopped_before_the_version()
    ensures { (sizes area rest file : List ℕ) → IsClosedFile 1 sizes area rest file → IsEmptyJournal file sizes One }
{}

/// Once the area is ready for the version byte, the file is an empty journal of some form, whatever value a torn version byte has.
pub fn stopped_at_the_version()
    ensures { (version : ℕ) (sizes area rest file : List ℕ) → IsClosedFile version sizes area rest file → IsReady area rest
        → (form : Form) × IsEmptyJournal file sizes form }
{}

/// Once the area is ready and the version byte is 2, the file is an empty journal of version 2.
pub fn migrated()
    ensures { (sizes area rest file : List ℕ) → IsClosedFile 2 sizes area rest file → IsReady area rest → IsEmptyJournal file sizes Two }
{}

/// Closing the first gate of a journal of version 1 retires all its batches.
pub fn version_1_is_retired()
    ensures { (file sizes : List ℕ) (batches : List Batch) (gate : ℕ) → IsJournal file sizes (record { form = One; batches = batches })
        → gate ≢ 0xA5
        → (area : List ℕ) × (rest : List ℕ) × IsClosedFile 1 sizes area rest (take 8 file ++ gate ∷ drop 9 file) }
{}

/// Overwriting bytes after the first gate, as by a torn mark or a torn gate of half 1, leaves that gate closed.
pub fn bytes_after_the_gate_change()
    ensures { (version : ℕ) (sizes p q over r rest file image : List ℕ) → IsClosedFile version sizes (p ++ (q ++ r)) rest file
        → 1 ≤ length p → length over ≡ length q
        → image ≡ (header_bytes version (length sizes) (length (p ++ (q ++ r))) ++ p) ++ (over ++ (r ++ rest))
        → IsClosedFile version sizes (p ++ (over ++ r)) rest image }
{}

/// Overwriting the version byte, as by a torn write, changes nothing else in the file.
pub fn version_byte_changes()
    ensures { (old new : ℕ) (sizes area rest file : List ℕ) → IsClosedFile old sizes area rest file
        → IsClosedFile new sizes area rest (take 1 file ++ new ∷ drop 2 file) }
{}

/// Once the mark follows the closed first gate, and the first gate of half 1 is closed, the version byte may be written.
pub fn marked_file_is_ready()
    ensures { (gate far : ℕ) (first second odd rest : List ℕ) → gate ≢ 0xA5 → far ≢ 0xA5
        → length (gate ∷ 0x4d ∷ 0x49 ∷ 0x47 ∷ 0x32 ∷ first) ≡ length (far ∷ second) → length odd < 2
        → IsReady ((gate ∷ 0x4d ∷ 0x49 ∷ 0x47 ∷ 0x32 ∷ first) ++ ((far ∷ second) ++ odd)) rest }
{}
