//! Laws of the lengths of entries, payloads and batches, in bytes.

ghost use Rattle.std.specs.Prelude.{◌≡◌, ◌+◌, ◌≤◌, ◌<◌, ◌^◌, List, [], ◌∷◌, ◌++◌, length, All};
ghost use Rattle.std.specs.List.{sum_by};
ghost use Rattle.sii_words.specs.declared.run.Run.{Run};
ghost use Rattle.jrn_format.specs.declared.journal.Entry.{Entry};
ghost use Rattle.jrn_format.specs.declared.journal.Batch.{Batch};
ghost use Rattle.jrn_format.specs.declared.journal.Spelling.TheVariants.{Plain, WithGeneration};
ghost use Rattle.jrn_format.specs.Batch.{spelt_payload, spelt_batch, entry_size};
ghost use Rattle.jrn_format.specs.Halves.{entries_size};

/// A payload takes 2 bytes and those of its entries.
pub fn size_of_a_payload()
    ensures { (entries : List Entry) → length (spelt_payload entries) ≡ 2 + sum_by (λ entry. entry_size entry.runs) entries }
{}

/// One more entry adds its own length to the payload's.
pub fn size_with_one_more()
    ensures { (entries : List Entry) (entry : Entry)
        → length (spelt_payload (entries ++ entry ∷ [])) ≡ length (spelt_payload entries) + entry_size entry.runs }
{}

/// A batch takes 6 bytes more than its payload; in version 1, 5 bytes more.
pub fn size_of_a_batch()
    ensures with_generation { (batch : Batch) → length (spelt_batch WithGeneration batch) ≡ entries_size batch.entries }
    ensures plain { (batch : Batch) → length (spelt_batch Plain batch) ≡ 5 + length (spelt_payload batch.entries) }
{}

/// The length of an entry with at most 65,535 runs of at most 4,096 words each fits into 32 bits.
pub fn size_of_a_command_fits()
    ensures { (runs : List Run) → length runs ≤ 65535 → All (λ run. length run.words ≤ 4096) runs → entry_size runs < 2 ^ 32 }
{}
