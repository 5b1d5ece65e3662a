//! Writes the bytes of a batch.

ghost use Rattle.std.specs.Prelude.{◌≡◌, ◌+◌, ◌<◌, ◌^◌, ◌++◌, [], ◌∷◌, ℕ, length, OnOk, IfOk, All};
ghost use Rattle.std.specs.Int.{w16, w32, to_le_bytes};
ghost use Rattle.jrn_format.specs.Batch.{AreCounted, AreCountedRuns, IsCountedRun, EntryFits, PayloadFits, RunFits, entry_size, spelt_after, spelt_entry, spelt_payload, spelt_run};
ghost use Rattle.jrn_format.specs.declared.journal.Entry.{Entry};

use crate::journal::{Entry, Spelling};
use sii_words::Run;
use std::alloc::{AllocError, Global};

/// The value of a closed gate as this crate writes it, after each batch.
pub const CLOSED: u8 = 0x00;

fn put_u16(out: &mut Vec<u8>, number: u16) -> Result<(), AllocError>
    ensures { OnOk result (out.new.items ≡ out.old.items ++ to_le_bytes w16 number) }
{
    out.extend_from_slice(&number.to_le_bytes())
}

fn put_run(out: &mut Vec<u8>, run: &Run) -> Result<(), AllocError>
    requires { IsCountedRun run.now }
    ensures spelt { OnOk result (out.new.items ≡ out.old.items ++ spelt_run run.now) }
    ensures fits { OnOk result (RunFits run.now) }
{
    let words = run.words.as_slice();
    put_u16(out, run.slave)?;
    put_u16(out, run.first)?;
    put_u16(out, words.len() as u16)?;
    for word in words {
        put_u16(out, *word)?;
    }
    Ok(())
}

fn put_entry(out: &mut Vec<u8>, entry: &Entry) -> Result<(), AllocError>
    requires { AreCountedRuns entry.now.runs }
    ensures spelt { OnOk result (out.new.items ≡ out.old.items ++ spelt_entry entry.now) }
    ensures fits { OnOk result (EntryFits entry.now) }
{
    let runs = entry.runs.as_slice();
    out.extend_from_slice(&entry.number.to_le_bytes())?;
    put_u16(out, runs.len() as u16)?;
    for run in runs {
        put_run(out, run)?;
    }
    Ok(())
}

fn payload(alloc: Global, entries: &[Entry]) -> Result<Vec<u8>, AllocError>
    requires { AreCounted entries.now }
    ensures spelt { IfOk result (λ bytes. bytes.items ≡ spelt_payload entries.now) }
    ensures fit { OnOk result (PayloadFits entries.now) }
{
    let mut bytes = Vec::new(alloc);
    put_u16(&mut bytes, entries.len() as u16)?;
    for entry in entries {
        put_entry(&mut bytes, entry)?;
    }
    Ok(bytes)
}

fn put_batch(bytes: &mut Vec<u8>, generation: u8, payload: &[u8]) -> Result<(), AllocError>
    requires { length payload.now < 2 ^ 32 }
    ensures { OnOk result (bytes.new.items
        ≡ bytes.old.items ++ generation ∷ to_le_bytes w32 (length payload.now) ++ payload.now ++ CLOSED ∷ []) }
{
    bytes.push(generation)?;
    bytes.extend_from_slice(&(payload.len() as u32).to_le_bytes())?;
    bytes.extend_from_slice(payload)?;
    bytes.push(CLOSED)?;
    Ok(())
}

/// Encodes a batch of version 2: the bytes after its gate, and a closed gate at the end.
///
/// It requires 1 to 65,535 entries, each with fewer than 65,536 runs of 1 to 65,535 words, and a payload shorter than 2^32
/// bytes.
///
/// # Errors
///
/// `AllocError` if memory was refused.
pub fn encode_batch(alloc: Global, generation: u8, entries: &[Entry]) -> Result<Vec<u8>, AllocError>
    requires { AreCounted entries.now }
    ensures spelt { IfOk result (λ bytes. bytes.items
        ≡ spelt_after Spelling.WithGeneration generation entries.now ++ CLOSED ∷ []) }
    ensures fits { OnOk result (PayloadFits entries.now) }
{
    let payload = payload(alloc, entries)?;
    let mut bytes = Vec::new(alloc);
    put_batch(&mut bytes, generation, &payload)?;
    Ok(bytes)
}

/// The length of these runs in a payload, in bytes.
fn runs_size(runs: &[Run]) -> u32
    requires counted { AreCountedRuns runs.now }
    requires fits { entry_size runs.now < 2 ^ 32 }
    ensures { 10 + result ≡ entry_size runs.now }
{
    runs.iter()
        .map(|run| 6 + 2 * run.words.as_slice().len() as u32)
        .sum()
}

/// The length in a payload of an entry with these runs, in bytes.
///
/// It requires fewer than 65,536 runs of 1 to 65,535 words each, and a result less than 2^32.
pub fn size_of(runs: &[Run]) -> u32
    requires counted { AreCountedRuns runs.now }
    requires fits { entry_size runs.now < 2 ^ 32 }
    ensures sum { result ≡ entry_size runs.now }
    ensures spelt { (number : ℕ) → length (spelt_entry (record { number = number; runs = runs.now })) ≡ result }
{
    10 + runs_size(runs)
}
