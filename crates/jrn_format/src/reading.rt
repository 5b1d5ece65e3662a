//! Reads a batch, from left to right. Each reader returns a value and the bytes after it.

ghost use Rattle.std.specs.Prelude.{◌≡◌};
ghost use Rattle.std.specs.Int.{w16, w32, w64};
ghost use Rattle.jrn_format.specs.steps.Reading.{Gives, batch_at, counted, entries_of, entry_at, generation_at, number_at, run_at};

use crate::fault::ReadFault;
use crate::journal::{Batch, Entry, EntryList, RunList, Spelling};
use sii_words::{Run, WordList};
use std::alloc::Global;

fn u16_at(bytes: &[u8]) -> Result<(u16, &[u8]), ReadFault>
    ensures { Gives (λ x. (x.0, x.1.now)) result (number_at w16 bytes.now) }
{
    if bytes.len() < 2 {
        return Err(ReadFault::Malformed);
    }
    let (front, rest) = bytes.split_at(2);
    Ok((u16::from_le_bytes([front[0], front[1]]), rest))
}

fn u32_at(bytes: &[u8]) -> Result<(u32, &[u8]), ReadFault>
    ensures { Gives (λ x. (x.0, x.1.now)) result (number_at w32 bytes.now) }
{
    if bytes.len() < 4 {
        return Err(ReadFault::Malformed);
    }
    let (front, rest) = bytes.split_at(4);
    let number = u32::from_le_bytes([front[0], front[1], front[2], front[3]]);
    Ok((number, rest))
}

fn u64_at(bytes: &[u8]) -> Result<(u64, &[u8]), ReadFault>
    ensures { Gives (λ x. (x.0, x.1.now)) result (number_at w64 bytes.now) }
{
    if bytes.len() < 8 {
        return Err(ReadFault::Malformed);
    }
    let (front, rest) = bytes.split_at(8);
    let number = u64::from_le_bytes([
        front[0], front[1], front[2], front[3], front[4], front[5], front[6], front[7],
    ]);
    Ok((number, rest))
}

fn words_of(alloc: Global, count: u16, bytes: &[u8]) -> Result<(WordList, &[u8]), ReadFault>
    ensures { Gives (λ x. (x.0, x.1.now)) result (counted (number_at w16) count bytes.now) }
{
    let mut words = Vec::new(alloc);
    let mut rest = bytes;
    for _ in 0..count {
        let (word, after) = u16_at(rest)?;
        words.push(word)?;
        rest = after;
    }
    Ok((WordList::from_vec(words), rest))
}

#[tactic(auto, unfolding(crate::specs::steps::Reading::run_at))]
fn run_of(alloc: Global, bytes: &[u8]) -> Result<(Run, &[u8]), ReadFault>
    ensures { Gives (λ x. (x.0, x.1.now)) result (run_at bytes.now) }
{
    let (slave, rest) = u16_at(bytes)?;
    let (first, rest) = u16_at(rest)?;
    let (count, rest) = u16_at(rest)?;
    if count == 0 {
        return Err(ReadFault::Malformed);
    }
    let (words, rest) = words_of(alloc, count, rest)?;
    let run = Run {
        slave,
        first,
        words,
    };
    Ok((run, rest))
}

fn runs_of(alloc: Global, count: u16, bytes: &[u8]) -> Result<(RunList, &[u8]), ReadFault>
    ensures { Gives (λ x. (x.0, x.1.now)) result (counted run_at count bytes.now) }
{
    let mut runs = Vec::new(alloc);
    let mut rest = bytes;
    for _ in 0..count {
        let (run, after) = run_of(alloc, rest)?;
        runs.push(run)?;
        rest = after;
    }
    Ok((RunList::from_vec(runs), rest))
}

#[tactic(auto, unfolding(crate::specs::steps::Reading::entry_at))]
fn entry_of(alloc: Global, bytes: &[u8]) -> Result<(Entry, &[u8]), ReadFault>
    ensures { Gives (λ x. (x.0, x.1.now)) result (entry_at bytes.now) }
{
    let (number, rest) = u64_at(bytes)?;
    let (count, rest) = u16_at(rest)?;
    let (runs, rest) = runs_of(alloc, count, rest)?;
    Ok((Entry { number, runs }, rest))
}

fn counted_entries(alloc: Global, count: u16, bytes: &[u8]) -> Result<(EntryList, &[u8]), ReadFault>
    ensures { Gives (λ x. (x.0, x.1.now)) result (counted entry_at count bytes.now) }
{
    let mut entries = Vec::new(alloc);
    let mut rest = bytes;
    for _ in 0..count {
        let (entry, after) = entry_of(alloc, rest)?;
        entries.push(entry)?;
        rest = after;
    }
    Ok((EntryList::from_vec(entries), rest))
}

/// Reads a payload, all of its bytes, as at least one entry.
#[tactic(auto, unfolding(crate::specs::steps::Reading::entries_of))]
fn entries(alloc: Global, payload: &[u8]) -> Result<EntryList, ReadFault>
    ensures { Gives (λ entries. entries) result (entries_of payload.now) }
{
    let (count, rest) = u16_at(payload)?;
    let (entries, rest) = counted_entries(alloc, count, rest)?;
    if count == 0 || !rest.is_empty() {
        return Err(ReadFault::Malformed);
    }
    Ok(entries)
}

/// Reads the generation byte; in the encoding of version 1 it is 0, and no byte is read.
#[tactic(auto, unfolding(crate::specs::steps::Reading::generation_at))]
fn generation_of(spelling: Spelling, bytes: &[u8]) -> Result<(u8, &[u8]), ReadFault>
    ensures { Gives (λ x. (x.0, x.1.now)) result (generation_at spelling bytes.now) }
{
    match (spelling, bytes) {
        (Spelling::Plain, _) => Ok((0, bytes)),
        (Spelling::WithGeneration, [generation, rest @ ..]) => Ok((*generation, rest)),
        (Spelling::WithGeneration, []) => Err(ReadFault::Malformed),
    }
}

/// Reads the batch after an open gate, and returns it with the bytes from the next gate on, at least one.
#[tactic(auto, unfolding(crate::specs::steps::Reading::batch_at))]
pub(crate) fn batch_of(
    alloc: Global,
    spelling: Spelling,
    half: u8,
    bytes: &[u8],
) -> Result<(Batch, &[u8]), ReadFault>
    ensures { Gives (λ x. (x.0, x.1.now)) result (batch_at spelling half bytes.now) }
{
    let (generation, rest) = generation_of(spelling, bytes)?;
    let (length, rest) = u32_at(rest)?;
    let length = length as usize;
    if rest.len() <= length {
        return Err(ReadFault::Malformed);
    }
    let (payload, rest) = rest.split_at(length);
    let entries = entries(alloc, payload)?;
    let batch = Batch {
        half,
        generation,
        entries,
    };
    Ok((batch, rest))
}
