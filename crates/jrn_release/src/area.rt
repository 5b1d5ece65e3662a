//! The batches of an area or a half without what they have for one slave, as bytes.
ghost use Rattle.std.specs.Prelude.{◌≡◌, ◌+◌, ◌≤◌, ◌++◌, length, All, IfOk, OnOk};
ghost use Rattle.jrn_format.specs.Batch.{spelt_batch};
ghost use Rattle.jrn_release.specs.Without.{batch_without, of_half, over, placed, CanBeSpelt};

use crate::entries::entries_without;
use jrn_format::{Batch, CLOSED, OPEN, Spelling, encode_batch};
use std::alloc::{AllocError, Global};

/// Appends a live batch without what it has for this slave.
fn put_batch(
    alloc: Global,
    bytes: &mut Vec<u8>,
    spelling: Spelling,
    batch: &Batch,
    slave: u16,
) -> Result<(), AllocError>
    requires { CanBeSpelt batch.now }
    ensures { OnOk result (bytes.new.items ≡ bytes.old.items ++ spelt_batch spelling (batch_without slave batch.now)) }
{
    let entries = entries_without(alloc, batch.entries.as_slice(), slave)?;
    let mut spelt = encode_batch(alloc, batch.generation, &entries)?;
    spelt.truncate(spelt.len() - 1);
    bytes.push(OPEN)?;
    match spelling {
        Spelling::Plain => bytes.extend_from_slice(&spelt[1..]),
        Spelling::WithGeneration => bytes.extend_from_slice(&spelt),
    }
}

/// The batches of this half without what they have for this slave, and a closed gate.
pub(crate) fn spell_half(
    alloc: Global,
    spelling: Spelling,
    half: u8,
    batches: &[Batch],
    slave: u16,
) -> Result<Vec<u8>, AllocError>
    requires { All CanBeSpelt batches.now }
    ensures { IfOk result (λ bytes. bytes.items ≡ over slave spelling (of_half half batches.now)) }
{
    let mut bytes = Vec::new(alloc);
    for batch in batches {
        if batch.half == half {
            put_batch(alloc, &mut bytes, spelling, batch, slave)?;
        }
    }
    bytes.push(CLOSED)?;
    Ok(bytes)
}

/// Writes bytes over others, from this place on.
pub(crate) fn overwrite(bytes: &mut Vec<u8>, at: usize, others: &[u8])
    requires { at + length others.now ≤ length bytes.old.items }
    ensures { bytes.new.items ≡ placed at others.now bytes.old.items }
{
    bytes[at..at + others.len()].copy_from_slice(others);
}
