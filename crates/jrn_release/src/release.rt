//! A journal's file without what its live batches have for one slave.
ghost use Rattle.std.specs.Prelude.{◌≡◌, ◌+◌, ◌/◌, ◌≤◌, length, All, IfOk};
ghost use Rattle.std.specs.Int.{w32};
ghost use Rattle.jrn_format.specs.Header.{field_at};
ghost use Rattle.jrn_format.specs.declared.journal.Spelling.TheVariants as spelling;
ghost use Rattle.jrn_release.specs.Without.{of_half, over, placed, CanBeSpelt, IsWithout};

use crate::area::{overwrite, spell_half};
use jrn_format::{AREA_START, Batch, Form, JournalFault, Spelling, capacity, scan};
use std::alloc::{AllocError, Global};

/// The bytes of a journal's file, of a line whose slaves have `sizes` words each, without what its live batches have for one slave: the same batches in
/// the same places, with the same commands and numbers, and the other slaves' words. A command of which nothing is left stays, without a word.
///
/// # Errors
///
/// As for `scan`.
pub fn without_slave(
    alloc: Global,
    file: &[u8],
    sizes: &[u16],
    slave: u16,
) -> Result<Vec<u8>, JournalFault>
    ensures { IfOk result (λ bytes. IsWithout slave sizes.now file.now bytes.items) }
{
    let journal = scan(alloc, file, sizes)?;
    let batches = journal.batches.as_slice();
    match journal.form {
        Form::One => {
            let bytes = area_without(alloc, file, batches, slave)?;
            return Ok(bytes);
        }
        Form::Two => {
            let bytes = halves_without(alloc, file, batches, slave)?;
            return Ok(bytes);
        }
        Form::Moving => {
            let bytes = file.to_vec(alloc)?;
            return Ok(bytes);
        }
    }
}

/// The same of version 1, where these batches are live.
fn area_without(
    alloc: Global,
    file: &[u8],
    batches: &[Batch],
    slave: u16,
) -> Result<Vec<u8>, AllocError>
    requires each { All CanBeSpelt batches.now }
    requires fits { 8 + length (over slave spelling.Plain (of_half 0 batches.now)) ≤ length file.now }
    ensures { IfOk result (λ bytes. bytes.items ≡ placed 8 (over slave spelling.Plain (of_half 0 batches.now)) file.now) }
{
    let area = spell_half(alloc, Spelling::Plain, 0, batches, slave)?;
    let mut bytes = file.to_vec(alloc)?;
    overwrite(&mut bytes, AREA_START, &area);
    Ok(bytes)
}

/// The same of version 2.
fn halves_without(
    alloc: Global,
    file: &[u8],
    batches: &[Batch],
    slave: u16,
) -> Result<Vec<u8>, AllocError>
    requires each { All CanBeSpelt batches.now }
    requires first { 8 + length (over slave spelling.WithGeneration (of_half 0 batches.now)) ≤ length file.now }
    requires second { 8 + field_at w32 4 file.now / 2 + length (over slave spelling.WithGeneration (of_half 1 batches.now)) ≤ length file.now }
    ensures { IfOk result (λ bytes. bytes.items ≡ placed (8 + field_at w32 4 file.now / 2) (over slave spelling.WithGeneration (of_half 1 batches.now))
        (placed 8 (over slave spelling.WithGeneration (of_half 0 batches.now)) file.now)) }
{
    let first = spell_half(alloc, Spelling::WithGeneration, 0, batches, slave)?;
    let second = spell_half(alloc, Spelling::WithGeneration, 1, batches, slave)?;
    let begins = AREA_START + capacity(file) as usize / 2;
    let mut bytes = file.to_vec(alloc)?;
    overwrite(&mut bytes, AREA_START, &first);
    overwrite(&mut bytes, begins, &second);
    Ok(bytes)
}
