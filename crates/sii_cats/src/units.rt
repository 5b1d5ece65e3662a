//! FMMU categories (type 40; ETG.1000.6 and ETG.2010).

ghost use Rattle.std.specs.Prelude.{◌≡◌, map, IfOk};
ghost use Rattle.sii_cats.specs.Bytes.{bytes_of, padded};
ghost use Rattle.sii_cats.specs.Contents.{AreUnits, in_pairs, unit_bytes, use_of};

use crate::bytes::packed;
use sii_words::bytes_of_words;
use std::alloc::{AllocError, Global};

/// One FMMU in an FMMU category (ETG.1000.6 and ETG.2010).
#[derive(Clone, Copy)]
pub struct FmmuUnit {
    /// Its byte, kept as it is: 0x00 or 0xFF unused, 1 outputs, 2 inputs, 3 SyncM status.
    pub byte: u8,
}

/// What an FMMU is used for (ETG.1000.6 and ETG.2010, category FMMU).
#[derive(Clone, Copy)]
pub enum FmmuUse {
    /// Not used: 0x00 or 0xFF.
    Unused,
    /// Outputs: 1.
    Outputs,
    /// Inputs: 2.
    Inputs,
    /// Status of a sync manager: 3.
    SyncManagerStatus,
    /// Any other byte. It isn't judged.
    Other,
}

impl FmmuUnit {
    /// What the FMMU is used for.
    pub fn usage(self) -> FmmuUse
        ensures { result ≡ use_of self.byte }
    {
        match self.byte {
            0x00 | 0xFF => FmmuUse::Unused,
            1 => FmmuUse::Outputs,
            2 => FmmuUse::Inputs,
            3 => FmmuUse::SyncManagerStatus,
            _ => FmmuUse::Other,
        }
    }
}

fn units_of(alloc: Global, bytes: &[u8]) -> Result<Vec<FmmuUnit>, AllocError>
    ensures { IfOk result (λ v. v.items ≡ map (λ byte. record { byte = byte }) bytes.now) }
{
    bytes
        .iter()
        .map(|byte| FmmuUnit { byte: *byte })
        .collect(alloc)
}

/// Reads the content of an FMMU category: one unit for each byte. Any content can be read.
///
/// # Errors
///
/// `AllocError` if memory was refused.
pub fn fmmus(alloc: Global, words: &[u16]) -> Result<Vec<FmmuUnit>, AllocError>
    ensures { IfOk result (λ v. AreUnits (bytes_of words.now) v.items) }
{
    units_of(alloc, &bytes_of_words(alloc, words)?)
}

fn bytes_of_units(alloc: Global, units: &[FmmuUnit]) -> Result<Vec<u8>, AllocError>
    ensures { IfOk result (λ v. v.items ≡ unit_bytes units.now) }
{
    units.iter().map(|unit| unit.byte).collect(alloc)
}

/// The content of an FMMU category with these units. An odd number of units is padded with an unused one, 0x00.
///
/// # Errors
///
/// `AllocError` if memory was refused.
pub fn write_fmmus(alloc: Global, units: &[FmmuUnit]) -> Result<Vec<u16>, AllocError>
    ensures written { IfOk result (λ v. bytes_of v.items ≡ padded (unit_bytes units.now)) }
    ensures read_back { IfOk result (λ v. AreUnits (bytes_of v.items) (in_pairs units.now)) }
{
    packed(alloc, &bytes_of_units(alloc, units)?)
}
