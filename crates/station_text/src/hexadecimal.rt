//! Reads and writes hexadecimal text.
ghost use Rattle.std.specs.Prelude.{◌≡◌, IfOk, IsErr, IsErrOf};
ghost use Rattle.hex.specs.Hex.{decode_of, encode_lower};
ghost use Rattle.sii_words.specs.Words.{bytes_of};
ghost use Rattle.station_text.specs.Hexadecimal.{without_whitespace};
ghost use Rattle.station_text.specs.Reading.{Reads};

use hex::FromHexError;
use sii_words::words_of_bytes;
use std::alloc::{AllocError, Global};

/// Why a text gives no bytes.
#[derive(Clone, Copy)]
pub enum HexFault {
    /// Memory was refused.
    Memory,
    /// The text is not pairs of hexadecimal digits.
    BadHex,
}

/// Reads bytes of two hexadecimal digits each, of either case. Spaces, tabs, line feeds, form feeds and carriage returns are skipped.
///
/// # Errors
///
/// `BadHex` where the text without these characters is not pairs of hexadecimal digits; `Memory` at any point.
pub fn read_hex(alloc: Global, text: &str) -> Result<Vec<u8>, HexFault>
    ensures ok { IfOk result (λ bytes. decode_of (without_whitespace text.now) ≡ Ok bytes.items) }
    ensures bad { IsErrOf result HexFault.BadHex → IsErr (decode_of (without_whitespace text.now)) }
{
    let digits = digits_of(alloc, text)?;
    decode_digits(alloc, &digits)
}

/// The bytes of these hexadecimal digits.
fn decode_digits(alloc: Global, digits: &[u8]) -> Result<Vec<u8>, HexFault>
    ensures ok { IfOk result (λ bytes. decode_of digits.now ≡ Ok bytes.items) }
    ensures bad { IsErrOf result HexFault.BadHex → IsErr (decode_of digits.now) }
{
    match hex::decode(alloc, digits) {
        Ok(bytes) => Ok(bytes),
        Err(FromHexError::OutOfMemory) => Err(HexFault::Memory),
        Err(_) => Err(HexFault::BadHex),
    }
}

/// The text without its ASCII white space.
fn digits_of(alloc: Global, text: &str) -> Result<Vec<u8>, AllocError>
    ensures { IfOk result (λ digits. digits.items ≡ without_whitespace text.now) }
{
    text.as_bytes()
        .iter()
        .copied()
        .filter(|byte| !byte.is_ascii_whitespace())
        .collect(alloc)
}

/// Reads words of two bytes each, low byte first, with two hexadecimal digits of either case for each byte. No character is skipped.
pub(crate) fn read_hex_words(alloc: Global, text: &str) -> Result<Vec<u16>, HexFault>
    ensures { Reads HexFault.Memory (λ words. words.items) (λ words. decode_of text.now ≡ Ok (bytes_of words)) result }
{
    let bytes = decode_digits(alloc, text.as_bytes())?;
    if bytes.len() % 2 != 0 {
        return Err(HexFault::BadHex);
    }
    Ok(words_of_bytes(alloc, &bytes)?)
}

/// Writes bytes as lower case hexadecimal digits, 16 bytes a line.
///
/// # Errors
///
/// Memory was refused.
pub fn hex_lines(alloc: Global, bytes: &[u8]) -> Result<Vec<u8>, AllocError>
    ensures { IfOk result (λ text. without_whitespace text.items ≡ encode_lower bytes.now) }
{
    let digits = hex::encode(alloc, bytes)?;
    let mut text = Vec::new(alloc);
    for line in digits.as_bytes().chunks(32) {
        text.extend_from_slice(line)?;
        text.push(b'\n')?;
    }
    Ok(text)
}

impl From<AllocError> for HexFault {
    ghost use Rattle.station_text.specs.declared.hexadecimal.HexFault.TheVariants.{Memory};

    ghost from_gives = { λ _ fault. fault ≡ Memory };

    fn from(_: AllocError) -> Self {
        HexFault::Memory
    }
}
