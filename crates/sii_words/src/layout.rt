// Reads and writes what any 64 or more words of an EEPROM have: bytes, identity and check byte.
ghost use Rattle.std.specs.Prelude.{◌≡◌, ◌+◌, ◌*◌, ◌/◌, ◌%◌, ◌<◌, ◌≤◌, ◌↔◌, length, IsTrue, IfOk};
ghost use Rattle.sii_words.specs.Words.{bytes_of, double_word};
ghost use Rattle.sii_words.specs.Identity.{identity_of};
ghost use Rattle.sii_words.specs.CheckByte.{IsChecked};

use crate::check_byte::check_byte;
use crate::identity::Identity;
use std::alloc::{AllocError, Global};

/// Reads words from bytes, each word low byte first. The number of bytes must be even.
///
/// # Errors
///
/// `AllocError` if memory was refused.
pub fn words_of_bytes(alloc: Global, bytes: &[u8]) -> Result<Vec<u16>, AllocError>
    requires { length bytes.now % 2 ≡ 0 }
    ensures words { IfOk result (λ words. bytes_of words.items ≡ bytes.now) }
    ensures count { IfOk result (λ words. length words.items ≡ length bytes.now / 2) }
{
    let mut words = vec![in alloc; 0u16; bytes.len() / 2]?;
    read_bytes(bytes, &mut words);
    Ok(words)
}

/// Makes the words those of the bytes, each word low byte first.
fn read_bytes(bytes: &[u8], words: &mut [u16])
    requires { length bytes.now ≡ 2 * length words.old }
    ensures words { bytes_of words.new ≡ bytes.now }
    ensures count { length words.new ≡ length words.old }
{
    for i in 0..words.len() {
        words[i] = u16::from_le_bytes([bytes[2 * i], bytes[2 * i + 1]]);
    }
}

/// The bytes of these words, each word low byte first.
///
/// # Errors
///
/// `AllocError` if memory was refused.
pub fn bytes_of_words(alloc: Global, words: &[u16]) -> Result<Vec<u8>, AllocError>
    ensures { IfOk result (λ bytes. bytes.items ≡ bytes_of words.now) }
{
    let mut bytes = vec![in alloc; 0u8; 2 * words.len()]?;
    write_bytes(words, &mut bytes);
    Ok(bytes)
}

/// The 32-bit number in words `at` and `at + 1`, the low word first.
fn read_double_word(words: &[u16], at: usize) -> u32
    requires { at + 1 < length words.now }
    ensures { result ≡ double_word words.now at }
{
    u32::from(words[at]) + 65536 * u32::from(words[at + 1])
}

pub(crate) fn identity(words: &[u16]) -> Identity
    requires { 64 ≤ length words.now }
    ensures { result ≡ identity_of words.now }
{
    Identity {
        vendor: read_double_word(words, 8),
        product: read_double_word(words, 10),
        revision: read_double_word(words, 12),
        serial: read_double_word(words, 14),
    }
}

/// Whether the low byte of word 7 is the check byte of words 0 to 6.
pub(crate) fn check_ok(words: &[u16]) -> bool
    requires { 64 ≤ length words.now }
    ensures { IsTrue result ↔ IsChecked words.now }
{
    words[7] % 256 == u16::from(check_byte(words))
}

/// Writes the words into `out` as bytes, each word low byte first.
pub(crate) fn write_bytes(words: &[u16], out: &mut [u8])
    requires { length out.old ≡ 2 * length words.now }
    ensures { out.new ≡ bytes_of words.now }
{
    for (i, word) in words.iter().enumerate() {
        let [low, high] = word.to_le_bytes();
        out[2 * i] = low;
        out[2 * i + 1] = high;
    }
}
