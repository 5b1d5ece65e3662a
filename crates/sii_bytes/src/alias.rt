//! Sets the alias of an image without taking memory.
ghost use Rattle.std.specs.Prelude.{◌≡◌, ◌≢◌, ◌≤◌, ◌<◌, ℕ, length, slice_index, false, [], ◌∷◌};
ghost use Rattle.sii_words.specs.CheckByte.{IsChecked, bits_of_byte, check_byte_of};
ghost use Rattle.sii_words.specs.Words.{IsImageSize, bytes_of};
ghost use Rattle.sii_words.specs.steps.ShiftRegister.{ShiftsThrough};
ghost use Rattle.sii_edit.specs.Alias.{with_alias};
ghost use Rattle.sii_bytes.specs.Bytes.{Answers, words_in};

use crate::codes::{BAD_CHECK, DONE, words_code};
use sii_words::{WordsFault, is_image_size};

/// The divisor polynomial `x^8 + x^2 + x + 1` without its leading term.
const DIVISOR: u8 = 0x07;

/// The remainder after one more zero bit.
fn shifted(remainder: u8) -> u8
    ensures { ShiftsThrough (false ∷ []) remainder result }
{
    if remainder >= 0x80 {
        ((remainder - 0x80) * 2) ^ DIVISOR
    } else {
        remainder * 2
    }
}

/// The remainder after one more byte.
fn folded(remainder: u8, byte: u8) -> u8
    ensures { ShiftsThrough (bits_of_byte byte) remainder result }
{
    let mut next = remainder ^ byte;
    for _ in 0..8u8 {
        next = shifted(next);
    }
    next
}

/// The check byte of the first seven words (ETG.1000.6), which are fourteen bytes.
fn check_byte(bytes: &[u8]) -> u8
    requires { 14 ≤ length bytes.now }
    ensures check { result ≡ check_byte_of (words_in bytes.now) }
    ensures bytes { (at : ℕ) → slice_index bytes.now at < 256 }
{
    let mut remainder = 0xFF;
    for byte in &bytes[..14] {
        remainder = folded(remainder, *byte);
    }
    remainder
}

/// Sets the configured station alias of an image, and its check byte with it (ETG.1000.6, words 4 and 7), where it lies: no memory is
/// taken, and three bytes at most change. The high byte of word 7 and all other words stay.
///
/// Answers 0; or a code, and the image stays as it was: 1 if the number of bytes is odd; 2 if the image hasn't 64 to 4,096 words; 15 if
/// its check byte is wrong.
pub fn set_alias(bytes: &mut [u8], value: u16) -> u32
    ensures answer { Answers IsImageSize bytes.old result (λ words. IsChecked words × (bytes.new ≡ bytes_of (with_alias words value)))
        (λ words. (result ≡ 15) × ¬ IsChecked words) (bytes.new ≡ bytes.old) }
    ensures memory { result ≢ 20 }
{
    if bytes.len() % 2 != 0 {
        return words_code(WordsFault::OddLength);
    }
    if !is_image_size(bytes.len() / 2) {
        return words_code(WordsFault::BadSize);
    }
    if bytes[14] != check_byte(bytes) {
        return BAD_CHECK;
    }
    let [low, high] = value.to_le_bytes();
    bytes[8] = low;
    bytes[9] = high;
    bytes[14] = check_byte(bytes);
    DONE
}
