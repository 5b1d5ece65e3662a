ghost use Rattle.std.specs.Prelude.{◌≡◌, ◌≤◌, length, slice_set, false, [], ◌∷◌};
ghost use Rattle.sii_words.specs.CheckByte.{bits_of_byte, check_byte_of};
ghost use Rattle.sii_words.specs.steps.ShiftRegister.{ShiftsThrough};

/// The divisor polynomial `x^8 + x^2 + x + 1` without its leading term.
const DIVISOR: u8 = 0x07;

/// The remainder after one more zero bit.
fn shifted(remainder: u8) -> u8
    ensures { ShiftsThrough (false ∷ []) remainder result }
{
    if remainder >= 0x80 {
        ((remainder - 0x80) * 2) ^ DIVISOR
    } else {
        remainder * 2
    }
}

/// The remainder after one more byte.
fn folded(remainder: u8, byte: u8) -> u8
    ensures { ShiftsThrough (bits_of_byte byte) remainder result }
{
    let mut next = remainder ^ byte;
    for _ in 0..8u8 {
        next = shifted(next);
    }
    next
}

/// The check byte of words 0 to 6.
pub(crate) fn check_byte(words: &[u16]) -> u8
    requires { 7 ≤ length words.now }
    ensures { result ≡ check_byte_of words.now }
{
    let mut remainder = 0xFF;
    for word in &words[..7] {
        let [low, high] = word.to_le_bytes();
        remainder = folded(folded(remainder, low), high);
    }
    remainder
}

/// The check byte of words 0 to 6 once word 4 holds `alias`.
pub(crate) fn check_byte_with(words: &[u16], alias: u16) -> u8
    requires { 7 ≤ length words.now }
    ensures { result ≡ check_byte_of (slice_set words.now 4 alias) }
{
    let mut front = [0; 7];
    front.copy_from_slice(&words[..7]);
    front[4] = alias;
    check_byte(&front)
}
