//! The bytes of a content: its words, low byte first.

ghost use Rattle.std.specs.Prelude.{◌≡◌, ◌<◌, ◌/◌, ◌%◌, ◌++◌, ◌∷◌, [], length, IfOk, OnOk, MatchOption};
ghost use Rattle.sii_cats.specs.Bytes.{bytes_of, padded};

use std::alloc::{AllocError, Global};

/// The word made of a low and a high byte.
pub(crate) fn pair(low: u8, high: u8) -> u16
    ensures { bytes_of (result ∷ []) ≡ low ∷ high ∷ [] }
{
    u16::from_le_bytes([low, high])
}

/// The low and the high byte of a word.
pub(crate) fn halves(word: u16) -> (u8, u8)
    ensures { result ≡ (word % 256, word / 256) }
{
    ((word % 256) as u8, (word / 256) as u8)
}

/// Adds four words.
pub(crate) fn push_four(words: &mut Vec<u16>, four: [u16; 4]) -> Result<(), AllocError>
    ensures { OnOk result (words.new.items ≡ words.old.items ++ four) }
{
    words.extend_from_slice(&four)
}

/// The word that begins the bytes, and the bytes after it; `None` if there are no bytes. A single byte is a word with the high
/// byte 0.
fn word_of(bytes: &[u8]) -> Option<(u16, &[u8])>
    ensures { MatchOption result (bytes.now ≡ [])
        (λ x. (padded bytes.now ≡ bytes_of (x.0 ∷ []) ++ padded x.1.now)
        × (length x.1.now < length bytes.now)) }
{
    match bytes {
        [] => None,
        [low, high, rest @ ..] => Some((u16::from_le_bytes([*low, *high]), rest)),
        [low, rest @ ..] => Some((u16::from(*low), rest)),
    }
}

/// Packs bytes into words, each word low byte first. An odd number of bytes is padded with 0x00.
///
/// # Errors
///
/// `AllocError` if memory was refused.
pub(crate) fn packed(alloc: Global, bytes: &[u8]) -> Result<Vec<u16>, AllocError>
    ensures { IfOk result (λ v. bytes_of v.items ≡ padded bytes.now) }
{
    let mut words = Vec::new(alloc);
    let mut rest = bytes;
    while let Some((word, after)) = word_of(rest) {
        words.push(word)?;
        rest = after;
    }
    Ok(words)
}
