//! STRINGS categories (type 10; ETG.1000.6 and ETG.2010).

ghost use Rattle.std.specs.Prelude.{◌≡◌, ◌<◌, ◌++◌, ◌∷◌, ◌↔◌, length, IsTrue, All, IfOk, OnOk, Ok};
ghost use Rattle.std.specs.List.{flat_map};
ghost use Rattle.sii_cats.specs.Bytes.{bytes_of, padded};
ghost use Rattle.sii_cats.specs.steps.Items.{counted};
ghost use Rattle.sii_cats.specs.Strings.{AreStrings, texts, AreWritable, all_bytes, string_bytes};
ghost use Rattle.sii_cats.specs.steps.Strings.{string_at, strings_in, strings_of};
ghost use Rattle.sii_cats.specs.Reading.{Answers, Writes};
ghost use Rattle.sii_cats.specs.steps.Reading.{Gives};

use crate::bytes::packed;
use crate::fault::CatFault;
use crate::kind::STRINGS;
use sii_words::bytes_of_words;
use std::alloc::{AllocError, Global};

const MALFORMED: CatFault = CatFault::BadCategory { kind: STRINGS };

fn string_of(alloc: Global, bytes: &[u8]) -> Result<(Vec<u8>, &[u8]), CatFault>
    ensures { Gives (λ x. (x.0.items, x.1.now)) 10 result (string_at bytes.now) }
{
    match bytes {
        [count, rest @ ..] if (*count as usize) <= rest.len() => {
            let (string, rest) = rest.split_at(*count as usize);
            Ok((Vec::from_slice(alloc, string)?, rest))
        }
        _ => Err(MALFORMED),
    }
}

fn read_strings(alloc: Global, count: u8, bytes: &[u8]) -> Result<(Vec<Vec<u8>>, &[u8]), CatFault>
    ensures { Gives (λ x. (texts x.0.items, x.1.now)) 10 result
        (counted string_at count bytes.now) }
{
    let mut strings = Vec::new(alloc);
    let mut rest = bytes;
    for _ in 0..count {
        let (string, after) = string_of(alloc, rest)?;
        strings.push(string)?;
        rest = after;
    }
    Ok((strings, rest))
}

fn all_strings(alloc: Global, bytes: &[u8]) -> Result<Vec<Vec<u8>>, CatFault>
    ensures { Gives (λ v. texts v.items) 10 result (strings_in bytes.now) }
{
    match bytes {
        [] => Ok(Vec::new(alloc)),
        [count, rest @ ..] => {
            let (strings, _) = read_strings(alloc, *count, rest)?;
            Ok(strings)
        }
    }
}

/// Reads the content of a STRINGS category (ETG.1000.6 and ETG.2010): its strings, string 1 first. Empty content has no
/// strings, and bytes after the last string are ignored.
///
/// # Errors
///
/// `BadCategory` if the bytes end before the last string does. Or `Memory` in place of any answer if memory was refused.
pub fn strings(alloc: Global, words: &[u16]) -> Result<Vec<Vec<u8>>, CatFault>
    ensures grammar { Answers (λ v. texts v.items) (AreStrings (bytes_of words.now)) 10 result }
    ensures exact { Gives (λ v. texts v.items) 10 result (strings_of words.now) }
{
    all_strings(alloc, &bytes_of_words(alloc, words)?)
}

fn are_writable(strings: &[Vec<u8>]) -> bool
    ensures { IsTrue result ↔ ((length strings.now < 256)
        × All (λ string. length string.items < 256) strings.now) }
{
    strings.len() < 256 && strings.iter().all(|string| string.as_slice().len() < 256)
}

/// Adds a string: its length, and its bytes.
fn write_string(bytes: &mut Vec<u8>, string: &[u8]) -> Result<(), AllocError>
    requires { length string.now < 256 }
    ensures { OnOk result (bytes.new.items ≡ bytes.old.items ++ string_bytes string.now) }
{
    bytes.push(string.len() as u8)?;
    bytes.extend_from_slice(string)
}

fn write_all(alloc: Global, strings: &[Vec<u8>]) -> Result<Vec<u8>, AllocError>
    requires few { length strings.now < 256 }
    requires short { All (λ string. length string.items < 256) strings.now }
    ensures { IfOk result (λ v. v.items ≡ all_bytes (texts strings.now)) }
{
    let mut bytes = Vec::new(alloc);
    bytes.push(strings.len() as u8)?;
    for string in strings {
        write_string(&mut bytes, string.as_slice())?;
    }
    Ok(bytes)
}

/// The content of a STRINGS category with these strings, padded to a whole word with 0x00.
///
/// # Errors
///
/// `BadCategory` if there are more than 255 strings or a string has more than 255 bytes. Or `Memory` in place of any answer if
/// memory was refused.
pub fn write_strings(alloc: Global, strings: &[Vec<u8>]) -> Result<Vec<u16>, CatFault>
    ensures written { Writes (λ v. bytes_of v.items) (AreWritable (texts strings.now)) 10 result
        (padded (all_bytes (texts strings.now))) }
    ensures read_back { IfOk result (λ v. AreStrings (bytes_of v.items) (texts strings.now)) }
{
    if !are_writable(strings) {
        return Err(MALFORMED);
    }
    Ok(packed(alloc, &write_all(alloc, strings)?)?)
}
