//! The contents of files and streams, as cases say them.

use std::alloc::{AllocError, Global};
use std::io;
use toml::{Table, Value};

/// The bytes of contents.
///
/// # Errors
///
/// The contents are malformed, or memory was refused.
pub fn bytes_of(alloc: Global, named: &Table, contents: &Value) -> io::Result<Vec<u8>> {
    match contents {
        Value::Array(parts) => join(alloc, named, parts.as_slice()),
        part => part_of(alloc, named, part),
    }
}

fn join(alloc: Global, named: &Table, parts: &[Value]) -> io::Result<Vec<u8>> {
    let mut bytes = Vec::new(alloc);
    for part in parts {
        bytes.extend_from_slice(&part_of(alloc, named, part)?)?;
    }
    Ok(bytes)
}

/// The bytes of contents, which may be named ones.
fn part_of(alloc: Global, named: &Table, part: &Value) -> io::Result<Vec<u8>> {
    let name = match part {
        Value::String(text) => text.as_str().strip_prefix("@"),
        _ => None,
    };
    match name {
        Some(name) => match named.get(name) {
            Some(contents) => plain(alloc, contents),
            None => Err(io::Error::other("no contents have this name")),
        },
        None => plain(alloc, part),
    }
}

/// The bytes of contents that name no others.
fn plain(alloc: Global, contents: &Value) -> io::Result<Vec<u8>> {
    match contents {
        Value::String(text) => Ok(text.as_bytes().to_vec(alloc)?),
        Value::Table(table) => match (table.get("text"), table.get("size")) {
            (Some(Value::String(text)), None) => {
                let times = number_of(table.get("times"));
                Ok(text.as_bytes().repeat(alloc, times)?)
            }
            (None, Some(size)) => patched(alloc, number_of(Some(size)), table),
            _ => Err(io::Error::other("malformed contents")),
        },
        _ => Err(io::Error::other("malformed contents")),
    }
}

/// A number of bytes or of repetitions; 0 where there is none.
pub(crate) fn number_of(value: Option<&Value>) -> usize {
    match value {
        Some(Value::Integer(number)) => usize::try_from(*number).unwrap_or(0),
        _ => 0,
    }
}

/// So many bytes that are 0 except at the offsets of a table.
fn patched(alloc: Global, size: usize, table: &Table) -> io::Result<Vec<u8>> {
    let mut bytes = vec![in alloc; 0u8; size]?;
    for (key, value) in table.iter() {
        if key.as_str() != "size" {
            put_part(alloc, &mut bytes, key.as_str(), value)?;
        }
    }
    Ok(bytes)
}

/// Puts the bytes of a value of a table in at the offset that is its key.
fn put_part(alloc: Global, bytes: &mut [u8], key: &str, value: &Value) -> io::Result<()> {
    let at = key.parse::<usize>().unwrap_or(usize::MAX);
    let part = part_bytes(alloc, value)?;
    match at.checked_add(part.len()) {
        Some(end) if end <= bytes.len() && !part.is_empty() => {
            patch(bytes, at, &part);
            Ok(())
        }
        _ => Err(io::Error::other("no bytes at an offset")),
    }
}

/// Puts bytes in at an offset, as far as there is room.
fn patch(bytes: &mut [u8], at: usize, part: &[u8]) {
    for (byte, value) in bytes.iter_mut().skip(at).zip(part) {
        *byte = *value;
    }
}

/// The bytes of hexadecimal text, which may be repeated.
fn part_bytes(alloc: Global, value: &Value) -> io::Result<Vec<u8>> {
    let text = value.as_str().unwrap_or("");
    let (digits, times) = match text.split_once(" * ") {
        Some((digits, times)) => (digits, times.parse::<usize>().unwrap_or(0)),
        None => (text, 1),
    };
    match hex::decode(alloc, &digits_of(alloc, digits)?) {
        Ok(bytes) => Ok(bytes.repeat(alloc, times)?),
        Err(_) => Err(io::Error::other("malformed hexadecimal text")),
    }
}

/// The text without its ASCII white space.
fn digits_of(alloc: Global, text: &str) -> Result<Vec<u8>, AllocError> {
    let mut digits = Vec::new(alloc);
    for byte in text.as_bytes() {
        if !byte.is_ascii_whitespace() {
            digits.push(*byte)?;
        }
    }
    Ok(digits)
}
