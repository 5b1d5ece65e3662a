//! Whether bytes are as a case expects them.

use crate::contents::bytes_of;
use std::alloc::{AllocError, Global};
use std::io;
use toml::{Table, Value};

/// Whether bytes have what is expected of them.
///
/// # Errors
///
/// What is expected is malformed, or memory was refused.
pub(crate) fn fits(
    alloc: Global,
    named: &Table,
    expected: &Value,
    bytes: &[u8],
) -> io::Result<bool> {
    match expected {
        Value::Boolean(true) => Ok(!bytes.is_empty()),
        Value::Table(parts) if is_pattern(parts) => fits_all(alloc, named, parts, bytes),
        contents => Ok(bytes_of(alloc, named, contents)?.as_slice() == bytes),
    }
}

/// Whether a table is no contents.
fn is_pattern(parts: &Table) -> bool {
    parts.get("size").is_none() && parts.get("text").is_none()
}

fn fits_all(alloc: Global, named: &Table, parts: &Table, bytes: &[u8]) -> io::Result<bool> {
    for (key, part) in parts.iter() {
        if !fits_part(alloc, named, key.as_str(), part, bytes)? {
            return Ok(false);
        }
    }
    Ok(true)
}

fn fits_part(
    alloc: Global,
    named: &Table,
    key: &str,
    part: &Value,
    bytes: &[u8],
) -> io::Result<bool> {
    match key {
        "has" => Ok(has_text(bytes, part.as_str().unwrap_or("\0"))),
        "begins" => Ok(bytes.starts_with(&bytes_of(alloc, named, part)?)),
        "ends" => Ok(bytes.ends_with(&bytes_of(alloc, named, part)?)),
        _ => Err(io::Error::other("an unknown expectation")),
    }
}

fn has_text(bytes: &[u8], part: &str) -> bool {
    str::from_utf8(bytes).unwrap_or("").contains(part)
}

/// Whether each option that a help names stands in a page after this text.
///
/// # Errors
///
/// Memory was refused.
pub fn has_options(
    alloc: Global,
    page: &[u8],
    help: &[u8],
    before: &str,
) -> Result<bool, AllocError> {
    let help = str::from_utf8(help).unwrap_or("");
    for word in help.split_ascii_whitespace() {
        if let Some(option) = word.strip_prefix("--") {
            if !has_text(page, format!(in alloc; "{before}{option}")?.as_str()) {
                return Ok(false);
            }
        }
    }
    Ok(true)
}
