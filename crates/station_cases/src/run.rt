//! A run of a case: what its keys say.

use crate::cells::Pattern;
use crate::contents::bytes_of;
use crate::shelf::Shelf;
use crate::streams::{ALL, Full, Room, Source, Streams, Then};
use crate::troubles::Trouble;
use std::alloc::{AllocError, Global};
use std::io;
use toml::{Table, Value};

/// The keys of a case.
const KEYS: &[&str] = &[
    "name",
    "each",
    "steps",
    "files",
    "args",
    "typed",
    "input",
    "interrupted",
    "then",
    "takes",
    "terminal",
    "busy",
    "unsaved",
    "error_at",
    "status",
    "output",
    "drawn",
    "faults",
    "unless",
    "any",
    "writes",
    "replaced",
    "left",
    "unchanged",
    "mended",
    "way",
    "first",
    "behind",
    "again",
    "unsynced",
    "totals",
    "images",
    "option",
];

/// A run: what it says itself, what its case says for all of its runs, and the contents that they name.
#[derive(Clone, Copy)]
pub struct Run<'a> {
    pub own: &'a Value,
    pub case: &'a Value,
    pub named: &'a Table,
    /// How many commands an earlier run on its files reported as durable.
    pub durable: usize,
}

impl<'a> Run<'a> {
    /// What is said of the run under this key.
    pub fn said(&self, key: &str) -> Option<&'a Value> {
        match self.own.get(key) {
            Some(value) => Some(value),
            None => self.case.get(key),
        }
    }

    /// The text under this key; empty where there is none.
    pub fn text(&self, key: &str) -> &'a str {
        match self.said(key) {
            Some(Value::String(text)) => text.as_str(),
            _ => "",
        }
    }

    /// The values under this key; none where there is no array.
    pub fn values(&self, key: &str) -> &'a [Value] {
        match self.said(key) {
            Some(Value::Array(values)) => values.as_slice(),
            _ => &[],
        }
    }

    pub fn number(&self, key: &str) -> i64 {
        match self.said(key) {
            Some(Value::Integer(number)) => *number,
            _ => 0,
        }
    }

    /// The number under this key, if there is one.
    pub fn count(&self, key: &str) -> Option<u64> {
        match self.said(key) {
            Some(Value::Integer(number)) => u64::try_from(*number).ok(),
            _ => None,
        }
    }

    pub fn is_said(&self, key: &str) -> bool {
        matches!(self.said(key), Some(Value::Boolean(true)))
    }

    /// Its command line after the program's name.
    pub fn args(&self) -> &'a str {
        match self.own {
            Value::String(args) => args.as_str(),
            _ => self.text("args"),
        }
    }

    /// Its arguments, the program's name first.
    ///
    /// # Errors
    ///
    /// Memory was refused.
    pub fn words(&self, alloc: Global) -> Result<Vec<String>, AllocError> {
        let mut words = parted(alloc, self.args())?;
        if let Some(Value::String(typed)) = self.said("typed") {
            words.push(typed.clone()?)?;
        }
        Ok(words)
    }

    /// The bytes of its standard input.
    ///
    /// # Errors
    ///
    /// The contents are malformed, or memory was refused.
    pub fn input(&self, alloc: Global) -> io::Result<Vec<u8>> {
        match self.said("input") {
            Some(contents) => bytes_of(alloc, self.named, contents),
            None => Ok(Vec::new(alloc)),
        }
    }

    /// Its streams, with this input.
    pub fn streams<'b>(&self, input: &'b [u8]) -> Streams<'b> {
        Streams {
            input: Source {
                rest: input,
                is_interrupted: self.is_said("interrupted"),
                then: then_of(self.text("then")),
            },
            room: room_of(self.count("takes")),
            terminal: self.count("terminal"),
        }
    }

    /// What a power cut or a failure leaves of bytes that weren't synced.
    ///
    /// # Errors
    ///
    /// There is no such pattern.
    pub fn pattern(&self) -> io::Result<Pattern> {
        match self.text("unsynced") {
            "" | "old" => Ok(Pattern::Old),
            "new" => Ok(Pattern::New),
            "torn" => Ok(Pattern::Torn),
            "other" => Ok(Pattern::Fill(0xA5)),
            _ => Err(io::Error::other("an unknown pattern")),
        }
    }

    /// A store with the files of its case.
    ///
    /// # Errors
    ///
    /// The contents of a file are malformed, or memory was refused.
    pub fn shelf(&self, alloc: Global) -> io::Result<Shelf> {
        let mut shelf = Shelf::new(alloc)?;
        put_files(alloc, self.named, self.case.get("files"), &mut shelf)?;
        Ok(shelf)
    }

    /// Makes a store ready for the run.
    ///
    /// # Errors
    ///
    /// A key is unknown, the contents of a file are malformed, or memory was refused.
    pub fn prepare(&self, alloc: Global, shelf: &mut Shelf) -> io::Result<()> {
        if !has_known_keys(self.own) || !has_known_keys(self.case) {
            return Err(io::Error::other("an unknown key"));
        }
        shelf.writes = 0;
        shelf.replaced = 0;
        shelf.is_busy = self.is_said("busy");
        shelf.broken = broken_of(self.text("unsaved"));
        shelf.trouble(trouble_of(self.count("error_at")), self.pattern()?)?;
        put_files(alloc, self.named, self.own.get("files"), shelf)
    }
}

/// Whether a value is a text, or a table that has only keys of a case.
fn has_known_keys(value: &Value) -> bool {
    match value {
        Value::Table(table) => table.keys().all(|key| KEYS.contains(&key.as_str())),
        Value::String(_) => true,
        _ => false,
    }
}

/// The arguments of a command line, whose words are separated by spaces, after the program's name.
pub fn parted(alloc: Global, words: &str) -> Result<Vec<String>, AllocError> {
    let mut args = Vec::new(alloc);
    args.push(String::from_str(alloc, "station")?)?;
    for word in words.split_ascii_whitespace() {
        args.push(String::from_str(alloc, word)?)?;
    }
    Ok(args)
}

fn then_of(text: &str) -> Then {
    match text {
        "failure" => Then::Fails(io::ErrorKind::Other),
        "memory" => Then::Fails(io::ErrorKind::OutOfMemory),
        "more" => Then::GoesOn,
        _ => Then::Ends,
    }
}

fn room_of(takes: Option<u64>) -> Room {
    match takes {
        Some(bytes) => Room {
            bytes: bytes as usize,
            then: Full::Fails,
        },
        None => ALL,
    }
}

fn broken_of(unsaved: &str) -> Option<io::ErrorKind> {
    match unsaved {
        "full" => Some(io::ErrorKind::StorageFull),
        "memory" => Some(io::ErrorKind::OutOfMemory),
        _ => None,
    }
}

fn trouble_of(error_at: Option<u64>) -> Trouble {
    match error_at {
        Some(call) => Trouble::Error(call),
        None => Trouble::Nothing,
    }
}

/// Puts the files of a case or a run into a store.
///
/// # Errors
///
/// The contents of a file are malformed, or memory was refused.
pub(crate) fn put_files(
    alloc: Global,
    named: &Table,
    files: Option<&Value>,
    shelf: &mut Shelf,
) -> io::Result<()> {
    if let Some(Value::Table(files)) = files {
        for (name, contents) in files.iter() {
            shelf.put(name.as_str(), &bytes_of(alloc, named, contents)?)?;
        }
    }
    Ok(())
}
