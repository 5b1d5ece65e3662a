//! What is wrong in a text, in words, and where.

use crate::forms::{Field, Form, Shape};
use crate::places::{Part, blanked, line_at};
use crate::validating::{validate_line, validate_script};
use std::alloc::{AllocError, Global};
use thiserror::Error;
use toml::{Table, Value};

/// What is wrong in a text, and the line in which it stands.
#[derive(Debug, Drop)]
pub struct TextTrouble {
    /// The number of the line, from 1. It is that of the key, or where the key isn't found, the one in which its command or slave begins;
    /// `None` where it is the text as a whole.
    pub line: Option<usize>,
    /// What is wrong, as part of a sentence.
    pub what: String,
}

/// What is wrong with a table or a value.
#[derive(Clone, Copy, Debug, Error)]
pub(crate) enum Flaw<'a> {
    /// A key that isn't known there; the known ones follow.
    #[error("unknown key {0:?}, known here: {1}")]
    Unknown(&'a str, Form),
    /// A key that must be there.
    #[error("the key {0} is missing")]
    Missing(&'static str),
    /// The value at a key has another shape.
    #[error("{0} must be {2}{1}")]
    Wrong(&'static str, Found, Shape),
    /// The entry of an array is no table.
    #[error("an entry must be a table{0}")]
    NoTable(Found),
    /// A line has this many slaves.
    #[error("{0} slaves, and a line has 1 to 64")]
    Slaves(usize),
    /// None of these keys is there, and one must be.
    #[error("one of the keys {0} is missing")]
    NoneOf(Form),
    /// What an edit outside a group expects stands beside it.
    #[error("outside a group expect stands among the fields of the edit, as in alias = {{ slave = 0, value = 1, expect = {{ .. }} }}")]
    Beside,
    /// What an edit expects stands beside it and among its fields.
    #[error("expect stands both beside the edit and among its fields")]
    Twice,
    /// Two keys that exclude each other.
    #[error("{0} and {1} can't stand side by side")]
    Two(&'static str, &'static str),
    /// The text is no line file, for no reason that is reported here.
    #[error("no line file")]
    NoLine,
    /// The command of this place is none, for no reason that is reported here.
    #[error("command {0} is none that the program knows")]
    NoCommand(usize),
}

/// A value that has another shape than it should.
#[derive(Clone, Copy, Debug, Error)]
pub(crate) enum Found {
    #[error(", and is {0}")]
    Integer(i64),
    /// Of the right type, but of another form.
    #[error("")]
    Form,
    /// Of this type.
    #[error(", and is of type {0}")]
    Other(&'static str),
}

/// What is wrong, and where the part of the text begins in which it stands.
#[derive(Clone, Copy)]
pub(crate) struct Spot<'a> {
    pub flaw: Flaw<'a>,
    /// `None` for the text as a whole.
    pub at: Option<usize>,
}

impl Found {
    /// A value that doesn't have this shape.
    pub(crate) fn of(value: &Value, shape: Shape) -> Found {
        match (value.as_integer(), shape) {
            (Some(number), _) => Found::Integer(number),
            (None, Shape::Words) if value.is_str() => Found::Form,
            (None, Shape::Pair) if value.is_array() => Found::Form,
            (None, _) => Found::Other(value.type_str()),
        }
    }
}

impl<'a> Flaw<'a> {
    /// The place of this flaw of a table that stands in this part of a text: that of its key, if it has one there.
    pub(crate) fn within(self, part: Part<'_>) -> Spot<'a> {
        let at = match self {
            Flaw::Unknown(key, _) => part.from_key(key).from,
            Flaw::Wrong(key, ..) => part.from_key(key).from,
            Flaw::Slaves(_) => part.from_key("slave").from,
            Flaw::Beside => part.from_key("expect").from,
            _ => part.from,
        };
        Spot { flaw: self, at }
    }
}

/// What is wrong in a text that is no line file or, where the place of its first bad command is given, from 0, no script.
pub(crate) fn trouble_of(
    alloc: Global,
    text: &str,
    command: Option<usize>,
) -> Result<TextTrouble, AllocError> {
    let (at, what) = match toml::table_from_str(alloc, text) {
        Ok(table) => trouble_in(alloc, text, &table, command)?,
        Err(error) if error.is_memory() => return Err(AllocError),
        Err(error) => {
            let why = error.message();
            let at = error.span().map(|span| span.start);
            (at, format!(in alloc; "no TOML: {why}")?)
        }
    };
    let line = at.map(|at| line_at(text.as_bytes(), at));
    Ok(TextTrouble { line, what })
}

/// Where something is wrong in a text with this document, and what.
fn trouble_in(
    alloc: Global,
    text: &str,
    table: &Table,
    command: Option<usize>,
) -> Result<(Option<usize>, String), AllocError> {
    let code = blanked(alloc, text)?;
    let part = Part::entire(code.as_str());
    let (validated, unknown) = match command {
        None => (validate_line(part, table), Flaw::NoLine),
        Some(command) => (
            validate_script(part, table, command),
            Flaw::NoCommand(command),
        ),
    };
    let Spot { flaw, at } = validated.err().unwrap_or(unknown.within(part));
    Ok((at, format!(in alloc; "{flaw}")?))
}
