//! A cell of a row.

use crate::value::Value;

/// A cell of a row: a value, and the names under which text and JSON print it.
#[derive(Clone, Copy)]
pub struct Cell<'a> {
    /// The name in text, empty where the value stands there alone; `None` where the cell isn't printed there.
    pub(crate) text: Option<&'a str>,
    /// The key in JSON; `None` where the cell isn't printed there.
    pub(crate) key: Option<&'a str>,
    /// The value.
    pub value: Value<'a>,
}

/// What follows stands on a new line of the text.
pub(crate) const BREAK: Cell<'static> = Cell {
    text: None,
    key: None,
    value: Value::Break,
};

/// The end of an object that a cell with `Value::Begin` begins.
pub const END: Cell<'static> = Cell {
    text: None,
    key: None,
    value: Value::End,
};

/// A cell that text and JSON print with its name.
pub fn named<'a, T: Into<Value<'a>>>(name: &'a str, value: T) -> Cell<'a> {
    Cell {
        text: Some(name),
        ..data(name, value)
    }
}

/// A cell of which text prints the value alone.
pub fn bare<'a, T: Into<Value<'a>>>(name: &'a str, value: T) -> Cell<'a> {
    Cell {
        text: Some(""),
        ..data(name, value)
    }
}

/// A cell of JSON alone.
pub fn data<'a, T: Into<Value<'a>>>(name: &'a str, value: T) -> Cell<'a> {
    Cell {
        text: None,
        key: Some(name),
        value: value.into(),
    }
}

/// A cell of text alone. With an empty name the value stands there alone.
pub fn said<'a, T: Into<Value<'a>>>(name: &'a str, value: T) -> Cell<'a> {
    Cell {
        text: Some(name),
        key: None,
        value: value.into(),
    }
}

/// Says where so many neighbouring words stand, from word `first` on: `word 0x0004`, or `words 0x0004 to 0x0006`. JSON doesn't have it.
pub fn said_place<'a>(first: u16, count: usize) -> [Cell<'a>; 2] {
    let others = count.saturating_sub(1).min(65535) as u16;
    match others {
        0 => [said("word", Value::Word(first)), said("", Value::Absent)],
        _ => [
            said("words", Value::Word(first)),
            said("to", Value::Word(first.saturating_add(others))),
        ],
    }
}

impl<'a> Cell<'a> {
    /// The name in text; empty where the value stands there alone, or the cell isn't printed.
    pub fn name(self) -> &'a str {
        self.text.unwrap_or("")
    }
}
