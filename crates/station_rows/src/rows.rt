//! Rows, and the two forms in which they are printed.
ghost use Rattle.std.specs.Prelude.{IfErr};
ghost use Rattle.station_files.specs.Faults.{IsOfStream};

use crate::cell::Cell;
use crate::value::Value;
use serde::{Described, Serialize, Serializer};
use station_files::{Fault, write_complete};
use std::alloc::{AllocError, Global};
use std::fmt;
use std::io::Write;

/// How a listing is printed.
#[derive(Clone, Copy)]
pub enum Form {
    /// As text, for people: the cells of a row one after another, each with its name.
    Text,
    /// As JSON, for programs: an object a row, whose key `row` says what it is.
    Json,
}

/// Rows in the form in which they are printed, each on a line of its own.
#[derive(Drop)]
pub struct Rows {
    alloc: Global,
    form: Form,
    text: String,
}

/// A row: what it is, and its cells.
#[derive(Clone, Copy)]
pub(crate) struct Row<'a> {
    pub(crate) name: &'static str,
    pub(crate) cells: &'a [Cell<'a>],
}

impl Rows {
    /// No rows yet.
    pub fn new(alloc: Global, form: Form) -> Rows {
        Rows {
            alloc,
            form,
            text: String::new(alloc),
        }
    }

    /// Where memory comes from.
    pub fn alloc(&self) -> Global {
        self.alloc
    }

    /// The rows as they are printed.
    pub fn as_str(&self) -> &str {
        self.text.as_str()
    }

    /// Adds a row. A row of which text has no cell has no line there.
    pub fn put(&mut self, name: &'static str, cells: &[Cell<'_>]) -> Result<(), AllocError> {
        let row = Row { name, cells };
        let line = match self.form {
            Form::Text => format!(in self.alloc; "{row}")?,
            Form::Json => spell_json(self.alloc, &row)?,
        };
        if line.is_empty() {
            return Ok(());
        }
        self.text.push_str(line.as_str())?;
        self.text.push('\n')?;
        Ok(())
    }

    /// Adds a line that text alone has.
    pub fn say(&mut self, cells: &[Cell<'_>]) -> Result<(), AllocError> {
        match self.form {
            Form::Text => self.put("", cells),
            Form::Json => Ok(()),
        }
    }

    /// Writes the rows, and flushes the output.
    ///
    /// # Errors
    ///
    /// `File` or `Memory`, as the output answers.
    pub fn write<W: Write>(&self, output: &mut W) -> Result<(), Fault>
        ensures { IfErr result IsOfStream }
    {
        write_complete(self.text.as_bytes(), output)
    }
}

/// A row as JSON.
pub(crate) fn spell_json(alloc: Global, row: &Row<'_>) -> Result<String, AllocError> {
    // A row has no float and nests once at most: only memory can be missing.
    serde_json::to_string(alloc, row).map_err(|_| AllocError)
}

impl Described for Row<'_> {}

impl Serialize for Row<'_> {
    fn serialize<S: Serializer>(&self, out: &mut S) -> Result<(), S::Error> {
        out.begin_map(None)?;
        out.key("row")?;
        out.str(self.name)?;
        for cell in self.cells {
            match (cell.key, cell.value) {
                (_, Value::End) => out.end_map()?,
                (None, _) | (_, Value::Absent) => {}
                (Some(key), value) => {
                    out.key(key)?;
                    value.put(out)?;
                }
            }
        }
        out.end_map()
    }
}

impl fmt::Display for Row<'_> {
    fn fmt<W: fmt::Write>(&self, f: &mut fmt::Formatter<W>) -> fmt::Result {
        let mut gap = "";
        for cell in self.cells {
            match (cell.text, cell.value) {
                (_, Value::Break) => gap = "\n",
                (None, _) | (_, Value::Absent | Value::End | Value::Truth(false)) => {}
                (Some(name), value) => {
                    f.write_str(gap)?;
                    match value {
                        Value::Truth(_) | Value::Begin => f.write_str(name)?,
                        _ if name.is_empty() => write!(f, "{value}")?,
                        _ => write!(f, "{name} {value}")?,
                    }
                    gap = " ";
                }
            }
        }
        Ok(())
    }
}
