//! The lines that `run`, `recover` and what is like them print, as rows: a writer that takes the lines, and writes rows in their place.

use crate::cell::{Cell, END, data, said};
use crate::rows::{Form, Row, spell_json};
use crate::value::Value;
use station_listing::{Code, find_code};
use std::alloc::{AllocError, Global};
use std::io::Write;
use std::{io, mem};

/// What the row is, and how its line is spelt, word by word. `{key}` is a number or a word, which stands in the row under this key, `{key=N}` the
/// number N, and `{key..}` all that follows. `[key` is this word, and an object under this key begins behind it; `]` is the end of the object.
const LINES: &[&str] = &[
    "answer: command {command} accepted {accepted}",
    "answer: command {command} [refused {code} {name} ]",
    "answer: command {command} [refused {code} {name} at {at} ]",
    "totals: accepted {accepted} durable {durable} settled {settled}",
    "event: event durable {durable}",
    "event: event settled {settled}",
    "event: event access {access} {answer}",
    "event: event image {image}",
    "segment: slave {slave} sm {sm} {direction} offset {offset} size {size} bits {bits}",
    "sizes: outputs {outputs} inputs {inputs} counter {counter}",
    "no_image: none: {code} {name}",
    "recovered: recovered batches {batches} commands {commands} words {words}",
    "formatted: formatted {area}",
    "size: slave {slave} words {words} says {says}",
    "size: slave {slave} words {words} says {says} {larger}",
    "line: line {line..}",
    "kept: kept {kept..}",
    "fault: fault {code} {name}",
    "fault: fault {code=51} {name} {version}",
    "fault: fault {code=52} {name} {at}",
    "fault: fault {code=93} {name} {command}",
    "fault: fault {code=102} {name} {slaves}",
    "fault: fault {code=104} {name} {slaves}",
    "fault: fault {code=112} {name} {command}",
    "fault: fault {code} {name} {slave}",
    "fault: fault {code} {name} {slave} {detail..}",
    "refused: refused {code} {name}",
    "refused: refused {code} {name} at {at}",
];

/// A command that was refused, as its answer says.
#[derive(Clone, Copy)]
pub struct RefusedCommand {
    /// Its place in the script, from 0.
    pub command: u64,
    /// The cause.
    pub code: Code,
    /// The place of the refused edit in its group, from 0; `None` where the command as a whole is refused.
    pub at: Option<u64>,
}

/// A writer of lines. It writes each as it is, or as a row of JSON, and remembers which commands are refused, if that is asked for.
///
/// A line that is a row of JSON already is written as it is. One that isn't known is the row `text`.
#[derive(Drop)]
pub struct LineRows<'a, W> {
    alloc: Global,
    form: Form,
    output: &'a mut W,
    /// What has come of a line whose end hasn't.
    line: Vec<u8>,
    refused: Option<Vec<RefusedCommand>>,
}

impl<'a, W: Write> LineRows<'a, W> {
    /// A writer of lines in this form to this output. It remembers the commands that are refused if `remembers`.
    pub fn new(alloc: Global, form: Form, remembers: bool, output: &'a mut W) -> LineRows<'a, W> {
        LineRows {
            alloc,
            form,
            output,
            line: Vec::new(alloc),
            refused: remembers.then_some(Vec::new(alloc)),
        }
    }

    /// Whether it writes rows of JSON.
    pub fn is_json(&self) -> bool {
        matches!(self.form, Form::Json)
    }

    /// The commands that were refused, in order, if it remembers them. Where memory was refused for one, it isn't there.
    pub fn refused(&self) -> &[RefusedCommand] {
        self.refused
            .as_ref()
            .map_or(&[], |refused| refused.as_slice())
    }

    /// Takes a part of a line, or its end.
    fn take(&mut self, part: &[u8]) -> io::Result<()> {
        match part {
            [line @ .., b'\n'] => {
                self.line.write_all(line)?;
                let line = mem::replace(&mut self.line, Vec::new(self.alloc));
                self.end(&line)
            }
            _ => self.line.write_all(part),
        }
    }

    /// Remembers a command that this line refuses, and writes the row of the line, if rows are written.
    fn end(&mut self, line: &[u8]) -> io::Result<()> {
        let (name, cells) = read_line(self.alloc, line)?;
        if let (Some(refused), Some(command)) = (&mut self.refused, refused_in(&cells)) {
            refused.push(command)?;
        }
        if !self.is_json() {
            return Ok(());
        }
        if line.starts_with(b"{") {
            self.output.write_all(line)?;
            return self.output.write_all(b"\n");
        }
        let cells = cells.as_slice();
        let mut row = spell_json(self.alloc, &Row { name, cells })?;
        row.push('\n')?;
        self.output.write_all(row.as_bytes())
    }
}

impl<W: Write> Write for LineRows<'_, W> {
    fn write(&mut self, bytes: &[u8]) -> io::Result<usize> {
        let end = match bytes.iter().position(|byte| *byte == b'\n') {
            Some(at) => at.saturating_add(1).min(bytes.len()),
            None => bytes.len(),
        };
        let part = &bytes[..end];
        if self.is_json() {
            self.take(part)?;
            return Ok(end);
        }
        if self.refused.is_none() {
            return self.output.write(bytes);
        }
        let count = self.output.write(part)?;
        let _ = self.take(&part[..count]);
        Ok(count)
    }

    fn flush(&mut self) -> io::Result<()> {
        self.output.flush()
    }
}

/// What the row of a line is, and its cells: as the row of `LINES` that it is spelt as, or else as the row `text`.
fn read_line(alloc: Global, line: &[u8]) -> Result<(&'static str, Vec<Cell<'_>>), AllocError> {
    if let Ok(text) = str::from_utf8(line) {
        for row in LINES {
            let (name, spelling) = row.split_once(": ").unwrap_or(("", ""));
            if let Some(cells) = read_cells(alloc, spelling, text)? {
                return Ok((name, cells));
            }
        }
    }
    Ok(("text", vec![in alloc; data("text", Value::String(line))]?))
}

/// The cells of a line, if it is spelt so.
fn read_cells<'l>(
    alloc: Global,
    spelling: &'static str,
    line: &'l str,
) -> Result<Option<Vec<Cell<'l>>>, AllocError> {
    let mut cells = Vec::new(alloc);
    let mut rest = line;
    for token in spelling.split(' ') {
        if token == "]" {
            cells.push(END)?;
            continue;
        }
        let (word, after) = match rest.split_once(' ') {
            Some(parts) if !token.ends_with("..}") => parts,
            _ => (rest, ""),
        };
        rest = after;
        match read_cell(token, word) {
            Some(cell) => cells.push(cell)?,
            None => return Ok(None),
        }
    }
    Ok(if rest.is_empty() { Some(cells) } else { None })
}

/// The cell of a word, if it is spelt so. A word that says nothing is a cell that JSON doesn't print. Brackets around all that follows are left out.
fn read_cell<'l>(token: &'static str, word: &'l str) -> Option<Cell<'l>> {
    if let Some(key) = token.strip_prefix('[') {
        return (key == word).then_some(data(key, Value::Begin));
    }
    let Some(key) = token.strip_prefix('{') else {
        return (token == word).then_some(said("", Value::Absent));
    };
    if let Some(key) = key.strip_suffix("..}") {
        let inner = word.strip_prefix('(').unwrap_or("");
        return Some(data(key, inner.strip_suffix(')').unwrap_or(word)));
    }
    let key = key.strip_suffix('}').unwrap_or(key);
    let (key, wanted) = key.split_once('=').unwrap_or((key, word));
    if wanted != word || word.is_empty() {
        return None;
    }
    Some(match word.parse::<u64>() {
        Ok(number) => data(key, number),
        Err(_) => data(key, word),
    })
}

/// The command that these cells refuse, if they are those of its answer.
fn refused_in(cells: &[Cell<'_>]) -> Option<RefusedCommand> {
    let Some(Value::Begin) = value_of(cells, "refused") else {
        return None;
    };
    match (value_of(cells, "command"), value_of(cells, "name")) {
        (Some(Value::Number(command)), Some(Value::Text(name))) => Some(RefusedCommand {
            command,
            code: find_code(name)?,
            at: match value_of(cells, "at") {
                Some(Value::Number(at)) => Some(at),
                _ => None,
            },
        }),
        _ => None,
    }
}

/// The value under a key.
fn value_of<'l>(cells: &[Cell<'l>], wanted: &str) -> Option<Value<'l>> {
    let found = cells.iter().find(|cell| cell.key == Some(wanted))?;
    Some(found.value)
}
