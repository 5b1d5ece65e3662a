//! How far a run is, and the line that tells it.
ghost use Rattle.std.specs.Prelude.{◌≡◌, ◌++◌, IfOk, OnOk};
ghost use Rattle.line_watch.specs.Line.{counts, line, of_all, rest};

use arrayvec::ArrayVec;
use std::io::{self, Write};

/// The most bytes of a line.
const LONGEST: usize = 320;

/// How far a run is.
#[derive(Clone, Copy)]
pub(crate) struct Stage {
    /// How many commands its script has; 0 where there is no script.
    pub(crate) commands: u64,
    /// How many of them are in the journal for good.
    pub(crate) durable: u64,
    /// How many words were read from slaves.
    pub(crate) read: u64,
    /// How many are to be read; 0 where that isn't known.
    pub(crate) to_read: u64,
    /// How many words the slaves have written.
    pub(crate) words: u64,
    /// How many they are to write; 0 where that isn't known.
    pub(crate) to_write: u64,
    /// How many slaves are busy with a word.
    pub(crate) busy: u32,
    /// How many slaves have all their words read, or written.
    pub(crate) finished: u64,
    /// How many slaves have words to be read, or written; 0 where that isn't known.
    pub(crate) slaves: u64,
    /// How many seconds are left, as it seems; 0 where that isn't known.
    pub(crate) left: u64,
}

/// The line of a run that is this far. It begins at the left edge of a terminal, and erases what stands after it there. It would fail with more
/// than 320 bytes, which no line has.
pub(crate) fn line_of(stage: Stage) -> io::Result<ArrayVec<u8, LONGEST>>
    ensures { IfOk result (λ text. text.items ≡ line stage) }
{
    let mut text = ArrayVec::new();
    text.write_all(b"\r")?;
    write_counts(stage, &mut text)?;
    write_rest(stage, &mut text)?;
    Ok(text)
}

/// Writes how much is done.
fn write_counts(stage: Stage, text: &mut ArrayVec<u8, LONGEST>) -> io::Result<()>
    ensures { OnOk result (text.new.items ≡ text.old.items ++ counts stage) }
{
    let (commands, durable) = (stage.commands, stage.durable);
    let (read, to_read) = (stage.read, stage.to_read);
    let (words, to_write, busy) = (stage.words, stage.to_write, stage.busy);
    if commands > 0 {
        write!(text, "commands {durable} of {commands} durable, ")?;
    }
    if read > 0 {
        text.write_all(b"words ")?;
        write_of(read, to_read, text)?;
        text.write_all(b" read, ")?;
    }
    text.write_all(b"words ")?;
    write_of(words, to_write, text)?;
    write!(text, " written, {busy} slaves busy")
}

/// Writes so many, of all, if it is known how many there are.
fn write_of(done: u64, all: u64, text: &mut ArrayVec<u8, LONGEST>) -> io::Result<()>
    ensures { OnOk result (text.new.items ≡ text.old.items ++ of_all done all) }
{
    write!(text, "{done}")?;
    if all > 0 {
        write!(text, " of {all}")?;
    }
    Ok(())
}

/// Writes how many slaves are done, and how many seconds are left, as far as that is known, and erases what stands behind it.
fn write_rest(stage: Stage, text: &mut ArrayVec<u8, LONGEST>) -> io::Result<()>
    ensures { OnOk result (text.new.items ≡ text.old.items ++ rest stage) }
{
    let (finished, slaves, left) = (stage.finished, stage.slaves, stage.left);
    if slaves > 0 {
        write!(text, ", {finished} of {slaves} done")?;
    }
    if left > 0 {
        write!(text, ", about {left} s left")?;
    }
    text.write_all(b"\x1b[K")
}
