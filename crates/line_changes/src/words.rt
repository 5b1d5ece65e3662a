//! The words in which two images differ.
ghost use Rattle.std.specs.Prelude.{◌≤◌, IfOk, length};
ghost use Rattle.line_changes.specs.Difference.{AreChanges};

use sii_words::{Run, push_stretches};
use station_rows::{Rows, Value, data, said, said_place};
use std::alloc::{AllocError, Global};

/// The words in which two images differ, of those that both have: the longest stretches of them, in rising order, with the words of the first
/// image and with those of the second.
#[derive(Drop)]
pub struct WordChanges {
    pub old: Vec<Run>,
    pub new: Vec<Run>,
}

/// The words in which two lists of at most 4,096 words differ.
pub(crate) fn compare_words(
    alloc: Global,
    old: &[u16],
    new: &[u16],
) -> Result<WordChanges, AllocError>
    requires { length old.now ≤ 4096 }
    ensures { IfOk result (AreChanges old.now new.now) }
{
    let count = old.len().min(new.len());
    let (old, new) = (&old[..count], &new[..count]);
    let mut back = Vec::new(alloc);
    push_stretches(alloc, &mut back, 0, new, old)?;
    let mut forth = Vec::new(alloc);
    push_stretches(alloc, &mut forth, 0, old, new)?;
    Ok(WordChanges {
        old: back,
        new: forth,
    })
}

/// How many words of a stretch stand on one line.
const WORDS_OF_A_LINE: usize = 8;

/// Puts a row for each of the words that differ. Text has neighbouring ones on a line, some at a time: the number of a single word, and both values;
/// or the numbers of the first and the last word, and all old and all new values.
pub(crate) fn put_words(rows: &mut Rows, changes: &WordChanges) -> Result<(), AllocError> {
    for (old, new) in changes.old.iter().zip(changes.new.iter()) {
        let mut at = old.first;
        let old_lines = old.words.as_slice().chunks(WORDS_OF_A_LINE);
        let new_lines = new.words.as_slice().chunks(WORDS_OF_A_LINE);
        for (olds, news) in old_lines.zip(new_lines) {
            let (was, is) = match olds.len() {
                1 => ("", ""),
                _ => ("old", "new"),
            };
            let [from, to] = said_place(at, olds.len());
            let old = said(was, Value::Words(olds));
            rows.say(&[from, to, old, said(is, Value::Words(news))])?;
            for (place, (a, b)) in olds.iter().zip(news.iter()).enumerate() {
                let word = usize::from(at).saturating_add(place);
                rows.put("word", &[data("word", word), data("a", *a), data("b", *b)])?;
            }
            at = at.saturating_add(WORDS_OF_A_LINE as u16);
        }
    }
    Ok(())
}
