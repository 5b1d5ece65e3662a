//! In which words a slave and its image file differ.
ghost use Rattle.std.specs.Prelude.{◌≡◌, ◌+◌, ◌<◌, ◌↔◌, ◌^◌, None, slice_get, IfSome, IsTrue};
ghost use Rattle.slave_match.specs.Difference.{difference_of, next_difference};

use std::fmt;

/// In which words a slave and its image file differ.
#[derive(Clone, Copy, PartialEq, Eq)]
pub struct Difference {
    /// How many words differ, 1 or more.
    pub count: usize,
    /// The number of the first of them.
    pub first: usize,
    /// Its value in the slave. None where the slave ends before it.
    pub has: Option<u16>,
    /// Its value in the image file. None where the file ends before it.
    pub kept: Option<u16>,
}

impl fmt::Display for Difference {
    fn fmt<W: fmt::Write>(&self, f: &mut fmt::Formatter<W>) -> fmt::Result {
        let (count, first) = (self.count, self.first);
        write!(f, "words {count} first 0x{first:04x} ")?;
        write_word("has", self.has, f)?;
        write_word(" file", self.kept, f)
    }
}

/// Writes the name and the value of a word, if it is there.
fn write_word<W: fmt::Write>(
    name: &str,
    word: Option<u16>,
    f: &mut fmt::Formatter<W>,
) -> fmt::Result {
    match word {
        Some(value) => write!(f, "{name} 0x{value:04x}"),
        None => write!(f, "{name} none"),
    }
}

/// In which words a slave with `words` differs from an image file with `kept`. None where they are the same.
pub fn difference_between(words: &[u16], kept: &[u16]) -> Option<Difference>
    ensures found { result ≡ difference_of words.now kept.now }
    ensures same { result ≡ None → words.now ≡ kept.now }
{
    let most = words.len().max(kept.len());
    let mut found = None;
    for after in 0..most {
        let at = most - 1 - after;
        let one = Difference {
            count: 1,
            first: at,
            has: word_at(words, at),
            kept: word_at(kept, at),
        };
        found = joined(one, found);
    }
    found
}

/// The value of a word, if it is there.
fn word_at(words: &[u16], at: usize) -> Option<u16>
    ensures { result ≡ slice_get words.now at }
{
    words.get(at).copied()
}

/// The difference in one word, if its values differ, and those in the words after it.
fn joined(one: Difference, after: Option<Difference>) -> Option<Difference>
    requires one { one.count ≡ 1 }
    requires most { IfSome after (λ d. d.count + 1 < 2 ^ 64) }
    ensures { result ≡ next_difference one.first one.has one.kept after }
{
    if is_same(one.has, one.kept) {
        return after;
    }
    match after {
        Some(rest) => Some(Difference {
            count: rest.count + 1,
            ..one
        }),
        None => Some(one),
    }
}

/// Whether two words have one value, or neither is there.
fn is_same(has: Option<u16>, kept: Option<u16>) -> bool
    ensures { IsTrue result ↔ has ≡ kept }
{
    match (has, kept) {
        (Some(has), Some(kept)) => has == kept,
        (None, None) => true,
        _ => false,
    }
}
