ghost use Rattle.std.specs.Prelude.{◌≡◌, ◌≢◌, ℕ, ◌≤◌, ◌<◌, [], ◌∷◌, ◌++◌, length, OnOk, slice_index};
ghost use Rattle.sii_words.specs.Run.{stretches};

use crate::WordList;
use crate::run::Run;
use std::alloc::{AllocError, Global};

/// The number of words at the front that differ.
fn differing(old: &[u16], new: &[u16]) -> usize
    requires { length old.now ≡ length new.now }
    ensures size { result ≤ length old.now }
    ensures differ { (k : ℕ) → k < result → slice_index old.now k ≢ slice_index new.now k }
    ensures end { result < length old.now → slice_index old.now result ≡ slice_index new.now result }
{
    let mut count = 0;
    while count < old.len() && old[count] != new[count] {
        count += 1;
    }
    count
}

/// Adds a run of one word, word `at` of `slave`, if its new value differs from the old one.
///
/// # Errors
///
/// `AllocError` if memory was refused. What `runs` holds then isn't specified.
pub fn push_word(
    alloc: Global,
    runs: &mut Vec<Run>,
    slave: u16,
    at: u16,
    old: u16,
    new: u16,
) -> Result<(), AllocError>
    ensures { OnOk result (runs.new.items ≡ runs.old.items ++ stretches slave at (old ∷ []) (new ∷ [])) }
{
    if old != new {
        let words = [new].to_vec(alloc)?;
        runs.push(Run {
            slave,
            first: at,
            words: WordList::from_vec(words),
        })?;
    }
    Ok(())
}

/// Adds the longest stretches in which the words of one slave differ, as runs in rising order. Both lists must have the same
/// length, at most 4,096 words.
///
/// # Errors
///
/// `AllocError` if memory was refused. What `runs` holds then isn't specified.
pub fn push_stretches(
    alloc: Global,
    runs: &mut Vec<Run>,
    slave: u16,
    old: &[u16],
    new: &[u16],
) -> Result<(), AllocError>
    requires same { length old.now ≡ length new.now }
    requires most { length old.now ≤ 4096 }
    ensures { OnOk result (runs.new.items ≡ runs.old.items ++ stretches slave 0 old.now new.now) }
{
    let mut at = 0;
    while at < old.len() {
        if old[at] == new[at] {
            at += 1;
        } else {
            let count = differing(&old[at..], &new[at..]);
            let words = new[at..at + count].to_vec(alloc)?;
            runs.push(Run {
                slave,
                first: at as u16,
                words: WordList::from_vec(words),
            })?;
            at += count;
        }
    }
    Ok(())
}
