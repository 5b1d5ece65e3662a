ghost use Rattle.std.specs.Prelude.{◌≡◌, ◌≤◌, ◌-◌, length, map, take, drop};
ghost use Rattle.book_model.specs.Queue.{Stands, naming_down, word_down};

use crate::due::{Naming, Word};

/// A place after the first `count` namings are removed; 0 if it isn't after them.
fn lowered(place: u32, count: usize) -> u32
    ensures { result ≡ place - count }
{
    (place as usize).saturating_sub(count) as u32
}

/// Moves the namings from place `count` on to the front, and lowers their places by `count`.
pub(crate) fn namings_down(namings: &mut [Naming], count: usize)
    requires { count ≤ length namings.old }
    ensures { take (length namings.old - count) namings.new ≡ map (naming_down count) (drop count namings.old) }
{
    for place in 0..namings.len() - count {
        let naming = namings[count + place];
        namings[place] = Naming {
            before: lowered(naming.before, count),
            ..naming
        };
    }
}

/// Lowers the places that the words keep by `count`. Only a named word keeps any.
pub(crate) fn words_down(namings: &[Naming], words: &mut [Word], count: usize)
    requires { Stands namings.now words.old }
    ensures { words.new ≡ map (word_down count) words.old }
{
    for place in 0..namings.len() {
        let at = namings[place].word as usize;
        let word = words[at];
        if word.end as usize == place + 1 {
            words[at] = Word {
                held: word.held,
                end: lowered(word.end, count),
                mark: lowered(word.mark, count),
            };
        }
    }
}
