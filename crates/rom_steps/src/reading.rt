//! Reading two words: what comes after each of its datagrams.

ghost use Rattle.std.specs.Prelude.{◌≡◌};
ghost use Rattle.rom_steps.specs.After.{commanded, failed_try, fetched, waited_to_fetch};

use crate::back::{Rested, WordPair};
use crate::limits::POLLS;
use crate::step::{End, Step};

/// After a try that failed: the next one, or the slave is given up.
#[tactic(auto, using(crate::proofs::Again::again_none, crate::proofs::Again::again_more))]
fn failed_try(word: u16, tries: u32) -> Step
    ensures { result ≡ failed_try word tries }
{
    if tries == 0 {
        return Step::Ended(End::Dead);
    }
    Step::Commands {
        word,
        tries: tries - 1,
    }
}

/// After the command that reads words.
pub(crate) fn commanded(word: u16, tries: u32, counted: bool) -> Step
    ensures { result ≡ commanded word tries counted }
{
    if counted {
        return Step::WaitsToFetch {
            word,
            tries,
            more: POLLS - 1,
        };
    }
    failed_try(word, tries)
}

/// After a poll.
#[tactic(auto, using(crate::proofs::Again::again_none, crate::proofs::Again::again_more))]
pub(crate) fn waited_to_fetch(word: u16, tries: u32, more: u32, found: Option<Rested>) -> Step
    ensures { result ≡ waited_to_fetch word tries more found }
{
    match found {
        Some(Rested::Well) => Step::Fetches { word, tries },
        Some(Rested::Failed) => failed_try(word, tries),
        None => {
            if more == 0 {
                return Step::Ended(End::Dead);
            }
            Step::WaitsToFetch {
                word,
                tries,
                more: more - 1,
            }
        }
    }
}

/// After the datagram that fetches words.
pub(crate) fn fetched(word: u16, tries: u32, pair: Option<WordPair>) -> Step
    ensures { result ≡ fetched word tries pair }
{
    match pair {
        Some(WordPair { first, second }) => Step::Ended(End::Read { first, second }),
        None => failed_try(word, tries),
    }
}
