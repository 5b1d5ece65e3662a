//! A step as numbers.

ghost use Rattle.std.specs.Prelude.{◌≡◌, Some};
ghost use Rattle.rom_steps.specs.declared.step.Step.TheVariants.{Ended};
ghost use Rattle.rom_steps.specs.Numbers.{code_of_end, end_in, opening_in, or_ended, or_else, step_in, word_step_in};

use crate::back::Rested;
use crate::step::{End, Step};
use site_core::{Issued, Settled};

/// A word access as numbers. Its fields are for the calls of this crate alone, but for the words that were read.
#[repr(C)]
#[derive(Clone, Copy)]
pub struct Access {
    /// Which step it is, or how it ended.
    pub phase: u32,
    /// How often a datagram is sent again at most.
    pub more: u32,
    /// How many tries to read are left.
    pub tries: u32,
    /// The number of the word; after a reading the word itself.
    pub first: u16,
    /// The value that is written; after a reading the next word.
    pub second: u16,
}

fn opening_in(a: Access) -> Option<Step>
    ensures { result ≡ opening_in a }
{
    match a.phase {
        1 => Some(Step::Forces { more: a.more }),
        2 => Some(Step::Frees { more: a.more }),
        3 => Some(Step::WaitsToClear { more: a.more }),
        4 => Some(Step::Clears { more: a.more }),
        _ => None,
    }
}

fn word_step_in(a: Access) -> Option<Step>
    ensures { result ≡ word_step_in a }
{
    match a.phase {
        5 => Some(Step::Commands {
            word: a.first,
            tries: a.tries,
        }),
        6 => Some(Step::WaitsToFetch {
            word: a.first,
            tries: a.tries,
            more: a.more,
        }),
        7 => Some(Step::Fetches {
            word: a.first,
            tries: a.tries,
        }),
        8 => Some(Step::Issues {
            word: a.first,
            value: a.second,
        }),
        9 => Some(Step::WaitsToSettle {
            taken: true,
            more: a.more,
        }),
        10 => Some(Step::WaitsToSettle {
            taken: false,
            more: a.more,
        }),
        11 => Some(Step::Tidies),
        12 => Some(Step::Stopped),
        22 => Some(Step::Waits { more: a.more }),
        _ => None,
    }
}

fn end_in(a: Access) -> Option<End>
    ensures { result ≡ end_in a }
{
    match a.phase {
        13 => Some(End::Opened),
        14 => Some(End::Read {
            first: a.first,
            second: a.second,
        }),
        15 => Some(End::Issued(Issued::Taken)),
        16 => Some(End::Issued(Issued::NotTaken)),
        17 => Some(End::Issued(Issued::Lost)),
        18 => Some(End::Settled(Settled::Written)),
        19 => Some(End::Settled(Settled::Again)),
        20 => Some(End::Settled(Settled::Dead)),
        21 => Some(End::Dead),
        23 => Some(End::Idle(Rested::Well)),
        24 => Some(End::Idle(Rested::Failed)),
        _ => None,
    }
}

fn or_ended(end: Option<End>) -> Option<Step>
    ensures { result ≡ or_ended end }
{
    match end {
        Some(it) => Some(Step::Ended(it)),
        None => None,
    }
}

fn or_else(step: Option<Step>, other: Option<Step>) -> Option<Step>
    ensures { result ≡ or_else step other }
{
    match step {
        Some(it) => Some(it),
        None => other,
    }
}

/// The step that these numbers are; `None` if they are none.
pub(crate) fn step_in(a: Access) -> Option<Step>
    ensures { result ≡ step_in a }
{
    or_else(opening_in(a), or_else(word_step_in(a), or_ended(end_in(a))))
}

/// The numbers of a step without words, or of an end.
fn numbers(phase: u32, more: u32) -> Access
    ensures { result ≡ record { phase = phase; more = more; tries = 0; first = 0; second = 0 } }
{
    Access {
        phase,
        more,
        tries: 0,
        first: 0,
        second: 0,
    }
}

fn end_as_numbers(end: End) -> Access
    ensures { step_in result ≡ Some (Ended end) }
{
    match end {
        End::Opened => numbers(13, 0),
        End::Idle(Rested::Well) => numbers(23, 0),
        End::Idle(Rested::Failed) => numbers(24, 0),
        End::Read { first, second } => Access {
            first,
            second,
            ..numbers(14, 0)
        },
        End::Issued(Issued::Taken) => numbers(15, 0),
        End::Issued(Issued::NotTaken) => numbers(16, 0),
        End::Issued(Issued::Lost) => numbers(17, 0),
        End::Settled(Settled::Written) => numbers(18, 0),
        End::Settled(Settled::Again) => numbers(19, 0),
        End::Settled(Settled::Dead) => numbers(20, 0),
        End::Dead => numbers(21, 0),
    }
}

/// A step as numbers.
pub(crate) fn access_of(step: Step) -> Access
    ensures { step_in result ≡ Some step }
{
    match step {
        Step::Forces { more } => numbers(1, more),
        Step::Frees { more } => numbers(2, more),
        Step::WaitsToClear { more } => numbers(3, more),
        Step::Clears { more } => numbers(4, more),
        Step::Waits { more } => numbers(22, more),
        Step::Commands { word, tries } => Access {
            tries,
            first: word,
            ..numbers(5, 0)
        },
        Step::WaitsToFetch { word, tries, more } => Access {
            tries,
            first: word,
            ..numbers(6, more)
        },
        Step::Fetches { word, tries } => Access {
            tries,
            first: word,
            ..numbers(7, 0)
        },
        Step::Issues { word, value } => Access {
            first: word,
            second: value,
            ..numbers(8, 0)
        },
        Step::WaitsToSettle { taken: true, more } => numbers(9, more),
        Step::WaitsToSettle { taken: false, more } => numbers(10, more),
        Step::Tidies => numbers(11, 0),
        Step::Stopped => numbers(12, 0),
        Step::Ended(end) => end_as_numbers(end),
    }
}

/// The code of an end.
pub(crate) fn code_of_end(end: End) -> u32
    ensures { result ≡ code_of_end end }
{
    match end {
        End::Opened => 101,
        End::Idle(Rested::Well) => 107,
        End::Idle(Rested::Failed) => 108,
        End::Read { .. } => 102,
        End::Issued(Issued::Taken) => 103,
        End::Issued(Issued::NotTaken) => 104,
        End::Issued(Issued::Lost) => 41,
        End::Settled(Settled::Written) => 105,
        End::Settled(Settled::Again) => 106,
        End::Settled(Settled::Dead) => 43,
        End::Dead => 43,
    }
}
