//! Actions that a book hands out for a slave.

use book_core::Core;
use book_model::{RomNext, RomOutcome};
use site_core::{Issued, Settled};

/// Calls of the book for a slave, and what they must give.
#[derive(Clone, Copy)]
pub(crate) enum Rom {
    Next(RomNext),
    Outcome(RomOutcome),
    /// This word is handed out with this value, and is written.
    Writes(u16, u16),
    /// Words are written until none is left: their number, and the last value that word 4 gets.
    Serves(usize, u16),
}

/// Whether the word that was handed out is then handed out to be settled. It is written.
fn is_settled(core: &mut Core, slave: u16) -> bool {
    core.rom_done(slave, RomOutcome::Issued(Issued::Taken));
    let is_wanted = core.rom_next(slave) == RomNext::Settle { taken: true };
    core.rom_done(slave, RomOutcome::Settled(Settled::Written));
    is_wanted
}

fn is_written(core: &mut Core, slave: u16, word: u16, value: u16) -> bool {
    core.rom_next(slave) == RomNext::Issue { word, value } && is_settled(core, slave)
}

/// The word that is handed out next, and its value.
fn issue(core: &mut Core, slave: u16) -> Option<(u16, u16)> {
    match core.rom_next(slave) {
        RomNext::Issue { word, value } => Some((word, value)),
        _ => None,
    }
}

/// Writes words of the slave until none is handed out. Returns their number, and the last value of word 4.
fn served(core: &mut Core, slave: u16) -> (usize, u16) {
    let mut alias = 0;
    for count in 0..10_000usize {
        let Some((word, value)) = issue(core, slave) else {
            return (count, alias);
        };
        if !is_settled(core, slave) {
            return (count, alias);
        }
        if word == 4 {
            alias = value;
        }
    }
    (10_000, alias)
}

/// Whether the calls give what they must.
pub(crate) fn rom_comes(core: &mut Core, slave: u16, rom: &Rom) -> bool {
    match *rom {
        Rom::Next(wanted) => core.rom_next(slave) == wanted,
        Rom::Writes(word, value) => is_written(core, slave, word, value),
        Rom::Serves(count, alias) => served(core, slave) == (count, alias),
        Rom::Outcome(outcome) => {
            core.rom_done(slave, outcome);
            true
        }
    }
}
