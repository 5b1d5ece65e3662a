//! Access to a slave's EEPROM over its registers, as rows of a table.

use esc_rom::{RomFault, issue, open_slave, read_all, settle};
use site_core::{DeviceFault, Issued, Settled, Site};
use std::alloc::Global;

// What is done with a slave, and what must come of it.
#[derive(Clone, Copy)]
pub(super) enum Access {
    // Word 4 of a slave is issued as 1.
    Issue(u16, Result<Issued, DeviceFault>),
    // It is settled. It was taken or not.
    Settle(u16, bool, Result<Settled, DeviceFault>),
    Open(u16, Result<(), RomFault>),
    // All 64 words of slave 0 are read: zeros, but for the check byte 0x30 and this alias.
    Read(Result<u16, RomFault>),
}

// Word 4 of slave 0 is issued as 1 and taken, and it is settled.
pub(super) const TAKEN: Access = Access::Issue(0, Ok(Issued::Taken));

pub(super) const WRITTEN: Access = Access::Settle(0, true, Ok(Settled::Written));

// 64 words: zeros, but for the check byte and this alias.
fn words_with(alias: u16) -> [u16; 64] {
    let mut words = [0u16; 64];
    words[4] = alias;
    words[7] = 0x30;
    words
}

// Whether reading all words of slave 0, which the site owns, has this answer.
fn is_read(alloc: Global, site: &mut impl Site, answer: &Result<u16, RomFault>) -> bool {
    if !site.owns(0) {
        return false;
    }
    match read_all(alloc, site, 0) {
        Ok(words) => match *answer {
            Ok(alias) => words.as_slice() == words_with(alias).as_slice(),
            Err(_wanted) => false,
        },
        Err(fault) => *answer == Err(fault),
    }
}

// Whether this comes of it.
pub(super) fn comes(alloc: Global, site: &mut impl Site, access: &Access) -> bool {
    match access {
        Access::Issue(slave, answer) => {
            site.owns(*slave) && issue(site, *slave, 4, 1) == *answer
        }
        Access::Settle(slave, taken, answer) => {
            site.owns(*slave) && settle(site, *slave, *taken) == *answer
        }
        Access::Open(slave, answer) => site.owns(*slave) && open_slave(site, *slave) == *answer,
        Access::Read(answer) => is_read(alloc, site, answer),
    }
}
