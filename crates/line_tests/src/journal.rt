//! Journals that are cut off.

use crate::devices::put;
use jrn_format::{JournalFault, scan};
use std::alloc::Global;

/// The header of a journal of two slaves, with an area of 4,096 bytes, and a batch that exchanges two aliases.
const SWAPPED: &[u8] = &[
    0xa5, 0x02, 0x02, 0x00, 0x00, 0x10, 0x00, 0x00, 0xa5, 0x00, 0x2c, 0x00, 0x00, 0x00, 0x01, 0x00,
    0, 0, 0, 0, 0, 0, 0, 0, 0x04, 0x00, 0x00, 0x00, 0x04, 0x00, 0x01, 0x00, 0x00, 0x00, 0x00, 0x00,
    0x07, 0x00, 0x01, 0x00, 0x30, 0x00, 0x01, 0x00, 0x04, 0x00, 0x01, 0x00, 0x01, 0x00, 0x01, 0x00,
    0x07, 0x00, 0x01, 0x00, 0x19, 0x00, 0x00,
];

/// Whether a journal is refused with the fault of one that is cut off.
fn is_cut(alloc: Global, file: &[u8]) -> bool {
    match scan(alloc, file, &[64, 64]) {
        Err(JournalFault::NotAJournal) => file.len() < 8,
        Err(JournalFault::BadJournal { at }) => file.len() >= 8 && at == file.len(),
        _ => false,
    }
}

/// The journal with its whole area is read, and refused with each number of bytes below.
#[test]
fn files_cut_short(rt: HostRuntime) {
    let mut file = [0u8; 4104];
    put(&mut file, 0, SWAPPED);
    let mut are_cut = true;
    for size in 0..4104usize {
        are_cut &= is_cut(rt.alloc(), &file[..size]);
    }
    assert!(rt; are_cut && scan(rt.alloc(), &file, &[64, 64]).is_ok());
}
