//! The words of two slaves of 64 words.

use book_core::Core;
use sii_words::Words;
use std::alloc::Global;
use world_run::World;

pub(crate) type Contents = [[u16; 64]; 2];

/// The words of a slave from this one on get these values.
pub(crate) fn put(contents: &mut Contents, slave: usize, first: usize, values: &[u16]) {
    for place in 0..values.len() {
        let word = first.saturating_add(place);
        if slave < 2 && word < 64 {
            contents[slave][word] = values[place];
        }
    }
}

/// Zeros, but for the check bytes.
pub(crate) fn zeros() -> Contents {
    let mut contents = [[0; 64]; 2];
    put(&mut contents, 0, 7, &[0x30]);
    put(&mut contents, 1, 7, &[0x30]);
    contents
}

/// The contents of these slaves.
fn contents_of(slaves: &[Words]) -> Contents {
    let mut contents = [[0; 64]; 2];
    for slave in 0..slaves.len() {
        put(&mut contents, slave, 0, slaves[slave].as_slice());
    }
    contents
}

/// The contents of a book.
pub(crate) fn contents_in(book: &Core) -> Contents {
    let mut contents = [[0; 64]; 2];
    let plant = book.contents();
    for slave in 0..plant.len() {
        put(&mut contents, slave, 0, plant.slave(slave).as_slice());
    }
    contents
}

/// The contents of the slaves of a world. A word in flight has its old value there.
pub(crate) fn held(world: &World) -> Option<Contents> {
    let slaves = world.words().ok()?;
    Some(contents_of(&slaves))
}

/// A slave of zeros, but for its check byte.
fn zero_slave(alloc: Global) -> Option<Words> {
    let mut bytes = [0u8; 128];
    bytes[14] = 0x30;
    Words::from_bytes(alloc, &bytes).ok()
}

/// This number of such slaves.
pub(crate) fn zero_slaves(alloc: Global, count: usize) -> Option<Vec<Words>> {
    let mut slaves = Vec::new(alloc);
    for _slave in 0..count {
        let words = zero_slave(alloc)?;
        slaves.push(words).ok()?;
    }
    Some(slaves)
}
