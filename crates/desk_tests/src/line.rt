//! The words of a line, and its book.

ghost use Rattle.std.specs.Prelude.{◌≡◌, ◌≤◌, [], IfSome};

use crate::memory::{put, zeros};
use book_core::Core;
use jrn_format::{Form, Journal};
use runner_cases::bytes::patch;
use sii_words::{ItemList, Words};
use std::alloc::Global;
use std::process::Abort;

/// A line of slaves: the words of each EEPROM, the bytes of each slave's categories, and the bytes of the journal's area.
#[derive(Clone, Copy)]
pub(crate) struct Plan {
    pub(crate) words: u16,
    pub(crate) slaves: &'static [&'static [u8]],
    pub(crate) area: u32,
    /// Whether process data is exchanged.
    pub(crate) has_cycle: bool,
}

/// The words of a slave: all zero except the check byte and its categories.
pub(crate) fn words_of(rt: &impl Abort, alloc: Global, plan: &Plan, slave: usize) -> Words {
    let mut image = zeros(rt, alloc, 2 * usize::from(plan.words));
    patch(&mut image, 14, &[0x30]);
    if let Some(categories) = plan.slaves.get(slave) {
        patch(&mut image, 128, categories);
    }
    match Words::from_bytes(alloc, &image) {
        Ok(words) => words,
        Err(_refused) => Words::from_bytes(alloc, &image).ok().expect(rt, "words"),
    }
}

/// The words of all slaves.
fn all_words(rt: &impl Abort, alloc: Global, plan: &Plan) -> Vec<Words> {
    let mut slaves = Vec::new(alloc);
    for slave in 0..plan.slaves.len() {
        put(rt, &mut slaves, words_of(rt, alloc, plan, slave));
    }
    slaves
}

/// A journal without batches.
fn no_batches(alloc: Global) -> Journal
    ensures form { result.form ≡ Form.Two }
    ensures batches { result.batches ≡ [] }
{
    Journal {
        form: Form::Two,
        batches: ItemList::from_vec(Vec::new(alloc)),
    }
}

/// The book of the line, on a journal without batches. None: memory was refused.
fn opened(rt: &impl Abort, alloc: Global, plan: &Plan) -> Option<Core>
    requires { 4096 ≤ plan.now.area }
    ensures { IfSome result (λ core. (core.accepted ≡ []) × (core.capacity ≡ plan.now.area)) }
{
    let slaves = all_words(rt, alloc, plan);
    assert!(rt; slaves.len() >= 1 && slaves.len() <= 64);
    Core::open(alloc, slaves, plan.area, no_batches(alloc)).ok()
}

/// The book of the line, on a journal without batches.
pub(crate) fn book_of(rt: &impl Abort, alloc: Global, plan: &Plan) -> Core
    requires { 4096 ≤ plan.now.area }
    ensures { (result.accepted ≡ []) × (result.capacity ≡ plan.now.area) }
{
    match opened(rt, alloc, plan) {
        Some(core) => core,
        None => opened(rt, alloc, plan).expect(rt, "memory"),
    }
}
