//! Calls of a book and what they must give, as rows of a table.

use crate::asks::{Ask, submit};
use crate::disk::{Disk, disk_comes};
use crate::line::Memory;
use crate::rom::{Rom, rom_comes};
use book_core::Core;
use book_model::{Fault, Status, SubmitRefusal};
use std::alloc::Global;

/// A call of a book, and what it must give.
#[derive(Clone, Copy)]
pub(crate) enum Event {
    Submit(Ask, Result<u64, SubmitRefusal>),
    /// The command is submitted this number of times, and each time it is accepted with the next number.
    Fill(Ask, u64),
    Disk(Disk),
    Rom(u16, Rom),
    Call(Call),
}

#[derive(Clone, Copy)]
pub(crate) enum Call {
    Finish,
    /// A migration is asked for, with this answer.
    Migrate(bool),
    /// The numbers of accepted, durable and settled commands, and of live bytes.
    Status(u64, u64, u64, u64),
    /// The plan: its number of commands, and the bytes of its outputs and inputs.
    Plan(u64, usize, usize),
    Fault(Option<Fault>),
}

fn is_plan(core: &mut Core, prefix: u64, outputs: usize, inputs: usize) -> Option<bool> {
    let plan = core.plan().ok()?;
    Some(plan.prefix == prefix && plan.image.outputs() == outputs && plan.image.inputs() == inputs)
}

fn call_comes(core: &mut Core, call: &Call) -> Option<bool> {
    match call {
        Call::Finish => {
            core.finish();
            Some(true)
        }
        Call::Migrate(wanted) => Some(core.migrate() == *wanted),
        Call::Status(accepted, durable, settled, live_bytes) => {
            let wanted = Status {
                accepted: *accepted,
                durable: *durable,
                settled: *settled,
                live_bytes: *live_bytes,
            };
            Some(core.status() == wanted)
        }
        Call::Plan(prefix, outputs, inputs) => is_plan(core, *prefix, *outputs, *inputs),
        Call::Fault(wanted) => Some(core.fault() == *wanted),
    }
}

/// Whether the call gives what it must. None: memory was refused.
fn comes(alloc: Global, core: &mut Core, event: &Event) -> Option<bool> {
    match event {
        Event::Submit(ask, wanted) => Some(submit(alloc, core, ask)? == *wanted),
        Event::Fill(ask, _) => {
            let next = core.status().accepted;
            Some(submit(alloc, core, ask)? == Ok(next))
        }
        Event::Disk(disk) => disk_comes(core, disk),
        Event::Rom(slave, rom) => Some(rom_comes(core, *slave, rom)),
        Event::Call(call) => call_comes(core, call),
    }
}

/// Whether the call gives what it must. Where a growth is refused on purpose, it changes nothing and is made again.
fn is_reported(alloc: Global, core: &mut Core, event: &Event, memory: Memory) -> bool {
    let before = core.status();
    match comes(alloc, core, event) {
        Some(is_reported) => is_reported,
        None if memory == Memory::Ample || core.status() != before => false,
        None => matches!(comes(alloc, core, event), Some(true)),
    }
}

/// How often an event comes.
fn times_of(event: &Event) -> u64 {
    match event {
        Event::Fill(_, times) => *times,
        _ => 1,
    }
}

/// Whether all calls give what they must.
pub(crate) fn are_reported(
    alloc: Global,
    core: &mut Core,
    events: &[Event],
    memory: Memory,
) -> bool {
    for event in events {
        for _time in 0..times_of(event) {
            if !is_reported(alloc, core, event, memory) {
                return false;
            }
        }
    }
    true
}
