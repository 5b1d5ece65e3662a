//! A run of three commands by threads, and what it prints.

ghost use Rattle.std.specs.Prelude.{◌≡◌, [], IfSome};

use crate::wires::{Bench, journal_on};
use runner_cases::asks::command;
use runner_cases::runs::ASKS;
use runner_cases::sites::{off, open};
use script_session::{Task, Work, serve_task};
use sii_edit::Command;
use site_core::Site;
use site_shadow::{Lends, Parts, ShadowSite};
use site_wire::{LockedLine, WireDevice};
use station_alone::Alone;
use std::alloc::Global;
use std::sync::Wait;
use std::thread::Threads;
use wire_frames::Wire;

/// What a run without trouble prints.
const ANSWERS: &str = "command 0 accepted 0
command 1 accepted 1
command 2 accepted 2
accepted 3 durable 3 settled 3
";

/// A station on this site that has accepted no command. None if it can't be opened.
fn opened<S: Site + Drop>(alloc: Global, site: S) -> Option<Alone<S>>
    ensures { IfSome result (λ alone. alone.book.accepted ≡ []) }
{
    let Ok(station) = open(alloc, site) else {
        return None;
    };
    match station.core().accepted() {
        [] => Some(station),
        _ => {
            drop(off(station));
            None
        }
    }
}

/// The three commands, or those of them for which there is memory.
fn commands(alloc: Global) -> Vec<Command> {
    let mut commands = Vec::new(alloc);
    for ask in ASKS {
        if let Some(command) = command(alloc, ask) {
            let _ = commands.push(command);
        }
    }
    commands
}

/// What is printed of how many durable commands.
const DURABLE: &[(&str, u64)] = &[
    (" durable 0 ", 0),
    (" durable 1 ", 1),
    (" durable 2 ", 2),
    (" durable 3 ", 3),
];

/// What a run reported.
#[derive(Clone, Copy)]
pub(crate) struct Reported {
    /// Whether it is all that a run without trouble prints.
    pub is_all: bool,
    /// How many commands are durable. None: no station was opened.
    pub durable: Option<u64>,
}

/// What a run without a station tells.
const NOTHING: Reported = Reported {
    is_all: false,
    durable: None,
};

/// What a run that printed this reported. None: it has no totals.
fn reported_in(text: &[u8]) -> Option<Reported> {
    let text = str::from_utf8(text).unwrap_or("");
    for (reported, count) in DURABLE {
        if text.contains(*reported) {
            return Some(Reported {
                is_all: text == ANSWERS,
                durable: Some(*count),
            });
        }
    }
    None
}

/// Runs the commands by threads on this site. None: memory was refused, or a station that was opened reported no totals.
fn reported_by_threads<D: Lends + Send, R: Wait + Threads + Sync>(
    rt: &R,
    alloc: Global,
    site: ShadowSite<D>,
) -> Option<Reported> {
    let Some(station) = opened(alloc, site) else {
        return Some(NOTHING);
    };
    let work = Work {
        commands: commands(alloc),
        tells_events: false,
    };
    let task = Task { work, turns: false };
    let mut text = Vec::new(alloc);
    drop(serve_task(rt, alloc, station, 3, task, &mut text).ok()?);
    reported_in(&text)
}

/// What a run by threads on this line reported. None: memory was refused, the parts aren't a line's, or a station that was opened reported no totals.
pub(crate) fn reported_on<R: Wait + Threads + Sync, W: Wire + Send>(
    rt: &R,
    alloc: Global,
    bench: &Bench,
    locked: &LockedLine<W>,
    parts: Parts,
) -> Option<Reported> {
    if !parts.is_complete() {
        return None;
    }
    let device = WireDevice::shared(locked.shared(rt), &bench.clock, journal_on(alloc, bench));
    reported_by_threads(rt, alloc, ShadowSite::of_parts(alloc, parts, device))
}
