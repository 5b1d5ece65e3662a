//! The subcommand `plan`.
ghost use Rattle.std.specs.Prelude.{◌≡◌, ◌≤◌, length, IfOk};
ghost use Rattle.wire_session.specs.Planning.{PlansFound, PlansOnWire};

use crate::running::{RunInputs, RunOrder, find_all};
use sii_edit::Command;
use site_mem::FaultPlan;
use station_files::Store;
use station_line::{is_old, site_of};
use station_plan::{PlanAnswers, plan_line};
use std::alloc::Global;
use std::io::Write;
use std::rt::Clock;
use wire_bringup::hand_back;
use wire_faults::WireFault;
use wire_frames::{NumberedWire, Wire};
use wire_scan::FoundWire;

/// Prints what `run_script` would do with this order on the line on this wire: the line is found as for a run, the commands are served on a
/// copy of it in memory, and the answers, the words that change and the rest are printed as `station_plan::plan_line` does. No word of a
/// slave is written, and no file. The EEPROMs are handed back as they were found. Returns how the commands are answered in such a run.
///
/// # Errors
///
/// As for `run_script`, up to where it would write the journal; then as for `plan_line`.
pub fn plan_on_wire<R: Clock + AllocGlobal, W: Wire, S: Store, O: Write>(
    rt: &R,
    wire: &mut NumberedWire<W>,
    order: RunOrder<'_>,
    store: &mut S,
    output: &mut O,
) -> Result<PlanAnswers, WireFault>
    ensures plans { IfOk result (λ answers. PlansOnWire order.entry.asked.mends S.leads (S.files store.old)
        order.entry.named.line.now order.entry.named.script.now answers.answered) }
    ensures same { S.files store.new ≡ S.files store.old }
{
    match find_all(rt, wire, order, store) {
        Ok(given) => {
            let RunInputs { found, commands } = given;
            hand_back(wire, &found.states);
            plan_found(rt.alloc(), found, commands, output)
        }
        Err(fault) => Err(fault),
    }
}

/// Plans a run of the commands on a copy in memory of the line that was found.
fn plan_found<L: Drop, O: Write>(
    alloc: Global,
    found: FoundWire<L>,
    commands: Vec<Command>,
    output: &mut O,
) -> Result<PlanAnswers, WireFault>
    requires some { 1 ≤ length found.slaves.items }
    requires most { length found.slaves.items ≤ 64 }
    ensures { IfOk result (λ answers. PlansFound found.slaves.items found.journal.items commands.items answers.answered) }
{
    let FoundWire {
        line: _,
        slaves,
        images: _,
        mends: _,
        states: _,
        journal,
        lock: _lock,
        tells,
    } = found;
    let was_old = is_old(&journal);
    let site = site_of(alloc, &slaves, journal, FaultPlan::none())?;
    match plan_line(alloc, site, was_old, commands, tells.form, output) {
        Ok(answers) => Ok(answers),
        Err(fault) => Err(WireFault::Station(fault)),
    }
}
