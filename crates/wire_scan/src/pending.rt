//! The subcommand `pending`: what a recovery is still to write, and a slave that is given up.
ghost use Rattle.std.specs.Prelude.{◌≡◌, ◌≤◌, length, None, IfErr, IfOk, IfSome, OnOk};
ghost use Rattle.station_files.specs.Faults as station;
ghost use Rattle.wire_faults.specs.Faults.{IsOfStream};
ghost use Rattle.wire_faults.specs.declared.faults.WireFault.TheVariants.{NothingPending};
ghost use Rattle.wire_scan.specs.Opening.{IfOtherWords, IsOtherFault, RefusesSlaveOf};
ghost use Rattle.wire_scan.specs.Pending.{GivesUp, GivesUpFound, GivesUpPending, IsPending, PendsNothing, WritesImageFirst, WritesInOrder, let_pass};

use crate::asked::{Mend, Mends, ScanOptions};
use crate::journals::{sizes_of, validate_journal};
use crate::keeping::recovered;
use crate::opening::{FoundWire, find_line};
use crate::validating::copies_of;
use jrn_release::without_slave;
use line_changes::{ChangedWord, changed_words};
use sii_words::Plant;
use station_files::{Fault, Store};
use station_line::of_journal;
use station_rows::{Form, Rows, Value, data, named, said};
use std::alloc::Global;
use std::io::Write;
use std::rt::Clock;
use wire_bringup::hand_back;
use wire_faults::WireFault;
use wire_frames::{NumberedWire, Wire};

/// What `pending` is asked for.
#[derive(Clone, Copy)]
pub struct PendingOrder<'a> {
    /// The name of the line file.
    pub line: &'a str,
    /// What is asked for that isn't done where nothing is said.
    pub asked: ScanOptions,
    /// The slave that is given up, if one is.
    pub gives_up: Option<u16>,
    /// Text, or rows of JSON.
    pub form: Form,
}

/// Prints how many words of each slave of the line on this wire a recovery is still to write, and each of them: what it has, and what it is to get.
/// No file is written, and no word of a slave, unless a slave is given up: then its image file gets the words that it has, and the journal's file is
/// replaced by one in which its live batches have nothing for this slave, and all else that they had. A recovery then completes what the other slaves
/// are to get. The EEPROMs are handed back.
///
/// # Errors
///
/// As for `find_line`, where slaves in any state are allowed: `OtherWords` comes only where a slave is given up, and not for that one. `NothingPending`
/// where the slave that is given up has all words that the journal names. `File` or `Memory`, as the output answers. Nothing is written up to there.
/// Then `File` or `Memory`, as the store answers; the journal's file is replaced last, so a call that was cut can be repeated.
pub fn list_pending<R: Clock + AllocGlobal, W: Wire, S: Store, O: Write>(
    rt: &R,
    wire: &mut NumberedWire<W>,
    order: PendingOrder<'_>,
    store: &mut S,
    output: &mut O,
) -> Result<(), WireFault>
    ensures listed { order.entry.gives_up ≡ None → S.files store.new ≡ S.files store.old }
    ensures given { IfSome order.entry.gives_up (λ slave.
        OnOk result (GivesUp (S.files store.old) (S.files store.new) order.entry.line.now order.entry.asked.mends slave)) }
    ensures first { IfSome order.entry.gives_up (WritesInOrder (S.files store.old) (S.files store.new) order.entry.line.now) }
    ensures refused { IfErr result (λ fault. ¬ IsOfStream fault → S.files store.new ≡ S.files store.old) }
    ensures words { IfErr result (IfOtherWords (RefusesSlaveOf (S.files store.old) order.entry.line.now
        (let_pass order.entry.gives_up order.entry.asked.mends))) }
    ensures passed { order.entry.gives_up ≡ None → IfErr result IsOtherFault }
{
    // No slave is refused for other words than those of its image file where nothing is given up, and else all but the one that is.
    let asked = ScanOptions {
        is_forced: true,
        mends: let_pass(order.gives_up, order.asked.mends),
        ..order.asked
    };
    match find_line(rt, wire, order.line, asked, store) {
        Ok(found) => {
            hand_back(wire, &found.states);
            list_found(rt.alloc(), &found, order, store, output)
        }
        Err(fault) => Err(fault),
    }
}

/// What counts as right of each slave.
fn let_pass(gives_up: Option<u16>, mends: Mends) -> Mends
    ensures { result ≡ let_pass gives_up mends }
{
    let Some(slave) = gives_up else {
        return [Mend::Slave; 64];
    };
    let place = usize::from(slave);
    if place >= mends.len() {
        return mends;
    }
    let mut passing = mends;
    passing[place] = Mend::Slave;
    passing
}

/// Prints what is pending on a line that was found, and gives a slave up if that is said.
fn list_found<S: Store, O: Write>(
    alloc: Global,
    found: &FoundWire<S::Lock>,
    order: PendingOrder<'_>,
    store: &mut S,
    output: &mut O,
) -> Result<(), WireFault>
    requires some { 1 ≤ length found.now.slaves.items }
    requires most { length found.now.slaves.items ≤ 64 }
    requires count { length found.now.slaves.items ≡ length found.now.line.images.items }
    ensures listed { order.entry.gives_up ≡ None → S.files store.new ≡ S.files store.old }
    ensures given { IfSome order.entry.gives_up (λ slave. OnOk result (GivesUpPending (S.files store.old) (S.files store.new)
        found.now.line found.now.slaves.items found.now.journal.items slave)) }
    ensures first { IfSome order.entry.gives_up (WritesImageFirst (S.files store.old) (S.files store.new) found.now.line found.now.slaves.items) }
    ensures refused { IfErr result (λ fault. ¬ IsOfStream fault → S.files store.new ≡ S.files store.old) }
    ensures failed { IfErr result IsOtherFault }
{
    let pending = pending_words(alloc, found, store)?;
    let slaves = found.slaves.len();
    match order.gives_up {
        Some(slave) => {
            require_pending(&pending, slave)?;
            print_pending(alloc, slaves, &pending, order, output)?;
            return give_up(alloc, found, slave, store);
        }
        None => {
            print_pending(alloc, slaves, &pending, order, output)?;
            return Ok(());
        }
    }
}

/// The words that a recovery of a line is still to write, slave by slave.
fn pending_words<S: Store>(
    alloc: Global,
    found: &FoundWire<S::Lock>,
    store: &mut S,
) -> Result<Vec<ChangedWord>, WireFault>
    requires some { 1 ≤ length found.now.slaves.items }
    requires most { length found.now.slaves.items ≤ 64 }
    ensures pending { IfOk result (λ words. IsPending found.now.slaves.items found.now.journal.items words.items) }
    ensures failed { IfErr result IsOtherFault }
    ensures same { S.files store.new ≡ S.files store.old }
{
    let name = found.line.journal.as_str();
    let live = validate_journal(alloc, name, &found.journal, &found.slaves, store)?;
    let before = Plant::of(copies_of(alloc, &found.slaves)?);
    let copies = copies_of(alloc, &found.slaves)?;
    let after = recovered(copies, live.batches.as_slice());
    Ok(changed_words(alloc, &before, &after)?)
}

/// Looks whether there is a word of this slave among those that are pending.
///
/// # Errors
///
/// `NothingPending`.
fn require_pending(pending: &[ChangedWord], slave: u16) -> Result<(), WireFault>
    ensures some { OnOk result (¬ PendsNothing pending.now slave) }
    ensures none { IfErr result (λ fault. (fault ≡ NothingPending slave) × PendsNothing pending.now slave) }
{
    if pending.iter().any(|word| word.slave == slave) {
        return Ok(());
    }
    Err(WireFault::NothingPending {
        slave: usize::from(slave),
    })
}

/// Prints how many words of each slave are pending, and each of them.
fn print_pending<O: Write>(
    alloc: Global,
    slaves: usize,
    pending: &[ChangedWord],
    order: PendingOrder<'_>,
    output: &mut O,
) -> Result<(), Fault>
    requires { slaves ≤ 64 }
    ensures { IfErr result station.IsOfStream }
{
    let mut rows = Rows::new(alloc, order.form);
    for slave in 0..slaves as u16 {
        let own = pending.iter().filter(|word| word.slave == slave);
        let is_given_up = order.gives_up == Some(slave);
        let row = [
            named("slave", slave),
            named("pending", own.count()),
            said("given up", is_given_up),
            data("given_up", is_given_up),
        ];
        rows.put("slave", &row)?;
        for word in pending.iter().filter(|word| word.slave == slave) {
            let row = [
                named("slave", slave),
                named("word", Value::Word(word.at)),
                named("has", Value::Word(word.old)),
                named("pending", Value::Word(word.new)),
            ];
            rows.put("pending", &row)?;
        }
    }
    rows.write(output)
}

/// Gives a slave up: its image file gets the words that it has, and then the journal's file is replaced by one that has nothing for this slave.
///
/// # Errors
///
/// `NothingPending` where the line doesn't have this slave; as for `without_slave`; then `File` or `Memory`, as the store answers.
fn give_up<S: Store>(
    alloc: Global,
    found: &FoundWire<S::Lock>,
    slave: u16,
    store: &mut S,
) -> Result<(), WireFault>
    requires count { length found.now.slaves.items ≡ length found.now.line.images.items }
    requires most { length found.now.slaves.items ≤ 64 }
    ensures given { OnOk result (GivesUpFound (S.files store.old) (S.files store.new)
        found.now.line found.now.slaves.items found.now.journal.items slave) }
    ensures first { WritesImageFirst (S.files store.old) (S.files store.new) found.now.line found.now.slaves.items slave }
    ensures refused { IfErr result (λ fault. ¬ IsOfStream fault → S.files store.new ≡ S.files store.old) }
    ensures failed { IfErr result IsOtherFault }
{
    let place = usize::from(slave);
    if place >= found.slaves.len() {
        return Err(WireFault::NothingPending { slave: place });
    }
    let image = found.slaves[place].to_bytes()?;
    let sizes = sizes_of(alloc, &found.slaves)?;
    let journal = match without_slave(alloc, &found.journal, &sizes, slave) {
        Ok(journal) => journal,
        Err(fault) => return Err(WireFault::Station(of_journal(fault))),
    };
    store.write(found.line.images[place].as_str(), &image)?;
    store.write(found.line.journal.as_str(), &journal)?;
    Ok(())
}
