//! Each change of a desk wakes those who sleep until it comes.
//!
//! In each trial one thread sleeps at a desk, and this one makes a change, with nobody else awake who could wake it by accident. Where a
//! wakeup is lost, the trial doesn't end.

ghost use Rattle.std.specs.Prelude.{◌≡◌, ◌<◌, [], IfSome};
ghost use denote.Param.Send.{IsSync};

use book_core::Core;
use book_model::{RomNext, RomOutcome, Status};
use jrn_format::{Form, Journal};
use runner_cases::asks::{Ask, command};
use runner_cases::line::{Slave, plant_of};
use sii_words::ItemList;
use site_core::{DeviceFault, Issued, Settled};
use station_jobs::{Dispatch, Turn};
use station_threads::{BlankLedger, Desk, Refusals, Share, Ticket, Tickets};
use std::alloc::Global;
use std::marker::Brand;
use std::process::Abort;
use std::sync::Wait;
use std::test::*;
use std::thread;
use std::thread::{Scope, Threads, sleep};
use std::time::{Clock, Duration};

/// What is done at the desk.
#[derive(Clone, Copy)]
enum Step {
    /// A command is submitted and accepted.
    Submit(Ask),
    /// The disk does this many actions.
    Disk(usize),
    /// The disk's next action fails.
    DiskFails,
    /// This slave does this many jobs.
    Slave(u16, usize),
    /// This slave's next word, which was issued, can't be written.
    SlaveDies(u16),
    /// A process data cycle is handed out.
    Cycle,
    Finish,
}

/// Who sleeps.
#[derive(Clone, Copy)]
enum Sleeper {
    Disk,
    Slave(u16),
    Cycle,
    /// Who waits for the receipt of the last command.
    Receipt,
    /// Who watches the status.
    Watcher,
}

/// How a sleep ended.
#[derive(Clone, Copy, PartialEq)]
enum End {
    /// With a job.
    Work,
    /// With no more jobs to come.
    Stop,
    Receipt,
    NoReceipt,
    /// With another status, or a book that accepts no more.
    Changed,
    /// None of these.
    Other,
}

/// What is done before, who sleeps then, what is done, and how this ends the sleep.
type Trial = (&'static [Step], Sleeper, Step, End);

const ALIAS: Step = Step::Submit(Ask::Alias(0, 1));

/// Slave 1 has alias 0 already, so no word of it is written.
const SAME: Step = Step::Submit(Ask::Alias(1, 0));

/// The process data gets its cycle of the empty image; an alias for slave 0 is written to the disk but for its last sync.
const OPENED: &[Step] = &[Step::Cycle, ALIAS, Step::Disk(3)];

/// That alias is live, and both of its words are issued; the second isn't settled.
const WRITTEN: &[Step] = &[Step::Cycle, ALIAS, Step::Disk(4), Step::Slave(0, 3)];

/// A word of that alias is issued, and a second command waits for the disk.
const ISSUED: &[Step] = &[
    Step::Cycle,
    ALIAS,
    Step::Disk(4),
    Step::Slave(0, 1),
    Step::Submit(Ask::Alias(1, 2)),
];

/// An append takes four actions of the disk, a retire two; an alias has two words, each issued and settled.
const TRIALS: &[Trial] = &[
    // an accepted command
    (&[], Sleeper::Disk, ALIAS, End::Work),
    (&[], Sleeper::Watcher, ALIAS, End::Changed),
    // the sync of a gate
    (OPENED, Sleeper::Slave(0), Step::Disk(1), End::Work),
    (OPENED, Sleeper::Receipt, Step::Disk(1), End::Receipt),
    (OPENED, Sleeper::Watcher, Step::Disk(1), End::Changed),
    (
        &[Step::Cycle, SAME, Step::Disk(3)],
        Sleeper::Cycle,
        Step::Disk(1),
        End::Work,
    ),
    (
        &[ALIAS, Step::Disk(3), Step::Finish],
        Sleeper::Slave(1),
        Step::Disk(1),
        End::Stop,
    ),
    // the slaves that a command names
    (
        &[
            ALIAS,
            Step::Disk(4),
            Step::Slave(0, 4),
            Step::Submit(Ask::Swap(0, 1)),
            Step::Disk(3),
        ],
        Sleeper::Slave(0),
        Step::Disk(1),
        End::Work,
    ),
    (
        &[
            ALIAS,
            Step::Disk(4),
            Step::Slave(0, 4),
            Step::Submit(Ask::Swap(0, 1)),
            Step::Disk(3),
        ],
        Sleeper::Slave(1),
        Step::Disk(1),
        End::Work,
    ),
    (
        &[Step::Submit(Ask::Group(&[(0, 3), (1, 4)])), Step::Disk(3)],
        Sleeper::Slave(1),
        Step::Disk(1),
        End::Work,
    ),
    (
        &[Step::Submit(Ask::Guarded(&[(0, 3), (1, 4)])), Step::Disk(3)],
        Sleeper::Slave(1),
        Step::Disk(1),
        End::Work,
    ),
    // a word that is settled
    (WRITTEN, Sleeper::Disk, Step::Slave(0, 1), End::Work),
    (WRITTEN, Sleeper::Cycle, Step::Slave(0, 1), End::Work),
    (WRITTEN, Sleeper::Watcher, Step::Slave(0, 1), End::Changed),
    // the sync of a retire
    (
        &[ALIAS, Step::Disk(4), Step::Slave(0, 4), Step::Disk(1)],
        Sleeper::Watcher,
        Step::Disk(1),
        End::Changed,
    ),
    // a fault of a slave
    (
        &[ALIAS, Step::Disk(4), Step::Slave(0, 1)],
        Sleeper::Disk,
        Step::SlaveDies(0),
        End::Stop,
    ),
    (ISSUED, Sleeper::Slave(1), Step::SlaveDies(0), End::Stop),
    (ISSUED, Sleeper::Cycle, Step::SlaveDies(0), End::Stop),
    (ISSUED, Sleeper::Receipt, Step::SlaveDies(0), End::NoReceipt),
    (ISSUED, Sleeper::Watcher, Step::SlaveDies(0), End::Changed),
    // a fault of the disk
    (OPENED, Sleeper::Slave(0), Step::DiskFails, End::Stop),
    (OPENED, Sleeper::Cycle, Step::DiskFails, End::Stop),
    (OPENED, Sleeper::Receipt, Step::DiskFails, End::NoReceipt),
    (OPENED, Sleeper::Watcher, Step::DiskFails, End::Changed),
    // a finish
    (&[], Sleeper::Disk, Step::Finish, End::Stop),
    (&[], Sleeper::Slave(1), Step::Finish, End::Stop),
    (&[Step::Cycle], Sleeper::Cycle, Step::Finish, End::Stop),
    (&[], Sleeper::Watcher, Step::Finish, End::Changed),
];

// ---- what is done

/// A share of a desk, and the ticket of the last command that was submitted with it.
#[derive(Drop)]
struct Submitter<T: Tickets, R: Refusals> {
    share: Share<T, R>,
    last: Option<Ticket>,
}

impl<T: Tickets, R: Refusals> Submitter<T, R> {
    /// Submits the command. It has to be accepted.
    fn submit<W: Wait + Abort>(&mut self, rt: &W, alloc: Global, desk: &Desk<T, R>, ask: &Ask) {
        let asked = command(alloc, ask).expect(rt, "memory");
        let answer = desk.submit(rt, &mut self.share, asked);
        self.last = Some(answer.ok().expect(rt, "a ticket"));
    }
}

/// Does the disk's next action, with this outcome.
fn act<T: Tickets + Send + Sync, R: Refusals + Send + Sync, W: Wait + Abort>(
    rt: &W,
    desk: &Desk<T, R>,
    outcome: Result<(), DeviceFault>,
) {
    let mut side = desk.disk_side();
    match side.next(rt) {
        Turn::Work(_action) => side.done(rt, outcome),
        Turn::Again | Turn::Stop => assert!(rt; false),
    }
}

/// The outcome of a job: an issue is taken, and a settle ends so.
fn outcome_of(job: RomNext, settled: Settled) -> RomOutcome {
    if matches!(job, RomNext::Settle { .. }) {
        RomOutcome::Settled(settled)
    } else {
        RomOutcome::Issued(Issued::Taken)
    }
}

/// Does the slave's next job. An issue is taken, and a settle ends so.
fn work<T: Tickets + Send + Sync, R: Refusals + Send + Sync, W: Wait + Abort>(
    rt: &W,
    desk: &Desk<T, R>,
    slave: u16,
    settled: Settled,
) {
    let mut side = desk.rom_side(slave);
    match side.next(rt) {
        Turn::Work(job) => side.done(rt, outcome_of(job, settled)),
        Turn::Again | Turn::Stop => assert!(rt; false),
    }
}

/// How the answer to who asks for a job ends its sleep. None: it is asked for again.
fn end_by<J: Drop>(answer: Turn<J>) -> Option<End> {
    match answer {
        Turn::Work(_job) => Some(End::Work),
        Turn::Again => None,
        Turn::Stop => Some(End::Stop),
    }
}

/// Does a step.
fn make<T: Tickets + Send + Sync, R: Refusals + Send + Sync, W: Wait + Abort>(
    rt: &W,
    alloc: Global,
    desk: &Desk<T, R>,
    submitter: &mut Submitter<T, R>,
    step: &Step,
) {
    match *step {
        Step::Submit(ask) => submitter.submit(rt, alloc, desk, &ask),
        Step::Disk(count) => {
            for _action in 0..count {
                act(rt, desk, Ok(()));
            }
        }
        Step::DiskFails => act(rt, desk, Err(DeviceFault::Disk)),
        Step::Slave(slave, count) => {
            for _job in 0..count {
                work(rt, desk, slave, Settled::Written);
            }
        }
        Step::SlaveDies(slave) => work(rt, desk, slave, Settled::Dead),
        Step::Cycle => assert!(rt; end_by(desk.cycle_side().next(rt)) == Some(End::Work)),
        Step::Finish => desk.finish(rt),
    }
}

// ---- who sleeps

/// Sleeps until the ticket's command is durable, or can't be any more.
fn sleep_for_receipt<T: Tickets, R: Refusals, W: Wait>(
    rt: &W,
    desk: &Desk<T, R>,
    ticket: Option<Ticket>,
) -> End {
    let Some(ticket) = ticket else {
        return End::Other;
    };
    if desk.wait(rt, ticket).is_ok() {
        End::Receipt
    } else {
        End::NoReceipt
    }
}

/// Who is about to sleep, with the status of the book and the last ticket.
#[derive(Drop)]
struct Tired {
    sleeper: Sleeper,
    seen: Status,
    ticket: Option<Ticket>,
}

/// Sleeps until it is woken. How this ends the sleep. None: it sleeps again.
fn woken<T: Tickets + Send + Sync, R: Refusals + Send + Sync, W: Wait>(
    rt: &W,
    desk: &Desk<T, R>,
    tired: &mut Tired,
) -> Option<End> {
    match tired.sleeper {
        Sleeper::Disk => end_by(desk.disk_side().next(rt)),
        Sleeper::Slave(slave) => end_by(desk.rom_side(slave).next(rt)),
        Sleeper::Cycle => end_by(desk.cycle_side().next(rt)),
        Sleeper::Receipt => Some(sleep_for_receipt(rt, desk, tired.ticket.take())),
        Sleeper::Watcher => {
            desk.changed(rt, &tired.seen);
            Some(End::Changed)
        }
    }
}

/// Sleeps until something ends the sleep.
fn slept<T: Tickets + Send + Sync, R: Refusals + Send + Sync, W: Wait>(
    rt: &W,
    desk: &Desk<T, R>,
    mut tired: Tired,
) -> End {
    for _ in rt.forever() {
        if let Some(end) = woken(rt, desk, &mut tired) {
            return end;
        }
    }
    End::Other
}

// ---- trials

/// Starts the sleeper's thread, gives it time to fall asleep, and makes the change. How its sleep ended. None: no thread could be made.
fn ended_in<
    's,
    E,
    T: Tickets + Send + Sync + 's,
    R: Refusals + Send + Sync + 's,
    W: Wait + Threads + Sync + Clock + Abort,
>(
    scope: &'s Scope<'s, E>,
    rt: &'s W,
    alloc: Global,
    desk: &'s Desk<T, R>,
    submitter: &mut Submitter<T, R>,
    trial: &Trial,
) -> Option<End> {
    let (_before, sleeper, change, _end) = *trial;
    let tired = Tired {
        sleeper,
        seen: desk.status(rt),
        ticket: submitter.last.take(),
    };
    let sleeps = move || -> End
        requires { IsSync W.row }
    { slept(rt, desk, tired) };
    let Ok(handle) = scope.spawn(sleeps) else {
        return None;
    };
    sleep(rt, Duration::from_millis(20));
    make(rt, alloc, desk, submitter, &change);
    Some(handle.join(rt))
}

/// How the sleep of the trial ended.
fn ended<
    'e,
    T: Tickets + Send + Sync + 'e,
    R: Refusals + Send + Sync + 'e,
    W: Wait + Threads + Sync + Clock + Abort,
>(
    rt: &'e W,
    alloc: Global,
    desk: &'e Desk<T, R>,
    submitter: &'e mut Submitter<T, R>,
    trial: &'e Trial,
) -> Option<End> {
    thread::scope(thread::scope_env(), rt, move |scope| -> Option<End> {
        ended_in(scope, rt, alloc, desk, submitter, trial)
    })
}

/// Whether the sleep of the trial ended as it has to, at a desk of this book.
fn wakes_at<
    T: Tickets + Send + Sync,
    R: Refusals + Send + Sync,
    W: Wait + Threads + Sync + Clock + Abort,
>(
    rt: &W,
    alloc: Global,
    tickets: BlankLedger,
    refusals: BlankLedger,
    core: Core,
    trial: &Trial,
) -> bool
    requires core { core ≡ T.opened }
    requires none { core.accepted ≡ [] }
    requires tickets { (tickets.name ≡ T.name) × (tickets.count ≡ T.parts) }
    requires refusals { (refusals.name ≡ R.name) × (refusals.count ≡ R.parts) }
    requires parts { (1 < tickets.count) × (1 < refusals.count) }
{
    let (before, _sleeper, _change, end) = *trial;
    let (desk, share) = Desk::<T, R>::with_share(alloc, core, tickets, refusals)
        .ok()
        .expect(rt, "memory");
    let mut submitter = Submitter { share, last: None };
    for step in before {
        make(rt, alloc, &desk, &mut submitter, step);
    }
    ended(rt, alloc, &desk, &mut submitter, trial) == Some(end)
}

/// Two slaves of zeros, whose process image is empty.
const TWO: &[Slave] = &[Slave::Zero, Slave::Zero];

/// A journal without batches.
fn no_batches(alloc: Global) -> Journal
    ensures form { result.form ≡ Form.Two }
    ensures batches { result.batches ≡ [] }
{
    Journal {
        form: Form::Two,
        batches: ItemList::from_vec(Vec::new(alloc)),
    }
}

/// The book of these slaves, on a journal without batches, with an area of 4,096 bytes. None: memory was refused.
fn book_of(alloc: Global, slaves: &[Slave]) -> Option<Core>
    ensures { IfSome result (λ core. core.accepted ≡ []) }
{
    let plant = plant_of(alloc, slaves)?;
    if plant.len() < 1 || plant.len() > 64 {
        return None;
    }
    Core::open(alloc, plant, 4096, no_batches(alloc)).ok()
}

/// Whether the sleep of the trial ended as it has to.
fn wakes<W: Wait + Threads + Sync + Clock + Abort>(rt: &W, alloc: Global, trial: &Trial) -> bool {
    let core = book_of(alloc, TWO).expect(rt, "memory");
    wakes_at::<Brand, Brand, W>(
        rt,
        alloc,
        BlankLedger::new(2),
        BlankLedger::new(2),
        core,
        trial,
    )
}

#[test]
fn each_change_wakes_those_who_wait_for_it(rt: HostRuntime) {
    for trial in TRIALS {
        assert!(rt; wakes(&rt, rt.alloc(), trial));
    }
}
