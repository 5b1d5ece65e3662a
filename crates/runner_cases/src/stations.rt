//! Calls of a station and what they must give, as rows of a table.

use crate::asks::{Ask, command};
use book_model::Fault;
use site_core::Site;
use site_mem::MemSite;
use station_alone::{Alone, Answer, Choice};
use std::alloc::Global;

/// Calls of a station, and what they must give.
#[derive(Clone, Copy)]
pub enum Event {
    Submit(Ask, Answer),
    /// A number of steps of the disk, and the last answer.
    Disk(u16, Answer),
    /// Slave, number of its steps, and the last answer.
    Rom(u16, u16, Answer),
    /// Rounds until nothing is done any more, and the last answer.
    Serve(Answer),
    /// The answers to steps in a row: of slave 0, of the disk, a migration, and of slave 1.
    Run(&'static [Answer]),
    /// The numbers of accepted, durable and settled commands, and of live bytes.
    Status([u64; 4]),
}

/// The numbers of accepted, durable and settled commands, and of live bytes.
pub fn status_of<S: Site>(station: &Alone<S>) -> [u64; 4] {
    let status = station.core().status();
    [
        status.accepted,
        status.durable,
        status.settled,
        status.live_bytes,
    ]
}

/// The fault that has closed the book.
pub fn fault_of<S: Site>(station: &Alone<S>) -> Option<Fault> {
    station.core().fault()
}

/// Submits a command.
pub fn submit<S: Site>(alloc: Global, station: &mut Alone<S>, ask: &Ask) -> Answer {
    match command(alloc, ask) {
        Some(command) => station.submit(&command),
        None => Answer::NoMemory,
    }
}

/// Makes the same step `times` times. Returns the last answer.
pub fn steps(station: &mut Alone<MemSite>, choice: &Choice, times: u16) -> Answer {
    let mut answer = Answer::Idle;
    for _step in 0..times {
        answer = station.act(choice);
    }
    answer
}

/// A round of the disk and three slaves. Returns the last answer `Did` or `Failed` of a slave, else that of the disk.
fn round<S: Site>(station: &mut Alone<S>) -> Answer {
    let mut answer = station.act(&Choice::Disk);
    for slave in 0..3u16 {
        let (_next, second) = station.serve(slave);
        if matches!(second, Answer::Did | Answer::Failed(_)) {
            answer = second;
        }
    }
    answer
}

/// Makes rounds until one doesn't answer `Did`, and returns that answer.
pub fn serve<S: Site>(station: &mut Alone<S>) -> Answer {
    for _round in 0..10_000u16 {
        let answer = round(station);
        if answer != Answer::Did {
            return answer;
        }
    }
    Answer::Did
}

/// Whether steps in a row give these answers.
fn is_run(station: &mut Alone<MemSite>, wanted: &[Answer]) -> bool {
    let choices = [
        Choice::Rom(0),
        Choice::Disk,
        Choice::Migrate,
        Choice::Rom(1),
    ];
    match station.run(&choices) {
        Ok(answers) => answers.as_slice() == wanted,
        Err(_) => false,
    }
}

/// Whether the calls give what they must.
fn comes(alloc: Global, station: &mut Alone<MemSite>, event: &Event) -> bool {
    match event {
        Event::Submit(ask, wanted) => submit(alloc, station, ask) == *wanted,
        Event::Disk(times, wanted) => steps(station, &Choice::Disk, *times) == *wanted,
        Event::Rom(slave, times, wanted) => steps(station, &Choice::Rom(*slave), *times) == *wanted,
        Event::Serve(wanted) => serve(station) == *wanted,
        Event::Run(wanted) => is_run(station, wanted),
        Event::Status(wanted) => status_of(station) == *wanted,
    }
}

/// Whether all calls give what they must.
pub fn all_come(alloc: Global, station: &mut Alone<MemSite>, events: &[Event]) -> bool {
    for event in events {
        if !comes(alloc, station, event) {
            return false;
        }
    }
    true
}
