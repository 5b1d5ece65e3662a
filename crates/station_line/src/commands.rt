//! Submits the commands of a script to a station on one thread, and serves them.
ghost use Rattle.std.specs.Prelude.{◌≡◌, ◌∷◌, [], IsTrue, OnOk, None};
ghost use Rattle.station_line.specs.Rounds.{AnswersCommand, IsAccepted, ServesOrCloses, ServesSo, SubmitsSo};

use crate::answered::Answered;
use crate::answers::{Answers, fault_of_book, refused_as};
use crate::rounds::{serve_all, serve_round};
use book_core::Core;
use book_model::SubmitRefusal;
use sii_edit::Command;
use site_core::Site;
use station_alone::{Alone, Answer};
use station_files::{Fault, Refused};
use station_listing::Code;

/// Submits the commands in order to a station of `slaves` slaves, tells the answer to each, serves them in rounds, and tells the totals,
/// also after a fault. A command is dropped once it is answered.
///
/// # Errors
///
/// `File` where an answer can't be written; `Memory` at any point, also where a round had no memory; `Unserved` where 2^64 - 1 rounds don't
/// suffice; and otherwise the fault that closed the book. Commands that were accepted before stay accepted.
pub fn serve_commands<S: Site, A: Answers>(
    alone: &mut Alone<S>,
    slaves: u16,
    commands: Vec<Command>,
    answers: &mut A,
    answered: &mut Answered,
) -> Result<(), Fault>
    ensures { ServesSo commands.items result answered.old answered.new alone.old alone.new }
{
    let served = serve_in_rounds(alone, slaves, commands, answers, answered);
    let ended = end_session(alone.core(), answers);
    match served {
        Ok(()) => ended,
        Err(fault) => Err(fault),
    }
}

/// Submits the commands in order, tells the answer to each, and serves them in rounds.
fn serve_in_rounds<S: Site, A: Answers>(
    alone: &mut Alone<S>,
    slaves: u16,
    commands: Vec<Command>,
    answers: &mut A,
    answered: &mut Answered,
) -> Result<(), Fault>
    ensures { ServesOrCloses commands.items result answered.old answered.new alone.old alone.new }
{
    submit_all(alone, slaves, commands, answers, answered)?;
    serve_all(alone, slaves)
}

/// Tells the totals, and gives the fault that closed the book, if one did.
fn end_session<A: Answers>(core: &Core, answers: &mut A) -> Result<(), Fault>
    ensures { OnOk result (core.now.fault ≡ None) }
{
    let totals = core.status();
    answers.totals(totals.accepted, totals.durable, totals.settled)?;
    match core.fault() {
        Some(fault) => Err(fault_of_book(fault)),
        None => Ok(()),
    }
}

/// Submits the commands in order, and tells the answer to each.
fn submit_all<S: Site, A: Answers>(
    alone: &mut Alone<S>,
    slaves: u16,
    commands: Vec<Command>,
    answers: &mut A,
    answered: &mut Answered,
) -> Result<(), Fault>
    ensures { SubmitsSo commands.items result answered.old answered.new alone.old alone.new }
{
    let mut place = 0usize;
    for command in commands {
        submit_next(alone, slaves, place, command, answers, answered)?;
        place = place.saturating_add(1);
    }
    Ok(())
}

/// Submits the command at position `place` of the script, from 0, tells the answer, and drops the command.
fn submit_next<S: Site, A: Answers>(
    alone: &mut Alone<S>,
    slaves: u16,
    place: usize,
    command: Command,
    answers: &mut A,
    answered: &mut Answered,
) -> Result<(), Fault>
    ensures { SubmitsSo (command ∷ []) result answered.old answered.new alone.old alone.new }
{
    submit_one(alone, slaves, place, &command, answers, answered)
}

/// Submits the command at position `place` of the script, from 0, and tells the answer. While the book is full, it makes a round and
/// submits the command again.
fn submit_one<S: Site, A: Answers>(
    alone: &mut Alone<S>,
    slaves: u16,
    place: usize,
    command: &Command,
    answers: &mut A,
    answered: &mut Answered,
) -> Result<(), Fault>
    ensures { SubmitsSo (command.now ∷ []) result answered.old answered.new alone.old alone.new }
{
    for _round in 0..u64::MAX {
        let answer = alone.submit(command);
        if !is_full(answer) {
            return tell_answer(place, answer, answers, answered);
        }
        serve_round(alone, slaves)?;
    }
    Err(Fault::Unserved)
}

/// Whether the book is full, so that the command has to wait.
fn is_full(answer: Answer) -> bool
    ensures { IsTrue result → ¬ IsAccepted answer }
{
    matches!(answer, Answer::Refused(SubmitRefusal::Full))
}

/// Tells the answer to the command at position `place` of the script.
fn tell_answer<A: Answers>(
    place: usize,
    answer: Answer,
    answers: &mut A,
    answered: &mut Answered,
) -> Result<(), Fault>
    requires { AnswersCommand answer }
    ensures { answered.new ≡ Answered.AllAccepted → (answered.old ≡ Answered.AllAccepted) × IsAccepted answer }
{
    let refused = match answer {
        Answer::Accepted(number) => return answers.accepted(place, number),
        Answer::Refused(refusal) => refused_as(refusal),
        Answer::NoMemory => Refused {
            code: Code::Memory,
            position: None,
        },
        Answer::Did | Answer::Idle | Answer::Ended | Answer::Failed(_) => unreachable!(),
    };
    *answered = answered.and_refused(refused);
    answers.refused(place, refused)
}
