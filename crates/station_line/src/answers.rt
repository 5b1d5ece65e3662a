//! The answers to the commands of a script, and the refusals and faults of a book, as the program prints them; and what it prints of a recovery.
ghost use Rattle.std.specs.Prelude.{◌≡◌, ◌≢◌, IfErr, Some};
ghost use Rattle.station_files.specs.Faults.{IsOfStream};
ghost use Rattle.station_line.specs.Faults.{fault_of_book};

use crate::answered::Answered;
use book_model::{Fault as BookFault, SubmitRefusal};
use station_alone::Recovered;
use station_files::{Fault, Refused};
use station_listing::Code;
use std::io;
use std::io::Write;

/// The refusal of a command, as it is printed.
pub fn refused_as(refusal: SubmitRefusal) -> Refused {
    let code = match refusal {
        SubmitRefusal::Command(refusal) => return Refused::from(refusal),
        SubmitRefusal::TooLarge => Code::TooLarge,
        SubmitRefusal::Full => Code::Full,
        SubmitRefusal::Closed => Code::Closed,
        SubmitRefusal::OldJournal => Code::OldJournal,
    };
    Refused {
        code,
        position: None,
    }
}

/// The program's fault for the fault that closed a book.
pub fn fault_of_book(fault: BookFault) -> Fault
    ensures { result ≡ fault_of_book (Some fault) }
{
    match fault {
        BookFault::Disk => Fault::Disk,
        BookFault::Stopped => Fault::Stopped,
        BookFault::SlaveDead { slave } => Fault::SlaveDead { slave },
    }
}

/// Takes the answers to the commands of a script, in order, and after them the totals. Each writer takes them as lines of text.
pub trait Answers {
    ghost use Rattle.std.specs.Prelude.{IfErr};
    ghost use Rattle.station_files.specs.Faults.{IsOfStream};

    /// The command at this place of the script, counted from 0, is accepted and has this number.
    ///
    /// # Errors
    ///
    /// `File` or `Memory` where the answer can't be written.
    fn accepted(&mut self, place: usize, number: u64) -> Result<(), Fault>
        ensures { IfErr result IsOfStream };

    /// The command at this place of the script, counted from 0, is refused.
    ///
    /// # Errors
    ///
    /// `File` or `Memory` where the answer can't be written.
    fn refused(&mut self, place: usize, refused: Refused) -> Result<(), Fault>
        ensures { IfErr result IsOfStream };

    /// The commands are served: so many were accepted, are durable, and are settled.
    ///
    /// # Errors
    ///
    /// `File` or `Memory` where they can't be written.
    fn totals(&mut self, accepted: u64, durable: u64, settled: u64) -> Result<(), Fault>
        ensures { IfErr result IsOfStream };
}

impl<W: Write> Answers for W {
    fn accepted(&mut self, place: usize, number: u64) -> Result<(), Fault> {
        print_accepted(place, number, self)
    }

    fn refused(&mut self, place: usize, refused: Refused) -> Result<(), Fault> {
        writeln!(self, "command {place} {refused}")?;
        Ok(())
    }

    fn totals(&mut self, accepted: u64, durable: u64, settled: u64) -> Result<(), Fault> {
        writeln!(
            self,
            "accepted {accepted} durable {durable} settled {settled}"
        )?;
        self.flush()?;
        Ok(())
    }
}

/// Prints that the command at this place of the script, counted from 0, is accepted and has this number.
///
/// # Errors
///
/// `File` or `Memory` where the output can't be written.
pub fn print_accepted<W: Write>(place: usize, number: u64, output: &mut W) -> Result<(), Fault>
    ensures { IfErr result IsOfStream }
{
    writeln!(output, "command {place} accepted {number}")?;
    Ok(())
}

/// Prints why the command at this place of the script, counted from 0, is refused, which is one more answer.
///
/// # Errors
///
/// `File` or `Memory` where the output can't be written.
pub fn print_refused<W: Write>(
    place: usize,
    refused: Refused,
    output: &mut W,
    answered: &mut Answered,
) -> Result<(), Fault>
    ensures answered { answered.new ≢ Answered.AllAccepted }
    ensures failed { IfErr result IsOfStream }
{
    *answered = answered.and_refused(refused);
    writeln!(output, "command {place} {refused}")?;
    Ok(())
}

/// Writes the counts of a recovery as one line: batches and commands that were live, and words that were written.
///
/// # Errors
///
/// As the output answers.
pub fn write_recovered<W: Write>(recovered: Recovered, output: &mut W) -> io::Result<()> {
    let Recovered {
        batches,
        commands,
        words,
    } = recovered;
    writeln!(
        output,
        "recovered batches {batches} commands {commands} words {words}"
    )?;
    output.flush()
}
