//! The subcommands that work on a line, `init`, `run` and `recover`, and those that tell of it: `plan`, `journal` and `layout`.

use crate::arguments::{JSON, LINE, QUIET, REPORT, SCRIPT, script_of};
use crate::serving::Host;
use command_line::{
    Argument, ParsedArguments, Subcommand, TYPED_COMMANDS as COMMANDS, argument, subcommand,
};
use line_changes::{look_before, report_after};
use line_watch::Watch;
use station_files::{ExitStatus, Failures, Store, worse};
use station_rows::Form;
use station_session::{Fuse, RunNames, recover_line, run_script};
use std::io::Write;

/// A run or a recovery of a line.
#[derive(Clone, Copy)]
pub(crate) struct LineTask<'a> {
    /// The name of the line file.
    pub line: &'a str,
    /// The name of the script that is run; `None` where the line is recovered.
    pub script: Option<&'a str>,
    /// A planned power cut of a run, if there is one.
    pub fuse: Option<Fuse>,
    /// Whether what has changed is printed at the end.
    pub reports: bool,
}

pub(crate) const INIT: Subcommand = subcommand!("init": "Formats the journal of a line of slaves",
    long: "Reads a line file and the EEPROM images that it names, and makes an empty journal in the file that it names for it. That file \
        must not be there yet.",
    after: "Example:\n  sii_station init line.toml",
    answers: "Answers:
  formatted AREA   the journal is there, and empty; its area has AREA bytes
Faults go to standard error as: fault CODE NAME. The subcommand explain says what
a code means.

Exit status: 0 done, 2 wrong usage, 3 a file or its form, or a journal is there
already, 4 a device, 5 no memory.

Example:
  sii_station init line.toml",
    [LINE, JSON]);

pub(crate) const RUN: Subcommand =
    subcommand!("run": "Runs a script of commands on a line of slaves",
    long: "Reads a line file, the EEPROM images and the journal that it names and a script file, submits the script's commands in order \
        and prints the answer to each, brings them to the slaves by way of the journal, and saves images and journal.",
    after: "Examples:\n  sii_station run line.toml script.toml\n  sii_station run line.toml -e 'alias = { slave = 2, value = 7 }'",
    answers: "Answers:
  command I accepted N           command I of the script has number N, from 0
  command I refused CODE NAME    it isn't done, and changes nothing
  ... at P                       of a group, edit P is the reason
  accepted A durable D settled S
                                 how many commands were accepted, how many of
                                 them no power cut can undo any more, and how
                                 many are in the slaves
Faults go to standard error as: fault CODE NAME. The subcommand explain says what
a code means.

With --fuse the power is cut: K writes to the journal and to the slaves pass, and
the next one is torn. Unsynced bytes of the journal are left as the low byte of W,
and a word that a slave was writing as W. What is left is saved, the run ends with
fault 42 Stopped and status 4, and recover mends the line.

Exit status: 0 done, 1 a command was refused, 2 wrong usage, 3 a file or its
form, 4 a device or a power cut, 5 no memory. The highest that applies wins.

Example:
  sii_station run line.toml script.toml",
    [LINE, SCRIPT, COMMANDS,
     argument!("fuse": Large("K") => "Cuts the power once K writes have passed, 0 to 4294967295"),
     argument!("left": Small("W") => "What a torn write leaves, 0 to 65535; 0 where nothing is said"),
     REPORT, JSON, QUIET]);

pub(crate) const RECOVER: Subcommand =
    subcommand!("recover": "Ends what a run has left in the journal",
    long: "Reads a line file, the EEPROM images and the journal that it names, brings to the slaves what the journal holds, and saves \
        images and journal. A journal of version 1 becomes one of version 2.",
    after: "Example:\n  sii_station recover line.toml",
    answers: "Answers:
  recovered batches B commands C words W
                   the journal held B batches that weren't done, with C commands,
                   and W words of them were written to the slaves
Each command that the journal holds in whole is then done; of any other no word was
written. A line can be recovered again at any time; of a line that is in order it
says 0, 0, 0.
Faults go to standard error as: fault CODE NAME. The subcommand explain says what
a code means.

Exit status: 0 done, 2 wrong usage, 3 a file or its form, 4 a device, 5 no memory.

Example:
  sii_station recover line.toml",
    [LINE, REPORT, JSON, QUIET]);

pub(crate) const PLAN: Subcommand =
    subcommand!("plan": "Says what a script would do to a line, and does nothing",
    long: "Reads what run would read, and prints how run would answer each command, which words of which slaves would change, how much \
        would be written, and the process image before and after if it would change. No file is written.",
    after: "Examples:\n  sii_station plan line.toml script.toml\n  sii_station plan line.toml - < script.toml",
    answers: "Answers:
  command I accepted N           as run would answer, see run --help
  command I refused CODE NAME
  accepted A durable D settled S
  slave P word 0xW old 0xO new 0xN
                   word W of slave P would get the value N in place of O
  slave P words 0xV to 0xW old .. new ..
                   the same of neighbouring words
  slave P words 0xV to 0xW count C
                   the same of more than 8 words
  command accepted as N makes word 0x003e of slave P say W words, and its EEPROM has H
                   the command changes the word by which masters and tools tell the
                   size of an EEPROM, and it is wrong then
  writes words W bytes B syncs S
                   how many words would be written to the slaves, and how many
                   bytes to the journal with how many syncs, by one thread. The
                   threads of run may write more.
  process image before
  process image after
                   if it changes, each with the lines that layout prints
Faults go to standard error as: fault CODE NAME. The subcommand explain says what
a code means.

No file is written. The journal is locked while the files are read and planned:
of a line on which another station is busy it says fault 95 Busy.

Exit status, as of run: 0 done, 1 a command was refused, 2 wrong usage, 3 a file
or its form, 5 no memory. The highest that applies wins.

Examples:
  sii_station plan line.toml script.toml
  sii_station plan line.toml - < script.toml
  sii_station plan line.toml script.toml --json",
    [LINE, SCRIPT, COMMANDS, JSON]);

pub(crate) const JOURNAL: Subcommand =
    subcommand!("journal": "Says what a journal holds, and what a recovery would do",
    long: "Reads a line file, the EEPROM images and the journal that it names, and prints the journal's header, the batches that aren't \
        done with their commands, and which words of which slaves a recovery would change. Of a damaged journal it prints what its \
        header says, and where it is damaged. No file is written.",
    after: "Example:\n  sii_station journal line.toml",
    answers: "Answers:
  journal version V slaves N area A
                   what the header says; the area has A bytes
  half H batches B live L free F
                   half H of the area has B batches that aren't done; they take L
                   bytes of it. In version 1 there is one area and no half.
  batch I half H generation G at P bytes B commands C
                   batch I, in the order of a recovery; it begins at byte P of the
                   file
  command N slave P word 0xW new 0xX
                   a command of the batch, and a word that it changes; several
                   words and long runs as plan prints them
  recovery batches B commands C words W
                   what recover would find and write, then the words that change
                   as plan prints them
Of a journal that recover refuses only what the header says is printed. The fault
goes to standard error, as: fault CODE NAME; of a damaged one, with the byte of the
file that can't be read. The subcommand explain says what a code means.

No file is written.

Exit status: 0 done, 2 wrong usage, 3 a file or its form, or recover refuses the
journal, 5 no memory.

Example:
  sii_station journal line.toml",
    [LINE, JSON]);

pub(crate) const LAYOUT: Subcommand =
    subcommand!("layout": "Prints the process image of a line of slaves",
    long: "Reads a line file and the EEPROM images that it names, and prints where the process data of each sync manager lies in the \
        process image, then the sizes of outputs and inputs in bytes and the working counter that is expected. No file is written.",
    after: "Example:\n  sii_station layout line.toml",
    answers: "Answers:
  slave P sm M out offset O size S bits B
                   the outputs of sync manager M of slave P: where they begin
                   in the process image, and their length in bytes and in bits
  slave P sm M in ..
                   the same of inputs
  outputs A inputs B counter C
                   all outputs and inputs in bytes, and the working counter of
                   a cycle that every slave takes part in

Exit status: 0 done, 2 wrong usage, 3 a file or its form, or no process image,
5 no memory.

Example:
  sii_station layout line.toml",
    [LINE, JSON]);

/// The task of `run` or of `recover`, which has no script and no fuse.
pub(crate) fn line_task<'a>(given: &ParsedArguments<'a>) -> Result<LineTask<'a>, &'static str> {
    let fuse = given.cut("fuse")?;
    Ok(LineTask {
        line: given.word("LINE"),
        script: (given.subcommand == "run").then_some(script_of(given)),
        fuse: fuse.map(|(writes, left)| Fuse { writes, left }),
        reports: given.has("report"),
    })
}

/// Runs a script or recovers a line, and prints what has changed, in this form, if that is asked for. A fault is noted.
pub(crate) fn work_on_line<H: Host, S: Store, W: Write, T: Write + Send>(
    watch: Watch<'_, T, H>,
    asked: LineTask<'_>,
    form: Form,
    store: &mut S,
    output: &mut W,
    failures: &mut Failures,
) -> ExitStatus {
    let LineTask { line, fuse, .. } = asked;
    let alloc = watch.rt.alloc();
    let looked = look_before(alloc, asked.reports, line, store);
    let ended = match asked.script {
        Some(script) => {
            let names = RunNames { line, script };
            run_script(watch, names, fuse, store, output, failures).map(|ran| ran.status)
        }
        None => {
            recover_line(watch, line, store, output, failures).map(|recovered| recovered.status)
        }
    };
    let status = failures.note_status(ended);
    let reported = report_after(alloc, form, looked, status, store, output);
    worse(status, failures.note_end(reported))
}
