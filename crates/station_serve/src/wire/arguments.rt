//! What a command line asks for.

use crate::arguments::{compared_in, form_of, shown_in};
use crate::pages::code_asked;
use crate::wire::changing::{Change, New};
use crate::wire::one_slave::{Look, Purpose, which_in};
use crate::wire::rows::{rows, wire_program};
use command_line::{ParsedArguments, Script, Unread, read_typed, read_words, refuse, small_in};
use sii_words::{MAX_SLAVES, is_device_size};
use station_listing::Code;
use station_rows::Form;
use station_session::RunNames;
use std::alloc::Global;
use wire_bringup::Sizes;
use wire_frames::{FRAME_BYTES, Room};
use wire_scan::{Mend, Mends, Named, PendingOrder, ScanOptions, Tells};
use wire_session::RunOrder;

/// A command line that was read.
#[derive(Drop)]
pub struct Arguments<'a> {
    /// The name of the file that the text goes to; `None` for standard error.
    pub text: Option<&'a str>,
    pub(crate) given: ParsedArguments<'a>,
    pub(crate) tenure: Tenure,
    pub(crate) task: Task<'a>,
    /// The script of typed commands, where these stand in place of a script file.
    pub(crate) script: Option<Script>,
}

/// What a command line asks for: a subcommand with its arguments.
#[derive(Clone, Copy)]
pub(crate) enum Task<'a> {
    /// Leaves the words of all slaves as they are.
    Reads(Reading<'a>),
    /// Runs a script on the line. In this folder, if it is known, a call on one slave may have been cut.
    Run(RunOrder<'a>, Option<&'a str>),
    /// Recovers the line of this line file.
    Recover(&'a str, ScanOptions),
    /// Recovers the line on which the last call that changed one slave was cut, whose files are in this folder.
    RecoverLast(&'a str, ScanOptions),
    /// Says what a recovery is still to write, and gives up a slave if that is said. Where no line file is named, it is about the line of the last
    /// call that changed one slave, whose files are in this folder.
    Pending(PendingOrder<'a>, Option<&'a str>),
    /// Changes one slave.
    Change(Change<'a>),
}

/// What leaves the words of all slaves as they are. The sizes of EEPROMs are there as far as they are given.
#[derive(Clone, Copy)]
pub(crate) enum Reading<'a> {
    /// Prints a line for each slave, which is compared with its image file where a line file is named.
    Scan(Option<&'a str>, Sizes, Form),
    /// Writes the slaves' image files, which this line file names.
    Backup(&'a str, Sizes),
    /// Writes the slaves' image files into this folder, under new names, which begin with the date and the time.
    BackupTo(&'a str, Sizes),
    /// Makes an empty journal for the line of this line file.
    Init(&'a str, ScanOptions),
    /// Says what a run would do, and does nothing.
    Plan(RunOrder<'a>),
    /// Reads one slave.
    Look(Look<'a>),
    /// Explains one code, or all of them.
    Explain(Option<Code>),
}

impl<'a> Task<'a> {
    /// The files of a run, or of the plan of one; no names where they aren't known.
    pub(crate) fn run_files(self) -> RunNames<'a> {
        let (line, script) = match self {
            Task::Run(RunOrder { named, .. }, _) => (named.line, named.script),
            Task::Reads(Reading::Plan(RunOrder { named, .. })) => (named.line, named.script),
            _ => ("", ""),
        };
        RunNames { line, script }
    }
}

/// Whose the wire is.
#[derive(Clone, Copy)]
pub(crate) enum Tenure {
    /// The station has it for itself.
    Own,
    /// A master lends it. EEPROMs are taken by force from PDIs that have them, or aren't. A message has so much room.
    Lent { is_forced: bool, room: Room },
}

/// Reads a command line. The first word is the program's name.
///
/// # Errors
///
/// What is wrong with the words; or the text of the help or the version, where that is asked for; or memory was refused.
pub fn read_arguments<'a>(alloc: Global, words: &'a [String]) -> Result<Arguments<'a>, Unread> {
    let subcommands = rows();
    let program = wire_program(&subcommands);
    let given = read_words(alloc, program, words)?;
    match asked_of(&given) {
        Ok((tenure, task)) => Ok(Arguments {
            text: given.text("text"),
            tenure,
            task,
            script: read_typed(alloc, program, &given)?,
            given,
        }),
        Err(text) => Err(refuse(alloc, program, given.subcommand, text)),
    }
}

/// Whose the wire is, as the options of the subcommand say, or why they are refused.
fn tenure_of(given: &ParsedArguments<'_>) -> Result<Tenure, &'static str> {
    let carried = given.text("carry");
    let room = match (given.has("beside"), carried) {
        (false, None) => return Ok(Tenure::Own),
        (false, Some(_)) => return Err("--carry is taken with --beside alone"),
        (true, None) => Room::one(),
        (true, Some(text)) => room_of(text).ok_or(
            "--carry is N or N,BYTES with N from 1 to 64 and BYTES from 28 to 1486",
        )?,
    };
    let is_forced = given.has("force");
    Ok(Tenure::Lent { is_forced, room })
}

/// How much a message may hold, as `--carry` says: a number of datagrams, and perhaps one of bytes.
fn room_of(text: &str) -> Option<Room> {
    let (count, bytes) = match text.split_once(',') {
        Some((count, bytes)) => (count, bytes.parse::<u16>().ok()?),
        None => (text, FRAME_BYTES),
    };
    let datagrams = count.parse::<u16>().ok()?;
    let fits = (1..=MAX_SLAVES).contains(&usize::from(datagrams))
        && (28..=FRAME_BYTES).contains(&bytes);
    fits.then_some(Room { datagrams, bytes })
}

/// Whose the wire is, and the task of the subcommand that was given; or why its words are refused.
fn asked_of<'a>(given: &ParsedArguments<'a>) -> Result<(Tenure, Task<'a>), &'static str> {
    let tenure = tenure_of(given)?;
    let task = match (given.subcommand, given.text("LINE")) {
        ("run", _) => Task::Run(order_of(given)?, given.text("state")),
        ("recover", Some(line)) => Task::Recover(line, asked_in(given)?),
        ("recover", None) => Task::RecoverLast(folder_in(given)?, asked_in(given)?),
        ("pending", line) => pending_task(given, line)?,
        ("alias" | "write", _) => Task::Change(change_of(given)?),
        (_, line) => Task::Reads(reading_of(given, line)?),
    };
    Ok((tenure, task))
}

/// The same of a subcommand that leaves the words of all slaves as they are.
fn reading_of<'a>(
    given: &ParsedArguments<'a>,
    named: Option<&'a str>,
) -> Result<Reading<'a>, &'static str> {
    let line = named.unwrap_or("");
    let reading = match (given.subcommand, given.text("to")) {
        ("scan", _) => Reading::Scan(named, sizes_in(given)?, form_of(given)),
        ("backup", Some(folder)) => Reading::BackupTo(folder, sizes_in(given)?),
        ("backup", None) => Reading::Backup(line, sizes_in(given)?),
        ("init", _) => Reading::Init(line, asked_in(given)?),
        ("plan", _) => Reading::Plan(order_of(given)?),
        ("read" | "show" | "diff" | "verify", _) => Reading::Look(look_of(given)?),
        ("explain", _) => Reading::Explain(code_asked(given)?),
        _ => return Err("a subcommand is needed"),
    };
    Ok(reading)
}

/// Which slave is read, and for what.
fn look_of<'a>(given: &ParsedArguments<'a>) -> Result<Look<'a>, &'static str> {
    let (which, file) = which_in(given, "FILE")?;
    let purpose = match (given.subcommand, file) {
        ("read", None) => Purpose::Read(given.text("output")),
        ("show", None) => Purpose::Show(shown_in(given, None)),
        ("diff", Some(_)) => Purpose::Diff(compared_in(given, None, file)),
        ("verify", Some(file)) => Purpose::Verify(file),
        (_, Some(_)) => return Err("only one slave is named"),
        (_, None) => return Err("FILE is needed"),
    };
    Ok(Look {
        which,
        sizes: sizes_in(given)?,
        purpose,
    })
}

/// How one slave is changed.
fn change_of<'a>(given: &ParsedArguments<'a>) -> Result<Change<'a>, &'static str> {
    let is_alias = given.subcommand == "alias";
    let (which, word) = which_in(given, if is_alias { "VALUE" } else { "FILE" })?;
    let new = if is_alias {
        let value = word.and_then(small_in);
        New::Alias(value.ok_or("VALUE is a number, 0 to 65535")?)
    } else {
        New::Image(word.ok_or("FILE is needed")?)
    };
    Ok(Change {
        which,
        sizes: sizes_in(given)?,
        new,
        folder: folder_in(given)?,
        asked: asked_in(given)?,
    })
}

/// The folder for what is kept of calls on one slave.
fn folder_in<'a>(given: &ParsedArguments<'a>) -> Result<&'a str, &'static str> {
    given.text("state").ok_or("--state DIR is needed, which the launcher gives where it isn't said")
}

/// The task of `pending`: of a line file that is named, or of the last call that changed one slave.
fn pending_task<'a>(
    given: &ParsedArguments<'a>,
    line: Option<&'a str>,
) -> Result<Task<'a>, &'static str> {
    let asked = asked_in(given)?;
    let gives_up = given
        .text("give-up")
        .map(|text| small_in(text).ok_or("--give-up is the number of a slave"))
        .transpose()?;
    let folder = match line {
        Some(_) => None,
        None => Some(folder_in(given)?),
    };
    let order = PendingOrder {
        line: line.unwrap_or(""),
        asked,
        gives_up,
        form: form_of(given),
    };
    Ok(Task::Pending(order, folder))
}

/// The sizes of EEPROMs that are given.
fn sizes_in(given: &ParsedArguments<'_>) -> Result<Sizes, &'static str> {
    let wrong = "--words is SLAVE=N,.. with N from 64 to 4096, a multiple of 64";
    sizes_of(given.word("words")).ok_or(wrong)
}

/// What `run` or `plan` is given.
fn order_of<'a>(given: &ParsedArguments<'a>) -> Result<RunOrder<'a>, &'static str> {
    let (line, script) = (given.word("LINE"), given.script());
    Ok(RunOrder {
        named: Named { line, script },
        asked: asked_in(given)?,
    })
}

/// What the flags ask for. The `--force` of `init`, `recover` and `pending` is about EEPROMs beside a master, and not about slaves in operation.
fn asked_in(given: &ParsedArguments<'_>) -> Result<ScanOptions, &'static str> {
    let is_apart = matches!(given.subcommand, "init" | "recover" | "pending");
    Ok(ScanOptions {
        trusts_images: given.has("trust-images"),
        is_forced: given.has("force") && !is_apart,
        resizes: given.has("resize"),
        any_device: given.has("any-device"),
        mends: mends_in(given).ok_or(
            "--found, --file and --exchanged are SLAVE,.. with numbers from 0 to 63, each once",
        )?,
        tells: Tells {
            report: given.has("report"),
            events: given.has("events"),
            form: form_of(given),
        },
    })
}

/// What the options say of each slave: those of `--found` are right themselves, of those of `--file` the image files are, and those of `--exchanged`
/// were exchanged. Each is a list of numbers, separated by commas. None where one can't be read, isn't below 64, or is named twice.
fn mends_in(given: &ParsedArguments<'_>) -> Option<Mends> {
    let mut mends = [Mend::Unsaid; MAX_SLAVES];
    for (said, option) in [
        (Mend::Slave, "found"),
        (Mend::File, "file"),
        (Mend::Exchanged, "exchanged"),
    ] {
        let Some(text) = given.text(option) else {
            continue;
        };
        for item in text.split(',') {
            let slot = mends.get_mut(usize::from(item.parse::<u8>().ok()?))?;
            if *slot != Mend::Unsaid {
                return None;
            }
            *slot = said;
        }
    }
    Some(mends)
}

/// The sizes that are spelt so: `SLAVE=N`, separated by commas. None where one can't be read, a slave isn't below 64, or a size isn't 64 to
/// 4,096 words, a multiple of 64.
fn sizes_of(text: &str) -> Option<Sizes> {
    let mut sizes = Sizes::unknown();
    if text.is_empty() {
        return Some(sizes);
    }
    for item in text.split(',') {
        let (slave, words) = item.split_once('=')?;
        let (slave, words) = (slave.parse::<u8>().ok()?, words.parse::<u16>().ok()?);
        let size = is_device_size(usize::from(words)).then_some(words)?;
        *sizes.given.get_mut(usize::from(slave))? = Some(size);
    }
    Some(sizes)
}
