//! What a command line asks for.

use crate::arguments::{VERBOSE, compared_in, form_of, script_of, shown_in};
use crate::images::{ALIAS, DIFF, SHOW, VERIFY, WRITE, file_of, two_files};
use crate::line_work::{INIT, JOURNAL, LAYOUT, LineTask, PLAN, RECOVER, RUN, line_task};
use crate::pages::{COMPLETE, EXPLAIN, MAN, code_asked};
use command_line::{
    Argument, ParsedArguments, Program, Script, Shell, Subcommand, Unread, read_typed, read_words,
    refuse, small_in,
};
use line_changes::Compared;
use station_listing::Code;
use station_rows::{Form, ShowOptions};
use station_session::RunNames;
use std::alloc::Global;

/// What a command line asks for: a subcommand with its arguments. The name of an image's file is `None` for standard input, and a line is named by its
/// line file.
#[derive(Clone, Copy)]
pub(crate) enum Task<'a> {
    /// Sets this alias in an image, which is hexadecimal text or not, and prints it.
    Alias(u16, bool, Option<&'a str>),
    /// Does the same, and puts the new image in the place of the file.
    AliasInPlace(u16, bool, &'a str),
    Show(ShowOptions<'a>),
    Diff(Compared<'a>),
    /// Writes to the words of the first file the image of the second one, of any device or not.
    Write(&'a str, Option<&'a str>, bool),
    /// Looks whether the first file has the words of the second one.
    Verify(Option<&'a str>, Option<&'a str>),
    Init(&'a str),
    Work(LineTask<'a>),
    Layout(&'a str, Form),
    Plan(RunNames<'a>, Form),
    Journal(&'a str, Form),
    Completions(Shell),
    Man,
    /// Explains one code, or all of them.
    Explain(Option<Code>),
}

impl<'a> Task<'a> {
    /// The files of a run, or of the plan of one.
    pub(crate) fn run_files(self) -> Option<RunNames<'a>> {
        match self {
            Task::Work(LineTask { line, script, .. }) => Some(RunNames {
                line,
                script: script?,
            }),
            Task::Plan(names, _) => Some(names),
            _ => None,
        }
    }
}

/// A command line that was read.
#[derive(Drop)]
pub(crate) struct Request<'a> {
    pub given: ParsedArguments<'a>,
    pub task: Task<'a>,
    /// The script of typed commands, where these stand in place of a script file.
    pub script: Option<Script>,
}

/// The subcommands, in the order of the help.
pub(crate) fn rows() -> [Subcommand; 14] {
    [
        SHOW, DIFF, ALIAS, WRITE, VERIFY, INIT, PLAN, RUN, JOURNAL, RECOVER, LAYOUT, EXPLAIN,
        COMPLETE, MAN,
    ]
}

/// What all subcommands have.
const OPTIONS: &[Argument] = &[VERBOSE];

/// The program with these subcommands.
pub(crate) fn station(subcommands: &[Subcommand]) -> Program<'_> {
    Program {
        name: "sii_station",
        about: "Reprograms the SII EEPROMs of a line of EtherCAT slaves",
        version: "0.1.0",
        after_help: "Example:\n  sii_station alias 1001 < slave.bin > renamed.bin",
        options: OPTIONS,
        subcommands,
    }
}

/// Reads a command line. The first word is the program's name. Where that isn't done, what is wrong with the words; or the text of the help or
/// the version, where that is asked for; or memory was refused.
pub(crate) fn read_arguments<'a>(
    alloc: Global,
    words: &'a [String],
) -> Result<Request<'a>, Unread> {
    let subcommands = rows();
    let program = station(&subcommands);
    let given = read_words(alloc, program, words)?;
    match task_of(&given) {
        Ok(task) => {
            let script = read_typed(alloc, program, &given)?;
            Ok(Request {
                given,
                task,
                script,
            })
        }
        Err(text) => Err(refuse(alloc, program, given.subcommand, text)),
    }
}

/// The task of the subcommand that was given, or why its words are refused.
fn task_of<'a>(given: &ParsedArguments<'a>) -> Result<Task<'a>, &'static str> {
    let line = given.word("LINE");
    let form = form_of(given);
    let task = match given.subcommand {
        "show" => Task::Show(shown_in(given, file_of(given, "FILE"))),
        "alias" => {
            let value = small_in(given.word("VALUE")).ok_or("VALUE is a number, 0 to 65535")?;
            let hex = given.has("hex");
            match (file_of(given, "FILE"), given.has("inplace")) {
                (Some(name), true) => Task::AliasInPlace(value, hex, name),
                // Only a file has a place in which the new image can be put.
                (None, true) => return Err("--inplace wants FILE"),
                (file, false) => Task::Alias(value, hex, file),
            }
        }
        "write" => {
            let file = file_of(given, "FILE");
            Task::Write(given.word("IMAGE"), file, given.has("any-device"))
        }
        "verify" => {
            let refusal = "only one of IMAGE and FILE can be standard input";
            let (found, wanted) = two_files(given, "IMAGE", "FILE", refusal)?;
            Task::Verify(found, wanted)
        }
        "diff" => {
            let refusal = "only one of A and B can be standard input";
            let (old, new) = two_files(given, "A", "B", refusal)?;
            Task::Diff(compared_in(given, old, new))
        }
        "run" | "recover" => Task::Work(line_task(given)?),
        "init" => Task::Init(line),
        "plan" => {
            let script = script_of(given);
            Task::Plan(RunNames { line, script }, form)
        }
        "journal" => Task::Journal(line, form),
        "layout" => Task::Layout(line, form),
        "explain" => Task::Explain(code_asked(given)?),
        "completions" => Task::Completions(match given.word("SHELL") {
            "zsh" => Shell::Zsh,
            "fish" => Shell::Fish,
            _ => Shell::Bash,
        }),
        "man" => Task::Man,
        _ => return Err("a subcommand is needed"),
    };
    Ok(task)
}
