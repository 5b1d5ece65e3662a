//! Arguments that several subcommands have.

use command_line::{Argument, INPUT, ParsedArguments, argument};
use line_changes::Compared;
use station_rows::{Form, ShowOptions};

pub(crate) const LINE: Argument =
    argument!("LINE": Word => "The line file: the slaves' image files and the journal's",
    "The line file: the slaves' image files and the journal's, in TOML:

  journal = \"journal.bin\"
  area = 65536
  [[slave]]
  image = \"s0.bin\"
  [[slave]]
  image = \"s1.bin\"

The journal's area has 4096 to 4194304 bytes, 65536 where nothing is said.
There are 1 to 64 slaves, numbered from 0. Each image is a whole EEPROM of
64 to 4096 words, a multiple of 64. Names are relative to the current folder.");

pub(crate) const SCRIPT: Argument =
    argument!("SCRIPT": WordUnless("command") => "The script file: the commands, in order; - for standard input",
    "The script file, or - for standard input: the commands, in order, in TOML, here one
of each kind:

  [[command]]
  alias = { slave = 0, value = 1001 }
  [[command]]
  swap = [0, 1]
  [[command]]
  category = { slave = 0, kind = 51, content = \"0016010000000000\" }
  [[command]]
  image = { slave = 1, file = \"new.bin\" }
  [[command]]
  group = [
    { alias = { slave = 0, value = 7 } },
    { alias = { slave = 1, value = 8 }, expect = { vendor = 2, product = 0, revision = 0 } },
  ]

A category's content is hexadecimal text of whole words; \"\" removes the
category. A group is 1 to 64 edits, alias, category or image, that are done as
one act. An edit with expect is refused where the slave has another identity.
Outside a group, expect stands among the fields of the edit:
  alias = { slave = 0, value = 7, expect = { vendor = 2, product = 0, revision = 0 } }
With replace = true among its fields, an image may be one of another device, or
have fewer words than the slave's EEPROM; only sii_wire looks at that.");

pub(crate) const JSON: Argument = argument!("json": Flag => "Prints JSON, one object a line",
    "Prints JSON in place of text: an object a line, whose key row says what it is. Numbers
are JSON numbers, and the other keys are named as in the text. Strings of an EEPROM
are escaped as in the text. Later versions may add keys and rows; pass over what you
don't know. Faults and the exit status stay as they are.");

/// The form that a subcommand with this argument was asked for.
pub(crate) fn form_of(given: &ParsedArguments<'_>) -> Form {
    if given.has("json") {
        Form::Json
    } else {
        Form::Text
    }
}

/// The form in which the subcommands print that print lines: `LineRows` makes rows of these.
pub(crate) fn lines_form(given: &ParsedArguments<'_>) -> Form {
    match given.subcommand {
        "alias" | "backup" | "init" | "pending" | "recover" | "run" | "write" => form_of(given),
        _ => Form::Text,
    }
}

/// What `show` is to print, of this file or of standard input.
pub(crate) fn shown_in<'a>(given: &ParsedArguments<'a>, file: Option<&'a str>) -> ShowOptions<'a> {
    ShowOptions {
        hex: given.has("hex"),
        all: given.has("all"),
        form: form_of(given),
        file,
    }
}

/// What `diff` is to compare: the images of these files, or of standard input.
pub(crate) fn compared_in<'a>(
    given: &ParsedArguments<'a>,
    old: Option<&'a str>,
    new: Option<&'a str>,
) -> Compared<'a> {
    Compared {
        hex: given.has("hex"),
        form: form_of(given),
        old,
        new,
    }
}

/// The name of the script; `INPUT` where it is to come from standard input (`-`).
pub(crate) fn script_of<'a>(given: &ParsedArguments<'a>) -> &'a str {
    match given.script() {
        "-" => INPUT,
        name => name,
    }
}

pub(crate) const QUIET: Argument =
    argument!("quiet": ShortFlag('q') => "Draws no line with the progress",
    "Draws no line with the progress. Without this option, where standard error is a
terminal and the work takes longer than a second, a line there says how many of
the script's commands no power cut can undo any more, how many words the slaves
have written, and how many slaves are writing one. It is drawn over itself ten
times a second at most, and erased before anything else is printed and at the end.");

pub(crate) const REPORT: Argument =
    argument!("report": Flag => "Prints at the end which words have changed, and whether the line is in order", line_changes::REPORT);

pub(crate) const VERBOSE: Argument =
    argument!("verbose": GlobalFlag => "Says of a fault which file it is about, or what was seen on the line, and what is wrong",
    "Says of a fault which file it is about, what is wrong there and where, or of the line what was seen, what it usually is, and what to do, \
        in a second line. Without this option the line comes where standard error is a terminal, or where PILZHOON_VERBOSE is in the environment.");
