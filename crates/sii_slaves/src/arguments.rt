//! What a command line asks for.

use crate::quirk_list::QuirkList;
use crate::serving::{PowerCut, Practice};
use command_line::{
    Argument, ParsedArguments, Program, TEXT, TIMEOUT, Unread, WIRE, argument, read_words, refuse,
};
use std::alloc::Global;
use std::time::Duration;

/// A command line: the slaves, and where their text and their frames go.
#[derive(Clone, Copy)]
pub(crate) struct Arguments<'a> {
    /// The name of the file that the text goes to; `None` for standard error.
    pub text: Option<&'a str>,
    /// How long a frame is waited for, if that is said.
    pub time_out: Option<Duration>,
    /// The slaves.
    pub practice: Practice<'a>,
}

/// The help text on the life of the slaves.
const SLAVES_LIFE: &str =
    "The network interface comes first: sii_slaves -i eth1 line.toml. The slaves hold the
words of their image files, and a word that they write is in its file before the next
frame is answered. They answer until the program is ended, or with --cut until the
power fails, in the midst of the word with number K, counted from 1 as the slaves
begin to write them: its file then holds W in place of the word. Start the program
again to switch the slaves on. Faults go to standard error as: fault CODE NAME.
sii_station explain says what a code means.
Exit status: 0 the power was cut, 2 wrong usage, 3 a file or its form, or the wire,
5 no memory.";

/// The help text on quirks.
const QUIRKS_HELP: &str =
    "What the slaves do as some controllers and chips do: items that are separated by
commas, each for all slaves, or for slave S alone where S: stands before it.

  chip=N       the chip has N words, 1 to 65536; addresses after them roll over
  busy=N       busy with a command for N datagrams; 2 where nothing is said
  read=T       busy with a read for T microseconds
  write=T      busy with a write for T microseconds
  programs=T   the chip programs a word for T microseconds once the slave shows
               idle: each command meanwhile ends with a missing acknowledge
  missed=K     the first K commands end with a missing acknowledge
  each=K       each command whose number is a multiple of K does
  blocks       an error that is set blocks commands until command 000 clears it
  page=N       the chip writes N words anew with each one, 1 to 4096: a power cut
               tears all of them
  protected    the chip is write protected: its words keep their values
  wide         a read loads eight bytes, as bit 6 of control and status says
  aliasing     alias addressing is on as the power comes
  state=N      the AL state: 1 Init, 2 Pre-Op, 4 Safe-Op, 8 Op
  held         the PDI holds the EEPROM as the power comes
  station=N    the slave has this station address, and keeps it
  restarts=K   this slave alone loses its power for a moment after frame K
  cut=K        this slave alone loses its power for a moment in its word K
  left=W       what a word in flight is left as then
  S:cable=K    after K frames the cable after slave S is pulled

A blank slave is an image file whose bytes are all 0xff. An image file may have up
to 65536 words here; what its word 0x3E says is up to you.

Example:
  sii_slaves -i eth1 line.toml --quirks 0:chip=128,missed=2,blocks";

const LINE: Argument =
    argument!("LINE": Word => "The line file: the slaves' image files and the journal's, in TOML");

const CUT: Argument =
    argument!("cut": Large("K") => "Cuts the slaves' power in the midst of word K, 0 to 4294967295");

const LEFT: Argument =
    argument!("left": Small("W") => "What the torn word leaves, 0 to 65535; 0 where nothing is said");

const QUIRKS: Argument =
    argument!("quirks": Text("LIST") => "What the slaves do as some controllers and chips do, such as 0:chip=128,missed=2", QUIRKS_HELP);

const PROGRAM: Program<'static> = Program {
    name: "sii_slaves",
    about: "Serves a line of EtherCAT slaves to practise on, which hold the words of image files",
    version: "0.1.0",
    after_help: SLAVES_LIFE,
    options: &[LINE, CUT, LEFT, QUIRKS, WIRE, TEXT, TIMEOUT],
    subcommands: &[],
};

/// The program. A table that a function names becomes part of what is proved of it, so this one has a function of its own.
fn slaves_program() -> Program<'static> {
    PROGRAM
}

/// Reads a command line. The first word is the program's name.
///
/// # Errors
///
/// What is wrong with the words; or the text of the help or the version, where that is asked for; or memory was refused.
pub(crate) fn read_arguments<'a>(
    alloc: Global,
    words: &'a [String],
) -> Result<Arguments<'a>, Unread> {
    let program = slaves_program();
    let given = read_words(alloc, program, words)?;
    match practice_of(&given) {
        Ok(practice) => Ok(Arguments {
            text: given.text("text"),
            time_out: given.milliseconds("timeout"),
            practice,
        }),
        Err(text) => Err(refuse(alloc, program, given.subcommand, text)),
    }
}

/// The slaves that the words ask for, or why these are refused.
fn practice_of<'a>(given: &ParsedArguments<'a>) -> Result<Practice<'a>, &'static str> {
    let cut = given
        .cut("cut")?
        .map(|(word, left)| PowerCut { word, left });
    let Some(quirks) = QuirkList::of(given.word("quirks")) else {
        return Err(
            "LIST has items as 'missed=3' or '1:chip=128', separated by commas: see sii_slaves --help",
        );
    };
    Ok(Practice {
        line: given.word("LINE"),
        cut,
        quirks,
    })
}
