//! The subcommands on EEPROM images: `show`, `alias`, `write`, `verify` and `diff`.

ghost use Rattle.std.specs.Prelude.{◌≡◌, OnOk};
ghost use Rattle.station_files.specs.Files.{ChangesOnly};
ghost use Rattle.station_serve.specs.Images.{RenamesFile};

use crate::arguments::JSON;
use crate::request::Task;
use crate::wire::ANY_DEVICE;
use command_line::{Argument, ParsedArguments, Subcommand, argument, subcommand};
use line_changes::Compared;
use station_files::{
    ExitStatus, Failure, Fault, STANDARD_INPUT, Store, keep_output_separate, read_image, set_alias,
};
use station_rows::ShowOptions;
use std::alloc::Global;
use std::io::{Read, Write};

const FILE: Argument =
    argument!("FILE": OptionalWord => "The image file; standard input where it is left out, or -");

pub(crate) const ALL: Argument =
    argument!("all": Flag => "Prints each string, FMMU, sync manager, PDO and DC mode too, what General and the first words say, and names");

const HEX: Argument = argument!("hex": Flag => "Reads hexadecimal text in place of bytes");

const IMAGE: Argument = argument!("IMAGE": Word => "The file with the words of a slave's EEPROM");

const GIVEN: Argument = argument!("FILE": Word => "The image file; - for standard input");

pub(crate) const SHOW: Subcommand = subcommand!("show": "Prints what an EEPROM image says",
    long: "Reads the image of a slave's EEPROM from FILE, or from standard input, and prints its alias, whether its check byte is right, \
        its identity and its categories. An image has 64 to 4096 words, low byte first.",
    after: "Example:\n  sii_station show slave.bin\n  sii_station show < slave.bin",
    answers: "Answers:
  words N                        the number of words
  alias A                        the configured station alias
  check ok                       or: check bad 0xHH expected 0xHH
  vendor .. product .. revision .. serial ..
                                 the identity
  category KIND words N ..       each category: its type, the length of its content
                                 and how many items it has, or: bad
  end                            or: runs out at WORD, where the chain of categories
                                 goes on past the last word
With --all each item follows, on a line, and a category's type has its name beside it:
  string 1 \"EL1004\"             what isn't printable ASCII stands as \\xHH
  general group 2 \"DigiIn\" image none order 1 \"EL1004\" name 4 \"EL1004 4Ch.\" ..
                                 a number of a string, and the string if there is one
  details sdo sdo_info foe not_lrw
                                 what coe, foe, eoe and flags of General enable, of sdo
                                 sdo_info pdo_assign pdo_configuration upload
                                 complete_access foe eoe safeop not_lrw data_link
                                 id_status id_memory
  ports 0x0011 mii mii unused unused
                                 or ebus, fast-hot-connect, other
  fmmu 0 outputs                 or inputs, status, unused, or the byte 0xHH
  sm 0 type outputs start 0x0f00 length 1 control 0x44 status 0x00 enable 0x01
                                 or type inputs, mailbox-out, mailbox-in, unused, 0xHH
  txpdo 0x1a00 entries 1 sm 0 sync 0 flags 0x0000 name 5 \"Channel 1\"
  txpdo 0x1a00 entry 1 object 0x6000:01 type 0x01 bits 1 flags 0x0000 name 6 \"Input\"
                                 and so rxpdo
  dc 0 cycle0 0 shift0 0 shift1 0 factor1 0 activate 0x0700 factor0 1 name ..
                                 a mode: cycle and shifts of SYNC0 and SYNC1 in
                                 nanoseconds, factors of the cycle, AssignActivate
  pdi control 0x0104 configuration 0x0000 second 0x0000 impulse 0 type digital-io emulation
                                 the PDI's control and configurations, the length of
                                 the sync impulse in 10 nanoseconds, what the control
                                 says: the type, and whether AL states are emulated
  mailbox standard out 0x1000 128 in 0x1080 128
                                 address and length for each way, and so bootstrap
  protocols 0x000c coe foe       those of the mailboxes, also aoe, eoe, soe and voe
  eeprom words 1024 version 1    the size and the version that words 0x3e and 0x3f say
Nothing is printed of the items of other categories, or of one that is bad.

Exit status: 0 all is in order, 2 wrong usage, 3 a file or its form, or the check byte
or a category is bad, 5 no memory.

Example:
  sii_station show slave.bin
  sii_station show --all slave.bin
  sii_station show < slave.bin",
    [FILE, ALL, JSON, HEX]);

pub(crate) const ALIAS: Subcommand =
    subcommand!("alias": "Sets the configured station alias of an EEPROM image, and the check byte that goes with it",
    long: "Reads the image of a slave's EEPROM from FILE, or from standard input, sets the configured station alias and the check byte \
        that goes with it, and writes the image to standard output, or with -i in FILE's place. An image has 64 to 4096 words, low byte first. \
        An output that goes to FILE itself is refused (fault 96); with > FILE the shell has emptied it by then: use -i.",
    after: "Examples:\n  sii_station alias 1001 -i slave.bin\n  sii_station alias 0x3e9 slave.bin > renamed.bin",
    [argument!("VALUE": Word => "The new alias, 0 to 65535, or in hexadecimal, 0x0 to 0xffff"),
     FILE,
     argument!("inplace": ShortFlag('i') => "Puts the new image in FILE's place, as a whole, and prints nothing"),
     argument!("hex": Flag => "Reads and writes hexadecimal text in place of bytes")]);

pub(crate) const WRITE: Subcommand =
    subcommand!("write": "Writes an image file over the first words of another one",
    long: "Writes the image in FILE over the first words of a slave's EEPROM, which are in the file IMAGE, as sii_wire write does to a slave: \
        what comes out is judged as an image command of a script is. IMAGE is replaced as a whole, and nothing is printed. An image of \
        another vendor or product, or with fewer words, is refused (fault 114).",
    after: "Example:\n  sii_station write drive.bin new.bin",
    [IMAGE, GIVEN, ANY_DEVICE]);

/// What `verify` prints.
pub(crate) const VERIFY_ANSWERS: &str = "Answers:
  word 0xW found 0xF expected 0xE
                   word W is F, and E in FILE
  words N wrong M  of the N words of FILE M differ, or aren't in the EEPROM
The exit status is 0 where none is wrong, and 1 where some are.";

pub(crate) const VERIFY: Subcommand =
    subcommand!("verify": "Looks whether an image has the words of an image file",
    long: "Prints which words of the image in the file IMAGE differ from those of the image in FILE.",
    after: "Example:\n  sii_station verify drive.bin backup/drive.bin",
    answers: VERIFY_ANSWERS,
    [IMAGE, GIVEN]);

pub(crate) const DIFF: Subcommand = subcommand!("diff": "Prints what two EEPROM images differ in",
    long: "Reads two images of slaves' EEPROMs and prints what they differ in, a line for each: their lengths, alias, check byte, \
        identity, what their categories say, and the words. One of the two may be standard input. An image has 64 to 4096 words, low byte first.",
    after: "Example:\n  sii_station diff drive.bin backup/drive.bin",
    answers: "Answers: what differs, a line for each, with what A has and then what B has:
  words 128 64                   the numbers of words
  alias 0 7                      the configured station alias
  check 0x30 0x62                the check byte, as it stands in word 7
  vendor 0x00000002 0x00000003   and so product, revision and serial
  runs out at 66 in A            A's chain of categories is cut off at this word;
                                 then no categories are compared
  category 51 words 64 72        the length of a category's content
  category 60 words 32 only in A
                                 a category that only one image has
  sm 0 length 1 2                a field of an item; show --help has the items
  txpdo 0x1a01 .. only in B      an item that only one image has
  category 30 word 3 0x0001 0x0002
                                 a word of a content whose items aren't known
  word 0x0004 0x0000 0x0007      a word of the image; all that differ come last
  words 0x0040 to 0x0041 old 0x000a 0x0001 new 0x001e 0x0000
                                 neighbouring words, 8 on a line at most
Nothing is printed where the images have the same words. Where their numbers of
words differ, the words that both have are compared.

Exit status: 0 equal, 1 different, 2 wrong usage, 3 a file or its form, 5 no memory.

Example:
  sii_station diff drive.bin backup/drive.bin
  sii_station diff drive.bin - < backup/drive.bin",
    [argument!("A": Word => "The file of the first image; - for standard input"),
     argument!("B": Word => "The file of the second image; - for standard input"),
     JSON, HEX]);

/// Sets the configured station alias of the image in the file of this name, as `set_alias` does, and replaces the file by one with the new image,
/// as a whole.
#[tactic(auto, using(crate::proofs::InPlace::renames_file))]
pub(crate) fn alias_in_place<R: Read, S: Store>(
    alloc: Global,
    value: u16,
    hex: bool,
    name: &str,
    input: &mut R,
    store: &mut S,
) -> Result<(), Failure>
    ensures renamed { OnOk result (RenamesFile hex value (S.files store.old) (S.files store.new) name.now) }
    ensures others { ChangesOnly (S.files store.old) (S.files store.new) name.now }
{
    let mut text = Vec::new(alloc);
    set_alias(alloc, value, hex, Some(name), input, store, &mut text)?;
    match store.write(name, &text) {
        Ok(()) => Ok(()),
        Err(error) => Err(Failure::Fault(Fault::from(error))),
    }
}

/// Prints the words in which an image, of the file of this name or of the input, differs from the one that is wanted, and how many words are wrong,
/// with those that it doesn't have. Returns the exit status: `Refused` where some are.
pub(crate) fn verify_image<R: Read, S: Store, O: Write>(
    alloc: Global,
    found: Option<&str>,
    wanted: Option<&str>,
    input: &mut R,
    store: &mut S,
    output: &mut O,
) -> Result<ExitStatus, Fault>
    ensures { S.files store.new ≡ S.files store.old }
{
    let found = read_image(alloc, false, found, input, store)?;
    let wanted = read_image(alloc, false, wanted, input, store)?;
    let count = wanted.as_slice().len();
    let mut wrong = count.saturating_sub(found.as_slice().len());
    for (at, (held, wanted)) in found.as_slice().iter().zip(wanted.as_slice()).enumerate() {
        if *held != *wanted {
            writeln!(
                output,
                "word 0x{at:04x} found 0x{held:04x} expected 0x{wanted:04x}"
            )?;
            wrong = wrong.saturating_add(1);
        }
    }
    writeln!(output, "words {count} wrong {wrong}")?;
    output.flush()?;
    Ok(if wrong == 0 {
        ExitStatus::Done
    } else {
        ExitStatus::Refused
    })
}

/// Refuses an output that goes to an image file which the task reads.
pub(crate) fn keep_images_separate<S: Store>(
    alloc: Global,
    task: Task<'_>,
    store: &mut S,
) -> Result<(), Fault>
    ensures { S.files store.new ≡ S.files store.old }
{
    let (one, other) = match task {
        Task::Alias(_, _, file) | Task::Show(ShowOptions { file, .. }) => (file, file),
        Task::Diff(Compared { old, new, .. }) => (old, new),
        Task::Verify(found, wanted) => (found, wanted),
        _ => return Ok(()),
    };
    keep_output_separate(alloc, one.unwrap_or(STANDARD_INPUT), store)?;
    keep_output_separate(alloc, other.unwrap_or(STANDARD_INPUT), store)
}

/// The names of two files, of which only one may be standard input.
pub(crate) fn two_files<'a>(
    given: &ParsedArguments<'a>,
    one: &str,
    other: &str,
    refusal: &'static str,
) -> Result<(Option<&'a str>, Option<&'a str>), &'static str> {
    match (file_of(given, one), file_of(given, other)) {
        (None, None) => Err(refusal),
        both => Ok(both),
    }
}

/// The name of a file; `None` where it is left out, or `-`, and standard input is meant.
pub(crate) fn file_of<'a>(given: &ParsedArguments<'a>, argument: &str) -> Option<&'a str> {
    given.text(argument).filter(|name| *name != "-")
}
