//! The subcommands of the program, with their help.

use crate::arguments::{JSON, LINE, REPORT, VERBOSE};
use crate::images::{ALL, VERIFY_ANSWERS};
use crate::pages::EXPLAIN;
use command_line::{
    Argument, Kind, Program, Subcommand, TEXT, TIMEOUT, TYPED_COMMANDS as COMMANDS, WIRE, argument,
    subcommand,
};

const SCRIPT: Argument =
    argument!("SCRIPT": WordUnless("command") => "The script file: the commands in order, in TOML; - for standard input");

const WORDS: Argument =
    argument!("words": Text("SLAVE=N,..") => "How many words the EEPROMs of these slaves have",
    "How many words the EEPROMs of slaves have, as their data sheets say it: 64 to 4096, a
multiple of 64. It is needed for blank EEPROMs, whose size can't be told. Later
calls take the size of each slave from its image file.

Example:
  sii_wire -i eth0 backup line.toml --words 0=512,3=1024");

const TRUST: Argument =
    argument!("trust-images": Flag => "Goes by the size of an image file even where the EEPROM is found to be smaller");

const FORCE: Argument =
    argument!("force": Flag => "Works on slaves above Pre-Operational too, and takes EEPROMs that their PDI has");

const RESIZE: Argument =
    argument!("resize": Flag => "Lets commands make word 0x3e tell another size than the EEPROM has");

pub(crate) const ANY_DEVICE: Argument =
    argument!("any-device": Flag => "Takes an image of another vendor or product, or with fewer words than the EEPROM");

const BESIDE: Argument =
    argument!("beside": Flag => "Works beside a master that lends the wire, and leaves its line running",
    "A master keeps the line running, and lends the wire. Slaves keep the station addresses
that it gave them, and nothing is written but registers 0x0500 to 0x050f, those of the
EEPROM. An EEPROM that was offered to a PDI is asked for, and is handed back at the end.");

const CARRY: Argument =
    argument!("carry": Text("N[,BYTES]") => "Lets a message to the master hold several datagrams",
    "A message to the master holds up to N datagrams (1 to 64), of each slave one at most,
which take up to BYTES bytes (28 to 1486), each with its header and working counter.
Where nothing is said it holds one.");

const TAKE: Argument =
    argument!("force": FlagWith("beside") => "Takes EEPROMs that their PDI has beside a master too");

const QUIET: Argument =
    argument!("quiet": ShortFlag('q') => "Draws no line with the progress, and prints no second line of a fault",
    "Draws no line with the progress, and prints no second line of a fault, which says what
was seen and what to do. Without this option, where standard error is a terminal
and the work takes longer than a second, a line there says how many words were read
and how many were written, of how many, how many slaves are busy with one, how many
are done, and about how many seconds are left. It is drawn over itself ten times a
second at most, and erased before anything else is printed and at the end.");

const CAPTURE: Argument =
    argument!("capture": Text("FILE") => "Writes the frames on the wire to FILE, in the pcap format",
    "Writes each frame to FILE as it goes over the wire, also one that is sent again, and
each EtherCAT frame that comes, in the pcap format with times in nanoseconds: open
it with Wireshark or tshark. The source address tells the way: 00:10:20:30:40:50
out, and 02:10:20:30:40:50 back, as slaves mark it. A capture that is there already
is written anew; a FILE that holds anything else stays, and no frame is sent. If
FILE can't be written further, the work goes on and tells it at its end.

Example:
  sii_wire -i eth0 run line.toml script.toml --capture frames.pcap
  tshark -r frames.pcap");

const FOUND: Argument =
    argument!("found": Text("SLAVE,..") => "These slaves are right, and not their image files",
    "Takes the words of these slaves into their image files, where they differ: the slaves
are right, as where another tool changed them, or one of another type was put there.
Words that a recovery writes are written all the same.

Example:
  sii_wire -i eth0 recover line.toml --found 2,3");

const FILE: Argument =
    argument!("file": Text("SLAVE,..") => "The image files of these slaves are right",
    "Writes to these slaves what their image files have, where they differ, as a command of
its own before all others: the image files are right, as where another tool changed the
slaves, or a power cut tore words beside one. A cut of that is recovered as any other.");

const EXCHANGED: Argument =
    argument!("exchanged": Text("SLAVE,..") => "These slaves were exchanged, and get what their places had",
    "Writes to these slaves what their places had, as --file does, but for the serial
number, which stays: each was exchanged for one of the same vendor and product. One of
another type is refused.");

const P: Argument = argument!("P": OptionalWord => "The slave's place on the line, from 0");

const BY_ALIAS: Argument =
    argument!("alias": Text("A") => "The slave with this alias, in place of P");

const BY_DEVICE: Argument =
    argument!("device": Text("VENDOR:PRODUCT[:SERIAL]") => "The slave with this identity, in place of P; numbers as 0x00000002 or 2");

const IMAGE: Argument = argument!("FILE": OptionalWord => "The image file");

const READ: Subcommand = subcommand!("read": "Reads the EEPROM of one slave",
    long: "Prints the bytes of the EEPROM of one slave, or writes them to a file. No line file is needed. No word of a slave is written.",
    after: "Examples:\n  sii_wire -i eth0 read 2 > slave.bin\n  sii_wire -i eth0 read --alias 1001 -o slave.bin",
    [P, BY_ALIAS, BY_DEVICE,
     argument!("output": ShortText("FILE", 'o') => "Writes the image to FILE, which may not be there with other words"),
     WORDS, BESIDE, CARRY, TAKE, CAPTURE, QUIET]);

const SHOW: Subcommand = subcommand!("show": "Prints what the EEPROM of one slave says",
    long: "Prints the alias, the check byte, the identity and the categories of one slave, as sii_station show does of an image; its \
        show --help lists the answers. No line file is needed. No word of a slave is written.",
    after: "Examples:\n  sii_wire -i eth0 show 2\n  sii_wire -i eth0 show --device 0x00000002:0x03ec3052 --all",
    [P, BY_ALIAS, BY_DEVICE, ALL, JSON, WORDS, BESIDE, CARRY, TAKE, CAPTURE, QUIET]);

const DIFF: Subcommand = subcommand!("diff": "Prints what one slave and an image file differ in",
    long: "Prints what the EEPROM of one slave and an image file differ in, with what the slave has first, as sii_station diff does of two \
        images; its diff --help lists the answers. The exit status is 1 where they differ. No word of a slave is written.",
    after: "Example:\n  sii_wire -i eth0 diff 2 slave.bin",
    [P, IMAGE, BY_ALIAS, BY_DEVICE, JSON, WORDS, BESIDE, CARRY, TAKE, CAPTURE, QUIET]);

const VERIFY: Subcommand =
    subcommand!("verify": "Looks whether one slave has the words of an image file",
    long: "Reads the EEPROM of one slave, and prints which words differ from those of an image file. No word of a slave is written.",
    after: "Example:\n  sii_wire -i eth0 verify 2 slave.bin",
    answers: VERIFY_ANSWERS,
    [P, IMAGE, BY_ALIAS, BY_DEVICE, WORDS, BESIDE, CARRY, TAKE, CAPTURE, QUIET]);

/// The help text on what `alias` and `write` print and keep.
const CHANGE_ANSWERS: &str = "Answers:
  kept FILE        the image of the slave as it was is in FILE
  command 0 ..     and accepted .., as run prints them
  slave P word 0xW old 0xO new 0xN
                   word W of slave P had the value O, and has N now; long runs as
                   plan prints them
  done words N     all is in the slave; N words have changed
It is a run on the line that is found. What it needs it keeps under the date and the
time in a folder for the interface: pilzhoon/INTERFACE in $XDG_STATE_HOME, or else in
~/.local/state; --state DIR names another one. After a power cut, recover without a
line file ends the work; until then a call that changes a slave is refused: fault 94
Exists. It is refused for what run is refused for, with the same flags.";

const ALIAS: Subcommand = subcommand!("alias": "Sets the configured station alias of one slave",
    long: "Sets the configured station alias of one slave, and the check byte that goes with it. No line file is needed.",
    after: "Examples:\n  sii_wire -i eth0 alias 2 1001\n  sii_wire -i eth0 alias --alias 1001 7",
    answers: CHANGE_ANSWERS,
    [P,
     argument!("VALUE": OptionalWord => "The new alias, 0 to 65535, or in hexadecimal, 0x0 to 0xffff"),
     BY_ALIAS, BY_DEVICE, JSON, WORDS, BESIDE, CARRY, FORCE, CAPTURE, QUIET]);

const WRITE: Subcommand = subcommand!("write": "Writes an image file to one slave",
    long: "Writes an image file over the first words of the EEPROM of one slave. An image of another vendor or product, or with fewer \
        words than the EEPROM, is refused (fault 114). No line file is needed.",
    after: "Example:\n  sii_wire -i eth0 write 2 slave.bin",
    answers: CHANGE_ANSWERS,
    [P, IMAGE, ANY_DEVICE, BY_ALIAS, BY_DEVICE, JSON, WORDS, BESIDE, CARRY, FORCE, RESIZE, CAPTURE, QUIET]);

const SCAN: Subcommand = subcommand!("scan": "Prints what the slaves of the line are",
    long: "Brings up the line and reads the EEPROM of each slave. No word and no file is written, but for that of --capture.",
    after: "Examples:\n  sii_wire -i eth0 scan\n  sii_wire -i eth0 scan line.toml",
    answers: "Answers, a line for each slave:
  slave P words N alias A check C vendor V product Q revision R serial S
                   P is its position, from 0, and N the size of its EEPROM;
                   C is ok, or bad with the check byte found and the one expected
  slave P fault CODE NAME ..
                   it can't be worked on; the other slaves are listed all the same
Behind either stands:
  state T          the AL state: init, preop, boot, safeop, op or unknown
  error            the slave tells an error of that state
  held             its PDI has the EEPROM, or is offered it
  says W found F   W words are there by word 0x3e, and F were found: open where the
                   words don't repeat up to word 4096, and alike where all words
                   that were compared are the same, so that it can't be told
  larger           it has more than 4096 words; the first 4096 are worked on
and with LINE:
  file same        it has the words of its image file, but for those that a recovery
                   writes
  file absent      there is no image file; backup makes it
  file differs words N first W has X kept Y usually R
                   N words differ, the first of them W: the slave has X, and the file
                   Y; R is what it usually is: elsewhere (place P: it is that slave of
                   the line), same type, other type, torn, or changed",
    [Argument { kind: Kind::OptionalWord, help: "The line file, to compare each slave with its image file", ..LINE },
     WORDS, JSON, BESIDE, CARRY, TAKE, CAPTURE, QUIET]);

const BACKUP: Subcommand = subcommand!("backup": "Writes the words of each slave to its image file",
    long: "Brings up the line, reads the EEPROM of each slave, writes its words to its image file, and makes an empty journal if there is \
        none. No word of a slave is written.",
    after: "Examples:\n  sii_wire -i eth0 backup line.toml\n  sii_wire -i eth0 backup --to backups",
    answers: "A line file that is there says where the images go. Where LINE isn't there it is
written too: of a name like line.toml it names line-s0.bin, line-s1.bin and so on,
and line-journal.bin. No file that is there already is written over. An image file
with its slave's words counts as written, and an empty journal of the line as made;
where one holds anything else comes fault 94 Exists, and nothing is written. So a
backup that failed can be made again.

Answers, a line for each slave whose word 0x3e tells another size than it has:
  slave P words N says W
                   N words were backed up, and W are there by word 0x3e
  ... larger       it has more than 4096 words; the first 4096 are worked on
and then, where the journal was made:
  formatted AREA   it is empty; its area has AREA bytes
and with --to, behind all:
  line NAME        the name of the line file",
    [Argument { kind: Kind::WordUnless("to"), ..LINE },
     argument!("to": TextWithout("FOLDER", "LINE") => "Writes a backup of its own into this folder, under the date and the time",
    "Writes the line file, the image files and the journal into FOLDER, which has to be
there, under names that begin with the date and the time in UTC, as
FOLDER/20261126-211500.toml and FOLDER/20261126-211500-s0.bin, and prints the name of
the line file. Nothing that is there is written over."),
     WORDS, JSON, BESIDE, CARRY, TAKE, CAPTURE, QUIET]);

const INIT: Subcommand = subcommand!("init": "Makes an empty journal for the line",
    long: "Brings up the line, and makes an empty journal for as many slaves. No word of a slave is written.",
    after: "Example:\n  sii_wire -i eth0 init line.toml",
    answers: "Answers:
  formatted AREA   the journal is there, and empty; its area has AREA bytes
The line file has to name an image file for each slave, and these have to be there,
as backup leaves them. A journal that is there already is never written over:
fault 94 Exists.",
    [LINE, JSON, BESIDE, CARRY, TAKE, TRUST, CAPTURE, QUIET]);

const RUN: Subcommand = subcommand!("run": "Runs the commands of a script on the line",
    long: "Brings up the line, submits the commands of the script in order, carries them out,
all slaves at the same time, and writes the words of each slave to its image file.",
    after: "Examples:
  sii_wire -i eth0 run line.toml script.toml
  sii_wire -i eth0 run line.toml -e 'alias = { slave = 2, value = 7 }'",
    answers: "Answers:
  command I accepted N           command I of the script has number N, from 0
  command I refused CODE NAME    it isn't done, and changes nothing
  ... at P                       of a group, edit P is the reason
  accepted A durable D settled S
                                 how many commands were accepted, how many of
                                 them no power cut can undo any more, and how
                                 many are in the slaves
The script is one of sii_station, whose run --help shows a command of each kind. It
is read before a frame is sent. Each image file follows its slave: it has each word
once the slave has shown it. After a fault of the line or the journal recover the
line: each durable command is done as a whole.

Before a word is written it is refused: an image file larger than its slave's EEPROM
(fault 109), a slave above Pre-Operational (110), an EEPROM that its PDI has (111),
a command that makes word 0x3e tell another size than the EEPROM has (112), an image of
another vendor or product, or with fewer words than the EEPROM (114), unless the script
says replace = true with it, and a slave that has other words than its image file
(115), unless --found, --file or --exchanged names it. Commands of --file and --exchanged come first.",
    [LINE, SCRIPT, COMMANDS, BESIDE, CARRY, FORCE, TRUST, RESIZE, ANY_DEVICE, FOUND, FILE, EXCHANGED, REPORT,
     argument!("events": Flag => "Prints what happens to the commands as it happens, for programs",
    "Prints behind the answers, each line as soon as it is so:
  event durable N  N commands are durable by now
  event settled N  N commands are settled by now
  event access P uncounted
                   slave P didn't take the access to its EEPROM back at the end;
                   or: silent, no frame came back
  event image L    the process image is another one: L lines follow, as layout
                   prints it. It counts once the slaves start again"),
     JSON, CAPTURE, QUIET]);

const PLAN: Subcommand =
    subcommand!("plan": "Says what a script would do to the line, and does nothing",
    long: "Brings up the line, and prints how run would answer each command of the script, which words of which slaves would change, and \
        how much would be written.",
    after: "Examples:
  sii_wire -i eth0 plan line.toml script.toml
  sii_wire -i eth0 plan line.toml -e 'alias = { slave = 2, value = 7 }'",
    answers: "Answers, which sii_station plan --help lists in full:
  command I accepted N           as run would answer, see run --help
  command I refused CODE NAME
  accepted A durable D settled S
  slave P word 0xW old 0xO new 0xN
                                 word W of slave P would get the value N in
                                 place of O
  writes words W bytes B syncs S
                                 how much would be written
and the process image before and after, if it changes.

The line is found as for run: with the same flags, and refused for the same reasons
before anything is printed. No word of a slave and no file is written, but for that
of --capture.",
    [LINE, SCRIPT, COMMANDS, JSON, BESIDE, CARRY, FORCE, TRUST, RESIZE, ANY_DEVICE, FOUND, FILE, EXCHANGED, CAPTURE, QUIET]);

/// The line file of `recover`, where it isn't the line of the last call on one slave.
const RECOVERED: Argument = Argument {
    kind: Kind::OptionalWord,
    help: "The line file; where it is left out, that of the last alias or write on this interface",
    ..LINE
};

const RECOVER: Subcommand = subcommand!("recover": "Recovers the line after a power cut",
    long: "Brings up the line, does what is live in its journal, and writes the words of each slave to its image file.",
    after: "Examples:\n  sii_wire -i eth0 recover line.toml\n  sii_wire -i eth0 recover",
    answers: "Answers:
  recovered batches B commands C words W
                   the journal held B batches that weren't done, with C commands,
                   and W words of them were written to the slaves
Each of these commands is then done as a whole, nothing of a command that didn't
come to be durable is, and each image file has the words of its slave. A line can
be recovered again at any time; of a line that is in order it says 0, 0, 0. After
a fault of the line or the journal recover the line again.

A slave that has other words than its image file, outside of those that a recovery
writes, is refused (fault 115) before a word is written, unless --found, --file or
--exchanged names it. With --file and --exchanged recover prints as run does.

Without LINE it recovers the line on which alias or write was cut, and prints
  line NAME        the name of its line file
first.",
    [RECOVERED, BESIDE, CARRY, TAKE, TRUST, FOUND, FILE, EXCHANGED, REPORT, JSON, CAPTURE, QUIET]);

const PENDING: Subcommand =
    subcommand!("pending": "Says what a recovery is still to write, and gives up a slave that can't be written",
    long: "Brings up the line, and prints which words of each slave recover would write. Gives a slave up where that is said.",
    after: "Examples:\n  sii_wire -i eth0 pending line.toml\n  sii_wire -i eth0 pending line.toml --give-up 2",
    answers: "Answers:
  slave P pending N
                   recover is still to write N words of slave P; then a line for each:
  slave P word 0xW has 0xH pending 0xV
                   word W has the value H, and is to get V
Nothing is written. With --give-up the line of that slave says given up; then the journal
is replaced by one that has nothing for it, and the line is recovered, as recover says
(with --json without a word). Where nothing is pending for the slave: fault 116. A call
that was cut can be repeated, or ended by recover.

A slave that has other words than its image file (fault 115) matters only where another
one is given up.

Without LINE it is the line on which alias or write was cut.",
    [RECOVERED,
     argument!("give-up": Text("SLAVE") => "Gives this slave up, and recovers the others",
    "Gives this slave up, as where its EEPROM is write protected: what is listed of it isn't
done. It keeps the words that it has, also torn ones, and its image file gets them. The
journal then has nothing for it, and the line is recovered: the other slaves get all
that they are to have. A command may so be done in part.

Example:
  sii_wire -i eth0 pending line.toml --give-up 2"),
     JSON, BESIDE, CARRY, TAKE, TRUST, CAPTURE, QUIET]);

/// The subcommands, in the order of the help.
pub(crate) fn rows() -> [Subcommand; 14] {
    [
        SCAN, READ, SHOW, ALIAS, WRITE, VERIFY, DIFF, BACKUP, INIT, RUN, PLAN, RECOVER, PENDING,
        EXPLAIN,
    ]
}

/// How the program is started, and its exit status.
const STARTING: &str =
    "The network interface comes first: sii_wire -i eth0 scan. Without a name -i lists all.
A frame that isn't back after 100 milliseconds, or --timeout, is lost. Text goes to
standard output, faults to standard error as: fault CODE NAME, and then what was seen
and what to do, but for --quiet. explain says what a code means.
Exit status: 0 done, 1 a command was refused, 2 wrong usage, 3 a file or its form,
4 the line, 5 no memory.";

/// What stands before the subcommand.
const OPTIONS: &[Argument] = &[WIRE, TEXT, INTERFACE, TIMEOUT, STATE, VERBOSE];

/// The launcher opens the interface, and hands on the wire.
const INTERFACE: Argument =
    argument!("interface": ShortText("INTERFACE", 'i') => "The network interface, as eth0; -i alone lists all");

const STATE: Argument =
    argument!("state": Text("DIR") => "The folder in which alias and write keep their journal and the image read before");

/// The program with these subcommands.
pub(crate) fn wire_program(subcommands: &[Subcommand]) -> Program<'_> {
    Program {
        name: "sii_wire",
        about: "Works on the SII EEPROMs of a line of EtherCAT slaves on a wire",
        version: "0.1.0",
        after_help: STARTING,
        options: OPTIONS,
        subcommands,
    }
}
