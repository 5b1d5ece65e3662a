//! The codes of faults and refusals, as one table: the number, the name and the explanation of each.
ghost use Rattle.std.specs.Prelude.{Contains};

use std::fmt;

/// The code of a fault or a refusal; from 100 on, of a fault of a wire. It is printed as its number and its name; its entry says what it means.
#[derive(Clone, Copy, PartialEq, Eq)]
pub enum Code {
    OddLength = 1,
    BadSize = 2,
    RunsOut = 3,
    BadCategory = 4,
    NoRoom = 5,
    NoSlave = 10,
    SameSlave = 11,
    EmptyGroup = 12,
    GroupTooLong = 13,
    ImageTooLong = 14,
    BadCheck = 15,
    NoSuchCategory = 16,
    SeveralCategories = 17,
    BadChain = 18,
    ImageOverLimit = 19,
    Memory = 20,
    WrongIdentity = 21,
    FrameFull = 30,
    BadFrame = 31,
    Disk = 40,
    Lost = 41,
    Stopped = 42,
    SlaveDead = 43,
    NotAJournal = 50,
    BadVersion = 51,
    BadJournal = 52,
    WrongLine = 53,
    TooLarge = 60,
    Full = 61,
    Closed = 62,
    OldJournal = 63,
    WrongCounter = 70,
    Mismatch = 80,
    Unserved = 81,
    NoShare = 82,
    File = 90,
    BadHex = 91,
    BadLine = 92,
    BadScript = 93,
    Exists = 94,
    Busy = 95,
    SameFile = 96,
    NotAFile = 97,
    TooLong = 98,
    Silent = 100,
    NoSlaves = 101,
    TooManySlaves = 102,
    UnknownSize = 103,
    OtherCount = 104,
    Differs = 105,
    WordFailed = 106,
    /// Reserved: no fault has this number.
    Unconfirmed = 107,
    NotForWire = 108,
    SmallerChip = 109,
    Running = 110,
    Held = 111,
    OtherSize = 112,
    StationAddress = 113,
    OtherDevice = 114,
    OtherWords = 115,
    NothingPending = 116,
}

/// The variant of the same name in another enum.
#[macro_export]
macro_rules! namesake {
    ($value:expr, $from:ident as $to:ident: $($name:ident),*) => {
        match $value {
            $($from::$name { .. } => $to::$name,)*
        }
    };
}

macro_rules! codes {
    ($($name:ident),*) => { [$(Code::$name),*] };
}

/// All codes, in the order of their numbers.
pub const CODES: [Code; 61] = codes! {
    OddLength, BadSize, RunsOut, BadCategory, NoRoom, NoSlave, SameSlave, EmptyGroup, GroupTooLong, ImageTooLong,
    BadCheck, NoSuchCategory, SeveralCategories, BadChain, ImageOverLimit, Memory, WrongIdentity, FrameFull, BadFrame,
    Disk, Lost, Stopped, SlaveDead, NotAJournal, BadVersion, BadJournal, WrongLine, TooLarge, Full, Closed, OldJournal,
    WrongCounter, Mismatch, Unserved, NoShare, File, BadHex, BadLine, BadScript, Exists, Busy, SameFile, NotAFile,
    TooLong, Silent, NoSlaves, TooManySlaves, UnknownSize, OtherCount, Differs, WordFailed, Unconfirmed, NotForWire,
    SmallerChip, Running, Held, OtherSize, StationAddress, OtherDevice, OtherWords, NothingPending
};

/// Law: each code stands in the table `CODES`.
pub fn each_code_is_listed(code: Code)
    ensures { Contains CODES code }
{}

/// Finds a code by its number or its name; `None` where there is no such code. The case of the letters doesn't matter.
pub fn find_code(text: &str) -> Option<Code> {
    let mut codes = CODES.iter().copied();
    codes.find(|code| {
        code.entry().name.eq_ignore_ascii_case(text) || text.parse::<u8>() == Ok(code.number())
    })
}

impl Code {
    /// The number that the code is printed with.
    pub fn number(self) -> u8 {
        self as u8
    }
}

impl fmt::Display for Code {
    fn fmt<W: fmt::Write>(&self, f: &mut fmt::Formatter<W>) -> fmt::Result {
        write!(f, "{} {}", self.number(), self.entry().name)
    }
}
