//! What slaves to practise on do that the definition of a slave doesn't have.

use site_shadow::Pattern;

/// When one slave alone loses its power, for a moment.
#[derive(Clone, Copy)]
pub enum PowerLoss {
    Never,
    /// After so many frames.
    After(u32),
    /// In the midst of the word with this number, counted from 1, as the slave begins to write them.
    InWord(u32),
}

/// What a slave does that the definition of a slave doesn't have. Times are in microseconds.
#[derive(Clone, Copy)]
pub struct Quirks {
    /// How many words the chip has. Word addresses after its end roll over, in reads and in writes. None: as many as the image, and a
    /// command for a word after them ends in error.
    pub chip: Option<u32>,
    /// For how many datagrams the controller is busy with a command. Words that were read are in its registers after them.
    pub delay: u32,
    /// How many of them don't show it as busy yet.
    pub shown_late: u32,
    /// For how long it is busy with a read, besides.
    pub read_time: u64,
    /// For how long it is busy with a write, besides.
    pub write_time: u64,
    /// For how long the chip programs a word on, once the controller is idle. Each command meanwhile ends with a missing acknowledge, and a
    /// power cut tears the word.
    pub programs_on: u64,
    /// How many words the chip writes anew as a whole with each word, 1 or more: a power cut tears all of them.
    pub page: u16,
    /// Whether the chip is write protected: a write ends without an error, and the word keeps its value.
    pub is_protected: bool,
    /// How many of the first commands, reads and writes, end with a missing acknowledge: bit 13 of control and status. Nothing is read or
    /// written then.
    pub first_missed: u32,
    /// Each command whose number is a multiple of this ends so too. 0: none.
    pub each_missed: u32,
    /// Whether reads and writes are ignored while bit 13 or 14 is set, until command 000 clears it.
    pub is_blocked_by_errors: bool,
    /// Whether a read loads eight bytes, as bit 6 of control and status says then, and not four.
    pub is_wide: bool,
    /// Whether alias addressing is on as the power comes: bit 0 of 0x0103. The slave then takes FP commands to its alias too.
    pub has_alias_addressing: bool,
    /// The AL state at 0x0130: 1 Init, 2 Pre-Operational, 4 Safe-Operational, 8 Operational.
    pub state: u8,
    /// Whether the PDI holds the EEPROM as the power comes, and whenever it is offered to it: bit 0 of 0x0500 and of 0x0501.
    pub is_held: bool,
    /// A station address that the slave has as the power comes, and keeps. None: it has none, and takes the one that it is given.
    pub station: Option<u16>,
    /// When this slave alone loses its power.
    pub loss: PowerLoss,
    /// What a word in flight is left as then.
    pub left: Pattern,
}

/// A slave in Init that does as the definition says.
pub const NO_QUIRKS: Quirks = Quirks {
    chip: None,
    delay: 0,
    shown_late: 0,
    read_time: 0,
    write_time: 0,
    programs_on: 0,
    page: 1,
    is_protected: false,
    first_missed: 0,
    each_missed: 0,
    is_blocked_by_errors: false,
    is_wide: false,
    has_alias_addressing: false,
    state: 1,
    is_held: false,
    station: None,
    loss: PowerLoss::Never,
    left: Pattern::Old,
};

/// A cable that is pulled: frames go no further then, and come back from there.
#[derive(Clone, Copy)]
pub struct Cable {
    /// The place in the line of the last slave that frames still reach.
    pub after: u16,
    /// How many frames pass before.
    pub frames: u32,
}
