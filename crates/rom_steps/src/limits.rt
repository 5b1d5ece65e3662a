//! The limits after which a slave is given up.

/// The number of polls in a row after which a slave that isn't seen idle is given up.
pub const POLLS: u32 = 10_000;

/// The number of times that a datagram is sent, or two words are read, before a slave is given up.
pub const TRIES: u32 = 3;
