/// The outcome of issuing a word: sending a slave the command that writes one word of its EEPROM.
#[derive(Clone, Copy, Debug, PartialEq, Eq)]
pub enum Issued {
    /// The slave took the command: the datagram came back with a working counter of 1.
    Taken,
    /// The slave didn't take the command: the datagram came back with another working counter.
    NotTaken,
    /// The frame was lost. The slave may have taken the command or not.
    Lost,
}

/// The outcome of waiting for a word that was issued.
#[derive(Clone, Copy, Debug, PartialEq, Eq)]
pub enum Settled {
    /// The word holds the value that was issued.
    Written,
    /// The slave is idle, and the word must be issued again.
    Again,
    /// The slave was polled 10,000 times and was never seen idle.
    Dead,
}
