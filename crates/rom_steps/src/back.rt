//! What came back for a datagram.

ghost use Rattle.std.specs.Prelude.{◌≡◌};
ghost use Rattle.rom_steps.specs.Accesses.{rest_shown};
ghost use Rattle.rom_steps.specs.Back.{counted_in, issued_in, pair_in, rested_in};

use site_core::Issued;

/// What came back for a datagram.
#[derive(Clone, Copy)]
pub enum Back {
    /// The frame: the datagram's working counter, and the first four bytes of its content (after a shorter one 0).
    Came { counter: u16, content: [u8; 4] },
    /// The frame was lost. The slave may have taken it or not.
    Lost,
}

/// How the last command of an idle slave ended.
#[derive(Clone, Copy)]
pub enum Rested {
    /// Bits 13 and 14 of control and status are clear.
    Well,
    /// One of them is set.
    Failed,
}

/// Two neighbouring words.
#[derive(Clone, Copy)]
pub struct WordPair {
    pub first: u16,
    pub second: u16,
}

/// Whether the working counter is 1.
pub(crate) fn is_counted(back: Back) -> bool
    ensures { result ≡ counted_in back }
{
    match back {
        Back::Came { counter, .. } => counter == 1,
        Back::Lost => false,
    }
}

/// Reads the high byte of control and status. None if the slave is busy.
fn read_status(status: u8) -> Option<Rested>
    ensures { result ≡ rest_shown status }
{
    match status {
        0x80.. => None,
        0x20.. => Some(Rested::Failed),
        _ => Some(Rested::Well),
    }
}

/// Reads the answer to a poll. None if it doesn't show the slave idle.
pub(crate) fn read_rest(back: Back) -> Option<Rested>
    ensures { result ≡ rested_in back }
{
    match back {
        Back::Came { counter, content } => {
            if counter != 1 {
                return None;
            }
            read_status(content[1])
        }
        Back::Lost => None,
    }
}

/// Reads the words that were fetched. None if there are none.
pub(crate) fn read_pair(back: Back) -> Option<WordPair>
    ensures { result ≡ pair_in back }
{
    match back {
        Back::Came { counter, content } => {
            if counter != 1 {
                return None;
            }
            Some(WordPair {
                first: u16::from_le_bytes([content[0], content[1]]),
                second: u16::from_le_bytes([content[2], content[3]]),
            })
        }
        Back::Lost => None,
    }
}

/// Reads the answer to the command that writes a word.
pub(crate) fn read_issued(back: Back) -> Issued
    ensures { result ≡ issued_in back }
{
    match back {
        Back::Came { counter, .. } => {
            if counter == 1 {
                return Issued::Taken;
            }
            Issued::NotTaken
        }
        Back::Lost => Issued::Lost,
    }
}
