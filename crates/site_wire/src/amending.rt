//! What a device sends of its own to a slave whose shadow writes a word: the command again, where the slave has not carried it out, and the
//! read of the word, once the slave shows it as written.
ghost use Rattle.std.specs.Prelude.{◌≡◌, ◌+◌, ◌%◌, ◌<◌, ◌++◌, Some, length};
ghost use Rattle.std.specs.Int.{w16, w32, to_le_bytes};
ghost use Rattle.esc_model.specs.Orders.{clear_order, write_order};
ghost use Rattle.esc_model.specs.Bytes.{word_at};
ghost use Rattle.esc_model.specs.SlaveHalf.{in_flight};
ghost use Rattle.site_wire.specs.Answering.{found_of};
ghost use Rattle.site_wire.specs.Following.{SendsOwn, Polls, TriesPair, ReadsBack};
ghost use Rattle.site_wire.specs.Orders.{datagram_of, words_order};

use crate::answers::{AccessState, Answer, state_shown};
use crate::order::Order;
use crate::reach::Reach;
use crate::sending::Sender;
use ecat_frame::Command;
use esc_model::{RomHalf, WordWrite};
use rom_steps::{CONTENT, CONTROL, POLLS, write_content};
use std::rt::Clock;
use wire_frames::{ATTEMPTS, Pace, UNCOUNTED};

/// The outcome of one try to read two words.
#[derive(Clone, Copy)]
enum Tried {
    Read([u8; 4]),
    Refused,
    /// The slave isn't seen idle.
    Unseen,
}

/// The content of the datagram that reads a word and the next one, and puts `held` where they come to stand.
fn read_content(word: u16, held: u16) -> [u8; 10]
    ensures { result ≡ to_le_bytes w16 0x0100 ++ to_le_bytes w32 word ++ to_le_bytes w16 held ++ to_le_bytes w16 held }
{
    let [a, b, c, d] = u32::from(word).to_le_bytes();
    let [low, high] = held.to_le_bytes();
    [0x00, 0x01, a, b, c, d, low, high, low, high]
}

/// The command to read a word and the next one, with `held` where they come to stand.
fn read_order(slave: u16, word: u16, held: u16) -> Order
    requires { slave < 64 }
    ensures { datagram_of result ≡ words_order slave word held }
{
    Order::to(slave, Command::Fpwr, CONTROL, &read_content(word, held))
}

/// The command to write a word.
fn write_order(slave: u16, write: WordWrite) -> Order
    requires { slave < 64 }
    ensures { datagram_of result ≡ write_order slave write.word write.value }
{
    let content = write_content(write.word, write.value);
    Order::to(slave, Command::Fpwr, CONTROL, &content)
}

/// Clears the errors of a slave. None where the line has stopped.
fn clear<L: Reach>(line: &mut Sender<L>, slave: u16, half: &RomHalf) -> Option<Answer>
    requires { slave < 64 }
    ensures { SendsOwn slave half.now line.old.log.all line.new.log.all }
{
    line.pass(half, &Order::to(slave, Command::Fpwr, CONTROL, &[0, 0]))
}

/// Clears the errors of a slave, and tells it again to write the word in flight. Tells whether it took that. None where the line has stopped.
pub(crate) fn issue_again<L: Reach>(
    line: &mut Sender<L>,
    slave: u16,
    half: &RomHalf,
    write: WordWrite,
) -> Option<bool>
    requires slave { slave < 64 }
    requires flying { in_flight half.now.activity ≡ Some write }
    requires inside { write.word < length half.now.words }
    ensures { SendsOwn slave half.now line.old.log.all line.new.log.all }
{
    let _cleared = clear(line, slave, half)?;
    let answer = line.pass(half, &write_order(slave, write))?;
    Some(answer.counter == 1)
}

/// Polls a slave until it shows that it is idle, and gives what it shows. `Nothing` where none of 10,000 polls sees that, or a hundred in a
/// row aren't counted. None where the line has stopped.
fn wait_idle<L: Reach, C: Clock>(
    line: &mut Sender<L>,
    clock: &C,
    slave: u16,
    half: &RomHalf,
) -> Option<AccessState>
    requires { slave < 64 }
    ensures { Polls slave line.old.log.all line.new.log.all result }
{
    let poll = Order::to(slave, Command::Fprd, CONTROL, &[0, 0]);
    let mut pace = Pace::new();
    let mut uncounted = 0u32;
    for _poll in 0..POLLS {
        match state_shown(&line.pass(half, &poll)?) {
            AccessState::Nothing => uncounted = uncounted.saturating_add(1),
            AccessState::Busy => uncounted = 0,
            shown => return Some(shown),
        }
        if uncounted >= UNCOUNTED {
            return Some(AccessState::Nothing);
        }
        pace.poll(clock);
    }
    Some(AccessState::Nothing)
}

/// Tries once to read a word and the next one. None where the line has stopped.
fn try_pair<L: Reach, C: Clock>(
    line: &mut Sender<L>,
    clock: &C,
    slave: u16,
    half: &RomHalf,
    word: u16,
    held: u16,
) -> Option<Tried>
    requires slave { slave < 64 }
    requires inside { word + 1 < length half.now.words }
    ensures { TriesPair slave half.now word line.old.log.all line.new.log.all result }
{
    let taken = line.pass(half, &read_order(slave, word, held))?;
    let shown = wait_idle(line, clock, slave, half)?;
    if shown == AccessState::Nothing {
        return Some(Tried::Unseen);
    }
    if taken.counter != 1 || shown != AccessState::Well {
        return Some(Tried::Refused);
    }
    let fetch = Order::to(slave, Command::Fprd, CONTENT, &[0, 0, 0, 0]);
    let fetched = line.pass(half, &fetch)?;
    Some(match fetched.words_read() {
        Some(pair) => Tried::Read(pair),
        None => Tried::Refused,
    })
}

/// Of two neighbouring words the one with this number.
fn word_in(pair: [u8; 4], word: u16) -> u16
    ensures even { word % 2 ≡ 0 → result ≡ word_at pair 0 }
    ensures odd { word % 2 ≡ 1 → result ≡ word_at pair 2 }
{
    let [a, b, c, d] = pair;
    if word % 2 == 0 {
        u16::from_le_bytes([a, b])
    } else {
        u16::from_le_bytes([c, d])
    }
}

/// Reads the word in flight back from a slave that shows it as written. A try that isn't acknowledged is followed by command 000 and a
/// pause; they take half a second. None where the word can't be read, the slave isn't seen idle, or the line has stopped.
pub(crate) fn read_back<L: Reach, C: Clock>(
    line: &mut Sender<L>,
    clock: &C,
    slave: u16,
    half: &RomHalf,
    write: WordWrite,
) -> Option<u16>
    requires { slave < 64 }
    ensures { ReadsBack slave half.now write.word line.old.log.all line.new.log.all result }
{
    let first = write.word - write.word % 2;
    if usize::from(first) + 1 >= half.words().len() {
        return None;
    }
    let mut pace = Pace::new();
    for _try in 0..ATTEMPTS {
        match try_pair(line, clock, slave, half, first, !write.value)? {
            Tried::Read(pair) => return Some(word_in(pair, write.word)),
            Tried::Unseen => return None,
            Tried::Refused => {}
        }
        let _cleared = clear(line, slave, half)?;
        pace.retry(clock);
    }
    None
}
