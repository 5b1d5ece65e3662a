//! The calls on numbers, for a program in another language.

ghost use Rattle.std.specs.Prelude.{◌≡◌, Err, slice_index};
ghost use Rattle.site_core.specs.declared.fault.DeviceFault.TheVariants as device;
ghost use Rattle.rom_steps.specs.Back.{first_four};
ghost use Rattle.rom_steps.specs.Calls.{IsCodeOfOver, Starts, Steps, StepsWith, TellsNext};
ghost use Rattle.rom_steps.specs.Remaining.{IssueCourse, OpenCourse, ReadCourse, SettleCourse};

use crate::access::{Access, access_of, code_of_end, step_in};
use crate::back::Back;
use crate::datagram::{ToSend, next_of};
use crate::step::{Step, begin_issue, begin_opening, begin_reading, begin_settling};
use crate::taking::{stop, take};

/// The call is done.
const DONE: u32 = 0;

/// The line has stopped.
const STOPPED: u32 = 42;

/// A datagram is to be sent.
const SEND: u32 = 100;

/// The numbers are no step, or nothing is to be sent.
const NO_STEP: u32 = 110;

/// The content isn't as long as that of the datagram that was sent.
const OTHER_LENGTH: u32 = 111;

/// The code of a step at which nothing is sent.
fn code_of_over(step: Step) -> u32
    ensures { IsCodeOfOver step result }
{
    match step {
        Step::Ended(end) => code_of_end(end),
        Step::Stopped => STOPPED,
        _ => NO_STEP,
    }
}

/// Begins to open a slave, as `begin_opening`.
pub fn open(access: &mut Access)
    ensures { Starts OpenCourse 10009 access.new }
{
    *access = access_of(begin_opening());
}

/// Begins to read a word and the next one, as `begin_reading`.
pub fn read(access: &mut Access, word: u16)
    ensures { Starts (λ slave. ReadCourse slave word) 30006 access.new }
{
    *access = access_of(begin_reading(word));
}

/// Begins to issue a word, as `begin_issue`.
pub fn issue(access: &mut Access, word: u16, value: u16)
    ensures { Starts (λ slave. IssueCourse slave word value) 1 access.new }
{
    *access = access_of(begin_issue(word, value));
}

/// Begins to settle a word, as `begin_settling`.
pub fn settle(access: &mut Access, taken: bool)
    ensures { Starts (λ slave. SettleCourse slave taken) 10001 access.new }
{
    *access = access_of(begin_settling(taken));
}

/// Tells what is to be done next. It answers 100 if a datagram is to be sent, and writes that to `datagram`. Where the access has ended
/// it answers how, and `datagram` stays: 101, the slave is open; 102, the words were read, and are in `first` and `second`; 103, the slave
/// took the command that writes the word, 104, it didn't, 41, that frame was lost; 105, the word is written, 106, it has to be issued
/// again; 107, the slave that was waited for is idle, 108, idle with an error; 43, the slave is given up; 42, the line has stopped. It
/// answers 110 if the numbers are no step.
pub fn next(access: &Access, datagram: &mut ToSend) -> u32
    ensures { TellsNext access.now result datagram.new (datagram.new ≡ datagram.old) }
{
    let step = match step_in(*access) {
        Some(step) => step,
        None => return NO_STEP,
    };
    match next_of(step) {
        Some(sent) => {
            *datagram = sent;
            SEND
        }
        None => code_of_over(step),
    }
}

/// A byte of a content, or 0 after it.
fn byte(content: &[u8], at: usize) -> u8
    ensures { result ≡ slice_index content.now at }
{
    match content.get(at) {
        Some(byte) => *byte,
        None => 0,
    }
}

fn first_four(content: &[u8]) -> [u8; 4]
    ensures { result ≡ first_four content.now }
{
    [
        byte(content, 0),
        byte(content, 1),
        byte(content, 2),
        byte(content, 3),
    ]
}

/// Takes in the frame that came back: the working counter and the content of the datagram. It answers 0; or a code, and nothing is
/// changed: 110 if nothing was to be sent; 111 if the content isn't as long as that of the datagram that was.
pub fn take_answer(access: &mut Access, counter: u16, content: &[u8]) -> u32
    ensures { StepsWith access.old result access.new counter content.now }
{
    let step = match step_in(*access) {
        Some(step) => step,
        None => return NO_STEP,
    };
    let sent = match next_of(step) {
        Some(sent) => sent,
        None => return NO_STEP,
    };
    if content.len() != usize::from(sent.length) {
        return OTHER_LENGTH;
    }
    let back = Back::Came {
        counter,
        content: first_four(content),
    };
    *access = access_of(take(step, back));
    DONE
}

/// Takes in that the frame was lost. It answers 0; or 110 if nothing was to be sent, and nothing is changed.
pub fn take_loss(access: &mut Access) -> u32
    ensures { Steps access.old result access.new (λ came. came ≡ Err device.Lost) }
{
    let step = match step_in(*access) {
        Some(step) => step,
        None => return NO_STEP,
    };
    match next_of(step) {
        Some(_) => {
            *access = access_of(take(step, Back::Lost));
            DONE
        }
        None => NO_STEP,
    }
}

/// Takes in that the line has stopped for good, as when its link is down. It answers 0; or 110 if nothing was to be sent, and nothing
/// is changed.
pub fn take_stop(access: &mut Access) -> u32
    ensures { Steps access.old result access.new (λ came. came ≡ Err device.Stopped) }
{
    let step = match step_in(*access) {
        Some(step) => step,
        None => return NO_STEP,
    };
    match next_of(step) {
        Some(_) => {
            *access = access_of(stop(step));
            DONE
        }
        None => NO_STEP,
    }
}
