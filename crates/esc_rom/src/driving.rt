//! Word access as the steps of `rom_steps` say it: which datagram is next, and what that means which came back.

ghost use Rattle.std.specs.Prelude.{◌≡◌, ◌<◌, ◌≤◌, ◌∷◌, [], length, take, slice_index};
ghost use Rattle.ecat_frame.specs.Frame.{pdu};
ghost use Rattle.site_core.specs.Line.{Owns};
ghost use Rattle.rom_steps.specs.Back.{IsBack};
ghost use Rattle.rom_steps.specs.Remaining.{Remains, left, pdu_to};
ghost use Rattle.esc_rom.specs.Courses.{Takes};
ghost use Rattle.esc_rom.specs.Driving.{AsksOnce, IsEndOf};

use ecat_frame::{Command, Datagram, Frame, fp};
use esc_model::station_address;
use rom_steps::{Back, End, Step, Stop, ToSend, next_of, take};
use site_core::{DeviceFault, Site};

/// The number of datagrams of the longest access: opening takes up to 10,009, reading two words up to 30,006.
const LONGEST: u32 = 30_006;

/// A byte of a content, or 0 after it.
fn byte(content: &[u8], at: usize) -> u8
    ensures { result ≡ slice_index content.now at }
{
    match content.get(at) {
        Some(byte) => *byte,
        None => 0,
    }
}

/// A datagram that came back, as a step takes it in.
fn came(answer: Datagram<'_>) -> Back
    ensures { IsBack result (Ok (pdu answer.entry)) }
{
    Back::Came {
        counter: answer.counter,
        content: [
            byte(answer.content, 0),
            byte(answer.content, 1),
            byte(answer.content, 2),
            byte(answer.content, 3),
        ],
    }
}

/// The content of a datagram that is to be sent.
fn content_of(datagram: &ToSend) -> &[u8]
    ensures bytes { result.now ≡ take datagram.now.length datagram.now.content }
    ensures short { length result.now ≤ 16 }
{
    let length = usize::from(datagram.length);
    if length < 8 {
        return &datagram.content[..length];
    }
    &datagram.content
}

/// Makes it a frame with this datagram for a slave.
fn fill(frame: &mut Frame, slave: u16, datagram: &ToSend)
    requires { slave < 64 }
    ensures { frame.new ≡ pdu_to slave datagram.now ∷ [] }
{
    let command = Command::from(datagram.command);
    let address = fp(station_address(slave), datagram.register);
    frame.clear();
    match frame.push(command, 0, address, content_of(datagram)) {
        Ok(()) => {}
        Err(_) => unreachable!(),
    }
}

/// Sends a datagram to a slave, alone in a frame, and returns what came back.
fn ask<S: Site>(
    site: &mut S,
    frame: &mut Frame,
    slave: u16,
    datagram: &ToSend,
) -> Result<Back, Stop>
    requires { Owns (S.line site.old) slave }
    ensures asks { AsksOnce (S.seen site.old) slave (pdu_to slave datagram.now) result (S.seen site.new) }
    ensures line { S.line site.new ≡ S.line site.old }
{
    fill(frame, slave, datagram);
    match site.exchange(slave, frame) {
        Ok(()) => Ok(came(frame.datagram(0))),
        Err(DeviceFault::Lost) => Ok(Back::Lost),
        Err(_) => Err(Stop),
    }
}

/// How an access ended at which nothing more is to be sent.
fn end_of(step: Step) -> Result<End, Stop>
    ensures { IsEndOf step result }
{
    match step {
        Step::Ended(end) => Ok(end),
        _ => Err(Stop),
    }
}

/// Carries a word access out, from its first step to its end: sends each datagram that is next, alone in a frame, and takes in what came
/// back.
pub(crate) fn drive<S: Site>(site: &mut S, slave: u16, first: Step) -> Result<End, Stop>
    requires owned { Owns (S.line site.old) slave }
    requires short { left first ≤ 30006 }
    ensures drives { Takes (Remains slave first) (S.seen site.old) result (S.seen site.new) }
    ensures line { S.line site.new ≡ S.line site.old }
{
    let mut frame = Frame::new();
    let mut step = first;
    for _turn in 0..LONGEST {
        let Some(datagram) = next_of(step) else {
            return end_of(step);
        };
        let back = ask(site, &mut frame, slave, &datagram)?;
        step = take(step, back);
    }
    end_of(step)
}
