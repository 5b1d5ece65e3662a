//! Reading the words of all slaves of a line side by side: each frame has a datagram of each slave that has something to ask.
ghost use Rattle.std.specs.Prelude.{◌≡◌, ◌≤◌, IfOk};
ghost use Rattle.std.specs.List.{All};
ghost use Rattle.wire_frames.specs.Came.{CameOver};
ghost use Rattle.wire_frames.specs.Room.{Fits};
ghost use Rattle.wire_frames.specs.Sending.{OnlyEeprom};
ghost use Rattle.wire_words.specs.Reading.{NothingReported, IsUnderWay, AllKept};

use crate::ahead::{Ahead, keep_read};
use crate::reader::{Reader, step};
use ecat_frame::Frame;
use rom_steps::POLLS;
use std::rt::Clock;
use wire_frames::{LineFault, NumberedWire, Pace, Room, Wire};

/// The readers of a line, one for each place.
pub type Readers = [Reader; 64];

/// What the readers of a line ask in one frame.
#[derive(Drop)]
struct Question {
    frame: Frame,
    /// Where the datagram of each slave stands in it, if it has one.
    places: [Option<usize>; 64],
    /// The slave whose turn is first in the next frame.
    next: u16,
}

/// The frame of what they ask, as far as it has room, of the slaves from this one on, as if slave 0 came after the last one.
fn asked_by(readers: &Readers, first: u16, room: Room) -> Question
    ensures only { OnlyEeprom result.frame }
    ensures fits { Fits room result.frame }
{
    let mut frame = Frame::new();
    let mut places = [None; 64];
    for turn in 0..64u16 {
        let slave = first.wrapping_add(turn) % 64;
        let reader = readers[usize::from(slave)];
        if reader.is_asking() {
            if !room.takes(&frame, reader.most_asked()) {
                return Question {
                    frame,
                    places,
                    next: slave,
                };
            }
            places[usize::from(slave)] = Some(frame.count());
            reader.ask(&mut frame);
        }
    }
    Question {
        frame,
        places,
        next: first,
    }
}

/// Each that asked takes its answer, in the order of the line. Gives whether one got further.
fn take_answers<W: Wire>(
    returned: &Frame,
    places: &[Option<usize>; 64],
    readers: &mut Readers,
    ahead: &mut Ahead,
) -> bool
    requires came { CameOver W.gives returned.now }
    requires reported { All (IsUnderWay W.gives) readers.old }
    requires kept { AllKept W.gives ahead.old }
    ensures reported { All (IsUnderWay W.gives) readers.new }
    ensures kept { AllKept W.gives ahead.new }
{
    let mut is_further = false;
    for slave in 0..64u16 {
        let reader = readers[usize::from(slave)];
        let place = places[usize::from(slave)];
        let next = take_answer::<W>(reader, returned, place, slave, ahead);
        readers[usize::from(slave)] = next;
        is_further = is_further || next.phase != reader.phase;
    }
    is_further
}

/// A reader takes its answer at this place of the frame, if it has asked, and what it has read is kept.
fn take_answer<W: Wire>(
    reader: Reader,
    returned: &Frame,
    answer: Option<usize>,
    slave: u16,
    ahead: &mut Ahead,
) -> Reader
    requires came { CameOver W.gives returned.now }
    requires reported { IsUnderWay W.gives reader }
    requires kept { AllKept W.gives ahead.old }
    ensures reported { IsUnderWay W.gives result }
    ensures kept { AllKept W.gives ahead.new }
{
    let Some(place) = answer else {
        return reader;
    };
    let stepped = step::<W>(reader, returned, place);
    if let Some(read) = stepped.read {
        keep_read::<W>(ahead, slave, reader.station, reader.word, read);
    }
    stepped.reader
}

/// Reads until no reader asks for anything more, or none has got further in 10,000 frames: then each that still asks is of a slave that stays
/// busy, and is given up. A frame in which none got further is followed by a pause. Where a frame hasn't room for all that ask, they take turns.
pub fn read_in_step<W: Wire, C: Clock>(
    wire: &mut NumberedWire<W>,
    clock: &C,
    mut readers: Readers,
    ahead: &mut Ahead,
) -> Result<Readers, LineFault>
    requires reported { All NothingReported readers }
    requires kept { AllKept W.gives ahead.old }
    ensures same { wire.new.stations ≡ wire.old.stations }
    ensures kept { AllKept W.gives ahead.new }
{
    let mut pace = Pace::new();
    let mut first = 0;
    for _frame in 0..u32::MAX {
        let Question {
            frame,
            places,
            next,
        } = asked_by(&readers, first, wire.room());
        if frame.count() == 0 || u32::from(pace.pauses()) >= POLLS {
            return Ok(readers);
        }
        let Some(returned) = wire.pass_all(frame) else {
            return Err(LineFault::Silent);
        };
        first = next;
        if take_answers::<W>(&returned.frame, &places, &mut readers, ahead) {
            pace = Pace::new();
        } else {
            pace.poll(clock);
        }
    }
    Ok(readers)
}
