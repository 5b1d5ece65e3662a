//! A frame with datagrams of three slaves, of which that of the second one comes back with a working counter of 0 as the line is brought up.

use crate::bench::{Bench, WELL, line_of};
use crate::bringing_up::finds;
use crate::side_by_side::{ALL_READ, BEFORE, PLAINS};
use ecat_frame::{Datagram, Frame};
use std::alloc::Global;
use std::io;
use wire_bringup::Sizes;
use wire_frames::{NumberedWire, Wire};
use wire_practice::{Fate, Mishap, PracticeWire};

// The station address of slave 0, and the first register of an EEPROM and the one after the last.
const FIRST: u32 = 0x1001;

const EEPROM: u32 = 0x0500;

const AFTER: u32 = 0x0510;

// A wire that counts the datagrams for the EEPROM of each slave.
#[derive(Drop)]
struct CountedWire<W> {
    wire: W,
    asked: [u32; 3],
}

impl<W> CountedWire<W> {
    fn note(&mut self, datagram: Datagram<'_>) {
        let register = datagram.address / 65536;
        let slave = (datagram.address % 65536).wrapping_sub(FIRST);
        if (EEPROM..AFTER).contains(&register) {
            if let Some(count) = self.asked.get_mut(slave as usize) {
                *count = count.saturating_add(1);
            }
        }
    }
}

impl<W: Wire> Wire for CountedWire<W> {
    ghost gives = { W.gives };

    fn send(&mut self, bytes: &[u8]) -> io::Result<()> {
        if let Ok(frame) = Frame::parse(bytes) {
            for datagram in frame.datagrams() {
                self.note(datagram);
            }
        }
        self.wire.send(bytes)
    }

    fn receive(&mut self, bytes: &mut [u8]) -> io::Result<usize> {
        self.wire.receive(bytes)
    }
}

// How many datagrams each slave gets until its words are read. None: they aren't, or memory was refused.
fn asked_with(alloc: Global, mishap: Mishap) -> Option<[u32; 3]> {
    let bench = Bench::new();
    let mut under = PracticeWire::new(line_of(alloc, PLAINS, None)?, &bench.clock);
    under.plan(mishap);
    let counted = CountedWire {
        wire: under,
        asked: [0; 3],
    };
    let mut wire = NumberedWire::new(counted, 7);
    if finds(alloc, &bench, &mut wire, &Sizes::unknown(), &Ok(ALL_READ)) {
        Some(wire.wire().asked)
    } else {
        None
    }
}

// Which frame it is, from the first on that has a datagram for each slave, and how many datagrams the second slave gets more. Even frames tell
// each slave to read: one that didn't count that is polled, its errors are cleared, and it gets the command again. Odd ones poll, and are sent again.
const CASES: &[(u32, u32)] = &[(0, 3), (1, 1), (2, 3), (3, 1), (100, 3), (101, 1)];

// Whether the second slave gets so many datagrams more where that frame brings a counter of 0 for it, and the others as many as ever.
fn is_asked_alone(alloc: Global, frame: u32, more: u32) -> Option<bool> {
    let [first, second, third] = asked_with(alloc, WELL)?;
    let mishap = Mishap {
        passing: BEFORE.saturating_add(frame),
        failing: 1,
        fate: Fate::Turned(44, 1),
    };
    let asked = asked_with(alloc, mishap)?;
    Some(asked == [first, second.saturating_add(more), third])
}

#[test]
fn a_slave_that_did_not_count_is_asked_again_alone(rt: HostRuntime) {
    for (frame, more) in CASES {
        assert!(rt; is_asked_alone(rt.alloc(), *frame, *more) == Some(true));
    }
}
