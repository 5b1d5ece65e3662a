//! A line of slaves in memory whose process data is configured and exchanged as their EEPROMs describe it.

use super::process_half::half_of;
use super::process_line;
use super::recorder::Recorder;
use super::sent::CYCLED;
use crate::devices::{self, BOTH, Device, INPUTS, NAMED, NOTHING, put};
use cyclic::{CycleFault, configure, reconfigure, turn};
use ecat_frame::{Command, Frame, fp};
use sii_image::{Plan, image_of};
use site_core::Site;
use site_mem::MemSite;
use std::alloc::Global;

// A slave: its station address, an address, and the inputs that its memory holds there.
type Standing = (u16, u16, &'static [u8]);

const STANDING: &[Standing] = &[
    (0x1001, 0x1180, &[0x11, 0x22, 0x33, 0x44]),
    (0x1002, 0x1000, &[0x55, 0x06]),
];

// Inputs after a turn: all have this byte, but for some from a place on.
type Inputs = (u8, usize, &'static [u8]);

// The inputs that come back from these two slaves, and from one whose inputs begin at 0x1000.
const BACK: Inputs = (0, 0, &[0x11, 0x22, 0x33, 0x44, 0x55, 0x06]);

const ALL_BACK: Inputs = (0, 0x180, &[0x11, 0x22, 0x33, 0x44]);

// A turn that fails leaves the inputs unchanged.
const KEPT: Inputs = (0xee, 0, &[]);

// The two slaves, and two without process data.
const TWO: &[Device] = &[BOTH, INPUTS];

const NONE_OF_TWO: &[Device] = &[NOTHING, NOTHING];

// The plans of a line: for its process data, and for none.
#[derive(Drop)]
struct Plans {
    data: Plan,
    none: Plan,
}

// The plan of a line of these slaves.
fn plan_of(alloc: Global, slaves: &[Device]) -> Option<Plan> {
    match devices::line_of(alloc, slaves) {
        Some(plant) => Some(Plan {
            prefix: 0,
            image: image_of(alloc, &plant).ok()?,
        }),
        None => None,
    }
}

fn plans_of(alloc: Global, slaves: &[Device]) -> Option<Plans> {
    Some(Plans {
        data: plan_of(alloc, slaves)?,
        none: plan_of(alloc, NONE_OF_TWO)?,
    })
}

// A line of these slaves. The site owns only their process halves.
fn line_of(alloc: Global, slaves: &[Standing]) -> Option<MemSite> {
    let mut process = Vec::new(alloc);
    for (station, place, memory) in slaves {
        let half = half_of(alloc, &NOTHING, *station, *place, memory)?;
        process.push(half).ok()?;
    }
    process_line(alloc, process)
}

// Whether a datagram for a register of a station comes back from the process halves with these bytes at its end.
fn is_cycled(
    site: &mut Recorder,
    command: Command,
    address: u32,
    content: &[u8],
    back: &[u8],
) -> bool {
    let mut frame = Frame::new();
    frame.push(command, 0, address, content).is_ok()
        && site.has_process()
        && site.cycle(&mut frame).is_ok()
        && frame.as_bytes().ends_with(back)
}

// Whether reading a register of a station, in place of zeros, gives these bytes and this working counter.
fn is_read(site: &mut Recorder, station: u16, register: u16, back: &[u8]) -> bool {
    let zeros = [0u8; 112];
    if back.len() < 2 || back.len() > 114 {
        return false;
    }
    let content = &zeros[..back.len() - 2];
    is_cycled(site, Command::Fprd, fp(station, register), content, back)
}

fn is_configured(site: &mut Recorder) -> bool {
    let mut is_configured = true;
    for (station, register, back) in CONFIGURED {
        is_configured &= is_read(site, *station, *register, back);
    }
    is_configured
}

// Whether these are the inputs after a turn.
fn are_left(bytes: &[u8], left: &Inputs) -> bool {
    let (fill, at, piece) = *left;
    let mut wanted = [fill; 1486];
    put(&mut wanted, at, piece);
    wanted.starts_with(bytes)
}

// Whether a turn with these outputs has this answer, and leaves these inputs.
fn turns(
    site: &mut Recorder,
    plan: &Plan,
    outputs: &[u8],
    answer: &Result<u16, CycleFault>,
    left: &Inputs,
) -> bool {
    let mut bytes = [0xeeu8; 1486];
    let count = plan.image.inputs();
    if !site.has_process() || outputs.len() != plan.image.outputs() || count > 1486 {
        return false;
    }
    let inputs = &mut bytes[..count];
    turn(site, plan, outputs, inputs) == *answer && are_left(inputs, left)
}

// Something that is done with a line, and what must come of it.
#[derive(Clone, Copy)]
enum Act {
    // The line is configured for its process data, or for none.
    Configure,
    Clear,
    // It is reconfigured from none to its process data, and back.
    Come,
    Go,
    // A turn with these outputs has this answer, and leaves these inputs.
    Turn(&'static [u8], Result<u16, CycleFault>, Inputs),
    // So has one without process data.
    Idle,
    // A station takes these bytes for a register.
    Write(u16, u16, &'static [u8]),
    // A register of a station is read: these are its bytes, and the working counter.
    Read(u16, u16, &'static [u8]),
    // The registers hold what they must once the two slaves are configured.
    IsConfigured,
    // A byte of outputs and six of inputs go round, and come back as this frame.
    Exchange(&'static [u8]),
    // Whether each slave takes no part in anything from now on.
    Mute(bool, bool),
    // The next frame is lost.
    Lose,
    // The plan has this number of bytes of inputs.
    Inputs(usize),
    // These frames were sent, and no others.
    Sent(&'static [&'static [u8]]),
}

// Slave 1 takes no part in a turn, and a frame is lost.
const MISSED: Result<u16, CycleFault> = Err(CycleFault::WrongCounter {
    seen: 3,
    expected: 4,
});

const LOST: Result<u16, CycleFault> = Err(CycleFault::Lost);

// A station, a register, and what is read of it once the two slaves are configured.
const CONFIGURED: &[(u16, u16, &[u8])] = &[
    (
        0x1001,
        0x0810,
        &[0x00, 0x11, 0x01, 0x00, 0x24, 0x00, 0x01, 0x00, 1, 0],
    ),
    (
        0x1001,
        0x0600,
        &[0, 0, 0, 0, 1, 0, 0, 7, 0x00, 0x11, 0, 2, 1, 0, 0, 0, 1, 0],
    ),
    (
        0x1001,
        0x0818,
        &[0x80, 0x11, 0x04, 0x00, 0x20, 0x00, 0x01, 0x00, 1, 0],
    ),
    (
        0x1001,
        0x0610,
        &[1, 0, 0, 0, 4, 0, 0, 7, 0x80, 0x11, 0, 1, 1, 0, 0, 0, 1, 0],
    ),
    (
        0x1002,
        0x0800,
        &[0x00, 0x10, 0x02, 0x00, 0x20, 0x00, 0x01, 0x00, 1, 0],
    ),
    (
        0x1002,
        0x0600,
        &[5, 0, 0, 0, 2, 0, 0, 7, 0x00, 0x10, 0, 1, 1, 0, 0, 0, 1, 0],
    ),
    (0x1002, 0x0610, NO_UNITS),
];

// Seven FMMUs that are cleared, and the counter of a station that reads them.
const NO_UNITS: &[u8] = &[
    0, 0, 0, 0, 0, 0, 0, 0, 0, 0, 0, 0, 0, 0, 0, 0, 0, 0, 0, 0, 0, 0, 0, 0, 0, 0, 0, 0, 0, 0, 0, 0,
    0, 0, 0, 0, 0, 0, 0, 0, 0, 0, 0, 0, 0, 0, 0, 0, 0, 0, 0, 0, 0, 0, 0, 0, 0, 0, 0, 0, 0, 0, 0, 0,
    0, 0, 0, 0, 0, 0, 0, 0, 0, 0, 0, 0, 0, 0, 0, 0, 0, 0, 0, 0, 0, 0, 0, 0, 0, 0, 0, 0, 0, 0, 0, 0,
    0, 0, 0, 0, 0, 0, 0, 0, 0, 0, 0, 0, 0, 0, 0, 0, 1, 0,
];

// Two slaves are configured, and exchange data.
const EXCHANGED: &[Act] = &[
    Act::Configure,
    Act::IsConfigured,
    Act::Turn(&[0xaa], Ok(4), BACK),
    Act::Read(0x1001, 0x1100, &[0xaa, 1, 0]),
    Act::Mute(false, true),
    Act::Turn(&[0xaa], MISSED, KEPT),
    Act::Lose,
    Act::Turn(&[0xaa], LOST, KEPT),
];

// They are reconfigured from none to their process data, and back.
const RECONFIGURED: &[Act] = &[
    Act::Clear,
    Act::Idle,
    Act::Come,
    Act::IsConfigured,
    Act::Go,
    Act::Read(0x1001, 0x0600, NO_UNITS),
    Act::Read(0x1002, 0x0600, NO_UNITS),
];

// The frames of a configuration and of a turn are known.
const SENT: &[Act] = &[
    Act::Inputs(6),
    Act::Configure,
    Act::Turn(&[0xaa], Ok(4), BACK),
    Act::Sent(CYCLED),
];

// FMMUs and sync managers are written by hand, and so are other inputs. Then slaves are muted, each alone, both and none.
const BY_HAND: &[Act] = &[
    Act::Write(0x1001, 0x0600, &[0; 128]),
    Act::Write(
        0x1001,
        0x0810,
        &[0x00, 0x11, 0x01, 0x00, 0x24, 0x00, 0x01, 0x00],
    ),
    Act::Write(
        0x1001,
        0x0600,
        &[0, 0, 0, 0, 1, 0, 0, 7, 0x00, 0x11, 0, 2, 1, 0, 0, 0],
    ),
    Act::Write(
        0x1001,
        0x0818,
        &[0x80, 0x11, 0x04, 0x00, 0x20, 0x00, 0x01, 0x00],
    ),
    Act::Write(
        0x1001,
        0x0610,
        &[1, 0, 0, 0, 4, 0, 0, 7, 0x80, 0x11, 0, 1, 1, 0, 0, 0],
    ),
    Act::Write(0x1002, 0x0600, &[0; 128]),
    Act::Write(
        0x1002,
        0x0800,
        &[0x00, 0x10, 0x02, 0x00, 0x20, 0x00, 0x01, 0x00],
    ),
    Act::Write(
        0x1002,
        0x0600,
        &[5, 0, 0, 0, 2, 0, 0, 7, 0x00, 0x10, 0, 1, 1, 0, 0, 0],
    ),
    Act::Write(0x1001, 0x1180, &[0x15, 0x26, 0x37, 0x48]),
    Act::Write(0x1002, 0x1000, &[0x59, 0x0a]),
    Act::Exchange(&[
        0x13, 0x10, 0x0c, 0, 0, 0, 0, 0, 0x07, 0, 0, 0, 0xaa, 0x15, 0x26, 0x37, 0x48, 0x59, 0x0a,
        4, 0,
    ]),
    Act::Mute(false, true),
    Act::Exchange(&[
        0x13, 0x10, 0x0c, 0, 0, 0, 0, 0, 0x07, 0, 0, 0, 0xaa, 0x15, 0x26, 0x37, 0x48, 0, 0, 3, 0,
    ]),
    Act::Mute(true, false),
    Act::Exchange(&[
        0x13, 0x10, 0x0c, 0, 0, 0, 0, 0, 0x07, 0, 0, 0, 0xaa, 0, 0, 0, 0, 0x59, 0x0a, 1, 0,
    ]),
    Act::Mute(true, true),
    Act::Exchange(&[
        0x13, 0x10, 0x0c, 0, 0, 0, 0, 0, 0x07, 0, 0, 0, 0xaa, 0, 0, 0, 0, 0, 0, 0, 0,
    ]),
    Act::Mute(false, false),
    Act::Exchange(&[
        0x13, 0x10, 0x0c, 0, 0, 0, 0, 0, 0x07, 0, 0, 0, 0xaa, 0x15, 0x26, 0x37, 0x48, 0x59, 0x0a,
        4, 0,
    ]),
    Act::Read(0x1001, 0x1100, &[0xaa, 1, 0]),
];

// 0x15cd is the last byte of the sync manager's area.
const LONGEST_OUTPUTS: &[Act] = &[
    Act::Configure,
    Act::Turn(&[7; 1486], Ok(2), KEPT),
    Act::Read(0x1001, 0x15cd, &[7, 1, 0]),
];

const LONGEST_INPUTS: &[Act] = &[
    Act::Configure,
    Act::Turn(&[], Ok(1), ALL_BACK),
    Act::Read(0x1001, 0x15cd, &[0, 1, 0]),
];

// Whether the line can be configured for this plan.
fn is_configured_for(site: &mut Recorder, plan: &Plan) -> bool {
    site.has_process() && configure(site, plan).is_ok()
}

fn is_reconfigured(site: &mut Recorder, old: &Plan, new: &Plan) -> bool {
    site.has_process() && reconfigure(site, old, new).is_ok()
}

// The output of an exchange, and what stands in place of its inputs.
const OUT: &[u8] = &[0xaa, 0, 0, 0, 0, 0, 0];

fn mute(site: &mut MemSite, first: bool, second: bool) -> bool {
    site.mute(0, first);
    site.mute(1, second);
    true
}

// Whether an act with the plans has come to what it must.
fn plan_comes(site: &mut Recorder, plans: &Plans, act: &Act) -> bool {
    match act {
        Act::Configure => is_configured_for(site, &plans.data),
        Act::Clear => is_configured_for(site, &plans.none),
        Act::Come => is_reconfigured(site, &plans.none, &plans.data),
        Act::Go => is_reconfigured(site, &plans.data, &plans.none),
        Act::Turn(outputs, answer, left) => turns(site, &plans.data, outputs, answer, left),
        Act::Idle => turns(site, &plans.none, &[], &Ok(0), &KEPT),
        Act::Inputs(count) => plans.data.image.inputs() == *count,
        _ => false,
    }
}

// Whether the act has come to what it must.
fn comes(site: &mut Recorder, plans: &Plans, act: &Act) -> bool {
    match act {
        Act::Write(station, register, content) => {
            is_cycled(
                site,
                Command::Fpwr,
                fp(*station, *register),
                content,
                &[1, 0],
            )
        }
        Act::Read(station, register, back) => is_read(site, *station, *register, back),
        Act::IsConfigured => is_configured(site),
        Act::Exchange(back) => is_cycled(site, Command::Lrw, 0, OUT, back),
        Act::Mute(first, second) => mute(&mut site.site, *first, *second),
        Act::Lose => {
            site.site.fail_once(0);
            true
        }
        Act::Sent(frames) => site.has_sent(frames),
        _ => plan_comes(site, plans, act),
    }
}

fn all_come(site: &mut Recorder, plans: &Plans, acts: &[Act]) -> bool {
    for act in acts {
        if !comes(site, plans, act) {
            return false;
        }
    }
    true
}

// Whether all acts come to what they must on a line of these slaves.
fn goes_so(alloc: Global, slaves: &[Standing], plans: &Plans, acts: &[Act]) -> bool {
    let Some(site) = line_of(alloc, slaves) else {
        return false;
    };
    let mut recorder = Recorder::of(alloc, site, 0, 0);
    let come = all_come(&mut recorder, plans, acts);
    recorder.end();
    come
}

// Whether all acts come to what they must on the line of two slaves.
fn two_go_so(alloc: Global, acts: &[Act]) -> bool {
    match plans_of(alloc, TWO) {
        Some(plans) => goes_so(alloc, STANDING, &plans, acts),
        None => false,
    }
}

#[test]
fn two_slaves_exchange_data(rt: HostRuntime) {
    assert!(rt; two_go_so(rt.alloc(), EXCHANGED) && two_go_so(rt.alloc(), RECONFIGURED));
}

#[test]
fn data_are_exchanged_by_these_frames(rt: HostRuntime) {
    assert!(rt; two_go_so(rt.alloc(), SENT));
}

#[test]
fn two_slaves_are_configured_by_hand(rt: HostRuntime) {
    assert!(rt; two_go_so(rt.alloc(), BY_HAND));
}

// Categories of a slave with one sync manager: 46 entries of 255 bits and one of this many, of which 158 make 1,486 bytes.
fn longest(direction: u8, kind: u8, last: u8) -> [u8; 402] {
    let mut bytes = [0u8; 402];
    bytes[..12].copy_from_slice(&[
        41, 0, 4, 0, 0x00, 0x10, 0xce, 0x05, 0x24, 0x00, 0x01, direction,
    ]);
    bytes[12..24].copy_from_slice(&[kind, 0, 192, 0, 0x00, 0x16, 47, 0, 0, 0, 0, 0]);
    for entry in 0..47usize {
        bytes[24 + 8 * entry + 5] = if entry < 46 { 255 } else { last };
    }
    bytes[400] = 0xff;
    bytes[401] = 0xff;
    bytes
}

// Whether all acts come to what they must on a line of one slave of 512 words.
fn goes_alone(alloc: Global, categories: &[u8], acts: &[Act]) -> bool {
    let slave = Device {
        front: NAMED,
        categories,
        size: 1024,
    };
    match plans_of(alloc, &[slave]) {
        Some(plans) => goes_so(alloc, &STANDING[..1], &plans, acts),
        None => false,
    }
}

#[test]
fn the_longest_data_are_exchanged(rt: HostRuntime) {
    assert!(rt;
        goes_alone(rt.alloc(), &longest(3, 51, 158), LONGEST_OUTPUTS)
            && goes_alone(rt.alloc(), &longest(4, 50, 158), LONGEST_INPUTS)
    );
}
