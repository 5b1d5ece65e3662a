//! A run of three commands on a line on a wire in memory, on one thread or by threads, on which frames have mishaps or the slaves lose their
//! power.

ghost use Rattle.std.specs.Prelude.{IfSome};
ghost use Rattle.site_shadow.specs.Parts.{AreComplete};

use crate::wire_threads::reported_on;
use crate::wires::{
    Bench, NO_TROUBLE, OpenJournal, TestWire, Trouble, bench_of, journal_on, parts_on, plan,
    slaves_of,
};
use runner_cases::line::{Line, THREE};
use runner_cases::runs::{SERVED, UNOPENED, Way, ended_on, is_found, kept_by};
use runner_cases::sites::{PATTERNS, recovered};
use site_mem::{Parts, Pattern};
use site_shadow::ShadowSite;
use site_wire::{LiveLine, LockedLine, StopReason, WireDevice, WireSite};
use std::alloc::Global;
use std::sync::Wait;
use std::thread::Threads;
use wire_frames::NumberedWire;
use wire_practice::{Fate, Mishap, PracticeClock, PracticeWire};

/// Why a site may stop.
#[derive(Clone, Copy)]
enum Why {
    Never,
    Silent,
    Differs,
    /// A slave answers otherwise than it can, or that a word failed.
    DiffersOrFailed,
}

/// What is done with a line.
#[derive(Clone, Copy)]
enum Act {
    Recover,
    /// The three commands are run on one thread.
    Run(Way),
    /// They are run by threads.
    RunByThreads,
}

/// What is done with a line once it is brought up, and what goes wrong then.
#[derive(Clone, Copy)]
struct Step {
    act: Act,
    trouble: Trouble,
}

/// What a step has left.
#[derive(Clone, Copy)]
struct Left {
    /// Whether the line was recovered, or all commands were served. By threads: without a stop.
    is_done: bool,
    /// How many commands are durable. None: no station was opened for a run.
    durable: Option<u64>,
    /// Why the site has stopped, if it has.
    reason: Option<StopReason>,
    /// How many frames were sent, once the line was brought up.
    frames: u64,
    /// How many frames were sent to a slave that was busy, and how many words the slaves have begun to write, since they were switched on.
    disturbing: u32,
    begun: u32,
}

/// What comes of a step and the recovery after it.
#[derive(Clone, Copy)]
struct Came {
    left: Left,
    /// Whether the recovery was done without a stop, nothing is live in the journal's file, and the slaves have aliases that the step may leave.
    is_mended: bool,
}

/// A line on a wire, and its journal.
type Wired<'f> = WireSite<'f, PracticeWire<'f>, OpenJournal<'f>, PracticeClock>;

const RECOVERY: Step = Step {
    act: Act::Recover,
    trouble: NO_TROUBLE,
};

/// Frames that are lost, late or there twice: what they meet, how many in a row, and why a site may stop then.
const ASTRAY: &[(Fate, u32, Why)] = &[
    (Fate::LostBefore, 2, Why::Never),
    (Fate::LostBefore, 3, Why::Silent),
    (Fate::LostAfter, 1, Why::Never),
    (Fate::LostAfter, 3, Why::Silent),
    (Fate::Doubled, 9, Why::Never),
    (Fate::SentTwice, 9, Why::Never),
    (Fate::Delayed, 1, Why::Never),
];

/// The same of frames in which bits are turned. What isn't compared never stops a site.
const TURNED: &[(Fate, u32, Why)] = &[
    // The length of the frame, which is sent again then, and the IRQ word, which is not compared.
    (Fate::Turned(0, 1), 1, Why::Never),
    (Fate::Turned(10, 1), 1, Why::Never),
    // Command, index, station and register.
    (Fate::Turned(2, 1), 1, Why::Differs),
    (Fate::Turned(3, 1), 1, Why::Differs),
    (Fate::Turned(4, 1), 1, Why::Differs),
    (Fate::Turned(6, 1), 1, Why::Differs),
    // Bit 13 of control and status, and what is written or read there.
    (Fate::Turned(13, 0x20), 1, Why::DiffersOrFailed),
];

/// How many of the last frames of a run have a mishap: those by threads, once the line was opened, are among them.
const LAST: u32 = 120;

/// Whether a site may stop for this reason.
fn may_stop(why: Why, reason: StopReason) -> bool {
    matches!(
        (why, reason),
        (Why::Silent, StopReason::Silent)
            | (
                Why::Differs | Why::DiffersOrFailed,
                StopReason::Differs { .. }
            )
            | (Why::DiffersOrFailed, StopReason::WordFailed { .. })
    )
}

/// Brings up the line on this wire without trouble, which has this one from then on. Gives its parts. None if it isn't brought up, or memory was
/// refused.
fn parts_with(
    alloc: Global,
    bench: &Bench,
    wire: &mut TestWire<'_>,
    trouble: &Trouble,
) -> Option<Parts>
    ensures { IfSome result (λ parts. AreComplete parts) }
{
    plan(wire, &NO_TROUBLE);
    let parts = parts_on(alloc, bench, wire)?;
    plan(wire, trouble);
    Some(parts)
}

/// What a step has left on this wire, which had sent so many frames before.
fn left_on(
    wire: &mut TestWire<'_>,
    before: u64,
    is_done: bool,
    durable: Option<u64>,
    reason: Option<StopReason>,
) -> Left {
    Left {
        is_done,
        durable,
        reason,
        frames: wire.sent().saturating_sub(before),
        disturbing: wire.wire().disturbing(),
        begun: wire.wire().line().begun(),
    }
}

/// What a recovery or a run on one thread has left of a site.
fn acted<'f>(alloc: Global, site: Wired<'f>, act: Act) -> (TestWire<'f>, Left) {
    let (before, _again) = site.device().frames();
    let (site, is_done, durable) = match act {
        Act::Run(way) => {
            let (site, end) = ended_on(alloc, site, way);
            let durable = if end == UNOPENED {
                None
            } else {
                Some(end.status[1])
            };
            (site, end == SERVED, durable)
        }
        _ => {
            let (site, came) = recovered(alloc, site);
            (site, came.is_ok(), None)
        }
    };
    let (parts, device) = site.into_parts();
    drop(parts);
    let reason = device.reason();
    let mut wire = device.into_wire();
    let left = left_on(&mut wire, before, is_done, durable, reason);
    (wire, left)
}

/// What a step by threads has left. None if the line isn't brought up, memory was refused, or a station that was opened reported no totals.
fn ran_by_threads<'f, R: Wait + Threads + Sync>(
    rt: &R,
    alloc: Global,
    bench: &'f Bench,
    mut wire: TestWire<'f>,
    trouble: &Trouble,
) -> Option<(TestWire<'f>, Left)> {
    let parts = parts_with(alloc, bench, &mut wire, trouble)?;
    let before = wire.sent();
    let locked = LockedLine::new(LiveLine::new(wire));
    let reported = reported_on(rt, alloc, bench, &locked, parts)?;
    let reason = locked.reason(rt);
    let mut wire = locked.into_line().into_wire();
    let is_done = reported.is_all && reason.is_none();
    let left = left_on(&mut wire, before, is_done, reported.durable, reason);
    Some((wire, left))
}

/// What a step on one thread has left. None if the line isn't brought up, or memory was refused.
fn ran_alone<'f>(
    alloc: Global,
    bench: &'f Bench,
    mut wire: TestWire<'f>,
    step: &Step,
) -> Option<(TestWire<'f>, Left)> {
    let parts = parts_with(alloc, bench, &mut wire, &step.trouble)?;
    let device = WireDevice::new(wire, &bench.clock, journal_on(alloc, bench));
    let site = ShadowSite::of_parts(alloc, parts, device);
    Some(acted(alloc, site, step.act))
}

/// What a step has left. None if the line isn't brought up, or memory was refused.
fn left_by<'f, R: Wait + Threads + Sync>(
    rt: &R,
    alloc: Global,
    bench: &'f Bench,
    wire: TestWire<'f>,
    step: &Step,
) -> Option<(TestWire<'f>, Left)> {
    match step.act {
        Act::RunByThreads => ran_by_threads(rt, alloc, bench, wire, &step.trouble),
        _ => ran_alone(alloc, bench, wire, step),
    }
}

/// Whether a recovery without trouble completes, and then the slaves have aliases of one of these rows, and nothing is live in the journal's
/// file.
fn is_mended<'f>(alloc: Global, bench: &'f Bench, wire: TestWire<'f>, kept: &[[u16; 3]]) -> bool {
    let Some((mut wire, left)) = ran_alone(alloc, bench, wire, &RECOVERY) else {
        return false;
    };
    match parts_on(alloc, bench, &mut wire) {
        Some(parts) => left.is_done && left.reason.is_none() && is_found(&parts, kept),
        None => false,
    }
}

/// What comes of this step on a line that was just switched on. None if it isn't brought up, or memory was refused.
fn came_of<R: Wait + Threads + Sync>(rt: &R, alloc: Global, step: &Step) -> Option<Came> {
    let bench = bench_of(alloc, &THREE)?;
    let slaves = slaves_of(alloc, &THREE)?;
    let wire = NumberedWire::new(PracticeWire::new(slaves, &bench.clock), 7);
    let (wire, left) = left_by(rt, alloc, &bench, wire, step)?;
    let way = match step.act {
        Act::Run(way) => way,
        _ => Way::OneByOne,
    };
    let kept = kept_by(way, left.durable.unwrap_or(0));
    let is_mended = is_mended(alloc, &bench, wire, kept);
    Some(Came { left, is_mended })
}

/// Whether a site stops in a run with this trouble. None if it stops for a reason for which it may not, or isn't served otherwise, or sends a
/// command to a busy slave, or a recovery doesn't find the slaves as a prefix of the commands leaves them, with each acknowledged one in it.
fn is_stopped<R: Wait + Threads + Sync>(
    rt: &R,
    alloc: Global,
    act: Act,
    trouble: Trouble,
    why: Why,
) -> Option<bool> {
    let came = came_of(rt, alloc, &Step { act, trouble })?;
    let run = came.left;
    match run.reason {
        _ if run.disturbing > 0 || !came.is_mended => None,
        None if run.is_done => Some(false),
        Some(reason) if !run.is_done && may_stop(why, reason) => Some(true),
        _ => None,
    }
}

/// How many frames a run without trouble sends.
fn frames_of<R: Wait + Threads + Sync>(rt: &R, alloc: Global, way: Way) -> Option<u32> {
    let run = Step {
        act: Act::Run(way),
        trouble: NO_TROUBLE,
    };
    let run = came_of(rt, alloc, &run)?.left;
    if run.is_done {
        u32::try_from(run.frames).ok()
    } else {
        None
    }
}

/// How many sites stop, as frames of a run have this mishap. It comes once after each number of frames, or where the run is by threads
/// after every second number of the last ones. None where one ends as it may not.
fn stops<R: Wait + Threads + Sync>(
    rt: &R,
    alloc: Global,
    act: Act,
    mishap: &(Fate, u32, Why),
) -> Option<u32> {
    let (fate, failing, why) = *mishap;
    let (first, step, turns) = match act {
        Act::Run(way) => (0, 1, frames_of(rt, alloc, way)?.min(2000)),
        _ => (
            frames_of(rt, alloc, Way::Queued)?.saturating_sub(LAST),
            2,
            LAST / 2,
        ),
    };
    let mut stops = 0u32;
    for turn in 0..turns {
        let mishap = Mishap {
            passing: first.saturating_add(turn.saturating_mul(step)),
            failing,
            fate,
        };
        let trouble = Trouble { mishap, cut: None };
        if is_stopped(rt, alloc, act, trouble, why)? {
            stops = stops.saturating_add(1);
        }
    }
    Some(stops)
}

/// Whether a run with this mishap stops somewhere if it may, and nowhere if not.
fn stops_as_said<R: Wait + Threads + Sync>(
    rt: &R,
    alloc: Global,
    act: Act,
    mishap: &(Fate, u32, Why),
) -> bool {
    match stops(rt, alloc, act, mishap) {
        Some(stops) => (stops == 0) == matches!(mishap.2, Why::Never),
        None => false,
    }
}

#[test]
fn frames_astray_in_a_run_end_well_or_stop(rt: HostRuntime) {
    for mishap in ASTRAY {
        assert!(rt; stops_as_said(&rt, rt.alloc(), Act::Run(Way::OneByOne), mishap));
    }
}

#[test]
fn frames_turned_in_a_run_end_well_or_stop(rt: HostRuntime) {
    for mishap in TURNED {
        assert!(rt; stops_as_said(&rt, rt.alloc(), Act::Run(Way::OneByOne), mishap));
    }
}

#[test]
fn frames_astray_in_a_run_by_threads_end_well_or_stop(rt: HostRuntime) {
    for mishap in ASTRAY {
        assert!(rt; stops_as_said(&rt, rt.alloc(), Act::RunByThreads, mishap));
    }
}

#[test]
fn frames_turned_in_a_run_by_threads_end_well_or_stop(rt: HostRuntime) {
    for mishap in TURNED {
        assert!(rt; stops_as_said(&rt, rt.alloc(), Act::RunByThreads, mishap));
    }
}

/// A power cut of the slaves in the midst of the word after so many.
fn cut(words: u32, left: Pattern) -> Trouble {
    Trouble {
        cut: Some((words, left)),
        ..NO_TROUBLE
    }
}

/// Whether the recovery of a run that was cut in this word is cut in that one. None if it fails otherwise, or a second one doesn't complete it.
fn is_cut_again(alloc: Global, way: Way, first: &Trouble, second: &Trouble) -> Option<bool> {
    let bench = bench_of(alloc, &THREE)?;
    let slaves = slaves_of(alloc, &THREE)?;
    let wire = NumberedWire::new(PracticeWire::new(slaves, &bench.clock), 7);
    let run = Step {
        act: Act::Run(way),
        trouble: *first,
    };
    let (wire, run) = ran_alone(alloc, &bench, wire, &run)?;
    let recovery = Step {
        act: Act::Recover,
        trouble: *second,
    };
    let (wire, recovery) = ran_alone(alloc, &bench, wire, &recovery)?;
    let is_mended = is_mended(alloc, &bench, wire, kept_by(way, run.durable.unwrap_or(0)));
    match recovery.reason {
        _ if !is_mended => None,
        None if recovery.is_done => Some(false),
        Some(reason) if !recovery.is_done && may_stop(Why::Differs, reason) => Some(true),
        _ => None,
    }
}

/// How many words the recovery of a run that was cut so writes. Cut in any of them, a second one completes it; None if not.
fn words_mended(alloc: Global, way: Way, first: &Trouble, left: Pattern) -> Option<u32> {
    for words in 0..100 {
        if !is_cut_again(alloc, way, first, &cut(words, left))? {
            return Some(words);
        }
    }
    None
}

/// How many words a run writes. Cut in any of them, a recovery completes it, even if that is cut too; None if not.
fn words_survived<R: Wait + Threads + Sync>(
    rt: &R,
    alloc: Global,
    way: Way,
    left: Pattern,
) -> Option<u32> {
    for words in 0..100 {
        let trouble = cut(words, left);
        if !is_stopped(rt, alloc, Act::Run(way), trouble, Why::Differs)? {
            return Some(words);
        }
        words_mended(alloc, way, &trouble, left)?;
    }
    None
}

/// In how many words of a run by threads the slaves' power can be cut, which leaves this. None where a run ends as it may not.
fn words_cut<R: Wait + Threads + Sync>(rt: &R, alloc: Global, left: Pattern) -> Option<u32> {
    let mut stops = 0u32;
    for words in 0..12 {
        if is_stopped(rt, alloc, Act::RunByThreads, cut(words, left), Why::Differs)? {
            stops = stops.saturating_add(1);
        }
    }
    Some(stops)
}

#[test]
fn a_power_cut_of_slaves_in_each_word(rt: HostRuntime) {
    for left in &PATTERNS {
        assert!(rt; words_survived(&rt, rt.alloc(), Way::OneByOne, *left) == Some(10));
        assert!(rt; words_survived(&rt, rt.alloc(), Way::Queued, *left) == Some(6));
    }
}

#[test]
fn a_power_cut_of_slaves_in_each_word_by_threads(rt: HostRuntime) {
    for left in &PATTERNS {
        // Six words where all commands wait for one batch, ten where each has its own.
        assert!(rt; matches!(words_cut(&rt, rt.alloc(), *left), Some(6..=10)));
    }
}

/// Lines of three slaves whose journal is refused: it is none, of a version that isn't known, or of another number of slaves.
const REFUSED: &[Line] = &[
    Line {
        header: [0x00, 0x02, 0x03, 0x00, 0x00, 0x10, 0x00, 0x00],
        ..THREE
    },
    Line {
        header: [0xa5, 0x03, 0x03, 0x00, 0x00, 0x10, 0x00, 0x00],
        ..THREE
    },
    Line {
        header: [0xa5, 0x02, 0x02, 0x00, 0x00, 0x10, 0x00, 0x00],
        ..THREE
    },
];

/// How many words the slaves of a line have begun to write once it was neither recovered nor opened. None: it was.
fn words_of_a_refused(alloc: Global, line: &Line) -> Option<u32> {
    let bench = bench_of(alloc, line)?;
    let slaves = slaves_of(alloc, line)?;
    let wire = NumberedWire::new(PracticeWire::new(slaves, &bench.clock), 7);
    let (wire, recovery) = ran_alone(alloc, &bench, wire, &RECOVERY)?;
    let run = Step {
        act: Act::Run(Way::Queued),
        trouble: NO_TROUBLE,
    };
    let (wire, run) = ran_alone(alloc, &bench, wire, &run)?;
    drop(wire);
    let is_opened = recovery.is_done || run.durable.is_some();
    if is_opened || recovery.reason.is_some() || run.reason.is_some() {
        None
    } else {
        Some(run.begun)
    }
}

#[test]
fn a_journal_that_is_refused_writes_no_word(rt: HostRuntime) {
    for line in REFUSED {
        assert!(rt; words_of_a_refused(rt.alloc(), line) == Some(0));
    }
}
