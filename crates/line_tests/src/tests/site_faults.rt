//! What is done with a line in memory and its disk, and what faults and power cuts leave of them.

use super::access::{self, Access, TAKEN, WRITTEN};
use super::{ISSUE, line_with};
use ecat_frame::{Command, Frame, fp};
use esc_model::RomHalf;
use esc_rom::RomFault;
use site_core::{DeviceFault, Issued, Settled, Site};
use site_mem::{MemSite, Parts, Pattern};
use std::alloc::Global;

// Something that is done with a line, and what must come of it.
#[derive(Clone, Copy)]
enum Deed {
    // This number of calls succeed, and the next fails.
    FailOnce(u64),
    // This number of words that slave 0 is given end with an error.
    FailWords(u32),
    Access(Access),
    Disk(DiskDeed),
    // A frame issues a 1 for word 4 of slave 0, or polls it, with this answer.
    Send(Result<(), DeviceFault>),
    Poll(Result<(), DeviceFault>),
    // There is one slave, of 64 words.
    IsAlone,
}

#[derive(Clone, Copy)]
enum DiskDeed {
    // Bytes are written at byte 0.
    Write(&'static [u8], Result<(), DeviceFault>),
    // Bytes are written from a place on.
    WriteAt(usize, &'static [u8]),
    Sync(Result<(), DeviceFault>),
    Length(Result<usize, DeviceFault>),
    // Of five bytes these are the last three.
    Read([u8; 3]),
}

const STOPPED: Result<(), DeviceFault> = Err(DeviceFault::Stopped);

// A line and what is done with it.
#[derive(Clone, Copy)]
struct Case {
    // The station addresses of its slaves, of 64 words each.
    stations: &'static [u16],
    // For how many datagrams a command keeps a slave busy.
    delay: u32,
    // How many device writes succeed before the power is cut in one, and the pattern that this leaves.
    fuse: Option<(u64, Pattern)>,
    deeds: &'static [Deed],
    // Whether a snapshot is taken in place of the parts.
    is_snapshot: bool,
    // The disk after them, and of each slave word 4 and whether it is in flight.
    disk: &'static [u8],
    words: &'static [(u16, bool)],
}

// A line of one slave, and a disk of the bytes 1, 2, 3 and 4.
const ONE: Case = Case {
    stations: &[0x1001],
    delay: 0,
    fuse: None,
    deeds: &[],
    is_snapshot: false,
    disk: &[1, 2, 3, 4],
    words: &[(0, false)],
};

// Words that are written, and that aren't.
const WORDS: &[Case] = &[
    Case {
        delay: 1,
        deeds: &[
            Deed::Access(TAKEN),
            Deed::Access(WRITTEN),
            Deed::Access(Access::Open(0, Ok(()))),
            Deed::Access(Access::Read(Ok(1))),
        ],
        words: &[(1, false)],
        ..ONE
    },
    // A word whose write ends with an error is issued again.
    Case {
        delay: 1,
        deeds: &[
            Deed::FailWords(1),
            Deed::Access(TAKEN),
            Deed::Access(Access::Settle(0, true, Ok(Settled::Again))),
            Deed::Access(TAKEN),
            Deed::Access(WRITTEN),
            Deed::Access(Access::Open(0, Ok(()))),
            Deed::Access(Access::Read(Ok(1))),
        ],
        words: &[(1, false)],
        ..ONE
    },
    // So is one whose frame is lost.
    Case {
        delay: 1,
        deeds: &[
            Deed::FailOnce(0),
            Deed::Access(Access::Issue(0, Ok(Issued::Lost))),
            Deed::Access(Access::Settle(0, false, Ok(Settled::Again))),
            Deed::Access(TAKEN),
            Deed::Access(WRITTEN),
            Deed::Access(Access::Open(0, Ok(()))),
            Deed::Access(Access::Read(Ok(1))),
        ],
        words: &[(1, false)],
        ..ONE
    },
    // A lost poll only counts as a poll.
    Case {
        delay: 1,
        deeds: &[
            Deed::FailOnce(1),
            Deed::Access(TAKEN),
            Deed::Access(WRITTEN),
            Deed::Access(Access::Open(0, Ok(()))),
            Deed::Access(Access::Read(Ok(1))),
        ],
        words: &[(1, false)],
        ..ONE
    },
    // Polls have an end.
    Case {
        delay: 9_999,
        deeds: &[Deed::Access(TAKEN), Deed::Access(WRITTEN)],
        words: &[(1, false)],
        ..ONE
    },
    Case {
        delay: 10_000,
        deeds: &[
            Deed::Access(TAKEN),
            Deed::Access(Access::Settle(0, true, Ok(Settled::Dead))),
        ],
        words: &[(0, true)],
        ..ONE
    },
    // A slave at another station is given up.
    Case {
        stations: &[0x1002],
        delay: 1,
        deeds: &[
            Deed::Access(Access::Open(0, Err(RomFault::SlaveDead { slave: 0 }))),
            Deed::Access(Access::Issue(0, Ok(Issued::NotTaken))),
        ],
        ..ONE
    },
    // A word that fails keeps its value.
    Case {
        deeds: &[Deed::FailWords(1), Deed::Send(Ok(())), Deed::Poll(Ok(()))],
        ..ONE
    },
    Case {
        deeds: &[
            Deed::FailWords(1),
            Deed::Send(Ok(())),
            Deed::Poll(Ok(())),
            Deed::Send(Ok(())),
            Deed::Poll(Ok(())),
        ],
        words: &[(1, false)],
        ..ONE
    },
    // Calls that fail change nothing.
    Case {
        deeds: &[
            Deed::FailOnce(1),
            Deed::Disk(DiskDeed::Length(Ok(4))),
            Deed::Disk(DiskDeed::Write(&[9], Err(DeviceFault::Disk))),
            Deed::FailOnce(0),
            Deed::Send(Err(DeviceFault::Lost)),
            Deed::Disk(DiskDeed::Sync(Ok(()))),
        ],
        ..ONE
    },
    // What was written is read.
    Case {
        deeds: &[
            Deed::IsAlone,
            Deed::Disk(DiskDeed::WriteAt(3, &[7, 9])),
            Deed::Disk(DiskDeed::Length(Ok(5))),
            Deed::Disk(DiskDeed::Read([3, 7, 9])),
        ],
        disk: &[1, 2, 3, 7, 9],
        ..ONE
    },
];

// A 7 is written at byte 0 and synced; then 8 and 8 are. The power is cut in this write, or in the sync after it.
const CUT_IN_A_WRITE: Case = Case {
    deeds: &[
        Deed::Disk(DiskDeed::Write(&[7], Ok(()))),
        Deed::Disk(DiskDeed::Sync(Ok(()))),
        Deed::Disk(DiskDeed::Write(&[8, 8], STOPPED)),
        Deed::Disk(DiskDeed::Sync(STOPPED)),
        Deed::Disk(DiskDeed::Length(Err(DeviceFault::Stopped))),
    ],
    ..ONE
};

const CUT_IN_A_SYNC: Case = Case {
    deeds: &[
        Deed::Disk(DiskDeed::Write(&[7], Ok(()))),
        Deed::Disk(DiskDeed::Sync(Ok(()))),
        Deed::Disk(DiskDeed::Write(&[8, 8], Ok(()))),
        Deed::Disk(DiskDeed::Sync(STOPPED)),
        Deed::Disk(DiskDeed::Length(Err(DeviceFault::Stopped))),
    ],
    ..ONE
};

// The power is cut in word 4 while a 9 at byte 0 is unsynced.
const CUT_IN_A_WORD: Case = Case {
    deeds: &[
        Deed::Disk(DiskDeed::Write(&[9], Ok(()))),
        Deed::Send(STOPPED),
    ],
    ..ONE
};

// The power is cut in the word of the second slave, while that of the first is in flight.
const CUT_IN_THE_SECOND: Case = Case {
    stations: &[0x1001, 0x1002],
    delay: 9,
    deeds: &[
        Deed::Access(TAKEN),
        Deed::Access(Access::Issue(1, Err(DeviceFault::Stopped))),
        Deed::Access(Access::Settle(0, true, Err(DeviceFault::Stopped))),
        Deed::Access(Access::Open(1, Err(RomFault::Stopped))),
    ],
    ..ONE
};

const CUTS: &[Case] = &[
    Case {
        fuse: Some((2, Pattern::Old)),
        disk: &[7, 2, 3, 4],
        ..CUT_IN_A_WRITE
    },
    Case {
        fuse: Some((2, Pattern::New)),
        disk: &[8, 8, 3, 4],
        ..CUT_IN_A_WRITE
    },
    Case {
        fuse: Some((2, Pattern::Fill(0x12a5))),
        disk: &[0xa5, 0xa5, 3, 4],
        ..CUT_IN_A_WRITE
    },
    Case {
        fuse: Some((3, Pattern::Old)),
        disk: &[7, 2, 3, 4],
        ..CUT_IN_A_SYNC
    },
    Case {
        fuse: Some((3, Pattern::New)),
        disk: &[8, 8, 3, 4],
        ..CUT_IN_A_SYNC
    },
    Case {
        fuse: Some((3, Pattern::Fill(0x12a5))),
        disk: &[0xa5, 0xa5, 3, 4],
        ..CUT_IN_A_SYNC
    },
    Case {
        fuse: Some((1, Pattern::Old)),
        ..CUT_IN_A_WORD
    },
    Case {
        fuse: Some((1, Pattern::New)),
        disk: &[9, 2, 3, 4],
        words: &[(1, false)],
        ..CUT_IN_A_WORD
    },
    Case {
        fuse: Some((1, Pattern::Fill(0xdead))),
        disk: &[0xad, 2, 3, 4],
        words: &[(0xdead, false)],
        ..CUT_IN_A_WORD
    },
    Case {
        fuse: Some((1, Pattern::Old)),
        words: &[(0, true), (0, false)],
        ..CUT_IN_THE_SECOND
    },
    Case {
        fuse: Some((1, Pattern::New)),
        words: &[(0, true), (1, false)],
        ..CUT_IN_THE_SECOND
    },
    Case {
        fuse: Some((1, Pattern::Fill(0xdead))),
        words: &[(0, true), (0xdead, false)],
        ..CUT_IN_THE_SECOND
    },
];

// Bytes 1 and 2 are written, or a byte after the end is, and a word is issued. Nothing is synced.
const INSIDE: Case = Case {
    deeds: &[
        Deed::Disk(DiskDeed::WriteAt(1, &[8, 9])),
        Deed::Send(Ok(())),
    ],
    is_snapshot: true,
    words: &[(0, true)],
    ..ONE
};

const AFTER: Case = Case {
    deeds: &[Deed::Disk(DiskDeed::WriteAt(4, &[5])), Deed::Send(Ok(()))],
    is_snapshot: true,
    words: &[(0, true)],
    ..ONE
};

// A snapshot is what a power cut leaves, by the pattern of the fuse, or `Old` without one.
const SNAPSHOTS: &[Case] = &[
    INSIDE,
    AFTER,
    Case {
        fuse: Some((9, Pattern::Old)),
        ..INSIDE
    },
    Case {
        fuse: Some((9, Pattern::Old)),
        ..AFTER
    },
    Case {
        fuse: Some((9, Pattern::New)),
        disk: &[1, 8, 9, 4],
        ..INSIDE
    },
    Case {
        fuse: Some((9, Pattern::New)),
        disk: &[1, 2, 3, 4, 5],
        ..AFTER
    },
    Case {
        fuse: Some((9, Pattern::Fill(0x12a5))),
        disk: &[1, 0xa5, 0xa5, 4],
        ..INSIDE
    },
    Case {
        fuse: Some((9, Pattern::Fill(0x12a5))),
        disk: &[1, 2, 3, 4, 0xa5],
        ..AFTER
    },
];

// Whether a datagram for the control register of slave 0 has this answer.
fn is_answered(
    site: &mut impl Site,
    command: Command,
    content: &[u8],
    answer: &Result<(), DeviceFault>,
) -> bool {
    let mut frame = Frame::new();
    frame.push(command, 0, fp(0x1001, 0x0502), content).is_ok()
        && site.owns(0)
        && site.exchange(0, &mut frame) == *answer
}

// Whether bytes can be written from byte `at` on.
fn is_written(site: &mut impl Site, at: usize, bytes: &[u8]) -> bool {
    if !site.has_disk() {
        return false;
    }
    match site.disk_len() {
        Ok(length) => at <= length && site.disk_write(at, bytes).is_ok(),
        Err(_fault) => false,
    }
}

// Whether the last three bytes of five are these.
fn are_last(site: &mut impl Site, wanted: &[u8; 3]) -> bool {
    let mut bytes = [0u8; 3];
    site.has_disk()
        && site.disk_len() == Ok(5)
        && site.disk_read(2, &mut bytes).is_ok()
        && bytes == *wanted
}

fn disk_comes(site: &mut impl Site, deed: &DiskDeed) -> bool {
    if !site.has_disk() {
        return false;
    }
    match deed {
        DiskDeed::Write(bytes, answer) => site.disk_write(0, bytes) == *answer,
        DiskDeed::WriteAt(at, bytes) => is_written(site, *at, bytes),
        DiskDeed::Sync(answer) => site.disk_sync() == *answer,
        DiskDeed::Length(answer) => site.disk_len() == *answer,
        DiskDeed::Read(bytes) => are_last(site, bytes),
    }
}

fn is_alone(site: &impl Site) -> bool {
    site.slaves() == 1 && site.words_of(0) == 64
}

// Whether the deed has come to what it must.
fn comes(alloc: Global, site: &mut MemSite, deed: &Deed) -> bool {
    match deed {
        Deed::FailOnce(calls) => {
            site.fail_once(*calls);
            true
        }
        Deed::FailWords(words) => {
            site.fail_writes(0, *words);
            true
        }
        Deed::Access(access) => access::comes(alloc, site, access),
        Deed::Disk(disk) => disk_comes(site, disk),
        Deed::Send(answer) => is_answered(site, Command::Fpwr, &ISSUE[12..20], answer),
        Deed::Poll(answer) => is_answered(site, Command::Fprd, &[0, 0], answer),
        Deed::IsAlone => is_alone(site),
    }
}

fn all_come(alloc: Global, site: &mut MemSite, deeds: &[Deed]) -> bool {
    for deed in deeds {
        if !comes(alloc, site, deed) {
            return false;
        }
    }
    true
}

// Whether the half has this word 4, and a word in flight if it must.
fn is_word(half: &Option<RomHalf>, word: &(u16, bool)) -> bool {
    match half {
        Some(half) => half.words().alias() == word.0 && half.in_flight().is_some() == word.1,
        None => false,
    }
}

fn are_words(halves: &[Option<RomHalf>], words: &[(u16, bool)]) -> bool {
    if halves.len() != words.len() {
        return false;
    }
    for slave in 0..words.len() {
        if !is_word(&halves[slave], &words[slave]) {
            return false;
        }
    }
    true
}

// Whether the disk and the slaves hold these bytes and words.
fn hold(parts: &Parts, case: &Case) -> bool {
    match &parts.disk {
        Some(disk) => disk.as_slice() == case.disk && are_words(&parts.halves, case.words),
        None => false,
    }
}

// Whether a snapshot of the site holds what it must.
fn snapshot_holds(alloc: Global, site: &MemSite, case: &Case) -> bool {
    match site.snapshot(alloc) {
        Ok(parts) => hold(&parts, case),
        Err(_refused) => false,
    }
}

// The line of the case, with its fuse.
fn line_of(alloc: Global, case: &Case) -> Option<MemSite> {
    let disk = [1, 2, 3, 4].to_vec(alloc).ok()?;
    let mut site = line_with(alloc, case.stations, case.delay, Some(disk))?;
    if let Some((writes, pattern)) = case.fuse {
        site.fuse(writes, pattern);
    }
    Some(site)
}

// Whether all deeds come to what they must, and leave what they must.
fn goes_so(alloc: Global, case: &Case) -> bool {
    let Some(mut site) = line_of(alloc, case) else {
        return false;
    };
    let come = all_come(alloc, &mut site, case.deeds);
    let is_shown = !case.is_snapshot || snapshot_holds(alloc, &site, case);
    let parts = site.into_parts();
    let hold = case.is_snapshot || hold(&parts, case);
    drop(parts);
    come && is_shown && hold
}

fn all_go_so(alloc: Global, cases: &[Case]) -> bool {
    for case in cases {
        if !goes_so(alloc, case) {
            return false;
        }
    }
    true
}

#[test]
fn words_are_written_and_faults_met(rt: HostRuntime) {
    assert!(rt; all_go_so(rt.alloc(), WORDS));
}

#[test]
fn power_is_cut(rt: HostRuntime) {
    assert!(rt; all_go_so(rt.alloc(), CUTS));
}

#[test]
fn snapshots_are_taken(rt: HostRuntime) {
    assert!(rt; all_go_so(rt.alloc(), SNAPSHOTS));
}
