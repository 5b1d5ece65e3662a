//! A file of a shelf, call by call: what a power cut leaves of it is among what `site_file` (`specs/Files`) allows after these calls. POSIX: bytes
//! that a sync has made durable stay; what was written since, or in a call that failed, may be anything; after a failure no sync proves anything.

use site_file::RandomAccessFile;
use station_cases::{Pattern, Shelf, Trouble};
use station_files::Store;
use std::alloc::Global;
use std::io;

/// A call on an open file.
#[derive(Clone, Copy)]
enum Call {
    /// These bytes from a place on.
    Writes(u64, &'static [u8]),
    Syncs,
}

/// The bytes of the file before.
const BEFORE: [u8; 8] = [0x10, 0x11, 0x12, 0x13, 0x14, 0x15, 0x16, 0x17];

/// Calls in a row.
const ROWS: &[&[Call]] = &[
    &[
        Call::Writes(2, &[0xA2, 0xA3]),
        Call::Syncs,
        Call::Writes(3, &[0xB3, 0xB4]),
        Call::Syncs,
    ],
    &[
        Call::Writes(0, &[0xA0, 0xA1, 0xA2]),
        Call::Writes(1, &[0xB1]),
        Call::Syncs,
        Call::Writes(6, &[0xA6, 0xA7]),
        Call::Writes(6, &[0xB6]),
    ],
    &[
        Call::Syncs,
        Call::Writes(0, &[0xA0, 0xA1, 0xA2, 0xA3, 0xA4, 0xA5, 0xA6, 0xA7]),
        Call::Syncs,
        Call::Syncs,
        Call::Writes(7, &[0xB7]),
    ],
];

/// What is left of bytes that weren't synced.
const PATTERNS: &[Pattern] = &[
    Pattern::Old,
    Pattern::New,
    Pattern::Torn,
    Pattern::Fill(0xEE),
];

/// A byte of a file.
#[derive(Clone, Copy)]
struct Byte {
    /// What a read gives, unless a write of it has failed.
    now: u8,
    is_synced: bool,
}

/// A file by what it was asked.
#[derive(Clone, Copy)]
struct AskedFile {
    bytes: [Byte; 8],
    /// Whether each call has succeeded so far.
    is_sound: bool,
}

impl AskedFile {
    fn new() -> AskedFile {
        let mut bytes = [Byte {
            now: 0,
            is_synced: true,
        }; 8];
        for (byte, before) in bytes.iter_mut().zip(BEFORE.iter()) {
            byte.now = *before;
        }
        AskedFile {
            bytes,
            is_sound: true,
        }
    }

    /// In the middle of a write its range isn't synced.
    fn begin(&mut self, call: Call) {
        if let Call::Writes(at, written) = call {
            for (byte, _) in self.bytes.iter_mut().skip(at as usize).zip(written.iter()) {
                byte.is_synced = false;
            }
        }
    }

    fn end(&mut self, call: Call, has_succeeded: bool) {
        self.is_sound = self.is_sound && has_succeeded;
        match call {
            Call::Writes(at, written) if has_succeeded => {
                for (byte, new) in self.bytes.iter_mut().skip(at as usize).zip(written.iter()) {
                    byte.now = *new;
                }
            }
            Call::Syncs if self.is_sound => {
                for byte in self.bytes.iter_mut() {
                    byte.is_synced = true;
                }
            }
            _ => {}
        }
    }

    /// Whether a power cut may leave these bytes.
    fn may_leave(&self, left: &[u8]) -> bool {
        left.len() == self.bytes.len()
            && self
                .bytes
                .iter()
                .zip(left.iter())
                .all(|(byte, found)| !byte.is_synced || byte.now == *found)
    }

    /// How many bytes may be anything.
    fn vacant(&self) -> usize {
        self.bytes.iter().filter(|byte| !byte.is_synced).count()
    }
}

/// How many of these bytes a power cut has left as others than a read gives.
fn others(asked: &AskedFile, left: &[u8]) -> usize {
    asked
        .bytes
        .iter()
        .zip(left.iter())
        .filter(|(byte, found)| byte.now != **found)
        .count()
}

fn done(file: &impl RandomAccessFile, call: Call) -> io::Result<()> {
    match call {
        Call::Writes(at, bytes) => file.write_all_at(bytes, at),
        Call::Syncs => file.sync_data(),
    }
}

/// Whether all that is left after each of these calls is allowed; and, as long as none has failed, that bytes which are filled are just those that
/// the definition leaves free. None: memory was refused.
fn is_allowed(alloc: Global, calls: &[Call], trouble: Trouble, pattern: Pattern) -> Option<bool> {
    let mut shelf = Shelf::new(alloc).ok()?;
    shelf.put("file", &BEFORE).ok()?;
    shelf.trouble(trouble, pattern).ok()?;
    let file = shelf.open("file", &BEFORE).ok()?;
    let mut asked = AskedFile::new();
    for call in calls {
        asked.begin(*call);
        let has_succeeded = done(&file, *call).is_ok();
        asked.end(*call, has_succeeded);
        let left = shelf.left().ok()?.bytes(alloc, "file").ok()??;
        if !asked.may_leave(&left) {
            return Some(false);
        }
        if asked.is_sound
            && pattern == Pattern::Fill(0xEE)
            && others(&asked, &left) != asked.vacant()
        {
            return Some(false);
        }
    }
    Some(true)
}

#[test]
fn files_in_memory_leave_what_a_file_may_leave(rt: HostRuntime) {
    let alloc = rt.alloc();
    let mut tries = 0u32;
    for calls in ROWS {
        for pattern in PATTERNS {
            // The first call that counts is the one that opens the file.
            for at in 1..7u64 {
                for trouble in [Trouble::Cut(at), Trouble::Error(at), Trouble::Full(at)] {
                    assert!(rt; is_allowed(alloc, calls, trouble, *pattern) == Some(true));
                    tries = tries.saturating_add(1);
                }
            }
        }
    }
    assert!(rt; tries == 216);
}
