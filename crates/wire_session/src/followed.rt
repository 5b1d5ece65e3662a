//! The device of a line on a wire, whose image files follow its slaves.

use site_file::{FileDevice, OpenFiles, RandomAccessFile};
use site_wire::{LockedLine, SharedLine, WireDevice};
use std::rt::Clock;
use std::sync::Wait;
use wire_frames::Wire;
use wire_mirror::{Images, JournalFile, Mirrored};

/// The device of the slaves of a line that threads share, and of its journal: each word that a slave has shown goes to its image file, and is synced
/// there before the journal is written again.
pub(crate) type Followed<'f, R, W, F> = Mirrored<
    'f,
    WireDevice<'f, SharedLine<'f, R, W>, JournalFile<'f, F>, R>,
    F,
>;

/// Makes the device of this line, with this journal and these image files.
pub(crate) fn followed<'f, R: Wait + Clock + AllocGlobal, W: Wire, F: RandomAccessFile>(
    rt: &'f R,
    locked: &'f LockedLine<W>,
    journal: F,
    images: &'f Images<F>,
) -> Followed<'f, R, W, F> {
    let files = OpenFiles {
        journal: JournalFile::new(journal, images),
        images: Vec::new(rt.alloc()),
    };
    let device = WireDevice::shared(locked.shared(rt), rt, FileDevice::new(files));
    Mirrored::new(device, images)
}
