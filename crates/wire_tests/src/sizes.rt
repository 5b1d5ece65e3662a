//! How large the EEPROMs of slaves are found to be.

use crate::bench::{Content, Slave, WELL};
use crate::bringing_up::{Finding, Line, course_of};
use std::alloc::Global;
use wire_bringup::Sizes;
use wire_practice::{NO_QUIRKS, Quirks};
use wire_words::Extent;

// The words of the image, and of the chip, whose addresses roll over; None: the slave emulates its EEPROM, and a word after its image
// can't be read.
type Chip = (usize, Option<u32>, Content);

// A chip, what is given of its size before, whether that is trusted, and what is found.
type Case = (Chip, Option<u16>, bool, &'static [Finding]);

// Word 0x3E is the size in KiBit, less one: 1 of 128 words, 15 of 1,024, 63 of 4,096.
const CASES: &[Case] = &[
    // Chips as they say.
    (
        (64, Some(64), Content::Numbers(64, 0)),
        None,
        false,
        &[Finding::Size(64, 64, Extent::Repeats(64), false)],
    ),
    (
        (128, Some(128), Content::Numbers(128, 1)),
        None,
        false,
        &[Finding::Size(128, 128, Extent::Repeats(128), false)],
    ),
    (
        (4096, Some(4096), Content::Numbers(4096, 63)),
        None,
        false,
        &[Finding::Size(4096, 4096, Extent::Repeats(4096), false)],
    ),
    // Smaller and larger ones than they say, and one that says nothing, in word 0.
    (
        (128, Some(128), Content::Numbers(128, 15)),
        None,
        false,
        &[Finding::Size(128, 1024, Extent::Repeats(128), false)],
    ),
    (
        (1024, Some(1024), Content::Numbers(1024, 1)),
        None,
        false,
        &[Finding::Size(1024, 128, Extent::Repeats(1024), false)],
    ),
    (
        (2048, Some(2048), Content::Numbers(2048, 0)),
        None,
        false,
        &[Finding::Size(2048, 64, Extent::Repeats(2048), false)],
    ),
    (
        (128, Some(128), Content::Numbers(128, 0xdead)),
        None,
        false,
        &[Finding::Size(128, 3_648_384, Extent::Repeats(128), false)],
    ),
    // More than 4,096 words: the word says it, or less.
    (
        (8192, Some(8192), Content::Numbers(8192, 127)),
        None,
        false,
        &[Finding::Size(4096, 8192, Extent::Open, true)],
    ),
    (
        (8192, Some(8192), Content::Numbers(8192, 15)),
        None,
        false,
        &[Finding::Size(1024, 1024, Extent::Open, false)],
    ),
    (
        (8192, Some(8192), Content::Numbers(8192, 0)),
        Some(4096),
        false,
        &[Finding::Size(4096, 64, Extent::Open, true)],
    ),
    // Blank ones, and one of zeros that says 64 words.
    (
        (512, Some(512), Content::Filled(0xffff)),
        None,
        false,
        &[Finding::Size(64, 4_194_304, Extent::Uniform, false)],
    ),
    (
        (512, Some(512), Content::Filled(0xffff)),
        Some(512),
        false,
        &[Finding::Size(512, 4_194_304, Extent::Uniform, false)],
    ),
    (
        (64, Some(64), Content::Filled(0)),
        None,
        false,
        &[Finding::Size(64, 64, Extent::Uniform, false)],
    ),
    // Contents that repeat.
    (
        (1024, Some(1024), Content::Numbers(256, 15)),
        None,
        false,
        &[Finding::Size(256, 1024, Extent::Repeats(256), false)],
    ),
    // Emulated ones, whose size is no power of two, and one that is blank.
    (
        (1024, None, Content::Numbers(1024, 15)),
        None,
        false,
        &[Finding::Size(1024, 1024, Extent::EndsAt(1024), false)],
    ),
    (
        (320, None, Content::Numbers(320, 15)),
        None,
        false,
        &[Finding::Size(320, 1024, Extent::EndsAt(320), false)],
    ),
    (
        (320, None, Content::Filled(0xffff)),
        None,
        false,
        &[Finding::Size(320, 4_194_304, Extent::EndsAt(320), false)],
    ),
    // Given sizes: of a part, of more than there is, and of no number of blocks.
    (
        (128, Some(128), Content::Numbers(128, 1)),
        Some(64),
        false,
        &[Finding::Size(64, 128, Extent::Repeats(128), false)],
    ),
    (
        (128, Some(128), Content::Numbers(128, 15)),
        Some(1024),
        false,
        &[Finding::Smaller(1024, 128)],
    ),
    (
        (128, Some(128), Content::Numbers(128, 15)),
        Some(1024),
        true,
        &[Finding::Size(1024, 1024, Extent::Repeats(128), false)],
    ),
    (
        (320, None, Content::Numbers(320, 15)),
        Some(1024),
        false,
        &[Finding::Smaller(1024, 320)],
    ),
    (
        (128, Some(128), Content::Numbers(128, 1)),
        Some(100),
        false,
        &[Finding::Size(128, 128, Extent::Repeats(128), false)],
    ),
];

// Whether bringing up finds this of a line of one such slave, whose reads load eight bytes or four.
fn is_found(alloc: Global, case: &Case, is_wide: bool) -> bool {
    let ((words, chip, content), given, is_trusted, findings) = *case;
    let slave = Slave {
        words,
        content,
        alias: 0,
        quirks: Quirks {
            chip,
            is_wide,
            ..NO_QUIRKS
        },
    };
    let line = Line {
        slaves: &[slave],
        cable: None,
        mishap: WELL,
    };
    let mut sizes = Sizes::unknown();
    sizes.given[0] = given;
    sizes.is_trusted = is_trusted;
    matches!(course_of(alloc, &line, &sizes, &Ok(findings)), Some(course) if course.is_so)
}

#[test]
fn sizes_are_found(rt: HostRuntime) {
    for case in CASES {
        assert!(rt; is_found(rt.alloc(), case, false) && is_found(rt.alloc(), case, true));
    }
}
