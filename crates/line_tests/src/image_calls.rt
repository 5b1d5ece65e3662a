//! Calls of the library for C on images.

use sii_bytes::{
    CategoryPlace, Head, ImageSizes, PlacedSegment, edit_category, edit_image, find_category,
    place_line, read_head, set_alias, validate_image,
};
use std::alloc::Global;

/// The codes that zeros get: from their head, their validation, a new alias, category 0, the removal of a category, an image, as a line, and
/// a new alias once their check byte is right.
type Codes = [u32; 8];

/// A number of bytes, 8,194 at most, and the codes of so many zeros.
type Zeros = (usize, Codes);

const ZEROS: &[Zeros] = &[
    (126, [2, 2, 2, 2, 2, 2, 2, 2]),
    (127, [1, 1, 1, 1, 1, 1, 1, 1]),
    (128, [0, 15, 15, 16, 16, 15, 0, 0]),
    (130, [0, 15, 15, 3, 2, 2, 2, 0]),
    (8_192, [0, 15, 15, 0, 16, 15, 0, 0]),
    (8_194, [2, 2, 2, 2, 2, 2, 2, 2]),
];

const NO_HEAD: Head = Head {
    words: 0,
    alias: 0,
    check: 0,
    expected: 0,
    vendor: 0,
    product: 0,
    revision: 0,
    serial: 0,
};

const NO_PLACE: CategoryPlace = CategoryPlace {
    kind: 0,
    at: 0,
    count: 0,
};

const NO_SIZES: ImageSizes = ImageSizes {
    segments: 0,
    outputs: 0,
    inputs: 0,
    counter: 0,
};

/// The code of a line of one slave.
fn line_code(alloc: Global, bytes: &[u8]) -> u32 {
    let mut segments: [PlacedSegment; 0] = [];
    let mut sizes = NO_SIZES;
    place_line(alloc, bytes, &[bytes.len()], &mut segments, &mut sizes)
}

/// The code of the alias 0x1234 for zeros whose check byte is right; 255 where it, or the check byte with it, isn't where it belongs.
fn renamed_code(bytes: &mut [u8]) -> u32 {
    if bytes.len() > 14 {
        bytes[14] = 0x30;
    }
    let code = set_alias(bytes, 0x1234);
    let is_set = bytes.len() > 14 && bytes[8] == 0x34 && bytes[9] == 0x12 && bytes[14] == 0xC7;
    if code == 0 && !is_set { 255 } else { code }
}

/// The codes of these zeros.
fn codes_of(alloc: Global, bytes: &mut [u8], image: &[u8]) -> Codes {
    let mut head = NO_HEAD;
    let mut detail = 0;
    let mut place = NO_PLACE;
    let read = read_head(alloc, bytes, &mut head);
    let validated = validate_image(alloc, bytes, &mut detail);
    let found = find_category(alloc, bytes, 0, &mut place);
    let line = line_code(alloc, bytes);
    let named = set_alias(bytes, 7);
    let removed = edit_category(alloc, bytes, 10, &[]);
    let written = edit_image(alloc, bytes, image);
    let renamed = renamed_code(bytes);
    [
        read, validated, named, found, removed, written, line, renamed,
    ]
}

/// Whether so many zeros get their codes.
fn get_codes(alloc: Global, count: usize, codes: &Codes) -> bool {
    let mut bytes = [0u8; 8194];
    let image = [0u8; 8194];
    count <= 8194 && codes_of(alloc, &mut bytes[..count], &image[..count]) == *codes
}

#[test]
fn zeros_get_their_codes(rt: HostRuntime) {
    for (count, codes) in ZEROS {
        assert!(rt; get_codes(rt.alloc(), *count, codes));
    }
}
