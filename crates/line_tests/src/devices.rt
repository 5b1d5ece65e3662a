//! Devices, and lines of them.

use sii_words::{Plant, Words};
use std::alloc::Global;

/// A device: its first bytes, those of its categories, and how many it has. The others are 0.
#[derive(Clone, Copy)]
pub(crate) struct Device<'a> {
    pub(crate) front: &'a [u8],
    pub(crate) categories: &'a [u8],
    pub(crate) size: usize,
}

/// The check byte of zeros.
pub(crate) const CHECKED: &[u8] = &[0, 0, 0, 0, 0, 0, 0, 0, 0, 0, 0, 0, 0, 0, 0x30];

/// Alias 0x0908.
pub(crate) const NAMED: &[u8] = &[0, 0, 0, 0, 0, 0, 0, 0, 0x08, 0x09];

/// 64 words: zeros, but for the check byte.
pub(crate) const ZERO: Device = Device {
    front: CHECKED,
    categories: &[],
    size: 128,
};

/// A slave with a byte of outputs and four bytes of inputs: its SyncM, RXPDO and TXPDO categories.
pub(crate) const BOTH: Device = Device {
    front: NAMED,
    categories: &[
        41, 0, 16, 0, 0x00, 0x10, 0x80, 0x00, 0x26, 0x00, 0x01, 0x01, 0x80, 0x10, 0x80, 0x00, 0x22,
        0x00, 0x01, 0x02, 0x00, 0x11, 0x01, 0x00, 0x24, 0x00, 0x01, 0x03, 0x80, 0x11, 0x04, 0x00,
        0x20, 0x00, 0x01, 0x04, 51, 0, 8, 0, 0x00, 0x16, 0x01, 0x02, 0x00, 0x00, 0x00, 0x00, 0x00,
        0x70, 0x01, 0x00, 0x05, 0x08, 0x00, 0x00, 50, 0, 12, 0, 0x00, 0x1a, 0x02, 0x03, 0x00, 0x00,
        0x00, 0x00, 0x00, 0x60, 0x01, 0x00, 0x06, 0x10, 0x00, 0x00, 0x00, 0x60, 0x02, 0x00, 0x06,
        0x10, 0x00, 0x00, 0xff, 0xff,
    ],
    size: 256,
};

/// A slave with twelve bits of inputs.
pub(crate) const INPUTS: Device = Device {
    front: NAMED,
    categories: &[
        41, 0, 4, 0, 0x00, 0x10, 0x02, 0x00, 0x20, 0x00, 0x01, 0x04, 50, 0, 8, 0, 0x00, 0x1a, 0x01,
        0x00, 0x00, 0x00, 0x00, 0x00, 0x00, 0x60, 0x01, 0x00, 0x00, 0x0c, 0x00, 0x00, 0xff, 0xff,
    ],
    size: 256,
};

/// A slave without categories.
pub(crate) const NOTHING: Device = Device {
    front: NAMED,
    categories: &[0xff, 0xff],
    size: 256,
};

/// Writes bytes over others, from a place on, if there is room.
pub(crate) fn put(bytes: &mut [u8], from: usize, new: &[u8]) {
    if let Some(room) = bytes.get_mut(from..from.saturating_add(new.len())) {
        room.copy_from_slice(new);
    }
}

/// The bytes of a device, and zeros after them.
pub(crate) fn bytes_of(device: &Device) -> [u8; 1024] {
    let mut bytes = [0u8; 1024];
    put(&mut bytes, 0, device.front);
    put(&mut bytes, 128, device.categories);
    bytes
}

/// The words of a device of 1,024 bytes at most.
pub(crate) fn words_of(alloc: Global, device: &Device) -> Option<Words> {
    if device.size > 1024 {
        return None;
    }
    Words::from_bytes(alloc, &bytes_of(device)[..device.size]).ok()
}

/// A line of these devices.
pub(crate) fn line_of(alloc: Global, devices: &[Device]) -> Option<Plant> {
    let mut slaves = Vec::new(alloc);
    for device in devices {
        slaves.push(words_of(alloc, device)?).ok()?;
    }
    if slaves.len() < 1 || slaves.len() > 64 {
        return None;
    }
    Some(Plant::of(slaves))
}
