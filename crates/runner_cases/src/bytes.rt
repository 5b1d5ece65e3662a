//! Bytes of images and journals.

/// Overwrites the bytes from `from` on.
pub fn patch(bytes: &mut [u8], from: usize, new: &[u8]) {
    for (byte, value) in bytes.iter_mut().skip(from).zip(new) {
        *byte = *value;
    }
}
