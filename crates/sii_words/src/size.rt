// The sizes of devices and images, in words.

ghost use Rattle.std.specs.Prelude.{◌↔◌, IsTrue};
ghost use Rattle.sii_words.specs.Words.{IsDeviceSize, IsImageSize};

/// The fewest words of a device or an image. A device has a multiple of it.
pub const MIN_WORDS: usize = 64;

/// The most words of a device or an image.
pub const MAX_WORDS: usize = 4096;

/// Whether a device can have this many words: 64 to 4,096, a multiple of 64.
pub fn is_device_size(words: usize) -> bool
    ensures { IsTrue result ↔ IsDeviceSize words }
{
    is_image_size(words) && words % MIN_WORDS == 0
}

/// Whether an image can have this many words: 64 to 4,096.
pub fn is_image_size(words: usize) -> bool
    ensures { IsTrue result ↔ IsImageSize words }
{
    MIN_WORDS <= words && words <= MAX_WORDS
}
