//! What stands in front of an image's categories.
ghost use Rattle.std.specs.Prelude.{◌≡◌};
ghost use Rattle.sii_words.specs.Words.{IsImageSize};
ghost use Rattle.sii_bytes.specs.Bytes.{Answers};
ghost use Rattle.sii_bytes.specs.Head.{IsHead};

use crate::codes::{DONE, found, read_image};
use sii_words::ImageFile;
use std::alloc::Global;

/// The head of an image (ETG.1000.6, words 0 to 15).
#[repr(C)]
#[derive(Clone, Copy)]
pub struct Head {
    /// The number of words of the image: 64 to 4,096.
    pub words: u32,
    /// The configured station alias: word 4.
    pub alias: u32,
    /// The check byte that the image has: the low byte of word 7.
    pub check: u32,
    /// The check byte that words 0 to 6 give.
    pub expected: u32,
    /// The vendor id: words 8 and 9.
    pub vendor: u32,
    /// The product code: words 10 and 11.
    pub product: u32,
    /// The revision number: words 12 and 13.
    pub revision: u32,
    /// The serial number: words 14 and 15.
    pub serial: u32,
}

fn head_of(image: &ImageFile) -> Head
    ensures { IsHead image.now result }
{
    let words = image.as_slice();
    let identity = image.identity();
    Head {
        words: words.len() as u32,
        alias: u32::from(image.alias()),
        check: u32::from(words[7] % 256),
        expected: u32::from(image.check_byte()),
        vendor: identity.vendor,
        product: identity.product,
        revision: identity.revision,
        serial: identity.serial,
    }
}

/// Reads the head of an image (ETG.1000.6, words 0 to 15). The check byte isn't checked.
///
/// Answers 0; or a code, and the head stays as it was: 1 if the number of bytes is odd; 2 if the image hasn't 64 to 4,096 words; 20 if
/// memory was refused.
pub fn read_head(alloc: Global, bytes: &[u8], head: &mut Head) -> u32
    ensures { Answers IsImageSize bytes.now result (λ words. IsHead words head.new) (λ _. ⊥) (head.new ≡ head.old) }
{
    let image = found!(read_image(alloc, bytes));
    *head = head_of(&image);
    DONE
}
