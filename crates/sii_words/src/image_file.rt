ghost use Rattle.std.specs.Prelude.{◌≡◌, ◌*◌, ◌%◌, ◌/◌, ◌<◌, ◌↔◌, length, slice_set, IsTrue, IfOk, IsErrOf};
ghost use Rattle.sii_words.specs.Words.{IsImageSize, bytes_of, alias_of};
ghost use Rattle.sii_words.specs.Identity.{identity_of};
ghost use Rattle.sii_words.specs.CheckByte.{check_byte_of, IsChecked};

use crate::fault::WordsFault;
use crate::identity::Identity;
use crate::size::is_image_size;
use crate::{check_byte, layout};
use std::alloc::{AllocError, Global};
use std::marker::Model;

/// The words of an EEPROM image file (ETG.1000.6, slave information interface): 64 to 4,096 of them. In contracts its value is
/// the list of the words.
#[derive(Drop)]
pub struct ImageFile {
    words: Vec<u16>,
}

impl Model for ImageFile {
    ghost use Rattle.std.specs.Prelude.{ℕ, List, length};
    ghost use Rattle.sii_words.specs.Words.{IsImageSize};

    ghost Value = { List ℕ };

    ghost view = { λ image. image.words.items };

    ghost invariant = { λ image. IsImageSize (length image.words.items) };
}

impl ImageFile {
    /// Reads an image from the bytes of a file, two for each word, the low byte first.
    ///
    /// # Errors
    ///
    /// In this order: `OddLength` if the number of bytes is odd; `BadSize` if there are fewer than 64 or more than 4,096 words;
    /// `Memory` if memory was refused.
    pub fn from_bytes(alloc: Global, bytes: &[u8]) -> Result<Self, WordsFault>
        ensures words { IfOk result (λ image. bytes_of image ≡ bytes.now) }
        ensures count { IfOk result (λ image. length image ≡ length bytes.now / 2) }
        ensures size { IfOk result (λ image. IsImageSize (length image)) }
        ensures odd { IsErrOf result WordsFault.OddLength ↔ (length bytes.now % 2 ≡ 1) }
        ensures bad_size { IsErrOf result WordsFault.BadSize ↔ ((length bytes.now % 2 ≡ 0) × ¬ IsImageSize (length bytes.now / 2)) }
    {
        if bytes.len() % 2 != 0 {
            return Err(WordsFault::OddLength);
        }
        let count = bytes.len() / 2;
        if !is_image_size(count) {
            return Err(WordsFault::BadSize);
        }
        Ok(ImageFile {
            words: layout::words_of_bytes(alloc, bytes)?,
        })
    }

    /// Copies the image.
    ///
    /// # Errors
    ///
    /// `AllocError` if memory was refused.
    pub fn try_copy(&self) -> Result<ImageFile, AllocError>
        ensures { IfOk result (λ copy. copy ≡ self.now) }
    {
        Ok(ImageFile {
            words: self.words.clone()?,
        })
    }

    /// All words in order.
    pub fn as_slice(&self) -> &[u16]
        ensures words { result.now ≡ self.now }
        ensures size { IsImageSize (length self.now) }
    {
        &self.words
    }

    /// Sets word `at` to `value`, and changes no other word. `at` must be below the number of words.
    pub fn set(&mut self, at: usize, value: u16)
        requires { at < length self.old }
        ensures { self.new ≡ slice_set self.old at value }
    {
        self.words[at] = value;
    }

    /// Writes the words into `out` as bytes, each word low byte first, without taking memory. `out` must have two bytes for
    /// each word.
    pub fn as_bytes_into(&self, out: &mut [u8])
        requires { length out.old ≡ 2 * length self.now }
        ensures { out.new ≡ bytes_of self.now }
    {
        layout::write_bytes(&self.words, out)
    }

    /// The configured station alias: word 4 (ETG.1000.6).
    pub fn alias(&self) -> u16
        ensures { result ≡ alias_of self.now }
    {
        self.words[4]
    }

    /// The identity of the slave: words 8 to 15 (ETG.1000.6).
    pub fn identity(&self) -> Identity
        ensures { result ≡ identity_of self.now }
    {
        layout::identity(&self.words)
    }

    /// The check byte of words 0 to 6 (ETG.1000.6): their remainder in a division by `x^8 + x^2 + x + 1`, with the initial
    /// value 0xFF.
    pub fn check_byte(&self) -> u8
        ensures { result ≡ check_byte_of self.now }
    {
        check_byte::check_byte(&self.words)
    }

    /// Whether the low byte of word 7 is the check byte of words 0 to 6. The high byte isn't looked at.
    pub fn check_ok(&self) -> bool
        ensures { IsTrue result ↔ IsChecked self.now }
    {
        layout::check_ok(&self.words)
    }
}
