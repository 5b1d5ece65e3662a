ghost use Rattle.std.specs.Prelude.{◌≡◌, ◌%◌, ◌/◌, ◌<◌, ◌≤◌, ◌^◌, ◌↔◌, length, slice_index, slice_set, IsTrue, IfOk, IsErrOf};
ghost use Rattle.sii_words.specs.Words.{IsDeviceSize, bytes_of, alias_of};
ghost use Rattle.sii_words.specs.Identity.{identity_of};
ghost use Rattle.sii_words.specs.CheckByte.{check_byte_of, IsChecked};

use crate::fault::WordsFault;
use crate::identity::Identity;
use crate::size::is_device_size;
use crate::{check_byte, layout};
use std::alloc::{AllocError, Global};
use std::marker::Model;

/// All words of a device's EEPROM (ETG.1000.6, slave information interface): 64 to 4,096 of them, a multiple of 64. In
/// contracts its value is the list of the words.
#[derive(Drop)]
pub struct Words {
    words: Vec<u16>,
}

impl Model for Words {
    ghost use Rattle.std.specs.Prelude.{ℕ, List, length};
    ghost use Rattle.sii_words.specs.Words.{IsDeviceSize};

    ghost Value = { List ℕ };

    ghost view = { λ words. words.words.items };

    ghost invariant = { λ words. IsDeviceSize (length words.words.items) };
}

impl Words {
    /// Reads the words of a device from bytes, two for each word, the low byte first.
    ///
    /// # Errors
    ///
    /// In this order: `OddLength` if the number of bytes is odd; `BadSize` if no device has this many words (64 to 4,096, a
    /// multiple of 64); `Memory` if memory was refused.
    pub fn from_bytes(alloc: Global, bytes: &[u8]) -> Result<Self, WordsFault>
        ensures words { IfOk result (λ words. bytes_of words ≡ bytes.now) }
        ensures count { IfOk result (λ words. length words ≡ length bytes.now / 2) }
        ensures size { IfOk result (λ words. IsDeviceSize (length words)) }
        ensures odd { IsErrOf result WordsFault.OddLength ↔ (length bytes.now % 2 ≡ 1) }
        ensures bad_size { IsErrOf result WordsFault.BadSize ↔ ((length bytes.now % 2 ≡ 0) × ¬ IsDeviceSize (length bytes.now / 2)) }
    {
        if bytes.len() % 2 != 0 {
            return Err(WordsFault::OddLength);
        }
        let count = bytes.len() / 2;
        if !is_device_size(count) {
            return Err(WordsFault::BadSize);
        }
        Ok(Words {
            words: layout::words_of_bytes(alloc, bytes)?,
        })
    }

    /// The bytes of a file with these words, each word low byte first.
    ///
    /// # Errors
    ///
    /// `AllocError` if memory was refused.
    pub fn to_bytes(&self) -> Result<Vec<u8>, AllocError>
        ensures { IfOk result (λ bytes. bytes.items ≡ bytes_of self.now) }
    {
        layout::bytes_of_words(*self.words.allocator(), &self.words)
    }

    /// Copies the words.
    ///
    /// # Errors
    ///
    /// `AllocError` if memory was refused.
    pub fn try_copy(&self) -> Result<Words, AllocError>
        ensures { IfOk result (λ copy. copy ≡ self.now) }
    {
        Ok(Words {
            words: self.words.clone()?,
        })
    }

    /// The number of words: 64 to 4,096, a multiple of 64.
    pub fn len(&self) -> usize
        ensures len { result ≡ length self.now }
        ensures size { IsDeviceSize (length self.now) }
    {
        self.words.len()
    }

    /// The value of word `at`, which must be below `len`.
    pub fn get(&self, at: usize) -> u16
        requires { at < length self.now }
        ensures { result ≡ slice_index self.now at }
    {
        self.words[at]
    }

    /// Sets word `at` to `value`, and changes no other word. `at` must be below `len`.
    pub fn set(&mut self, at: usize, value: u16)
        requires { at < length self.old }
        ensures { self.new ≡ slice_set self.old at value }
    {
        self.words[at] = value;
    }

    /// All words in order.
    pub fn as_slice(&self) -> &[u16]
        ensures words { result.now ≡ self.now }
        ensures size { IsDeviceSize (length self.now) }
    {
        &self.words
    }

    /// The configured station alias: word 4 (ETG.1000.6).
    pub fn alias(&self) -> u16
        ensures { result ≡ alias_of self.now }
    {
        self.words[4]
    }

    /// The identity of the slave: words 8 to 15 (ETG.1000.6).
    pub fn identity(&self) -> Identity
        ensures { result ≡ identity_of self.now }
    {
        layout::identity(&self.words)
    }

    /// The check byte of words 0 to 6 (ETG.1000.6): their remainder in a division by `x^8 + x^2 + x + 1`, with the initial
    /// value 0xFF.
    pub fn check_byte(&self) -> u8
        ensures { result ≡ check_byte_of self.now }
    {
        check_byte::check_byte(&self.words)
    }

    /// The check byte of words 0 to 6 once word 4 holds `alias`.
    pub fn check_byte_with(&self, alias: u16) -> u8
        ensures { result ≡ check_byte_of (slice_set self.now 4 alias) }
    {
        check_byte::check_byte_with(&self.words, alias)
    }

    /// Whether the low byte of word 7 is the check byte of words 0 to 6. The high byte isn't looked at.
    pub fn check_ok(&self) -> bool
        ensures { IsTrue result ↔ IsChecked self.now }
    {
        layout::check_ok(&self.words)
    }
}
