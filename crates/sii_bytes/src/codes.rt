//! The numbers of codes; and what reads bytes as the words of an image or of a device, or gives the code.
ghost use Rattle.std.specs.Prelude.{◌≡◌};
ghost use Rattle.sii_bytes.specs.Codes.{code_of_cause, code_of_words};
ghost use Rattle.sii_words.specs.Words.{IsDeviceSize, IsImageSize};
ghost use Rattle.sii_bytes.specs.Bytes.{Reads};

use sii_edit::Cause;
use sii_words::{ImageFile, Words, WordsFault};
use station_listing::{Code, namesake};
use std::alloc::Global;

/// What is found; or the call answers the code.
macro_rules! found {
    ($found:expr) => {
        match $found {
            Ok(found) => found,
            Err(code) => return code,
        }
    };
}

pub(crate) use found;

/// The call is done.
pub(crate) const DONE: u32 = 0;

/// The chain of categories is cut off.
pub(crate) const RUNS_OUT: u32 = 3;

/// The content of a category can't be read.
pub(crate) const BAD_CATEGORY: u32 = 4;

/// The check byte is wrong.
pub(crate) const BAD_CHECK: u32 = 15;

/// There is no such category.
pub(crate) const NO_SUCH_CATEGORY: u32 = 16;

/// There is no process image.
pub(crate) const OVER_LIMIT: u32 = 19;

/// Memory was refused.
pub(crate) const MEMORY: u32 = 20;

/// There are no such slaves: none, or more than 64, or their lengths don't make up the bytes.
pub(crate) const BAD_LINE: u32 = 212;

/// There is no room for the answer.
pub(crate) const NO_SPACE: u32 = 213;

/// The content has no item of this number.
pub(crate) const NO_SUCH_ITEM: u32 = 214;

/// The code of bytes that can't be read as words.
pub(crate) fn words_code(fault: WordsFault) -> u32
    ensures { result ≡ code_of_words fault }
{
    match fault {
        WordsFault::OddLength => 1,
        WordsFault::BadSize => 2,
        WordsFault::Memory => MEMORY,
    }
}

/// The code of a refused command.
pub(crate) fn cause_code(cause: Cause) -> u32
    ensures { result ≡ code_of_cause cause }
{
    let code =
        namesake!(cause, Cause as Code: BadCategory, NoRoom, NoSlave, SameSlave, EmptyGroup, GroupTooLong, ImageTooLong, BadCheck,
        NoSuchCategory, SeveralCategories, BadChain, ImageOverLimit, Memory, WrongIdentity);
    code as u32
}

/// Reads an image of 64 to 4,096 words; or the code: 1 if the number of bytes is odd; 2 if it is no image's; 20 if memory was refused.
pub(crate) fn read_image(alloc: Global, bytes: &[u8]) -> Result<ImageFile, u32>
    ensures { Reads IsImageSize bytes.now result }
{
    match ImageFile::from_bytes(alloc, bytes) {
        Ok(image) => Ok(image),
        Err(fault) => Err(words_code(fault)),
    }
}

/// Reads the words of a device, 64 to 4,096, a multiple of 64; or the code: 1 if the number of bytes is odd; 2 if it is no device's; 20 if
/// memory was refused.
pub(crate) fn read_device(alloc: Global, bytes: &[u8]) -> Result<Words, u32>
    ensures { Reads IsDeviceSize bytes.now result }
{
    match Words::from_bytes(alloc, bytes) {
        Ok(words) => Ok(words),
        Err(fault) => Err(words_code(fault)),
    }
}
