ghost use Rattle.std.specs.Prelude.{◌≡◌, ◌↔◌, IsOk, OnOk, OnErr, IsOkUnless};
ghost use Rattle.sii_words.specs.CheckByte.{IsChecked};
ghost use Rattle.sii_edit.specs.Alias.{ChangesAlias, with_alias, with_low_byte};
ghost use Rattle.sii_edit.specs.Command.{alias_causes};
ghost use Rattle.sii_edit.specs.Draft.{Renews};
ghost use Rattle.sii_edit.specs.Refusal.{unless, entire};

use crate::command::Expect;
use crate::draft::NewWords;
use crate::refusal::{Cause, Refusal};
use crate::slave_words::SlaveWords;
use sii_words::ImageFile;

/// A word with another low byte.
pub(crate) fn with_low_byte(word: u16, byte: u8) -> u16
    ensures { result ≡ with_low_byte word byte }
{
    word / 256 * 256 + u16::from(byte)
}

/// Sets the configured station alias of an image, and the check byte with it (ETG.1000.6, words 4 and 7). The high byte of word
/// 7 stays.
///
/// # Errors
///
/// `BadCheck`, without a position, if the image's check byte is wrong. The image is then unchanged.
pub fn alias_image(image: &mut ImageFile, value: u16) -> Result<(), Refusal>
    ensures accepted { IsOk result ↔ IsChecked image.old }
    ensures changed { OnOk result (ChangesAlias image.old value image.new) }
    ensures refused { IsOkUnless result (entire Cause.BadCheck) }
    ensures unchanged { OnErr result (image.new ≡ image.old) }
{
    if !image.check_ok() {
        return Err(Refusal::entire(Cause::BadCheck));
    }
    let seven = image.as_slice()[7];
    image.set(4, value);
    image.set(7, with_low_byte(seven, image.check_byte()));
    Ok(())
}

/// The new words of a slave that gets the alias `value`.
pub(crate) fn renamed(
    expect: Option<Expect>,
    words: &SlaveWords,
    value: u16,
) -> Result<NewWords, Cause>
    ensures { Renews (unless (alias_causes expect words.now) (with_alias words.now value)) words.now result }
{
    if !words.check_ok() {
        return Err(Cause::BadCheck);
    }
    if words.is_other(expect) {
        return Err(Cause::WrongIdentity);
    }
    Ok(NewWords::Renamed(words.with_alias(value)))
}
