ghost use Rattle.std.specs.Prelude.{◌≡◌, ◌≤◌, length};
ghost use Rattle.sii_edit.specs.Command.{image_causes};
ghost use Rattle.sii_edit.specs.Image.{with_front};
ghost use Rattle.sii_edit.specs.Refusal.{unless, IsAnswer};

use crate::category::validate_chain;
use crate::command::Expect;
use crate::guard::is_other;
use crate::refusal::Cause;
use sii_words::{ImageFile, Words};
use std::alloc::Global;

/// The words of a slave with `front` written over the first of them. There must be at most as many as the slave has.
pub(crate) fn overwritten(mut words: Words, front: &[u16]) -> Words
    requires { length front.now ≤ length words }
    ensures { result ≡ with_front words front.now }
{
    for (at, word) in front.iter().enumerate() {
        words.set(at, *word);
    }
    words
}

/// The words of a slave with an image written over the first of them. The words after the image stay.
pub(crate) fn imaged(
    alloc: Global,
    expect: Option<Expect>,
    words: Words,
    image: &ImageFile,
) -> Result<Words, Cause>
    ensures { IsAnswer (unless (image_causes expect words image.now) (with_front words image.now)) result }
{
    if image.as_slice().len() > words.len() {
        return Err(Cause::ImageTooLong);
    }
    if !image.check_ok() {
        return Err(Cause::BadCheck);
    }
    if is_other(expect, &words) {
        return Err(Cause::WrongIdentity);
    }
    let new = overwritten(words, image.as_slice());
    validate_chain(alloc, new.as_slice())?;
    Ok(new)
}
