//! Applies one edit to a device.
ghost use Rattle.std.specs.Prelude.{◌≡◌, ◌*◌, ◌%◌, [], ◌∷◌, length, IfOk, IfErr};
ghost use Rattle.sii_words.specs.Words.{IsDeviceSize};
ghost use Rattle.sii_bytes.specs.Bytes.{Answers, words_in};
ghost use Rattle.sii_bytes.specs.Editing.{Edits, RefusesCategory, RefusesEdit, RefusesImage, category_edit, image_edit};

use crate::codes::{DONE, MEMORY, cause_code, found, read_device, read_image, words_code};
use sii_edit::{Command, Edit, WordList, apply};
use sii_words::{Plant, Words, WordsFault, words_of_bytes};
use std::alloc::{AllocError, Global};

/// A line of one device.
fn line_of(alloc: Global, words: Words) -> Result<Plant, AllocError>
    ensures { IfOk result (λ plant. plant ≡ words ∷ []) }
{
    let mut slaves = Vec::new(alloc);
    slaves.push(words)?;
    Ok(Plant::of(slaves))
}

/// The bytes of a device after an edit.
fn edited(alloc: Global, words: Words, edit: Edit) -> Result<Vec<u8>, u32>
    ensures ok { IfOk result (λ bytes. Edits words edit bytes.items) }
    ensures length { IfOk result (λ bytes. length bytes.items ≡ 2 * length words) }
    ensures err { IfErr result (RefusesEdit words edit) }
{
    let plant = match line_of(alloc, words) {
        Ok(plant) => plant,
        Err(_) => return Err(MEMORY),
    };
    match apply(alloc, &plant, &Command::One(edit)) {
        Ok((new, _)) => match new.slave(0).to_bytes() {
            Ok(bytes) => Ok(bytes),
            Err(_) => Err(MEMORY),
        },
        Err(refusal) => Err(cause_code(refusal.cause)),
    }
}

/// Reads the content of a category.
fn read_content(alloc: Global, content: &[u8]) -> Result<WordList, u32>
    requires { length content.now % 2 ≡ 0 }
    ensures ok { IfOk result (λ words. words ≡ words_in content.now) }
    ensures err { IfErr result (λ code. code ≡ 20) }
{
    match words_of_bytes(alloc, content) {
        Ok(words) => Ok(WordList::from_vec(words)),
        Err(_) => Err(MEMORY),
    }
}

/// The bytes of a device after a category edit.
fn recategorized(alloc: Global, words: Words, kind: u16, content: &[u8]) -> Result<Vec<u8>, u32>
    ensures ok { IfOk result (λ bytes. Edits words (category_edit kind content.now) bytes.items) }
    ensures length { IfOk result (λ bytes. length bytes.items ≡ 2 * length words) }
    ensures err { IfErr result (RefusesCategory words kind content.now) }
{
    if content.len() % 2 != 0 {
        return Err(words_code(WordsFault::OddLength));
    }
    let edit = Edit::Category {
        slave: 0,
        kind,
        words: read_content(alloc, content)?,
    };
    edited(alloc, words, edit)
}

/// The bytes of a device with an image written over them.
fn imaged(alloc: Global, words: Words, bytes: &[u8]) -> Result<Vec<u8>, u32>
    ensures ok { IfOk result (λ new. Edits words (image_edit bytes.now) new.items) }
    ensures length { IfOk result (λ new. length new.items ≡ 2 * length words) }
    ensures err { IfErr result (RefusesImage words bytes.now) }
{
    let image = read_image(alloc, bytes)?;
    edited(alloc, words, Edit::Image { slave: 0, image })
}

/// Replaces the content of the one category of type `kind` of a device, or adds the category last if there is none. Without content it
/// is removed. What `sii_edit` says of a category edit on a line of this device alone holds.
///
/// Answers 0; or the first code that applies, and the device stays as it was: 1 if the number of bytes of the device is odd; 2 if it
/// isn't of 64 to 4,096 words, a multiple of 64; 1 if the number of bytes of the content is odd; 16 if there is no such category to be
/// removed; 17 if there are several; 4 if the content is malformed, or no category may have this type; 5 if the categories don't fit; 18
/// if the chain can't be read; 19 if the device would have no process image. Or 20 in place of any answer if memory was refused.
pub fn edit_category(alloc: Global, device: &mut [u8], kind: u16, content: &[u8]) -> u32
    ensures { Answers IsDeviceSize device.old result (λ words. Edits words (category_edit kind content.now) device.new)
        (λ words. RefusesCategory words kind content.now result) (device.new ≡ device.old) }
{
    let words = found!(read_device(alloc, device));
    let bytes = found!(recategorized(alloc, words, kind, content));
    device.copy_from_slice(&bytes);
    DONE
}

/// Writes an image over the first words of a device. What `sii_edit` says of an image edit on a line of this device alone holds.
///
/// Answers 0; or the first code that applies, and the device stays as it was: 1 if the number of bytes of the device is odd; 2 if it
/// isn't of 64 to 4,096 words, a multiple of 64; 1 or 2 if the image's bytes are odd or not of 64 to 4,096 words; 14 if it is longer than
/// the device; 15 if its check byte is wrong; 4 if a category that it would leave is malformed; 18 if the chain that it would leave can't
/// be read; 19 if the device would have no process image. Or 20 in place of any answer if memory was refused.
pub fn edit_image(alloc: Global, device: &mut [u8], image: &[u8]) -> u32
    ensures { Answers IsDeviceSize device.old result (λ words. Edits words (image_edit image.now) device.new)
        (λ words. RefusesImage words image.now result) (device.new ≡ device.old) }
{
    let words = found!(read_device(alloc, device));
    let bytes = found!(imaged(alloc, words, image));
    device.copy_from_slice(&bytes);
    DONE
}
