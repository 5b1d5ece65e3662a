//! The image of a slave: whether one is for it, and the file with its words, which gets one.
ghost use Rattle.std.specs.Prelude.{◌≡◌, ◌∷◌, [], false, IfOk, OnOk, option_map};
ghost use Rattle.station_files.specs.Devices.{GivesSlave, IsForSlave, IsWritten, WritesSlave};
ghost use Rattle.station_files.specs.Files.{ChangesOnly};
ghost use Rattle.station_files.specs.ImageText.{text_of};

use crate::faults::{Failure, Fault};
use crate::image::read_image;
use crate::line::load_slave;
use crate::notes::Place;
use crate::store::Store;
use sii_edit::{Command, Edit, apply};
use sii_words::{ImageFile, Plant, Words};
use station_listing::Code;
use std::alloc::Global;
use std::io::Read;
use thiserror::Error;

/// What tells an image from that of a slave: the number of the slave, and then the one of the image.
#[derive(Clone, Copy, Debug, Error)]
pub enum DeviceDiffers {
    #[error("vendor 0x{0:08x}, and the image 0x{1:08x}")]
    Vendor(u32, u32),
    #[error("product 0x{0:08x}, and the image 0x{1:08x}")]
    Product(u32, u32),
    #[error("{0} words, and the image {1}")]
    Words(usize, usize),
}

/// Looks whether an image is that of a slave, which has these words: it has the same vendor and product, and as many words at least. A slave
/// whose check byte is wrong, as that of a blank EEPROM, doesn't tell what it is, so only the number of words counts.
///
/// # Errors
///
/// The first of vendor, product and words that differs.
pub fn validate_device(words: &Words, image: &ImageFile) -> Result<(), DeviceDiffers>
    ensures { OnOk result (IsForSlave words.now image.now) }
{
    let (own, other) = (words.identity(), image.identity());
    let is_known = words.check_ok();
    if is_known && own.vendor != other.vendor {
        Err(DeviceDiffers::Vendor(own.vendor, other.vendor))
    } else if is_known && own.product != other.product {
        Err(DeviceDiffers::Product(own.product, other.product))
    } else if image.as_slice().len() < words.len() {
        Err(DeviceDiffers::Words(words.len(), image.as_slice().len()))
    } else {
        Ok(())
    }
}

/// Writes an image, of the file of this name or from the input, into the file `name`, which has the words of a slave, as a script's command writes
/// it to the slave. The file is replaced as a whole.
///
/// # Errors
///
/// As for `read_image`; as for `load_slave` of `name`; unless any device is taken, `OtherDevice` where `validate_device` refuses the image; the
/// refusal of the command; then `File` or `Memory`, as the store answers.
#[tactic(auto, using(crate::proofs::SlaveImages::writes_slave))]
pub fn write_slave<R: Read, S: Store>(
    alloc: Global,
    name: &str,
    file: Option<&str>,
    any_device: bool,
    input: &mut R,
    store: &mut S,
) -> Result<(), Failure>
    ensures written { OnOk result (WritesSlave any_device (text_of (option_map (λ given. given.now) file.entry) (R.remaining input.old) (S.files store.old))
        (S.files store.old) (S.files store.new) name.now) }
    ensures others { ChangesOnly (S.files store.old) (S.files store.new) name.now }
{
    let bytes = slave_with_image(alloc, name, file, any_device, input, store)?;
    match store.write(name, &bytes) {
        Ok(()) => Ok(()),
        Err(error) => Err(Failure::Fault(Fault::from(error))),
    }
}

/// The bytes that a slave gets so, whose words are in the file `name`.
#[tactic(auto, using(crate::proofs::SlaveImages::gives_slave))]
fn slave_with_image<R: Read, S: Store>(
    alloc: Global,
    name: &str,
    file: Option<&str>,
    any_device: bool,
    input: &mut R,
    store: &mut S,
) -> Result<Vec<u8>, Failure>
    ensures bytes { IfOk result (λ bytes. GivesSlave any_device (text_of (option_map (λ given. given.now) file.entry) (R.remaining input.old) (S.files store.old))
        (S.files store.old) name.now bytes.items) }
    ensures same { S.files store.new ≡ S.files store.old }
{
    let image = read_image(alloc, false, file, input, store)?;
    let words = load_slave(alloc, name, store)?;
    require_device(any_device, name, &words, &image, store)?;
    written(alloc, words, image)
}

/// Looks whether an image is that of the slave whose words are in this file, unless any device is taken.
fn require_device<S: Store>(
    any_device: bool,
    name: &str,
    words: &Words,
    image: &ImageFile,
    store: &mut S,
) -> Result<(), Fault>
    ensures device { OnOk result (any_device ≡ false → IsForSlave words.now image.now) }
    ensures same { S.files store.new ≡ S.files store.old }
{
    if any_device {
        return Ok(());
    }
    match validate_device(words, image) {
        Ok(()) => Ok(()),
        Err(why) => {
            store.note(Code::OtherDevice, Place::File(name), &why);
            Err(Fault::OtherDevice)
        }
    }
}

/// The bytes of a slave with these words, once the command has written the image to it.
#[tactic(auto, using(crate::proofs::SlaveImages::is_written))]
fn written(alloc: Global, words: Words, image: ImageFile) -> Result<Vec<u8>, Failure>
    ensures { IfOk result (λ bytes. IsWritten words image bytes.items) }
{
    let line = alone(alloc, words)?;
    let command = Command::One(Edit::Image { slave: 0, image });
    match apply(alloc, &line, &command) {
        Ok((changed, _)) => {
            let _count = changed.len();
            match changed.slave(0).to_bytes() {
                Ok(bytes) => Ok(bytes),
                Err(error) => Err(Failure::Fault(Fault::from(error))),
            }
        }
        Err(refusal) => Err(Failure::Refused(refusal)),
    }
}

/// A line of a slave alone.
fn alone(alloc: Global, words: Words) -> Result<Plant, Fault>
    ensures { IfOk result (λ line. line ≡ words ∷ []) }
{
    let mut slaves = Vec::new(alloc);
    slaves.push(words)?;
    Ok(Plant::of(slaves))
}
