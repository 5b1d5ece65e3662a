//! What C calls. `include/pilzhoon.h` says it in C's words.

ghost use Rattle.std.specs.Prelude.{◌≡◌, ◌≢◌, ◌≤◌, ◌==◌, not, Err};
ghost use Rattle.pilzhoon.specs.Numbers.{IsNumberOf, Numbers};
ghost use Rattle.sii_words.specs.CheckByte.{IsChecked};
ghost use Rattle.sii_words.specs.Words.{IsDeviceSize, IsImageSize, bytes_of};
ghost use Rattle.sii_edit.specs.Alias.{with_alias};
ghost use Rattle.sii_bytes.specs.Bytes.{Answers};
ghost use Rattle.sii_bytes.specs.Category.{HasCategory, LacksCategory};
ghost use Rattle.sii_cats.specs.Contents.{AreManagers};
ghost use Rattle.sii_cats.specs.Pdos.{ArePdos};
ghost use Rattle.sii_bytes.specs.Content.{IsManager, IsPdo, ReadsEntry, ReadsItem, ReadsString};
ghost use Rattle.sii_bytes.specs.Editing.{Edits, RefusesCategory, RefusesImage, category_edit, image_edit};
ghost use Rattle.sii_bytes.specs.Head.{IsHead};
ghost use Rattle.sii_bytes.specs.Validating.{Validates};
ghost use Rattle.sii_bytes.specs.Line.{PlacesLine};
ghost use Rattle.rom_steps.specs.Calls.{Starts, Steps, StepsWith, TellsNext};
ghost use Rattle.rom_steps.specs.Remaining.{IssueCourse, OpenCourse, ReadCourse, SettleCourse};
ghost use Rattle.site_core.specs.declared.fault.DeviceFault.TheVariants as device;

use rom_steps::{Access, ToSend};
use sii_bytes::{CategoryPlace, EntryRow, Head, ImageSizes, PdoRow, PlacedSegment, SyncManager};
use std::alloc::Global;

/// Reads the head of an image, as `sii_bytes::read_head` does.
#[unsafe(no_mangle)]
pub extern "C" fn pz_read_head(alloc: Global, image: &[u8], head: &mut Head) -> u32
    ensures { Answers IsImageSize image.now result (λ words. IsHead words head.new) (λ _. ⊥) (head.new ≡ head.old) }
{
    sii_bytes::read_head(alloc, image, head)
}

/// Validates an image, as `sii_bytes::validate_image` does.
#[unsafe(no_mangle)]
pub extern "C" fn pz_validate(alloc: Global, image: &[u8], detail: &mut usize) -> u32
    ensures { Validates image.now result detail.new }
{
    sii_bytes::validate_image(alloc, image, detail)
}

/// Finds a category by its place in the chain, as `sii_bytes::find_category` does.
#[unsafe(no_mangle)]
pub extern "C" fn pz_category(
    alloc: Global,
    image: &[u8],
    number: usize,
    place: &mut CategoryPlace,
) -> u32
    ensures { Answers IsImageSize image.now result (λ words. HasCategory words number place.new)
        (λ words. LacksCategory words number result) (place.new ≡ place.old) }
{
    sii_bytes::find_category(alloc, image, number, place)
}

/// Sets the alias of an image, as `sii_bytes::set_alias` does.
#[unsafe(no_mangle)]
pub extern "C" fn pz_set_alias(image: &mut [u8], value: u16) -> u32
    ensures answer { Answers IsImageSize image.old result (λ words. IsChecked words × (image.new ≡ bytes_of (with_alias words value)))
        (λ words. (result ≡ 15) × ¬ IsChecked words) (image.new ≡ image.old) }
    ensures memory { result ≢ 20 }
{
    sii_bytes::set_alias(image, value)
}

/// Replaces, adds or removes a category of a device, as `sii_bytes::edit_category` does.
#[unsafe(no_mangle)]
pub extern "C" fn pz_edit_category(
    alloc: Global,
    device: &mut [u8],
    kind: u16,
    content: &[u8],
) -> u32
    ensures { Answers IsDeviceSize device.old result (λ words. Edits words (category_edit kind content.now) device.new)
        (λ words. RefusesCategory words kind content.now result) (device.new ≡ device.old) }
{
    sii_bytes::edit_category(alloc, device, kind, content)
}

/// Writes an image over a device, as `sii_bytes::edit_image` does.
#[unsafe(no_mangle)]
pub extern "C" fn pz_edit_image(alloc: Global, device: &mut [u8], image: &[u8]) -> u32
    ensures { Answers IsDeviceSize device.old result (λ words. Edits words (image_edit image.now) device.new)
        (λ words. RefusesImage words image.now result) (device.new ≡ device.old) }
{
    sii_bytes::edit_image(alloc, device, image)
}

/// Places the process data of a line, as `sii_bytes::place_line` does.
#[unsafe(no_mangle)]
pub extern "C" fn pz_place_line(
    alloc: Global,
    devices: &[u8],
    lengths: &[usize],
    segments: &mut [PlacedSegment],
    sizes: &mut ImageSizes,
) -> u32
    ensures { PlacesLine lengths.now devices.now segments.old result segments.new sizes.new ((segments.new ≡ segments.old)
        × (sizes.new ≡ sizes.old)) }
{
    sii_bytes::place_line(alloc, devices, lengths, segments, sizes)
}

/// Reads a sync manager of a content, as `sii_bytes::read_manager` does.
#[unsafe(no_mangle)]
pub extern "C" fn pz_sync_manager(
    alloc: Global,
    content: &[u8],
    number: usize,
    manager: &mut SyncManager,
) -> u32
    ensures { ReadsItem AreManagers content.now number result (λ item. IsManager item manager.new) (manager.new ≡ manager.old) }
{
    sii_bytes::read_manager(alloc, content, number, manager)
}

/// Reads a PDO of a content, as `sii_bytes::read_pdo` does.
#[unsafe(no_mangle)]
pub extern "C" fn pz_pdo(alloc: Global, content: &[u8], number: usize, pdo: &mut PdoRow) -> u32
    ensures { ReadsItem ArePdos content.now number result (λ item. IsPdo item pdo.new) (pdo.new ≡ pdo.old) }
{
    sii_bytes::read_pdo(alloc, content, number, pdo)
}

/// Reads an entry of a PDO of a content, as `sii_bytes::read_entry` does.
#[unsafe(no_mangle)]
pub extern "C" fn pz_pdo_entry(
    alloc: Global,
    content: &[u8],
    pdo: usize,
    number: usize,
    entry: &mut EntryRow,
) -> u32
    ensures { ReadsEntry content.now pdo number result entry.new (entry.new ≡ entry.old) }
{
    sii_bytes::read_entry(alloc, content, pdo, number, entry)
}

/// Reads a string of a content, as `sii_bytes::read_string` does.
#[unsafe(no_mangle)]
pub extern "C" fn pz_string(
    alloc: Global,
    content: &[u8],
    number: usize,
    text: &mut [u8],
    size: &mut usize,
) -> u32
    ensures { ReadsString content.now number text.old result text.new size.new ((text.new ≡ text.old) × (size.new ≡ size.old)) }
{
    sii_bytes::read_string(alloc, content, number, text, size)
}

/// Begins to open a slave, as `rom_steps::calls::open` does.
#[unsafe(no_mangle)]
pub extern "C" fn pz_open(access: &mut Access)
    ensures { Starts OpenCourse 10009 access.new }
{
    rom_steps::calls::open(access)
}

/// Begins to read a word and the next one, as `rom_steps::calls::read` does.
#[unsafe(no_mangle)]
pub extern "C" fn pz_read(access: &mut Access, word: u16)
    ensures { Starts (λ slave. ReadCourse slave word) 30006 access.new }
{
    rom_steps::calls::read(access, word)
}

/// Begins to issue a word, as `rom_steps::calls::issue` does.
#[unsafe(no_mangle)]
pub extern "C" fn pz_issue(access: &mut Access, word: u16, value: u16)
    ensures { Starts (λ slave. IssueCourse slave word value) 1 access.new }
{
    rom_steps::calls::issue(access, word, value)
}

/// Begins to settle a word, as `rom_steps::calls::settle` does.
#[unsafe(no_mangle)]
pub extern "C" fn pz_settle(access: &mut Access, taken: u32)
    ensures { Starts (λ slave. SettleCourse slave (not (taken == 0))) 10001 access.new }
{
    rom_steps::calls::settle(access, taken != 0)
}

/// The library's number of a code that a call on steps answers.
fn number_of(code: u32, by: u32) -> u32
    requires { by ≤ 200 }
    ensures { IsNumberOf by code result }
{
    match code {
        100..=199 => code + by,
        _ => code,
    }
}

/// Tells what is to be done next, as `rom_steps::calls::next` does; its codes from 100 on are 200 higher.
#[unsafe(no_mangle)]
pub extern "C" fn pz_next(access: &Access, datagram: &mut ToSend) -> u32
    ensures { Numbers 200 (λ code. TellsNext access.now code datagram.new (datagram.new ≡ datagram.old)) result }
{
    number_of(rom_steps::calls::next(access, datagram), 200)
}

/// Takes in the frame that came back, as `rom_steps::calls::take_answer` does; its codes from 100 on are 100 higher.
#[unsafe(no_mangle)]
pub extern "C" fn pz_take(access: &mut Access, counter: u16, content: &[u8]) -> u32
    ensures { Numbers 100 (λ code. StepsWith access.old code access.new counter content.now) result }
{
    number_of(rom_steps::calls::take_answer(access, counter, content), 100)
}

/// Takes in that the frame was lost, as `rom_steps::calls::take_loss` does; its codes from 100 on are 100 higher.
#[unsafe(no_mangle)]
pub extern "C" fn pz_lose(access: &mut Access) -> u32
    ensures { Numbers 100 (λ code. Steps access.old code access.new (λ came. came ≡ Err device.Lost)) result }
{
    number_of(rom_steps::calls::take_loss(access), 100)
}

/// Takes in that the line has stopped, as `rom_steps::calls::take_stop` does; its codes from 100 on are 100 higher.
#[unsafe(no_mangle)]
pub extern "C" fn pz_stop(access: &mut Access) -> u32
    ensures { Numbers 100 (λ code. Steps access.old code access.new (λ came. came ≡ Err device.Stopped)) result }
{
    number_of(rom_steps::calls::take_stop(access), 100)
}
