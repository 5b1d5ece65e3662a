//! Copies keep what was there when they were made.

use crate::devices::{BOTH, Device, INPUTS, NOTHING, bytes_of, line_of, words_of};
use crate::tests::rom_half;
use esc_model::{ProcessHalf, RomHalf};
use sii_edit::{Command, Edit, EditList, Expect, GuardedEdit, GuardedEditList, is_same_command};
use sii_words::{
    ImageFile, ItemList, Plant, Run, WordList, Words, bytes_of_words, is_device_size,
    is_image_size, words_of_bytes,
};
use std::alloc::Global;

/// Devices of 256 bytes.
const DEVICES: &[Device] = &[BOTH, INPUTS, NOTHING];

/// Whether these words have these bytes.
fn has_bytes(words: &Words, bytes: &[u8]) -> bool {
    match words.to_bytes() {
        Ok(written) => written.as_slice() == bytes,
        Err(_refused) => false,
    }
}

/// Whether a copy of a device keeps its bytes under a change, and a copy of a slave's EEPROM half its words.
fn device_is_copied(words: &mut Words, bytes: &[u8]) -> bool {
    if words.len() < 64 {
        return false;
    }
    match words.try_copy() {
        Ok(copy) => {
            words.set(63, 0xABCD);
            words.get(63) == 0xABCD
                && has_bytes(&copy, bytes)
                && rom_half::is_copied(&RomHalf::power_up(copy, 0x1001, 1))
        }
        Err(_refused) => false,
    }
}

/// Whether an image of 256 bytes has these bytes.
fn image_has_bytes(image: &ImageFile, bytes: &[u8]) -> bool {
    let mut written = [0u8; 256];
    if image.as_slice().len() != 128 {
        return false;
    }
    image.as_bytes_into(&mut written);
    written.as_slice() == bytes
}

/// Whether a copy of an image keeps its bytes under a change.
fn image_is_copied(image: &mut ImageFile, bytes: &[u8]) -> bool {
    if image.as_slice().len() != 128 {
        return false;
    }
    match image.try_copy() {
        Ok(copy) => {
            image.set(63, 0xABCD);
            image.as_slice()[63] == 0xABCD && image_has_bytes(&copy, bytes)
        }
        Err(_refused) => false,
    }
}

/// Whether a copy of a slave's process half keeps a byte under a change.
fn process_is_copied(alloc: Global, words: &Words) -> bool {
    let Ok(mut half) = ProcessHalf::power_up(alloc, words, 0x1001) else {
        return false;
    };
    half.poke(0x1100, 0xAA);
    match half.try_copy() {
        Ok(copy) => {
            half.poke(0x1100, 0xBB);
            copy.peek(0x1100) == 0xAA && half.peek(0x1100) == 0xBB
        }
        Err(_refused) => false,
    }
}

/// Whether copies of a slave and of both its halves keep what was there.
fn slave_is_copied(alloc: Global, device: &Device, bytes: &[u8]) -> bool {
    match words_of(alloc, device) {
        Some(mut words) => {
            process_is_copied(alloc, &words) && device_is_copied(&mut words, bytes)
        }
        None => false,
    }
}

/// Whether copies of the device, as an image too, keep what was there.
fn is_copied(alloc: Global, device: &Device) -> bool {
    if device.size > 1024 {
        return false;
    }
    let bytes = &bytes_of(device)[..device.size];
    match ImageFile::from_bytes(alloc, bytes) {
        Ok(mut image) => {
            image_is_copied(&mut image, bytes) && slave_is_copied(alloc, device, bytes)
        }
        Err(_fault) => false,
    }
}

/// A line of two. The second has alias 0x0908.
const TWO: &[Device] = &[BOTH, INPUTS];

/// Whether a copy of the line keeps the alias of the second slave under a change.
fn line_is_copied(line: &mut Plant) -> bool {
    if line.len() != 2 || line.slave(1).len() < 64 {
        return false;
    }
    match line.try_copy() {
        Ok(copy) => {
            line.set(1, 4, 0x0003);
            copy.slave(1).alias() == 0x0908 && line.slave(1).alias() == 0x0003
        }
        Err(_refused) => false,
    }
}

/// Whether a copy of a line of two does so.
fn two_are_copied(alloc: Global) -> bool {
    match line_of(alloc, TWO) {
        Some(mut line) => line_is_copied(&mut line),
        None => false,
    }
}

/// Two words, and their bytes.
const WORDS: &[u16] = &[0x1600, 0xCDAB];

const BYTES: [u8; 4] = [0x00, 0x16, 0xAB, 0xCD];

/// Whether these words are `WORDS`, and are written as `BYTES`.
fn are_words(alloc: Global, words: &[u16]) -> bool {
    match bytes_of_words(alloc, words) {
        Ok(written) => written.as_slice() == BYTES.as_slice() && words == WORDS,
        Err(_refused) => false,
    }
}

/// Whether a copy of the list is these words.
fn list_is_copied(alloc: Global, list: &ItemList<u16>) -> bool {
    match list.try_copy() {
        Ok(copy) => are_words(alloc, copy.as_slice()) && are_words(alloc, &copy.into_vec()),
        Err(_refused) => false,
    }
}

/// Whether the words of `BYTES` are `WORDS`.
fn are_read(alloc: Global) -> bool {
    match words_of_bytes(alloc, &BYTES) {
        Ok(words) => list_is_copied(alloc, &ItemList::from_vec(words)),
        Err(_refused) => false,
    }
}

/// What an edit does.
#[derive(Clone, Copy)]
enum Kind {
    Alias,
    Category,
    Image,
}

/// The form of a command. A group has one edit.
#[derive(Clone, Copy)]
enum Form {
    One,
    Swap,
    Group,
    Guarded,
}

/// Each form of a command, with what its edit does.
const COMMANDS: &[(Form, Kind)] = &[
    (Form::One, Kind::Alias),
    (Form::One, Kind::Category),
    (Form::One, Kind::Image),
    (Form::Swap, Kind::Alias),
    (Form::Group, Kind::Category),
    (Form::Guarded, Kind::Image),
];

/// `WORDS` as a list.
fn word_list(alloc: Global) -> Option<WordList> {
    match WORDS.to_vec(alloc) {
        Ok(words) => Some(WordList::from_vec(words)),
        Err(_refused) => None,
    }
}

/// An edit of slave 1 that gives it alias 0x0203, the category 50 of `WORDS` or an image of 128 bytes.
fn edit(alloc: Global, kind: Kind) -> Option<Edit> {
    let slave = 1;
    match kind {
        Kind::Alias => Some(Edit::Alias {
            slave,
            value: 0x0203,
        }),
        Kind::Category => Some(Edit::Category {
            slave,
            kind: 50,
            words: word_list(alloc)?,
        }),
        Kind::Image => Some(Edit::Image {
            slave,
            image: ImageFile::from_bytes(alloc, &[0x5A; 128]).ok()?,
        }),
    }
}

/// The edit, guarded by an identity.
fn guarded(edit: Edit) -> GuardedEdit {
    let expect = Expect {
        vendor: 1,
        product: 2,
        revision: 3,
    };
    GuardedEdit {
        expect: Some(expect),
        edit,
    }
}

/// The command of this row.
fn command(alloc: Global, (form, kind): (Form, Kind)) -> Option<Command> {
    let edit = edit(alloc, kind)?;
    match form {
        Form::One => Some(Command::One(edit)),
        Form::Swap => {
            drop(edit);
            Some(Command::Swap { a: 1, b: 2 })
        }
        Form::Group => Some(Command::Group(EditList::from_vec(Vec::from_array(
            alloc,
            [edit],
        ).ok()?))),
        Form::Guarded => Some(Command::Guarded(GuardedEditList::from_vec(Vec::from_array(
            alloc,
            [guarded(edit)],
        ).ok()?))),
    }
}

/// A copy of the command of this row, which is gone by then.
fn command_copy(alloc: Global, row: (Form, Kind)) -> Option<Command> {
    match command(alloc, row) {
        Some(command) => command.try_copy().ok(),
        None => None,
    }
}

/// Whether a copy of the command of this row is the one of `other`.
fn is_copy(alloc: Global, row: (Form, Kind), other: (Form, Kind)) -> Option<bool> {
    let copy = command_copy(alloc, row)?;
    match command(alloc, other) {
        Some(command) => Some(is_same_command(&copy, &command)),
        None => None,
    }
}

/// Whether a copy of each command is this one, and no other.
fn commands_are_copied(alloc: Global) -> bool {
    for (place, row) in COMMANDS.iter().enumerate() {
        for (at, other) in COMMANDS.iter().enumerate() {
            if is_copy(alloc, *row, *other) != Some(at == place) {
                return false;
            }
        }
    }
    true
}

/// Whether a copy of a run has its slave, its first word and its values.
fn run_is_copied(run: &Run) -> bool {
    match run.try_copy() {
        Ok(copy) => copy.slave == 1 && copy.first == 0x0708 && copy.words.as_slice() == WORDS,
        Err(_refused) => false,
    }
}

/// Whether a copy of a run of `WORDS` does so.
fn words_are_copied_in_a_run(alloc: Global) -> bool {
    match word_list(alloc) {
        Some(words) => run_is_copied(&Run {
            slave: 1,
            first: 0x0708,
            words,
        }),
        None => false,
    }
}

#[test]
fn commands_and_runs_are_copied(rt: HostRuntime) {
    assert!(rt; commands_are_copied(rt.alloc()) && words_are_copied_in_a_run(rt.alloc()));
}

#[test]
fn devices_lines_and_lists_are_copied(rt: HostRuntime) {
    for device in DEVICES {
        assert!(rt; is_copied(rt.alloc(), device));
    }
    let are_sizes = is_device_size(128) && !is_device_size(65) && is_image_size(65);
    assert!(rt; are_sizes && two_are_copied(rt.alloc()) && are_read(rt.alloc()));
}
