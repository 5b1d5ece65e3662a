//! Reads the items of a category's content: sync managers, PDOs and their entries, strings.
ghost use Rattle.std.specs.Prelude.{◌≡◌, ◌≤◌, ◌++◌, drop, length, IfOk, IfErr};
ghost use Rattle.sii_words.specs.Words.{bytes_of};
ghost use Rattle.sii_cats.specs.Contents.{AreManagers};
ghost use Rattle.sii_cats.specs.Pdos.{ArePdos, view, views};
ghost use Rattle.sii_cats.specs.Strings.{AreStrings, texts};
ghost use Rattle.sii_bytes.specs.Content.{FindsList, IsEntry, IsManager, IsPdo, IsUnspelt, ReadsEntry, ReadsItem, ReadsString};

use crate::codes::{BAD_CATEGORY, DONE, MEMORY, NO_SPACE, NO_SUCH_ITEM, found, words_code};
use sii_cats::{CatFault, Manager, Pdo, PdoEntry, pdos, strings, syncms};
use sii_words::{WordsFault, words_of_bytes};
use std::alloc::Global;

/// A sync manager as a category SyncM describes it (ETG.1000.6): its eight bytes.
#[repr(C)]
#[derive(Clone, Copy)]
pub struct SyncManager {
    /// Physical start address.
    pub start: u32,
    /// Length in bytes.
    pub length: u32,
    /// Control register.
    pub control: u32,
    /// Status register.
    pub status: u32,
    /// Enable flags.
    pub enable: u32,
    /// Type: 0 unused, 1 mailbox out, 2 mailbox in, 3 process data out, 4 process data in.
    pub kind: u32,
}

/// A PDO of a category TXPDO or RXPDO (ETG.2010), without its entries.
#[repr(C)]
#[derive(Clone, Copy)]
pub struct PdoRow {
    /// The number of its entries.
    pub entries: usize,
    /// Index of the PDO.
    pub index: u32,
    /// The number of the sync manager that it is assigned to; 255 is none.
    pub manager: u32,
    /// Synchronization.
    pub synchronization: u32,
    /// The number of its name among the strings, from 1; 0 is no name.
    pub name: u32,
    /// Flags.
    pub flags: u32,
}

/// An entry of a PDO (ETG.2010).
#[repr(C)]
#[derive(Clone, Copy)]
pub struct EntryRow {
    /// Index of the object.
    pub index: u32,
    /// Subindex of the object.
    pub subindex: u32,
    /// The number of its name among the strings, from 1; 0 is no name.
    pub name: u32,
    /// Code of the data type.
    pub data_type: u32,
    /// Length in bits.
    pub bits: u32,
    /// Flags.
    pub flags: u32,
}

fn content_words(alloc: Global, content: &[u8]) -> Result<Vec<u16>, u32>
    ensures ok { IfOk result (λ words. bytes_of words.items ≡ content.now) }
    ensures err { IfErr result (IsUnspelt content.now) }
{
    if content.len() % 2 != 0 {
        return Err(words_code(WordsFault::OddLength));
    }
    match words_of_bytes(alloc, content) {
        Ok(words) => Ok(words),
        Err(_) => Err(MEMORY),
    }
}

fn managers_in(alloc: Global, content: &[u8]) -> Result<Vec<Manager>, u32>
    ensures { FindsList (λ v. v.items) AreManagers content.now result }
{
    let words = content_words(alloc, content)?;
    match syncms(alloc, &words) {
        Ok(managers) => Ok(managers),
        Err(_) => Err(MEMORY),
    }
}

fn pdos_in(alloc: Global, content: &[u8]) -> Result<Vec<Pdo>, u32>
    ensures { FindsList (λ v. views v.items) ArePdos content.now result }
{
    let words = content_words(alloc, content)?;
    match pdos(alloc, 50, &words) {
        Ok(all) => Ok(all),
        Err(CatFault::Memory) => Err(MEMORY),
        Err(_) => Err(BAD_CATEGORY),
    }
}

fn strings_in(alloc: Global, content: &[u8]) -> Result<Vec<Vec<u8>>, u32>
    ensures { FindsList (λ v. texts v.items) AreStrings content.now result }
{
    let words = content_words(alloc, content)?;
    match strings(alloc, &words) {
        Ok(all) => Ok(all),
        Err(CatFault::Memory) => Err(MEMORY),
        Err(_) => Err(BAD_CATEGORY),
    }
}

fn manager_row(manager: Manager) -> SyncManager
    ensures { IsManager manager result }
{
    SyncManager {
        start: u32::from(manager.start),
        length: u32::from(manager.length),
        control: u32::from(manager.control),
        status: u32::from(manager.status),
        enable: u32::from(manager.enable),
        kind: u32::from(manager.kind),
    }
}

fn pdo_row(pdo: &Pdo) -> PdoRow
    ensures { IsPdo (view pdo.now) result }
{
    PdoRow {
        entries: pdo.entries.len(),
        index: u32::from(pdo.index),
        manager: u32::from(pdo.manager),
        synchronization: u32::from(pdo.synchronization),
        name: u32::from(pdo.name),
        flags: u32::from(pdo.flags),
    }
}

fn entry_row(entry: PdoEntry) -> EntryRow
    ensures { IsEntry entry result }
{
    EntryRow {
        index: u32::from(entry.index),
        subindex: u32::from(entry.subindex),
        name: u32::from(entry.name),
        data_type: u32::from(entry.data_type),
        bits: u32::from(entry.bit_length),
        flags: u32::from(entry.flags),
    }
}

/// Reads sync manager `number`, from 0, of the content of a category SyncM (ETG.1000.6).
///
/// Answers 0; or a code, and `manager` stays as it was: 1 if the number of bytes is odd; 214 if there are fewer sync managers; 20 if memory
/// was refused.
pub fn read_manager(alloc: Global, content: &[u8], number: usize, manager: &mut SyncManager) -> u32
    ensures { ReadsItem AreManagers content.now number result (λ item. IsManager item manager.new) (manager.new ≡ manager.old) }
{
    let all = found!(managers_in(alloc, content));
    if number >= all.len() {
        return NO_SUCH_ITEM;
    }
    *manager = manager_row(all[number]);
    DONE
}

/// Reads PDO `number`, from 0, of the content of a category TXPDO or RXPDO (ETG.2010).
///
/// Answers 0; or a code, and `pdo` stays as it was: 1 if the number of bytes is odd; 4 if the content can't be read; 214 if there are fewer
/// PDOs; 20 if memory was refused.
pub fn read_pdo(alloc: Global, content: &[u8], number: usize, pdo: &mut PdoRow) -> u32
    ensures { ReadsItem ArePdos content.now number result (λ item. IsPdo item pdo.new) (pdo.new ≡ pdo.old) }
{
    let all = found!(pdos_in(alloc, content));
    if number >= all.len() {
        return NO_SUCH_ITEM;
    }
    *pdo = pdo_row(&all[number]);
    DONE
}

/// Reads entry `number`, from 0, of PDO `pdo`, from 0, of the content of a category TXPDO or RXPDO (ETG.2010).
///
/// Answers 0; or a code, and `entry` stays as it was: 1 if the number of bytes is odd; 4 if the content can't be read; 214 if there are
/// fewer PDOs, or this one has fewer entries; 20 if memory was refused.
pub fn read_entry(
    alloc: Global,
    content: &[u8],
    pdo: usize,
    number: usize,
    entry: &mut EntryRow,
) -> u32
    ensures { ReadsEntry content.now pdo number result entry.new (entry.new ≡ entry.old) }
{
    let all = found!(pdos_in(alloc, content));
    if pdo >= all.len() {
        return NO_SUCH_ITEM;
    }
    let entries = &all[pdo].entries;
    if number >= entries.len() {
        return NO_SUCH_ITEM;
    }
    *entry = entry_row(entries[number]);
    DONE
}

/// Writes a string to the first places of `text`, which must have room for it.
fn put_string(string: &[u8], text: &mut [u8])
    requires { length string.now ≤ length text.old }
    ensures { text.new ≡ string.now ++ drop (length string.now) text.old }
{
    for place in 0..string.len() {
        text[place] = string[place];
    }
}

/// Reads string `number`, from 1 as the standard counts them, of the content of a category STRINGS (ETG.1000.6), to the first places of
/// `text`, and its length to `size`.
///
/// Answers 0; or a code, and `text` and `size` stay as they were: 1 if the number of bytes is odd; 4 if the content can't be read; 214 if
/// there are fewer strings, or the number is 0; 213 if `text` is too short for it (255 bytes always do); 20 if memory was refused.
pub fn read_string(
    alloc: Global,
    content: &[u8],
    number: usize,
    text: &mut [u8],
    size: &mut usize,
) -> u32
    ensures { ReadsString content.now number text.old result text.new size.new ((text.new ≡ text.old) × (size.new ≡ size.old)) }
{
    let all = found!(strings_in(alloc, content));
    if number == 0 || number > all.len() {
        return NO_SUCH_ITEM;
    }
    let string = &all[number - 1];
    if string.len() > text.len() {
        return NO_SPACE;
    }
    put_string(string, text);
    *size = string.len();
    DONE
}
