//! TXPDO and RXPDO categories (types 50 and 51; ETG.1000.6 and ETG.2010).

ghost use Rattle.std.specs.Prelude.{◌≡◌, ◌<◌, ◌≤◌, ◌+◌, ◌*◌, ◌++◌, ◌∷◌, [], ◌↔◌, length, IsTrue, All, IfOk, IfSome, MatchOption, OnOk};
ghost use Rattle.std.specs.List.{flat_map};
ghost use Rattle.sii_cats.specs.Bytes.{bytes_of};
ghost use Rattle.sii_cats.specs.Pdos.{ArePdos, entries_in, entry_bytes, head_bytes, in_place, pdo_bytes, view, views, IsWritable};
ghost use Rattle.sii_cats.specs.steps.Pdos.{pdo_at, pdos_of};
ghost use Rattle.sii_cats.specs.Reading.{Answers, Writes};
ghost use Rattle.sii_cats.specs.steps.Reading.{Gives, Takes};

use crate::bytes::{halves, pair, push_four};
use crate::fault::CatFault;
use std::alloc::{AllocError, Global};

/// An entry of a PDO (ETG.1000.6 and ETG.2010, categories TXPDO and RXPDO): eight bytes.
#[derive(Clone, Copy)]
pub struct PdoEntry {
    /// Index of the object.
    pub index: u16,
    /// Subindex of the object.
    pub subindex: u8,
    /// The number of its name among the strings, from 1; 0 is no name.
    pub name: u8,
    /// Code of the data type.
    pub data_type: u8,
    /// Length in bits.
    pub bit_length: u8,
    /// Flags.
    pub flags: u16,
}

/// A process data object (ETG.1000.6 and ETG.2010, categories TXPDO and RXPDO): a head of eight bytes, and its entries.
#[derive(Drop)]
pub struct Pdo {
    /// Index of the PDO.
    pub index: u16,
    /// The entries, in order. A content has room for 255 of them.
    pub entries: Vec<PdoEntry>,
    /// The number of the sync manager that it is assigned to; 0xFF is none.
    pub manager: u8,
    /// Synchronization.
    pub synchronization: u8,
    /// The number of its name among the strings, from 1; 0 is no name.
    pub name: u8,
    /// Flags.
    pub flags: u16,
}

/// The head of a PDO (ETG.1000.6 and ETG.2010, categories TXPDO and RXPDO): what it says besides its entries.
#[derive(Clone, Copy)]
pub struct PdoHead {
    /// Index of the PDO.
    pub index: u16,
    /// The number of the sync manager that it is assigned to; 0xFF is none.
    pub manager: u8,
    /// Synchronization.
    pub synchronization: u8,
    /// The number of its name among the strings, from 1; 0 is no name.
    pub name: u8,
    /// Flags.
    pub flags: u16,
}

/// The entry in front of the words of a PDO's entries, four words each, and the words after it. `None` if fewer than four words
/// are left.
pub fn front_entry(words: &[u16]) -> Option<(PdoEntry, &[u16])>
    ensures { MatchOption result (entries_in words.now ≡ [])
        (λ x. (entries_in words.now ≡ x.0 ∷ entries_in x.1.now) × (length x.1.now + 4 ≡ length words.now)) }
{
    match words {
        [index, named, typed, flags, rest @ ..] => {
            let (subindex, name) = halves(*named);
            let (data_type, bit_length) = halves(*typed);
            let entry = PdoEntry {
                index: *index,
                subindex,
                name,
                data_type,
                bit_length,
                flags: *flags,
            };
            Some((entry, rest))
        }
        _ => None,
    }
}

fn entries_of(alloc: Global, words: &[u16]) -> Result<Vec<PdoEntry>, AllocError>
    ensures { IfOk result (λ v. v.items ≡ entries_in words.now) }
{
    let mut entries = Vec::with_capacity(alloc, words.len() / 4)?;
    let mut rest = words;
    while let Some((entry, after)) = front_entry(rest) {
        entries.push(entry)?;
        rest = after;
    }
    Ok(entries)
}

/// The PDO in front of a content of type `kind`, TXPDO or RXPDO, where it lies: its head, the words of its entries, and the
/// words after it. `None` if fewer than four words are left.
///
/// # Errors
///
/// `BadCategory` if four words or more are left and the PDO that they begin isn't whole.
pub fn front_pdo(kind: u16, words: &[u16]) -> Result<Option<(PdoHead, &[u16], &[u16])>, CatFault>
    ensures exact { Takes (λ x. (in_place x.0 x.1.now, bytes_of x.2.now)) kind result (pdo_at (bytes_of words.now)) }
    ensures size { IfOk result (λ front. IfSome front (λ x. 4 + length x.1.now + length x.2.now ≡ length words.now)) }
{
    match words {
        [index, counted, timed, flags, rest @ ..] => {
            let (count, manager) = halves(*counted);
            let (synchronization, name) = halves(*timed);
            let size = 4 * usize::from(count);
            if size > rest.len() {
                return Err(CatFault::BadCategory { kind });
            }
            let (entries, after) = rest.split_at(size);
            let head = PdoHead {
                index: *index,
                manager,
                synchronization,
                name,
                flags: *flags,
            };
            Ok(Some((head, entries, after)))
        }
        _ => Ok(None),
    }
}

fn pdo_of(alloc: Global, kind: u16, words: &[u16]) -> Result<Option<(Pdo, &[u16])>, CatFault>
    ensures { Takes (λ x. (view x.0, bytes_of x.1.now)) kind result (pdo_at (bytes_of words.now)) }
{
    let Some((head, entries, rest)) = front_pdo(kind, words)? else {
        return Ok(None);
    };
    let pdo = Pdo {
        index: head.index,
        entries: entries_of(alloc, entries)?,
        manager: head.manager,
        synchronization: head.synchronization,
        name: head.name,
        flags: head.flags,
    };
    Ok(Some((pdo, rest)))
}

/// Reads the content of a category of type `kind`, TXPDO or RXPDO: its PDOs, in order. Fewer than four words after the last
/// whole PDO are ignored.
///
/// # Errors
///
/// `BadCategory` if four words or more are left and the PDO that they begin isn't whole. Or `Memory` in place of any answer if
/// memory was refused.
pub fn pdos(alloc: Global, kind: u16, words: &[u16]) -> Result<Vec<Pdo>, CatFault>
    ensures grammar { Answers (λ v. views v.items) (ArePdos (bytes_of words.now)) kind result }
    ensures exact { Gives (λ v. views v.items) kind result (pdos_of words.now) }
{
    let mut pdos = Vec::new(alloc);
    let mut rest = words;
    while let Some((pdo, after)) = pdo_of(alloc, kind, rest)? {
        pdos.push(pdo)?;
        rest = after;
    }
    Ok(pdos)
}

/// The four words of an entry.
fn entry_words(entry: PdoEntry) -> [u16; 4]
    ensures { bytes_of result ≡ entry_bytes entry }
{
    [
        entry.index,
        pair(entry.subindex, entry.name),
        pair(entry.data_type, entry.bit_length),
        entry.flags,
    ]
}

/// The four words of a PDO before those of its entries.
fn head_words(pdo: &Pdo) -> [u16; 4]
    requires { length pdo.now.entries.items < 256 }
    ensures { bytes_of result ≡ head_bytes (view pdo.now) }
{
    [
        pdo.index,
        pair(pdo.entries.as_slice().len() as u8, pdo.manager),
        pair(pdo.synchronization, pdo.name),
        pdo.flags,
    ]
}

fn write_pdo(words: &mut Vec<u16>, pdo: &Pdo) -> Result<(), AllocError>
    requires { length pdo.now.entries.items < 256 }
    ensures { OnOk result (bytes_of words.new.items
        ≡ bytes_of words.old.items ++ pdo_bytes (view pdo.now)) }
{
    push_four(words, head_words(pdo))?;
    for entry in &pdo.entries {
        push_four(words, entry_words(*entry))?;
    }
    Ok(())
}

fn are_writable(pdos: &[Pdo]) -> bool
    ensures { IsTrue result ↔ All (λ pdo. length pdo.entries.items < 256) pdos.now }
{
    pdos.iter().all(|pdo| pdo.entries.as_slice().len() < 256)
}

fn write_all(alloc: Global, pdos: &[Pdo]) -> Result<Vec<u16>, AllocError>
    requires { All (λ pdo. length pdo.entries.items < 256) pdos.now }
    ensures { IfOk result (λ v. bytes_of v.items ≡ flat_map pdo_bytes (views pdos.now)) }
{
    let mut words = Vec::new(alloc);
    for pdo in pdos {
        write_pdo(&mut words, pdo)?;
    }
    Ok(words)
}

/// The content of a category of type `kind`, TXPDO or RXPDO, with these PDOs.
///
/// # Errors
///
/// `BadCategory` if a PDO has more than 255 entries. Or `Memory` in place of any answer if memory was refused.
pub fn write_pdos(alloc: Global, kind: u16, pdos: &[Pdo]) -> Result<Vec<u16>, CatFault>
    ensures written { Writes (λ v. bytes_of v.items) (All IsWritable (views pdos.now)) kind result
        (flat_map pdo_bytes (views pdos.now)) }
    ensures read_back { IfOk result (λ v. ArePdos (bytes_of v.items) (views pdos.now)) }
{
    if !are_writable(pdos) {
        return Err(CatFault::BadCategory { kind });
    }
    Ok(write_all(alloc, pdos)?)
}
