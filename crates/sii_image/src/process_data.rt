//! What the categories of a slave say of its process data.

ghost use Rattle.std.specs.Prelude.{◌≡◌, ◌≤◌, ◌<◌, ◌*◌, ◌+◌, ℕ, length, map, sum_by, All, IfOk, OnOk, Ok};
ghost use Rattle.sii_cats.specs.Chain.{end_of, member_of};
ghost use Rattle.sii_cats.specs.Pdos.{entries_in};
ghost use Rattle.sii_cats.specs.steps.Chain.{GivesChain};
ghost use Rattle.sii_cats.specs.steps.Pdos.{pdos_of};
ghost use Rattle.sii_cats.specs.steps.Reading.{Gives};
ghost use Rattle.sii_image.specs.ProcessData.{described, managers_in, pdos_in, rows_of};
ghost use Rattle.sii_image.specs.steps.Contents.{content_sizes, contents_among};
ghost use Rattle.sii_image.specs.steps.Sums.{AddsPdos, AreWithin, sums_read};

use crate::rows::Row;
use sii_cats::kind::{RXPDOS, SYNC_MANAGERS, TXPDOS};
use sii_cats::{CatFault, Category, ChainFault, Manager, chain, front_entry, front_pdo, syncms};
use std::alloc::{AllocError, Global};

/// The type of a sync manager with outputs, sent by the master.
const PROCESS_DATA_OUT: u8 = 3;

/// The type of a sync manager with inputs, received by the master.
const PROCESS_DATA_IN: u8 = 4;

/// The most sync managers of a slave.
const MOST_MANAGERS: usize = 16;

/// The sync managers of a slave, and for each of their numbers, 0 to 15, the bits of the RXPDOs (outputs of the master) and the
/// TXPDOs (inputs) that are assigned to it.
#[derive(Drop)]
struct ProcessData {
    managers: Vec<Manager>,
    outputs: [u32; MOST_MANAGERS],
    inputs: [u32; MOST_MANAGERS],
    ghost few_managers: { length managers.items ≤ 16 },
}

/// The categories of a slave. Together their contents have at most as many words as the slave.
fn categories_of(alloc: Global, words: &[u16]) -> Result<Vec<Category>, ChainFault>
    requires least { 64 ≤ length words.now }
    requires most { length words.now ≤ 4096 }
    ensures exact { GivesChain (λ v. map (member_of words.now) v.items) words.now result }
    ensures inside { IfOk result (λ v. All (λ c. end_of c ≤ length words.now) v.items) }
    ensures few { IfOk result (λ v. content_sizes words.now v.items ≤ 4096) }
{
    chain(alloc, words)
}

/// The sync managers of the first SyncM category, or none without such a category.
fn first_managers(
    alloc: Global,
    words: &[u16],
    categories: &[Category],
) -> Result<Vec<Manager>, AllocError>
    requires { All (λ c. end_of c ≤ length words.now) categories.now }
    ensures { IfOk result (λ v. managers_in (contents_among words.now 41 categories.now) ≡ Ok v.items) }
{
    for category in categories {
        if category.kind == SYNC_MANAGERS {
            return syncms(alloc, category.content(words));
        }
    }
    Ok(Vec::new(alloc))
}

/// The length in bits of the entries that these words spell, four words each.
fn bits_of_entries(words: &[u16]) -> u32
    requires { length words.now ≤ 4096 }
    ensures bits { result ≡ sum_by (λ entry. entry.bit_length) (entries_in words.now) }
    ensures most { result ≤ 64 * length words.now }
{
    let mut bits = 0;
    let mut rest = words;
    while let Some((entry, after)) = front_entry(rest) {
        bits += u32::from(entry.bit_length);
        rest = after;
    }
    bits
}

/// Adds the length in bits of each PDO of a content of type `kind` to the sum of its sync manager, if there is one.
fn add_pdos(sums: &mut [u32], kind: u16, content: &[u16]) -> Result<(), CatFault>
    requires few { length content.now ≤ 4096 }
    requires room { AreWithin sums.old 262144 }
    ensures exact { AddsPdos kind sums.old sums.new (pdos_of content.now) result }
    ensures most { OnOk result ((most : ℕ) → AreWithin sums.old most → AreWithin sums.new (most + 64 * length content.now)) }
{
    let mut rest = content;
    while let Some((head, entries, after)) = front_pdo(kind, rest)? {
        let number = usize::from(head.manager);
        if number < sums.len() {
            sums[number] += bits_of_entries(entries);
        }
        rest = after;
    }
    Ok(())
}

/// The length in bits of the PDOs of all categories of a type, for each sync manager.
fn all_bits(
    kind: u16,
    words: &[u16],
    categories: &[Category],
) -> Result<[u32; MOST_MANAGERS], CatFault>
    requires inside { All (λ c. end_of c ≤ length words.now) categories.now }
    requires few { content_sizes words.now categories.now ≤ 4096 }
    ensures { Gives (λ sums. sums) kind result
        (sums_read (pdos_in (contents_among words.now kind categories.now))) }
{
    let mut sums = [0; MOST_MANAGERS];
    for category in categories {
        if category.kind == kind {
            add_pdos(&mut sums, kind, category.content(words))?;
        }
    }
    Ok(sums)
}

impl ProcessData {
    ghost use Rattle.sii_image.specs.steps.Described.{as_summed};
    ghost use Rattle.sii_image.specs.steps.Sums.{manager_sum, rows_summed, summed_read};
    ghost use Rattle.sii_image.specs.steps.Reading.{Reads};

    /// Reads the categories of a slave.
    fn read(alloc: Global, words: &[u16]) -> Result<Self, CatFault>
        requires least { 64 ≤ length words.now }
        requires most { length words.now ≤ 4096 }
        ensures { Reads as_summed result (summed_read (described words.now)) }
    {
        let categories = categories_of(alloc, words)?;
        let mut managers = first_managers(alloc, words, &categories)?;
        managers.truncate(MOST_MANAGERS);
        let outputs = all_bits(RXPDOS, words, &categories)?;
        let inputs = all_bits(TXPDOS, words, &categories)?;
        Ok(ProcessData {
            managers,
            outputs,
            inputs,
        })
    }

    /// The length in bits of the data of the sync manager with this number.
    fn bits(&self, number: u8, manager: Manager) -> u32
        requires { number < 16 }
        ensures { result ≡ manager_sum (as_summed self.now) number manager }
    {
        match manager.kind {
            PROCESS_DATA_OUT => self.outputs[usize::from(number)],
            PROCESS_DATA_IN => self.inputs[usize::from(number)],
            _ => 0,
        }
    }

    /// The sync managers that have data, as rows.
    fn rows(&self, alloc: Global) -> Result<Vec<Row>, AllocError>
        ensures { IfOk result (λ v. v.items ≡ rows_summed (as_summed self.now)) }
    {
        let mut rows = Vec::new(alloc);
        for (number, manager) in self.managers.iter().enumerate() {
            let number = number as u8;
            let bits = self.bits(number, *manager);
            if bits > 0 {
                rows.push(Row {
                    manager: number,
                    output: manager.kind == PROCESS_DATA_OUT,
                    bits,
                    start: manager.start,
                    control: manager.control,
                })?;
            }
        }
        Ok(rows)
    }
}

/// The rows of a slave with these words, or none if its categories can't be read.
#[tactic(auto, unfolding(crate::specs::ProcessData::rows_of))]
pub(crate) fn rows_of_words(alloc: Global, words: &[u16]) -> Result<Vec<Row>, AllocError>
    requires least { 64 ≤ length words.now }
    requires most { length words.now ≤ 4096 }
    ensures { IfOk result (λ rows. rows.items ≡ rows_of words.now) }
{
    match ProcessData::read(alloc, words) {
        Ok(data) => data.rows(alloc),
        Err(CatFault::Memory) => Err(AllocError),
        Err(_) => Ok(Vec::new(alloc)),
    }
}
