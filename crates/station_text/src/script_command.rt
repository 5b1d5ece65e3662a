//! Reads one command of a script file.
ghost use Rattle.std.specs.Prelude.{◌≡◌, codes, map, option_map, IsSomeAnd, Some};
ghost use Rattle.std.specs.List.{AllZip};
ghost use Rattle.toml.specs.Data.{as_table, get_member};
ghost use Rattle.toml.specs.View.{view, table_view};
ghost use Rattle.station_text.specs.Document.{IsNumberBelow, table_at};
ghost use Rattle.station_text.specs.Reading.{Finds, Reads};
ghost use Rattle.station_text.specs.ScriptText.{SpellsAlias, SpellsCategory, SpellsCommand, SpellsEdit, SpellsExpect, SpellsGroup, SpellsGroupEdit, SpellsGuard, SpellsGuards, SpellsGuarded, SpellsImage, SpellsSwap, SpellsTableCommand};
ghost use Rattle.station_text.specs.ScriptText.{own_guard, own_guard_at};

use crate::document::{
    find, find_flag, find_number, find_table, find_text, find_values, find_wide_number, has_only,
    read_number,
};
use crate::fault::{ValueFault, needed};
use crate::hexadecimal::read_hex_words;
use sii_edit::{Expect, WordList};
use std::alloc::Global;
use toml::{Table, Value};

/// A command of a script. Its images are still file names.
#[derive(Drop)]
pub enum ScriptCommand {
    /// One edit of one slave.
    One(ScriptEdit),
    /// Swaps the aliases of the slaves `a` and `b`, each a position on the line, from 0.
    Swap { a: u16, b: u16 },
    /// Several edits that are accepted or refused as one command; or one that expects an identity.
    Group(Vec<ScriptGroupEdit>),
}

/// A change of one slave's EEPROM. `slave` is its position on the line, from 0.
#[derive(Drop)]
pub enum ScriptEdit {
    /// Sets the configured station alias.
    Alias {
        /// The slave's position.
        slave: u16,
        /// The new alias.
        value: u16,
    },
    /// Replaces or adds a category or, without words, removes it.
    Category {
        /// The slave's position.
        slave: u16,
        /// The type of the category.
        kind: u16,
        /// The words of its content.
        words: WordList,
    },
    /// Writes the words of an image.
    Image {
        /// The slave's position.
        slave: u16,
        /// The name of the image file.
        file: String,
        /// Whether it may be that of another device than the slave is, or shorter.
        replace: bool,
    },
}

/// An edit of a group, with the identity that the slave is expected to have.
#[derive(Drop)]
pub struct ScriptGroupEdit {
    /// The expected identity; `None` where the edit is not guarded.
    pub expect: Option<Expect>,
    /// The edit.
    pub edit: ScriptEdit,
}

/// Reads a command: a table with one key, which names the kind of the command. An edit that expects an identity is a group of one.
pub(crate) fn read_command(alloc: Global, value: &Value) -> Result<ScriptCommand, ValueFault>
    ensures { Reads ValueFault.Memory (λ command. command) (SpellsCommand (view value.now)) result }
{
    read_table_command(alloc, needed!(value.as_table()))
}

#[tactic(auto, using(crate::proofs::ScriptRefusals::one_plain, crate::proofs::ScriptRefusals::one_guarded, crate::proofs::ScriptRefusals::expect_beside))]
fn read_table_command(alloc: Global, table: &Table) -> Result<ScriptCommand, ValueFault>
    ensures { Reads ValueFault.Memory (λ command. command) (SpellsTableCommand (table_view table.now)) result }
{
    if has_only(table, &["swap"]) {
        let (a, b) = needed!(read_swap(table));
        return Ok(ScriptCommand::Swap { a, b });
    }
    if has_only(table, &["group"]) {
        return Ok(ScriptCommand::Group(read_group(alloc, table)?));
    }
    if let Some(_guard) = find(table, "expect") {
        return Err(ValueFault::Malformed);
    }
    let ScriptGroupEdit { expect, edit } = read_guarded_edit(alloc, table)?;
    let Some(guard) = expect else {
        return Ok(ScriptCommand::One(edit));
    };
    let mut edits = Vec::with_capacity(alloc, 1)?;
    edits.push(ScriptGroupEdit {
        expect: Some(guard),
        edit,
    })?;
    Ok(ScriptCommand::Group(edits))
}

/// Reads `swap = [0, 1]`.
fn read_swap(table: &Table) -> Option<(u16, u16)>
    ensures { Finds (λ pair. SpellsSwap (table_view table.now) pair.0 pair.1) result }
{
    match find_values(table, "swap")? {
        [a, b] => read_pair(a, b),
        _ => None,
    }
}

/// Two integers of 0 to 65535.
fn read_pair(a: &Value, b: &Value) -> Option<(u16, u16)>
    ensures { Finds (λ pair. IsNumberBelow 65536 (view a.now) pair.0 × IsNumberBelow 65536 (view b.now) pair.1) result }
{
    Some((read_number(a)?, read_number(b)?))
}

/// Reads `group = [{ alias = { slave = 0, value = 1 } }]`.
fn read_group(alloc: Global, table: &Table) -> Result<Vec<ScriptGroupEdit>, ValueFault>
    ensures { Reads ValueFault.Memory (λ edits. edits.items) (SpellsGroup (table_view table.now)) result }
{
    read_group_edits(alloc, needed!(find_values(table, "group")))
}

fn read_group_edits(alloc: Global, values: &[Value]) -> Result<Vec<ScriptGroupEdit>, ValueFault>
    ensures { Reads ValueFault.Memory (λ edits. edits.items) (AllZip SpellsGroupEdit (map view values.now)) result }
{
    let mut edits = Vec::with_capacity(alloc, values.len())?;
    for value in values {
        edits.push(read_group_edit(alloc, value)?)?;
    }
    Ok(edits)
}

/// Reads an edit of a group: a table with one edit, and `expect` beside it or among its fields if the edit is guarded.
fn read_group_edit(alloc: Global, value: &Value) -> Result<ScriptGroupEdit, ValueFault>
    ensures { Reads ValueFault.Memory (λ one. one) (SpellsGroupEdit (view value.now)) result }
{
    read_guarded_edit(alloc, needed!(value.as_table()))
}

fn read_guarded_edit(alloc: Global, table: &Table) -> Result<ScriptGroupEdit, ValueFault>
    ensures { Reads ValueFault.Memory (λ one. one) (SpellsGuarded (table_view table.now)) result }
{
    let expect = read_guard(table)?;
    let edit = read_edit(alloc, table)?;
    Ok(ScriptGroupEdit { expect, edit })
}

/// The identity that an edit expects, if there is one: at the key `expect` beside the edit, or among its fields, and not in both places.
#[tactic(auto, using(crate::proofs::ScriptRefusals::no_guards, crate::proofs::ScriptRefusals::guard_beside, crate::proofs::ScriptRefusals::guard_inside, crate::proofs::ScriptRefusals::two_guards))]
fn read_guard(table: &Table) -> Result<Option<Expect>, ValueFault>
    ensures { Reads ValueFault.Memory (λ expect. expect)
        (SpellsGuards (get_member (codes "expect") (table_view table.now)) (own_guard (table_view table.now))) result }
{
    match (find(table, "expect"), find_own_guard(table)) {
        (None, None) => Ok(None),
        (Some(guard), None) => read_identity(guard),
        (None, Some(guard)) => read_identity(guard),
        (Some(_), Some(_)) => Err(ValueFault::Malformed),
    }
}

/// Reads the identity that is expected.
#[tactic(auto, using(crate::proofs::ScriptRefusals::no_identity))]
fn read_identity(guard: &Value) -> Result<Option<Expect>, ValueFault>
    ensures { Reads ValueFault.Memory (λ expect. expect) (SpellsGuard (Some (view guard.now))) result }
{
    Ok(Some(needed!(read_expect(guard))))
}

/// The value at the key `expect` among the fields of the edit.
#[tactic(auto, using(crate::proofs::ScriptRefusals::guard_first, crate::proofs::ScriptRefusals::guard_second, crate::proofs::ScriptRefusals::guard_third))]
fn find_own_guard(table: &Table) -> Option<&Value>
    ensures { option_map (λ value. view value.now) result ≡ own_guard (table_view table.now) }
{
    if let Some(guard) = find_own_guard_at(table, "alias") {
        return Some(guard);
    }
    match find_own_guard_at(table, "category") {
        Some(guard) => Some(guard),
        None => find_own_guard_at(table, "image"),
    }
}

/// The value at the key `expect` of the table at a key.
fn find_own_guard_at<'a>(table: &'a Table, key: &str) -> Option<&'a Value>
    ensures { option_map (λ value. view value.now) result ≡ own_guard_at key.now (table_view table.now) }
{
    match find_table(table, key) {
        Some(fields) => find(fields, "expect"),
        None => None,
    }
}

/// Reads `{ vendor = 2, product = 0, revision = 0 }`.
fn read_expect(value: &Value) -> Option<Expect>
    ensures { Finds (λ expect. IsSomeAnd (as_table (view value.now)) (λ fields. SpellsExpect fields expect)) result }
{
    let table = value.as_table()?;
    if !has_only(table, &["vendor", "product", "revision"]) {
        return None;
    }
    Some(Expect {
        vendor: find_wide_number(table, "vendor")?,
        product: find_wide_number(table, "product")?,
        revision: find_wide_number(table, "revision")?,
    })
}

/// Reads the edit at one of the keys `alias`, `category` and `image`. The only other key may be `expect`.
fn read_edit(alloc: Global, table: &Table) -> Result<ScriptEdit, ValueFault>
    ensures { Reads ValueFault.Memory (λ edit. edit) (SpellsEdit (table_view table.now)) result }
{
    if has_only(table, &["alias", "expect"]) {
        return read_alias(table);
    }
    if has_only(table, &["category", "expect"]) {
        return read_category(alloc, table);
    }
    if has_only(table, &["image", "expect"]) {
        return read_image_edit(alloc, table);
    }
    Err(ValueFault::Malformed)
}

/// Reads `alias = { slave = 0, value = 1 }`.
fn read_alias(table: &Table) -> Result<ScriptEdit, ValueFault>
    ensures { Reads ValueFault.Memory (λ edit. edit) (λ edit.
        IsSomeAnd (table_at (codes "alias") (table_view table.now)) (λ fields. SpellsAlias fields edit)) result }
{
    let fields = needed!(find_table(table, "alias"));
    if !has_only(fields, &["slave", "value", "expect"]) {
        return Err(ValueFault::Malformed);
    }
    let slave = needed!(find_number(fields, "slave"));
    let value = needed!(find_number(fields, "value"));
    Ok(ScriptEdit::Alias { slave, value })
}

/// Reads `category = { slave = 0, kind = 51, content = "0016" }`. The content is the bytes of whole words, low byte first.
fn read_category(alloc: Global, table: &Table) -> Result<ScriptEdit, ValueFault>
    ensures { Reads ValueFault.Memory (λ edit. edit) (λ edit.
        IsSomeAnd (table_at (codes "category") (table_view table.now)) (λ fields. SpellsCategory fields edit)) result }
{
    let fields = needed!(find_table(table, "category"));
    if !has_only(fields, &["slave", "kind", "content", "expect"]) {
        return Err(ValueFault::Malformed);
    }
    let slave = needed!(find_number(fields, "slave"));
    let kind = needed!(find_number(fields, "kind"));
    let content = needed!(find_text(fields, "content"));
    let words = WordList::from_vec(read_hex_words(alloc, content)?);
    Ok(ScriptEdit::Category { slave, kind, words })
}

/// Reads `image = { slave = 0, file = "new.bin" }`. With `replace = true` the image may be that of another device.
fn read_image_edit(alloc: Global, table: &Table) -> Result<ScriptEdit, ValueFault>
    ensures { Reads ValueFault.Memory (λ edit. edit) (λ edit.
        IsSomeAnd (table_at (codes "image") (table_view table.now)) (λ fields. SpellsImage fields edit)) result }
{
    let fields = needed!(find_table(table, "image"));
    if !has_only(fields, &["slave", "file", "replace", "expect"]) {
        return Err(ValueFault::Malformed);
    }
    let slave = needed!(find_number(fields, "slave"));
    let name = needed!(find_text(fields, "file"));
    let replace = needed!(find_flag(fields, "replace"));
    let file = String::from_str(alloc, name)?;
    Ok(ScriptEdit::Image {
        slave,
        file,
        replace,
    })
}
