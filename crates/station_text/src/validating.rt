//! What is wrong in a line file or a script, in the order in which it is read. The text's strings and comments are blanked.

use crate::flaws::{Flaw, Found, Spot};
use crate::forms::{
    COMMAND, EDIT, EDIT_KINDS, EDITS, EXPECT, Field, Form, LINE, SCRIPT, SLAVE, Shape,
};
use crate::places::Part;
use sii_words::MAX_SLAVES;
use toml::{Table, Value};

/// What is validated, or what is wrong with it.
type Validated<'a, T> = Result<T, Spot<'a>>;

/// Validates a line file with this document.
pub(crate) fn validate_line<'a>(text: Part<'_>, table: &'a Table) -> Validated<'a, ()> {
    validate_table(text, table, LINE)?;
    let slaves = array_at(table, "slave");
    if slaves.is_empty() || slaves.len() > MAX_SLAVES {
        return Err(Flaw::Slaves(slaves.len()).within(text));
    }
    for (index, slave) in slaves.iter().enumerate() {
        validate_entry(text.entry("slave", index), slave, SLAVE)?;
    }
    Ok(())
}

/// Validates a script with this document, whose first bad command is the one of this place, from 0.
pub(crate) fn validate_script<'a>(
    text: Part<'_>,
    table: &'a Table,
    command: usize,
) -> Validated<'a, ()> {
    validate_table(text, table, SCRIPT)?;
    match array_at(table, "command").get(command) {
        Some(value) => validate_command(text.entry("command", command), value),
        None => Ok(()),
    }
}

/// Validates the command that stands in this part of a text, in the order in which it is read.
fn validate_command<'a>(part: Part<'_>, command: &'a Value) -> Validated<'a, ()> {
    let validated = validate_entry(part, command, COMMAND);
    if let Err(
        Spot {
            flaw: Flaw::Unknown("expect", _),
            ..
        },
    ) = validated
    {
        return Err(Flaw::Beside.within(part));
    }
    let table = validated?;
    validate_kinds(part, table, COMMAND)?;
    for (index, edit) in array_at(table, "group").iter().enumerate() {
        let part = part.entry("group", index);
        let table = validate_entry(part, edit, EDIT)?;
        validate_fields(part, table, "expect", EXPECT)?;
        validate_kinds(part, table, EDIT_KINDS)?;
        validate_edit(part, table)?;
    }
    validate_edit(part, table)
}

/// Refuses a table that has none of the keys of this form, or two of them.
fn validate_kinds<'a>(part: Part<'_>, table: &Table, form: Form) -> Validated<'a, ()> {
    let mut found = form
        .0
        .iter()
        .map(|field| field.key())
        .filter(|key| table.contains_key(*key));
    match (found.next(), found.next()) {
        (None, _) => Err(Flaw::NoneOf(form).within(part)),
        (Some(one), Some(other)) => Err(Flaw::Two(one, other).within(part)),
        _ => Ok(()),
    }
}

/// Validates the fields of the edit that a table has, and what stands at `expect` among them.
fn validate_edit<'a>(part: Part<'_>, table: &'a Table) -> Validated<'a, ()> {
    for (key, form) in EDITS {
        let Some(fields) = validate_fields(part, table, key, form)? else {
            continue;
        };
        if fields.contains_key("expect") && table.contains_key("expect") {
            return Err(Flaw::Twice.within(part));
        }
        validate_fields(part.from_key(key), fields, "expect", EXPECT)?;
    }
    Ok(())
}

/// Validates the table at a key, if there is one.
fn validate_fields<'a>(
    part: Part<'_>,
    table: &'a Table,
    key: &str,
    form: Form,
) -> Validated<'a, Option<&'a Table>> {
    let Some(fields) = table.get(key) else {
        return Ok(None);
    };
    Ok(Some(validate_entry(part.from_key(key), fields, form)?))
}

/// Validates the entry of an array, which has to be a table of this form and stands in this part of a text.
fn validate_entry<'a>(part: Part<'_>, value: &'a Value, form: Form) -> Validated<'a, &'a Table> {
    let Some(table) = value.as_table() else {
        return Err(Flaw::NoTable(Found::of(value, Shape::Table)).within(part));
    };
    validate_table(part, table, form)?;
    Ok(table)
}

/// Validates a table of this form, in this part of a text. Its first flaw is an unknown key, else the first key in the form's order that is missing
/// or has a value of another shape.
fn validate_table<'a>(part: Part<'_>, table: &'a Table, form: Form) -> Validated<'a, ()> {
    let is_known = |key: &String| form.0.iter().any(|field| field.key() == key.as_str());
    if let Some(key) = table.keys().find(|key| !is_known(key)) {
        return Err(Flaw::Unknown(key.as_str(), form).within(part));
    }
    for field in form.0 {
        match (table.get(field.key()), *field) {
            (Some(value), Field::Needed(key, shape) | Field::Optional(key, shape)) => {
                if !shape.fits(value) {
                    return Err(Flaw::Wrong(key, Found::of(value, shape), shape).within(part));
                }
            }
            (None, Field::Needed(key, _)) => return Err(Flaw::Missing(key).within(part)),
            (None, Field::Optional(..)) => {}
        }
    }
    Ok(())
}

/// The values of the array at a key; none where there is no array.
fn array_at<'a>(table: &'a Table, key: &str) -> &'a [Value] {
    let array = table.get(key).and_then(|value| value.as_array());
    array.map_or(&[], |values| values.as_slice())
}
