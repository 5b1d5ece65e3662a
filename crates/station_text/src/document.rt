//! Reads TOML documents, and the values at the keys of their tables.
ghost use Rattle.std.specs.Prelude.{◌≡◌, Some, map, option_map};
ghost use Rattle.toml.specs.Data.{as_array, get_member};
ghost use Rattle.toml.specs.Parse.{parse_document};
ghost use Rattle.toml.specs.View.{view, table_view};
ghost use Rattle.station_text.specs.Document.{HasNumberBelow, IsFlag, IsNumberBelow, has_only, is_known, table_at, text_at, values_at, values_of};
ghost use Rattle.station_text.specs.Reading.{Finds, Reads};

use crate::fault::ValueFault;
use std::alloc::Global;
use toml::{Table, Value};

/// Reads a TOML document; its top level is a table.
pub(crate) fn read_document(alloc: Global, text: &str) -> Result<Table, ValueFault>
    ensures { Reads ValueFault.Memory table_view (λ document. parse_document text.now ≡ Some document) result }
{
    match toml::table_from_str(alloc, text) {
        Ok(table) => Ok(table),
        Err(error) if error.is_memory() => Err(ValueFault::Memory),
        Err(_) => Err(ValueFault::Malformed),
    }
}

/// Whether a key is one of the known ones.
fn is_known(known: &[&str], key: &str) -> bool
    ensures { result ≡ is_known (map (λ one. one.now) known.now) key.now }
{
    known.iter().any(|one| *one == key)
}

/// Whether a table has no other keys than the known ones.
pub(crate) fn has_only(table: &Table, known: &[&str]) -> bool
    ensures { result ≡ has_only (map (λ one. one.now) known.now) (table_view table.now) }
{
    table.keys().all(|key| is_known(known, key.as_str()))
}

/// The value at a key; `None` where the key is absent.
pub(crate) fn find<'a>(table: &'a Table, key: &str) -> Option<&'a Value>
    ensures { option_map (λ value. view value.now) result ≡ get_member key.now (table_view table.now) }
{
    table.get(key)
}

/// The text at a key; `None` where the key is absent or its value is not a text.
pub(crate) fn find_text<'a>(table: &'a Table, key: &str) -> Option<&'a str>
    ensures { option_map (λ text. text.now) result ≡ text_at key.now (table_view table.now) }
{
    find(table, key)?.as_str()
}

/// The table at a key; `None` where the key is absent or its value is not a table.
pub(crate) fn find_table<'a>(table: &'a Table, key: &str) -> Option<&'a Table>
    ensures { option_map (λ found. table_view found.now) result ≡ table_at key.now (table_view table.now) }
{
    find(table, key)?.as_table()
}

/// The values of an array, in order; `None` for any other value.
pub(crate) fn values_of(value: &Value) -> Option<&[Value]>
    ensures { option_map (λ values. map view values.now) result ≡ option_map values_of (as_array (view value.now)) }
{
    match value.as_array() {
        Some(values) => Some(values.as_slice()),
        None => None,
    }
}

/// The values of the array at a key; `None` where the key is absent or its value is not an array.
pub(crate) fn find_values<'a>(table: &'a Table, key: &str) -> Option<&'a [Value]>
    ensures { option_map (λ values. map view values.now) result ≡ values_at key.now (table_view table.now) }
{
    values_of(find(table, key)?)
}

/// An integer of 0 to 4294967295; `None` for any other value.
pub(crate) fn read_wide_number(value: &Value) -> Option<u32>
    ensures { Finds (IsNumberBelow 4294967296 (view value.now)) result }
{
    u32::try_from(value.as_integer()?).ok()
}

/// An integer of 0 to 65535; `None` for any other value.
pub(crate) fn read_number(value: &Value) -> Option<u16>
    ensures { Finds (IsNumberBelow 65536 (view value.now)) result }
{
    u16::try_from(value.as_integer()?).ok()
}

/// The integer of 0 to 4294967295 at a key; `None` where the key is absent or has any other value.
pub(crate) fn find_wide_number(table: &Table, key: &str) -> Option<u32>
    ensures { Finds (HasNumberBelow 4294967296 key.now (table_view table.now)) result }
{
    read_wide_number(find(table, key)?)
}

/// The integer of 0 to 65535 at a key; `None` where the key is absent or has any other value.
pub(crate) fn find_number(table: &Table, key: &str) -> Option<u16>
    ensures { Finds (HasNumberBelow 65536 key.now (table_view table.now)) result }
{
    read_number(find(table, key)?)
}

/// The boolean at a key, false where the key is absent; `None` where its value is of another type.
pub(crate) fn find_flag(table: &Table, key: &str) -> Option<bool>
    ensures { Finds (IsFlag (get_member key.now (table_view table.now))) result }
{
    match find(table, key) {
        Some(value) => value.as_bool(),
        None => Some(false),
    }
}
