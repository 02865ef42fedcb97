ghost use Rattle.std.specs.Prelude.{◌≡◌, ◌≤◌, option_map, IfOk, vec_len};
ghost use Rattle.std.specs.List.{list_all};
ghost use Rattle.toml.specs.View.{table_view, array_view, view};
ghost use Rattle.core_config.specs.Config.{IsAnswer, is_kind, is_kind_byte, kind_of, scalar, params_of, entry_of, entries_of, is_table, item_of, are_tables, tables_within, then_read, plugs_of};

use crate::keys::{KeySet, least_refused};
use crate::numbers::find;
use crate::refusal::{ConfigRefusal, Want, number_refusal, shape_refusal, text_refusal};
use core_host::{List, Name};
use stage_map::{Param, ParamValue, PlugEntry};
use std::alloc::{AllocError, Global};
use toml::value::Array;
use toml::{Table, Value};

/// The most entries that a configuration may have.
const MOST_ENTRIES: usize = 32;

/// The most bytes that a kind may have.
const MOST_KIND: usize = 32;

/// Reads `plugin`, and then its entries in order.
pub fn read_plugs(alloc: Global, table: &Table) -> Result<List<PlugEntry>, ConfigRefusal>
    ensures { IsAnswer result (plugs_of (table_view table.now)) }
{
    match find(table, "plugin") {
        None => Ok(List::of(Vec::new(alloc))),
        Some(Value::Array(array)) => read_array(alloc, array),
        Some(_) => Err(shape_refusal(alloc, None, "plugin", Want::Tables)),
    }
}

/// Reads an array of tables, and then its entries in order.
fn read_array(alloc: Global, array: &Array) -> Result<List<PlugEntry>, ConfigRefusal>
    ensures { IsAnswer result (then_read (tables_within (array_view array.now)) (entries_of 0)) }
{
    if !are_tables(array) {
        return Err(shape_refusal(alloc, None, "plugin", Want::Tables));
    }
    if array.len() > MOST_ENTRIES {
        return Err(number_refusal(alloc, "plugin", array.len() as i64));
    }
    read_entries(alloc, array)
}

/// Whether each item is a table.
fn are_tables(array: &Array) -> bool
    ensures { result ≡ are_tables (array_view array.now) }
{
    for item in array {
        if !is_table(item) {
            return false;
        }
    }
    true
}

/// Whether a value is a table.
fn is_table(value: &Value) -> bool
    ensures { result ≡ is_table (view value.now) }
{
    matches!(value, Value::Table(_))
}

/// Reads the entries in order.
fn read_entries(alloc: Global, array: &Array) -> Result<List<PlugEntry>, ConfigRefusal>
    requires { vec_len array.now ≤ 32 }
    ensures { IsAnswer result (entries_of 0 (array_view array.now)) }
{
    let mut entries = Vec::new(alloc);
    for (number, item) in array.iter().enumerate() {
        let entry = read_item(alloc, number as u32, item)?;
        if entries.push(entry).is_err() {
            return Err(ConfigRefusal::NoMemory);
        }
    }
    Ok(List::of(entries))
}

/// Reads the item with this number as an entry.
fn read_item(alloc: Global, number: u32, item: &Value) -> Result<PlugEntry, ConfigRefusal>
    ensures { IsAnswer result (item_of number (view item.now)) }
{
    match item {
        Value::Table(table) => read_entry(alloc, number, table),
        _ => Err(shape_refusal(alloc, None, "plugin", Want::Tables)),
    }
}

/// Reads the entry with this number: its kind, and then its other keys.
fn read_entry(alloc: Global, number: u32, table: &Table) -> Result<PlugEntry, ConfigRefusal>
    ensures { IsAnswer result (entry_of number (table_view table.now)) }
{
    let kind = read_kind(alloc, number, table)?;
    match least_refused(table, KeySet::OfEntry) {
        Some(key) => Err(shape_refusal(alloc, Some(number), key, Want::Scalar)),
        None => {
            let params = read_params(alloc, table)?;
            Ok(PlugEntry { kind, params })
        }
    }
}

/// Reads the kind of the entry with this number.
fn read_kind(alloc: Global, number: u32, table: &Table) -> Result<Name, ConfigRefusal>
    ensures { IsAnswer result (kind_of number (table_view table.now)) }
{
    match find(table, "kind") {
        Some(Value::String(kind)) => {
            let kind = kind.as_str();
            if !is_kind(kind) {
                return Err(text_refusal(alloc, Some(number), "kind", kind));
            }
            Ok(Name::of(String::from_str(alloc, kind)?))
        }
        _ => Err(shape_refusal(alloc, Some(number), "kind", Want::Text)),
    }
}

/// Whether a text may be a kind.
fn is_kind(text: &str) -> bool
    ensures { result ≡ is_kind text.now }
{
    let bytes = text.as_bytes();
    1 <= bytes.len() && bytes.len() <= MOST_KIND && are_kind_bytes(bytes)
}

/// Whether each byte may stand in a kind.
fn are_kind_bytes(bytes: &[u8]) -> bool
    ensures { result ≡ list_all is_kind_byte bytes.now }
{
    bytes.iter().all(|b| is_kind_byte(*b))
}

/// Whether a byte may stand in a kind: `a` to `z`, `0` to `9`, or `_`.
fn is_kind_byte(b: u8) -> bool
    ensures { result ≡ is_kind_byte b }
{
    b'a' <= b && b <= b'z' || b'0' <= b && b <= b'9' || b == b'_'
}

/// Reads the parameters of an entry: its scalars but `kind`, in the order of the bytes of their keys.
fn read_params(alloc: Global, table: &Table) -> Result<List<Param>, AllocError>
    ensures { IfOk result (λ params. params ≡ params_of (table_view table.now)) }
{
    let mut params = Vec::new(alloc);
    for (key, value) in table.iter() {
        if key.as_str() != "kind" {
            if let Some(value) = read_scalar(alloc, value)? {
                let key = Name::of(String::from_str(alloc, key.as_str())?);
                params.push(Param { key, value })?;
            }
        }
    }
    Ok(List::of(params))
}

/// Reads a scalar, if the value is one.
fn read_scalar(alloc: Global, value: &Value) -> Result<Option<ParamValue>, AllocError>
    ensures { IfOk result (λ found. found ≡ scalar (view value.now)) }
{
    match value {
        Value::Integer(number) => Ok(Some(ParamValue::Num(*number))),
        Value::Boolean(flag) => Ok(Some(ParamValue::Flag(*flag))),
        Value::String(text) => {
            let text = String::from_str(alloc, text.as_str())?;
            Ok(Some(ParamValue::Word(Name::of(text))))
        }
        _ => Ok(None),
    }
}
