ghost use Rattle.std.specs.Prelude.{◌≡◌, option_map};
ghost use Rattle.toml.specs.View.{table_view, view};
ghost use Rattle.core_config.specs.Config.{is_text_key, is_memory_key, is_scalar, is_refused, least_refused};

use toml::{Table, Value};

/// The keys of the text, of its table `memory`, or of an entry.
#[derive(Clone, Copy)]
pub enum KeySet {
    OfText,
    OfMemory,
    OfEntry,
}

/// The least key, in the order of bytes, that is refused.
pub fn least_refused(table: &Table, set: KeySet) -> Option<&str>
    ensures { option_map (λ key. key.now) result ≡ least_refused set (table_view table.now) }
{
    for (key, value) in table.iter() {
        if is_refused(set, key.as_str(), value) {
            return Some(key.as_str());
        }
    }
    None
}

/// Whether a key is refused, by its name and its value.
fn is_refused(set: KeySet, key: &str, value: &Value) -> bool
    ensures { result ≡ is_refused set key.now (view value.now) }
{
    match set {
        KeySet::OfText => !is_text_key(key),
        KeySet::OfMemory => !is_memory_key(key),
        KeySet::OfEntry => key != "kind" && !is_scalar(value),
    }
}

/// Whether the text has such a key.
fn is_text_key(key: &str) -> bool
    ensures { result ≡ is_text_key key.now }
{
    key == "schema"
        || key == "isa"
        || key == "reset_pc"
        || key == "stages"
        || key == "commit"
        || key == "memory"
        || key == "plugin"
}

/// Whether the table `memory` has such a key.
fn is_memory_key(key: &str) -> bool
    ensures { result ≡ is_memory_key key.now }
{
    key == "base" || key == "size"
}

/// Whether a value is an integer, a boolean or a text.
fn is_scalar(value: &Value) -> bool
    ensures { result ≡ is_scalar (view value.now) }
{
    matches!(
        value,
        Value::Integer(_) | Value::Boolean(_) | Value::String(_)
    )
}
