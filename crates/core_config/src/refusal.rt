ghost use Rattle.std.specs.Prelude.{◌≡◌, ◌⊎◌, Option};

use core_host::Name;
use stage_map::ParamValue;
use std::alloc::{AllocError, Global};
use thiserror::Error;

/// What is wanted of a key.
#[derive(Clone, Copy, Debug, PartialEq, Eq)]
pub enum Want {
    Integer,
    Text,
    Table,
    /// An array of tables.
    Tables,
    /// An integer, a boolean or a text.
    Scalar,
    /// No such key.
    NoKey,
}

/// A key of a configuration: of the entry with this number, or else of the text. A key of `memory` is named with
/// `memory.` before it.
#[derive(Debug, Drop)]
pub struct KeyPath {
    pub entry: Option<u32>,
    pub key: Name,
}

/// Why a configuration is refused.
#[derive(Debug, Drop, Error)]
pub enum ConfigRefusal {
    /// It has more bytes than the most that it may have.
    #[error("the configuration is too long")]
    TooLong { len: u64 },
    /// It is no UTF-8 or no TOML.
    #[error("the configuration is no text of TOML")]
    Text,
    /// The key is to be something else, or is not to be there.
    #[error("a key of the configuration has another type")]
    Shape { key: KeyPath, want: Want },
    /// The value of the key is none of those allowed.
    #[error("a value of the configuration is not allowed")]
    Range { key: KeyPath, found: ParamValue },
    #[error("out of memory")]
    NoMemory,
}

impl From<AllocError> for ConfigRefusal {
    ghost use Rattle.std.specs.Prelude.{◌≡◌};
    ghost use Rattle.core_config.specs.declared.refusal.ConfigRefusal.TheVariants.{NoMemory};

    ghost from_gives = { λ _ e. e ≡ NoMemory };

    fn from(_error: AllocError) -> ConfigRefusal {
        ConfigRefusal::NoMemory
    }
}

/// The refusal of a key that is to be something else, or of a lack of memory.
pub fn shape_refusal(alloc: Global, entry: Option<u32>, key: &str, want: Want) -> ConfigRefusal
    ensures { (result ≡ ConfigRefusal.Shape (record { entry = entry; key = key.now }) want) ⊎ (result ≡ ConfigRefusal.NoMemory) }
{
    match String::from_str(alloc, key) {
        Ok(key) => {
            let key = KeyPath {
                entry,
                key: Name::of(key),
            };
            ConfigRefusal::Shape { key, want }
        }
        Err(_) => ConfigRefusal::NoMemory,
    }
}

/// The refusal of a key whose number is outside, or of a lack of memory.
pub fn number_refusal(alloc: Global, key: &str, found: i64) -> ConfigRefusal
    ensures { (result ≡ ConfigRefusal.Range (record { entry = None; key = key.now }) (ParamValue.Num found)) ⊎ (result ≡ ConfigRefusal.NoMemory) }
{
    match String::from_str(alloc, key) {
        Ok(key) => {
            let key = KeyPath {
                entry: None,
                key: Name::of(key),
            };
            let found = ParamValue::Num(found);
            ConfigRefusal::Range { key, found }
        }
        Err(_) => ConfigRefusal::NoMemory,
    }
}

/// The refusal of a key whose text is outside, or of a lack of memory.
pub fn text_refusal(alloc: Global, entry: Option<u32>, key: &str, found: &str) -> ConfigRefusal
    ensures { (result ≡ ConfigRefusal.Range (record { entry = entry; key = key.now }) (ParamValue.Word found.now)) ⊎ (result ≡ ConfigRefusal.NoMemory) }
{
    let key = String::from_str(alloc, key);
    let found = String::from_str(alloc, found);
    match (key, found) {
        (Ok(key), Ok(found)) => {
            let key = KeyPath {
                entry,
                key: Name::of(key),
            };
            let found = ParamValue::Word(Name::of(found));
            ConfigRefusal::Range { key, found }
        }
        _ => ConfigRefusal::NoMemory,
    }
}
