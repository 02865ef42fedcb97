ghost use Rattle.std.specs.Prelude.{◌≡◌, IfOk};

use crate::Stage;
use crate::config::copy_name;
use core_host::Name;
use std::alloc::{AllocError, Global};
use thiserror::Error;

/// A value that the pipeline carries from stage to stage, by its name, of `width` bits.
#[derive(Debug, Drop)]
pub struct Key {
    pub name: Name,
    pub width: u32,
}

/// A write or a read of a key in a stage.
#[derive(Debug, Drop)]
pub struct KeyUse {
    pub key: Key,
    pub at: Stage,
    pub writes: bool,
}

/// A use of a key by the entry with this number.
#[derive(Debug, Drop)]
pub struct PlugUse {
    pub entry: u32,
    pub at: KeyUse,
}

/// Why stages and keys are refused.
#[derive(Debug, Drop, Error)]
pub enum StageRefusal {
    /// The pipeline has no such stage: of the commit where `plug` is none, else of this entry.
    #[error("the pipeline lacks a stage")]
    StageAbsent {
        plug: Option<u32>,
        stage: Stage,
    },
    /// The entry `reader` reads a key at a stage before that in which `writer` writes it, or that nothing writes.
    #[error("a key is read before it is written")]
    StageOrder {
        key: Name,
        reader: u32,
        writer: Option<u32>,
    },
    /// Two entries write one key.
    #[error("a key is written twice")]
    KeyTwice {
        key: Name,
        a: u32,
        b: u32,
    },
    #[error("out of memory")]
    NoMemory,
}

impl Key {
    /// The same key in memory of its own.
    ///
    /// # Errors
    /// `AllocError` where memory was refused.
    pub fn copy(&self, alloc: Global) -> Result<Key, AllocError>
        ensures { IfOk result (λ c. c ≡ self.now) }
    {
        Ok(Key {
            name: copy_name(alloc, &self.name)?,
            width: self.width,
        })
    }
}

impl KeyUse {
    /// The same use in memory of its own.
    ///
    /// # Errors
    /// `AllocError` where memory was refused.
    pub fn copy(&self, alloc: Global) -> Result<KeyUse, AllocError>
        ensures { IfOk result (λ c. c ≡ self.now) }
    {
        Ok(KeyUse {
            key: self.key.copy(alloc)?,
            at: self.at,
            writes: self.writes,
        })
    }
}
