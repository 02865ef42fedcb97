ghost use Rattle.std.specs.Prelude.{◌≡◌, IfOk};

use core_host::{List, Name};
use std::alloc::{AllocError, Global};

/// A stage of the pipeline, from the first to the last.
#[derive(Clone, Copy, Debug, PartialEq, Eq)]
pub enum Stage {
    Decode,
    Execute,
    Memory,
    Writeback,
}

/// The value of a parameter in a configuration: an integer, a truth value or a text.
#[derive(Debug, Drop)]
pub enum ParamValue {
    Num(i64),
    Flag(bool),
    Word(Name),
}

/// A parameter of an entry, by its key.
#[derive(Debug, Drop)]
pub struct Param {
    pub key: Name,
    pub value: ParamValue,
}

/// An entry of a configuration: the kind of a plug-in, and its parameters. Their keys differ, and stand in the order of
/// their bytes.
#[derive(Debug, Drop)]
pub struct PlugEntry {
    pub kind: Name,
    pub params: List<Param>,
}

/// The instruction set that a configuration asks for: what its entries claim, or one of the named sets, whose every
/// instruction must be claimed and no other (RISC-V Unprivileged ISA 20191213, chapter 27).
#[derive(Clone, Copy, Debug, PartialEq, Eq)]
pub enum Isa {
    Claimed,
    Rv32i,
    Rv32iZicsr,
    Rv32iZifencei,
    Rv32iZicsrZifencei,
    Rv32im,
    Rv32imZicsr,
    Rv32imZifencei,
    Rv32imZicsrZifencei,
}

/// The shape of a core: its instruction set, the pc out of reset, how many stages it has, and in which stage an
/// instruction commits.
#[derive(Clone, Copy, Debug, PartialEq, Eq)]
pub struct CoreShape {
    pub isa: Isa,
    pub reset_pc: u32,
    pub stages: u32,
    pub commit: Stage,
}

/// The memory of a run: its first address and how many bytes it has, both multiples of 4.
#[derive(Clone, Copy, Debug, PartialEq, Eq)]
pub struct MemShape {
    pub base: u32,
    pub size: u32,
}

/// A configuration: the core's shape, the memory, and the entries in the order of the text.
#[derive(Debug, Drop)]
pub struct Config {
    pub shape: CoreShape,
    pub mem: MemShape,
    pub entries: List<PlugEntry>,
}

/// A name in memory of its own.
///
/// # Errors
/// `AllocError` where memory was refused.
pub fn copy_name(alloc: Global, name: &Name) -> Result<Name, AllocError>
    ensures { IfOk result (λ c. c ≡ name.now) }
{
    Ok(Name::of(String::from_str(alloc, name.text().as_str())?))
}

impl ParamValue {
    /// The same value in memory of its own.
    ///
    /// # Errors
    /// `AllocError` where memory was refused.
    pub fn copy(&self, alloc: Global) -> Result<ParamValue, AllocError>
        ensures { IfOk result (λ c. c ≡ self.now) }
    {
        match self {
            ParamValue::Num(n) => Ok(ParamValue::Num(*n)),
            ParamValue::Flag(b) => Ok(ParamValue::Flag(*b)),
            ParamValue::Word(w) => Ok(ParamValue::Word(copy_name(alloc, w)?)),
        }
    }
}

impl Param {
    /// The same parameter in memory of its own.
    ///
    /// # Errors
    /// `AllocError` where memory was refused.
    pub fn copy(&self, alloc: Global) -> Result<Param, AllocError>
        ensures { IfOk result (λ c. c ≡ self.now) }
    {
        Ok(Param {
            key: copy_name(alloc, &self.key)?,
            value: self.value.copy(alloc)?,
        })
    }
}

impl PlugEntry {
    /// The same entry in memory of its own.
    ///
    /// # Errors
    /// `AllocError` where memory was refused.
    pub fn copy(&self, alloc: Global) -> Result<PlugEntry, AllocError>
        ensures { IfOk result (λ c. c ≡ self.now) }
    {
        let kind = copy_name(alloc, &self.kind)?;
        let params = copy_params(alloc, self.params.items())?;
        Ok(PlugEntry {
            kind,
            params: List::of(params),
        })
    }
}

/// The same parameters in memory of their own.
fn copy_params(alloc: Global, params: &Vec<Param>) -> Result<Vec<Param>, AllocError>
    ensures { IfOk result (λ c. c.items ≡ params.now.items) }
{
    let mut copies = Vec::new(alloc);
    for param in params.iter() {
        copies.push(param.copy(alloc)?)?;
    }
    Ok(copies)
}
