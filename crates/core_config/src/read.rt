ghost use Rattle.std.specs.Prelude.{◌≡◌, ◌⊎◌, Err, IfOk, codes, ◌++◌, option_map};
ghost use Rattle.std.specs.Result.{result_map_both};
ghost use Rattle.toml.specs.View.{table_view};
ghost use Rattle.core_config.specs.Allowed.{IsConfig};
ghost use Rattle.core_config.specs.Config.{IsAnswer, or_empty, isa_named, isa_of, commit_of, shape_of, memory_of, base_of, size_of, mem_of, others_of, config_of, config_of_table, schema_of, reset_pc_of, stages_of, of_text};

use crate::entries::read_plugs;
use crate::keys::{KeySet, least_refused};
use crate::numbers::{NumberRule, find, find_in, read_number};
use crate::refusal::{ConfigRefusal, Want, number_refusal, shape_refusal, text_refusal};
use stage_map::{Config, CoreShape, Isa, MemShape, Stage};
use std::alloc::Global;
use toml::{Table, Value};

/// The most bytes that a configuration may have.
const CONFIG_LIMIT: usize = 1_048_576;

/// An address: a multiple of 4.
const ADDRESS: NumberRule = NumberRule {
    default: 0x8000_0000,
    low: 0,
    high: 4_294_967_292,
    step: 4,
};

/// The number of addresses.
const ADDRESSES: u64 = 0x1_0000_0000;

/// The first byte of the window of the device, where memory may not be, and the first after it.
const WINDOW: u64 = 0xF000_0000;

const WINDOW_END: u64 = 0xF000_0010;

/// Reads the text of a configuration.
pub fn read_config(alloc: Global, bytes: &[u8]) -> Result<Config, ConfigRefusal>
    ensures answer { (result ≡ config_of bytes.now) ⊎ (result ≡ Err ConfigRefusal.NoMemory) }
    ensures allowed { IfOk result (λ config. IsConfig config) }
{
    if bytes.len() > CONFIG_LIMIT {
        let len = bytes.len() as u64;
        return Err(ConfigRefusal::TooLong { len });
    }
    match toml::table_from_slice(alloc, bytes) {
        Ok(table) => read_table(alloc, &table),
        Err(error) => {
            if error.is_memory() {
                return Err(ConfigRefusal::NoMemory);
            }
            Err(ConfigRefusal::Text)
        }
    }
}

/// Reads the table of a configuration.
fn read_table(alloc: Global, table: &Table) -> Result<Config, ConfigRefusal>
    ensures { IsAnswer result (config_of_table (table_view table.now)) }
{
    read_schema(alloc, table)?;
    let shape = read_shape(alloc, table)?;
    let memory = read_memory(alloc, table)?;
    let mem = read_mem(alloc, memory)?;
    let entries = read_plugs(alloc, table)?;
    refuse_others(alloc, table, memory)?;
    Ok(Config {
        shape,
        mem,
        entries,
    })
}

/// Reads `schema`.
fn read_schema(alloc: Global, table: &Table) -> Result<u32, ConfigRefusal>
    ensures { IsAnswer result (schema_of (table_view table.now)) }
{
    let rule = NumberRule {
        default: 1,
        low: 1,
        high: 1,
        step: 1,
    };
    read_number(alloc, find(table, "schema"), "schema", rule)
}

/// Reads the shape of the core: `isa`, `reset_pc`, `stages` and `commit`.
fn read_shape(alloc: Global, table: &Table) -> Result<CoreShape, ConfigRefusal>
    ensures { IsAnswer result (shape_of (table_view table.now)) }
{
    let isa = read_isa(alloc, table)?;
    let reset_pc = read_reset_pc(alloc, table)?;
    let stages = read_stages(alloc, table)?;
    let commit = read_commit(alloc, table)?;
    Ok(CoreShape {
        isa,
        reset_pc,
        stages,
        commit,
    })
}

/// Reads `isa`.
fn read_isa(alloc: Global, table: &Table) -> Result<Isa, ConfigRefusal>
    ensures { IsAnswer result (isa_of (table_view table.now)) }
{
    match find(table, "isa") {
        None => Ok(Isa::Claimed),
        Some(Value::String(text)) => match isa_named(text.as_str()) {
            Some(isa) => Ok(isa),
            None => Err(text_refusal(alloc, None, "isa", text.as_str())),
        },
        Some(_) => Err(shape_refusal(alloc, None, "isa", Want::Text)),
    }
}

/// The instruction set of this name.
fn isa_named(text: &str) -> Option<Isa>
    ensures { result ≡ isa_named text.now }
{
    if text == "claimed" {
        Some(Isa::Claimed)
    } else if text == "rv32i" {
        Some(Isa::Rv32i)
    } else if text == "rv32i_zicsr" {
        Some(Isa::Rv32iZicsr)
    } else if text == "rv32i_zifencei" {
        Some(Isa::Rv32iZifencei)
    } else if text == "rv32i_zicsr_zifencei" {
        Some(Isa::Rv32iZicsrZifencei)
    } else if text == "rv32im" {
        Some(Isa::Rv32im)
    } else if text == "rv32im_zicsr" {
        Some(Isa::Rv32imZicsr)
    } else if text == "rv32im_zifencei" {
        Some(Isa::Rv32imZifencei)
    } else if text == "rv32im_zicsr_zifencei" {
        Some(Isa::Rv32imZicsrZifencei)
    } else {
        None
    }
}

/// Reads `reset_pc`.
fn read_reset_pc(alloc: Global, table: &Table) -> Result<u32, ConfigRefusal>
    ensures { IsAnswer result (reset_pc_of (table_view table.now)) }
{
    read_number(alloc, find(table, "reset_pc"), "reset_pc", ADDRESS)
}

/// Reads `stages`.
fn read_stages(alloc: Global, table: &Table) -> Result<u32, ConfigRefusal>
    ensures { IsAnswer result (stages_of (table_view table.now)) }
{
    let rule = NumberRule {
        default: 4,
        low: 2,
        high: 4,
        step: 1,
    };
    read_number(alloc, find(table, "stages"), "stages", rule)
}

/// Reads `commit`.
fn read_commit(alloc: Global, table: &Table) -> Result<Stage, ConfigRefusal>
    ensures { IsAnswer result (commit_of (table_view table.now)) }
{
    match find(table, "commit") {
        None => Ok(Stage::Execute),
        Some(Value::String(text)) => {
            if text.as_str() == "execute" {
                return Ok(Stage::Execute);
            }
            Err(text_refusal(alloc, None, "commit", text.as_str()))
        }
        Some(_) => Err(shape_refusal(alloc, None, "commit", Want::Text)),
    }
}

/// Reads `memory`, if it is there.
fn read_memory(alloc: Global, table: &Table) -> Result<Option<&Table>, ConfigRefusal>
    ensures { IsAnswer (result_map_both (λ m. or_empty (option_map (λ t. table_view t.now) m)) (λ e. e) result)
        (memory_of (table_view table.now)) }
{
    match find(table, "memory") {
        None => Ok(None),
        Some(Value::Table(memory)) => Ok(Some(memory)),
        Some(_) => Err(shape_refusal(alloc, None, "memory", Want::Table)),
    }
}

/// Reads the shape of the memory: the base, and then the size.
fn read_mem(alloc: Global, memory: Option<&Table>) -> Result<MemShape, ConfigRefusal>
    ensures { IsAnswer result (mem_of (or_empty (option_map (λ m. table_view m.now) memory.entry))) }
{
    let base = read_base(alloc, memory)?;
    let size = read_size(alloc, memory, base)?;
    Ok(MemShape { base, size })
}

/// Reads `memory.base`.
fn read_base(alloc: Global, memory: Option<&Table>) -> Result<u32, ConfigRefusal>
    ensures { IsAnswer result (base_of (or_empty (option_map (λ m. table_view m.now) memory.entry))) }
{
    read_number(alloc, find_in(memory, "base"), "memory.base", ADDRESS)
}

/// Reads `memory.size`, where memory begins at `base`.
fn read_size(alloc: Global, memory: Option<&Table>, base: u32) -> Result<u32, ConfigRefusal>
    ensures { IsAnswer result (size_of (or_empty (option_map (λ m. table_view m.now) memory.entry)) base) }
{
    let rule = NumberRule {
        default: 65_536,
        low: 4,
        high: 16_777_216,
        step: 4,
    };
    let size = read_number(alloc, find_in(memory, "size"), "memory.size", rule)?;
    let end = u64::from(base) + u64::from(size);
    if end > ADDRESSES || end > WINDOW && u64::from(base) < WINDOW_END {
        return Err(number_refusal(alloc, "memory.size", i64::from(size)));
    }
    Ok(size)
}

/// Refuses other keys: the least of the text, and then of `memory`.
fn refuse_others(alloc: Global, table: &Table, memory: Option<&Table>) -> Result<(), ConfigRefusal>
    ensures { IsAnswer result (others_of (table_view table.now) (or_empty (option_map (λ m. table_view m.now) memory.entry))) }
{
    if let Some(key) = least_refused(table, KeySet::OfText) {
        return Err(shape_refusal(alloc, None, key, Want::NoKey));
    }
    match memory {
        Some(memory) => match least_refused(memory, KeySet::OfMemory) {
            Some(key) => Err(memory_key_refusal(alloc, key)),
            None => Ok(()),
        },
        None => Ok(()),
    }
}

/// The refusal of another key of `memory`, or of a lack of memory.
fn memory_key_refusal(alloc: Global, key: &str) -> ConfigRefusal
    ensures { (result ≡ ConfigRefusal.Shape (of_text (codes "memory." ++ key.now)) Want.NoKey) ⊎ (result ≡ ConfigRefusal.NoMemory) }
{
    let mut printed = match String::from_str(alloc, "memory.") {
        Ok(printed) => printed,
        Err(_) => return ConfigRefusal::NoMemory,
    };
    if printed.push_str(key).is_err() {
        return ConfigRefusal::NoMemory;
    }
    shape_refusal(alloc, None, printed.as_str(), Want::NoKey)
}
