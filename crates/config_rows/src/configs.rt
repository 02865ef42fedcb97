use core_config::{ConfigRefusal, KeyPath, read_config};
use stage_map::{Config, ParamValue};
use std::alloc::{AllocError, Global};

/// A key as it is printed.
fn path(alloc: Global, key: &KeyPath) -> Result<String, AllocError> {
    match key.entry {
        Some(number) => format!(in alloc; "plugin.{}.{}", number, key.key.text()),
        None => format!(in alloc; "{}", key.key.text()),
    }
}

/// A scalar as text, a word with a `:` before it.
fn value(alloc: Global, found: &ParamValue) -> Result<String, AllocError> {
    match found {
        ParamValue::Num(number) => format!(in alloc; "{number}"),
        ParamValue::Flag(flag) => format!(in alloc; "{flag}"),
        ParamValue::Word(word) => format!(in alloc; ":{}", word.text()),
    }
}

/// A configuration as text: the shape, the memory and the entries.
fn whole(alloc: Global, config: &Config) -> Result<String, AllocError> {
    let shape = config.shape;
    let mem = config.mem;
    let mut out = format!(in alloc;
        "{:?} {:x} {} {:?} {:x}+{}",
        shape.isa, shape.reset_pc, shape.stages, shape.commit, mem.base, mem.size
    )?;
    for entry in config.entries.items() {
        out.push_str(" ")?;
        out.push_str(entry.kind.text().as_str())?;
        for param in entry.params.items() {
            out.push_str(",")?;
            out.push_str(param.key.text().as_str())?;
            out.push_str("=")?;
            out.push_str(value(alloc, &param.value)?.as_str())?;
        }
    }
    Ok(out)
}

/// What is read of these bytes, as text.
fn read(alloc: Global, bytes: &[u8]) -> Result<String, AllocError> {
    match read_config(alloc, bytes) {
        Ok(config) => whole(alloc, &config),
        Err(ConfigRefusal::TooLong { len }) => format!(in alloc; "long {len}"),
        Err(ConfigRefusal::Text) => String::from_str(alloc, "text"),
        Err(ConfigRefusal::Shape { key, want }) => {
            format!(in alloc; "shape {} {want:?}", path(alloc, &key)?)
        }
        Err(ConfigRefusal::Range { key, found }) => {
            format!(in alloc; "range {} {}", path(alloc, &key)?, value(alloc, &found)?)
        }
        Err(ConfigRefusal::NoMemory) => String::from_str(alloc, "no memory"),
    }
}

/// The text so many times.
fn repeated(alloc: Global, text: &str, count: u32) -> Result<String, AllocError> {
    let mut out = String::new(alloc);
    for _ in 0..count {
        out.push_str(text)?;
    }
    Ok(out)
}

/// Texts, and what is read of each: a configuration, or the first refusal.
const TEXTS: &[(&str, &str)] = &[
    ("", "Claimed 80000000 4 Execute 80000000+65536"),
    (
        "schema = 1\nisa = \"rv32im_zicsr_zifencei\"\nreset_pc = 0x1000\nstages = 2\ncommit = \"execute\"\nplugin = []\n[memory]\nbase = 0\nsize = 4",
        "Rv32imZicsrZifencei 1000 2 Execute 0+4",
    ),
    (
        "isa = 'rv32i'\nreset_pc = 4294967292\nstages = 3\nmemory.size = 16777216",
        "Rv32i fffffffc 3 Execute 80000000+16777216",
    ),
    (
        "isa = \"rv32i_zicsr\"\nmemory = { base = 0xFFFF0000 }",
        "Rv32iZicsr 80000000 4 Execute ffff0000+65536",
    ),
    (
        "isa = \"rv32i_zifencei\"\nmemory = {}",
        "Rv32iZifencei 80000000 4 Execute 80000000+65536",
    ),
    (
        "isa = \"rv32i_zicsr_zifencei\"\n[memory]\nbase = 0xEFFF0000",
        "Rv32iZicsrZifencei 80000000 4 Execute efff0000+65536",
    ),
    (
        "isa = \"rv32im\"\n[memory]\nbase = 0xF0000010",
        "Rv32im 80000000 4 Execute f0000010+65536",
    ),
    (
        "\u{feff}isa = \"rv32im_zicsr\"",
        "Rv32imZicsr 80000000 4 Execute 80000000+65536",
    ),
    (
        "isa = \"rv32im_zifencei\"",
        "Rv32imZifencei 80000000 4 Execute 80000000+65536",
    ),
    (
        "[[plugin]]\nz = 1\nkind = \"a_0\"\n\"\" = true\nb = \"\"\nZ = -9223372036854775808\n[[plugin]]\nkind = \"a_0\"\nkinds = false\nkin = \"x\"",
        "Claimed 80000000 4 Execute 80000000+65536 a_0,=true,Z=-9223372036854775808,b=:,z=1 a_0,kin=:x,kinds=false",
    ),
    (
        "isa = \"rv32i\"
[[plugin]]
kind = \"fetch\"
depth = 2
[[plugin]]
kind = \"decoder\"
[[plugin]]
kind = \"regfile\"
[[plugin]]
kind = \"hazard\"
bypass = false
[[plugin]]
kind = \"alu\"
[[plugin]]
kind = \"shift_barrel\"
[[plugin]]
kind = \"branch\"
[[plugin]]
kind = \"dbus\"
",
        "Rv32i 80000000 4 Execute 80000000+65536 fetch,depth=2 decoder regfile hazard,bypass=false alu shift_barrel branch dbus",
    ),
    ("stages =", "text"),
    ("stages = 2\nstages = 2", "text"),
    ("schema = 9223372036854775808", "text"),
    ("x = 1979-05-32", "text"),
    ("schema = 2", "range schema 2"),
    ("schema = \"1\"", "shape schema Integer"),
    ("schema = 1.0", "shape schema Integer"),
    ("isa = \"rv32i_\"", "range isa :rv32i_"),
    ("isa = \"RV32I\"", "range isa :RV32I"),
    ("isa = 32", "shape isa Text"),
    ("isa = [\"rv32i\"]", "shape isa Text"),
    ("reset_pc = 2147483646", "range reset_pc 2147483646"),
    ("reset_pc = 4294967296", "range reset_pc 4294967296"),
    ("reset_pc = -4", "range reset_pc -4"),
    (
        "reset_pc = 9223372036854775807",
        "range reset_pc 9223372036854775807",
    ),
    ("reset_pc.x = 1", "shape reset_pc Integer"),
    ("stages = 5", "range stages 5"),
    ("stages = 1", "range stages 1"),
    ("stages = \"4\"", "shape stages Integer"),
    ("stages = true", "shape stages Integer"),
    ("commit = \"memory\"", "range commit :memory"),
    ("commit = \"\"", "range commit :"),
    ("commit = 1979-05-27", "shape commit Text"),
    ("memory = 4", "shape memory Table"),
    ("[[memory]]", "shape memory Table"),
    ("[memory]\nbase = 2", "range memory.base 2"),
    (
        "[memory]\nbase = 4294967296",
        "range memory.base 4294967296",
    ),
    ("[memory]\nbase = \"0\"", "shape memory.base Integer"),
    ("memory.base = 4294967292", "range memory.size 65536"),
    ("memory.base = 4294901764", "range memory.size 65536"),
    (
        "memory.base = 4026466304\nmemory.size = 65552",
        "range memory.size 65552",
    ),
    ("memory.base = 0xF000000C", "range memory.size 65536"),
    ("memory.size = 0", "range memory.size 0"),
    ("memory.size = 6", "range memory.size 6"),
    ("memory.size = 16777220", "range memory.size 16777220"),
    ("memory.size = -4", "range memory.size -4"),
    ("memory.size = 1e3", "shape memory.size Integer"),
    ("memory.size = 1\nmemory.base = 1", "range memory.base 1"),
    ("plugin = 1", "shape plugin Tables"),
    ("[plugin]\nkind = \"a\"", "shape plugin Tables"),
    ("plugin = [{ kind = \"a\" }, 1]", "shape plugin Tables"),
    ("plugin = [{ kind = 1 }, []]", "shape plugin Tables"),
    ("[[plugin]]\ndepth = 1", "shape plugin.0.kind Text"),
    ("[[plugin]]\nkind = 1\nx = 1.5", "shape plugin.0.kind Text"),
    ("[[plugin]]\nkind = \"\"", "range plugin.0.kind :"),
    ("[[plugin]]\nkind = \"A\"", "range plugin.0.kind :A"),
    ("[[plugin]]\nkind = \"a-b\"", "range plugin.0.kind :a-b"),
    (
        "[[plugin]]\nkind = \"abcdefghijklmnopqrstuvwxyz_01234\"",
        "Claimed 80000000 4 Execute 80000000+65536 abcdefghijklmnopqrstuvwxyz_01234",
    ),
    (
        "[[plugin]]\nkind = \"abcdefghijklmnopqrstuvwxyz_012345\"",
        "range plugin.0.kind :abcdefghijklmnopqrstuvwxyz_012345",
    ),
    (
        "[[plugin]]\nkind = \"a\"\n[[plugin]]\nkind = \"b\"\nz = 1.5\nc = 1979-05-27",
        "shape plugin.1.c Scalar",
    ),
    (
        "[[plugin]]\nkind = \"a\"\nb.c = 1",
        "shape plugin.0.b Scalar",
    ),
    (
        "[[plugin]]\nkind = \"a\"\n\"\" = []",
        "shape plugin.0. Scalar",
    ),
    (
        "[[plugin]]\nkind = \"a\"\nx = nan\n[[plugin]]",
        "shape plugin.0.x Scalar",
    ),
    ("z = 1\na = 1", "shape a NoKey"),
    ("\"\" = 1\nA = 1", "shape  NoKey"),
    ("kind = 1979-05-27", "shape kind NoKey"),
    ("a = 1\nschema = 2", "range schema 2"),
    ("a = 1\n[[plugin]]", "shape plugin.0.kind Text"),
    ("z = 1\n[memory]\na = 1", "shape z NoKey"),
    ("[memory]\nz = 1\nb.c = 1", "shape memory.b NoKey"),
    ("[memory]\n\"\" = 1", "shape memory. NoKey"),
    ("memory.schema = 1\nmemory.size = 1", "range memory.size 1"),
];

/// Texts that are written so many times, and what is read of the whole.
const REPEATED: &[(&str, u32, &str)] = &[
    (
        "[[plugin]]\nkind = \"a\"\n",
        32,
        "Claimed 80000000 4 Execute 80000000+65536 a a a a a a a a a a a a a a a a a a a a a a a a a a a a a a a a",
    ),
    ("[[plugin]]\n", 33, "range plugin 33"),
    ("\n", 1_048_576, "Claimed 80000000 4 Execute 80000000+65536"),
    ("\u{7f}", 1_048_577, "long 1048577"),
];

/// Whether these bytes are read so.
fn is_read(alloc: Global, bytes: &[u8], want: &str) -> Result<bool, AllocError> {
    let found = read(alloc, bytes)?;
    Ok(found.as_str() == want)
}

/// The number of the first text of which something else is read.
pub fn first_wrong(alloc: Global) -> Result<Option<usize>, AllocError> {
    for (number, (text, want)) in TEXTS.iter().enumerate() {
        if !is_read(alloc, text.as_bytes(), *want)? {
            return Ok(Some(number));
        }
    }
    Ok(None)
}

/// Whether the repeated texts are read as they are to be, and what is no UTF-8 is refused.
pub fn long_and_broken_are_read(alloc: Global) -> Result<bool, AllocError> {
    for (text, count, want) in REPEATED {
        let whole = repeated(alloc, *text, *count)?;
        if !is_read(alloc, whole.as_str().as_bytes(), *want)? {
            return Ok(false);
        }
    }
    Ok(is_read(alloc, b"a = \"\xff\"", "text")? && is_read(alloc, b"\xff", "text")?)
}
