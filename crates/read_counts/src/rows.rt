/// A core, and the image that it runs.
#[derive(Clone, Copy)]
pub(crate) struct Row {
    pub(crate) name: &'static str,
    pub(crate) config: &'static str,
    /// Words from the base of memory on.
    pub(crate) image: &'static [u32],
}

/// The integer core with `icache` and `fencei`, as `examples/fence.toml` has it.
const FENCE: &str =
    "isa = 'rv32i_zifencei'\nplugin = [{ kind = 'icache' }, { kind = 'decoder' }, { kind = 'regfile' }, { kind = 'hazard' }, { kind = 'alu' }, { kind = 'shift_barrel' }, { kind = 'branch' }, { kind = 'dbus' }, { kind = 'fencei' }]\n";

/// The same with a memory of four words, less than a line.
const SMALL_MEMORY: &str =
    "isa = 'rv32i_zifencei'\nplugin = [{ kind = 'icache' }, { kind = 'decoder' }, { kind = 'regfile' }, { kind = 'hazard' }, { kind = 'alu' }, { kind = 'shift_barrel' }, { kind = 'branch' }, { kind = 'dbus' }, { kind = 'fencei' }]\nmemory = { size = 16 }\n";

/// With `fetch` in place of `icache`.
const FETCH: &str =
    "isa = 'rv32i_zifencei'\nplugin = [{ kind = 'fetch' }, { kind = 'decoder' }, { kind = 'regfile' }, { kind = 'hazard' }, { kind = 'alu' }, { kind = 'shift_barrel' }, { kind = 'branch' }, { kind = 'dbus' }, { kind = 'fencei' }]\n";

/// With the least cache.
const SMALL_CACHE: &str =
    "isa = 'rv32i_zifencei'\nplugin = [{ kind = 'icache', lines = 2, words = 2 }, { kind = 'decoder' }, { kind = 'regfile' }, { kind = 'hazard' }, { kind = 'alu' }, { kind = 'shift_barrel' }, { kind = 'branch' }, { kind = 'dbus' }, { kind = 'fencei' }]\n";

/// The core of all instructions with `predict`, as `examples/full.toml` has it.
const FULL: &str =
    "isa = 'rv32im_zicsr_zifencei'\nplugin = [{ kind = 'icache', lines = 64, words = 8 }, { kind = 'predict' }, { kind = 'fencei' }, { kind = 'decoder' }, { kind = 'regfile' }, { kind = 'hazard' }, { kind = 'alu' }, { kind = 'shift_barrel' }, { kind = 'muldiv' }, { kind = 'branch' }, { kind = 'dbus' }, { kind = 'csr' }]\n";

/// ADDI x1, x0, 3; ADDI x1, x1, -1; BNE x1, x0, -4; and a word that is no instruction.
const COUNTDOWN: &[u32] = &[0x0030_0093, 0xfff0_8093, 0xfe00_9ee3, 0];

/// ADDI x1, x0, 3; JAL x0, 12; two words that are not reached; ADDI x1, x1, -1; BNE x1, x0, -16; and a word that is no instruction.
const APART: &[u32] = &[0x0030_0093, 0x00c0_006f, 0, 0, 0xfff0_8093, 0xfe00_98e3, 0];

/// ADDI x1, x1, 1, 31 times; JAL x0, -124.
const CIRCLE: &[u32] = &[
    0x0010_8093,
    0x0010_8093,
    0x0010_8093,
    0x0010_8093,
    0x0010_8093,
    0x0010_8093,
    0x0010_8093,
    0x0010_8093,
    0x0010_8093,
    0x0010_8093,
    0x0010_8093,
    0x0010_8093,
    0x0010_8093,
    0x0010_8093,
    0x0010_8093,
    0x0010_8093,
    0x0010_8093,
    0x0010_8093,
    0x0010_8093,
    0x0010_8093,
    0x0010_8093,
    0x0010_8093,
    0x0010_8093,
    0x0010_8093,
    0x0010_8093,
    0x0010_8093,
    0x0010_8093,
    0x0010_8093,
    0x0010_8093,
    0x0010_8093,
    0x0010_8093,
    0xf85f_f06f,
];

/// The runs, in the order of their lines.
pub(crate) const ROWS: &[Row] = &[
    Row {
        name: "countdown fence",
        config: FENCE,
        image: COUNTDOWN,
    },
    Row {
        name: "countdown small_memory",
        config: SMALL_MEMORY,
        image: COUNTDOWN,
    },
    Row {
        name: "countdown fetch",
        config: FETCH,
        image: COUNTDOWN,
    },
    Row {
        name: "apart fence",
        config: FENCE,
        image: APART,
    },
    Row {
        name: "apart small_cache",
        config: SMALL_CACHE,
        image: APART,
    },
    Row {
        name: "circle full",
        config: FULL,
        image: CIRCLE,
    },
    Row {
        name: "circle fence",
        config: FENCE,
        image: CIRCLE,
    },
];
