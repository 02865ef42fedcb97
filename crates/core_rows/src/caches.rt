use crate::exits::End;
use crate::runs::Run;
use core_tool::Status;

/// The integer core with `icache` for `fetch`, and `fencei`.
const CACHED: &str =
    "isa = 'rv32i_zifencei'\nplugin = [{ kind = 'icache' }, { kind = 'decoder' }, { kind = 'regfile' }, { kind = 'hazard' }, { kind = 'alu' }, { kind = 'shift_barrel' }, { kind = 'branch' }, { kind = 'dbus' }, { kind = 'fencei' }]\n";

/// The same with `predict`.
const PREDICTED: &str =
    "isa = 'rv32i_zifencei'\nplugin = [{ kind = 'icache' }, { kind = 'decoder' }, { kind = 'regfile' }, { kind = 'hazard' }, { kind = 'alu' }, { kind = 'shift_barrel' }, { kind = 'branch' }, { kind = 'dbus' }, { kind = 'fencei' }, { kind = 'predict' }]\n";

/// The integer core with `fencei`.
const FETCHED: &str =
    "isa = 'rv32i_zifencei'\nplugin = [{ kind = 'fetch' }, { kind = 'decoder' }, { kind = 'regfile' }, { kind = 'hazard' }, { kind = 'alu' }, { kind = 'shift_barrel' }, { kind = 'branch' }, { kind = 'dbus' }, { kind = 'fencei' }]\n";

/// The same, with four words fetched ahead.
const AHEAD: &str =
    "isa = 'rv32i_zifencei'\nplugin = [{ kind = 'fetch', depth = 4 }, { kind = 'decoder' }, { kind = 'regfile' }, { kind = 'hazard' }, { kind = 'alu' }, { kind = 'shift_barrel' }, { kind = 'branch' }, { kind = 'dbus' }, { kind = 'fencei' }]\n";

/// Caches of other sizes.
const LEAST: &str =
    "isa = 'rv32i_zifencei'\nplugin = [{ kind = 'icache', lines = 2, words = 2 }, { kind = 'decoder' }, { kind = 'regfile' }, { kind = 'hazard' }, { kind = 'alu' }, { kind = 'shift_barrel' }, { kind = 'branch' }, { kind = 'dbus' }, { kind = 'fencei' }]\n";

const LONG_LINES: &str =
    "isa = 'rv32i_zifencei'\nplugin = [{ kind = 'icache', lines = 2, words = 16 }, { kind = 'decoder' }, { kind = 'regfile' }, { kind = 'hazard' }, { kind = 'alu' }, { kind = 'shift_barrel' }, { kind = 'branch' }, { kind = 'dbus' }, { kind = 'fencei' }]\n";

const SHORT_LINES: &str =
    "isa = 'rv32i_zifencei'\nplugin = [{ kind = 'icache', lines = 64, words = 2 }, { kind = 'decoder' }, { kind = 'regfile' }, { kind = 'hazard' }, { kind = 'alu' }, { kind = 'shift_barrel' }, { kind = 'branch' }, { kind = 'dbus' }, { kind = 'fencei' }]\n";

const LARGEST: &str =
    "isa = 'rv32i_zifencei'\nplugin = [{ kind = 'icache', lines = 1024, words = 16 }, { kind = 'decoder' }, { kind = 'regfile' }, { kind = 'hazard' }, { kind = 'alu' }, { kind = 'shift_barrel' }, { kind = 'branch' }, { kind = 'dbus' }, { kind = 'fencei' }]\n";

/// Memory of so many words.
const THREE_WORDS: &str =
    "isa = 'rv32i_zifencei'\nplugin = [{ kind = 'icache' }, { kind = 'decoder' }, { kind = 'regfile' }, { kind = 'hazard' }, { kind = 'alu' }, { kind = 'shift_barrel' }, { kind = 'branch' }, { kind = 'dbus' }, { kind = 'fencei' }]\nmemory = { size = 12 }\n";

const FOUR_WORDS: &str =
    "isa = 'rv32i_zifencei'\nplugin = [{ kind = 'icache' }, { kind = 'decoder' }, { kind = 'regfile' }, { kind = 'hazard' }, { kind = 'alu' }, { kind = 'shift_barrel' }, { kind = 'branch' }, { kind = 'dbus' }, { kind = 'fencei' }]\nmemory = { size = 16 }\n";

const ONE_WORD: &str =
    "isa = 'rv32i_zifencei'\nplugin = [{ kind = 'icache' }, { kind = 'decoder' }, { kind = 'regfile' }, { kind = 'hazard' }, { kind = 'alu' }, { kind = 'shift_barrel' }, { kind = 'branch' }, { kind = 'dbus' }, { kind = 'fencei' }]\nmemory = { size = 4 }\n";

/// A plug-in of each kind, `shift_light` and `fetch` aside.
pub const WHOLE: &str =
    "isa = 'rv32im_zicsr_zifencei'\nplugin = [{ kind = 'icache', lines = 64, words = 8 }, { kind = 'predict' }, { kind = 'fencei' }, { kind = 'decoder' }, { kind = 'regfile' }, { kind = 'hazard' }, { kind = 'alu' }, { kind = 'shift_barrel' }, { kind = 'muldiv' }, { kind = 'branch' }, { kind = 'dbus' }, { kind = 'csr' }]\n";

/// AUIPC x1; LW x2, 32(x1); SW x2, 20(x1), over the ADDI x3, x0, 1 to come; FENCE.I; ADDI; what was written, ADDI x3, x0, 2.
const WRITTEN: &[u32] = &[
    0x0000_0097,
    0x0200_a103,
    0x0020_aa23,
    0x0000_100f,
    0x0000_0013,
    0x0010_0193,
    0,
    0,
    0x0020_0193,
];

/// The same without FENCE.I.
const UNFENCED: &[u32] = &[
    0x0000_0097,
    0x0200_a103,
    0x0020_aa23,
    0x0000_0013,
    0x0000_0013,
    0x0010_0193,
    0,
    0,
    0x0020_0193,
];

/// FENCE.I with other fields set; ADDI x3, x0, 1.
const FIELDS: &[u32] = &[0xffff_9f8f, 0x0010_0193];

/// Up to the end of memory.
const END: &[u32] = &[0x0030_0093, 0xfff0_8093, 0x0010_8093];

/// With a word more.
const BEHIND: &[u32] = &[0x0030_0093, 0xfff0_8093, 0x0010_8093, 0x0000_0013];

/// Writes the text behind its code, byte by byte, and ends.
const TEXT: &[u32] = &[
    0x0000_0517,
    0x0245_0513,
    0xf000_0fb7,
    0x0005_4283,
    0x0002_8863,
    0x005f_8023,
    0x0015_0513,
    0xff1f_f06f,
    0x000f_a223,
    0x6c6c_6568,
    0x0000_0a6f,
];

/// ADDI x1, x0, 3.
const ONE: &[u32] = &[0x0030_0093];

const WRITTEN_LINES: &str =
    "R pc=80000000 word=00000097 x1=80000000\nR pc=80000004 word=0200a103 x2=00200193\nR pc=80000008 word=0020aa23\nR pc=8000000c word=0000100f\nR pc=80000010 word=00000013\nR pc=80000014 word=00200193 x3=00000002\nT pc=80000018 word=00000000 cause=00000002\n";

const NEW_LINES: &str =
    "R pc=80000000 word=00000097 x1=80000000\nR pc=80000004 word=0200a103 x2=00200193\nR pc=80000008 word=0020aa23\nR pc=8000000c word=00000013\nR pc=80000010 word=00000013\nR pc=80000014 word=00200193 x3=00000002\nT pc=80000018 word=00000000 cause=00000002\n";

const STALE_LINES: &str =
    "R pc=80000000 word=00000097 x1=80000000\nR pc=80000004 word=0200a103 x2=00200193\nR pc=80000008 word=0020aa23\nR pc=8000000c word=00000013\nR pc=80000010 word=00000013\nR pc=80000014 word=00100193 x3=00000001\nT pc=80000018 word=00000000 cause=00000002\n";

const FIELDS_LINES: &str =
    "R pc=80000000 word=ffff9f8f\nR pc=80000004 word=00100193 x3=00000001\nT pc=80000008 word=00000000 cause=00000002\n";

const END_LINES: &str =
    "R pc=80000000 word=00300093 x1=00000003\nR pc=80000004 word=fff08093 x1=00000002\nR pc=80000008 word=00108093 x1=00000003\nT pc=8000000c word=00000000 cause=00000001\n";

const BEHIND_LINES: &str =
    "R pc=80000000 word=00300093 x1=00000003\nR pc=80000004 word=fff08093 x1=00000002\nR pc=80000008 word=00108093 x1=00000003\nR pc=8000000c word=00000013\nT pc=80000010 word=00000000 cause=00000001\n";

const ONE_LINES: &str =
    "R pc=80000000 word=00300093 x1=00000003\nT pc=80000004 word=00000000 cause=00000001\n";

/// Runs of cores with FENCE.I, with a cache and without.
pub const RUNS: &[Run] = &[
    (
        CACHED,
        "",
        WRITTEN,
        WRITTEN_LINES,
        "stopped cause=00000002 pc=80000018 events=7 cycles=179\n",
    ),
    (
        CACHED,
        " --wait 3",
        WRITTEN,
        WRITTEN_LINES,
        "stopped cause=00000002 pc=80000018 events=7 cycles=287\n",
    ),
    (
        PREDICTED,
        "",
        WRITTEN,
        WRITTEN_LINES,
        "stopped cause=00000002 pc=80000018 events=7 cycles=179\n",
    ),
    (
        PREDICTED,
        " --wait 3",
        WRITTEN,
        WRITTEN_LINES,
        "stopped cause=00000002 pc=80000018 events=7 cycles=287\n",
    ),
    (
        FETCHED,
        "",
        WRITTEN,
        WRITTEN_LINES,
        "stopped cause=00000002 pc=80000018 events=7 cycles=26\n",
    ),
    (
        FETCHED,
        " --wait 3",
        WRITTEN,
        WRITTEN_LINES,
        "stopped cause=00000002 pc=80000018 events=7 cycles=74\n",
    ),
    (
        AHEAD,
        "",
        WRITTEN,
        WRITTEN_LINES,
        "stopped cause=00000002 pc=80000018 events=7 cycles=24\n",
    ),
    (
        AHEAD,
        " --wait 3",
        WRITTEN,
        WRITTEN_LINES,
        "stopped cause=00000002 pc=80000018 events=7 cycles=68\n",
    ),
    (
        LEAST,
        "",
        WRITTEN,
        WRITTEN_LINES,
        "stopped cause=00000002 pc=80000018 events=7 cycles=39\n",
    ),
    (
        LEAST,
        " --wait 3",
        WRITTEN,
        WRITTEN_LINES,
        "stopped cause=00000002 pc=80000018 events=7 cycles=97\n",
    ),
    (
        LONG_LINES,
        "",
        WRITTEN,
        WRITTEN_LINES,
        "stopped cause=00000002 pc=80000018 events=7 cycles=87\n",
    ),
    (
        LONG_LINES,
        " --wait 3",
        WRITTEN,
        WRITTEN_LINES,
        "stopped cause=00000002 pc=80000018 events=7 cycles=291\n",
    ),
    (
        SHORT_LINES,
        "",
        WRITTEN,
        WRITTEN_LINES,
        "stopped cause=00000002 pc=80000018 events=7 cycles=163\n",
    ),
    (
        SHORT_LINES,
        " --wait 3",
        WRITTEN,
        WRITTEN_LINES,
        "stopped cause=00000002 pc=80000018 events=7 cycles=217\n",
    ),
    (
        LARGEST,
        "",
        WRITTEN,
        WRITTEN_LINES,
        "stopped cause=00000002 pc=80000018 events=7 cycles=2131\n",
    ),
    (
        LARGEST,
        " --wait 3",
        WRITTEN,
        WRITTEN_LINES,
        "stopped cause=00000002 pc=80000018 events=7 cycles=2335\n",
    ),
    (
        CACHED,
        "",
        UNFENCED,
        STALE_LINES,
        "stopped cause=00000002 pc=80000018 events=7 cycles=95\n",
    ),
    (
        CACHED,
        " --wait 3",
        UNFENCED,
        STALE_LINES,
        "stopped cause=00000002 pc=80000018 events=7 cycles=155\n",
    ),
    (
        FETCHED,
        "",
        UNFENCED,
        NEW_LINES,
        "stopped cause=00000002 pc=80000018 events=7 cycles=24\n",
    ),
    (
        FETCHED,
        " --wait 3",
        UNFENCED,
        NEW_LINES,
        "stopped cause=00000002 pc=80000018 events=7 cycles=66\n",
    ),
    (
        CACHED,
        "",
        FIELDS,
        FIELDS_LINES,
        "stopped cause=00000002 pc=80000008 events=3 cycles=171\n",
    ),
    (
        CACHED,
        " --wait 3",
        FIELDS,
        FIELDS_LINES,
        "stopped cause=00000002 pc=80000008 events=3 cycles=267\n",
    ),
    (
        FETCHED,
        "",
        FIELDS,
        FIELDS_LINES,
        "stopped cause=00000002 pc=80000008 events=3 cycles=14\n",
    ),
    (
        FETCHED,
        " --wait 3",
        FIELDS,
        FIELDS_LINES,
        "stopped cause=00000002 pc=80000008 events=3 cycles=38\n",
    ),
    (
        THREE_WORDS,
        "",
        END,
        END_LINES,
        "stopped cause=00000001 pc=8000000c events=4 cycles=139\n",
    ),
    (
        FOUR_WORDS,
        "",
        BEHIND,
        BEHIND_LINES,
        "stopped cause=00000001 pc=80000010 events=5 cycles=157\n",
    ),
    (
        ONE_WORD,
        "",
        ONE,
        ONE_LINES,
        "stopped cause=00000001 pc=80000004 events=2 cycles=103\n",
    ),
];

/// Runs of the core with all of them to the exit, or as long as is said.
pub const ENDS: &[End] = &[
    (
        "",
        "",
        TEXT,
        Status::Done,
        "hello\n",
        "exit code=00000000 events=36 cycles=168\n",
    ),
    (
        "",
        " --wait 3",
        TEXT,
        Status::Done,
        "hello\n",
        "exit code=00000000 events=36 cycles=348\n",
    ),
    (
        "stages = 3",
        "",
        TEXT,
        Status::Done,
        "hello\n",
        "exit code=00000000 events=36 cycles=168\n",
    ),
    (
        "stages = 2",
        "",
        TEXT,
        Status::Done,
        "hello\n",
        "exit code=00000000 events=36 cycles=168\n",
    ),
    (
        "",
        " --cycles 167",
        TEXT,
        Status::CyclesEnded,
        "hello\n",
        "cycles 167 events=35\n",
    ),
    (
        "",
        " --cycles 5",
        TEXT,
        Status::CyclesEnded,
        "",
        "cycles 5 events=0\n",
    ),
];

/// Which configurations with them are accepted.
pub const RULES: &[(&str, &str)] = &[
    (CACHED, ""),
    (FETCHED, ""),
    (LEAST, ""),
    (WHOLE, ""),
    (
        "isa = 'rv32i_zifencei'\nplugin = [{ kind = 'icache' }, { kind = 'decoder' }, { kind = 'regfile' }, { kind = 'hazard' }, { kind = 'alu' }, { kind = 'shift_barrel' }, { kind = 'branch' }, { kind = 'dbus' }]\n",
        "rules 8 row=FENCE.I\n",
    ),
    (
        "isa = 'rv32i'\nplugin = [{ kind = 'icache' }, { kind = 'decoder' }, { kind = 'regfile' }, { kind = 'hazard' }, { kind = 'alu' }, { kind = 'shift_barrel' }, { kind = 'branch' }, { kind = 'dbus' }, { kind = 'fencei' }]\n",
        "rules 9 entry=8 row=FENCE.I\n",
    ),
    (
        "isa = 'rv32i_zifencei'\nplugin = [{ kind = 'icache' }, { kind = 'decoder' }, { kind = 'regfile' }, { kind = 'hazard' }, { kind = 'alu' }, { kind = 'shift_barrel' }, { kind = 'branch' }, { kind = 'dbus' }, { kind = 'fencei' }, { kind = 'fetch' }]\n",
        "rules 5 service=fetch entry=0 other=9\n",
    ),
    (
        "isa = 'rv32i_zifencei'\nplugin = [{ kind = 'icache', lines = 3 }, { kind = 'decoder' }, { kind = 'regfile' }, { kind = 'hazard' }, { kind = 'alu' }, { kind = 'shift_barrel' }, { kind = 'branch' }, { kind = 'dbus' }, { kind = 'fencei' }]\n",
        "rules 3 entry=0 key=lines\n",
    ),
    (
        "isa = 'rv32i_zifencei'\nplugin = [{ kind = 'icache', lines = true }, { kind = 'decoder' }, { kind = 'regfile' }, { kind = 'hazard' }, { kind = 'alu' }, { kind = 'shift_barrel' }, { kind = 'branch' }, { kind = 'dbus' }, { kind = 'fencei' }]\n",
        "rules 3 entry=0 key=lines\n",
    ),
    (
        "isa = 'rv32i_zifencei'\nplugin = [{ kind = 'icache', words = 32 }, { kind = 'decoder' }, { kind = 'regfile' }, { kind = 'hazard' }, { kind = 'alu' }, { kind = 'shift_barrel' }, { kind = 'branch' }, { kind = 'dbus' }, { kind = 'fencei' }]\n",
        "rules 3 entry=0 key=words\n",
    ),
    (
        "isa = 'rv32i_zifencei'\nplugin = [{ kind = 'icache', depth = 1 }, { kind = 'decoder' }, { kind = 'regfile' }, { kind = 'hazard' }, { kind = 'alu' }, { kind = 'shift_barrel' }, { kind = 'branch' }, { kind = 'dbus' }, { kind = 'fencei' }]\n",
        "rules 3 entry=0 key=depth\n",
    ),
    (
        "isa = 'rv32i_zifencei'\nplugin = [{ kind = 'icache' }, { kind = 'decoder' }, { kind = 'regfile' }, { kind = 'hazard' }, { kind = 'alu' }, { kind = 'shift_barrel' }, { kind = 'branch' }, { kind = 'dbus' }, { kind = 'fencei', lines = 2 }]\n",
        "rules 3 entry=8 key=lines\n",
    ),
    (
        "plugin = [{ kind = 'decoder' }, { kind = 'regfile' }, { kind = 'hazard' }, { kind = 'alu' }, { kind = 'fencei' }]\n",
        "rules 4 service=fetch by=-\n",
    ),
];
