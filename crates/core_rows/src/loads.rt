use crate::runs::Run;

/// The integer core, the same with prediction, and the multiply core.
pub const INTEGER: &str = "isa = 'rv32i'
plugin = [{ kind = 'fetch' }, { kind = 'decoder' }, { kind = 'regfile' }, { kind = 'hazard' }, { kind = 'alu' }, { kind = 'shift_barrel' }, { kind = 'branch' }, { kind = 'dbus' }]
";

const PREDICTS: &str = "isa = 'rv32i'
plugin = [{ kind = 'fetch' }, { kind = 'decoder' }, { kind = 'regfile' }, { kind = 'hazard' }, { kind = 'alu' }, { kind = 'shift_barrel' }, { kind = 'branch' }, { kind = 'dbus' }, { kind = 'predict' }]
";

const MULTIPLY: &str = "isa = 'rv32im'
plugin = [{ kind = 'fetch' }, { kind = 'decoder' }, { kind = 'regfile' }, { kind = 'hazard' }, { kind = 'alu' }, { kind = 'shift_barrel' }, { kind = 'branch' }, { kind = 'dbus' }, { kind = 'muldiv' }]
";

/// SW x5, 2(x0): the address is no multiple of 4.
const HALF_WORD: &[u32] = &[0x0050_2123];

const HALF_WORD_LINES: &str = "T pc=80000000 word=00502123 cause=00000006
";

/// SW x0, 0(x0): outside memory.
const NO_MEMORY: &[u32] = &[0x0000_2023];

const NO_MEMORY_LINES: &str = "T pc=80000000 word=00002023 cause=00000007
";

/// LW x1, 2(x0): the address is no multiple of 4.
const ODD_WORD: &[u32] = &[0x0020_2083];

const ODD_WORD_LINES: &str = "T pc=80000000 word=00202083 cause=00000004
";

/// LH x1, 1(x0): the address is no multiple of 2.
const ODD_HALF: &[u32] = &[0x0010_1083];

const ODD_HALF_LINES: &str = "T pc=80000000 word=00101083 cause=00000004
";

/// SH x1, 1(x0): the address is no multiple of 2.
const ODD_STORE: &[u32] = &[0x0010_10a3];

const ODD_STORE_LINES: &str = "T pc=80000000 word=001010a3 cause=00000006
";

/// LB x1, 1(x0): outside memory.
const NO_BYTE: &[u32] = &[0x0010_0083];

const NO_BYTE_LINES: &str = "T pc=80000000 word=00100083 cause=00000005
";

/// LUI x10, 0x80010; SW x0, -4(x10); LW x1, -4(x10), the last word of memory; LW x1, 0(x10), the one behind it.
const LAST: &[u32] = &[0x8001_0537, 0xfe05_2e23, 0xffc5_2083, 0x0005_2083];

const LAST_LINES: &str = "R pc=80000000 word=80010537 x10=80010000
R pc=80000004 word=fe052e23
R pc=80000008 word=ffc52083 x1=00000000
T pc=8000000c word=00052083 cause=00000005
";

/// LUI x10, 0x80010; SB x0, 0(x10), behind memory.
const BEHIND: &[u32] = &[0x8001_0537, 0x0005_0023];

const BEHIND_LINES: &str = "R pc=80000000 word=80010537 x10=80010000
T pc=80000004 word=00050023 cause=00000007
";

/// LUI x10, 0x80000; x5 is 89abc5ef; SW x5, 64(x10); LB, LBU, LH, LHU and LW of parts of it; SB x5 at 65, SH x5 at 66, LW of the word;
/// FENCE.
const WIDTHS: &[u32] = &[
    0x8000_0537,
    0x89ab_c2b7,
    0x5ef2_8293,
    0x0455_2023,
    0x0435_0303,
    0x0435_4383,
    0x0425_1403,
    0x0425_5483,
    0x0405_2583,
    0x0455_00a3,
    0x0455_1123,
    0x0405_2603,
    0x0000_000f,
];

const WIDTHS_LINES: &str = "R pc=80000000 word=80000537 x10=80000000
R pc=80000004 word=89abc2b7 x5=89abc000
R pc=80000008 word=5ef28293 x5=89abc5ef
R pc=8000000c word=04552023
R pc=80000010 word=04350303 x6=ffffff89
R pc=80000014 word=04354383 x7=00000089
R pc=80000018 word=04251403 x8=ffff89ab
R pc=8000001c word=04255483 x9=000089ab
R pc=80000020 word=04052583 x11=89abc5ef
R pc=80000024 word=045500a3
R pc=80000028 word=04551123
R pc=8000002c word=04052603 x12=c5efefef
R pc=80000030 word=0000000f
T pc=80000034 word=00000000 cause=00000002
";

/// LUI x31, 0xf0000; ADDI x5, x0, -2; SB x5, 5(x31); SB x5, 8(x31): the window's bytes that ask for nothing.
const OTHERS: &[u32] = &[0xf000_0fb7, 0xffe0_0293, 0x005f_82a3, 0x005f_8423];

const OTHERS_LINES: &str = "R pc=80000000 word=f0000fb7 x31=f0000000
R pc=80000004 word=ffe00293 x5=fffffffe
R pc=80000008 word=005f82a3
R pc=8000000c word=005f8423
T pc=80000010 word=00000000 cause=00000002
";

/// ADDI x5, x0, 7; JALR x1, 0(x5): the target 6 is no multiple of 4.
const NO_TARGET: &[u32] = &[0x0070_0293, 0x0002_80e7];

const NO_TARGET_LINES: &str = "R pc=80000000 word=00700293 x5=00000007
T pc=80000004 word=000280e7 cause=00000000
";

/// LUI x10, 0x80000; ADDI x5, x0, 1; SW x5, 64(x10); SW x0, 68(x10); LW x6 and x7 of both.
const ORDERS: &[u32] = &[
    0x8000_0537,
    0x0010_0293,
    0x0455_2023,
    0x0405_2223,
    0x0405_2303,
    0x0445_2383,
];

const ORDERS_LINES: &str = "R pc=80000000 word=80000537 x10=80000000
R pc=80000004 word=00100293 x5=00000001
R pc=80000008 word=04552023
R pc=8000000c word=04052223
R pc=80000010 word=04052303 x6=00000001
R pc=80000014 word=04452383 x7=00000000
T pc=80000018 word=00000000 cause=00000002
";

/// ADDI x1, x0, 7; DIV x3, x1, x2, by 0; LUI x1, 0x80000; ADDI x2, x0, -1; DIV x3, x1, x2, which overflows.
const DIVIDES: &[u32] = &[
    0x0070_0093,
    0x0220_c1b3,
    0x8000_00b7,
    0xfff0_0113,
    0x0220_c1b3,
];

const DIVIDES_LINES: &str = "R pc=80000000 word=00700093 x1=00000007
R pc=80000004 word=0220c1b3 x3=ffffffff
R pc=80000008 word=800000b7 x1=80000000
R pc=8000000c word=fff00113 x2=ffffffff
R pc=80000010 word=0220c1b3 x3=80000000
T pc=80000014 word=00000000 cause=00000002
";

/// Runs of cores with loads and stores.
pub const RUNS: &[Run] = &[
    (
        INTEGER,
        "",
        HALF_WORD,
        HALF_WORD_LINES,
        "stopped cause=00000006 pc=80000000 events=1 cycles=6\n",
    ),
    (
        INTEGER,
        " --wait 3",
        HALF_WORD,
        HALF_WORD_LINES,
        "stopped cause=00000006 pc=80000000 events=1 cycles=12\n",
    ),
    (
        INTEGER,
        "",
        NO_MEMORY,
        NO_MEMORY_LINES,
        "stopped cause=00000007 pc=80000000 events=1 cycles=8\n",
    ),
    (
        INTEGER,
        " --wait 3",
        NO_MEMORY,
        NO_MEMORY_LINES,
        "stopped cause=00000007 pc=80000000 events=1 cycles=20\n",
    ),
    (
        INTEGER,
        "",
        ODD_WORD,
        ODD_WORD_LINES,
        "stopped cause=00000004 pc=80000000 events=1 cycles=6\n",
    ),
    (
        INTEGER,
        " --wait 3",
        ODD_WORD,
        ODD_WORD_LINES,
        "stopped cause=00000004 pc=80000000 events=1 cycles=12\n",
    ),
    (
        INTEGER,
        "",
        ODD_HALF,
        ODD_HALF_LINES,
        "stopped cause=00000004 pc=80000000 events=1 cycles=6\n",
    ),
    (
        INTEGER,
        " --wait 3",
        ODD_HALF,
        ODD_HALF_LINES,
        "stopped cause=00000004 pc=80000000 events=1 cycles=12\n",
    ),
    (
        INTEGER,
        "",
        ODD_STORE,
        ODD_STORE_LINES,
        "stopped cause=00000006 pc=80000000 events=1 cycles=6\n",
    ),
    (
        INTEGER,
        " --wait 3",
        ODD_STORE,
        ODD_STORE_LINES,
        "stopped cause=00000006 pc=80000000 events=1 cycles=12\n",
    ),
    (
        INTEGER,
        "",
        NO_BYTE,
        NO_BYTE_LINES,
        "stopped cause=00000005 pc=80000000 events=1 cycles=8\n",
    ),
    (
        INTEGER,
        " --wait 3",
        NO_BYTE,
        NO_BYTE_LINES,
        "stopped cause=00000005 pc=80000000 events=1 cycles=20\n",
    ),
    (
        INTEGER,
        "",
        LAST,
        LAST_LINES,
        "stopped cause=00000005 pc=8000000c events=4 cycles=17\n",
    ),
    (
        INTEGER,
        " --wait 3",
        LAST,
        LAST_LINES,
        "stopped cause=00000005 pc=8000000c events=4 cycles=47\n",
    ),
    (
        INTEGER,
        "",
        BEHIND,
        BEHIND_LINES,
        "stopped cause=00000007 pc=80000004 events=2 cycles=11\n",
    ),
    (
        INTEGER,
        " --wait 3",
        BEHIND,
        BEHIND_LINES,
        "stopped cause=00000007 pc=80000004 events=2 cycles=29\n",
    ),
    (
        INTEGER,
        "",
        WIDTHS,
        WIDTHS_LINES,
        "stopped cause=00000002 pc=80000034 events=14 cycles=45\n",
    ),
    (
        INTEGER,
        " --wait 3",
        WIDTHS,
        WIDTHS_LINES,
        "stopped cause=00000002 pc=80000034 events=14 cycles=129\n",
    ),
    (
        INTEGER,
        "",
        OTHERS,
        OTHERS_LINES,
        "stopped cause=00000002 pc=80000010 events=5 cycles=18\n",
    ),
    (
        INTEGER,
        " --wait 3",
        OTHERS,
        OTHERS_LINES,
        "stopped cause=00000002 pc=80000010 events=5 cycles=48\n",
    ),
    (
        INTEGER,
        "",
        NO_TARGET,
        NO_TARGET_LINES,
        "stopped cause=00000000 pc=80000004 events=2 cycles=9\n",
    ),
    (
        INTEGER,
        " --wait 3",
        NO_TARGET,
        NO_TARGET_LINES,
        "stopped cause=00000000 pc=80000004 events=2 cycles=21\n",
    ),
    (
        PREDICTS,
        "",
        ORDERS,
        ORDERS_LINES,
        "stopped cause=00000002 pc=80000018 events=7 cycles=24\n",
    ),
    (
        PREDICTS,
        " --wait 3",
        ORDERS,
        ORDERS_LINES,
        "stopped cause=00000002 pc=80000018 events=7 cycles=66\n",
    ),
    (
        MULTIPLY,
        "",
        DIVIDES,
        DIVIDES_LINES,
        "stopped cause=00000002 pc=80000014 events=6 cycles=85\n",
    ),
    (
        MULTIPLY,
        " --wait 3",
        DIVIDES,
        DIVIDES_LINES,
        "stopped cause=00000002 pc=80000014 events=6 cycles=109\n",
    ),
];

/// Configurations that are refused.
const NO_LOADS: &str = "isa = 'rv32i'
plugin = [{ kind = 'fetch' }, { kind = 'decoder' }, { kind = 'regfile' }, { kind = 'hazard' }, { kind = 'alu' }, { kind = 'shift_barrel' }, { kind = 'branch' }]
";

const NO_PRODUCT: &str = "isa = 'rv32im'
plugin = [{ kind = 'fetch' }, { kind = 'decoder' }, { kind = 'regfile' }, { kind = 'hazard' }, { kind = 'alu' }, { kind = 'shift_barrel' }, { kind = 'branch' }, { kind = 'dbus' }]
";

const PRODUCT: &str = "isa = 'rv32i'
plugin = [{ kind = 'fetch' }, { kind = 'decoder' }, { kind = 'regfile' }, { kind = 'hazard' }, { kind = 'alu' }, { kind = 'shift_barrel' }, { kind = 'branch' }, { kind = 'dbus' }, { kind = 'muldiv' }]
";

const NO_FENCE: &str = "isa = 'rv32i_zifencei'
plugin = [{ kind = 'fetch' }, { kind = 'decoder' }, { kind = 'regfile' }, { kind = 'hazard' }, { kind = 'alu' }, { kind = 'shift_barrel' }, { kind = 'branch' }, { kind = 'dbus' }]
";

const LINES: &str = "isa = 'rv32i'
plugin = [{ kind = 'fetch' }, { kind = 'decoder' }, { kind = 'regfile' }, { kind = 'hazard' }, { kind = 'alu' }, { kind = 'shift_barrel' }, { kind = 'branch' }, { kind = 'dbus', lines = 2 }]
";

const TWICE: &str = "isa = 'rv32i'
plugin = [{ kind = 'fetch' }, { kind = 'decoder' }, { kind = 'regfile' }, { kind = 'hazard' }, { kind = 'alu' }, { kind = 'shift_barrel' }, { kind = 'branch' }, { kind = 'dbus' }, { kind = 'dbus' }]
";

const SHIFTS: &str = "isa = 'rv32i'
plugin = [{ kind = 'fetch' }, { kind = 'decoder' }, { kind = 'regfile' }, { kind = 'hazard' }, { kind = 'alu' }, { kind = 'shift_barrel' }, { kind = 'branch' }, { kind = 'dbus' }, { kind = 'shift_light' }]
";

/// Configurations, and the line on the rule that fails; none where they are accepted.
pub const RULES: &[(&str, &str)] = &[
    (INTEGER, ""),
    (PREDICTS, ""),
    (MULTIPLY, ""),
    (NO_LOADS, "rules 8 row=LB\n"),
    (NO_PRODUCT, "rules 8 row=MUL\n"),
    (PRODUCT, "rules 9 entry=8 row=MUL\n"),
    (NO_FENCE, "rules 8 row=FENCE.I\n"),
    (LINES, "rules 3 entry=7 key=lines\n"),
    (TWICE, "rules 2 entry=7 other=8\n"),
    (SHIFTS, "rules 7 entry=5 row=SLLI other=8 other_row=SLLI\n"),
];
