use crate::runs::Run;

/// The smallest core and the plug-in for SRL alone.
const RIGHT: &str = "isa = 'claimed'
plugin = [{ kind = 'fetch' }, { kind = 'decoder' }, { kind = 'regfile' }, { kind = 'hazard' }, { kind = 'alu' }, { kind = 'srl' }]
";

/// ADDI x1, x0, -16; ADDI x2, x0, 4; SRL x3, x1, x2; and a word that is no instruction.
const SHIFT: &[u32] = &[0xff00_0093, 0x0040_0113, 0x0020_d1b3, 0];

const SHIFT_LINES: &str = "R pc=80000000 word=ff000093 x1=fffffff0
R pc=80000004 word=00400113 x2=00000004
R pc=80000008 word=0020d1b3 x3=0fffffff
T pc=8000000c word=00000000 cause=00000002
";

/// Cores with branches, a shifter, and multiplication and division that take so many steps in a cycle.
const LIGHT_1: &str = "isa = 'claimed'
plugin = [{ kind = 'fetch' }, { kind = 'decoder' }, { kind = 'regfile' }, { kind = 'hazard' }, { kind = 'alu' }, { kind = 'branch' }, { kind = 'shift_light' }, { kind = 'muldiv' }]
";

const LIGHT_2: &str = "isa = 'claimed'
plugin = [{ kind = 'fetch' }, { kind = 'decoder' }, { kind = 'regfile' }, { kind = 'hazard' }, { kind = 'alu' }, { kind = 'branch' }, { kind = 'shift_light' }, { kind = 'muldiv', unroll = 2 }]
";

const LIGHT_4: &str = "isa = 'claimed'
plugin = [{ kind = 'fetch' }, { kind = 'decoder' }, { kind = 'regfile' }, { kind = 'hazard' }, { kind = 'alu' }, { kind = 'branch' }, { kind = 'shift_light' }, { kind = 'muldiv', unroll = 4 }]
";

const BARREL_1: &str = "isa = 'claimed'
plugin = [{ kind = 'fetch' }, { kind = 'decoder' }, { kind = 'regfile' }, { kind = 'hazard' }, { kind = 'alu' }, { kind = 'branch' }, { kind = 'shift_barrel' }, { kind = 'muldiv' }]
";

const BARREL_2: &str = "isa = 'claimed'
plugin = [{ kind = 'fetch' }, { kind = 'decoder' }, { kind = 'regfile' }, { kind = 'hazard' }, { kind = 'alu' }, { kind = 'branch' }, { kind = 'shift_barrel' }, { kind = 'muldiv', unroll = 2 }]
";

const BARREL_4: &str = "isa = 'claimed'
plugin = [{ kind = 'fetch' }, { kind = 'decoder' }, { kind = 'regfile' }, { kind = 'hazard' }, { kind = 'alu' }, { kind = 'branch' }, { kind = 'shift_barrel' }, { kind = 'muldiv', unroll = 4 }]
";

/// ADDI x1, x0, 7; DIV x3, x1, x2, by 0; LUI x1, 0x80000; ADDI x2, x0, -1; DIV x3, x1, x2, which overflows; SRAI x4, x3, 4.
const DIVIDE: &[u32] = &[
    0x0070_0093,
    0x0220_c1b3,
    0x8000_00b7,
    0xfff0_0113,
    0x0220_c1b3,
    0x4041_d213,
];

const DIVIDE_LINES: &str = "R pc=80000000 word=00700093 x1=00000007
R pc=80000004 word=0220c1b3 x3=ffffffff
R pc=80000008 word=800000b7 x1=80000000
R pc=8000000c word=fff00113 x2=ffffffff
R pc=80000010 word=0220c1b3 x3=80000000
R pc=80000014 word=4041d213 x4=f8000000
T pc=80000018 word=00000000 cause=00000002
";

/// x1 is -7 and x2 is 2: DIV, REM, DIVU, REMU of both, MULH, MULHSU, MULHU of x1 by itself, MUL of both, DIV and REM by 0.
const SIGNS: &[u32] = &[
    0xff90_0093,
    0x0020_0113,
    0x0220_c1b3,
    0x0220_e233,
    0x0220_d2b3,
    0x0220_f333,
    0x0210_93b3,
    0x0210_a433,
    0x0210_b4b3,
    0x0220_8533,
    0x0200_c5b3,
    0x0200_e633,
];

const SIGNS_LINES: &str = "R pc=80000000 word=ff900093 x1=fffffff9
R pc=80000004 word=00200113 x2=00000002
R pc=80000008 word=0220c1b3 x3=fffffffd
R pc=8000000c word=0220e233 x4=ffffffff
R pc=80000010 word=0220d2b3 x5=7ffffffc
R pc=80000014 word=0220f333 x6=00000001
R pc=80000018 word=021093b3 x7=00000000
R pc=8000001c word=0210a433 x8=fffffff9
R pc=80000020 word=0210b4b3 x9=fffffff2
R pc=80000024 word=02208533 x10=fffffff2
R pc=80000028 word=0200c5b3 x11=ffffffff
R pc=8000002c word=0200e633 x12=fffffff9
T pc=80000030 word=00000000 cause=00000002
";

/// x1 is the least integer and x2 is -1: DIV, REM, MULH of x1 by itself, MULHSU of both.
const OVERFLOW: &[u32] = &[
    0x8000_00b7,
    0xfff0_0113,
    0x0220_c1b3,
    0x0220_e233,
    0x0210_92b3,
    0x0220_a333,
];

const OVERFLOW_LINES: &str = "R pc=80000000 word=800000b7 x1=80000000
R pc=80000004 word=fff00113 x2=ffffffff
R pc=80000008 word=0220c1b3 x3=80000000
R pc=8000000c word=0220e233 x4=00000000
R pc=80000010 word=021092b3 x5=40000000
R pc=80000014 word=0220a333 x6=80000000
T pc=80000018 word=00000000 cause=00000002
";

/// ADDI x1, x0, 7; BEQ x0, x0, 8, which is taken; a division by 0 that is not reached; and the same, reached.
const CLEAR: &[u32] = &[0x0070_0093, 0x0000_0463, 0x0220_c1b3, 0x0220_c1b3];

const CLEAR_LINES: &str = "R pc=80000000 word=00700093 x1=00000007
R pc=80000004 word=00000463
R pc=8000000c word=0220c1b3 x3=ffffffff
T pc=80000010 word=00000000 cause=00000002
";

/// Runs of cores with other units.
pub const RUNS: &[Run] = &[
    (
        RIGHT,
        "",
        SHIFT,
        SHIFT_LINES,
        "stopped cause=00000002 pc=8000000c events=4 cycles=15\n",
    ),
    (
        LIGHT_1,
        "",
        SIGNS,
        SIGNS_LINES,
        "stopped cause=00000002 pc=80000030 events=13 cycles=362\n",
    ),
    (
        LIGHT_1,
        "",
        OVERFLOW,
        OVERFLOW_LINES,
        "stopped cause=00000002 pc=80000018 events=7 cycles=152\n",
    ),
    (
        LIGHT_1,
        "",
        CLEAR,
        CLEAR_LINES,
        "stopped cause=00000002 pc=80000010 events=4 cycles=50\n",
    ),
    (
        LIGHT_1,
        "",
        DIVIDE,
        DIVIDE_LINES,
        "stopped cause=00000002 pc=80000018 events=7 cycles=90\n",
    ),
    (
        LIGHT_1,
        " --wait 3",
        DIVIDE,
        DIVIDE_LINES,
        "stopped cause=00000002 pc=80000018 events=7 cycles=118\n",
    ),
    (
        LIGHT_2,
        "",
        DIVIDE,
        DIVIDE_LINES,
        "stopped cause=00000002 pc=80000018 events=7 cycles=58\n",
    ),
    (
        LIGHT_2,
        " --wait 3",
        DIVIDE,
        DIVIDE_LINES,
        "stopped cause=00000002 pc=80000018 events=7 cycles=86\n",
    ),
    (
        LIGHT_4,
        "",
        DIVIDE,
        DIVIDE_LINES,
        "stopped cause=00000002 pc=80000018 events=7 cycles=42\n",
    ),
    (
        LIGHT_4,
        " --wait 3",
        DIVIDE,
        DIVIDE_LINES,
        "stopped cause=00000002 pc=80000018 events=7 cycles=70\n",
    ),
    (
        BARREL_1,
        "",
        DIVIDE,
        DIVIDE_LINES,
        "stopped cause=00000002 pc=80000018 events=7 cycles=88\n",
    ),
    (
        BARREL_1,
        " --wait 3",
        DIVIDE,
        DIVIDE_LINES,
        "stopped cause=00000002 pc=80000018 events=7 cycles=118\n",
    ),
    (
        BARREL_2,
        "",
        DIVIDE,
        DIVIDE_LINES,
        "stopped cause=00000002 pc=80000018 events=7 cycles=56\n",
    ),
    (
        BARREL_2,
        " --wait 3",
        DIVIDE,
        DIVIDE_LINES,
        "stopped cause=00000002 pc=80000018 events=7 cycles=86\n",
    ),
    (
        BARREL_4,
        "",
        DIVIDE,
        DIVIDE_LINES,
        "stopped cause=00000002 pc=80000018 events=7 cycles=40\n",
    ),
    (
        BARREL_4,
        " --wait 3",
        DIVIDE,
        DIVIDE_LINES,
        "stopped cause=00000002 pc=80000018 events=7 cycles=70\n",
    ),
];

/// Entries that are refused: steps that are none of 1, 2 and 4, and two plug-ins for the same instructions.
const UNROLL_3: &str = "isa = 'claimed'
plugin = [{ kind = 'fetch' }, { kind = 'decoder' }, { kind = 'regfile' }, { kind = 'hazard' }, { kind = 'alu' }, { kind = 'branch' }, { kind = 'shift_light' }, { kind = 'muldiv', unroll = 3 }]
";

const UNROLL_TRUE: &str = "isa = 'claimed'
plugin = [{ kind = 'fetch' }, { kind = 'decoder' }, { kind = 'regfile' }, { kind = 'hazard' }, { kind = 'alu' }, { kind = 'branch' }, { kind = 'shift_light' }, { kind = 'muldiv', unroll = true }]
";

const BOTH: &str = "isa = 'claimed'
plugin = [{ kind = 'fetch' }, { kind = 'decoder' }, { kind = 'regfile' }, { kind = 'hazard' }, { kind = 'alu' }, { kind = 'branch' }, { kind = 'shift_light' }, { kind = 'shift_barrel' }]
";

/// Configurations, and the line on the rule that fails; none where they are accepted.
pub const RULES: &[(&str, &str)] = &[
    (RIGHT, ""),
    (LIGHT_1, ""),
    (BARREL_4, ""),
    (UNROLL_3, "rules 3 entry=7 key=unroll\n"),
    (UNROLL_TRUE, "rules 3 entry=7 key=unroll\n"),
    (BOTH, "rules 7 entry=6 row=SLLI other=7 other_row=SLLI\n"),
];
