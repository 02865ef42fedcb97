use crate::runs::Run;

/// A core with branches and jumps.
const BRANCHES: &str = "isa = 'claimed'
plugin = [{ kind = 'fetch' }, { kind = 'decoder' }, { kind = 'regfile' }, { kind = 'hazard' }, { kind = 'alu' }, { kind = 'branch' }]
";

/// The same with prediction, of the style that is the default, and of each.
const PREDICTS: &str = "isa = 'claimed'
plugin = [{ kind = 'fetch' }, { kind = 'decoder' }, { kind = 'regfile' }, { kind = 'hazard' }, { kind = 'alu' }, { kind = 'branch' }, { kind = 'predict' }]
";

const STATIC: &str = "isa = 'claimed'
plugin = [{ kind = 'fetch' }, { kind = 'decoder' }, { kind = 'regfile' }, { kind = 'hazard' }, { kind = 'alu' }, { kind = 'branch' }, { kind = 'predict', style = 'static' }]
";

const NEXT: &str = "isa = 'claimed'
plugin = [{ kind = 'fetch' }, { kind = 'decoder' }, { kind = 'regfile' }, { kind = 'hazard' }, { kind = 'alu' }, { kind = 'branch' }, { kind = 'predict', style = 'next' }]
";

/// Entries of prediction that are refused.
const DYNAMIC: &str = "isa = 'claimed'
plugin = [{ kind = 'fetch' }, { kind = 'decoder' }, { kind = 'regfile' }, { kind = 'hazard' }, { kind = 'alu' }, { kind = 'branch' }, { kind = 'predict', style = 'dynamic' }]
";

const DEEP: &str = "isa = 'claimed'
plugin = [{ kind = 'fetch' }, { kind = 'decoder' }, { kind = 'regfile' }, { kind = 'hazard' }, { kind = 'alu' }, { kind = 'branch' }, { kind = 'predict', depth = 1 }]
";

/// The same entries where the set is that of the base integer instructions.
const BASE: &str = "isa = 'rv32i'
plugin = [{ kind = 'fetch' }, { kind = 'decoder' }, { kind = 'regfile' }, { kind = 'hazard' }, { kind = 'alu' }, { kind = 'branch' }]
";

/// ADDI x5, x0, 7; JALR x1, 0(x5): the target 6 is no multiple of 4.
const TO_6: &[u32] = &[0x0070_0293, 0x0002_80e7];

const TO_6_LINES: &str = "R pc=80000000 word=00700293 x5=00000007
T pc=80000004 word=000280e7 cause=00000000
";

/// ADDI x1, x0, 3; ADDI x1, x1, -1; BNE x1, x0, -4; and a word that is no instruction.
const LOOP: &[u32] = &[0x0030_0093, 0xfff0_8093, 0xfe00_9ee3, 0];

const LOOP_LINES: &str = "R pc=80000000 word=00300093 x1=00000003
R pc=80000004 word=fff08093 x1=00000002
R pc=80000008 word=fe009ee3
R pc=80000004 word=fff08093 x1=00000001
R pc=80000008 word=fe009ee3
R pc=80000004 word=fff08093 x1=00000000
R pc=80000008 word=fe009ee3
T pc=8000000c word=00000000 cause=00000002
";

/// AUIPC x5, 0; JALR x1, 9(x5): bit 0 of the sum is cleared.
const ODD: &[u32] = &[0x0000_0297, 0x0092_80e7];

const ODD_LINES: &str = "R pc=80000000 word=00000297 x5=80000000
R pc=80000004 word=009280e7 x1=80000008
T pc=80000008 word=00000000 cause=00000002
";

/// BNE x0, x0, 2: it is not taken.
const STAYS: &[u32] = &[0x0000_1163];

const STAYS_LINES: &str = "R pc=80000000 word=00001163
T pc=80000004 word=00000000 cause=00000002
";

/// BEQ x0, x0, 2: it is taken.
const BREAKS: &[u32] = &[0x0000_0163];

const BREAKS_LINES: &str = "T pc=80000000 word=00000163 cause=00000000
";

/// JAL x0, -4: out of memory.
const OUT: &[u32] = &[0xffdf_f06f];

const OUT_LINES: &str = "R pc=80000000 word=ffdff06f
T pc=7ffffffc word=00000000 cause=00000001
";

/// ADDI x1, x0, -1; BLT x1, x0, 8; a word that is no instruction; BLTU x1, x0, 8; and another.
const ORDERS: &[u32] = &[0xfff0_0093, 0x0000_c463, 0, 0x0000_e463, 0];

const ORDERS_LINES: &str = "R pc=80000000 word=fff00093 x1=ffffffff
R pc=80000004 word=0000c463
R pc=8000000c word=0000e463
T pc=80000010 word=00000000 cause=00000002
";

/// JAL x1, 8; a word that is no instruction; JALR x0, 8(x1); ADDI x3, x0, 3.
const LINK: &[u32] = &[0x0080_00ef, 0, 0x0080_8067, 0x0030_0193];

const LINK_LINES: &str = "R pc=80000000 word=008000ef x1=80000004
R pc=80000008 word=00808067
R pc=8000000c word=00300193 x3=00000003
T pc=80000010 word=00000000 cause=00000002
";

/// Runs of cores with branches.
pub const RUNS: &[Run] = &[
    (
        BRANCHES,
        "",
        TO_6,
        TO_6_LINES,
        "stopped cause=00000000 pc=80000004 events=2 cycles=9\n",
    ),
    (
        BRANCHES,
        " --wait 3",
        TO_6,
        TO_6_LINES,
        "stopped cause=00000000 pc=80000004 events=2 cycles=21\n",
    ),
    (
        BRANCHES,
        "",
        LOOP,
        LOOP_LINES,
        "stopped cause=00000002 pc=8000000c events=8 cycles=33\n",
    ),
    (
        BRANCHES,
        " --wait 3",
        LOOP,
        LOOP_LINES,
        "stopped cause=00000002 pc=8000000c events=8 cycles=93\n",
    ),
    (
        PREDICTS,
        "",
        LOOP,
        LOOP_LINES,
        "stopped cause=00000002 pc=8000000c events=8 cycles=30\n",
    ),
    (
        PREDICTS,
        " --wait 3",
        LOOP,
        LOOP_LINES,
        "stopped cause=00000002 pc=8000000c events=8 cycles=84\n",
    ),
    (
        STATIC,
        "",
        LOOP,
        LOOP_LINES,
        "stopped cause=00000002 pc=8000000c events=8 cycles=30\n",
    ),
    (
        STATIC,
        " --wait 3",
        LOOP,
        LOOP_LINES,
        "stopped cause=00000002 pc=8000000c events=8 cycles=84\n",
    ),
    (
        NEXT,
        "",
        LOOP,
        LOOP_LINES,
        "stopped cause=00000002 pc=8000000c events=8 cycles=33\n",
    ),
    (
        NEXT,
        " --wait 3",
        LOOP,
        LOOP_LINES,
        "stopped cause=00000002 pc=8000000c events=8 cycles=93\n",
    ),
    (
        BRANCHES,
        "",
        ODD,
        ODD_LINES,
        "stopped cause=00000002 pc=80000008 events=3 cycles=12\n",
    ),
    (
        BRANCHES,
        "",
        STAYS,
        STAYS_LINES,
        "stopped cause=00000002 pc=80000004 events=2 cycles=9\n",
    ),
    (
        BRANCHES,
        "",
        BREAKS,
        BREAKS_LINES,
        "stopped cause=00000000 pc=80000000 events=1 cycles=6\n",
    ),
    (
        BRANCHES,
        "",
        OUT,
        OUT_LINES,
        "stopped cause=00000001 pc=7ffffffc events=2 cycles=12\n",
    ),
    (
        BRANCHES,
        "",
        ORDERS,
        ORDERS_LINES,
        "stopped cause=00000002 pc=80000010 events=4 cycles=18\n",
    ),
    (
        BRANCHES,
        "",
        LINK,
        LINK_LINES,
        "stopped cause=00000002 pc=80000010 events=4 cycles=18\n",
    ),
];

/// Configurations, and the line on the rule that fails; none where they are accepted.
pub const RULES: &[(&str, &str)] = &[
    (BRANCHES, ""),
    (PREDICTS, ""),
    (STATIC, ""),
    (NEXT, ""),
    (BASE, "rules 8 row=LB\n"),
    (DYNAMIC, "rules 3 entry=6 key=style\n"),
    (DEEP, "rules 3 entry=6 key=depth\n"),
];
