use crate::exits::End;
use core_tool::Status;

/// The core with system registers and traps.
pub const REGISTERS: &str = "isa = 'rv32i_zicsr'
plugin = [{ kind = 'fetch' }, { kind = 'decoder' }, { kind = 'regfile' }, { kind = 'hazard' }, { kind = 'alu' }, { kind = 'shift_barrel' }, { kind = 'branch' }, { kind = 'dbus' }, { kind = 'csr' }]
";

/// Traps, and returns from them behind the instruction.
const TRAPS: &[u32] = &[
    0x0000_0097,
    0x0400_8093,
    0x3050_9073,
    0x0000_0073,
    0x0010_0073,
    0,
    0x0020_2283,
    0x0000_2023,
    0x0010_0293,
    0xf000_0fb7,
    0x000f_a223,
    0,
    0,
    0,
    0,
    0,
    0x3420_23f3,
    0x3430_2473,
    0x3410_24f3,
    0x0044_8493,
    0x3414_9073,
    0x3020_0073,
];

const TRAPS_LINES: &str = "R pc=80000000 word=00000097 x1=80000000
R pc=80000004 word=04008093 x1=80000040
R pc=80000008 word=30509073
T pc=8000000c word=00000073 cause=0000000b
R pc=80000040 word=342023f3 x7=0000000b
R pc=80000044 word=34302473 x8=00000000
R pc=80000048 word=341024f3 x9=8000000c
R pc=8000004c word=00448493 x9=80000010
R pc=80000050 word=34149073
R pc=80000054 word=30200073
T pc=80000010 word=00100073 cause=00000003
R pc=80000040 word=342023f3 x7=00000003
R pc=80000044 word=34302473 x8=00000000
R pc=80000048 word=341024f3 x9=80000010
R pc=8000004c word=00448493 x9=80000014
R pc=80000050 word=34149073
R pc=80000054 word=30200073
T pc=80000014 word=00000000 cause=00000002
R pc=80000040 word=342023f3 x7=00000002
R pc=80000044 word=34302473 x8=00000000
R pc=80000048 word=341024f3 x9=80000014
R pc=8000004c word=00448493 x9=80000018
R pc=80000050 word=34149073
R pc=80000054 word=30200073
T pc=80000018 word=00202283 cause=00000004
R pc=80000040 word=342023f3 x7=00000004
R pc=80000044 word=34302473 x8=00000002
R pc=80000048 word=341024f3 x9=80000018
R pc=8000004c word=00448493 x9=8000001c
R pc=80000050 word=34149073
R pc=80000054 word=30200073
T pc=8000001c word=00002023 cause=00000007
R pc=80000040 word=342023f3 x7=00000007
R pc=80000044 word=34302473 x8=00000000
R pc=80000048 word=341024f3 x9=8000001c
R pc=8000004c word=00448493 x9=80000020
R pc=80000050 word=34149073
R pc=80000054 word=30200073
R pc=80000020 word=00100293 x5=00000001
R pc=80000024 word=f0000fb7 x31=f0000000
R pc=80000028 word=000fa223
";

/// Accesses that are refused, and one that is not.
const REFUSED: &[u32] = &[
    0x0000_0097,
    0x0400_8093,
    0x3050_9073,
    0xf140_5073,
    0xf110_e073,
    0xf120_72f3,
    0x3060_22f3,
    0xc000_22f3,
    0xf000_0fb7,
    0x000f_a223,
    0,
    0,
    0,
    0,
    0,
    0,
    0x3420_2373,
    0x3430_2473,
    0x3410_24f3,
    0x0044_8493,
    0x3414_9073,
    0x3020_0073,
];

const REFUSED_LINES: &str = "R pc=80000000 word=00000097 x1=80000000
R pc=80000004 word=04008093 x1=80000040
R pc=80000008 word=30509073
T pc=8000000c word=f1405073 cause=00000002
R pc=80000040 word=34202373 x6=00000002
R pc=80000044 word=34302473 x8=f1405073
R pc=80000048 word=341024f3 x9=8000000c
R pc=8000004c word=00448493 x9=80000010
R pc=80000050 word=34149073
R pc=80000054 word=30200073
T pc=80000010 word=f110e073 cause=00000002
R pc=80000040 word=34202373 x6=00000002
R pc=80000044 word=34302473 x8=f110e073
R pc=80000048 word=341024f3 x9=80000010
R pc=8000004c word=00448493 x9=80000014
R pc=80000050 word=34149073
R pc=80000054 word=30200073
R pc=80000014 word=f12072f3 x5=00000000
T pc=80000018 word=306022f3 cause=00000002
R pc=80000040 word=34202373 x6=00000002
R pc=80000044 word=34302473 x8=306022f3
R pc=80000048 word=341024f3 x9=80000018
R pc=8000004c word=00448493 x9=8000001c
R pc=80000050 word=34149073
R pc=80000054 word=30200073
T pc=8000001c word=c00022f3 cause=00000002
R pc=80000040 word=34202373 x6=00000002
R pc=80000044 word=34302473 x8=c00022f3
R pc=80000048 word=341024f3 x9=8000001c
R pc=8000004c word=00448493 x9=80000020
R pc=80000050 word=34149073
R pc=80000054 word=30200073
R pc=80000020 word=f0000fb7 x31=f0000000
R pc=80000024 word=000fa223
";

/// mstatus at a trap and behind a return.
const STATUS: &[u32] = &[
    0x0000_0097,
    0x0400_8093,
    0x3050_9073,
    0x0000_0073,
    0x3000_22f3,
    0x3004_6073,
    0x0000_0073,
    0x3000_2373,
    0xf000_0fb7,
    0x000f_a223,
    0,
    0,
    0,
    0,
    0,
    0,
    0x3000_23f3,
    0x3410_24f3,
    0x0044_8493,
    0x3414_9073,
    0x3020_0073,
];

const STATUS_LINES: &str = "R pc=80000000 word=00000097 x1=80000000
R pc=80000004 word=04008093 x1=80000040
R pc=80000008 word=30509073
T pc=8000000c word=00000073 cause=0000000b
R pc=80000040 word=300023f3 x7=00001800
R pc=80000044 word=341024f3 x9=8000000c
R pc=80000048 word=00448493 x9=80000010
R pc=8000004c word=34149073
R pc=80000050 word=30200073
R pc=80000010 word=300022f3 x5=00001880
R pc=80000014 word=30046073
T pc=80000018 word=00000073 cause=0000000b
R pc=80000040 word=300023f3 x7=00001880
R pc=80000044 word=341024f3 x9=80000018
R pc=80000048 word=00448493 x9=8000001c
R pc=8000004c word=34149073
R pc=80000050 word=30200073
R pc=8000001c word=30002373 x6=00001888
R pc=80000020 word=f0000fb7 x31=f0000000
R pc=80000024 word=000fa223
";

/// Which bits of each register can be written.
const MASKS: &[u32] = &[
    0xfff0_0293,
    0x3002_9373,
    0x3000_23f3,
    0x3042_9073,
    0x3040_2473,
    0x3052_9073,
    0x3050_24f3,
    0x3402_9073,
    0x3400_2573,
    0x3412_9073,
    0x3410_25f3,
    0x3422_9073,
    0x3420_2673,
    0x3432_9073,
    0x3430_26f3,
    0x3442_9073,
    0x3440_2773,
    0x3012_9073,
    0x3010_27f3,
    0xf000_0fb7,
    0x000f_a223,
];

const MASKS_LINES: &str = "R pc=80000000 word=fff00293 x5=ffffffff
R pc=80000004 word=30029373 x6=00001800
R pc=80000008 word=300023f3 x7=00001888
R pc=8000000c word=30429073
R pc=80000010 word=30402473 x8=00000888
R pc=80000014 word=30529073
R pc=80000018 word=305024f3 x9=fffffffc
R pc=8000001c word=34029073
R pc=80000020 word=34002573 x10=ffffffff
R pc=80000024 word=34129073
R pc=80000028 word=341025f3 x11=fffffffc
R pc=8000002c word=34229073
R pc=80000030 word=34202673 x12=ffffffff
R pc=80000034 word=34329073
R pc=80000038 word=343026f3 x13=ffffffff
R pc=8000003c word=34429073
R pc=80000040 word=34402773 x14=00000000
R pc=80000044 word=30129073
R pc=80000048 word=301027f3 x15=40000100
R pc=8000004c word=f0000fb7 x31=f0000000
R pc=80000050 word=000fa223
";

/// Writes, sets and clears, from a register and at once.
const SETS: &[u32] = &[
    0x0f00_0293,
    0x3402_9073,
    0x3407_e373,
    0x3408_f3f3,
    0x340f_d473,
    0x3402_a4f3,
    0x3402_b573,
    0x3400_25f3,
    0xf000_0fb7,
    0x000f_a223,
];

const SETS_LINES: &str = "R pc=80000000 word=0f000293 x5=000000f0
R pc=80000004 word=34029073
R pc=80000008 word=3407e373 x6=000000f0
R pc=8000000c word=3408f3f3 x7=000000ff
R pc=80000010 word=340fd473 x8=000000ee
R pc=80000014 word=3402a4f3 x9=0000001f
R pc=80000018 word=3402b573 x10=000000ff
R pc=8000001c word=340025f3 x11=0000000f
R pc=80000020 word=f0000fb7 x31=f0000000
R pc=80000024 word=000fa223
";

/// A trap to the instruction behind it.
const BEHIND: &[u32] = &[
    0x0000_0097,
    0x0140_8093,
    0x3050_9073,
    0x0070_0293,
    0x0000_2283,
    0x0002_8313,
    0xf000_0fb7,
    0x000f_a223,
];

const BEHIND_LINES: &str = "R pc=80000000 word=00000097 x1=80000000
R pc=80000004 word=01408093 x1=80000014
R pc=80000008 word=30509073
R pc=8000000c word=00700293 x5=00000007
T pc=80000010 word=00002283 cause=00000005
R pc=80000014 word=00028313 x6=00000007
R pc=80000018 word=f0000fb7 x31=f0000000
R pc=8000001c word=000fa223
";

/// A write behind a taken branch is not made.
const TAKEN: &[u32] = &[
    0x0010_0293,
    0x3402_9073,
    0x0000_0463,
    0x3400_1073,
    0x3400_2373,
    0xf000_0fb7,
    0x000f_a223,
];

const TAKEN_LINES: &str = "R pc=80000000 word=00100293 x5=00000001
R pc=80000004 word=34029073
R pc=80000008 word=00000463
R pc=80000010 word=34002373 x6=00000001
R pc=80000014 word=f0000fb7 x31=f0000000
R pc=80000018 word=000fa223
";

/// A write behind an ECALL is not made.
const CALLED: &[u32] = &[
    0x0000_0097,
    0x0200_8093,
    0x3050_9073,
    0x0010_0293,
    0x3402_9073,
    0x0000_0073,
    0x3400_1073,
    0x0000_0013,
    0x3400_2373,
    0xf000_0fb7,
    0x000f_a223,
];

const CALLED_LINES: &str = "R pc=80000000 word=00000097 x1=80000000
R pc=80000004 word=02008093 x1=80000020
R pc=80000008 word=30509073
R pc=8000000c word=00100293 x5=00000001
R pc=80000010 word=34029073
T pc=80000014 word=00000073 cause=0000000b
R pc=80000020 word=34002373 x6=00000001
R pc=80000024 word=f0000fb7 x31=f0000000
R pc=80000028 word=000fa223
";

/// Runs of that core to their exit.
pub const RUNS: &[End] = &[
    (
        "",
        " --trace",
        TRAPS,
        Status::Done,
        TRAPS_LINES,
        "exit code=00000000 events=41 cycles=156\n",
    ),
    (
        "stages = 2",
        " --trace --wait 3",
        TRAPS,
        Status::Done,
        TRAPS_LINES,
        "exit code=00000000 events=41 cycles=474\n",
    ),
    (
        "",
        " --trace",
        REFUSED,
        Status::Done,
        REFUSED_LINES,
        "exit code=00000000 events=34 cycles=127\n",
    ),
    (
        "stages = 2",
        " --trace --wait 3",
        REFUSED,
        Status::Done,
        REFUSED_LINES,
        "exit code=00000000 events=34 cycles=385\n",
    ),
    (
        "",
        " --trace",
        STATUS,
        Status::Done,
        STATUS_LINES,
        "exit code=00000000 events=20 cycles=75\n",
    ),
    (
        "stages = 2",
        " --trace --wait 3",
        STATUS,
        Status::Done,
        STATUS_LINES,
        "exit code=00000000 events=20 cycles=225\n",
    ),
    (
        "",
        " --trace",
        MASKS,
        Status::Done,
        MASKS_LINES,
        "exit code=00000000 events=21 cycles=68\n",
    ),
    (
        "stages = 2",
        " --trace --wait 3",
        MASKS,
        Status::Done,
        MASKS_LINES,
        "exit code=00000000 events=21 cycles=200\n",
    ),
    (
        "",
        " --trace",
        SETS,
        Status::Done,
        SETS_LINES,
        "exit code=00000000 events=10 cycles=35\n",
    ),
    (
        "stages = 2",
        " --trace --wait 3",
        SETS,
        Status::Done,
        SETS_LINES,
        "exit code=00000000 events=10 cycles=101\n",
    ),
    (
        "",
        " --trace",
        BEHIND,
        Status::Done,
        BEHIND_LINES,
        "exit code=00000000 events=8 cycles=34\n",
    ),
    (
        "stages = 2",
        " --trace --wait 3",
        BEHIND,
        Status::Done,
        BEHIND_LINES,
        "exit code=00000000 events=8 cycles=100\n",
    ),
    (
        "",
        " --trace",
        TAKEN,
        Status::Done,
        TAKEN_LINES,
        "exit code=00000000 events=6 cycles=26\n",
    ),
    (
        "stages = 2",
        " --trace --wait 3",
        TAKEN,
        Status::Done,
        TAKEN_LINES,
        "exit code=00000000 events=6 cycles=74\n",
    ),
    (
        "",
        " --trace",
        CALLED,
        Status::Done,
        CALLED_LINES,
        "exit code=00000000 events=9 cycles=34\n",
    ),
    (
        "stages = 2",
        " --trace --wait 3",
        CALLED,
        Status::Done,
        CALLED_LINES,
        "exit code=00000000 events=9 cycles=100\n",
    ),
];

/// Which configurations with it are accepted.
pub const RULES: &[(&str, &str)] = &[
    (REGISTERS, ""),
    (
        "isa = 'rv32i_zicsr'
plugin = [{ kind = 'fetch' }, { kind = 'decoder' }, { kind = 'regfile' }, { kind = 'hazard' }, { kind = 'alu' }, { kind = 'shift_barrel' }, { kind = 'branch' }, { kind = 'dbus' }]
",
        "rules 8 row=CSRRW\n",
    ),
    (
        "isa = 'rv32i'
plugin = [{ kind = 'fetch' }, { kind = 'decoder' }, { kind = 'regfile' }, { kind = 'hazard' }, { kind = 'alu' }, { kind = 'shift_barrel' }, { kind = 'branch' }, { kind = 'dbus' }, { kind = 'csr' }]
",
        "rules 9 entry=8 row=CSRRW\n",
    ),
    (
        "isa = 'rv32i_zicsr'
plugin = [{ kind = 'fetch' }, { kind = 'decoder' }, { kind = 'regfile' }, { kind = 'hazard' }, { kind = 'alu' }, { kind = 'shift_barrel' }, { kind = 'branch' }, { kind = 'dbus' }, { kind = 'csr' }, { kind = 'csr' }]
",
        "rules 2 entry=8 other=9\n",
    ),
    (
        "isa = 'rv32i_zicsr'
plugin = [{ kind = 'fetch' }, { kind = 'decoder' }, { kind = 'regfile' }, { kind = 'hazard' }, { kind = 'alu' }, { kind = 'shift_barrel' }, { kind = 'branch' }, { kind = 'dbus' }, { kind = 'csr', user = true }]
",
        "rules 3 entry=8 key=user\n",
    ),
    (
        "isa = 'rv32i_zicsr_zifencei'
plugin = [{ kind = 'fetch' }, { kind = 'decoder' }, { kind = 'regfile' }, { kind = 'hazard' }, { kind = 'alu' }, { kind = 'shift_barrel' }, { kind = 'branch' }, { kind = 'dbus' }, { kind = 'csr' }]
",
        "rules 8 row=FENCE.I\n",
    ),
];
