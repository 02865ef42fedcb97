use crate::csrs::REGISTERS;
use crate::exits::{End, have_ends};
use crate::runs::ends;
use core_tool::Status;
use std::alloc::{AllocError, Global};
use std::test::Fail;

/// A handler at 80000040, mie and mstatus set for the timer, and a WFI; the handler reads mepc and exits.
const WAITS: &[u32] = &[
    0x0000_0097,
    0x0400_8093,
    0x3050_9073,
    0x0800_0113,
    0x3041_1073,
    0x3004_5073,
    0x1050_0073,
    0x0000_0013,
    0,
    0,
    0,
    0,
    0,
    0,
    0,
    0,
    0x3410_21f3,
    0xf000_0fb7,
    0x000f_a223,
];

/// The line rises while the WFI waits.
const WOKEN: &str = "R pc=80000000 word=00000097 x1=80000000
R pc=80000004 word=04008093 x1=80000040
R pc=80000008 word=30509073
R pc=8000000c word=08000113 x2=00000080
R pc=80000010 word=30411073
R pc=80000014 word=30045073
R pc=80000018 word=10500073
I pc=8000001c cause=80000007
R pc=80000040 word=341021f3 x3=8000001c
R pc=80000044 word=f0000fb7 x31=f0000000
R pc=80000048 word=000fa223
";

/// The line is 1 before the WFI begins.
const BEFORE: &str = "R pc=80000000 word=00000097 x1=80000000
R pc=80000004 word=04008093 x1=80000040
R pc=80000008 word=30509073
R pc=8000000c word=08000113 x2=00000080
R pc=80000010 word=30411073
R pc=80000014 word=30045073
I pc=80000018 cause=80000007
R pc=80000040 word=341021f3 x3=80000018
R pc=80000044 word=f0000fb7 x31=f0000000
R pc=80000048 word=000fa223
";

/// The line is 1 in one cycle, in which the WFI ends.
const PULSE: &str = "R pc=80000000 word=00000097 x1=80000000
R pc=80000004 word=04008093 x1=80000040
R pc=80000008 word=30509073
R pc=8000000c word=08000113 x2=00000080
R pc=80000010 word=30411073
R pc=80000014 word=30045073
R pc=80000018 word=10500073
R pc=8000001c word=00000013
T pc=80000020 word=00000000 cause=00000002
R pc=80000040 word=341021f3 x3=80000020
R pc=80000044 word=f0000fb7 x31=f0000000
R pc=80000048 word=000fa223
";

/// No line that is enabled rises.
const ASLEEP: &str = "R pc=80000000 word=00000097 x1=80000000
R pc=80000004 word=04008093 x1=80000040
R pc=80000008 word=30509073
R pc=8000000c word=08000113 x2=00000080
R pc=80000010 word=30411073
R pc=80000014 word=30045073
";

/// A WFI with the timer in mie and without MIE of mstatus.
const UNMASKED: &[u32] = &[
    0x0800_0113,
    0x3041_1073,
    0x1050_0073,
    0x0010_0293,
    0xf000_0fb7,
    0x000f_a223,
];

const UNMASKED_LINES: &str = "R pc=80000000 word=08000113 x2=00000080
R pc=80000004 word=30411073
R pc=80000008 word=10500073
R pc=8000000c word=00100293 x5=00000001
R pc=80000010 word=f0000fb7 x31=f0000000
R pc=80000014 word=000fa223
";

/// mip is read, and all lines are enabled at once; the handler reads mcause, mepc and mip.
const THREE: &[u32] = &[
    0x0000_0097,
    0x0400_8093,
    0x3050_9073,
    0x3440_22f3,
    0x0000_1137,
    0x8881_0113,
    0x3041_1073,
    0x3004_6073,
    0x0010_0293,
    0xf000_0fb7,
    0x000f_a223,
    0,
    0,
    0,
    0,
    0,
    0x3420_2373,
    0x3410_23f3,
    0x3440_2473,
    0x0000_0013,
    0xf000_0fb7,
    0x000f_a223,
];

const EXTERNAL: &str = "R pc=80000000 word=00000097 x1=80000000
R pc=80000004 word=04008093 x1=80000040
R pc=80000008 word=30509073
R pc=8000000c word=344022f3 x5=00000888
R pc=80000010 word=00001137 x2=00001000
R pc=80000014 word=88810113 x2=00000888
R pc=80000018 word=30411073
R pc=8000001c word=30046073
I pc=80000020 cause=8000000b
R pc=80000040 word=34202373 x6=8000000b
R pc=80000044 word=341023f3 x7=80000020
R pc=80000048 word=34402473 x8=00000888
R pc=8000004c word=00000013
R pc=80000050 word=f0000fb7 x31=f0000000
R pc=80000054 word=000fa223
";

const SOFTWARE: &str = "R pc=80000000 word=00000097 x1=80000000
R pc=80000004 word=04008093 x1=80000040
R pc=80000008 word=30509073
R pc=8000000c word=344022f3 x5=00000088
R pc=80000010 word=00001137 x2=00001000
R pc=80000014 word=88810113 x2=00000888
R pc=80000018 word=30411073
R pc=8000001c word=30046073
I pc=80000020 cause=80000003
R pc=80000040 word=34202373 x6=80000003
R pc=80000044 word=341023f3 x7=80000020
R pc=80000048 word=34402473 x8=00000088
R pc=8000004c word=00000013
R pc=80000050 word=f0000fb7 x31=f0000000
R pc=80000054 word=000fa223
";

const TIMER: &str = "R pc=80000000 word=00000097 x1=80000000
R pc=80000004 word=04008093 x1=80000040
R pc=80000008 word=30509073
R pc=8000000c word=344022f3 x5=00000080
R pc=80000010 word=00001137 x2=00001000
R pc=80000014 word=88810113 x2=00000888
R pc=80000018 word=30411073
R pc=8000001c word=30046073
I pc=80000020 cause=80000007
R pc=80000040 word=34202373 x6=80000007
R pc=80000044 word=341023f3 x7=80000020
R pc=80000048 word=34402473 x8=00000080
R pc=8000004c word=00000013
R pc=80000050 word=f0000fb7 x31=f0000000
R pc=80000054 word=000fa223
";

const NO_LINE: &str = "R pc=80000000 word=00000097 x1=80000000
R pc=80000004 word=04008093 x1=80000040
R pc=80000008 word=30509073
R pc=8000000c word=344022f3 x5=00000000
R pc=80000010 word=00001137 x2=00001000
R pc=80000014 word=88810113 x2=00000888
R pc=80000018 word=30411073
R pc=8000001c word=30046073
R pc=80000020 word=00100293 x5=00000001
R pc=80000024 word=f0000fb7 x31=f0000000
R pc=80000028 word=000fa223
";

/// mip is read six times.
const PENDING: &[u32] = &[
    0x3440_22f3,
    0x3440_22f3,
    0x3440_22f3,
    0x3440_22f3,
    0x3440_22f3,
    0x3440_22f3,
    0xf000_0fb7,
    0x000f_a223,
];

const PENDING_LINES: &str = "R pc=80000000 word=344022f3 x5=00000000
R pc=80000004 word=344022f3 x5=00000000
R pc=80000008 word=344022f3 x5=00000000
R pc=8000000c word=344022f3 x5=00000080
R pc=80000010 word=344022f3 x5=00000000
R pc=80000014 word=344022f3 x5=00000000
R pc=80000018 word=f0000fb7 x31=f0000000
R pc=8000001c word=000fa223
";

/// Four stores of a byte of text each, with interrupts enabled before the first; the handler returns.
const STORES: &[u32] = &[
    0x0000_0097,
    0x0400_8093,
    0x3050_9073,
    0x0800_0113,
    0x3041_1073,
    0xf000_0fb7,
    0x0410_0293,
    0x3004_6073,
    0x005f_8023,
    0x0012_8293,
    0x005f_8023,
    0x0012_8293,
    0x005f_8023,
    0x0012_8293,
    0x005f_8023,
    0x000f_a223,
    0x3020_0073,
];

/// The line stays 1: the next interrupt comes before the instruction behind the return.
const HELD: &str = "R pc=80000000 word=00000097 x1=80000000
R pc=80000004 word=04008093 x1=80000040
R pc=80000008 word=30509073
R pc=8000000c word=08000113 x2=00000080
R pc=80000010 word=30411073
R pc=80000014 word=f0000fb7 x31=f0000000
R pc=80000018 word=04100293 x5=00000041
R pc=8000001c word=30046073
I pc=80000020 cause=80000007
R pc=80000040 word=30200073
I pc=80000020 cause=80000007
R pc=80000040 word=30200073
I pc=80000020 cause=80000007
R pc=80000040 word=30200073
I pc=80000020 cause=80000007
R pc=80000040 word=30200073
I pc=80000020 cause=80000007
R pc=80000040 word=30200073
I pc=80000020 cause=80000007
R pc=80000040 word=30200073
I pc=80000020 cause=80000007
R pc=80000040 word=30200073
I pc=80000020 cause=80000007
R pc=80000040 word=30200073
I pc=80000020 cause=80000007
R pc=80000040 word=30200073
I pc=80000020 cause=80000007
R pc=80000040 word=30200073
I pc=80000020 cause=80000007
R pc=80000040 word=30200073
I pc=80000020 cause=80000007
R pc=80000040 word=30200073
I pc=80000020 cause=80000007
";

/// Runs of that core with interrupt lines.
const RUNS: &[End] = &[
    (
        "",
        " --trace --irq timer@500-4000000000",
        WAITS,
        Status::Done,
        WOKEN,
        "exit code=00000000 events=11 cycles=515\n",
    ),
    (
        "stages = 2",
        " --trace --wait 3 --irq timer@500-4000000000",
        WAITS,
        Status::Done,
        WOKEN,
        "exit code=00000000 events=11 cycles=545\n",
    ),
    (
        "",
        " --trace --irq timer@0-4000000000",
        WAITS,
        Status::Done,
        BEFORE,
        "exit code=00000000 events=10 cycles=35\n",
    ),
    (
        "stages = 2",
        " --trace --wait 3 --irq timer@0-4000000000",
        WAITS,
        Status::Done,
        BEFORE,
        "exit code=00000000 events=10 cycles=100\n",
    ),
    (
        "",
        " --trace --irq timer@500-500",
        WAITS,
        Status::Done,
        PULSE,
        "exit code=00000000 events=12 cycles=518\n",
    ),
    (
        "stages = 2",
        " --trace --wait 3 --irq timer@500-500",
        WAITS,
        Status::Done,
        PULSE,
        "exit code=00000000 events=12 cycles=554\n",
    ),
    (
        "",
        " --trace --irq timer@500-501",
        WAITS,
        Status::Done,
        WOKEN,
        "exit code=00000000 events=11 cycles=515\n",
    ),
    (
        "stages = 2",
        " --trace --wait 3 --irq timer@500-501",
        WAITS,
        Status::Done,
        WOKEN,
        "exit code=00000000 events=11 cycles=545\n",
    ),
    (
        "",
        " --trace --irq timer@100-200 --irq timer@500-600",
        WAITS,
        Status::Done,
        WOKEN,
        "exit code=00000000 events=11 cycles=115\n",
    ),
    (
        "stages = 2",
        " --trace --wait 3 --irq timer@100-200 --irq timer@500-600",
        WAITS,
        Status::Done,
        WOKEN,
        "exit code=00000000 events=11 cycles=145\n",
    ),
    (
        "",
        " --trace --irq software@0-4294967295 --irq external@0-4294967295 --cycles 1000",
        WAITS,
        Status::CyclesEnded,
        ASLEEP,
        "cycles 1000 events=6\n",
    ),
    (
        "",
        " --trace --cycles 1000",
        WAITS,
        Status::CyclesEnded,
        ASLEEP,
        "cycles 1000 events=6\n",
    ),
    (
        "",
        " --trace --irq timer@100-100",
        UNMASKED,
        Status::Done,
        UNMASKED_LINES,
        "exit code=00000000 events=6 cycles=110\n",
    ),
    (
        "stages = 2",
        " --trace --wait 3 --irq timer@100-100",
        UNMASKED,
        Status::Done,
        UNMASKED_LINES,
        "exit code=00000000 events=6 cycles=128\n",
    ),
    (
        "",
        " --trace --irq software@0-4294967295 --irq timer@0-4294967295 --irq external@0-4294967295",
        THREE,
        Status::Done,
        EXTERNAL,
        "exit code=00000000 events=15 cycles=50\n",
    ),
    (
        "stages = 2",
        " --trace --wait 3 --irq software@0-4294967295 --irq timer@0-4294967295 --irq external@0-4294967295",
        THREE,
        Status::Done,
        EXTERNAL,
        "exit code=00000000 events=15 cycles=145\n",
    ),
    (
        "",
        " --trace --irq timer@0-4294967295 --irq software@0-4294967295",
        THREE,
        Status::Done,
        SOFTWARE,
        "exit code=00000000 events=15 cycles=50\n",
    ),
    (
        "",
        " --trace --irq timer@0-4294967295",
        THREE,
        Status::Done,
        TIMER,
        "exit code=00000000 events=15 cycles=50\n",
    ),
    (
        "",
        " --trace",
        THREE,
        Status::Done,
        NO_LINE,
        "exit code=00000000 events=11 cycles=38\n",
    ),
    (
        "stages = 2",
        " --trace --wait 3",
        THREE,
        Status::Done,
        NO_LINE,
        "exit code=00000000 events=11 cycles=110\n",
    ),
    (
        "",
        " --trace --irq timer@12-14",
        PENDING,
        Status::Done,
        PENDING_LINES,
        "exit code=00000000 events=8 cycles=29\n",
    ),
    (
        "",
        " --trace --irq timer@0-4294967295 --cycles 100",
        STORES,
        Status::CyclesEnded,
        HELD,
        "cycles 100 events=33\n",
    ),
];

#[test]
fn lines_interrupt_and_wake(rt: HostRuntime) -> Result<(), Fail> {
    assert!(rt; have_ends(rt.alloc(), REGISTERS, RUNS)?);
    Ok(())
}

/// The cycles, the end aside, in which the line is 1 for one cycle, and what is told of the run: with an interrupt two events more.
const SWEEP: &[(u32, u32, &str)] = &[
    (24, 27, "exit code=00000000 events=16 "),
    (27, 30, "exit code=00000000 events=18 "),
    (30, 32, "exit code=00000000 events=16 "),
    (32, 36, "exit code=00000000 events=18 "),
    (36, 38, "exit code=00000000 events=16 "),
    (38, 42, "exit code=00000000 events=18 "),
    (42, 44, "exit code=00000000 events=16 "),
    (44, 48, "exit code=00000000 events=18 "),
    (48, 50, "exit code=00000000 events=16 "),
    (50, 51, "exit code=00000000 events=18 "),
    (51, 53, "exit code=00000000 events=16 "),
];

/// Whether the four stores are made once each where the timer is 1 in this cycle alone, and the run ends so.
fn stores_once(alloc: Global, cycle: u32, line: &str) -> Result<bool, AllocError> {
    let text = format!(in alloc; "run c i --irq timer@{cycle}-{cycle}")?;
    ends(
        alloc,
        text.as_str(),
        REGISTERS,
        STORES,
        (Status::Done, "ABCD", line),
    )
}

#[test]
fn an_interrupt_repeats_and_loses_no_store(rt: HostRuntime) -> Result<(), Fail> {
    for (from, to, line) in SWEEP {
        for cycle in *from..*to {
            assert!(rt; stores_once(rt.alloc(), cycle, *line)?, "{cycle}");
        }
    }
    Ok(())
}

/// The call of a run with so many spans.
fn with_spans(alloc: Global, count: u32) -> Result<String, AllocError> {
    let mut text = String::from_str(alloc, "run c i --cycles 1")?;
    for _ in 0..count {
        text.push_str(" --irq timer@1-2")?;
    }
    Ok(text)
}

#[test]
fn sixteen_spans_are_taken(rt: HostRuntime) -> Result<(), Fail> {
    let alloc = rt.alloc();
    let most = with_spans(alloc, 16)?;
    let taken = (Status::CyclesEnded, "", "cycles 1 events=0\n");
    assert!(rt; ends(alloc, most.as_str(), REGISTERS, &[], taken)?);
    let more = with_spans(alloc, 17)?;
    let refused = (Status::Usage, "", "usage\n");
    assert!(rt; ends(alloc, more.as_str(), REGISTERS, &[], refused)?);
    Ok(())
}
