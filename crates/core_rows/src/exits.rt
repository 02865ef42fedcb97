use crate::hosts::{ROOM, config, end_of, host_with_room, words};
use crate::loads::INTEGER;
use crate::runs::{bytes_of, ends};
use crate::{caches, csrs};
use core_host::Port;
use core_tool::Status;
use std::alloc::{AllocError, Global};

/// A run: other lines of the core's configuration, the options, the image, the status, and what is pushed on the two ports.
pub type End = (
    &'static str,
    &'static str,
    &'static [u32],
    Status,
    &'static str,
    &'static str,
);

/// LUI x31, 0xf0000; ADDI x5, x0, 65; SB x5, 0(x31), a byte of text; SW x0, 4(x31), the exit.
const PRINT: &[u32] = &[0xf000_0fb7, 0x0410_0293, 0x005f_8023, 0x000f_a223];

const PRINT_LINES: &str = "R pc=80000000 word=f0000fb7 x31=f0000000
R pc=80000004 word=04100293 x5=00000041
R pc=80000008 word=005f8023
R pc=8000000c word=000fa223
";

/// LUI x31, 0xf0000; ADDI x5, x0, 72; SB, SH and SW of x5 at 0, a byte of text each; SB at 1, SH at 2, SB at 8, nothing; LW x6 at 0,
/// which is 0; SH at 4, the exit.
const WINDOW: &[u32] = &[
    0xf000_0fb7,
    0x0480_0293,
    0x005f_8023,
    0x005f_9023,
    0x005f_a023,
    0x005f_80a3,
    0x005f_9123,
    0x005f_8423,
    0x000f_a303,
    0x005f_9223,
];

const WINDOW_LINES: &str = "R pc=80000000 word=f0000fb7 x31=f0000000
R pc=80000004 word=04800293 x5=00000048
R pc=80000008 word=005f8023
R pc=8000000c word=005f9023
R pc=80000010 word=005fa023
R pc=80000014 word=005f80a3
R pc=80000018 word=005f9123
R pc=8000001c word=005f8423
R pc=80000020 word=000fa303 x6=00000000
R pc=80000024 word=005f9223
";

/// LUI x31, 0xf0000; ADDI x5, x0, -2; the exit by SW, SH or SB of x5.
const WORD_CODE: &[u32] = &[0xf000_0fb7, 0xffe0_0293, 0x005f_a223];

const HALF_CODE: &[u32] = &[0xf000_0fb7, 0xffe0_0293, 0x005f_9223];

const BYTE_CODE: &[u32] = &[0xf000_0fb7, 0xffe0_0293, 0x005f_8223];

const ENDS: &[End] = &[
    (
        "",
        "",
        PRINT,
        Status::Done,
        "A",
        "exit code=00000000 events=4 cycles=17\n",
    ),
    (
        "stages = 2",
        "",
        PRINT,
        Status::Done,
        "A",
        "exit code=00000000 events=4 cycles=17\n",
    ),
    (
        "stages = 3",
        "",
        PRINT,
        Status::Done,
        "A",
        "exit code=00000000 events=4 cycles=17\n",
    ),
    (
        "",
        " --wait 3",
        PRINT,
        Status::Done,
        "A",
        "exit code=00000000 events=4 cycles=47\n",
    ),
    (
        "",
        " --trace",
        PRINT,
        Status::Done,
        PRINT_LINES,
        "exit code=00000000 events=4 cycles=17\n",
    ),
    (
        "",
        " --trace --wait 3",
        PRINT,
        Status::Done,
        PRINT_LINES,
        "exit code=00000000 events=4 cycles=47\n",
    ),
    (
        "",
        " --cycles 17",
        PRINT,
        Status::Done,
        "A",
        "exit code=00000000 events=4 cycles=17\n",
    ),
    (
        "",
        " --cycles 16",
        PRINT,
        Status::CyclesEnded,
        "A",
        "cycles 16 events=3\n",
    ),
    (
        "",
        "",
        WINDOW,
        Status::Done,
        "HHH",
        "exit code=00000048 events=10 cycles=35\n",
    ),
    (
        "",
        " --wait 3",
        WINDOW,
        Status::Done,
        "HHH",
        "exit code=00000048 events=10 cycles=101\n",
    ),
    (
        "",
        " --trace",
        WINDOW,
        Status::Done,
        WINDOW_LINES,
        "exit code=00000048 events=10 cycles=35\n",
    ),
    (
        "",
        "",
        WORD_CODE,
        Status::Done,
        "",
        "exit code=fffffffe events=3 cycles=14\n",
    ),
    (
        "",
        " --wait 3",
        WORD_CODE,
        Status::Done,
        "",
        "exit code=fffffffe events=3 cycles=38\n",
    ),
    (
        "",
        "",
        HALF_CODE,
        Status::Done,
        "",
        "exit code=0000fffe events=3 cycles=14\n",
    ),
    (
        "",
        " --wait 3",
        HALF_CODE,
        Status::Done,
        "",
        "exit code=0000fffe events=3 cycles=38\n",
    ),
    (
        "",
        "",
        BYTE_CODE,
        Status::Done,
        "",
        "exit code=000000fe events=3 cycles=14\n",
    ),
    (
        "",
        " --wait 3",
        BYTE_CODE,
        Status::Done,
        "",
        "exit code=000000fe events=3 cycles=38\n",
    ),
];

/// Whether each run of this core ends as its row says.
pub fn have_ends(alloc: Global, core: &str, runs: &[End]) -> Result<bool, AllocError> {
    for (lines, options, image, status, main, line) in runs {
        let text = format!(in alloc; "run c i{options}")?;
        let config = config(alloc, core, *lines)?;
        let wanted = (*status, *main, *line);
        if !ends(alloc, text.as_str(), config.as_str(), *image, wanted)? {
            return Ok(false);
        }
    }
    Ok(true)
}

/// Whether each core's runs end by their exit.
pub fn exits_are_right(alloc: Global) -> Result<bool, AllocError> {
    Ok(
        have_ends(alloc, INTEGER, ENDS)?
            && have_ends(alloc, csrs::REGISTERS, csrs::RUNS)?
            && have_ends(alloc, caches::WHOLE, caches::ENDS)?,
    )
}

/// Hosts that fail, the seventh call being the first push, that move a byte at a time, or that have no room: the call that fails, how many
/// bytes a call moves, the room of each port, the status, and what is pushed on the main port.
const FAULTS: &[(u32, u32, u32, Status, &str)] = &[
    (7, 0, ROOM, Status::WriteFault, ""),
    (0, 0, 0, Status::WriteFault, ""),
    (0, 1, ROOM, Status::Done, "A"),
];

/// Whether the run that writes a byte of text ends so on such a host.
fn fails(alloc: Global, host: (u32, u32, u32), wanted: (Status, &str)) -> Result<bool, AllocError> {
    let image = bytes_of(alloc, PRINT)?;
    let (call, bite, room) = host;
    let core = INTEGER.as_bytes();
    let mut host = host_with_room(alloc, core, image.as_slice(), &[call], (bite, room))?;
    let status = end_of(alloc, &words(alloc, "run c i")?, &mut host)?;
    Ok(status == wanted.0 && host.pushed(Port::Main).as_slice() == wanted.1.as_bytes())
}

/// Whether each such host cuts the text off as it is to.
pub fn cuts_are_right(alloc: Global) -> Result<bool, AllocError> {
    for (call, bite, room, status, main) in FAULTS {
        if !fails(alloc, (*call, *bite, *room), (*status, *main))? {
            return Ok(false);
        }
    }
    Ok(true)
}
