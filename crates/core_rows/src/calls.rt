use crate::hosts::{config, end_of, host, words};
use core_host::{MemHost, Port};
use core_tool::Status;
use std::alloc::{AllocError, Global};

/// ADDI x1, x0, 5; ADDI x2, x1, 7; ADD x3, x1, x2; and a word that is no instruction.
const IMAGE: [u8; 16] = [
    0x93, 0x00, 0x50, 0x00, 0x13, 0x81, 0x70, 0x00, 0xb3, 0x81, 0x20, 0x00, 0, 0, 0, 0,
];

/// The lines of a run of that image.
const LINES: &str = "R pc=80000000 word=00500093 x1=00000005
R pc=80000004 word=00708113 x2=0000000c
R pc=80000008 word=002081b3 x3=00000011
T pc=8000000c word=00000000 cause=00000002
";

/// The lines of a run of that image in a memory from 00001000 on.
const LOW_LINES: &str = "R pc=00001000 word=00500093 x1=00000005
R pc=00001004 word=00708113 x2=0000000c
R pc=00001008 word=002081b3 x3=00000011
T pc=0000100c word=00000000 cause=00000002
";

/// The smallest core.
const SMALL: &str = "isa = 'claimed'
plugin = [{ kind = 'fetch' }, { kind = 'decoder' }, { kind = 'regfile' }, { kind = 'hazard' }, { kind = 'alu' }]
";

/// The same where an operand waits for its register.
const WAITING: &str = "isa = 'claimed'
plugin = [{ kind = 'fetch' }, { kind = 'decoder' }, { kind = 'regfile' }, { kind = 'hazard', bypass = false }, { kind = 'alu' }]
";

/// The same with four words fetched ahead.
const DEEP: &str = "isa = 'claimed'
plugin = [{ kind = 'fetch', depth = 4 }, { kind = 'decoder' }, { kind = 'regfile' }, { kind = 'hazard' }, { kind = 'alu' }]
";

/// No entry.
const NONE: &str = "";

/// The line on a configuration with no entry.
const NO_FETCH: &str = "rules 4 service=fetch by=-\n";

/// How a call ended, and its host.
#[derive(Drop)]
struct Answer {
    status: Status,
    host: MemHost,
}

impl Answer {
    /// Whether it ended so, with this text on the main port and this line on that of notes.
    fn is(&self, status: Status, main: &str, notes: &str) -> bool {
        let text = self.host.pushed(Port::Main).as_slice();
        let line = self.host.pushed(Port::Notes).as_slice();
        self.status == status && text == main.as_bytes() && line == notes.as_bytes()
    }
}

/// Calls with these words.
fn call_words(alloc: Global, words: &Vec<String>, mut host: MemHost) -> Result<Answer, AllocError> {
    let status = end_of(alloc, words, &mut host)?;
    Ok(Answer { status, host })
}

/// Calls with words that stand in a row with a space between any two.
fn call(alloc: Global, text: &str, host: MemHost) -> Result<Answer, AllocError> {
    call_words(alloc, &words(alloc, text)?, host)
}

/// The call `gen c`, with these bytes as the configuration.
fn generate(alloc: Global, config: &[u8], fails: &[u32], bite: u32) -> Result<Answer, AllocError> {
    call(alloc, "gen c", host(alloc, config, &[], fails, bite)?)
}

/// Configurations that `gen` refuses, and the line on each.
const REFUSED: &[(&str, &str)] = &[
    ("reset_pc = 2147483646", "config range key=reset_pc\n"),
    ("reset_pc = 4294967296", "config range key=reset_pc\n"),
    ("reset_pc = -4", "config range key=reset_pc\n"),
    ("a = 1\nreset_pc = 1", "config range key=reset_pc\n"),
    (
        "reset_pc = \"x\"",
        "config shape key=reset_pc want=integer\n",
    ),
    ("stages = 5", "config range key=stages\n"),
    ("isa = 32", "config shape key=isa want=text\n"),
    ("isa = \"rv64i\"", "config range key=isa\n"),
    ("memory = 4096", "config shape key=memory want=table\n"),
    ("memory = { base = 2 }", "config range key=memory.base\n"),
    (
        "memory = { top = 4 }",
        "config shape key=memory.top want=nokey\n",
    ),
    ("plugin = 1", "config shape key=plugin want=tables\n"),
    (
        "[[plugin]]\nkind = \"ALU\"",
        "config range key=plugin.0.kind\n",
    ),
    (
        "plugin = [{ kind = \"a\" }, { kind = \"a\" }, { kind = \"a\" }, { kind = \"a\", depth = [] }]",
        "config shape key=plugin.3.depth want=scalar\n",
    ),
    ("core = 4", "config shape key=core want=nokey\n"),
    ("b = 1\na = 1", "config shape key=a want=nokey\n"),
    ("\"\" = 1", "config shape key= want=nokey\n"),
    ("\"a\\nb\" = 1", "config shape key=a\nb want=nokey\n"),
    ("reset_pc =", "config text\n"),
];

/// Words that are no call.
const USAGE: &[&str] = &[
    "gen",
    "gen ",
    "gen -c",
    "gen c d",
    "rules",
    "rules -c",
    "rules c d",
    "rules c --trace",
    "gen --help",
    "GEN c",
    "-",
    "c gen",
    "run c",
    "run c i x",
    "run c -i",
    "run -c i",
    "run c i --cycles",
    "run c i --cycles 0",
    "run c i --cycles 100000001",
    "run c i --cycles 00000000001",
    "run c i --cycles +1",
    "run c i --cycles=1",
    "run c i --cycles 1 --cycles 1",
    "run c i --wait",
    "run c i --wait 1001",
    "run c i --wait 1 --trace --wait 1",
    "run c i --trace --trace",
    "run c i --irq",
    "run c i --irq timer",
    "run c i --irq timer@5",
    "run c i --irq timer@5-",
    "run c i --irq timer@6-5",
    "run c i --irq Timer@1-2",
    "run c i --irq 7@1-2",
    "run c i --irq timer@1-4294967296",
    "run c i --irq timer@00000000001-2",
    "run c i --irq timer@5-6-7",
    "run c i --irq timer@@5-6",
    "run c i --irq timer@-1-2",
    "run c i --irq timer@+1-2",
    "run c i --irq=timer@1-2",
    "gen c --irq timer@1-2",
    "rules c --irq timer@1-2",
    "run c i --",
    "run --trace c i",
];

/// A call: the words, the configuration as the entries of a core and other lines, the status, and what is pushed on the two ports.
type Row = (
    &'static str,
    &'static str,
    &'static str,
    Status,
    &'static str,
    &'static str,
);

const CALLS: &[Row] = &[
    ("rules c", NONE, "", Status::RulesRefused, "", NO_FETCH),
    (
        "gen c",
        NONE,
        "reset_pc = 0x80000000",
        Status::RulesRefused,
        "",
        NO_FETCH,
    ),
    ("run c d", NONE, "", Status::RulesRefused, "", NO_FETCH),
    (
        "rules c",
        NONE,
        "isa = 'rv32im'",
        Status::RulesRefused,
        "",
        NO_FETCH,
    ),
    (
        "rules c",
        NONE,
        "[[plugin]]\nkind = 'cache'",
        Status::RulesRefused,
        "",
        "rules 1 entry=0\n",
    ),
    (
        "run c d",
        NONE,
        "[[plugin]]\nkind = 'cache'",
        Status::RulesRefused,
        "",
        "rules 1 entry=0\n",
    ),
    (
        "rules c",
        NONE,
        "[[plugin]]\nkind = 'ALU'",
        Status::ConfigRefused,
        "",
        "config range key=plugin.0.kind\n",
    ),
    (
        "rules c",
        NONE,
        "plugin = 1",
        Status::ConfigRefused,
        "",
        "config shape key=plugin want=tables\n",
    ),
    (
        "rules c",
        NONE,
        "stages = 5",
        Status::ConfigRefused,
        "",
        "config range key=stages\n",
    ),
    ("rules c", SMALL, "", Status::Done, "accepted\n", ""),
    ("rules d", NONE, "", Status::ReadFault, "", "read fault\n"),
    ("gen d", SMALL, "", Status::ReadFault, "", "read fault\n"),
    ("run c d", SMALL, "", Status::ReadFault, "", "read fault\n"),
    ("run d i", SMALL, "", Status::ReadFault, "", "read fault\n"),
    (
        "run i d",
        SMALL,
        "",
        Status::ConfigRefused,
        "",
        "config text\n",
    ),
    (
        "run c i",
        SMALL,
        "memory = { base = 4096, size = 8 }",
        Status::ImageRefused,
        "",
        "image outside addr=00001008\n",
    ),
    (
        "run c i",
        SMALL,
        "memory = { base = 4294967288, size = 8 }",
        Status::ImageRefused,
        "",
        "image outside addr=100000000\n",
    ),
    (
        "run c i --trace",
        SMALL,
        "stages = 2",
        Status::Stopped,
        LINES,
        "stopped cause=00000002 pc=8000000c events=4 cycles=15\n",
    ),
    (
        "run c i --trace",
        SMALL,
        "stages = 3",
        Status::Stopped,
        LINES,
        "stopped cause=00000002 pc=8000000c events=4 cycles=15\n",
    ),
    (
        "run c i --trace",
        SMALL,
        "stages = 4",
        Status::Stopped,
        LINES,
        "stopped cause=00000002 pc=8000000c events=4 cycles=15\n",
    ),
    (
        "run c i --trace --wait 3",
        SMALL,
        "",
        Status::Stopped,
        LINES,
        "stopped cause=00000002 pc=8000000c events=4 cycles=39\n",
    ),
    (
        "run c i --trace",
        WAITING,
        "stages = 4",
        Status::Stopped,
        LINES,
        "stopped cause=00000002 pc=8000000c events=4 cycles=17\n",
    ),
    (
        "run c i --trace",
        WAITING,
        "stages = 3",
        Status::Stopped,
        LINES,
        "stopped cause=00000002 pc=8000000c events=4 cycles=15\n",
    ),
    (
        "run c i --trace",
        WAITING,
        "stages = 2",
        Status::Stopped,
        LINES,
        "stopped cause=00000002 pc=8000000c events=4 cycles=15\n",
    ),
    (
        "run c i --trace",
        DEEP,
        "",
        Status::Stopped,
        LINES,
        "stopped cause=00000002 pc=8000000c events=4 cycles=12\n",
    ),
    (
        "run c i --wait 3 --trace",
        DEEP,
        "",
        Status::Stopped,
        LINES,
        "stopped cause=00000002 pc=8000000c events=4 cycles=36\n",
    ),
    (
        "run c i --cycles 100000000 --trace --wait 0",
        SMALL,
        "",
        Status::Stopped,
        LINES,
        "stopped cause=00000002 pc=8000000c events=4 cycles=15\n",
    ),
    (
        "run c i",
        SMALL,
        "",
        Status::Stopped,
        "",
        "stopped cause=00000002 pc=8000000c events=4 cycles=15\n",
    ),
    (
        "run c i --cycles 1",
        SMALL,
        "",
        Status::CyclesEnded,
        "",
        "cycles 1 events=0\n",
    ),
    (
        "run c i --cycles 0000000001",
        SMALL,
        "",
        Status::CyclesEnded,
        "",
        "cycles 1 events=0\n",
    ),
    (
        "run c i --cycles 1 --irq timer@0-0",
        SMALL,
        "",
        Status::CyclesEnded,
        "",
        "cycles 1 events=0\n",
    ),
    (
        "run c i --irq timer@0000000001-0000000002 --irq timer@1-2 --cycles 1",
        SMALL,
        "",
        Status::CyclesEnded,
        "",
        "cycles 1 events=0\n",
    ),
    (
        "run c i --trace --irq external@0-4294967295 --cycles 5",
        SMALL,
        "",
        Status::CyclesEnded,
        "",
        "cycles 5 events=0\n",
    ),
    (
        "run c i --trace --cycles 1",
        SMALL,
        "",
        Status::CyclesEnded,
        "",
        "cycles 1 events=0\n",
    ),
    (
        "run c i --trace",
        SMALL,
        "reset_pc = 4096\nstages = 2\nmemory = { base = 4096, size = 16 }",
        Status::Stopped,
        LOW_LINES,
        "stopped cause=00000002 pc=0000100c events=4 cycles=15\n",
    ),
    (
        "run c i --trace",
        SMALL,
        "reset_pc = 0",
        Status::Stopped,
        "T pc=00000000 word=00000000 cause=00000001\n",
        "stopped cause=00000001 pc=00000000 events=1 cycles=6\n",
    ),
];

/// Whether each refusal has its line.
fn refusals_have_their_lines(alloc: Global) -> Result<bool, AllocError> {
    for (text, line) in REFUSED {
        let answer = generate(alloc, text.as_bytes(), &[], 0)?;
        if !answer.is(Status::ConfigRefused, "", *line) {
            return Ok(false);
        }
    }
    Ok(true)
}

/// Whether no words and words that are no call end in the line on usage.
fn usage_is_told(alloc: Global) -> Result<bool, AllocError> {
    for text in USAGE {
        let answer = call(alloc, *text, host(alloc, &[], &[], &[], 0)?)?;
        if !answer.is(Status::Usage, "", "usage\n") {
            return Ok(false);
        }
    }
    let none = call_words(alloc, &Vec::new(alloc), host(alloc, &[], &[], &[], 0)?)?;
    Ok(none.is(Status::Usage, "", "usage\n"))
}

/// Whether each call has its end, where the host moves so many bytes in a call, all of them for 0.
fn calls_have_their_ends(alloc: Global, bite: u32) -> Result<bool, AllocError> {
    for (text, core, lines, status, main, notes) in CALLS {
        let config = config(alloc, *core, *lines)?;
        let host = host(alloc, config.as_str().as_bytes(), &IMAGE, &[], bite)?;
        let answer = call(alloc, *text, host)?;
        if !answer.is(*status, *main, *notes) {
            return Ok(false);
        }
    }
    Ok(true)
}

/// Whether a run of an empty image stops at once.
fn empty_image_stops(alloc: Global) -> Result<bool, AllocError> {
    let config = config(alloc, SMALL, "memory.size = 4")?;
    let host = host(alloc, config.as_str().as_bytes(), &[], &[], 0)?;
    let answer = call(alloc, "run c i --trace", host)?;
    Ok(answer.is(
        Status::Stopped,
        "T pc=80000000 word=00000000 cause=00000002\n",
        "stopped cause=00000002 pc=80000000 events=1 cycles=6\n",
    ))
}

/// The text of the smallest core.
fn core_text(alloc: Global) -> Result<Answer, AllocError> {
    generate(alloc, SMALL.as_bytes(), &[], 0)
}

/// Whether the text of a core is written whole, and no line.
fn is_core(answer: &Answer) -> bool {
    let core = answer.host.pushed(Port::Main).as_slice();
    answer.status == Status::Done
        && answer.host.pushed(Port::Notes).is_empty()
        && core.starts_with(b"module core(".as_slice())
        && core.ends_with(b"\nendmodule\n".as_slice())
}

/// One call of the host finds the file of a configuration, two read it, and one writes the text of a core: the call that
/// fails, the status, and the line.
const FAILED: &[(u32, Status, &str)] = &[
    (1, Status::ReadFault, "read fault\n"),
    (2, Status::ReadFault, "read fault\n"),
    (3, Status::ReadFault, "read fault\n"),
    (4, Status::WriteFault, ""),
    (5, Status::Done, ""),
    (12, Status::Done, ""),
];

/// Whether a call ended so with this line, and the text is whole where it is done, and else not begun.
fn is_cut(core: &Vec<u8>, answer: &Answer, status: Status, line: &str) -> bool {
    let text = answer.host.pushed(Port::Main);
    let notes = answer.host.pushed(Port::Notes).as_slice();
    let whole = if status == Status::Done {
        core.len()
    } else {
        0
    };
    answer.status == status
        && notes == line.as_bytes()
        && core.as_slice().starts_with(text.as_slice())
        && text.len() == whole
}

/// Whether the first 200 bytes of the text are written, and no line.
fn is_cut_at_200(core: &Vec<u8>, answer: &Answer) -> bool {
    let text = answer.host.pushed(Port::Main).as_slice();
    answer.status == Status::WriteFault
        && text.len() == 200
        && core.as_slice().starts_with(text)
        && answer.host.pushed(Port::Notes).is_empty()
}

/// Whether the text of a core is written whole, and cut off by the call that fails. Where each push is of 100 bytes, one call finds the
/// configuration and three read it, and the third push fails.
fn texts_are_cut(alloc: Global) -> Result<bool, AllocError> {
    let whole = core_text(alloc)?;
    let core = whole.host.pushed(Port::Main);
    for (call, status, line) in FAILED {
        let answer = generate(alloc, SMALL.as_bytes(), &[*call], 0)?;
        if !is_cut(core, &answer, *status, *line) {
            return Ok(false);
        }
    }
    let cut = generate(alloc, SMALL.as_bytes(), &[7], 100)?;
    Ok(is_core(&whole) && is_cut_at_200(core, &cut))
}

/// Lines on refusals that are cut off, that of the rules behind its first piece: the words, the configuration, the call of
/// the host that fails, and what is on the port of notes.
const CUT_LINES: &[(&str, &str, u32, &str)] = &[
    ("gen c", "reset_pc = 2147483646", 4, ""),
    ("rules c", "", 5, "rules 4 service=fetch"),
];

/// Whether a failed push cuts each of these lines off.
fn lines_are_cut(alloc: Global) -> Result<bool, AllocError> {
    for (text, config, fails, notes) in CUT_LINES {
        let host = host(alloc, config.as_bytes(), &[], &[*fails], 0)?;
        let answer = call(alloc, *text, host)?;
        if !answer.is(Status::WriteFault, "", *notes) {
            return Ok(false);
        }
    }
    Ok(true)
}

/// Whether a part of the lines of a run is written, from its start, and no line on its end.
fn are_cut_lines(answer: &Answer) -> bool {
    let text = answer.host.pushed(Port::Main).as_slice();
    answer.status == Status::WriteFault
        && LINES.as_bytes().starts_with(text)
        && text.len() < LINES.len()
        && answer.host.pushed(Port::Notes).is_empty()
}

/// Pushes of events that fail: three calls of the host read the configuration of a run, and three the image.
const CUT_EVENTS: &[u32] = &[7, 8, 9];

/// Whether a failed push cuts the events of a run off.
fn events_are_cut(alloc: Global) -> Result<bool, AllocError> {
    for fails in CUT_EVENTS {
        let host = host(alloc, SMALL.as_bytes(), &IMAGE, &[*fails], 0)?;
        let answer = call(alloc, "run c i --trace", host)?;
        if !are_cut_lines(&answer) {
            return Ok(false);
        }
    }
    Ok(true)
}

/// Whether a comment of the greatest length is read, and a longer one refused.
fn long_configurations_are_refused(alloc: Global) -> Result<bool, AllocError> {
    let mut comment = vec![in alloc; b'#'; 1_048_576]?;
    let whole = generate(alloc, &comment, &[], 0)?;
    comment.push(b'#')?;
    let long = generate(alloc, &comment, &[], 0)?;
    Ok(
        whole.is(Status::RulesRefused, "", NO_FETCH)
            && long.is(Status::ConfigRefused, "", "config long\n"),
    )
}

/// Whether an image of one byte too many is refused, where the host moves so many bytes in a call, all of them for 0.
fn long_image_is_refused(alloc: Global, bite: u32) -> Result<bool, AllocError> {
    let image = vec![in alloc; 0u8; 65_537]?;
    let host = host(alloc, SMALL.as_bytes(), &image, &[], bite)?;
    let answer = call(alloc, "run c i --trace", host)?;
    Ok(answer.is(Status::ImageRefused, "", "image outside addr=80010000\n"))
}

/// Whether each call ends as it is to.
pub fn ends_are_right(alloc: Global) -> Result<bool, AllocError> {
    Ok(
        refusals_have_their_lines(alloc)?
            && usage_is_told(alloc)?
            && calls_have_their_ends(alloc, 0)?
            && calls_have_their_ends(alloc, 1)?
            && empty_image_stops(alloc)?
            && long_configurations_are_refused(alloc)?
            && long_image_is_refused(alloc, 0)?
            && long_image_is_refused(alloc, 1)?,
    )
}

/// Whether what is pushed is cut off where a call of the host fails.
pub fn cuts_are_right(alloc: Global) -> Result<bool, AllocError> {
    Ok(texts_are_cut(alloc)? && lines_are_cut(alloc)? && events_are_cut(alloc)?)
}
