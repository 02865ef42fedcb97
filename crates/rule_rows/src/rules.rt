use crate::judge::{judge, states, text_of};
use core_host::{List, MemFile, MemHost, Name, Port};
use core_tool::push_rule;
use plug_kinds::KindState;
use std::alloc::{AllocError, Global};

/// The room of each port, in bytes.
const ROOM: u32 = 33_554_432;

/// Configurations that are judged on what the plug-ins say of themselves once they took their entries: the first lines, the entries,
/// and the line on the rule that fails, none where all hold.
const ROWS: &[(&str, &str, &str)] = &[
    (
        "isa = \"rv32i\"",
        "fetch decoder regfile hazard alu shift_barrel branch dbus",
        "",
    ),
    (
        "isa = \"rv32im\"",
        "fetch decoder regfile hazard alu shift_barrel branch dbus muldiv",
        "",
    ),
    (
        "isa = \"rv32i_zicsr\"",
        "fetch decoder regfile hazard alu shift_barrel branch dbus csr",
        "",
    ),
    (
        "isa = \"rv32i_zifencei\"",
        "icache decoder regfile hazard alu shift_barrel branch dbus fencei",
        "",
    ),
    (
        "isa = \"rv32im_zicsr_zifencei\"\nstages = 4",
        "icache,lines=64,words=8 predict fencei decoder regfile hazard alu shift_barrel muldiv branch dbus csr",
        "",
    ),
    (
        "",
        "fetch decoder regfile hazard alu shift_barrel branch dbus csr",
        "",
    ),
    (
        "",
        "fetch decoder regfile hazard alu left",
        "rules 4 service=system by=5\n",
    ),
    (
        "isa = \"rv32i\"",
        "fetch decoder regfile hazard alu shift_barrel branch dbus icache",
        "rules 5 service=fetch entry=0 other=8\n",
    ),
    (
        "",
        "fetch decoder regfile hazard alu itself",
        "rules 6 entry=5\n",
    ),
    (
        "",
        "fetch decoder regfile hazard alu loop",
        "rules 6 entry=0\n",
    ),
    (
        "",
        "fetch decoder regfile hazard alu left right",
        "rules 6 entry=5\n",
    ),
    (
        "isa = \"rv32i\"",
        "fetch decoder regfile hazard alu shift_barrel branch dbus shift_light",
        "rules 7 entry=5 row=SLLI other=8 other_row=SLLI\n",
    ),
    (
        "isa = \"rv32im\"",
        "fetch decoder regfile hazard alu shift_barrel branch dbus",
        "rules 8 row=MUL\n",
    ),
    (
        "isa = \"rv32i\"",
        "fetch decoder regfile hazard alu shift_barrel branch dbus muldiv",
        "rules 9 entry=8 row=MUL\n",
    ),
    (
        "isa = \"rv32i\"",
        "fetch decoder regfile hazard alu shift_barrel branch dbus csr",
        "rules 9 entry=8 row=CSRRW\n",
    ),
    (
        "",
        "fetch decoder regfile hazard alu caller",
        "rules 9 entry=5 row=ECALL\n",
    ),
];

/// A host that holds a configuration as the file `c`.
pub fn host(alloc: Global, text: &String, fails: &[u32]) -> Result<MemHost, AllocError> {
    let file = MemFile {
        name: Name::of(String::from_str(alloc, "c")?),
        bytes: List::of(Vec::from_slice(alloc, text.as_str().as_bytes())?),
    };
    let files = vec![in alloc; file]?;
    MemHost::new(alloc, files, Vec::from_slice(alloc, fails)?, 0, ROOM)
}

/// What is on the port of notes where the rules are tried on what the plug-ins say.
fn said(alloc: Global, states: &mut Vec<KindState>, text: &String) -> Result<MemHost, AllocError> {
    let mut host = host(alloc, text, &[])?;
    if let Err(refusal) = judge(alloc, text, states) {
        match push_rule(&mut host, &refusal) {
            Ok(()) => {}
            Err(_) => return Err(AllocError),
        }
    }
    Ok(host)
}

/// Whether nothing is on the main port, and this line on that of notes.
pub fn is_line(host: &MemHost, line: &str) -> bool {
    let notes = host.pushed(Port::Notes).as_slice();
    host.pushed(Port::Main).is_empty() && notes == line.as_bytes()
}

/// Whether the first rule that fails is told of each configuration.
pub fn rules_are_told(alloc: Global) -> Result<bool, AllocError> {
    let mut states = states(alloc)?;
    for (head, entries, line) in ROWS {
        let text = text_of(alloc, *head, *entries)?;
        let host = said(alloc, &mut states, &text)?;
        if !is_line(&host, *line) {
            return Ok(false);
        }
    }
    Ok(true)
}

/// Entries that are given to the same plug-ins in turn: the line on the rule that fails, and the delays of the cache and of
/// multiplication then.
const STEPS: &[(&str, &str, (u32, u32), (u32, u32))] = &[
    (
        "fetch,depth=9 decoder regfile hazard alu",
        "rules 3 entry=0 key=depth\n",
        (108, 36),
        (36, 0),
    ),
    (
        "fetch decoder regfile hazard alu,depth=1",
        "rules 3 entry=4 key=depth\n",
        (108, 36),
        (36, 0),
    ),
    (
        "fetch decoder regfile hazard alu plain,depth=1",
        "rules 3 entry=5 key=depth\n",
        (108, 36),
        (36, 0),
    ),
    (
        "icache,lines=2",
        "rules 4 service=decoder by=-\n",
        (46, 36),
        (36, 0),
    ),
    (
        "muldiv,unroll=4",
        "rules 4 service=fetch by=-\n",
        (46, 36),
        (12, 0),
    ),
    (
        "muldiv,unroll=3 icache",
        "rules 3 entry=0 key=unroll\n",
        (46, 36),
        (12, 0),
    ),
    (
        "icache muldiv,unroll=3",
        "rules 3 entry=1 key=unroll\n",
        (108, 36),
        (12, 0),
    ),
];

/// Whether the cache and multiplication have these delays.
fn are_delays(states: &Vec<KindState>, cache: (u32, u32), product: (u32, u32)) -> bool {
    states.len() == 14 && states[1].spec().latency == cache && states[10].spec().latency == product
}

/// Whether each step ends as it should: the plug-ins before one that refuses took their entries, it is as it was, and so are those
/// behind it.
pub fn refusals_leave_what_was_taken(alloc: Global) -> Result<bool, AllocError> {
    let mut states = states(alloc)?;
    for (entries, line, cache, product) in STEPS {
        let text = text_of(alloc, "", *entries)?;
        let host = said(alloc, &mut states, &text)?;
        if !is_line(&host, *line) || !are_delays(&states, *cache, *product) {
            return Ok(false);
        }
    }
    Ok(true)
}
