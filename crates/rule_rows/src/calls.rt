use crate::judge::text_of;
use crate::own::{OWN, idle};
use crate::rules::{host, is_line};
use core_host::{MemHost, Port};
use core_tool::{Status, core_main};
use plug_alu::Alu;
use plug_api::Plugin;
use plug_decoder::Decoder;
use plug_fetch::Fetch;
use plug_hazard::Hazard;
use plug_regfile::RegFile;
use std::alloc::{AllocError, Global};

/// Configurations of the plug-ins that build, and of those of tests that offer nothing: the first lines, the entries, and the
/// line on the rule that fails, none where all hold.
const CALLS: &[(&str, &str, &str)] = &[
    ("isa = \"claimed\"", "fetch decoder regfile hazard alu", ""),
    ("", "fetch decoder regfile hazard alu last", ""),
    (
        "stages = 3",
        "fetch decoder regfile hazard alu writer follower",
        "",
    ),
    ("", "alu hazard regfile decoder fetch", ""),
    ("stages = 2", "fetch decoder regfile hazard alu", ""),
    ("stages = 3", "fetch decoder regfile hazard alu", ""),
    (
        "",
        "fetch,depth=4 decoder regfile hazard,bypass=false alu",
        "",
    ),
    ("", "fetch decoder regfile hazard", ""),
    ("", "fetch decoder regfile hazard alux", "rules 1 entry=4\n"),
    ("", "alux", "rules 1 entry=0\n"),
    ("", "plain alux plain", "rules 1 entry=1\n"),
    (
        "",
        "fetch decoder regfile hazard alu fetch",
        "rules 2 entry=0 other=5\n",
    ),
    (
        "",
        "fetch decoder regfile hazard alu alu",
        "rules 2 entry=4 other=5\n",
    ),
    ("", "plain big plain", "rules 2 entry=0 other=2\n"),
    (
        "",
        "fetch decoder regfile hazard decoder alu",
        "rules 2 entry=1 other=4\n",
    ),
    (
        "",
        "regfile fetch decoder regfile hazard alu",
        "rules 2 entry=0 other=3\n",
    ),
    (
        "",
        "fetch decoder regfile hazard alu hazard",
        "rules 2 entry=3 other=5\n",
    ),
    (
        "",
        "fetch,depth=9 decoder regfile hazard alu",
        "rules 3 entry=0 key=depth\n",
    ),
    ("", "big plain,depth=1", "rules 3 entry=1 key=depth\n"),
    (
        "",
        "fetch,depth=0 decoder regfile hazard alu",
        "rules 3 entry=0 key=depth\n",
    ),
    (
        "",
        "fetch,depth=5 decoder regfile hazard alu",
        "rules 3 entry=0 key=depth\n",
    ),
    (
        "",
        "fetch,depth=true decoder regfile hazard alu",
        "rules 3 entry=0 key=depth\n",
    ),
    (
        "",
        "fetch,size=1 decoder regfile hazard alu",
        "rules 3 entry=0 key=size\n",
    ),
    (
        "",
        "fetch decoder regfile hazard,bypass=1 alu",
        "rules 3 entry=3 key=bypass\n",
    ),
    (
        "",
        "fetch decoder,depth=1 regfile hazard alu",
        "rules 3 entry=1 key=depth\n",
    ),
    (
        "",
        "fetch decoder regfile,depth=1 hazard alu",
        "rules 3 entry=2 key=depth\n",
    ),
    (
        "",
        "fetch decoder regfile hazard alu,depth=1",
        "rules 3 entry=4 key=depth\n",
    ),
    ("", "", "rules 4 service=fetch by=-\n"),
    ("", "plain", "rules 4 service=fetch by=-\n"),
    ("", "big", "rules 4 service=fetch by=-\n"),
    ("", "lonely", "rules 4 service=fetch by=-\n"),
    (
        "",
        "fetch decoder regfile alu",
        "rules 4 service=hazard by=-\n",
    ),
    (
        "",
        "fetch decoder regfile hazard alu lonely",
        "rules 4 service=system by=5\n",
    ),
    (
        "",
        "decoder regfile hazard alu",
        "rules 4 service=fetch by=-\n",
    ),
    (
        "",
        "fetch regfile hazard alu",
        "rules 4 service=decoder by=-\n",
    ),
    (
        "",
        "fetch decoder hazard alu",
        "rules 4 service=regfile by=-\n",
    ),
    (
        "isa = \"rv32i\"",
        "fetch decoder regfile hazard alu",
        "rules 8 row=JAL\n",
    ),
    (
        "isa = \"rv32im_zicsr\"",
        "fetch decoder regfile hazard alu",
        "rules 8 row=JAL\n",
    ),
    (
        "isa = \"rv32i\"",
        "fetch decoder regfile hazard",
        "rules 8 row=LUI\n",
    ),
    (
        "stages = 2",
        "fetch decoder regfile hazard alu late",
        "rules 10 plug=5 stage=memory\n",
    ),
    (
        "stages = 3",
        "fetch decoder regfile hazard alu last",
        "rules 10 plug=5 stage=writeback\n",
    ),
    (
        "",
        "fetch decoder regfile hazard alu reader",
        "rules 11 key=sum reader=5 writer=-\n",
    ),
    (
        "stages = 3",
        "fetch decoder regfile hazard alu follower",
        "rules 11 key=sum reader=5 writer=-\n",
    ),
    (
        "",
        "fetch decoder regfile hazard alu reader writer",
        "rules 11 key=sum reader=5 writer=6\n",
    ),
    (
        "stages = 3",
        "fetch decoder regfile hazard alu writer reader",
        "rules 11 key=sum reader=6 writer=5\n",
    ),
    (
        "",
        "fetch decoder regfile hazard alu writer other",
        "rules 12 key=sum entry=5 other=6\n",
    ),
    (
        "stages = 3",
        "fetch decoder regfile hazard alu writer follower late",
        "rules 12 key=sum entry=5 other=7\n",
    ),
    (
        "",
        "fetch decoder regfile hazard alu big",
        "rules 13 wanted=79423 limit=65535\n",
    ),
];

/// Lines that a failed push cuts off: the entries, the call of the host that fails, and what is on the port of notes. The
/// file is found and pulled to its end in three calls; each push is another.
const CUT: &[(&str, u32, &str)] = &[
    ("fetch decoder regfile hazard alu", 4, ""),
    ("fetch decoder regfile alu", 5, "rules 4 service="),
];

/// The words `rules c`.
fn words(alloc: Global) -> Result<Vec<String>, AllocError> {
    let first = String::from_str(alloc, "rules")?;
    Ok(vec![in alloc; first, String::from_str(alloc, "c")?]?)
}

/// The status of the call `rules c`, with the failing calls of the host, and the host then; no test has more than 1,000
/// plug-ins.
fn called(
    alloc: Global,
    plugs: &mut Vec<Box<dyn Plugin>>,
    text: &String,
    fails: &[u32],
) -> Result<(Status, MemHost), AllocError> {
    if plugs.len() > 1000 {
        return Err(AllocError);
    }
    let mut host = host(alloc, text, fails)?;
    let status = core_main(alloc, &words(alloc)?, plugs, &mut host);
    Ok((status, host))
}

/// Whether a call ended with this line on the rule that fails, or accepted the configuration where there is none.
fn is_answer(status: Status, host: &MemHost, line: &str) -> bool {
    if line.is_empty() {
        let text = host.pushed(Port::Main).as_slice();
        let notes = host.pushed(Port::Notes);
        return status == Status::Done && notes.is_empty() && text == b"accepted\n".as_slice();
    }
    status == Status::RulesRefused && is_line(host, line)
}

/// Whether the call answers each configuration as it should.
fn are_answered(alloc: Global, plugs: &mut Vec<Box<dyn Plugin>>) -> Result<bool, AllocError> {
    for (head, entries, line) in CALLS {
        let text = text_of(alloc, *head, *entries)?;
        let (status, host) = called(alloc, plugs, &text, &[])?;
        if !is_answer(status, &host, *line) {
            return Ok(false);
        }
    }
    Ok(true)
}

/// The same of lines that a failed push cuts off.
fn are_cut(alloc: Global, plugs: &mut Vec<Box<dyn Plugin>>) -> Result<bool, AllocError> {
    for (entries, call, notes) in CUT {
        let text = text_of(alloc, "", *entries)?;
        let (status, host) = called(alloc, plugs, &text, &[*call])?;
        if status != Status::WriteFault || !is_line(&host, *notes) {
            return Ok(false);
        }
    }
    Ok(true)
}

/// Whether each call tells the first rule that fails.
pub fn calls_are_right(alloc: Global) -> Result<bool, AllocError> {
    let mut plugs: Vec<Box<dyn Plugin>> = Vec::new(alloc);
    plugs.push(Box::new(alloc, Fetch::new(alloc)?)?)?;
    plugs.push(Box::new(alloc, Decoder::new(alloc)?)?)?;
    plugs.push(Box::new(alloc, RegFile::new(alloc)?)?)?;
    plugs.push(Box::new(alloc, Hazard::new(alloc)?)?)?;
    plugs.push(Box::new(alloc, Alu::new(alloc)?)?)?;
    for own in OWN {
        if own.offers.is_empty() {
            plugs.push(Box::new(alloc, idle(alloc, *own)?)?)?;
        }
    }
    Ok(are_answered(alloc, &mut plugs)? && are_cut(alloc, &mut plugs)?)
}
