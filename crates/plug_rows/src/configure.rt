use core_host::{List, Name};
use plug_alu::Alu;
use plug_api::Plugin;
use plug_branch::Branch;
use plug_dbus::Dbus;
use plug_decoder::Decoder;
use plug_fetch::Fetch;
use plug_hazard::Hazard;
use plug_muldiv::Muldiv;
use plug_predict::Predict;
use plug_regfile::RegFile;
use plug_shift::{ShiftBarrel, ShiftLight};
use plug_srl::Srl;
use stage_map::{Param, ParamValue, PlugEntry};
use std::alloc::{AllocError, Global};
use std::test::Fail;

/// The value of a parameter.
#[derive(Clone, Copy, Debug)]
enum Given {
    Num(i64),
    Flag(bool),
    Word(&'static str),
}

/// The parameters of an entry, and what the plug-in says of it.
type Row = (&'static [(&'static str, Given)], &'static str);

fn name(alloc: Global, text: &str) -> Result<Name, AllocError> {
    Ok(Name::of(String::from_str(alloc, text)?))
}

fn value_of(alloc: Global, given: Given) -> Result<ParamValue, AllocError> {
    match given {
        Given::Num(number) => Ok(ParamValue::Num(number)),
        Given::Flag(flag) => Ok(ParamValue::Flag(flag)),
        Given::Word(text) => Ok(ParamValue::Word(name(alloc, text)?)),
    }
}

fn param(alloc: Global, key: &str, given: Given) -> Result<Param, AllocError> {
    let key = name(alloc, key)?;
    let value = value_of(alloc, given)?;
    Ok(Param { key, value })
}

/// An entry that gives these keys these values.
fn entry(alloc: Global, given: &[(&'static str, Given)]) -> Result<PlugEntry, AllocError> {
    let mut params = Vec::new(alloc);
    for (key, value) in given {
        params.push(param(alloc, *key, *value)?)?;
    }
    let kind = name(alloc, "any")?;
    Ok(PlugEntry {
        kind,
        params: List::of(params),
    })
}

/// What a plug-in says of an entry: its name and its delay once it took it, or the first fault.
fn said<P: Plugin>(alloc: Global, plug: &mut P, given: &PlugEntry) -> Result<String, AllocError> {
    match plug.configure(alloc, given) {
        Ok(()) => {
            let spec = plug.spec();
            let (cycles, waits) = spec.latency;
            format!(in alloc; "{} {cycles} {waits}", spec.name.text())
        }
        Err(fault) => format!(in alloc; "{fault:?}"),
    }
}

/// Whether a plug-in says of each entry what its row has. It is asked of one behind the other: what it took before is of no account.
fn all_hold<P: Plugin>(alloc: Global, mut plug: P, rows: &[Row]) -> Result<bool, AllocError> {
    for (params, wanted) in rows {
        let given = entry(alloc, *params)?;
        let said = said(alloc, &mut plug, &given)?;
        if said.as_str() != *wanted {
            return Ok(false);
        }
    }
    Ok(true)
}

const FETCH: &[Row] = &[
    (&[], "fetch 8 4"),
    (&[("depth", Given::Num(1))], "fetch 8 4"),
    (&[("depth", Given::Num(2))], "fetch 8 4"),
    (&[("depth", Given::Num(3))], "fetch 8 4"),
    (&[("depth", Given::Num(4))], "fetch 8 4"),
    (
        &[("depth", Given::Num(0))],
        "Range { key: Name { text: \"depth\" }, found: Num(0), low: 1, high: 4 }",
    ),
    (
        &[("depth", Given::Num(5))],
        "Range { key: Name { text: \"depth\" }, found: Num(5), low: 1, high: 4 }",
    ),
    (
        &[("depth", Given::Num(-1))],
        "Range { key: Name { text: \"depth\" }, found: Num(-1), low: 1, high: 4 }",
    ),
    (
        &[("depth", Given::Num(0x1_0000_0001))],
        "Range { key: Name { text: \"depth\" }, found: Num(4294967297), low: 1, high: 4 }",
    ),
    (
        &[("depth", Given::Flag(true))],
        "Range { key: Name { text: \"depth\" }, found: Flag(true), low: 1, high: 4 }",
    ),
    (
        &[("depth", Given::Word("2"))],
        "Range { key: Name { text: \"depth\" }, found: Word(Name { text: \"2\" }), low: 1, high: 4 }",
    ),
    (
        &[("depths", Given::Num(1))],
        "Unknown { key: Name { text: \"depths\" } }",
    ),
    (
        &[("Depth", Given::Num(1))],
        "Unknown { key: Name { text: \"Depth\" } }",
    ),
    (
        &[("", Given::Num(1))],
        "Unknown { key: Name { text: \"\" } }",
    ),
];

const DECODER: &[Row] = &[
    (&[], "decoder 0 0"),
    (
        &[("rows", Given::Num(1))],
        "Unknown { key: Name { text: \"rows\" } }",
    ),
    (
        &[("depth", Given::Num(1)), ("rows", Given::Num(1))],
        "Unknown { key: Name { text: \"depth\" } }",
    ),
];

const REGFILE: &[Row] = &[
    (&[], "regfile 0 0"),
    (
        &[("ports", Given::Num(1)), ("reset", Given::Num(1))],
        "Unknown { key: Name { text: \"ports\" } }",
    ),
];

const HAZARD: &[Row] = &[
    (&[], "hazard 0 0"),
    (&[("bypass", Given::Flag(true))], "hazard 0 0"),
    (&[("bypass", Given::Flag(false))], "hazard 0 0"),
    (
        &[("bypass", Given::Num(1))],
        "Range { key: Name { text: \"bypass\" }, found: Num(1), low: 0, high: 0 }",
    ),
    (
        &[("bypass", Given::Word("true"))],
        "Range { key: Name { text: \"bypass\" }, found: Word(Name { text: \"true\" }), low: 0, high: 0 }",
    ),
    (
        &[("bypasses", Given::Flag(true))],
        "Unknown { key: Name { text: \"bypasses\" } }",
    ),
];

const ALU: &[Row] = &[
    (&[], "alu 1 0"),
    (
        &[("bits", Given::Num(1)), ("size", Given::Num(1))],
        "Unknown { key: Name { text: \"bits\" } }",
    ),
];

const SRL: &[Row] = &[
    (&[], "srl 1 0"),
    (
        &[("fast", Given::Flag(true))],
        "Unknown { key: Name { text: \"fast\" } }",
    ),
];

const DBUS: &[Row] = &[
    (&[], "dbus 4 2"),
    (
        &[("lines", Given::Num(2)), ("words", Given::Num(2))],
        "Unknown { key: Name { text: \"lines\" } }",
    ),
];

const BRANCH: &[Row] = &[
    (&[], "branch 1 0"),
    (
        &[("bits", Given::Num(1)), ("size", Given::Num(1))],
        "Unknown { key: Name { text: \"bits\" } }",
    ),
];

const PREDICT: &[Row] = &[
    (&[], "predict 0 0"),
    (&[("style", Given::Word("next"))], "predict 0 0"),
    (&[("style", Given::Word("static"))], "predict 0 0"),
    (
        &[("style", Given::Word("dynamic"))],
        "Range { key: Name { text: \"style\" }, found: Word(Name { text: \"dynamic\" }), low: 0, high: 0 }",
    ),
    (
        &[("style", Given::Word("Static"))],
        "Range { key: Name { text: \"style\" }, found: Word(Name { text: \"Static\" }), low: 0, high: 0 }",
    ),
    (
        &[("style", Given::Word("nextx"))],
        "Range { key: Name { text: \"style\" }, found: Word(Name { text: \"nextx\" }), low: 0, high: 0 }",
    ),
    (
        &[("style", Given::Word("nex"))],
        "Range { key: Name { text: \"style\" }, found: Word(Name { text: \"nex\" }), low: 0, high: 0 }",
    ),
    (
        &[("style", Given::Word(""))],
        "Range { key: Name { text: \"style\" }, found: Word(Name { text: \"\" }), low: 0, high: 0 }",
    ),
    (
        &[("style", Given::Num(0))],
        "Range { key: Name { text: \"style\" }, found: Num(0), low: 0, high: 0 }",
    ),
    (
        &[("style", Given::Num(1))],
        "Range { key: Name { text: \"style\" }, found: Num(1), low: 0, high: 0 }",
    ),
    (
        &[("style", Given::Flag(true))],
        "Range { key: Name { text: \"style\" }, found: Flag(true), low: 0, high: 0 }",
    ),
    (
        &[("styles", Given::Word("next"))],
        "Unknown { key: Name { text: \"styles\" } }",
    ),
    (
        &[("Style", Given::Word("next"))],
        "Unknown { key: Name { text: \"Style\" } }",
    ),
    (
        &[("depth", Given::Num(1)), ("style", Given::Num(1))],
        "Unknown { key: Name { text: \"depth\" } }",
    ),
];

const MULDIV: &[Row] = &[
    (&[], "muldiv 36 0"),
    (&[("unroll", Given::Num(1))], "muldiv 36 0"),
    (&[("unroll", Given::Num(2))], "muldiv 20 0"),
    (&[("unroll", Given::Num(4))], "muldiv 12 0"),
    (
        &[("unroll", Given::Num(0))],
        "Range { key: Name { text: \"unroll\" }, found: Num(0), low: 1, high: 4 }",
    ),
    (
        &[("unroll", Given::Num(3))],
        "Range { key: Name { text: \"unroll\" }, found: Num(3), low: 1, high: 4 }",
    ),
    (
        &[("unroll", Given::Num(5))],
        "Range { key: Name { text: \"unroll\" }, found: Num(5), low: 1, high: 4 }",
    ),
    (
        &[("unroll", Given::Num(8))],
        "Range { key: Name { text: \"unroll\" }, found: Num(8), low: 1, high: 4 }",
    ),
    (
        &[("unroll", Given::Num(-1))],
        "Range { key: Name { text: \"unroll\" }, found: Num(-1), low: 1, high: 4 }",
    ),
    (
        &[("unroll", Given::Num(4294967297))],
        "Range { key: Name { text: \"unroll\" }, found: Num(4294967297), low: 1, high: 4 }",
    ),
    (
        &[("unroll", Given::Flag(true))],
        "Range { key: Name { text: \"unroll\" }, found: Flag(true), low: 1, high: 4 }",
    ),
    (
        &[("unroll", Given::Word("2"))],
        "Range { key: Name { text: \"unroll\" }, found: Word(Name { text: \"2\" }), low: 1, high: 4 }",
    ),
    (
        &[("unrolls", Given::Num(1))],
        "Unknown { key: Name { text: \"unrolls\" } }",
    ),
    (
        &[("size", Given::Num(1)), ("unroll", Given::Num(3))],
        "Unknown { key: Name { text: \"size\" } }",
    ),
];

const SHIFT_LIGHT: &[Row] = &[
    (&[], "shift_light 33 0"),
    (
        &[("fast", Given::Flag(true))],
        "Unknown { key: Name { text: \"fast\" } }",
    ),
    (
        &[("fast", Given::Num(1)), ("size", Given::Num(1))],
        "Unknown { key: Name { text: \"fast\" } }",
    ),
];

const SHIFT_BARREL: &[Row] = &[
    (&[], "shift_barrel 1 0"),
    (
        &[("fast", Given::Flag(true))],
        "Unknown { key: Name { text: \"fast\" } }",
    ),
    (
        &[("fast", Given::Num(1)), ("size", Given::Num(1))],
        "Unknown { key: Name { text: \"fast\" } }",
    ),
];

/// Whether the plug-ins of the pipeline say of their entries what they are to say.
fn pipeline_holds(alloc: Global) -> Result<bool, AllocError> {
    Ok(
        all_hold(alloc, Fetch::new(alloc)?, FETCH)?
            && all_hold(alloc, Decoder::new(alloc)?, DECODER)?
            && all_hold(alloc, RegFile::new(alloc)?, REGFILE)?
            && all_hold(alloc, Hazard::new(alloc)?, HAZARD)?
            && all_hold(alloc, Predict::new(alloc)?, PREDICT)?,
    )
}

/// Whether those of the units do.
fn units_hold(alloc: Global) -> Result<bool, AllocError> {
    Ok(
        all_hold(alloc, Alu::new(alloc)?, ALU)?
            && all_hold(alloc, Srl::new(alloc)?, SRL)?
            && all_hold(alloc, Dbus::new(alloc)?, DBUS)?
            && all_hold(alloc, Branch::new(alloc)?, BRANCH)?
            && all_hold(alloc, Muldiv::new(alloc)?, MULDIV)?
            && all_hold(alloc, ShiftLight::new(alloc)?, SHIFT_LIGHT)?
            && all_hold(alloc, ShiftBarrel::new(alloc)?, SHIFT_BARREL)?,
    )
}

#[test]
fn plugins_say_of_their_entries(rt: HostRuntime) -> Result<(), Fail> {
    let alloc = rt.alloc();
    assert!(rt; pipeline_holds(alloc)? && units_hold(alloc)?);
    Ok(())
}
