use crate::own::{Given, Own, PLAIN, Params, entry, spec};
use plug_api::Place;
use plug_kinds::{Kind, KindState, is_spec};
use service_reg::Service;
use std::alloc::{AllocError, Global};

/// What a plug-in says once it is given parameters: its delay, or the fault.
fn taken(alloc: Global, state: &mut KindState, params: Params) -> Result<String, AllocError> {
    let given = entry(alloc, "any", params)?;
    match state.configure(alloc, &given) {
        Ok(()) => {
            let (cycles, waits) = state.spec().latency;
            format!(in alloc; "{cycles} {waits}")
        }
        Err(fault) => format!(in alloc; "{fault:?}"),
    }
}

/// Parameters of kinds, and the delay or the first fault then.
const PARAMS: &[(Kind, Params<'static>, &str)] = &[
    (Kind::Fetch, &[], "8 4"),
    (
        Kind::Fetch,
        &[("size", Given::Num(1))],
        "Unknown { key: Name { text: \"size\" } }",
    ),
    (Kind::Icache, &[], "108 36"),
    (
        Kind::Icache,
        &[("size", Given::Num(1))],
        "Unknown { key: Name { text: \"size\" } }",
    ),
    (Kind::Predict, &[], "0 0"),
    (
        Kind::Predict,
        &[("size", Given::Num(1))],
        "Unknown { key: Name { text: \"size\" } }",
    ),
    (Kind::Fencei, &[], "1 0"),
    (
        Kind::Fencei,
        &[("size", Given::Num(1))],
        "Unknown { key: Name { text: \"size\" } }",
    ),
    (Kind::Decoder, &[], "0 0"),
    (
        Kind::Decoder,
        &[("size", Given::Num(1))],
        "Unknown { key: Name { text: \"size\" } }",
    ),
    (Kind::Regfile, &[], "0 0"),
    (
        Kind::Regfile,
        &[("size", Given::Num(1))],
        "Unknown { key: Name { text: \"size\" } }",
    ),
    (Kind::Hazard, &[], "0 0"),
    (
        Kind::Hazard,
        &[("size", Given::Num(1))],
        "Unknown { key: Name { text: \"size\" } }",
    ),
    (Kind::Alu, &[], "1 0"),
    (
        Kind::Alu,
        &[("size", Given::Num(1))],
        "Unknown { key: Name { text: \"size\" } }",
    ),
    (Kind::ShiftLight, &[], "33 0"),
    (
        Kind::ShiftLight,
        &[("size", Given::Num(1))],
        "Unknown { key: Name { text: \"size\" } }",
    ),
    (Kind::ShiftBarrel, &[], "1 0"),
    (
        Kind::ShiftBarrel,
        &[("size", Given::Num(1))],
        "Unknown { key: Name { text: \"size\" } }",
    ),
    (Kind::Muldiv, &[], "36 0"),
    (
        Kind::Muldiv,
        &[("size", Given::Num(1))],
        "Unknown { key: Name { text: \"size\" } }",
    ),
    (Kind::Branch, &[], "1 0"),
    (
        Kind::Branch,
        &[("size", Given::Num(1))],
        "Unknown { key: Name { text: \"size\" } }",
    ),
    (Kind::Dbus, &[], "4 2"),
    (
        Kind::Dbus,
        &[("size", Given::Num(1))],
        "Unknown { key: Name { text: \"size\" } }",
    ),
    (Kind::Csr, &[], "2 0"),
    (
        Kind::Csr,
        &[("size", Given::Num(1))],
        "Unknown { key: Name { text: \"size\" } }",
    ),
    (Kind::Fetch, &[("depth", Given::Num(1))], "8 4"),
    (Kind::Fetch, &[("depth", Given::Num(4))], "8 4"),
    (Kind::Icache, &[("lines", Given::Num(2))], "46 36"),
    (Kind::Icache, &[("lines", Given::Num(1024))], "1068 36"),
    (Kind::Icache, &[("words", Given::Num(2))], "84 12"),
    (Kind::Icache, &[("words", Given::Num(16))], "140 68"),
    (Kind::Predict, &[("style", Given::Word("next"))], "0 0"),
    (Kind::Predict, &[("style", Given::Word("static"))], "0 0"),
    (Kind::Hazard, &[("bypass", Given::Flag(true))], "0 0"),
    (Kind::Hazard, &[("bypass", Given::Flag(false))], "0 0"),
    (Kind::Muldiv, &[("unroll", Given::Num(1))], "36 0"),
    (Kind::Muldiv, &[("unroll", Given::Num(2))], "20 0"),
    (Kind::Muldiv, &[("unroll", Given::Num(4))], "12 0"),
    (
        Kind::Fetch,
        &[("depth", Given::Num(0))],
        "Range { key: Name { text: \"depth\" }, found: Num(0), low: 1, high: 4 }",
    ),
    (
        Kind::Fetch,
        &[("depth", Given::Num(5))],
        "Range { key: Name { text: \"depth\" }, found: Num(5), low: 1, high: 4 }",
    ),
    (
        Kind::Fetch,
        &[("depth", Given::Num(-1))],
        "Range { key: Name { text: \"depth\" }, found: Num(-1), low: 1, high: 4 }",
    ),
    (
        Kind::Fetch,
        &[("depth", Given::Flag(true))],
        "Range { key: Name { text: \"depth\" }, found: Flag(true), low: 1, high: 4 }",
    ),
    (
        Kind::Fetch,
        &[("depth", Given::Word("1"))],
        "Range { key: Name { text: \"depth\" }, found: Word(Name { text: \"1\" }), low: 1, high: 4 }",
    ),
    (
        Kind::Icache,
        &[("lines", Given::Num(1))],
        "Range { key: Name { text: \"lines\" }, found: Num(1), low: 2, high: 1024 }",
    ),
    (
        Kind::Icache,
        &[("lines", Given::Num(2048))],
        "Range { key: Name { text: \"lines\" }, found: Num(2048), low: 2, high: 1024 }",
    ),
    (
        Kind::Icache,
        &[("lines", Given::Num(48))],
        "Range { key: Name { text: \"lines\" }, found: Num(48), low: 2, high: 1024 }",
    ),
    (
        Kind::Icache,
        &[("lines", Given::Flag(false))],
        "Range { key: Name { text: \"lines\" }, found: Flag(false), low: 2, high: 1024 }",
    ),
    (
        Kind::Icache,
        &[("words", Given::Num(1))],
        "Range { key: Name { text: \"words\" }, found: Num(1), low: 2, high: 16 }",
    ),
    (
        Kind::Icache,
        &[("words", Given::Num(32))],
        "Range { key: Name { text: \"words\" }, found: Num(32), low: 2, high: 16 }",
    ),
    (
        Kind::Icache,
        &[("words", Given::Num(6))],
        "Range { key: Name { text: \"words\" }, found: Num(6), low: 2, high: 16 }",
    ),
    (
        Kind::Icache,
        &[("words", Given::Word("8"))],
        "Range { key: Name { text: \"words\" }, found: Word(Name { text: \"8\" }), low: 2, high: 16 }",
    ),
    (
        Kind::Predict,
        &[("style", Given::Word("taken"))],
        "Range { key: Name { text: \"style\" }, found: Word(Name { text: \"taken\" }), low: 0, high: 0 }",
    ),
    (
        Kind::Predict,
        &[("style", Given::Num(1))],
        "Range { key: Name { text: \"style\" }, found: Num(1), low: 0, high: 0 }",
    ),
    (
        Kind::Predict,
        &[("style", Given::Flag(true))],
        "Range { key: Name { text: \"style\" }, found: Flag(true), low: 0, high: 0 }",
    ),
    (
        Kind::Hazard,
        &[("bypass", Given::Num(1))],
        "Range { key: Name { text: \"bypass\" }, found: Num(1), low: 0, high: 0 }",
    ),
    (
        Kind::Hazard,
        &[("bypass", Given::Word("true"))],
        "Range { key: Name { text: \"bypass\" }, found: Word(Name { text: \"true\" }), low: 0, high: 0 }",
    ),
    (
        Kind::Muldiv,
        &[("unroll", Given::Num(0))],
        "Range { key: Name { text: \"unroll\" }, found: Num(0), low: 1, high: 4 }",
    ),
    (
        Kind::Muldiv,
        &[("unroll", Given::Num(3))],
        "Range { key: Name { text: \"unroll\" }, found: Num(3), low: 1, high: 4 }",
    ),
    (
        Kind::Muldiv,
        &[("unroll", Given::Num(8))],
        "Range { key: Name { text: \"unroll\" }, found: Num(8), low: 1, high: 4 }",
    ),
    (
        Kind::Muldiv,
        &[("unroll", Given::Flag(true))],
        "Range { key: Name { text: \"unroll\" }, found: Flag(true), low: 1, high: 4 }",
    ),
    (
        Kind::Icache,
        &[("line", Given::Num(64))],
        "Unknown { key: Name { text: \"line\" } }",
    ),
    (
        Kind::Csr,
        &[("depth", Given::Num(1))],
        "Unknown { key: Name { text: \"depth\" } }",
    ),
    (
        Kind::Icache,
        &[("lines", Given::Num(1024)), ("words", Given::Num(16))],
        "1100 68",
    ),
    (
        Kind::Icache,
        &[("lines", Given::Num(2)), ("words", Given::Num(2))],
        "22 12",
    ),
    (
        Kind::Icache,
        &[("lines", Given::Num(3)), ("words", Given::Num(3))],
        "Range { key: Name { text: \"lines\" }, found: Num(3), low: 2, high: 1024 }",
    ),
    (
        Kind::Icache,
        &[("lines", Given::Num(2)), ("words", Given::Num(3))],
        "Range { key: Name { text: \"words\" }, found: Num(3), low: 2, high: 16 }",
    ),
    (
        Kind::Icache,
        &[("lines", Given::Num(2)), ("words", Given::Num(4))],
        "30 20",
    ),
];

/// What a plug-in may say of itself, and what not.
const SPECS: &[(Own, bool)] = &[
    (PLAIN, true),
    (
        Own {
            fixed: 65536,
            ..PLAIN
        },
        false,
    ),
    (
        Own {
            offers: &[Service::Exec],
            ..PLAIN
        },
        false,
    ),
    (
        Own {
            offers: &[Service::Exec],
            rows: &[0],
            place: Place::Execute,
            ..PLAIN
        },
        true,
    ),
    (
        Own {
            rows: &[0],
            ..PLAIN
        },
        false,
    ),
    (
        Own {
            offers: &[Service::Exec],
            rows: &[12],
            place: Place::Execute,
            ..PLAIN
        },
        false,
    ),
    (
        Own {
            offers: &[Service::Predict, Service::Predict],
            ..PLAIN
        },
        false,
    ),
    (
        Own {
            offers: &[Service::Exec],
            rows: &[0, 0],
            place: Place::Execute,
            ..PLAIN
        },
        false,
    ),
];

/// Whether a kind answers so, and is as it was where it refuses.
fn is_taken(alloc: Global, kind: Kind, params: Params, wanted: &str) -> Result<bool, AllocError> {
    let mut state = KindState::new(alloc, kind)?;
    let before = state.spec().latency;
    let found = taken(alloc, &mut state, params)?;
    let kept = !wanted.ends_with("}") || state.spec().latency == before;
    Ok(kept && found.as_str() == wanted)
}

/// Whether each kind takes its parameters.
pub fn parameters_are_taken(alloc: Global) -> Result<bool, AllocError> {
    for (kind, params, wanted) in PARAMS {
        if !is_taken(alloc, *kind, *params, *wanted)? {
            return Ok(false);
        }
    }
    Ok(true)
}

/// Whether a plug-in may say of itself what it may, and nothing else.
pub fn specs_are_right(alloc: Global) -> Result<bool, AllocError> {
    for (own, may) in SPECS {
        if is_spec(&spec(alloc, *own)?) != *may {
            return Ok(false);
        }
    }
    Ok(true)
}
