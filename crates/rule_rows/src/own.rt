use core_host::{List, Name};
use isa_table::{Claim, row_at};
use plug_api::{Cost, Place, PlugSpec};
use plug_kinds::{Idle, Kind};
use service_reg::Service;
use stage_map::{Key, KeyUse, Param, ParamValue, PlugEntry, Stage};
use std::alloc::{AllocError, Global};

/// All kinds of plug-ins.
pub const KINDS: &[Kind] = &[
    Kind::Fetch,
    Kind::Icache,
    Kind::Predict,
    Kind::Fencei,
    Kind::Decoder,
    Kind::Regfile,
    Kind::Hazard,
    Kind::Alu,
    Kind::ShiftLight,
    Kind::ShiftBarrel,
    Kind::Muldiv,
    Kind::Branch,
    Kind::Dbus,
    Kind::Csr,
];

/// A parameter's value.
#[derive(Clone, Copy)]
pub enum Given {
    Num(i64),
    Flag(bool),
    Word(&'static str),
}

/// Parameters by their keys.
pub type Params<'a> = &'a [(&'static str, Given)];

fn name(alloc: Global, text: &str) -> Result<Name, AllocError> {
    Ok(Name::of(String::from_str(alloc, text)?))
}

fn value(alloc: Global, given: Given) -> Result<ParamValue, AllocError> {
    match given {
        Given::Num(n) => Ok(ParamValue::Num(n)),
        Given::Flag(b) => Ok(ParamValue::Flag(b)),
        Given::Word(w) => Ok(ParamValue::Word(name(alloc, w)?)),
    }
}

/// An entry of a configuration.
pub fn entry(alloc: Global, kind: &str, params: Params) -> Result<PlugEntry, AllocError> {
    let mut given = Vec::new(alloc);
    for (key, of_key) in params {
        given.push(Param {
            key: name(alloc, *key)?,
            value: value(alloc, *of_key)?,
        })?;
    }
    Ok(PlugEntry {
        kind: name(alloc, kind)?,
        params: List::of(given),
    })
}

/// What a plug-in of a test's own says of itself.
#[derive(Clone, Copy)]
pub struct Own {
    pub name: &'static str,
    pub offers: &'static [Service],
    pub needs: &'static [Service],
    pub uses: &'static [Service],
    pub rows: &'static [u32],
    pub keys: &'static [(&'static str, Stage, bool)],
    pub fixed: u32,
    pub place: Place,
}

/// A plug-in that offers and costs nothing.
pub const PLAIN: Own = Own {
    name: "plain",
    offers: &[],
    needs: &[],
    uses: &[],
    rows: &[],
    keys: &[],
    fixed: 0,
    place: Place::Apart,
};

/// Plug-ins that are of no kind.
pub const OWN: &[Own] = &[
    Own {
        name: "big",
        fixed: 65535,
        ..PLAIN
    },
    Own {
        name: "lonely",
        needs: &[Service::System],
        ..PLAIN
    },
    Own {
        name: "itself",
        offers: &[Service::Predict],
        needs: &[Service::Predict],
        ..PLAIN
    },
    Own {
        name: "loop",
        offers: &[Service::Predict],
        uses: &[Service::Fetch],
        ..PLAIN
    },
    Own {
        name: "left",
        offers: &[Service::Exec, Service::DataBus],
        needs: &[Service::System],
        place: Place::Commit,
        ..PLAIN
    },
    Own {
        name: "right",
        offers: &[Service::Exec, Service::System],
        needs: &[Service::DataBus],
        place: Place::Commit,
        ..PLAIN
    },
    Own {
        name: "caller",
        offers: &[Service::Exec],
        rows: &[38],
        place: Place::Execute,
        ..PLAIN
    },
    Own {
        name: "late",
        keys: &[("sum", Stage::Memory, true)],
        ..PLAIN
    },
    Own {
        name: "last",
        keys: &[("sum", Stage::Writeback, true)],
        ..PLAIN
    },
    Own {
        name: "writer",
        keys: &[("sum", Stage::Execute, true)],
        ..PLAIN
    },
    Own {
        name: "other",
        keys: &[("sum", Stage::Execute, true)],
        ..PLAIN
    },
    Own {
        name: "reader",
        keys: &[("sum", Stage::Decode, false)],
        ..PLAIN
    },
    Own {
        name: "follower",
        keys: &[("sum", Stage::Execute, false)],
        ..PLAIN
    },
    PLAIN,
];

fn claims(alloc: Global, rows: &[u32]) -> Result<Vec<Claim>, AllocError> {
    let mut claims = Vec::new(alloc);
    for index in rows {
        if *index >= 57 {
            return Err(AllocError);
        }
        let row = row_at(*index);
        claims.push(Claim {
            mask: row.mask,
            value: row.value,
            row: row.index,
        })?;
    }
    Ok(claims)
}

fn keys(alloc: Global, uses: &[(&'static str, Stage, bool)]) -> Result<Vec<KeyUse>, AllocError> {
    let mut keys = Vec::new(alloc);
    for (key, at, writes) in uses {
        keys.push(KeyUse {
            key: Key {
                name: name(alloc, *key)?,
                width: 32,
            },
            at: *at,
            writes: *writes,
        })?;
    }
    Ok(keys)
}

/// What such a plug-in says of itself.
pub fn spec(alloc: Global, own: Own) -> Result<PlugSpec, AllocError> {
    Ok(PlugSpec {
        name: name(alloc, own.name)?,
        offers: List::of(Vec::from_slice(alloc, own.offers)?),
        needs: List::of(Vec::from_slice(alloc, own.needs)?),
        uses: List::of(Vec::from_slice(alloc, own.uses)?),
        rows: List::of(claims(alloc, own.rows)?),
        keys: List::of(keys(alloc, own.keys)?),
        latency: (1, 0),
        cost: Cost {
            fixed: own.fixed,
            per_row: 0,
        },
        place: own.place,
    })
}

/// The plug-in of a test's own, which offers nothing.
pub fn idle(alloc: Global, own: Own) -> Result<Idle, AllocError> {
    match Idle::of(spec(alloc, own)?) {
        Some(plug) => Ok(plug),
        None => Err(AllocError),
    }
}
