use core_host::{List, Name};
use part_alone::{Stand, stand_alone, stand_beside, stand_decoder};
use plug_alu::Alu;
use plug_branch::Branch;
use plug_csr::Csr;
use plug_dbus::Dbus;
use plug_decoder::Decoder;
use plug_fencei::Fencei;
use plug_fetch::Fetch;
use plug_hazard::Hazard;
use plug_icache::Icache;
use plug_muldiv::Muldiv;
use plug_predict::Predict;
use plug_regfile::RegFile;
use plug_shift::{ShiftBarrel, ShiftLight};
use plug_srl::Srl;
use stage_map::{Param, ParamValue, PlugEntry};
use std::alloc::{AllocError, Global};

/// A name.
fn name(alloc: Global, text: &str) -> Result<Name, AllocError> {
    Ok(Name::of(String::from_str(alloc, text)?))
}

/// The value of a parameter: a truth value, a number, or a word.
fn value_of(alloc: Global, text: &str) -> Result<ParamValue, AllocError> {
    if text == "true" || text == "false" {
        return Ok(ParamValue::Flag(text == "true"));
    }
    match text.parse::<i64>() {
        Ok(number) => Ok(ParamValue::Num(number)),
        Err(_error) => Ok(ParamValue::Word(name(alloc, text)?)),
    }
}

/// The entry of a kind with one parameter, or with none.
fn entry_of(alloc: Global, kind: &str, key: &str, value: &str) -> Result<PlugEntry, AllocError> {
    let mut params = Vec::new(alloc);
    if !value.is_empty() {
        let key = name(alloc, key)?;
        let value = value_of(alloc, value)?;
        params.push(Param { key, value })?;
    }
    let kind = name(alloc, kind)?;
    Ok(PlugEntry {
        kind,
        params: List::of(params),
    })
}

/// The part of the integer unit.
fn alu(alloc: Global, entry: &PlugEntry) -> Result<Stand, AllocError> {
    let plug = Alu::new(alloc)?;
    stand_alone(alloc, plug, entry)
}

/// The part of the unit for SRL.
fn srl(alloc: Global, entry: &PlugEntry) -> Result<Stand, AllocError> {
    let plug = Srl::new(alloc)?;
    stand_alone(alloc, plug, entry)
}

/// The part of the unit of jumps and branches.
fn branch(alloc: Global, entry: &PlugEntry) -> Result<Stand, AllocError> {
    let plug = Branch::new(alloc)?;
    stand_alone(alloc, plug, entry)
}

/// The part of the shifter that is done at once.
fn barrel(alloc: Global, entry: &PlugEntry) -> Result<Stand, AllocError> {
    let plug = ShiftBarrel::new(alloc)?;
    stand_alone(alloc, plug, entry)
}

/// The part of the shifter by one place in a cycle.
fn light(alloc: Global, entry: &PlugEntry) -> Result<Stand, AllocError> {
    let plug = ShiftLight::new(alloc)?;
    stand_alone(alloc, plug, entry)
}

/// The part of multiplication and division.
fn muldiv(alloc: Global, entry: &PlugEntry) -> Result<Stand, AllocError> {
    let plug = Muldiv::new(alloc)?;
    stand_alone(alloc, plug, entry)
}

/// The part of loads and stores.
fn dbus(alloc: Global, entry: &PlugEntry) -> Result<Stand, AllocError> {
    let plug = Dbus::new(alloc)?;
    stand_alone(alloc, plug, entry)
}

/// The part of what reads instructions.
fn fetch(alloc: Global, entry: &PlugEntry) -> Result<Stand, AllocError> {
    let plug = Fetch::new(alloc)?;
    stand_alone(alloc, plug, entry)
}

/// The part of the guess of the next address.
fn predict(alloc: Global, entry: &PlugEntry) -> Result<Stand, AllocError> {
    let plug = Predict::new(alloc)?;
    stand_alone(alloc, plug, entry)
}

/// The part of what reads instructions through a cache.
fn icache(alloc: Global, entry: &PlugEntry) -> Result<Stand, AllocError> {
    let plug = Icache::new(alloc)?;
    stand_alone(alloc, plug, entry)
}

/// The part of the control and status registers.
fn csr(alloc: Global, entry: &PlugEntry) -> Result<Stand, AllocError> {
    let plug = Csr::new(alloc)?;
    stand_alone(alloc, plug, entry)
}

/// The part of the registers.
fn regfile(alloc: Global, entry: &PlugEntry) -> Result<Stand, AllocError> {
    let plug = RegFile::new(alloc)?;
    stand_alone(alloc, plug, entry)
}

/// The part of what bypasses and holds, beside the registers.
fn hazard(alloc: Global, entry: &PlugEntry) -> Result<Stand, AllocError> {
    let regs = RegFile::new(alloc)?;
    let plug = Hazard::new(alloc)?;
    stand_beside(alloc, &regs, plug, entry)
}

/// The part of the unit of FENCE.I, beside what fetches.
fn fencei(alloc: Global, entry: &PlugEntry) -> Result<Stand, AllocError> {
    let fetch = Fetch::new(alloc)?;
    let plug = Fencei::new(alloc)?;
    stand_beside(alloc, &fetch, plug, entry)
}

/// The decoder of a set of rows.
fn decoder(alloc: Global, rows: &str) -> Result<Stand, AllocError> {
    let plug = Decoder::new(alloc)?;
    stand_decoder(alloc, &plug, u64::from_str_radix(rows, 16).unwrap_or(0))
}

/// The part of a kind that takes an entry, or the decoder of a set of rows.
fn stand_by(alloc: Global, kind: &str, entry: &PlugEntry, rows: &str) -> Result<Stand, AllocError> {
    match kind {
        "alu" => alu(alloc, entry),
        "srl" => srl(alloc, entry),
        "branch" => branch(alloc, entry),
        "shift_barrel" => barrel(alloc, entry),
        "shift_light" => light(alloc, entry),
        "muldiv" => muldiv(alloc, entry),
        "dbus" => dbus(alloc, entry),
        "fetch" => fetch(alloc, entry),
        "predict" => predict(alloc, entry),
        "icache" => icache(alloc, entry),
        "csr" => csr(alloc, entry),
        "regfile" => regfile(alloc, entry),
        "hazard" => hazard(alloc, entry),
        "fencei" => fencei(alloc, entry),
        "decoder" => decoder(alloc, rows),
        _other => Err(AllocError),
    }
}

/// The part of a kind with a parameter, under test; of the decoder, by its rows.
pub fn stand_for(alloc: Global, kind: &str, key: &str, value: &str) -> Result<Stand, AllocError> {
    let entry = entry_of(alloc, kind, key, value)?;
    stand_by(alloc, kind, &entry, key)
}
