use crate::fit::are_specs;
use crate::own::{KINDS, OWN, spec};
use isa_table::Claim;
use plug_api::{Checked, OwnedClaim, PlugSpec, RuleRefusal, check_specs};
use plug_kinds::spec_of;
use stage_map::{CoreShape, Isa, Stage};
use std::alloc::{AllocError, Global};

/// What the plug-in of this number says of itself without parameters: the kinds come first, and then those of no kind.
fn spec_at(alloc: Global, pick: u32) -> Result<PlugSpec, AllocError> {
    let at = pick as usize;
    if at < KINDS.len() {
        return spec_of(alloc, KINDS[at], &[]);
    }
    let own = at - KINDS.len();
    if own < OWN.len() {
        return spec(alloc, OWN[own]);
    }
    Err(AllocError)
}

/// What the plug-ins of these numbers say of themselves.
fn specs_at(alloc: Global, picks: &[u32]) -> Result<Vec<PlugSpec>, AllocError> {
    let mut specs = Vec::new(alloc);
    for pick in picks {
        specs.push(spec_at(alloc, *pick)?)?;
    }
    Ok(specs)
}

/// The names of plug-ins with a space between any two.
fn names_of(alloc: Global, specs: &Vec<PlugSpec>) -> Result<String, AllocError> {
    let mut names = String::new(alloc);
    for spec in specs.iter() {
        if !names.is_empty() {
            names.push_str(" ")?;
        }
        names.push_str(spec.name.text().as_str())?;
    }
    Ok(names)
}

/// What the rules find of a core of four stages.
fn checked(alloc: Global, isa: Isa, specs: &Vec<PlugSpec>) -> Result<Checked, RuleRefusal> {
    let shape = CoreShape {
        isa,
        reset_pc: 0x8000_0000,
        stages: 4,
        commit: Stage::Execute,
    };
    if specs.len() > 32 || !are_specs(specs) {
        return Err(RuleRefusal::NoMemory);
    }
    check_specs(alloc, shape, specs)
}

/// Cores: the set, the names, the numbers of their plug-ins, and what the rules find: the order, how many rows, whether
/// there are system registers, what is wanted.
const PLANS: &[(Isa, &str, &[u32], &[u32], usize, bool, u32)] = &[
    (
        Isa::Claimed,
        "fetch decoder regfile hazard alu",
        &[0, 4, 5, 6, 7],
        &[0, 1, 2, 3, 4],
        15,
        false,
        13632,
    ),
    (
        Isa::Rv32i,
        "fetch decoder regfile hazard alu shift_barrel branch dbus",
        &[0, 4, 5, 6, 7, 9, 11, 12],
        &[0, 1, 2, 3, 4, 5, 6, 7],
        38,
        false,
        18432,
    ),
    (
        Isa::Rv32im,
        "fetch decoder regfile hazard alu shift_barrel branch dbus muldiv",
        &[0, 4, 5, 6, 7, 9, 11, 12, 10],
        &[0, 1, 2, 3, 4, 5, 6, 7, 8],
        46,
        false,
        23296,
    ),
    (
        Isa::Rv32iZicsr,
        "fetch decoder regfile hazard alu shift_barrel branch dbus csr",
        &[0, 4, 5, 6, 7, 9, 11, 12, 13],
        &[0, 1, 2, 3, 4, 5, 6, 7, 8],
        46,
        true,
        23296,
    ),
    (
        Isa::Claimed,
        "fetch decoder regfile hazard alu shift_barrel branch dbus csr",
        &[0, 4, 5, 6, 7, 9, 11, 12, 13],
        &[0, 1, 2, 3, 4, 5, 6, 7, 8],
        46,
        true,
        23296,
    ),
    (
        Isa::Rv32iZifencei,
        "icache decoder regfile hazard alu shift_barrel branch dbus fencei",
        &[1, 4, 5, 6, 7, 9, 11, 12, 3],
        &[0, 1, 2, 3, 4, 5, 6, 7, 8],
        39,
        false,
        19840,
    ),
    (
        Isa::Rv32imZicsrZifencei,
        "icache predict fencei decoder regfile hazard alu shift_barrel muldiv branch dbus csr",
        &[1, 2, 3, 4, 5, 6, 7, 9, 10, 11, 12, 13],
        &[1, 0, 2, 3, 4, 5, 6, 7, 8, 9, 10, 11],
        55,
        true,
        30080,
    ),
    (
        Isa::Claimed,
        "fetch decoder regfile hazard alu last",
        &[0, 4, 5, 6, 7, 22],
        &[0, 1, 2, 3, 4, 5],
        15,
        false,
        13888,
    ),
    (
        Isa::Claimed,
        "fetch decoder regfile hazard alu writer follower",
        &[0, 4, 5, 6, 7, 23, 26],
        &[0, 1, 2, 3, 4, 5, 6],
        15,
        false,
        14144,
    ),
];

/// The rows that `alu` claims.
const COMPUTES: [u32; 15] = [0, 1, 18, 19, 20, 21, 22, 23, 27, 28, 30, 31, 32, 35, 36];

/// Whether the rules find this: an order, how many rows, whether there are system registers, what is wanted.
fn is_found(found: &Checked, order: &[u32], rows: usize, has_csr: bool, wanted: u32) -> bool {
    found.order.as_slice() == order
        && found.claims.len() == rows
        && found.has_csr == has_csr
        && found.wanted == wanted
}

/// Whether each core has its plan.
pub fn plans_are_right(alloc: Global) -> Result<bool, AllocError> {
    for (isa, names, picks, order, rows, has_csr, wanted) in PLANS {
        let specs = specs_at(alloc, *picks)?;
        let named = names_of(alloc, &specs)?.as_str() == *names;
        let found = match checked(alloc, *isa, &specs) {
            Ok(found) => is_found(&found, *order, *rows, *has_csr, *wanted),
            Err(_refusal) => false,
        };
        if !named || !found {
            return Ok(false);
        }
    }
    Ok(true)
}

/// Whether the claims are those of `alu`, as the entry of number 4.
fn are_computes(claims: &Vec<OwnedClaim>) -> bool {
    if claims.len() != COMPUTES.len() {
        return false;
    }
    for k in 0..COMPUTES.len() {
        if claims[k].claim.row != COMPUTES[k] || claims[k].entry != 4 {
            return false;
        }
    }
    let sub = Claim {
        mask: 0xfe00_707f,
        value: 0x4000_0033,
        row: 28,
    };
    claims[9].claim == sub
}

/// Whether claims have their entries.
pub fn claims_are_right(alloc: Global) -> Result<bool, AllocError> {
    let specs = specs_at(alloc, &[0, 4, 5, 6, 7])?;
    match checked(alloc, Isa::Claimed, &specs) {
        Ok(found) => Ok(are_computes(&found.claims)),
        Err(_refusal) => Ok(false),
    }
}
