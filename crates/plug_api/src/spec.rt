use core_host::{List, Name};
use isa_table::Claim;
use service_reg::Service;
use stage_map::{CoreShape, KeyUse, ParamValue};
use thiserror::Error;

/// How much of a module a plug-in may fill: `fixed` things, and `per_row` for each row that the core claims.
#[derive(Clone, Copy, Debug, PartialEq, Eq)]
pub struct Cost {
    pub fixed: u32,
    pub per_row: u32,
}

/// Where the pipeline gives instructions to a plug-in: in the stage Execute, in the stage of the commit, or nowhere.
#[derive(Clone, Copy, Debug, PartialEq, Eq)]
pub enum Place {
    Execute,
    Commit,
    Apart,
}

/// What a plug-in says of itself: the name of its kind, the services that it offers, needs, and uses where they are
/// there, the rows of the instruction table that it claims, the keys that it writes and reads, its greatest delay
/// (cycles, and cycles for each one that a bus waits), its cost and its place.
#[derive(Debug, Drop)]
pub struct PlugSpec {
    pub name: Name,
    pub offers: List<Service>,
    pub needs: List<Service>,
    pub uses: List<Service>,
    pub rows: List<Claim>,
    pub keys: List<KeyUse>,
    pub latency: (u32, u32),
    pub cost: Cost,
    pub place: Place,
}

/// Why a plug-in refuses the parameters of an entry.
#[derive(Debug, Drop, Error)]
pub enum ParamFault {
    /// It knows no parameter of this key.
    #[error("no such parameter")]
    Unknown {
        key: Name,
    },
    /// The value is no integer from `low` to `high`, or of another kind than the parameter.
    #[error("a parameter is out of range")]
    Range {
        key: Name,
        found: ParamValue,
        low: i64,
        high: i64,
    },
    #[error("out of memory")]
    NoMemory,
}

/// An accepted configuration: its shape, the box of each entry, the order in which the entries build, all claims in
/// the order of the entries and the entry of each, whether there are system registers, and how many things the module
/// may have.
#[derive(Debug, Drop)]
pub struct Plan {
    pub shape: CoreShape,
    pub picks: List<u32>,
    pub order: List<u32>,
    pub rows: List<Claim>,
    pub owners: List<u32>,
    pub has_csr: bool,
    pub wanted: u32,
}
