use crate::ParamFault;
use core_host::Name;
use service_reg::Service;
use stage_map::Stage;
use thiserror::Error;

/// The first rule that a configuration breaks, in the order of these variants. Entries go by their numbers.
#[derive(Debug, Drop, Error)]
pub enum RuleRefusal {
    /// No plug-in has the name of the entry's kind.
    #[error("no such plug-in")]
    UnknownPlugin {
        entry: u32,
    },
    /// Two entries name one kind.
    #[error("a plug-in is named twice")]
    RepeatedPlugin {
        entry: u32,
        other: u32,
    },
    /// The plug-in refuses the parameters of the entry.
    #[error("a parameter is refused")]
    BadParam {
        entry: u32,
        fault: ParamFault,
    },
    /// Nothing offers the service, which every core needs where `by` is none, else this entry.
    #[error("a service is missing")]
    Missing {
        service: Service,
        by: Option<u32>,
    },
    /// The entries `a` and `b` offer one service.
    #[error("a service is offered twice")]
    Double {
        service: Service,
        a: u32,
        b: u32,
    },
    /// The entry stands on itself, by what it needs and uses.
    #[error("an entry needs itself")]
    CycleOfNeeds {
        plug: u32,
    },
    /// Some word meets the rows `row` of `entry` and `other_row` of `other`.
    #[error("two entries claim one word")]
    EncodingClash {
        entry: u32,
        row: u32,
        other: u32,
        other_row: u32,
    },
    /// No entry claims this row of the instruction set.
    #[error("an instruction is missing")]
    IsaMissing {
        row: u32,
    },
    /// The entry claims a row that is not of the instruction set.
    #[error("an instruction is claimed that is none of the set")]
    IsaExtra {
        entry: u32,
        row: u32,
    },
    /// The pipeline has no such stage: of the commit where `plug` is none, else of this entry.
    #[error("the pipeline lacks a stage")]
    StageAbsent {
        plug: Option<u32>,
        stage: Stage,
    },
    /// The entry `reader` reads a key at a stage before that in which `writer` writes it, or that nothing writes.
    #[error("a key is read before it is written")]
    StageOrder {
        key: Name,
        reader: u32,
        writer: Option<u32>,
    },
    /// Two entries write one key.
    #[error("a key is written twice")]
    KeyTwice {
        key: Name,
        a: u32,
        b: u32,
    },
    /// The module may have more things than there is room for.
    #[error("the core is too large")]
    TooLarge {
        wanted: u64,
        limit: u32,
    },
    #[error("out of memory")]
    NoMemory,
}
