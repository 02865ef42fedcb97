//! The ports of services with their widths and levels, and what entries offer of them.
//!
//! An input of a service is a forward wire, by its number in the module. It has the width and the level of the table
//! (`specs/Ports`), and what drives it has a lower level. An output is a net of the table's width, at most of the
//! table's level. Each offer tells the entry that makes it.
#![tactic(auto)]

mod law;
mod ports;
mod registry;

pub use law::{offers_chain, ports_fill_the_table};
pub use ports::{
    DataBusPorts, DecoderPorts, ExecOffer, ExecPorts, FetchPorts, HazardPorts, HazardStage,
    PredictPorts, RegFilePorts, SystemPorts,
};
pub use registry::Registry;
