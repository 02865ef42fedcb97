//! Writes a module of nodes as Verilog text (IEEE 1364-2005): a row for each port and each line of its netlist.
#![tactic(auto)]

mod law;
mod line;
mod name;
mod netlist;
mod piece;
mod port;
mod row;
mod section;
mod value;
mod write;

pub use law::netlist_texts_mean;
pub use netlist::write_netlist;
pub use write::{WriteRefusal, module_text, write_module};
