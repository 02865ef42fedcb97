//! A kit for those who write plug-ins.
//!
//! The inputs of a service are made in one step (`inputs`). A net is carried with its function of the inputs, forward
//! wires, registers and cells to the end of a function that adds more nodes (`specs/Carries`), for values within the
//! widths of a scope, such as that of the part (`specs/Bounds`). An entry with one service, and a unit without state, say
//! what they did (`specs/Unit`), and the laws have what follows. What was made in the first call of an entry is found
//! again in the second (`find`).
#![tactic(auto)]

mod find;
mod inputs;
mod law;
mod read;

pub use find::{own_array, own_reg};
pub use inputs::{
    DecoderInputs, ExecInputs, FetchInputs, HazardInputs, PredictInputs, RegFileInputs,
    SystemInputs, decoder_inputs, exec_inputs, fetch_inputs, hazard_inputs, input_wire,
    predict_inputs, regfile_inputs, system_inputs,
};
pub use law::{
    bare_parts_are_done, gates_carry, nets_carry, plain_parts_build, runs_are_bounded,
    services_are_offered, things_are_found, units_build, wires_beside_inputs,
};
pub use read::{cell_net, port_net, reg_net, wire_net};
