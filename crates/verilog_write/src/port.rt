ghost use Rattle.std.specs.Prelude.{◌≡◌, ◌++◌, OnOk};
ghost use Rattle.module_netlist.specs.Names.{port_name};

use crate::piece::push_text;
use hw_module::PORTS;
use std::alloc::AllocError;

/// Appends a text, and behind it the name of a port.
pub(crate) fn push_port(out: &mut Vec<u8>, before: &str, port: u32) -> Result<(), AllocError>
    ensures { OnOk result (out.new.items ≡ out.old.items ++ (before.now ++ port_name port)) }
{
    push_text(out, before)?;
    push_text(out, port_text(port))
}

/// The name of a port. A number that is no port's counts as the first.
#[tactic(auto, using(crate::proofs::Ports::last_port, crate::proofs::Ports::no_port), unfolding(core_ports::specs::Ports::name_of, hw_module::specs::Ports::port_at))]
fn port_text(port: u32) -> &'static str
    ensures { result.now ≡ port_name port }
{
    if port >= PORTS {
        return "clk";
    }
    match port {
        0 => "clk",
        1 => "reset",
        2 => "ib_cmd_valid",
        3 => "ib_cmd_ready",
        4 => "ib_cmd_addr",
        5 => "ib_rsp_valid",
        6 => "ib_rsp_error",
        7 => "ib_rsp_data",
        8 => "db_cmd_valid",
        9 => "db_cmd_ready",
        10 => "db_cmd_write",
        11 => "db_cmd_addr",
        12 => "db_cmd_data",
        13 => "db_cmd_mask",
        14 => "db_rsp_valid",
        15 => "db_rsp_error",
        16 => "db_rsp_data",
        17 => "irq_software",
        18 => "irq_timer",
        19 => "irq_external",
        20 => "ev_valid",
        21 => "ev_kind",
        22 => "ev_pc",
        23 => "ev_word",
        24 => "ev_rd",
        25 => "ev_value",
        26 => "ev_cause",
        27 => "fe_valid",
        28 => "fe_take",
        _ => "fe_pc",
    }
}
