ghost use Rattle.std.specs.Prelude.{◌≡◌, ◌<◌, ◌≤◌, ◌++◌, ◌^◌, IfOk, OnOk, length};
ghost use Rattle.verilog_netlist.specs.Text.{text_of};
ghost use Rattle.module_netlist.specs.Lines.{netlist_of};
ghost use Rattle.module_netlist.specs.Written.{thing_count};
ghost use Rattle.verilog_write.specs.Sections.{driven_text, made_text};

use crate::piece::push_text;
use crate::section::{
    push_arrays, push_drives, push_nexts, push_nodes, push_outs, push_regs, push_wires, push_writes,
};
use hw_module::Module;
use hw_pool::Pool;
use std::alloc::{AllocError, Global};

/// The text of the module up to its first line: its name and the ports of a core.
const HEAD: &str = "module core(
  input clk,
  input reset,
  output ib_cmd_valid,
  input ib_cmd_ready,
  output [31:0] ib_cmd_addr,
  input ib_rsp_valid,
  input ib_rsp_error,
  input [31:0] ib_rsp_data,
  output db_cmd_valid,
  input db_cmd_ready,
  output db_cmd_write,
  output [31:0] db_cmd_addr,
  output [31:0] db_cmd_data,
  output [3:0] db_cmd_mask,
  input db_rsp_valid,
  input db_rsp_error,
  input [31:0] db_rsp_data,
  input irq_software,
  input irq_timer,
  input irq_external,
  output ev_valid,
  output [1:0] ev_kind,
  output [31:0] ev_pc,
  output [31:0] ev_word,
  output [4:0] ev_rd,
  output [31:0] ev_value,
  output [31:0] ev_cause,
  output fe_valid,
  output fe_take,
  output [31:0] fe_pc
);";

/// Writes the text of the module over the marked nodes of the pool.
///
/// # Errors
/// `AllocError` where memory was refused.
pub fn write_netlist(
    alloc: Global,
    m: &Module,
    pool: &Pool,
    marks: &[bool],
) -> Result<Vec<u8>, AllocError>
    requires few { thing_count m.now pool.now ≤ 65535 }
    requires many { length marks.now ≡ length pool.now.nodes }
    ensures { IfOk result (λ out. out.items ≡ text_of (netlist_of m.now pool.now.nodes marks.now)) }
{
    let mut out = Vec::new(alloc);
    push_text(&mut out, HEAD)?;
    push_made(&mut out, m)?;
    push_nodes(&mut out, m, pool, marks)?;
    push_driven(&mut out, m)?;
    push_text(&mut out, "\nendmodule\n")?;
    Ok(out)
}

/// Appends the lines that make what is driven later on.
#[tactic(auto, unfolding(crate::specs::Sections::made_text))]
fn push_made(out: &mut Vec<u8>, m: &Module) -> Result<(), AllocError>
    requires wires { length m.now.wires < 2 ^ 32 }
    requires regs { length m.now.regs < 2 ^ 32 }
    requires arrays { length m.now.arrays < 2 ^ 32 }
    ensures { OnOk result (out.new.items ≡ out.old.items ++ made_text m.now) }
{
    push_wires(out, m)?;
    push_regs(out, m)?;
    push_arrays(out, m)
}

/// Appends the lines that drive it, and the outputs.
#[tactic(auto, unfolding(crate::specs::Sections::driven_text))]
fn push_driven(out: &mut Vec<u8>, m: &Module) -> Result<(), AllocError>
    requires wires { length m.now.wires < 2 ^ 32 }
    requires regs { length m.now.regs < 2 ^ 32 }
    requires arrays { length m.now.arrays < 2 ^ 32 }
    ensures { OnOk result (out.new.items ≡ out.old.items ++ driven_text m.now) }
{
    push_drives(out, m)?;
    push_nexts(out, m)?;
    push_writes(out, m)?;
    push_outs(out, m)
}
