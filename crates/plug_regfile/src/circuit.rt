ghost use Rattle.std.specs.Prelude.{◌≡◌, ◌<◌, ◌≤◌, length, None};
ghost use Rattle.hw_pool.specs.Frame.{Adds};
ghost use Rattle.hw_pool.specs.Meaning.{Env};
ghost use Rattle.hw_pool.specs.Scope.{Scope};
ghost use Rattle.hw_gates.specs.Places.{Is, IsIn, Step, value_in};
ghost use Rattle.hw_module.specs.declared.rows.Owner.TheVariants.{Entry};
ghost use Rattle.hw_module.specs.Rows.{array_at};
ghost use Rattle.service_reg.specs.declared.service.Service.TheVariants as service;
ghost use Rattle.service_ports.specs.Ports.{input_shapes, regfile_ports};
ghost use Rattle.plug_build.specs.Fits.{AreInputs, IsInput};
ghost use Rattle.plug_kit.specs.Bounds.{no_scope};
ghost use Rattle.plug_kit.specs.Carries.{Carries};
ghost use Rattle.plug_kit.specs.Made.{regfile_list};
ghost use Rattle.plug_regfile.specs.Machine.{read_of, shown_of};
ghost use Rattle.plug_regfile.specs.Steps.{Writes};

use hw_expr::Net;
use hw_gates::{eq, lit, mux};
use hw_pool::Pool;
use plug_build::Builder;
use plug_kit::RegFileInputs;
use service_ports::RegFilePorts;

/// What a register of 32 bits reads, by its number of 5 bits and its cell: register 0 reads 0.
#[tactic(auto, unfolding(crate::specs::Machine::shown_of))]
fn shown(pool: &mut Pool, number: Net, cell: Net) -> Net
    requires spare { 4 ≤ pool.old.spare }
    requires number { Is pool.old number 5 2 }
    requires cell { Is pool.old cell 32 2 }
    ensures value { (env : Env) → value_in env pool.new result ≡ shown_of (value_in env pool.old number) (value_in env pool.old cell) }
    ensures net { Is pool.new result 32 2 }
    ensures scope { (s : Scope) → IsIn s pool.old number → IsIn s pool.old cell → IsIn s pool.new result }
    ensures step { Step pool.old pool.new 4 }
{
    let zero = lit(pool, 5, 0);
    let none = eq(pool, number, zero);
    let nothing = lit(pool, 32, 0);
    mux(pool, none, nothing, cell)
}

/// The register that an input names, as it is read.
fn read_cell(b: &Builder, pool: &mut Pool, wire: u32, array: u32) -> Net
    requires spare { 6 ≤ pool.old.spare }
    requires input { IsInput b.now.design b.now.entry wire (5, 2) }
    requires there { array < length b.now.design.arrays }
    requires width { (array_at b.now.design.arrays array).width ≡ 32 }
    requires bits { (array_at b.now.design.arrays array).bits ≡ 5 }
    ensures net { Carries no_scope b.now.design pool.new 32 2 (λ env. read_of (env.cells array) (env.wires wire)) result }
    ensures adds { Adds pool.old pool.new 6 }
{
    let number = b.wire_net(pool, wire);
    let cell = b.read(pool, array, number);
    shown(pool, number, cell)
}

/// The outputs of the registers over their array.
pub(crate) fn read_cells(b: &Builder, pool: &mut Pool, w: RegFileInputs, array: u32) -> RegFilePorts
    requires spare { 12 ≤ pool.old.spare }
    requires inputs { AreInputs b.now.design b.now.entry (regfile_list w) (input_shapes service.RegFile) }
    requires there { array < length b.now.design.arrays }
    requires width { (array_at b.now.design.arrays array).width ≡ 32 }
    requires bits { (array_at b.now.design.arrays array).bits ≡ 5 }
    ensures inputs { (regfile_ports result).inputs ≡ regfile_list w }
    ensures a { Carries no_scope b.now.design pool.new 32 2 (λ env. read_of (env.cells array) (env.wires w.ra)) result.a }
    ensures b { Carries no_scope b.now.design pool.new 32 2 (λ env. read_of (env.cells array) (env.wires w.rb)) result.b }
    ensures adds { Adds pool.old pool.new 12 }
{
    let left = read_cell(b, pool, w.ra, array);
    let right = read_cell(b, pool, w.rb, array);
    RegFilePorts {
        ra: w.ra,
        rb: w.rb,
        we: w.we,
        wa: w.wa,
        wd: w.wd,
        a: left,
        b: right,
    }
}

/// Gives the array its write: where the input `we` is 1, the cell `wa` takes `wd`.
pub(crate) fn write_cells(b: &mut Builder, pool: &mut Pool, w: RegFilePorts, array: u32)
    requires room { 1 ≤ b.old.design.room }
    requires spare { 3 ≤ pool.old.spare }
    requires inputs { AreInputs b.old.design b.old.entry (regfile_ports w).inputs (input_shapes service.RegFile) }
    requires there { array < length b.old.design.arrays }
    requires open { array_at b.old.design.arrays array ≡ record { owner = Entry b.old.entry; width = 32; bits = 5; write = None } }
    ensures entry { b.new.entry ≡ b.old.entry }
    ensures writes { Writes b.old.entry b.old.design b.new.design pool.new w array }
    ensures adds { Adds pool.old pool.new 3 }
{
    let enable = b.wire_net(pool, w.we);
    let addr = b.wire_net(pool, w.wa);
    let value = b.wire_net(pool, w.wd);
    b.write(pool, array, enable, addr, value);
}
