ghost use Rattle.std.specs.Prelude.{◌≡◌, ℕ, ◌+◌, ◌<◌, ◌≤◌, length, None, Some, true, false, Option};
ghost use Rattle.hw_pool.specs.Meaning.{Env};
ghost use Rattle.hw_gates.specs.Places.{Has, Is, IsIn, Step, value_in};
ghost use Rattle.hw_module.specs.declared.rows.Owner.TheVariants.{Entry};
ghost use Rattle.hw_module.specs.Checked.{DriversFit};
ghost use Rattle.hw_module.specs.Rights.{Makes, Rights};
ghost use Rattle.hw_module.specs.Rows.{out_at};
ghost use Rattle.hw_module.specs.Scope.{scope_of};
ghost use Rattle.hw_expr.specs.Nets.{InScope};
ghost use Rattle.service_reg.specs.declared.service.Service.TheVariants.{Predict};
ghost use Rattle.service_ports.specs.Registry.{Offered, single};
ghost use Rattle.plug_build.specs.Fits.{OffersFit};
ghost use Rattle.plug_icache.specs.Reads.{Reads};
ghost use Rattle.isa_model.specs.Effects.{behind};

use hw_expr::Net;
use hw_pool::Pool;
use plug_build::Builder;

/// Gives the command on the instruction bus: that it is given, one bit, and its address, of 32 bits.
#[tactic(auto, unfolding(hw_module::specs::Ports::port_at))]
pub(crate) fn give_command(b: &mut Builder, pool: &Pool, given: Net, address: Net)
    requires room { 2 ≤ b.old.design.room }
    requires open_given { out_at b.old.design.outs 2 ≡ None }
    requires open_address { out_at b.old.design.outs 4 ≡ None }
    requires given { InScope (scope_of b.old.design) pool.now given }
    requires address { InScope (scope_of b.old.design) pool.now address }
    requires widths { (given.width ≡ 1) × (address.width ≡ 32) }
    ensures given { out_at b.new.design.outs 2 ≡ Some given }
    ensures address { out_at b.new.design.outs 4 ≡ Some address }
    ensures others { (q : ℕ) → (q ≡ 2 → ⊥) → (q ≡ 4 → ⊥) → out_at b.new.design.outs q ≡ out_at b.old.design.outs q }
    ensures wires { b.new.design.wires ≡ b.old.design.wires }
    ensures regs { b.new.design.regs ≡ b.old.design.regs }
    ensures arrays { b.new.design.arrays ≡ b.old.design.arrays }
    ensures entry { b.new.entry ≡ b.old.entry }
    ensures room { b.new.design.room + 2 ≡ b.old.design.room }
    ensures makes { (r : Rights) → r.outs 2 ≡ true → r.outs 4 ≡ true → Makes (Entry b.old.entry) r b.old.design b.new.design 2 }
    ensures drivers { DriversFit b.old.design pool.now → DriversFit b.new.design pool.now }
{
    b.output(pool, 2, given);
    b.output(pool, 4, address);
}
