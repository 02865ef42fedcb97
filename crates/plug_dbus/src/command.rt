ghost use Rattle.std.specs.Prelude.{◌≡◌, ℕ, ◌+◌, ◌<◌, ◌≤◌, length, None, Some, true, false};
ghost use Rattle.hw_module.specs.declared.rows.Owner.TheVariants.{Entry};
ghost use Rattle.hw_module.specs.Checked.{DriversFit};
ghost use Rattle.hw_module.specs.Rights.{Makes, Rights};
ghost use Rattle.hw_module.specs.Rows.{out_at};
ghost use Rattle.hw_module.specs.Scope.{scope_of};
ghost use Rattle.plug_part.specs.Owned.{is_bus_out};
ghost use Rattle.plug_dbus.specs.Nets.{IsHeld, IsHeldIn};
ghost use Rattle.plug_dbus.specs.Registers.{AreClear, AreShown};

use crate::unit::Held;
use hw_pool::Pool;
use plug_build::Builder;

/// Gives the command on the data bus, which is what the registers hold.
#[tactic(auto, unfolding(hw_module::specs::Ports::port_at))]
pub(crate) fn give_command(b: &mut Builder, pool: &Pool, r: Held)
    requires room { 5 ≤ b.old.design.room }
    requires clear { AreClear b.old.design }
    requires nets { IsHeld pool.now r }
    requires scope { IsHeldIn (scope_of b.old.design) pool.now r }
    ensures shown { AreShown b.new.design r }
    ensures wires { b.new.design.wires ≡ b.old.design.wires }
    ensures regs { b.new.design.regs ≡ b.old.design.regs }
    ensures arrays { b.new.design.arrays ≡ b.old.design.arrays }
    ensures entry { b.new.entry ≡ b.old.entry }
    ensures room { b.new.design.room + 5 ≡ b.old.design.room }
    ensures makes { (r : Rights) → ((q : ℕ) → is_bus_out q ≡ true → r.outs q ≡ true) → Makes (Entry b.old.entry) r b.old.design b.new.design 5 }
    ensures drivers { DriversFit b.old.design pool.now → DriversFit b.new.design pool.now }
{
    b.output(pool, 8, r.given);
    b.output(pool, 10, r.writes);
    b.output(pool, 11, r.address);
    b.output(pool, 12, r.payload);
    b.output(pool, 13, r.mask);
}
