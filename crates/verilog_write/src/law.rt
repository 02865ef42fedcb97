ghost use Rattle.std.specs.Prelude.{Bool, List};
ghost use Rattle.hw_pool.specs.Nodes.{PoolValue};
ghost use Rattle.hw_module.specs.Reached.{AreMarks};
ghost use Rattle.hw_module.specs.Rows.{ModuleValue};
ghost use Rattle.verilog_netlist.specs.Text.{text_of};
ghost use Rattle.module_netlist.specs.Lines.{netlist_of};
ghost use Rattle.module_netlist.specs.Means.{IsModuleText};
ghost use Rattle.module_netlist.specs.Written.{IsWritten};

use module_netlist::netlists_are_writable;
use netlist_means::{module_netlists_have_core_ports, module_netlists_mean};
use netlist_sound::module_netlists_are_sound;
use netlist_text::{netlists_are_plain, netlists_have_one_reading, rows_are_short};

/// The text of a checked module's netlist has one reading, a sound module that means the module. This does nothing:
/// its contract is the law.
pub fn netlist_texts_mean()
    ensures { (m : ModuleValue) (pool : PoolValue) (marks : List Bool) → IsWritten m pool → AreMarks m pool.nodes marks
        → IsModuleText m pool.nodes (text_of (netlist_of m pool.nodes marks)) }
{
    netlists_are_writable();
    netlists_have_one_reading();
    netlists_are_plain();
    rows_are_short();
    module_netlists_are_sound();
    module_netlists_mean();
    module_netlists_have_core_ports();
}
