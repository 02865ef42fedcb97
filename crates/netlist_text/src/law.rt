ghost use Rattle.std.specs.Prelude.{◌≡◌, ◌+◌, ◌*◌, ◌≤◌, length, ℕ};
ghost use Rattle.verilog_tree.specs.Module.{HasOneReading};
ghost use Rattle.verilog_mean.specs.Erase.{plain_tree};
ghost use Rattle.verilog_netlist.specs.Netlist.{Netlist};
ghost use Rattle.verilog_netlist.specs.Text.{text_of};
ghost use Rattle.verilog_netlist.specs.Places.{text_tree, tree_of};
ghost use Rattle.verilog_netlist.specs.Meaning.{plain_of};
ghost use Rattle.verilog_netlist.specs.Writable.{IsWritable, RowsBelow};

/// The text of a netlist has one reading, its tree. This does nothing: its contract is the law.
pub fn netlists_have_one_reading()
    ensures { (n : Netlist) → IsWritable n → HasOneReading (text_of n) (text_tree n) }
{}

/// Without its places the tree of a netlist is the netlist. This does nothing: its contract is the law.
pub fn netlists_are_plain()
    ensures { (p : ℕ → ℕ) (n : Netlist) → IsWritable n → plain_tree (tree_of p n) ≡ plain_of n }
{}

/// Each row of the text of a netlist is below 160 bytes. This does nothing: its contract is the law.
pub fn rows_are_short()
    ensures rows { (n : Netlist) → IsWritable n → RowsBelow 160 0 (text_of n) }
    ensures size { (n : Netlist) → IsWritable n → length (text_of n) ≤ 160 * (length n.ports + length n.lines + 3) }
{}
