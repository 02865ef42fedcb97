ghost use Rattle.std.specs.Prelude.{◌^◌, ◌≤◌, List, length, ℕ};
ghost use Rattle.verilog_mean.specs.Bounds.{AreWrittenItems, IsBounded, tree_size};
ghost use Rattle.verilog_tree.specs.Module.{Reads};
ghost use Rattle.verilog_tree.specs.declared.tree.Tree.{Tree};

/// What each text's tree meets: its literals fit their sizes, each join has a part, and it has no more
/// ports, items and expressions than the text has bytes (IEEE 1364-2005, 3.5.1 and 5.1.14). This does
/// nothing: its contract is the law.
pub fn text_trees_are_bounded()
    ensures written { (bytes : List ℕ) (t : Tree) → Reads bytes t → AreWrittenItems t.items }
    ensures size { (bytes : List ℕ) (t : Tree) → Reads bytes t → tree_size t ≤ length bytes }
    ensures bounded { (bytes : List ℕ) (t : Tree) → Reads bytes t → length bytes ≤ 2 ^ 24 → IsBounded t }
{}
