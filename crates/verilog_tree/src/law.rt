ghost use Rattle.std.specs.Prelude.{◌≡◌, ◌↔◌, List, ℕ, Some};
ghost use Rattle.verilog_tree.specs.declared.tree.Tree.{Tree};
ghost use Rattle.verilog_tree.specs.Module.{Reads};
ghost use Rattle.verilog_tree.specs.Read.{read_text};

/// A text has at most one tree. This does nothing: its contract is the law.
pub fn text_has_one_tree()
    ensures { (bytes : List ℕ) (t u : Tree) → Reads bytes t → Reads bytes u → t ≡ u }
{}

/// The tree of a text is what the function `read_text` of `specs/` computes from its bytes, and a text
/// for which it computes none has no tree. This does nothing: its contract is the law.
pub fn tree_is_computed()
    ensures { (bytes : List ℕ) (t : Tree) → Reads bytes t ↔ (read_text bytes ≡ Some t) }
{}
