ghost use Rattle.std.specs.Prelude.{◌≡◌, ℕ, ◌<◌, ◌≤◌, ◌^◌, List, length};
ghost use Rattle.hw_pool.specs.Nodes.{IsPool, node_at};
ghost use Rattle.hw_pool.specs.Trees.{Tree, of_node, tree_of, width_of};
ghost use Rattle.hw_pool.specs.Meaning.{Env, Fits, Within, value};
ghost use Rattle.hw_pool.specs.Scope.{Scope, Takes};

use crate::Node;

/// The law of trees: the tree of a live node is its operator over the trees of its children.
pub fn trees_unfold()
    ensures { (nodes : List Node) (k : ℕ) → IsPool nodes → k < length nodes → tree_of nodes k ≡ of_node (tree_of nodes) (node_at nodes k) }
{}

/// The law of widths: where the widths of a tree fit, and what it takes from outside is within its width, its
/// value is below 2 ^ its width.
pub fn values_fit()
    ensures { (env : Env) (t : Tree) → Fits t → Within env t → value env t < 2 ^ width_of t }
{}

/// The law of levels: what a tree takes from a scope at a level, it takes at each higher one.
pub fn takes_higher()
    ensures { (s : Scope) (low high : ℕ) → low ≤ high → (t : Tree) → Takes s low t → Takes s high t }
{}
