use verilog_tree::Tree;

/// A sound tree, and the numbers of its items in an order in which each driver comes behind those that it
/// needs. Contracts say so by `IsChecked`.
#[derive(Drop)]
pub struct Checked {
    pub tree: Tree,
    pub order: Vec<u32>,
}
