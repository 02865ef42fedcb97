use verilog_tree::Expr;

/// A wire or an output, and the expression that drives it.
#[derive(Clone, Copy, Drop)]
pub struct WireDriver<'a> {
    pub name: &'a str,
    pub value: &'a Expr,
}
