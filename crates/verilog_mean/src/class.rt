use verilog_tree::Pair;

/// What a name is declared as. A wire is `inline` where its declaration has its driver.
#[derive(Clone, Copy, Debug, PartialEq, Eq)]
pub enum Class {
    Input,
    Output,
    Wired { inline: bool },
    Register,
    Array { cells: Pair },
}
