ghost use Rattle.std.specs.Prelude.{◌≡◌, ℕ, List, Some, None, IfOk, OnOk};
ghost use Rattle.core_words.specs.Names.{same_name};
ghost use Rattle.verilog_mean.specs.Look.{pick_if};
ghost use Rattle.verilog_mean.specs.Drivers.{stmt_target};
ghost use Rattle.verilog_sim.specs.Stmts.{last_of};
ghost use Rattle.verilog_sim.specs.StmtTables.{lent_stmt, stmt_at};

use indexmap::IndexMap;
use std::alloc::{AllocError, Global};
use verilog_tree::{Ident, Item, Stmt};

/// The statements at the clock, by the names that they give a value to.
#[derive(Drop)]
pub struct Stmts<'a> {
    pub map: IndexMap<&'a str, &'a Stmt>,
}

impl<'a> Stmts<'a> {
    /// No statements.
    pub fn new(alloc: Global) -> Stmts<'a>
        ensures { (x : List ℕ) → stmt_at result x ≡ None }
    {
        Stmts {
            map: IndexMap::new(alloc),
        }
    }

    /// The statement of a name.
    pub fn find(&self, name: &str) -> Option<&'a Stmt>
        ensures { lent_stmt result ≡ stmt_at self.now name.now }
    {
        match self.map.get(name) {
            Some(stmt) => Some(*stmt),
            None => None,
        }
    }

    /// Adds the statement of a name.
    pub fn add(&mut self, name: &'a str, stmt: &'a Stmt) -> Result<(), AllocError>
        ensures { OnOk result ((y : List ℕ) → stmt_at self.new y ≡ pick_if (same_name name.now y) stmt.now (stmt_at self.old y)) }
    {
        self.map.insert(name, stmt)?;
        Ok(())
    }
}

/// The name that a statement gives a value to.
fn target_of(stmt: &Stmt) -> &Ident
    ensures { result.now ≡ stmt_target stmt.now }
{
    match stmt {
        Stmt::Next { target, .. } => target,
        Stmt::Reset { target, .. } => target,
        Stmt::Write { target, .. } => target,
    }
}

/// The statements of some items.
pub fn stmts_of<'a>(alloc: Global, items: &'a [Item]) -> Result<Stmts<'a>, AllocError>
    ensures { IfOk result (λ table. stmt_at table ≡ last_of items.now) }
{
    let mut table = Stmts::new(alloc);
    let mut rest = items;
    while let [item, more @ ..] = rest {
        if let Item::Always { stmt, .. } = item {
            table.add(target_of(stmt).text.text(), stmt)?;
        }
        rest = more;
    }
    Ok(table)
}
