use crate::declare::{Declared, Shape};
use core_host::Name;
use indexmap::IndexMap;
use std::alloc::{AllocError, Global};
use std::marker::Model;

/// Declarations by their names. Contracts see it as the list of the declarations, in their order.
#[derive(Drop)]
pub struct Table<'a> {
    by_name: IndexMap<&'a [u8], Declared<'a>>,
}

impl<'a> Model for Table<'a> {
    ghost use Rattle.std.specs.Prelude.{List, map};
    ghost use Rattle.verilog_mean.specs.Declarations.{Declaration};

    ghost Value = { List Declaration };

    ghost use Rattle.verilog_rules.specs.Collected.{entry_declaration};

    ghost view = { λ t. map entry_declaration t.by_name.entries };
}

impl<'a> Table<'a> {
    ghost use Rattle.std.specs.Prelude.{◌≡◌, false, [], ◌∷◌, ◌++◌, OnOk};
    ghost use Rattle.verilog_rules.specs.Collected.{declaration, maybe_shape, names_of};
    ghost use Rattle.verilog_mean.specs.Declarations.{declaration_of};
    ghost use Rattle.verilog_mean.specs.Names.{is_among};

    pub fn new(alloc: Global) -> Table<'a>
        ensures { result ≡ [] }
    {
        Table {
            by_name: IndexMap::new(alloc),
        }
    }

    /// What a name is declared as.
    pub fn find(&self, name: &Name) -> Option<Shape>
        ensures { result ≡ maybe_shape (declaration_of self.now name.now) }
    {
        match self.by_name.get(name.text().as_bytes()) {
            Some(found) => Some(found.shape),
            None => None,
        }
    }

    #[tactic(auto, using(crate::proofs::Tables::has))]
    pub fn knows(&self, name: &Name) -> bool
        ensures { result ≡ is_among name.now (names_of self.now) }
    {
        self.find(name).is_some()
    }

    /// Adds a declaration of a name that is not there.
    pub fn add(&mut self, declared: Declared<'a>) -> Result<(), AllocError>
        requires { is_among declared.name.now.text (names_of self.old) ≡ false }
        ensures { OnOk result (self.new ≡ self.old ++ declaration declared.entry ∷ []) }
    {
        let name = declared.name.text.text().as_bytes();
        self.by_name.insert(name, declared)?;
        Ok(())
    }
}
