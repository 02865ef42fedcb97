use core_host::Name;
use indexmap::IndexSet;
use std::alloc::{AllocError, Global};
use std::marker::Model;

/// A set of names, which contracts see as the list of the names.
#[derive(Drop)]
pub struct Names<'a> {
    set: IndexSet<&'a [u8]>,
}

impl<'a> Model for Names<'a> {
    ghost use Rattle.std.specs.Prelude.{List, ℕ, map};

    ghost Value = { List (List ℕ) };

    ghost view = { λ n. map (λ k. k.now) n.set.keys };
}

impl<'a> Names<'a> {
    ghost use Rattle.std.specs.Prelude.{◌≡◌, [], ◌∷◌, OnOk};
    ghost use Rattle.verilog_mean.specs.Names.{is_among};
    ghost use Rattle.verilog_rules.specs.SameNames.{SameNames};

    pub fn new(alloc: Global) -> Names<'a>
        ensures { result ≡ [] }
    {
        Names {
            set: IndexSet::new(alloc),
        }
    }

    pub fn knows(&self, name: &Name) -> bool
        ensures { result ≡ is_among name.now self.now }
    {
        self.set.contains(name.text().as_bytes())
    }

    /// Adds a name, which may be there already.
    pub fn add(&mut self, name: &'a Name) -> Result<(), AllocError>
        ensures { OnOk result (SameNames self.new (name.now ∷ self.old)) }
    {
        self.set.insert(name.text().as_bytes())?;
        Ok(())
    }
}
