use indexmap::IndexMap;
use std::alloc::{AllocError, Global};

/// Where the value of a name is. Widths are in bits.
#[derive(Clone, Copy, Drop)]
pub enum Place {
    /// The name is not known.
    Absent,
    /// The value is a node's.
    Net { node: u32, width: u32 },
    /// An array of `size` cells that begins at the cell `base`.
    Array { base: u32, size: u32, width: u32 },
}

/// The names that are resolved so far. The names themselves are borrowed from the tree.
#[derive(Drop)]
pub struct Names<'a> {
    pub map: IndexMap<&'a str, Place>,
}

impl<'a> Names<'a> {
    ghost use Rattle.std.specs.Prelude.{◌≡◌, ℕ, List, false, OnOk};
    ghost use Rattle.core_words.specs.Names.{same_name};
    ghost use Rattle.verilog_resolve.specs.declared.names.Place.{Place};
    ghost use Rattle.verilog_resolve.specs.Names.{places};

    /// No names.
    pub fn new(alloc: Global) -> Names<'a>
        ensures { (x : List ℕ) → places result x ≡ Place.Absent }
    {
        Names {
            map: IndexMap::new(alloc),
        }
    }

    /// The place of a name.
    pub fn place(&self, name: &str) -> Place
        ensures { result ≡ places self.now name.now }
    {
        match self.map.get(name) {
            Some(place) => *place,
            None => Place::Absent,
        }
    }

    /// Gives a name its place.
    pub fn bind(&mut self, name: &'a str, place: Place) -> Result<(), AllocError>
        ensures bound { OnOk result (places self.new name.now ≡ place) }
        ensures others { OnOk result ((y : List ℕ) → same_name name.now y ≡ false → places self.new y ≡ places self.old y) }
    {
        self.map.insert(name, place)?;
        Ok(())
    }
}
