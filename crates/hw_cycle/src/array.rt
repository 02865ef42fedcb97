ghost use Rattle.std.specs.Prelude.{◌≡◌, ◌<◌, IfOk, get_or, length, replicate, set};

use std::alloc::{AllocError, Global};
use std::marker::Model;

/// The cells of an array. Contracts see the list.
#[derive(Drop)]
pub(crate) struct Array {
    cells: Vec<u64>,
}

impl Model for Array {
    ghost use Rattle.std.specs.Prelude.{ℕ, List};

    ghost Value = { List ℕ };

    ghost view = { λ a. a.cells.items };
}

impl Array {
    /// An array of `n` cells that hold 0.
    pub(crate) fn zeros(alloc: Global, n: usize) -> Result<Array, AllocError>
        ensures { IfOk result (λ a. a ≡ replicate n 0) }
    {
        Ok(Array {
            cells: Vec::from_elem(alloc, 0u64, n)?,
        })
    }

    /// What a cell holds.
    pub(crate) fn get(&self, cell: u64) -> u64
        requires { cell < length self.now }
        ensures { result ≡ get_or self.now cell 0 }
    {
        self.cells[cell as usize]
    }

    /// Sets what a cell holds.
    pub(crate) fn put(&mut self, cell: u64, value: u64)
        requires { cell < length self.old }
        ensures { self.new ≡ set self.old cell value }
    {
        self.cells[cell as usize] = value;
    }
}
