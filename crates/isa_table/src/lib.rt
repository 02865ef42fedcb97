//! The instruction table: which words are which instruction, and what each instruction does.
#![tactic(auto)]

mod claim;
mod row;

ghost use Rattle.std.specs.Prelude.{◌≡◌, ℕ, ◌<◌, true, length, get_or};
ghost use Rattle.isa_table.specs.Rows.{lui, table, meets};
ghost use Rattle.isa_table.specs.Uses.{IsExact};

pub use claim::{Claim, claims_overlap};
pub use row::{Group, Row, row_at, row_name};

/// A law: no word is of two rows of the table, so that its order and what is left out of a set change no row.
pub fn rows_are_disjoint()
    ensures { (word i j : ℕ) → i < length table → j < length table
        → meets word (get_or table i lui) ≡ true → meets word (get_or table j lui) ≡ true → i ≡ j }
{}

/// A law: the table says of each row exactly which registers its action depends on, and whether it has a value.
pub fn uses_are_exact()
    ensures { (i : ℕ) → i < length table → IsExact (get_or table i lui) }
{}
