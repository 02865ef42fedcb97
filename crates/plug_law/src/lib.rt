//! The laws of a core's parts, over signals by cycle, the pipeline that joins them, and the instruction table as they see it.
//!
//! The crate holds definitions and laws alone.
#![tactic(auto)]

ghost use Rattle.std.specs.Prelude.{◌≡◌, ℕ, false};
ghost use Rattle.bus_law.specs.Memory.{Memory};
ghost use Rattle.isa_csr.specs.Csrs.{Csrs};
ghost use Rattle.isa_model.specs.Machine.{Set, Machine, Fetched};
ghost use Rattle.isa_model.specs.Effects.{Moment, write_of, written_by};
ghost use Rattle.isa_model.specs.Effects.Access.{NoAccess};
ghost use Rattle.isa_model.specs.Step.{outcome_of};
ghost use Rattle.plug_law.specs.Table.{table_of, IsCoherent, IsTable};
ghost use Rattle.plug_law.specs.Outcome.{outcome_by};

/// Laws of the instruction table by numbers: that of each set has what proofs need to know of a table; where rows that
/// need CSRs are claimed only with CSRs, the machine does what it says; and a row's write is that of its access, which a
/// row that is no load or store has not. This does nothing: its contract is the laws.
pub fn sets_have_tables()
    ensures table { (s : Set) → IsTable (table_of s) }
    ensures outcome { (s : Set) → IsCoherent s → (m : Machine) (f : Fetched) (o : Moment)
        → outcome_of s m f o ≡ outcome_by s.system (table_of s) m f o }
    ensures write { (s : Set) (row pc word a b : ℕ) (m : Memory) (c : Csrs) (o : Moment)
        → write_of ((table_of s).effect row pc word a b m c o) ≡ written_by ((table_of s).access row pc word a b) }
    ensures no_access { (s : Set) (row pc word a b : ℕ) → (table_of s).of_bus row ≡ false → (table_of s).access row pc word a b ≡ NoAccess }
{}
