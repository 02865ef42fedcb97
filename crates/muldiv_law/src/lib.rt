//! Multiplication and division by 32 steps, on numbers: what the steps are (`specs/Steps`), what the registers of a unit that makes
//! `unroll` of them in a cycle hold (`specs/Machine`), and that the steps make the results of the instruction table (`specs/Law`).
//!
//! Every step is one sum. A product adds the second factor, where a bit of the first is 1, to the upper half and moves both halves
//! one place to the right; of a signed first factor the last step subtracts, since its top bit counts as minus 2 ^ 31. A division
//! takes the divisor from the remainder where it can, and moves both halves one place to the left. A signed division works on the
//! numbers without their signs, and one negator turns a sign over as a go begins and as it ends; division by 0 and the overflow have
//! no case of their own.
#![tactic(auto)]

ghost use Rattle.std.specs.Prelude.{ℕ, ◌<◌, ◌^◌};
ghost use Rattle.muldiv_law.specs.Law.{IsRight};
ghost use Rattle.muldiv_law.specs.Machine.{Begins, GoesOn};

/// For each row of multiplication and division the steps make the row's result at each word of it, from any operands. This does
/// nothing: its contract is the law.
pub fn results_are_right()
    ensures law { (word pc a b : ℕ) → a < 2 ^ 32 → b < 2 ^ 32 → IsRight word pc a b }
{}

/// From cycle to cycle the registers hold what so many steps make, for each number of steps in a cycle that divides 32; two cycles
/// behind the last steps the lower half is the result. This does nothing: its contract is the law.
pub fn cycles_make_the_steps()
    ensures begins { Begins }
    ensures goes_on { GoesOn }
{}
