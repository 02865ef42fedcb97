ghost use Rattle.std.specs.Prelude.{◌≡◌, ℕ, ◌+◌, ◌-◌, ◌<◌, ◌^◌, bit_and, bit_xor, eqb, ltb};
ghost use Rattle.core_words.specs.Values.{add_of, bits_of, not_of, one_if, sub_of};
ghost use Rattle.isa_table.specs.Results.{is_less_signed, shift_left, shift_right, shift_right_signed};
ghost use Rattle.hw_words.specs.Gather.{or_from};
ghost use Rattle.hw_words.specs.Halves.{equal_of, less_of};
ghost use Rattle.hw_words.specs.Shifts.{reverse_of, shifted_of};
ghost use Rattle.hw_words.specs.Sums.{carry_of, sum_of};

/// What the adder has. The carry of a difference tells the comparison, and signs that differ turn it over.
pub fn adder_is_right()
    ensures sum { (a b : ℕ) → a < 2 ^ 32 → b < 2 ^ 32 → sum_of 0 a b ≡ add_of 32 a b }
    ensures sum_carry { (a b : ℕ) → a < 2 ^ 32 → b < 2 ^ 32 → carry_of 0 a b ≡ bits_of (a + b) 32 32 }
    ensures difference { (a b : ℕ) → a < 2 ^ 32 → b < 2 ^ 32 → sum_of 1 a b ≡ sub_of 32 a b }
    ensures unsigned { (a b : ℕ) → a < 2 ^ 32 → b < 2 ^ 32 → not_of 1 (carry_of 1 a b) ≡ one_if (ltb a b) }
    ensures signed { (a b : ℕ) → a < 2 ^ 32 → b < 2 ^ 32 → bit_xor (bit_xor (not_of 1 (carry_of 1 a b)) (bits_of a 31 31)) (bits_of b 31 31) ≡ one_if (is_less_signed a b) }
{}

/// Comparison by halves is comparison.
pub fn halves_compare()
    ensures unsigned { (a b : ℕ) → a < 2 ^ 32 → b < 2 ^ 32 → less_of 0 a b ≡ one_if (ltb a b) }
    ensures signed { (a b : ℕ) → a < 2 ^ 32 → b < 2 ^ 32 → less_of 1 a b ≡ one_if (is_less_signed a b) }
    ensures equal { (a b : ℕ) → a < 2 ^ 32 → b < 2 ^ 32 → equal_of a b ≡ one_if (eqb a b) }
{}

/// The shifts in five steps are the shifts of the instructions. A left shift is one to the right of the bits in
/// reverse.
pub fn shifts_are_right()
    ensures left { (a n : ℕ) → a < 2 ^ 32 → n < 32 → reverse_of (shifted_of n 0 (reverse_of a 32)) 32 ≡ shift_left a n }
    ensures right { (a n : ℕ) → a < 2 ^ 32 → n < 32 → shifted_of n 0 a ≡ shift_right a n }
    ensures signed { (a n : ℕ) → a < 2 ^ 32 → n < 32 → shifted_of n (bits_of a 31 31) a ≡ shift_right_signed a n }
{}

/// A field of a word that a mask covers is the field of the word's value under the mask.
pub fn fields_are_met()
    ensures { (w m v high low : ℕ) → bit_and w m ≡ v → bits_of m high low ≡ 2 ^ (high + 1 - low) - 1 → bits_of w high low ≡ bits_of v high low }
{}

/// Of numbers of which all but one are 0, "or" is that one.
pub fn one_is_gathered()
    ensures { (g : ℕ → ℕ) (n j : ℕ) → j < n → ((k : ℕ) → k < n → (k ≡ j → ⊥) → g k ≡ 0) → or_from 0 g n ≡ g j }
{}
