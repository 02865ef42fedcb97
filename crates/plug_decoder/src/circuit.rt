ghost use Rattle.std.specs.Prelude.{◌≡◌, ℕ, ◌+◌, ◌*◌, ◌<◌, ◌≤◌, ◌^◌, bit_or, cond, get_or, length, max};
ghost use Rattle.core_words.specs.Values.{choose, one_if};
ghost use Rattle.hw_pool.specs.Meaning.{Env};
ghost use Rattle.hw_pool.specs.Scope.{Scope};
ghost use Rattle.hw_gates.specs.Places.{Has, Is, IsIn, Step, value_in};
ghost use Rattle.plug_decoder.specs.Machine.{claim_at, ebreak, ecall, flag_of, has_value as gives_value, hit_of, legal_of, masked, of_calls, row_of, unit_of, uses_a as reads_a, uses_b as reads_b, writes_of};
ghost use Rattle.plug_decoder.specs.Nets.{AreDecoded, AreDecodedIn, AreZeros, AreZerosIn, Gives};

use hw_expr::Net;
use hw_gates::{and, eq, lit, mux, not, or, slice};
use hw_pool::Pool;
use isa_table::{Claim, row_at};

/// What is known of a word: one bit that is 1 where it has a row, the row of 7 bits, the entry of 5 bits that claims it, and
/// one bit each for whether its effect depends on rs1 and on rs2 and whether it has a value.
#[derive(Clone, Copy, Debug)]
pub struct Decoded {
    pub legal: Net,
    pub row: Net,
    pub unit: Net,
    pub uses_a: Net,
    pub uses_b: Net,
    pub has_value: Net,
}

/// Nets of the number 0, as wide as a row's number and as an entry's.
#[derive(Clone, Copy, Debug)]
pub(crate) struct Zeros {
    pub(crate) row: Net,
    pub(crate) unit: Net,
}

/// One bit: 1 where the word is of the claim.
#[tactic(auto, unfolding(crate::specs::Machine::hit_of))]
fn hit(pool: &mut Pool, word: Net, claim: Claim) -> Net
    requires spare { 4 ≤ pool.old.spare }
    requires word { Is pool.old word 32 1 }
    ensures value { (env : Env) → value_in env pool.new result ≡ hit_of (value_in env pool.old word) claim }
    ensures net { Is pool.new result 1 1 }
    ensures scope { (s : Scope) → IsIn s pool.old word → IsIn s pool.new result }
    ensures step { Step pool.old pool.new 4 }
{
    let mask = lit(pool, 32, u64::from(claim.mask));
    let kept = and(pool, word, mask);
    let wanted = lit(pool, 32, u64::from(claim.value));
    eq(pool, kept, wanted)
}

/// A number where the one bit `hit` is 1, beside what there is. For the number 0 nothing is made.
fn with_number(pool: &mut Pool, hit: Net, number: u32, zero: Net, so_far: Net) -> Net
    requires spare { 3 ≤ pool.old.spare }
    requires hit { Has pool.old hit }
    requires zero { Has pool.old zero }
    requires so_far { Has pool.old so_far }
    requires bit { hit.width ≡ 1 }
    requires equal { zero.width ≡ so_far.width }
    requires least { 1 ≤ so_far.width }
    requires most { so_far.width ≤ 64 }
    requires number { number < 2 ^ so_far.width }
    requires is_zero { (env : Env) → value_in env pool.old zero ≡ 0 }
    ensures value { (env : Env) → value_in env pool.new result ≡ bit_or (value_in env pool.old so_far) (choose (value_in env pool.old hit) number 0) }
    ensures net { Has pool.new result }
    ensures scope { (s : Scope) → IsIn s pool.old hit → IsIn s pool.old zero → IsIn s pool.old so_far → IsIn s pool.new result }
    ensures width { result.width ≡ so_far.width }
    ensures level { result.level ≤ max (max hit.level zero.level) so_far.level }
    ensures step { Step pool.old pool.new 3 }
{
    if number == 0 {
        return so_far;
    }
    let chosen = lit(pool, so_far.width, u64::from(number));
    let masked = mux(pool, hit, chosen, zero);
    or(pool, so_far, masked)
}

/// The bit `hit` beside what there is, where the row has a property; else what there is.
fn with_flag(pool: &mut Pool, hit: Net, is: bool, so_far: Net) -> Net
    requires spare { 1 ≤ pool.old.spare }
    requires hit { Is pool.old hit 1 1 }
    requires so_far { Is pool.old so_far 1 1 }
    ensures value { (env : Env) → value_in env pool.new result ≡ bit_or (value_in env pool.old so_far) (cond is (value_in env pool.old hit) 0) }
    ensures net { Is pool.new result 1 1 }
    ensures scope { (s : Scope) → IsIn s pool.old hit → IsIn s pool.old so_far → IsIn s pool.new result }
    ensures step { Step pool.old pool.new 1 }
{
    if is { or(pool, so_far, hit) } else { so_far }
}

/// One more claim, of an entry.
#[tactic(auto, using(crate::proofs::More::flag_is))]
fn with_claim(
    pool: &mut Pool,
    word: Net,
    claim: Claim,
    owner: u32,
    zeros: Zeros,
    so_far: Decoded,
) -> Decoded
    requires spare { 14 ≤ pool.old.spare }
    requires word { Is pool.old word 32 1 }
    requires row { claim.row < 57 }
    requires owner { owner < 32 }
    requires zeros { AreZeros pool.old zeros }
    requires nets { AreDecoded pool.old so_far }
    ensures legal { (env : Env) → value_in env pool.new result.legal ≡ bit_or (value_in env pool.old so_far.legal) (hit_of (value_in env pool.old word) claim) }
    ensures row { (env : Env) → value_in env pool.new result.row ≡ bit_or (value_in env pool.old so_far.row) (masked (value_in env pool.old word) claim claim.row) }
    ensures unit { (env : Env) → value_in env pool.new result.unit ≡ bit_or (value_in env pool.old so_far.unit) (masked (value_in env pool.old word) claim owner) }
    ensures uses_a { (env : Env) → value_in env pool.new result.uses_a ≡ bit_or (value_in env pool.old so_far.uses_a) (masked (value_in env pool.old word) claim (one_if (reads_a claim.row))) }
    ensures uses_b { (env : Env) → value_in env pool.new result.uses_b ≡ bit_or (value_in env pool.old so_far.uses_b) (masked (value_in env pool.old word) claim (one_if (reads_b claim.row))) }
    ensures has_value { (env : Env) → value_in env pool.new result.has_value ≡ bit_or (value_in env pool.old so_far.has_value) (masked (value_in env pool.old word) claim (one_if (gives_value claim.row))) }
    ensures nets { AreDecoded pool.new result }
    ensures scope { (s : Scope) → IsIn s pool.old word → AreZerosIn s pool.old zeros → AreDecodedIn s pool.old so_far → AreDecodedIn s pool.new result }
    ensures step { Step pool.old pool.new 14 }
{
    let of_table = row_at(claim.row);
    let hit = hit(pool, word, claim);
    let legal = or(pool, so_far.legal, hit);
    let row = with_number(pool, hit, claim.row, zeros.row, so_far.row);
    let unit = with_number(pool, hit, owner, zeros.unit, so_far.unit);
    let uses_a = with_flag(pool, hit, of_table.uses_a, so_far.uses_a);
    let uses_b = with_flag(pool, hit, of_table.uses_b, so_far.uses_b);
    let has_value = with_flag(pool, hit, of_table.has_value, so_far.has_value);
    Decoded {
        legal,
        row,
        unit,
        uses_a,
        uses_b,
        has_value,
    }
}

/// All claims, each of an entry, on top of a first answer.
fn with_claims(
    pool: &mut Pool,
    word: Net,
    rows: &[Claim],
    owners: &[u32],
    zeros: Zeros,
    first: Decoded,
) -> Decoded
    requires spare { 14 * length rows.now ≤ pool.old.spare }
    requires word { Is pool.old word 32 1 }
    requires owners { length owners.now ≡ length rows.now }
    requires numbers { (k : ℕ) → k < length rows.now → (claim_at rows.now k).row < 57 }
    requires entries { (k : ℕ) → k < length rows.now → get_or owners.now k 0 < 32 }
    requires zeros { AreZeros pool.old zeros }
    requires nets { AreDecoded pool.old first }
    ensures gives { Gives pool.old pool.new word rows.now owners.now first result (length rows.now) }
    ensures nets { AreDecoded pool.new result }
    ensures scope { (s : Scope) → IsIn s pool.old word → AreZerosIn s pool.old zeros → AreDecodedIn s pool.old first → AreDecodedIn s pool.new result }
    ensures step { Step pool.old pool.new (14 * length rows.now) }
{
    let mut so_far = first;
    for k in 0..rows.len() {
        so_far = with_claim(pool, word, rows[k], owners[k], zeros, so_far);
    }
    so_far
}

// The two instructions that are decoded in each core.
const ECALL: Claim = Claim {
    mask: 0xffff_ffff,
    value: 0x73,
    row: 38,
};

const EBREAK: Claim = Claim {
    mask: 0xffff_ffff,
    value: 0x0010_0073,
    row: 39,
};

fn make_zeros(pool: &mut Pool) -> Zeros
    requires { 2 ≤ pool.old.spare }
    ensures zeros { AreZeros pool.new result }
    ensures scope { (s : Scope) → AreZerosIn s pool.new result }
    ensures step { Step pool.old pool.new 2 }
{
    let row = lit(pool, 7, 0);
    let unit = lit(pool, 5, 0);
    Zeros { row, unit }
}

/// The answer for ECALL and EBREAK, which have no entry.
#[tactic(auto, using(crate::proofs::More::no_number))]
fn calls(pool: &mut Pool, word: Net, zeros: Zeros) -> Decoded
    requires spare { 15 ≤ pool.old.spare }
    requires word { Is pool.old word 32 1 }
    requires zeros { AreZeros pool.old zeros }
    ensures legal { (env : Env) → value_in env pool.new result.legal ≡ bit_or (hit_of (value_in env pool.old word) ecall) (hit_of (value_in env pool.old word) ebreak) }
    ensures row { (env : Env) → value_in env pool.new result.row ≡ of_calls (value_in env pool.old word) 38 39 }
    ensures unit { (env : Env) → value_in env pool.new result.unit ≡ of_calls (value_in env pool.old word) 0 0 }
    ensures uses_a { (env : Env) → value_in env pool.new result.uses_a ≡ of_calls (value_in env pool.old word) 0 0 }
    ensures uses_b { (env : Env) → value_in env pool.new result.uses_b ≡ of_calls (value_in env pool.old word) 0 0 }
    ensures has_value { (env : Env) → value_in env pool.new result.has_value ≡ of_calls (value_in env pool.old word) 0 0 }
    ensures nets { AreDecoded pool.new result }
    ensures scope { (s : Scope) → IsIn s pool.old word → AreZerosIn s pool.old zeros → AreDecodedIn s pool.new result }
    ensures step { Step pool.old pool.new 15 }
{
    let none = lit(pool, 1, 0);
    let first = hit(pool, word, ECALL);
    let second = hit(pool, word, EBREAK);
    let legal = or(pool, first, second);
    let number = lit(pool, 7, u64::from(ECALL.row));
    let one = mux(pool, first, number, zeros.row);
    let row = with_number(pool, second, EBREAK.row, zeros.row, one);
    Decoded {
        legal,
        row,
        unit: zeros.unit,
        uses_a: none,
        uses_b: none,
        has_value: none,
    }
}

/// One bit: 1 where the row has a value and rd is not register 0.
#[tactic(auto, unfolding(crate::specs::Machine::writes_of))]
fn writes(pool: &mut Pool, word: Net, has_value: Net) -> Net
    requires spare { 5 ≤ pool.old.spare }
    requires word { Is pool.old word 32 1 }
    requires has_value { Is pool.old has_value 1 1 }
    ensures value { (env : Env) → value_in env pool.new result ≡ writes_of (value_in env pool.old word) (value_in env pool.old has_value) }
    ensures net { Is pool.new result 1 1 }
    ensures scope { (s : Scope) → IsIn s pool.old word → IsIn s pool.old has_value → IsIn s pool.new result }
    ensures step { Step pool.old pool.new 5 }
{
    let rd = slice(pool, word, 11, 7);
    let zero = lit(pool, 5, 0);
    let none = eq(pool, rd, zero);
    let some = not(pool, none);
    and(pool, has_value, some)
}

/// The decoder over claims, each of an entry: what is known of the word, and one bit that is 1 where it writes a register. A claim
/// costs at most 14 nodes.
#[tactic(auto, using(hw_gates::proofs::Plain::plain), unfolding(crate::specs::Machine::legal_of, crate::specs::Machine::row_of, crate::specs::Machine::unit_of, crate::specs::Machine::flag_of))]
pub fn decoder(pool: &mut Pool, word: Net, rows: &[Claim], owners: &[u32]) -> (Decoded, Net)
    requires spare { 14 * length rows.now + 22 ≤ pool.old.spare }
    requires word { Is pool.old word 32 1 }
    requires owners { length owners.now ≡ length rows.now }
    requires numbers { (k : ℕ) → k < length rows.now → (claim_at rows.now k).row < 57 }
    requires entries { (k : ℕ) → k < length rows.now → get_or owners.now k 0 < 32 }
    ensures legal { (env : Env) → value_in env pool.new result.0.legal ≡ legal_of rows.now (value_in env pool.old word) }
    ensures row { (env : Env) → value_in env pool.new result.0.row ≡ row_of rows.now (value_in env pool.old word) }
    ensures unit { (env : Env) → value_in env pool.new result.0.unit ≡ unit_of rows.now owners.now (value_in env pool.old word) }
    ensures uses_a { (env : Env) → value_in env pool.new result.0.uses_a ≡ flag_of reads_a rows.now (value_in env pool.old word) }
    ensures uses_b { (env : Env) → value_in env pool.new result.0.uses_b ≡ flag_of reads_b rows.now (value_in env pool.old word) }
    ensures has_value { (env : Env) → value_in env pool.new result.0.has_value ≡ flag_of gives_value rows.now (value_in env pool.old word) }
    ensures writes { (env : Env) → value_in env pool.new result.1 ≡ writes_of (value_in env pool.old word) (flag_of gives_value rows.now (value_in env pool.old word)) }
    ensures nets { AreDecoded pool.new result.0 }
    ensures net { Is pool.new result.1 1 1 }
    ensures scope { (s : Scope) → IsIn s pool.old word → AreDecodedIn s pool.new result.0 × IsIn s pool.new result.1 }
    ensures step { Step pool.old pool.new (14 * length rows.now + 22) }
{
    let zeros = make_zeros(pool);
    let calls = calls(pool, word, zeros);
    let all = with_claims(pool, word, rows, owners, zeros, calls);
    let writes = writes(pool, word, all.has_value);
    (all, writes)
}
