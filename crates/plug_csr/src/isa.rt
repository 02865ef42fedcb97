ghost use Rattle.std.specs.Prelude.{◌≡◌, ◌<◌, ◌^◌, true};
ghost use Rattle.isa_model.specs.Machine.{has_mul_div, misa_of};
ghost use Rattle.plug_part.specs.Terms.{claims_row, set_from};

use isa_table::Claim;
use plug_api::Plan;

/// Whether one of the claims is of this row.
fn is_claimed(claims: &[Claim], row: u32) -> bool
    ensures { result ≡ claims_row claims.now row }
{
    match claims {
        [] => false,
        [first, rest @ ..] => first.row == row || is_claimed(rest, row),
    }
}

/// Whether rows 41 to 48, multiplication and division, are all claimed.
fn multiplies(claims: &[Claim]) -> bool
    ensures { result ≡ has_mul_div (set_from claims.now true) }
{
    is_claimed(claims, 41)
        && is_claimed(claims, 42)
        && is_claimed(claims, 43)
        && is_claimed(claims, 44)
        && is_claimed(claims, 45)
        && is_claimed(claims, 46)
        && is_claimed(claims, 47)
        && is_claimed(claims, 48)
}

/// What misa reads in a core of this plan: 32 bits, I, and M where it is claimed (RISC-V Privileged 20190608, 3.1.1).
pub(crate) fn misa_for(plan: &Plan) -> u64
    ensures value { result ≡ misa_of (set_from plan.now.rows plan.now.has_csr) }
    ensures fits { result < 2 ^ 32 }
{
    if multiplies(plan.rows.items().as_slice()) {
        0x4000_1100
    } else {
        0x4000_0100
    }
}
