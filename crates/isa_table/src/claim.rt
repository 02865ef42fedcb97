ghost use Rattle.std.specs.Prelude.{◌≡◌, ℕ, ◌^◌, ◌<◌, ◌↔◌, IsTrue, bit_and};

/// A claim of a row of the instruction table: the words whose bits under `mask` are `value`, and the row's number.
#[derive(Clone, Copy, Debug, PartialEq, Eq)]
pub struct Claim {
    pub mask: u32,
    pub value: u32,
    pub row: u32,
}

/// Whether some word is of both claims. None is of a claim whose value has a bit outside its mask.
pub fn claims_overlap(a: Claim, b: Claim) -> bool
    ensures { IsTrue result
        ↔ ((w : ℕ) × (w < 2 ^ 32) × (bit_and w a.mask ≡ a.value) × (bit_and w b.mask ≡ b.value)) }
{
    is_within(a) && is_within(b) && (a.value ^ b.value) & a.mask & b.mask == 0
}

// Whether the value has no bit outside the mask.
fn is_within(claim: Claim) -> bool
    ensures { IsTrue result ↔ (bit_and claim.value claim.mask ≡ claim.value) }
{
    claim.value & !claim.mask == 0
}
