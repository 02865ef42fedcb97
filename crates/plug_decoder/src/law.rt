ghost use Rattle.std.specs.Prelude.{ℕ, ◌<◌, ◌^◌, List};
ghost use Rattle.isa_table.specs.declared.claim.Claim.{Claim};
ghost use Rattle.plug_decoder.specs.Builds.{DecoderPartsMeetLaws};
ghost use Rattle.plug_decoder.specs.Law.{DecoderKeepsLaw, HasCallRows, IsDecoded, NoneOverlap};
ghost use Rattle.plug_decoder.specs.Lawful.{LawfulAreClaims, LawfulPartsMeetLaws};

/// For claims that no word shares, of which one with ECALL or EBREAK is of its row, the outputs at each word are those of the one
/// claim that it is of, or of one of these two, and it is not legal where it is of none. This does nothing: its contract is the
/// law.
pub fn decoder_is_right()
    ensures decoded { (rows : List Claim) (owners : List ℕ) → NoneOverlap rows → HasCallRows rows → (word : ℕ) → word < 2 ^ 32 → IsDecoded rows owners word }
{}

/// A part whose outputs in each cycle are the equations over the claims of a plan keeps the law of Decoder for the set of these
/// claims. This does nothing: its contract is the law.
pub fn decoder_keeps_its_law()
    ensures law { DecoderKeepsLaw }
{}

/// Each part whose trees have these values for the claims of a plan and their owners, whatever stands outside, meets the laws of
/// a part. This does nothing: its contract is the law.
pub fn decoder_parts_meet_their_laws()
    ensures law { DecoderPartsMeetLaws }
{}

/// The claims of a lawful plan are those that the law of the decoder needs, and a part that decodes them for their owners meets
/// the laws of a part at the terms of the plan. This does nothing: its contract is the law.
pub fn lawful_claims_are_decoded()
    ensures claims { LawfulAreClaims }
    ensures parts { LawfulPartsMeetLaws }
{}
