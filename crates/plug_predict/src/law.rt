ghost use Rattle.plug_predict.specs.Builds.{PredictPartsGuess, PredictPartsMeetLaws};

/// Each part whose tree has this value, whatever stands outside, guesses by the formula of its style in all its runs, and by a multiple of 4
/// where the pc is one. This does nothing: its contract is the law.
pub fn predict_parts_guess()
    ensures guess { PredictPartsGuess }
{}

/// Each such part meets the laws of a part. This does nothing: its contract is the law.
pub fn predict_parts_meet_their_laws()
    ensures law { PredictPartsMeetLaws }
{}
