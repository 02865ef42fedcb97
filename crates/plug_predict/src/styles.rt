/// How the pc behind an instruction is guessed.
#[derive(Clone, Copy, Debug, PartialEq, Eq)]
pub enum Style {
    /// The instruction that stands behind it.
    Next,
    /// The target of JAL and of a branch that goes backward, else the instruction that stands behind it.
    Static,
}
