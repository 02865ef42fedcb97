use plug_api::RuleRefusal;
use thiserror::Error;

/// Why no text was generated.
#[derive(Debug, Drop, Error)]
pub enum GenRefusal {
    /// A rule of acceptance fails. Nothing was pushed.
    #[error("a rule fails")]
    Rules { refusal: RuleRefusal },
    /// The port did not take all of the text.
    #[error("the text was not written")]
    WriteFault,
    /// Memory was refused. Nothing was pushed.
    #[error("out of memory")]
    NoMemory,
}
