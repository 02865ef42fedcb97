ghost use Rattle.std.specs.Prelude.{◌≡◌};
ghost use Rattle.core_tool.specs.Status.{number_of};

/// How a call ended, as the exit status of the program. There is no 1: a program that is ended
/// from outside may leave it.
#[derive(Clone, Copy, Debug, PartialEq, Eq)]
pub enum Status {
    Done = 0,
    Usage = 2,
    ConfigRefused = 3,
    RulesRefused = 4,
    ImageRefused = 5,
    ReadFault = 6,
    WriteFault = 7,
    NoMemory = 8,
    CyclesEnded = 9,
    ModuleRefused = 10,
    Stopped = 11,
}

impl Status {
    /// The number of the status.
    pub fn number(self) -> u8
        ensures { result ≡ number_of self }
    {
        self as u8
    }
}
