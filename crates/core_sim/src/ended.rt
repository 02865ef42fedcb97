use core_host::List;
use thiserror::Error;

/// What a run is to do: whether it writes the lines of its events in place of the host text, of how many cycles it is
/// at most, the delays, in cycles, by which the buses answer in turn, and when its interrupt lines are 1.
#[derive(Debug, Drop)]
pub struct RunOpts {
    pub trace: bool,
    pub cycles: u64,
    pub delays: List<u32>,
    pub irqs: List<IrqSpan>,
}

/// Cycles in which an interrupt line is 1, from `from` to `to`, both included. The line is 3 (software), 7 (timer) or
/// 11 (external).
#[derive(Clone, Copy, Debug, Default, PartialEq, Eq)]
pub struct IrqSpan {
    pub line: u32,
    pub from: u64,
    pub to: u64,
}

/// How a run ended. The cycle of the end counts in `cycles`, an event that ended it in `events`.
#[derive(Clone, Copy, Debug, PartialEq, Eq)]
pub enum Ended {
    /// The program asked for its end with this code.
    Exit {
        code: u32,
        events: u64,
        cycles: u64,
    },
    /// A trap stopped the core.
    Stopped {
        cause: u32,
        pc: u32,
        events: u64,
        cycles: u64,
    },
    /// As many cycles passed as the run was to have.
    CyclesEnded {
        events: u64,
        cycles: u64,
    },
}

/// A bus of the core.
#[derive(Clone, Copy, Debug, PartialEq, Eq)]
pub enum BusName {
    /// The instruction bus.
    Ib,
    /// The data bus.
    Db,
}

/// Why a run has no end.
#[derive(Clone, Copy, Debug, PartialEq, Eq, Error)]
pub enum SimRefusal {
    /// The core broke a duty on a bus in this cycle. No run answers so yet.
    #[error("the core broke a duty on a bus")]
    Breach { cycle: u64, bus: BusName, duty: u32 },
    /// A push of the text failed.
    #[error("the text could not be written")]
    WriteFault,
    /// Memory ran out before the first push.
    #[error("no memory")]
    NoMemory,
}
