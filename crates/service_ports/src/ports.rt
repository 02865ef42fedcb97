use hw_expr::Net;

/// The ports of Fetch, which gives the instructions in the order of the program. Inputs have level 8, outputs level 0.
#[derive(Clone, Copy, Debug, PartialEq, Eq)]
pub struct FetchPorts {
    /// Input of 1 bit: what is given is taken.
    pub take: u32,
    /// Input of 1 bit: the next instruction is that at `redirect_pc`.
    pub redirect: u32,
    /// Input of 32 bits.
    pub redirect_pc: u32,
    /// Input of 1 bit: words that were read before are read anew.
    pub fence: u32,
    /// Output of 1 bit: an instruction is given.
    pub valid: Net,
    /// Output of 32 bits: its address.
    pub pc: Net,
    /// Output of 32 bits: its word.
    pub word: Net,
    /// Output of 1 bit: its word could not be read.
    pub error: Net,
}

/// The ports of Predict, which tells the address of the next instruction. Inputs and the output have level 1.
#[derive(Clone, Copy, Debug, PartialEq, Eq)]
pub struct PredictPorts {
    /// Input of 32 bits: the address of an instruction.
    pub pc: u32,
    /// Input of 32 bits: its word.
    pub word: u32,
    /// Output of 32 bits: the address that is to come next.
    pub next: Net,
}

/// The ports of Decoder, which tells what an instruction is. The input and outputs have level 1.
#[derive(Clone, Copy, Debug, PartialEq, Eq)]
pub struct DecoderPorts {
    /// Input of 32 bits.
    pub word: u32,
    /// Output of 1 bit: the word is an instruction of the set.
    pub legal: Net,
    /// Output of 7 bits: its row in the table of instructions.
    pub row: Net,
    /// Output of 5 bits: the entry that does it.
    pub unit: Net,
    /// Output of 1 bit: it reads register rs1.
    pub uses_a: Net,
    /// Output of 1 bit: it reads register rs2.
    pub uses_b: Net,
    /// Output of 1 bit: it writes register rd.
    pub writes: Net,
}

/// The ports of RegFile, which holds the registers of the machine. The inputs `ra` and `rb` have level 2, the others
/// level 8; outputs have level 2.
#[derive(Clone, Copy, Debug, PartialEq, Eq)]
pub struct RegFilePorts {
    /// Input of 5 bits: the register to read at `a`.
    pub ra: u32,
    /// Input of 5 bits: the register to read at `b`.
    pub rb: u32,
    /// Input of 1 bit: register `wa` takes the value `wd`.
    pub we: u32,
    /// Input of 5 bits.
    pub wa: u32,
    /// Input of 32 bits.
    pub wd: u32,
    /// Output of 32 bits.
    pub a: Net,
    /// Output of 32 bits.
    pub b: Net,
}

/// The inputs of Hazard that tell of one stage after decode. They have level 5.
#[derive(Clone, Copy, Debug, PartialEq, Eq)]
pub struct HazardStage {
    /// Input of 1 bit: the stage holds an instruction that writes register `rd`.
    pub writes: u32,
    /// Input of 5 bits.
    pub rd: u32,
    /// Input of 1 bit: its value is there.
    pub ready: u32,
    /// Input of 32 bits.
    pub value: u32,
}

/// The ports of Hazard, which gives the operands of an instruction. Inputs and outputs have level 5.
#[derive(Clone, Copy, Debug, PartialEq, Eq)]
pub struct HazardPorts {
    /// The stages after decode in their order.
    pub first: HazardStage,
    pub second: HazardStage,
    pub third: HazardStage,
    /// Input of 5 bits: register rs1.
    pub ra: u32,
    /// Input of 5 bits: register rs2.
    pub rb: u32,
    /// Input of 1 bit: the instruction reads rs1.
    pub uses_a: u32,
    /// Input of 1 bit: the instruction reads rs2.
    pub uses_b: u32,
    /// Output of 1 bit: the instruction waits for a value.
    pub hold: Net,
    /// Output of 32 bits: the value of rs1.
    pub a: Net,
    /// Output of 32 bits: the value of rs2.
    pub b: Net,
}

/// The ports of Exec, which does an instruction. The input `clear` has level 8, the others level 4; outputs have level 4.
#[derive(Clone, Copy, Debug, PartialEq, Eq)]
pub struct ExecPorts {
    /// Input of 1 bit: there is an instruction to do.
    pub go: u32,
    /// Input of 7 bits: its row in the table of instructions.
    pub row: u32,
    /// Input of 32 bits: its address.
    pub pc: u32,
    /// Input of 32 bits: its word.
    pub word: u32,
    /// Input of 32 bits: the value of register rs1.
    pub a: u32,
    /// Input of 32 bits: the value of register rs2.
    pub b: u32,
    /// Input of 1 bit: what is at work is given up.
    pub clear: u32,
    /// Output of 1 bit: the instruction is done.
    pub done: Net,
    /// Output of 32 bits: the value for register rd.
    pub value: Net,
    /// Output of 32 bits: the address behind it.
    pub next_pc: Net,
    /// Output of 1 bit: it traps.
    pub trap: Net,
    /// Output of 32 bits: the cause of the trap.
    pub cause: Net,
    /// Output of 32 bits: the value that the trap gives mtval.
    pub tval: Net,
    /// Output of 1 bit: it was a FENCE.I.
    pub fence: Net,
}

/// DataBus has no ports: who offers it drives the outputs of the data bus from what it holds.
#[derive(Clone, Copy, Debug, PartialEq, Eq)]
pub struct DataBusPorts {}

/// The ports of System, which holds the control and status registers. Inputs have level 7, outputs level 0.
#[derive(Clone, Copy, Debug, PartialEq, Eq)]
pub struct SystemPorts {
    /// Input of 1 bit: there is an event.
    pub event: u32,
    /// Input of 2 bits: its kind.
    pub kind: u32,
    /// Input of 32 bits: its address.
    pub pc: u32,
    /// Input of 32 bits: its cause.
    pub cause: u32,
    /// Input of 32 bits: the value that it gives mtval.
    pub tval: u32,
    /// Output of 1 bit: an interrupt is to be taken.
    pub take_irq: Net,
    /// Output of 32 bits: its cause.
    pub irq_cause: Net,
    /// Output of 32 bits: the address of the handler.
    pub base: Net,
}

/// An offer of Exec, with the entry that makes it.
#[derive(Clone, Copy, Debug, PartialEq, Eq)]
pub struct ExecOffer {
    pub by: u32,
    pub ports: ExecPorts,
}
