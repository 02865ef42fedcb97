use hw_expr::Net;
use service_ports::{DecoderPorts, FetchPorts, HazardPorts, RegFilePorts, SystemPorts};

/// The ports of the services that a core has once, as they were offered.
#[derive(Clone, Copy, Debug)]
pub struct Offers {
    pub fetch: FetchPorts,
    pub decoder: DecoderPorts,
    pub regfile: RegFilePorts,
    pub hazard: HazardPorts,
    pub system: Option<SystemPorts>,
}

/// The values of the pipeline's own registers, but for those that choose a unit and those of results on their way.
#[derive(Clone, Copy, Debug)]
pub struct RegNets {
    /// The pc of the next instruction, of 32 bits.
    pub apc: Net,
    pub flush: Net,
    pub flush_fence: Net,
    pub started: Net,
    pub stopped: Net,
    pub valid: Net,
    pub slot: SlotNets,
}

/// The registers of the item in front, or what they are to take.
#[derive(Clone, Copy, Debug)]
pub struct SlotNets {
    pub pc: Net,
    pub word: Net,
    pub error: Net,
    pub legal: Net,
    pub row: Net,
    pub except: Net,
    pub writes: Net,
    pub a: Net,
    pub b: Net,
}

/// The pipeline's own forward wires, of 1 bit each, or what is to drive them.
#[derive(Clone, Copy, Debug)]
pub struct WireNets {
    pub kill: Net,
    pub irq: Net,
    pub run: Net,
    pub ends: Net,
    pub retires: Net,
    pub traps: Net,
    pub writes: Net,
    pub enters: Net,
}

/// The outputs of System; 0 where there is none.
#[derive(Clone, Copy, Debug)]
pub struct SystemNets {
    pub there: bool,
    pub take_irq: Net,
    pub irq_cause: Net,
    pub base: Net,
}

/// Whether some unit is done, and the outputs of the chosen one.
#[derive(Clone, Copy, Debug)]
pub struct UnitNets {
    pub done: Net,
    pub value: Net,
    pub next_pc: Net,
    pub trap: Net,
    pub cause: Net,
    pub tval: Net,
    pub fence: Net,
}

/// All that the pipeline reads.
#[derive(Clone, Copy, Debug)]
pub struct Known {
    pub regs: RegNets,
    pub wires: WireNets,
    pub fetch: FetchPorts,
    pub decoder: DecoderPorts,
    pub hazard: HazardPorts,
    pub system: SystemNets,
    pub units: UnitNets,
}

/// What several drivers stand on.
#[derive(Clone, Copy, Debug)]
pub struct Mids {
    /// An interrupt comes before the item in front.
    pub asked: Net,
    /// The item in front needs no more cycles, and what it would do if it ended.
    pub through: Net,
    pub faulty: Net,
    pub wins: Net,
    /// Cause and mtval of its trap, of 32 bits.
    pub cause: Net,
    pub tval: Net,
    /// There is an event.
    pub event: Net,
    /// A FENCE.I retires.
    pub fences: Net,
    /// No unit executes the item that is offered.
    pub fresh_except: Net,
    /// The item that is offered is taken.
    pub takes: Net,
}

/// What the first registers are to take.
#[derive(Clone, Copy, Debug)]
pub struct StateNets {
    pub apc: Net,
    pub flush: Net,
    pub started: Net,
    pub stopped: Net,
    pub valid: Net,
}

/// What an event tells.
#[derive(Clone, Copy, Debug)]
pub struct ToldNets {
    pub kind: Net,
    pub word: Net,
    pub rd: Net,
    pub value: Net,
    pub cause: Net,
}

/// What System takes of an event.
#[derive(Clone, Copy, Debug)]
pub struct EventNets {
    pub kind: Net,
    pub cause: Net,
    pub tval: Net,
}

/// What is read from the words that are offered and in front.
#[derive(Clone, Copy, Debug)]
pub struct FrontNets {
    /// Words that were read before a FENCE.I must go.
    pub fence: Net,
    /// The registers that the item that is offered reads, and the one that the item in front writes, of 5 bits.
    pub ra: Net,
    pub rb: Net,
    pub rd: Net,
    /// There is an item in front that will write its register, if it retires.
    pub writes: Net,
}

/// A result on its way to the registers: 1 bit where it writes one, its number of 5 bits, and its value of 32 bits.
#[derive(Clone, Copy, Debug)]
pub struct LateNets {
    pub writes: Net,
    pub rd: Net,
    pub value: Net,
}

/// A stage behind decode as Hazard sees it.
#[derive(Clone, Copy, Debug)]
pub struct StageNets {
    pub writes: Net,
    pub rd: Net,
    pub ready: Net,
    pub value: Net,
}

/// What is on its way to the registers.
#[derive(Clone, Copy, Debug)]
pub struct TailNets {
    /// What leaves the stage that executes.
    pub made: LateNets,
    /// What leaves for the registers, and 1 where it is written.
    pub leaving: LateNets,
    pub enable: Net,
    /// The first two places as Hazard sees them.
    pub second: StageNets,
    pub third: StageNets,
}

/// The number 0 in 1, 4 and 32 bits, and the forward wire by which the item that is offered is taken.
#[derive(Clone, Copy, Debug)]
pub struct EndNets {
    pub take: Net,
    pub bit: Net,
    pub mask: Net,
    pub word: Net,
}

/// All that the pipeline reads, and all that it drives things with but for what is of one unit.
#[derive(Clone, Copy, Debug)]
pub struct PipeNets {
    pub known: Known,
    pub mids: Mids,
    pub wires: WireNets,
    pub state: StateNets,
    pub slot: SlotNets,
    pub told: ToldNets,
    pub event: EventNets,
    pub front: FrontNets,
    pub tail: TailNets,
    pub ends: EndNets,
}

/// What drives the inputs of a unit that are not the item's, and its register.
#[derive(Clone, Copy, Debug)]
pub struct UnitDrivers {
    pub go: Net,
    pub clear: Net,
    pub next: Net,
}
