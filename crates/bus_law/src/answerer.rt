ghost use Rattle.std.specs.Prelude.{◌≡◌, ◌<◌, length};
ghost use Rattle.bus_law.specs.Answers.{state_at_start, fetched, accessed, driven, stepped};
ghost use Rattle.bus_law.specs.Memory.{word_at, is_window};
ghost use Rattle.bus_law.specs.Sides.{error_of, payload_of};

use crate::memory::{Mem, in_window};
use crate::side::{Answer, Side, Turn};
use crate::signals::{BusIn, BusOut};
use std::marker::Model;

/// Both buses over one memory. Each takes its commands in turn with the delays of a list: a command is accepted after
/// so many cycles of waiting, and its response comes so many cycles and one after that. After the last delay comes the
/// first again.
#[derive(Debug, Drop)]
pub struct Answerer {
    mem: Mem,
    delays: Vec<u32>,
    instruction: Side,
    access: Side,
}

impl Model for Answerer {
    ghost use Rattle.std.specs.Prelude.{◌<◌, length};
    ghost use Rattle.bus_law.specs.Answers.{State};

    ghost Value = { State };

    ghost view = { λ a. record { memory = a.mem; delays = a.delays.items; instruction = a.instruction; access = a.access } };

    ghost invariant = { λ a. (a.instruction.place < length a.delays.items) × (a.access.place < length a.delays.items) };
}

impl Answerer {
    /// Both buses in cycle 0, with the delays of their commands in cycles.
    pub fn new(mem: Mem, delays: Vec<u32>) -> Answerer
        requires { 0 < length delays.items }
        ensures { result ≡ state_at_start mem delays.items }
    {
        let side = Side {
            turn: Turn::Reset,
            place: 0,
        };
        Answerer {
            mem,
            delays,
            instruction: side,
            access: side,
        }
    }

    /// What both buses drive in this cycle.
    pub fn drive(&self) -> BusIn
        ensures { result ≡ driven self.now }
    {
        let fetch = self.instruction.response();
        let access = self.access.response();
        BusIn {
            ib_cmd_ready: self.instruction.is_ready(),
            ib_rsp_valid: fetch.is_some(),
            ib_rsp_error: error_of(fetch),
            ib_rsp_data: payload_of(fetch),
            db_cmd_ready: self.access.is_ready(),
            db_rsp_valid: access.is_some(),
            db_rsp_error: error_of(access),
            db_rsp_data: payload_of(access),
        }
    }

    /// Ends the cycle, in which the core drove `out`. The first call ends cycle 0.
    pub fn step(&mut self, out: BusOut)
        ensures { self.new ≡ stepped self.old out }
    {
        let fetch = fetch_answer(&self.mem, out.ib_cmd_addr);
        let access = access_answer(&self.mem, out.db_cmd_addr, out.db_cmd_write);
        let stores = out.db_cmd_valid && self.access.is_ready() && out.db_cmd_write;
        self.instruction
            .end_cycle(self.delays.as_slice(), out.ib_cmd_valid, fetch);
        self.access
            .end_cycle(self.delays.as_slice(), out.db_cmd_valid, access);
        if stores {
            self.mem
                .apply(out.db_cmd_addr, out.db_cmd_data, out.db_cmd_mask);
        }
    }

    /// The memory as this cycle began.
    pub fn mem(&self) -> &Mem
        ensures { result.now ≡ self.now.memory }
    {
        &self.mem
    }
}

/// The answer to a fetch.
fn fetch_answer(mem: &Mem, addr: u32) -> Answer
    ensures { result ≡ fetched (word_at mem.now addr) }
{
    match mem.word_at(addr) {
        None => Answer {
            error: true,
            payload: 0,
        },
        Some(word) => Answer {
            error: false,
            payload: word,
        },
    }
}

/// The answer to a read or a write of data.
fn access_answer(mem: &Mem, addr: u32, write: bool) -> Answer
    ensures { result ≡ accessed (word_at mem.now addr) (is_window addr) write }
{
    match mem.word_at(addr) {
        None => Answer {
            error: !in_window(addr),
            payload: 0,
        },
        Some(word) => Answer {
            error: false,
            payload: if write { 0 } else { word },
        },
    }
}

/// The error flag of a response, 0 where none comes.
fn error_of(response: Option<Answer>) -> bool
    ensures { result ≡ error_of response }
{
    match response {
        Some(answer) => answer.error,
        None => false,
    }
}

/// The data of a response, 0 where none comes.
fn payload_of(response: Option<Answer>) -> u32
    ensures { result ≡ payload_of response }
{
    match response {
        Some(answer) => answer.payload,
        None => 0,
    }
}
