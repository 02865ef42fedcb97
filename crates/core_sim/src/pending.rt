ghost use Rattle.std.specs.Prelude.{◌≡◌, ◌+◌, ◌<◌, ◌≤◌, ◌++◌, ◌∷◌, Bool, false, cond, IfOk, List, [], vec_capacity, vec_len};
ghost use Rattle.bus_law.specs.Memory.{Store};
ghost use Rattle.core_sim.specs.Bench.{retires};
ghost use Rattle.core_sim.specs.Pending.{IsKept, noted, store_of_write};
ghost use Rattle.core_sim.specs.Window.{byte_of, code_of, is_for, or_code};

use crate::event::{Told, Write};
use std::alloc::{AllocError, Global};

/// A write to this address adds a byte to the host text.
const TEXT: u32 = 0xf000_0000;

/// A write to this address ends the run.
const EXIT: u32 = 0xf000_0004;

/// What the writes that no retirement has settled ask for: the bytes that they add to the host text, where those are
/// wanted, and the code of the first exit.
#[derive(Drop)]
pub struct Pending {
    pub bytes: Vec<u8>,
    pub code: Option<u32>,
}

impl Pending {
    /// No write. It takes the memory that this many bytes need.
    pub fn with_room(alloc: Global, room: usize) -> Result<Pending, AllocError>
        ensures empty { IfOk result (λ p. (trace : Bool) → IsKept trace [] p) }
        ensures room { IfOk result (λ p. room ≤ vec_capacity p.bytes) }
        ensures len { IfOk result (λ p. vec_len p.bytes ≡ 0) }
    {
        let bytes = Vec::with_capacity(alloc, room)?;
        Ok(Pending { bytes, code: None })
    }

    /// Ends a cycle: a retirement settles the writes of the cycles before, and that of the cycle comes behind them.
    pub fn pass(&mut self, trace: bool, told: &Told)
        requires room { trace ≡ false → vec_len self.old.bytes < vec_capacity self.old.bytes }
        ensures kept { (ws : List Store) → IsKept trace ws self.old → IsKept trace (noted told.now.write ++ cond (retires told.now.event) [] ws) self.new }
        ensures len { vec_len self.new.bytes ≤ vec_len self.old.bytes + 1 }
        ensures room { vec_capacity self.old.bytes ≤ vec_capacity self.new.bytes }
    {
        if is_retired(told) {
            self.settle();
        }
        if let Some(write) = &told.write {
            self.note(trace, write);
        }
    }

    /// Forgets all writes.
    fn settle(&mut self)
        ensures kept { (trace : Bool) → IsKept trace [] self.new }
        ensures len { vec_len self.new.bytes ≡ 0 }
        ensures room { vec_capacity self.new.bytes ≡ vec_capacity self.old.bytes }
    {
        self.bytes.clear();
        self.code = None;
    }

    /// A further write.
    fn note(&mut self, trace: bool, write: &Write)
        requires room { trace ≡ false → vec_len self.old.bytes < vec_capacity self.old.bytes }
        ensures kept { (ws : List Store) → IsKept trace ws self.old → IsKept trace (store_of_write write.now ∷ ws) self.new }
        ensures len { vec_len self.new.bytes ≤ vec_len self.old.bytes + 1 }
        ensures room { vec_capacity self.old.bytes ≤ vec_capacity self.new.bytes }
    {
        if !trace {
            note_byte(&mut self.bytes, write);
        }
        self.code = code_with(self.code, write);
    }
}

/// Appends the byte that a write adds to the host text, where it adds one. There is room for it.
fn note_byte(bytes: &mut Vec<u8>, write: &Write)
    requires { vec_len bytes.old < vec_capacity bytes.old }
    ensures kept { bytes.new.items ≡ bytes.old.items ++ byte_of (store_of_write write.now) }
    ensures len { vec_len bytes.new ≤ vec_len bytes.old + 1 }
    ensures room { vec_capacity bytes.old ≤ vec_capacity bytes.new }
{
    if !is_for(TEXT, write) {
        return;
    }
    let pushed = bytes.push((write.value % 0x100) as u8);
    prove!(pushed.is_ok());
}

/// The code of the first exit, with that which a further write asks for.
fn code_with(first: Option<u32>, write: &Write) -> Option<u32>
    ensures { result ≡ or_code first (code_of (store_of_write write.now)) }
{
    match first {
        Some(code) => Some(code),
        None if is_for(EXIT, write) => Some(write.value),
        None => None,
    }
}

/// Whether a write is one of the lowest lane at this address.
fn is_for(addr: u32, write: &Write) -> bool
    ensures { result ≡ is_for addr (store_of_write write.now) }
{
    write.addr == addr && write.mask % 2 == 1
}

/// Whether an instruction retires.
pub fn is_retired(told: &Told) -> bool
    ensures { result ≡ retires told.now.event }
{
    match told.event {
        Some(event) => event.kind == 0,
        None => false,
    }
}
