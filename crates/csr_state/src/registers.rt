ghost use Rattle.std.specs.Prelude.{◌≡◌, true, false, is_some};
ghost use Rattle.core_words.specs.Values.{bits_of, one_if};
ghost use Rattle.isa_csr.specs.Csrs.{csr_read, csr_write, is_read_only, mstatus_of, pending, reset_csrs, trap_entry, trap_return};

use std::marker::Model;

/// The control and status registers.
#[derive(Debug, Drop)]
pub struct Csrs {
    enabled: bool,
    was_enabled: bool,
    isa: u32,
    enables: u32,
    vector: u32,
    scratch: u32,
    address: u32,
    cause: u32,
    value: u32,
}

impl Model for Csrs {
    ghost use Rattle.core_words.specs.Values.{one_if};
    ghost use Rattle.isa_csr.specs.Csrs as machine;

    ghost Value = { machine.Csrs };

    ghost view = { λ c. record {
      mie_bit = one_if c.enabled;
      mpie_bit = one_if c.was_enabled;
      misa = c.isa;
      mie = c.enables;
      mtvec = c.vector;
      mscratch = c.scratch;
      mepc = c.address;
      mcause = c.cause;
      mtval = c.value;
    } };
}

/// 1 for true, else 0.
fn bit_of(test: bool) -> u32
    ensures { result ≡ one_if test }
{
    if test { 1 } else { 0 }
}

/// Bit 3 of a value.
fn has_bit_3(value: u32) -> bool
    ensures { one_if result ≡ bits_of value 3 3 }
{
    value / 8 % 2 == 1
}

/// Bit 7 of a value.
fn has_bit_7(value: u32) -> bool
    ensures { one_if result ≡ bits_of value 7 7 }
{
    value / 128 % 2 == 1
}

impl Csrs {
    /// The registers out of reset, of 32 bits each; `misa` is what misa reads from then on.
    pub fn reset(misa: u32) -> Csrs
        ensures { result ≡ reset_csrs misa }
    {
        Csrs {
            enabled: false,
            was_enabled: false,
            isa: misa,
            enables: 0,
            vector: 0,
            scratch: 0,
            address: 0,
            cause: 0,
            value: 0,
        }
    }

    /// mstatus as it is read (3.1.6).
    fn status(&self) -> u32
        ensures { result ≡ mstatus_of self.now }
    {
        0x1800 + 128 * bit_of(self.was_enabled) + 8 * bit_of(self.enabled)
    }

    /// The register of this number as it is read, where there is one; mip has bits 3, 7 and 11 of `lines`, and no other.
    pub fn csr_read(&self, number: u32, lines: u32) -> Option<u32>
        ensures { result ≡ csr_read self.now lines number }
    {
        match number {
            0x300 => Some(self.status()),
            0x301 => Some(self.isa),
            0x304 => Some(self.enables),
            0x305 => Some(self.vector),
            0x340 => Some(self.scratch),
            0x341 => Some(self.address),
            0x342 => Some(self.cause),
            0x343 => Some(self.value),
            0x344 => Some(lines & 0x888),
            0xf11 => Some(0),
            0xf12 => Some(0),
            0xf13 => Some(0),
            0xf14 => Some(0),
            _ => None,
        }
    }

    /// Writes the register of this number, which is there and is not read-only. misa and mip keep what they hold.
    pub fn csr_write(&mut self, number: u32, value: u32)
        requires there { is_some (csr_read self.old 0 number) ≡ true }
        requires written { is_read_only number ≡ false }
        ensures { self.new ≡ csr_write self.old number value }
    {
        match number {
            0x300 => {
                self.enabled = has_bit_3(value);
                self.was_enabled = has_bit_7(value);
            }
            0x304 => self.enables = value & 0x888,
            0x305 => self.vector = value / 4 * 4,
            0x340 => self.scratch = value,
            0x341 => self.address = value / 4 * 4,
            0x342 => self.cause = value,
            0x343 => self.value = value,
            _ => {}
        }
    }

    /// Enters the handler of a trap or an interrupt that is taken at `pc`, and answers the handler's address (3.1.6.1, 3.1.15 to
    /// 3.1.17).
    pub fn trap_enter(&mut self, pc: u32, cause: u32, tval: u32) -> u32
        ensures state { self.new ≡ trap_entry self.old pc cause tval }
        ensures handler { result ≡ self.old.mtvec }
    {
        self.was_enabled = self.enabled;
        self.enabled = false;
        self.address = pc;
        self.cause = cause;
        self.value = tval;
        self.vector
    }

    /// Returns from the handler, and answers the address where the machine goes on (3.2.2).
    pub fn mret(&mut self) -> u32
        ensures state { self.new ≡ trap_return self.old }
        ensures address { result ≡ self.old.mepc }
    {
        self.enabled = self.was_enabled;
        self.was_enabled = true;
        self.address
    }

    /// The cause of the interrupt to take where the lines are these, if there is one: external before software before timer (3.1.9).
    pub fn pending(&self, lines: u32) -> Option<u32>
        ensures { result ≡ pending self.now lines }
    {
        if !self.enabled {
            return None;
        }
        let raised = self.enables & lines;
        if raised / 2048 % 2 == 1 {
            Some(0x8000_000b)
        } else if raised / 8 % 2 == 1 {
            Some(0x8000_0003)
        } else if raised / 128 % 2 == 1 {
            Some(0x8000_0007)
        } else {
            None
        }
    }
}
