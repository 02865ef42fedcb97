ghost use Rattle.std.specs.Prelude.{◌≡◌, ◌↔◌, ℕ, ◌+◌, ◌-◌, ◌%◌, ◌^◌, ◌<◌, ◌≤◌, ◌⊎◌, ◌++◌, ◌||◌, IsTrue, IfOk, IfNone, IfSome, OnSome, if◌then◌else◌, drop, false, length, replicate, set, true};
ghost use Rattle.bus_law.specs.Lanes.{lanes_at, lanes_put};
ghost use Rattle.bus_law.specs.Memory.{IsMemory, aligned_of, is_inside, is_window, word_at, written};

use std::alloc::{AllocError, Global};
use std::marker::Model;

/// Memory as a base address and bytes. Beside it is the host window, 16 bytes at f0000000 that hold nothing.
#[derive(Debug, Drop)]
pub struct Mem {
    base: u32,
    bytes: Vec<u8>,
}

impl Model for Mem {
    ghost use Rattle.bus_law.specs.Memory.{Memory, IsMemory};

    ghost Value = { Memory };

    ghost view = { λ m. record { base = m.base; bytes = m.bytes.items } };

    ghost invariant = { λ m. IsMemory (record { base = m.base; bytes = m.bytes.items }) };
}

impl Mem {
    /// A memory of `size` bytes from the address `base` on, all 0.
    pub fn new(alloc: Global, base: u32, size: u32) -> Result<Mem, AllocError>
        requires aligned { base % 4 ≡ 0 }
        requires whole { size % 4 ≡ 0 }
        requires least { 4 ≤ size }
        requires most { size ≤ 2 ^ 24 }
        requires ends { base + size ≤ 2 ^ 32 }
        requires apart { (base + size ≤ 0xf0000000) ⊎ (0xf0000010 ≤ base) }
        ensures { IfOk result (λ m. m ≡ record { base = base; bytes = replicate size 0 }) }
    {
        let bytes = vec![in alloc; 0; size as usize]?;
        Ok(Mem { base, bytes })
    }

    /// The address of the first byte.
    pub fn base(&self) -> u32
        ensures base { result ≡ self.now.base }
        ensures memory { IsMemory self.now }
    {
        self.base
    }

    /// How many bytes there are.
    pub fn size(&self) -> u32
        ensures { result ≡ length self.now.bytes }
    {
        self.bytes.len() as u32
    }

    /// The word at an address, which counts with its low two bits cleared; none outside memory.
    pub fn word_at(&self, addr: u32) -> Option<u32>
        ensures { result ≡ word_at self.now addr }
    {
        let at = self.place_of(addr)?;
        Some(word_in(self.bytes.as_slice(), at))
    }

    /// Writes the bytes of `value` whose bit in `mask` is 1 to the word at an address, and says whether a write there
    /// is taken: in memory, and in the window, where it changes nothing.
    pub fn apply(&mut self, addr: u32, value: u32, mask: u32) -> bool
        ensures new { self.new ≡ written self.old addr value mask }
        ensures taken { IsTrue result ↔ IsTrue (is_inside self.old addr || is_window addr) }
    {
        match self.place_of(addr) {
            Some(at) => {
                put_lanes(self.bytes.as_mut_slice(), at, value, mask);
                true
            }
            None => in_window(addr),
        }
    }

    /// Puts these bytes from the base on, and leaves the others.
    pub fn fill(&mut self, bytes: &[u8])
        requires { length bytes.now ≤ length self.old.bytes }
        ensures base { self.new.base ≡ self.old.base }
        ensures bytes { self.new.bytes ≡ bytes.now ++ drop (length bytes.now) self.old.bytes }
    {
        put_front(self.bytes.as_mut_slice(), bytes);
    }

    /// The place among the bytes of the word at an address.
    fn place_of(&self, addr: u32) -> Option<usize>
        ensures outside { IfNone result (is_inside self.now addr ≡ false) }
        ensures inside { OnSome result (is_inside self.now addr ≡ true) }
        ensures place { IfSome result (λ at. self.now.base + at ≡ aligned_of addr) }
    {
        let first = addr / 4 * 4;
        if first < self.base {
            return None;
        }
        let at = (first - self.base) as usize;
        if at + 4 <= self.bytes.len() {
            Some(at)
        } else {
            None
        }
    }
}

/// Whether an address is in the host window.
pub fn in_window(addr: u32) -> bool
    ensures { IsTrue result ↔ IsTrue (is_window addr) }
{
    addr / 16 == 0xf000000
}

/// Puts these bytes over the first ones.
fn put_front(held: &mut [u8], bytes: &[u8])
    requires { length bytes.now ≤ length held.old }
    ensures { held.new ≡ bytes.now ++ drop (length bytes.now) held.old }
{
    held[..bytes.len()].copy_from_slice(bytes);
}

/// The word whose lowest byte is at the place `at`.
fn word_in(bytes: &[u8], at: usize) -> u32
    requires { at + 4 ≤ length bytes.now }
    ensures { result ≡ lanes_at bytes.now at }
{
    u32::from(bytes[at])
        + u32::from(bytes[at + 1]) * 0x100
        + u32::from(bytes[at + 2]) * 0x10000
        + u32::from(bytes[at + 3]) * 0x1000000
}

/// Puts the bytes of a word whose bit in `mask` is 1, the lowest byte at the place `at`.
fn put_lanes(bytes: &mut [u8], at: usize, value: u32, mask: u32)
    requires { at + 4 ≤ length bytes.old }
    ensures { bytes.new ≡ lanes_put at value mask bytes.old }
{
    put_lane(bytes, at, (value % 0x100) as u8, mask % 2 == 1);
    put_lane(
        bytes,
        at + 1,
        (value / 0x100 % 0x100) as u8,
        mask / 2 % 2 == 1,
    );
    put_lane(
        bytes,
        at + 2,
        (value / 0x10000 % 0x100) as u8,
        mask / 4 % 2 == 1,
    );
    put_lane(
        bytes,
        at + 3,
        (value / 0x1000000 % 0x100) as u8,
        mask / 8 % 2 == 1,
    );
}

/// Puts a byte at a place where it is taken.
fn put_lane(bytes: &mut [u8], at: usize, byte: u8, taken: bool)
    requires { at < length bytes.old }
    ensures { bytes.new ≡ (if taken then set bytes.old at byte else bytes.old) }
{
    if taken {
        bytes[at] = byte;
    }
}
