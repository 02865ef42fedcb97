ghost use Rattle.std.specs.Prelude.{◌≡◌, ◌≤◌, ◌<◌, ◌-◌, ◌↔◌, ◌⊎◌, ℕ, min, length, take, Some, None, Ok, IfOk, OnOk, OnErr, IsErr};
ghost use Rattle.core_host.specs.declared.host.Port.{Port};
ghost use Rattle.core_host.specs.Outside.{Rose, Appends, IsMissing};
ghost use Rattle.core_host.specs.TextHost.{no_files, fresh, text_on, FailsWhenFull, read_failed, write_failed};

use crate::memory::{append, count_fault};
use crate::{Host, HostFailed, Port};
use std::alloc::{AllocError, Global};
use std::marker::Model;

/// Two ports in memory and no file. It tells all it holds.
///
/// A `push` fails exactly on a port that is full, and moves as many bytes as find room. Each
/// `find` and `pull` fails, and every number counts as given. No method takes memory.
#[derive(Debug, Drop)]
pub struct TextHost {
    main: Vec<u8>,
    notes: Vec<u8>,
    room: u32,
    read_faults: u64,
    write_faults: u64,
}

impl Model for TextHost {
    ghost use Rattle.std.specs.Prelude.{◌≡◌, ◌≤◌, ◌<◌, length, vec_capacity};
    ghost use Rattle.core_host.specs.TextHost.{Texts};

    ghost Value = { Texts };

    ghost view = { λ h. record {
      main = h.main.items;
      notes = h.notes.items;
      room = h.room;
      read_faults = h.read_faults;
      write_faults = h.write_faults;
    } };

    ghost invariant = { λ h. (h.room ≤ vec_capacity h.main) × (h.room ≤ vec_capacity h.notes)
        × (length h.main.items < h.room → length h.notes.items < h.room → h.write_faults ≡ 0) };
}

impl TextHost {
    /// A host with room for `n` bytes on each port. All memory is taken here.
    pub fn with_room(alloc: Global, n: u32) -> Result<TextHost, AllocError>
        ensures { IfOk result (λ h. h ≡ fresh n) }
    {
        Ok(TextHost {
            main: Vec::with_capacity(alloc, n as usize)?,
            notes: Vec::with_capacity(alloc, n as usize)?,
            room: n,
            read_faults: 0,
            write_faults: 0,
        })
    }

    /// The bytes pushed on a port.
    pub fn pushed(&self, port: Port) -> &Vec<u8>
        ensures text { result.now.items ≡ text_on self.now port }
        ensures faults { FailsWhenFull self.now }
    {
        match port {
            Port::Main => &self.main,
            Port::Notes => &self.notes,
        }
    }

    /// Counts a failure to read.
    fn fail_read(&mut self) -> HostFailed
        ensures counted { self.new ≡ read_failed self.old }
        ensures later { self.old.read_faults ≤ self.new.read_faults }
    {
        count_fault(&mut self.read_faults)
    }
}

impl Host for TextHost {
    ghost use Rattle.std.specs.Prelude.{[], None, Some};
    ghost use Rattle.core_host.specs.TextHost.{no_files, text_on};

    ghost files = { λ h. Some no_files };

    ghost left = { λ h n. [] };

    ghost given = { λ h n. Unit {0} };

    ghost opened = { λ h n. None };

    ghost pushed = { λ h p. Some (text_on h p) };

    ghost read_faults = { λ h. h.read_faults };

    ghost write_faults = { λ h. h.write_faults };

    /// Fails: there is no file.
    fn find(&mut self, _name: &str) -> Result<u32, HostFailed>
        ensures cause { OnErr result (Rose self.old.read_faults self.new.read_faults
            ⊎ IsMissing _name.now (Some no_files)) }
        ensures ports { (p : Port) → Some (text_on self.new p) ≡ Some (text_on self.old p) }
        ensures reads { self.old.read_faults ≤ self.new.read_faults }
        ensures writes { self.old.write_faults ≤ self.new.write_faults }
        // Each call fails, and this is what changes.
        ensures fails { IsErr result }
        ensures failed { self.new ≡ read_failed self.old }
    {
        Err(self.fail_read())
    }

    /// Fails: there is no file.
    fn pull(&mut self, _file: u32, _into: &mut [u8]) -> Result<usize, HostFailed>
        ensures cause { OnErr result (Rose self.old.read_faults self.new.read_faults) }
        ensures ports { (p : Port) → Some (text_on self.new p) ≡ Some (text_on self.old p) }
        ensures reads { self.old.read_faults ≤ self.new.read_faults }
        ensures writes { self.old.write_faults ≤ self.new.write_faults }
        // Each call fails, and this is what changes.
        ensures fails { IsErr result }
        ensures failed { self.new ≡ read_failed self.old }
        ensures same { _into.new ≡ _into.old }
    {
        Err(self.fail_read())
    }

    /// Appends as many bytes as are there and find room.
    fn push(&mut self, port: Port, bytes: &[u8]) -> Result<usize, HostFailed>
        requires { 0 < length bytes.now }
        ensures count { IfOk result (λ k. (0 < k) × (k ≤ length bytes.now)) }
        ensures bytes { IfOk result (λ k. Appends (Some (text_on self.old port)) (take k bytes.now)
            (Some (text_on self.new port))) }
        ensures unchanged { OnErr result (Some (text_on self.new port) ≡ Some (text_on self.old port)) }
        ensures cause { OnErr result (Rose self.old.write_faults self.new.write_faults) }
        ensures others { (p : Port) → ¬ (p ≡ port) → Some (text_on self.new p) ≡ Some (text_on self.old p) }
        ensures reads { self.old.read_faults ≤ self.new.read_faults }
        ensures writes { self.old.write_faults ≤ self.new.write_faults }
        // Exactly these calls fail, this many bytes are moved, and this is what else changes.
        ensures fails { IsErr result ↔ (self.old.room ≤ length (text_on self.old port)) }
        ensures failed { OnErr result (self.new ≡ write_failed self.old) }
        ensures moved { IfOk result (λ k. k ≡ min (length bytes.now)
            (self.old.room - length (text_on self.old port))) }
        ensures only { OnOk result (self.new
            ≡ record self.old { main = self.new.main; notes = self.new.notes }) }
    {
        let added = match port {
            Port::Main => append(&mut self.main, self.room, 0, bytes),
            Port::Notes => append(&mut self.notes, self.room, 0, bytes),
        };
        match added {
            Some(count) => Ok(count),
            None => Err(count_fault(&mut self.write_faults)),
        }
    }
}
