ghost use Rattle.std.specs.Prelude.{◌≡◌, ◌<◌, ◌≤◌, ℕ, [], None, vec_len};
ghost use Rattle.core_host.specs.Outside.{Rose};

use crate::{Host, HostFailed, Port};
use std::alloc::Global;
use std::fs;
use std::io::{Read, Write};
use std::rt::Files;

/// The system's files, and two writers as ports. It tells nothing of what they hold.
///
/// Each failure raises a count: a missing file and want of memory do so too. What is pushed
/// goes to the writer at once, and a write that takes no byte is a failure.
#[derive(Drop)]
pub struct RealHost<R: Files + Drop, M: Write + Drop, N: Write + Drop> {
    files: R,
    main: M,
    notes: N,
    opened: Vec<R::File>,
    read_faults: u64,
    write_faults: u64,
}

impl<R: Files + Drop, M: Write + Drop, N: Write + Drop> RealHost<R, M, N> {
    /// A host that has opened nothing. The allocator is kept for the list of opened files.
    pub fn new(alloc: Global, files: R, main: M, notes: N) -> RealHost<R, M, N>
        ensures reads { ⟦<RealHost<R, M, N> as Host>⟧.read_faults result ≡ 0 }
        ensures writes { ⟦<RealHost<R, M, N> as Host>⟧.write_faults result ≡ 0 }
    {
        RealHost {
            files,
            main,
            notes,
            opened: Vec::new(alloc),
            read_faults: 0,
            write_faults: 0,
        }
    }

    fn fail_read(&mut self) -> HostFailed
        ensures rose { Rose self.old.read_faults self.new.read_faults }
        ensures later { self.old.read_faults ≤ self.new.read_faults }
        ensures writes { self.new.write_faults ≡ self.old.write_faults }
        ensures opened { vec_len self.new.opened ≡ vec_len self.old.opened }
    {
        self.read_faults = self.read_faults.saturating_add(1);
        HostFailed
    }
}

impl<R: Files + Drop, M: Write + Drop, N: Write + Drop> Host for RealHost<R, M, N> {
    ghost files = { λ h. None };

    ghost left = { λ h n. [] };

    ghost given = { λ h n. n < vec_len h.opened };

    ghost opened = { λ h n. None };

    ghost pushed = { λ h p. None };

    ghost read_faults = { λ h. h.read_faults };

    ghost write_faults = { λ h. h.write_faults };

    fn find(&mut self, name: &str) -> Result<u32, HostFailed> {
        let number = self.opened.len();
        if number >= u32::MAX as usize {
            return Err(self.fail_read());
        }
        match fs::open(&self.files, name) {
            Ok(file) => match self.opened.push(file) {
                Ok(()) => Ok(number as u32),
                Err(_) => Err(self.fail_read()),
            },
            Err(_) => Err(self.fail_read()),
        }
    }

    fn pull(&mut self, file: u32, into: &mut [u8]) -> Result<usize, HostFailed> {
        match self.opened[file as usize].read(into) {
            Ok(count) => Ok(count),
            Err(_) => Err(self.fail_read()),
        }
    }

    fn push(&mut self, port: Port, bytes: &[u8]) -> Result<usize, HostFailed> {
        let written = match port {
            Port::Main => self.main.write(bytes),
            Port::Notes => self.notes.write(bytes),
        };
        match written {
            Ok(count) if count > 0 => Ok(count),
            _ => {
                self.write_faults = self.write_faults.saturating_add(1);
                Err(HostFailed)
            }
        }
    }
}
