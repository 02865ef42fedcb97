ghost use Rattle.std.specs.Prelude.{◌≡◌, ◌<◌, IfOk, length};
ghost use Rattle.core_host.specs.TextHost.{fresh};

use core_host::{Host, HostFailed, Port, TextHost};
use std::alloc::{AllocError, Global};

/// The room of each port, in bytes: one more than the longest text that is read.
const ROOM: u32 = 16_777_217;

/// Two ports in memory, with room for each text that is read, and no file.
#[derive(Drop)]
pub struct TextPorts {
    texts: TextHost,
    ghost room: { texts.room ≡ 16777217 },
}

impl TextPorts {
    /// All memory is taken here.
    pub fn new(alloc: Global) -> Result<TextPorts, AllocError>
        ensures { IfOk result (λ h. h.texts ≡ fresh 16777217) }
    {
        let texts = TextHost::with_room(alloc, ROOM)?;
        Ok(TextPorts { texts })
    }

    /// The text on the main port.
    pub fn text(&self) -> &[u8]
        ensures text { result.now ≡ self.now.texts.main }
        // No push has failed where no port is full.
        ensures whole { length self.now.texts.main < 16777217 → length self.now.texts.notes < 16777217 → self.now.texts.write_faults ≡ 0 }
    {
        self.texts.pushed(Port::Main).as_slice()
    }
}

impl Host for TextPorts {
    ghost use Rattle.std.specs.Prelude.{[], None, Some};
    ghost use Rattle.core_host.specs.TextHost.{no_files, text_on};

    ghost files = { λ h. Some no_files };

    ghost left = { λ h n. [] };

    ghost given = { λ h n. Unit {0} };

    ghost opened = { λ h n. None };

    ghost pushed = { λ h p. Some (text_on h.texts p) };

    ghost read_faults = { λ h. h.texts.read_faults };

    ghost write_faults = { λ h. h.texts.write_faults };

    fn find(&mut self, name: &str) -> Result<u32, HostFailed> {
        self.texts.find(name)
    }

    fn pull(&mut self, file: u32, into: &mut [u8]) -> Result<usize, HostFailed> {
        self.texts.pull(file, into)
    }

    fn push(&mut self, port: Port, bytes: &[u8]) -> Result<usize, HostFailed> {
        self.texts.push(port, bytes)
    }
}
