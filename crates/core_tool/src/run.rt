ghost use Rattle.std.specs.Prelude.{All, ◌≡◌, ◌≤◌, ◌<◌, ◌^◌, ◌⊎◌, ℕ, List, Some, length, IfOk, IfErr};
ghost use Rattle.core_host.specs.declared.host.Port.{Port};
ghost use Rattle.core_host.specs.declared.host.Port.TheVariants.{Main};
ghost use Rattle.bus_law.specs.Memory.{IsMemory};
ghost use Rattle.core_config.specs.Allowed.{IsConfig, IsMemory as IsMemoryShape};
ghost use Rattle.verilog_tree.specs.declared.tree.Tree.{Tree};
ghost use Rattle.verilog_tree.specs.Module.{Reads};
ghost use Rattle.verilog_mean.specs.Checked.{IsChecked};
ghost use Rattle.verilog_mean.specs.CorePorts.{HasCorePorts};
ghost use Rattle.verilog_mean.specs.Erase.{plain_tree};
ghost use Rattle.core_sim.specs.Spans.{IsSpan};
ghost use Rattle.core_tool.specs.Call.{boxes_of};
ghost use Rattle.core_tool.specs.Boxes.{KeepKinds};
ghost use Rattle.core_tool.specs.CoreRun.{IsCoreText, IsTreeOfCore, memory_of};
ghost use Rattle.core_tool.specs.Files.{image_fault};
ghost use Rattle.core_tool.specs.declared.ends.ImageFault.{ImageFault};
ghost use Rattle.core_tool.specs.Parts.{IsImageEnd, IsJudged, IsLoadable, IsLoaded, IsSimulated, PulledOne};

use crate::ends::{CallEnd, ImageFault};
use crate::options::Options;
use crate::ports::TextPorts;
use bus_law::Mem;
use core_gen::{GenRefusal, generate};
use core_host::{Host, List, ReadEnd, read_file};
use core_sim::{Ended, RunOpts, SimRefusal, run_tree};
use image_load::{ImageRefusal, MOST_BYTES, load_raw};
use plug_api::Plugin;
use stage_map::{Config, MemShape};
use std::alloc::{AllocError, Global};
use verilog_load::{TextRefusal, load_text};
use verilog_mean::Checked;

/// Reads the image of that name into a memory of this shape.
pub fn load<H: Host>(
    alloc: Global,
    name: &str,
    shape: MemShape,
    host: &mut H,
) -> Result<Mem, CallEnd>
    requires shape { IsMemoryShape shape }
    ensures loaded { IfOk result (λ m. IsLoaded name.now (H.files host.old) shape m) }
    ensures memory { IfOk result (λ m. IsMemory m) }
    ensures refused { IfErr result (λ e. IsImageEnd name.now (H.files host.old) shape (H.read_faults host.old) (H.read_faults host.new) e) }
    ensures pulled { PulledOne 67108865 name.now (H.files host.old) (H.left host.old) (H.left host.new)
        (H.read_faults host.old) (H.read_faults host.new) }
    ensures ports { (p : Port) → H.pushed host.new p ≡ H.pushed host.old p }
    ensures files { H.files host.new ≡ H.files host.old }
    ensures numbers { (m : ℕ) → H.given host.old m → H.given host.new m }
    ensures names { (m : ℕ) → H.given host.old m → H.opened host.new m ≡ H.opened host.old m }
    ensures reads { H.read_faults host.old ≤ H.read_faults host.new }
    ensures writes { H.write_faults host.old ≤ H.write_faults host.new }
{
    let bytes = match read_file(alloc, host, name, MOST_BYTES) {
        Ok(bytes) => bytes,
        Err(ReadEnd::Fault) => return Err(CallEnd::BadFile),
        Err(ReadEnd::NoMemory) => return Err(CallEnd::OutOfMemory),
    };
    match memory_with(alloc, shape, &bytes) {
        Ok(memory) => {
            let _ = memory.base();
            Ok(memory)
        }
        Err(LoadFault::Refused(fault)) => Err(CallEnd::BadImage(fault)),
        Err(LoadFault::NoMemory) => Err(CallEnd::OutOfMemory),
    }
}

/// Why an image is not in memory.
enum LoadFault {
    Refused(ImageFault),
    NoMemory,
}

/// The memory of a run as it starts, of this shape and with these bytes as its image.
fn memory_with(alloc: Global, shape: MemShape, image: &[u8]) -> Result<Mem, LoadFault>
    requires shape { IsMemoryShape shape }
    ensures loaded { IfOk result (λ m. m ≡ memory_of shape image.now) }
    ensures fits { IfOk result (λ m. length image.now ≤ shape.size) }
    ensures refused { (fault : ImageFault) → result ≡ Err (LoadFault.Refused fault) → image_fault shape image.now ≡ Some fault }
{
    let mut memory = match Mem::new(alloc, shape.base, shape.size) {
        Ok(memory) => memory,
        Err(_) => return Err(LoadFault::NoMemory),
    };
    match load_raw(image, &mut memory) {
        Ok(()) => Ok(memory),
        Err(ImageRefusal::TooLong { .. }) => Err(LoadFault::Refused(ImageFault::TooLong)),
        Err(ImageRefusal::Outside { addr }) => {
            Err(LoadFault::Refused(ImageFault::Outside { addr }))
        }
        Err(_) => unreachable!(),
    }
}

/// The tree of the core of a configuration, read from the text that the plug-ins build.
pub fn own_tree(
    alloc: Global,
    config: &Config,
    plugs: &mut Vec<Box<dyn Plugin>>,
) -> Result<Checked, CallEnd>
    requires config { IsConfig config.now }
    requires few { length plugs.old.items < 2 ^ 32 }
    ensures checked { IfOk result (λ c. IsChecked c) }
    ensures core { IfOk result (λ c. IsTreeOfCore (boxes_of ⟦<dyn Plugin as Plugin>⟧ plugs.old plugs.new) config.now c.tree) }
    ensures ends { IfErr result (λ e. IsJudged (boxes_of ⟦<dyn Plugin as Plugin>⟧ plugs.old plugs.new) config.now e) }
    ensures kept { KeepKinds (boxes_of ⟦<dyn Plugin as Plugin>⟧ plugs.old plugs.new) }
{
    let ports = match own_text(alloc, config, plugs) {
        Ok(ports) => ports,
        Err(end) => return Err(end),
    };
    match load_own(alloc, ports.text()) {
        Ok(checked) => Ok(checked),
        Err(_) => Err(CallEnd::OutOfMemory),
    }
}

/// The tree of a text that is read and sound, so that memory alone can be wanting.
fn load_own(alloc: Global, text: &[u8]) -> Result<Checked, AllocError>
    requires is_read { (t : Tree) × IsLoadable text.now t }
    ensures checked { IfOk result (λ c. IsChecked c) }
    ensures reads { IfOk result (λ c. Reads text.now c.tree) }
{
    match load_text(alloc, text) {
        Ok(checked) => Ok(checked),
        Err(refusal) => match refusal {
            TextRefusal::NoMemory => Err(AllocError),
            _ => unreachable!(),
        },
    }
}

/// The text of the core of a configuration, on ports of its own. They have room for it, so that memory alone can be wanting.
fn own_text(
    alloc: Global,
    config: &Config,
    plugs: &mut Vec<Box<dyn Plugin>>,
) -> Result<TextPorts, CallEnd>
    requires config { IsConfig config.now }
    requires few { length plugs.old.items < 2 ^ 32 }
    ensures text { IfOk result (λ h. IsCoreText (boxes_of ⟦<dyn Plugin as Plugin>⟧ plugs.old plugs.new) config.now h.texts.main) }
    ensures ends { IfErr result (λ e. IsJudged (boxes_of ⟦<dyn Plugin as Plugin>⟧ plugs.old plugs.new) config.now e) }
    ensures kept { KeepKinds (boxes_of ⟦<dyn Plugin as Plugin>⟧ plugs.old plugs.new) }
{
    let mut ports = match TextPorts::new(alloc) {
        Ok(ports) => ports,
        Err(_) => return Err(CallEnd::OutOfMemory),
    };
    match generate(alloc, config, plugs, &mut ports) {
        Ok(()) => Ok(ports),
        Err(GenRefusal::Rules { refusal }) => Err(CallEnd::RulesRefused(refusal)),
        Err(GenRefusal::WriteFault) => {
            let _ = ports.text();
            unreachable!()
        }
        Err(GenRefusal::NoMemory) => Err(CallEnd::OutOfMemory),
    }
}

/// Runs a core over this memory with these options, and pushes the run's text on the main port: the lines of its events
/// where they are wanted, and else its host text.
pub fn simulate<H: Host>(
    alloc: Global,
    checked: &Checked,
    memory: Mem,
    options: Options,
    host: &mut H,
) -> CallEnd
    requires checked { IsChecked checked.now }
    requires ports { HasCorePorts (plain_tree checked.now.tree) }
    requires spans { All IsSpan options.irqs.items }
    ensures ends { IsSimulated (plain_tree checked.now.tree) memory options (H.pushed host.old Main) (H.pushed host.new Main)
        (H.write_faults host.old) (H.write_faults host.new) result }
    ensures others { (p : Port) → ¬ (p ≡ Main) → H.pushed host.new p ≡ H.pushed host.old p }
    ensures left { (m : ℕ) → H.left host.new m ≡ H.left host.old m }
    ensures files { H.files host.new ≡ H.files host.old }
    ensures numbers { (m : ℕ) → H.given host.old m → H.given host.new m }
    ensures names { (m : ℕ) → H.given host.old m → H.opened host.new m ≡ H.opened host.old m }
    ensures reads { H.read_faults host.old ≤ H.read_faults host.new }
    ensures writes { H.write_faults host.old ≤ H.write_faults host.new }
{
    let delays = match Vec::from_slice(alloc, &[options.wait]) {
        Ok(delays) => delays,
        Err(_) => return CallEnd::OutOfMemory,
    };
    let irqs = match Vec::from_slice(alloc, options.irqs.as_slice()) {
        Ok(irqs) => irqs,
        Err(_) => return CallEnd::OutOfMemory,
    };
    let opts = RunOpts {
        trace: options.trace,
        cycles: options.cycles,
        delays: List::of(delays),
        irqs: List::of(irqs),
    };
    match run_tree(alloc, checked, memory, &opts, host) {
        Ok(Ended::CyclesEnded { events, cycles }) => CallEnd::CyclesEnded { events, cycles },
        Ok(
            Ended::Stopped {
                cause,
                pc,
                events,
                cycles,
            },
        ) => CallEnd::Stopped {
            cause,
            pc,
            events,
            cycles,
        },
        Ok(
            Ended::Exit {
                code,
                events,
                cycles,
            },
        ) => CallEnd::Exited {
            code,
            events,
            cycles,
        },
        Err(SimRefusal::WriteFault) => CallEnd::Unwritten,
        Err(SimRefusal::NoMemory) => CallEnd::OutOfMemory,
        Err(SimRefusal::Breach { .. }) => unreachable!(),
    }
}
