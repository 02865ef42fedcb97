ghost use Rattle.std.specs.Prelude.{◌≡◌, ◌≤◌, ℕ, List, Err, IfOk, OnOk};
ghost use Rattle.core_host.specs.declared.host.Port.{Port};
ghost use Rattle.core_host.specs.declared.host.Port.TheVariants.{Main};
ghost use Rattle.core_host.specs.Outside.{Appends, IsCut, Rose};
ghost use Rattle.hw_module.specs.Checked.{DriversFit, IsChecked};
ghost use Rattle.hw_module.specs.Reached.{AreMarks};
ghost use Rattle.module_netlist.specs.Means.{IsModuleText};
ghost use Rattle.module_netlist.specs.Written.{thing_count};
ghost use Rattle.verilog_write.specs.Texts.{IsTextOf};

use crate::{netlist_texts_mean, write_netlist};
use core_host::{Host, Port, push_all};
use hw_module::Module;
use hw_pool::Pool;
use hw_reach::reach;
use std::alloc::{AllocError, Global};
use thiserror::Error;

/// Why a module was not written.
#[derive(Clone, Copy, Debug, PartialEq, Eq, Error)]
pub enum WriteRefusal {
    /// The port did not take all of the text.
    #[error("the module's text was not written")]
    WriteFault,
    /// Memory was refused. Nothing was written.
    #[error("out of memory")]
    NoMemory,
}

/// Writes a checked module on the main port, over the nodes that it reaches. The whole text is made before its first
/// byte is pushed.
///
/// # Errors
/// `WriteFault` where the port took a proper prefix of the text. `NoMemory` where memory was refused: the host is then
/// as it was.
pub fn write_module<H: Host>(
    alloc: Global,
    m: &Module,
    pool: &Pool,
    host: &mut H,
) -> Result<(), WriteRefusal>
    requires checked { IsChecked m.now pool.now }
    requires few { thing_count m.now pool.now ≤ 65535 }
    ensures done { OnOk result ((text : List ℕ) × IsTextOf m.now pool.now.nodes text × IsModuleText m.now pool.now.nodes text
        × Appends (H.pushed host.old Main) text (H.pushed host.new Main)) }
    ensures cut { (result ≡ Err WriteRefusal.WriteFault) → (text : List ℕ) × IsTextOf m.now pool.now.nodes text × IsModuleText m.now pool.now.nodes text
        × IsCut (H.pushed host.old Main) text (H.pushed host.new Main) }
    ensures cause { (result ≡ Err WriteRefusal.WriteFault) → Rose (H.write_faults host.old) (H.write_faults host.new) }
    ensures memory { (result ≡ Err WriteRefusal.NoMemory) → host.new ≡ host.old }
    ensures others { (p : Port) → ¬ (p ≡ Main) → H.pushed host.new p ≡ H.pushed host.old p }
    ensures left { (n : ℕ) → H.left host.new n ≡ H.left host.old n }
    ensures files { H.files host.new ≡ H.files host.old }
    ensures numbers { (n : ℕ) → H.given host.old n → H.given host.new n }
    ensures names { (n : ℕ) → H.given host.old n → H.opened host.new n ≡ H.opened host.old n }
    ensures reads { H.read_faults host.old ≤ H.read_faults host.new }
    ensures writes { H.write_faults host.old ≤ H.write_faults host.new }
{
    match module_text(alloc, m, pool) {
        Ok(text) => match push_all(host, Port::Main, &text) {
            Ok(()) => Ok(()),
            Err(_) => Err(WriteRefusal::WriteFault),
        },
        Err(_) => Err(WriteRefusal::NoMemory),
    }
}

/// The text of a checked module over the nodes that it reaches.
///
/// # Errors
/// `AllocError` where memory was refused.
pub fn module_text(alloc: Global, m: &Module, pool: &Pool) -> Result<Vec<u8>, AllocError>
    requires checked { IsChecked m.now pool.now }
    requires few { thing_count m.now pool.now ≤ 65535 }
    ensures text { IfOk result (λ text. IsTextOf m.now pool.now.nodes text.items) }
    ensures meaning { IfOk result (λ text. IsModuleText m.now pool.now.nodes text.items) }
{
    let marks = reached_nodes(alloc, m, pool)?;
    netlist_texts_mean();
    // Both tell that what they hold is in its ranges.
    let _ = m.wires();
    let _ = pool.live();
    write_netlist(alloc, m, pool, &marks)
}

/// Which nodes a checked module reaches, by their numbers.
fn reached_nodes(alloc: Global, m: &Module, pool: &Pool) -> Result<Vec<bool>, AllocError>
    requires { DriversFit m.now pool.now }
    ensures { IfOk result (λ marks. AreMarks m.now pool.now.nodes marks.items) }
{
    let mut marks = vec![in alloc; false; pool.live() as usize]?;
    reach(m, pool, &mut marks);
    Ok(marks)
}
