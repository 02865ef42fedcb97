ghost use Rattle.std.specs.Prelude.{◌≡◌, ◌≤◌, ◌<◌, ◌+◌, ◌^◌, ◌⊎◌, ℕ, List, Err, length, IfOk, OnOk, OnErr};
ghost use Rattle.core_host.specs.declared.host.Port.{Port};
ghost use Rattle.core_host.specs.Outside.{Rose, Appends, IsCut, IsMissing, IsRead, IsReadWith, PulledAtMost, SameButOne, Splits, TakesAtMost, IsAtEnd};

use crate::{Host, HostFailed, Port};
use std::alloc::Global;
use thiserror::Error;

/// Why a file was not read.
#[derive(Debug, Drop, Error)]
pub enum ReadEnd {
    /// A count of faults rose, or the host holds no file of that name.
    #[error("the file was not found or not read")]
    Fault,
    #[error("no memory for the bytes of the file")]
    NoMemory,
}

/// Reads the file of that name to its end, or to one byte past the limit. It asks for no more
/// than `limit + 1` bytes in all, so bytes that are longer than the limit are not the whole file.
pub fn read_file<H: Host>(
    alloc: Global,
    host: &mut H,
    name: &str,
    limit: usize,
) -> Result<Vec<u8>, ReadEnd>
    requires { limit < 2 ^ 32 }
    ensures bytes { IfOk result (λ v. IsRead limit name.now (H.files host.old) v.items) }
    ensures short { IfOk result (λ v. length v.items ≤ limit + 1) }
    ensures cause { (result ≡ Err ReadEnd.Fault) → Rose (H.read_faults host.old) (H.read_faults host.new)
        ⊎ IsMissing name.now (H.files host.old) }
    // At most one opened file has changed. Unless the end is a fault, no more than this was pulled.
    ensures pulled { (n : ℕ) × SameButOne n (H.left host.old) (H.left host.new)
        × IfOk result (λ v. H.given host.new n × IsReadWith limit name.now (H.files host.old) v.items (H.left host.new n))
        × ((result ≡ Err ReadEnd.Fault) ⊎ PulledAtMost (limit + 1) name.now (H.files host.old) (H.left host.new n)) }
    ensures missing { IsMissing name.now (H.files host.old) → (result ≡ Err ReadEnd.Fault) × ((m : ℕ)
        → H.left host.new m ≡ H.left host.old m) }
    ensures files { H.files host.new ≡ H.files host.old }
    ensures numbers { (m : ℕ) → H.given host.old m → H.given host.new m }
    ensures names { (m : ℕ) → H.given host.old m → H.opened host.new m ≡ H.opened host.old m }
    ensures ports { (p : Port) → H.pushed host.new p ≡ H.pushed host.old p }
    ensures reads { H.read_faults host.old ≤ H.read_faults host.new }
    ensures writes { H.write_faults host.old ≤ H.write_faults host.new }
{
    match host.find(name) {
        Ok(file) => read_rest(alloc, host, file, limit),
        Err(_) => Err(ReadEnd::Fault),
    }
}

/// Reads what is left of an opened file to its end, or to one byte past the limit.
fn read_rest<H: Host>(
    alloc: Global,
    host: &mut H,
    file: u32,
    limit: usize,
) -> Result<Vec<u8>, ReadEnd>
    requires limit { limit < 2 ^ 32 }
    requires open { H.given host.old file }
    ensures bytes { IfOk result (λ v. Splits (H.files host.old)
        (H.left host.old file) v.items (H.left host.new file)) }
    ensures ends { IfOk result (λ v. length v.items ≤ limit
        → IsAtEnd (H.files host.old) (H.left host.new file)) }
    ensures short { IfOk result (λ v. length v.items ≤ limit + 1) }
    ensures cause { (result ≡ Err ReadEnd.Fault) → Rose (H.read_faults host.old) (H.read_faults host.new) }
    ensures memory { (result ≡ Err ReadEnd.NoMemory) → TakesAtMost (limit + 1) (H.files host.old)
        (H.left host.old file) (H.left host.new file) }
    ensures others { SameButOne file (H.left host.old) (H.left host.new) }
    ensures files { H.files host.new ≡ H.files host.old }
    ensures numbers { (m : ℕ) → H.given host.old m → H.given host.new m }
    ensures names { (m : ℕ) → H.given host.old m → H.opened host.new m ≡ H.opened host.old m }
    ensures ports { (p : Port) → H.pushed host.new p ≡ H.pushed host.old p }
    ensures reads { H.read_faults host.old ≤ H.read_faults host.new }
    ensures writes { H.write_faults host.old ≤ H.write_faults host.new }
{
    let mut read = Vec::new(alloc);
    let mut buffer = [0u8; 4096];
    while read.len() <= limit {
        let ask = (limit + 1 - read.len()).min(4096);
        let count = match host.pull(file, &mut buffer[..ask]) {
            Ok(count) => count,
            Err(_) => return Err(ReadEnd::Fault),
        };
        if count == 0 {
            return Ok(read);
        }
        if read.extend_from_slice(&buffer[..count]).is_err() {
            return Err(ReadEnd::NoMemory);
        }
    }
    Ok(read)
}

/// Pushes all the bytes, or fails after a proper prefix of them. It never pushes an empty slice.
pub fn push_all<H: Host>(host: &mut H, port: Port, bytes: &[u8]) -> Result<(), HostFailed>
    ensures whole { OnOk result (Appends (H.pushed host.old port) bytes.now (H.pushed host.new port)) }
    ensures part { OnErr result (IsCut (H.pushed host.old port) bytes.now (H.pushed host.new port)) }
    ensures cause { OnErr result (Rose (H.write_faults host.old) (H.write_faults host.new)) }
    ensures others { (p : Port) → ¬ (p ≡ port) → H.pushed host.new p ≡ H.pushed host.old p }
    ensures left { (m : ℕ) → H.left host.new m ≡ H.left host.old m }
    ensures files { H.files host.new ≡ H.files host.old }
    ensures numbers { (m : ℕ) → H.given host.old m → H.given host.new m }
    ensures names { (m : ℕ) → H.given host.old m → H.opened host.new m ≡ H.opened host.old m }
    ensures reads { H.read_faults host.old ≤ H.read_faults host.new }
    ensures writes { H.write_faults host.old ≤ H.write_faults host.new }
{
    let mut done = 0;
    while done < bytes.len() {
        done += host.push(port, &bytes[done..])?;
    }
    Ok(())
}
