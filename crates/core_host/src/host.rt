ghost use Rattle.std.specs.Prelude.{◌≡◌, ◌≤◌, ◌<◌, ◌⊎◌, ℕ, List, Option, Some, length, take, IfOk, Ok, OnErr};
ghost use Rattle.core_host.specs.declared.host.Port.{Port};
ghost use Rattle.core_host.specs.Outside.{Files, Rose, Appends, Opens, IsMissing, IsNameOf, Pulls};

use thiserror::Error;

/// Where bytes are pushed: `Main` takes what a call makes, `Notes` the line on how it ended.
#[derive(Clone, Copy, Debug, PartialEq, Eq)]
pub enum Port {
    Main,
    Notes,
}

/// A call of the host failed. The host's counts of faults say whether it was a fault.
#[derive(Debug, Drop, Error)]
#[error("a call of the host failed")]
pub struct HostFailed;

/// Named files to pull from, and two ports to push on.
///
/// A host may tell its files, and each port, or not: what is said of their bytes holds where
/// they are told. What is told before a call is told after it, and nothing more.
pub trait Host {
    /// The named files, where they are told.
    ghost files: { Self → Option Files };

    /// What is left of an opened file. It has a meaning where the files are told.
    ghost left: { Self → ℕ → List ℕ };

    /// The numbers that `find` gave, or that `pull` takes.
    ghost given: { Self → ℕ → Type 0 };

    /// The name that a number was given for, where it is told.
    ghost opened: { Self → ℕ → Option (List ℕ) };

    /// The bytes pushed on a port, where they are told.
    ghost pushed: { Self → Port → Option (List ℕ) };

    /// Failures of `find` and `pull`, up to the last `u64`.
    ghost read_faults: { Self → ℕ };

    /// Failures of `push`, up to the last `u64`.
    ghost write_faults: { Self → ℕ };

    /// Opens the first file of this name at its start, and answers its number.
    fn find(&mut self, name: &str) -> Result<u32, HostFailed>
        ensures gave { IfOk result (λ n. given self.new n) }
        ensures begins { IfOk result (λ n. Opens name.now (files self.old) (left self.new n)) }
        // A number is given again only for the name that it was given for.
        ensures again { IfOk result (λ n. given self.old n → opened self.old n ≡ Some name.now) }
        ensures named { IfOk result (λ n. IsNameOf name.now (opened self.new n)) }
        ensures others { (m : ℕ) → ¬ (result ≡ Ok m) → left self.new m ≡ left self.old m }
        ensures cause { OnErr result (Rose (read_faults self.old) (read_faults self.new)
            ⊎ IsMissing name.now (files self.old)) }
        ensures files { files self.new ≡ files self.old }
        ensures numbers { (m : ℕ) → given self.old m → given self.new m }
        ensures names { (m : ℕ) → given self.old m → opened self.new m ≡ opened self.old m }
        ensures ports { (p : Port) → pushed self.new p ≡ pushed self.old p }
        ensures reads { read_faults self.old ≤ read_faults self.new }
        ensures writes { write_faults self.old ≤ write_faults self.new };

    /// Moves bytes from the front of what is left of a file to the front of `into`, and answers
    /// how many. It answers 0 exactly where nothing is left. After a failure it is open what
    /// `into` holds and how much of this file is left.
    fn pull(&mut self, file: u32, into: &mut [u8]) -> Result<usize, HostFailed>
        requires some { 0 < length into.old }
        requires open { given self.old file }
        ensures count { IfOk result (λ k. k ≤ length into.old) }
        ensures bytes { IfOk result (λ k. Pulls (files self.old) (left self.old file)
            (left self.new file) k into.old into.new) }
        ensures others { (m : ℕ) → ¬ (m ≡ file) → left self.new m ≡ left self.old m }
        ensures cause { OnErr result (Rose (read_faults self.old) (read_faults self.new)) }
        ensures files { files self.new ≡ files self.old }
        ensures numbers { (m : ℕ) → given self.old m → given self.new m }
        ensures names { (m : ℕ) → given self.old m → opened self.new m ≡ opened self.old m }
        ensures ports { (p : Port) → pushed self.new p ≡ pushed self.old p }
        ensures reads { read_faults self.old ≤ read_faults self.new }
        ensures writes { write_faults self.old ≤ write_faults self.new };

    /// Appends bytes from the front of `bytes` to a port, and answers how many.
    fn push(&mut self, port: Port, bytes: &[u8]) -> Result<usize, HostFailed>
        requires { 0 < length bytes.now }
        ensures count { IfOk result (λ k. (0 < k) × (k ≤ length bytes.now)) }
        ensures bytes { IfOk result (λ k. Appends (pushed self.old port) (take k bytes.now)
            (pushed self.new port)) }
        ensures failed { OnErr result (pushed self.new port ≡ pushed self.old port) }
        ensures cause { OnErr result (Rose (write_faults self.old) (write_faults self.new)) }
        ensures others { (p : Port) → ¬ (p ≡ port) → pushed self.new p ≡ pushed self.old p }
        ensures left { (m : ℕ) → left self.new m ≡ left self.old m }
        ensures files { files self.new ≡ files self.old }
        ensures numbers { (m : ℕ) → given self.old m → given self.new m }
        ensures names { (m : ℕ) → given self.old m → opened self.new m ≡ opened self.old m }
        ensures reads { read_faults self.old ≤ read_faults self.new }
        ensures writes { write_faults self.old ≤ write_faults self.new };
}
