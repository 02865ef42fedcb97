//! The program: writes one of the sample modules on standard output, or writes the small one and tries both.
#![tactic(auto)]

mod draft;
mod drivers;
mod few;
mod many;
mod nodes;
mod sample;
mod tries;

ghost use Rattle.std.specs.Prelude.{◌≤◌, IfOk};
ghost use Rattle.hw_module.specs.Checked.{IsChecked};
ghost use Rattle.module_netlist.specs.Written.{thing_count};

use crate::few::small;
use crate::many::large;
use crate::sample::{Sample, SampleRefusal};
use crate::tries::try_all;
use core_host::{Host, RealHost};
use std::alloc::Global;
use std::env::{self, Env};
use std::io;
use std::process::ExitCode;
use verilog_write::{WriteRefusal, write_module};

/// Which module to write.
#[derive(Clone, Copy, Debug, PartialEq, Eq)]
enum Choice {
    Small,
    Large,
}

/// What to do.
#[derive(Clone, Copy, Debug, PartialEq, Eq)]
enum Task {
    Write(Choice),
    Try,
}

fn main(rt: HostRuntime) -> ExitCode {
    let alloc = rt.alloc();
    let task = match asked(&rt) {
        Ok(Some(task)) => task,
        Ok(None) => return ExitCode::from(2),
        Err(_error) => return ExitCode::from(3),
    };
    let mut host = RealHost::new(alloc, rt, rt.stdout(), rt.stderr());
    let status = match task {
        Task::Write(choice) => write(alloc, choice, &mut host),
        Task::Try => match write(alloc, Choice::Small, &mut host) {
            0 => tried(&rt, alloc),
            status => status,
        },
    };
    ExitCode::from(status)
}

/// Tries both modules, and answers the status of the program.
fn tried(rt: &impl Print, alloc: Global) -> u8 {
    match try_all(rt, alloc) {
        Ok(()) => 0,
        Err(_error) => 3,
    }
}

/// What the words of the call ask for: the one word `small`, `large` or `try`.
fn asked<R: Env + Alloc>(rt: &R) -> io::Result<Option<Task>> {
    let mut words = env::args(rt)?.skip(1);
    let found = match words.next() {
        Some(word) => named(word.as_str()),
        None => None,
    };
    match words.next() {
        Some(_word) => Ok(None),
        None => Ok(found),
    }
}

/// The task of a name.
fn named(word: &str) -> Option<Task> {
    match word {
        "small" => Some(Task::Write(Choice::Small)),
        "large" => Some(Task::Write(Choice::Large)),
        "try" => Some(Task::Try),
        _ => None,
    }
}

/// Makes a module.
fn make(alloc: Global, choice: Choice) -> Result<Sample, SampleRefusal>
    ensures checked { IfOk result (λ s. IsChecked s.circuit s.pool) }
    ensures few { IfOk result (λ s. thing_count s.circuit s.pool ≤ 65535) }
{
    match choice {
        Choice::Small => small(alloc),
        Choice::Large => large(alloc),
    }
}

/// Writes a module on the main port, and answers the status of the program.
fn write<H: Host>(alloc: Global, choice: Choice, host: &mut H) -> u8 {
    match make(alloc, choice) {
        Ok(sample) => match write_module(alloc, &sample.circuit, &sample.pool, host) {
            Ok(()) => 0,
            Err(WriteRefusal::WriteFault) => 4,
            Err(WriteRefusal::NoMemory) => 3,
        },
        Err(_refusal) => 3,
    }
}
