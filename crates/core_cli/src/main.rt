//! The program: the calls of `core_tool` over the system's files and standard streams.
#![tactic(auto)]

use core_host::RealHost;
use core_tool::{Status, core_main};
use plug_alu::Alu;
use plug_api::Plugin;
use plug_branch::Branch;
use plug_csr::Csr;
use plug_dbus::Dbus;
use plug_decoder::Decoder;
use plug_fencei::Fencei;
use plug_fetch::Fetch;
use plug_hazard::Hazard;
use plug_icache::Icache;
use plug_muldiv::Muldiv;
use plug_predict::Predict;
use plug_regfile::RegFile;
use plug_shift::{ShiftBarrel, ShiftLight};
use std::alloc::{AllocError, Global};
use std::env::{self, Env};
use std::io::{self, ErrorKind};
use std::process::ExitCode;

fn main(rt: HostRuntime) -> ExitCode {
    let alloc = rt.alloc();
    let status = match words(alloc, &rt) {
        Ok(words) => match answer(alloc, rt, &words) {
            Ok(status) => status,
            Err(_) => Status::NoMemory,
        },
        Err(error) if error.kind() == ErrorKind::OutOfMemory => Status::NoMemory,
        Err(_error) => Status::ReadFault,
    };
    ExitCode::from(status.number())
}

/// One call, with a plug-in of each kind that there is.
fn answer(alloc: Global, rt: HostRuntime, words: &Vec<String>) -> Result<Status, AllocError> {
    let mut plugs: Vec<Box<dyn Plugin>> = Vec::new(alloc);
    plugs.push(Box::new(alloc, Fetch::new(alloc)?)?)?;
    plugs.push(Box::new(alloc, Decoder::new(alloc)?)?)?;
    plugs.push(Box::new(alloc, RegFile::new(alloc)?)?)?;
    plugs.push(Box::new(alloc, Hazard::new(alloc)?)?)?;
    plugs.push(Box::new(alloc, Alu::new(alloc)?)?)?;
    plugs.push(Box::new(alloc, Branch::new(alloc)?)?)?;
    plugs.push(Box::new(alloc, Predict::new(alloc)?)?)?;
    plugs.push(Box::new(alloc, ShiftLight::new(alloc)?)?)?;
    plugs.push(Box::new(alloc, ShiftBarrel::new(alloc)?)?)?;
    plugs.push(Box::new(alloc, Dbus::new(alloc)?)?)?;
    plugs.push(Box::new(alloc, Csr::new(alloc)?)?)?;
    plugs.push(Box::new(alloc, Muldiv::new(alloc)?)?)?;
    plugs.push(Box::new(alloc, Icache::new(alloc)?)?)?;
    plugs.push(Box::new(alloc, Fencei::new(alloc)?)?)?;
    // (it never is: this shows the bound on their number that the call asks for)
    if plugs.len() > 14 {
        return Err(AllocError);
    }
    let mut host = RealHost::new(alloc, rt, rt.stdout(), rt.stderr());
    Ok(core_main(alloc, words, &mut plugs, &mut host))
}

/// The words of the call, without the program's name.
fn words<R: Env + Alloc<A = Global>>(alloc: Global, rt: &R) -> io::Result<Vec<String>> {
    let mut words = Vec::new(alloc);
    for word in env::args(rt)?.skip(1) {
        words.push(word)?;
    }
    Ok(words)
}
