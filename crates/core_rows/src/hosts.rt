use core_host::{List, MemFile, MemHost, Name};
use core_tool::{Status, core_main};
use plug_alu::Alu;
use plug_api::Plugin;
use plug_branch::Branch;
use plug_csr::Csr;
use plug_dbus::Dbus;
use plug_decoder::Decoder;
use plug_fencei::Fencei;
use plug_fetch::Fetch;
use plug_hazard::Hazard;
use plug_icache::Icache;
use plug_muldiv::Muldiv;
use plug_predict::Predict;
use plug_regfile::RegFile;
use plug_shift::{ShiftBarrel, ShiftLight};
use plug_srl::Srl;
use std::alloc::{AllocError, Global};

/// The room of each port, in bytes.
pub const ROOM: u32 = 33_554_432;

/// A file of that name.
fn file(alloc: Global, name: &str, bytes: &[u8]) -> Result<MemFile, AllocError> {
    Ok(MemFile {
        name: Name::of(String::from_str(alloc, name)?),
        bytes: List::of(Vec::from_slice(alloc, bytes)?),
    })
}

/// A host that holds a configuration as the file `c` and an image as the file `i`.
pub fn host(
    alloc: Global,
    config: &[u8],
    image: &[u8],
    fails: &[u32],
    bite: u32,
) -> Result<MemHost, AllocError> {
    host_with_room(alloc, config, image, fails, (bite, ROOM))
}

/// The same: how many bytes a call moves, and the room of each port.
pub fn host_with_room(
    alloc: Global,
    config: &[u8],
    image: &[u8],
    fails: &[u32],
    (bite, room): (u32, u32),
) -> Result<MemHost, AllocError> {
    let first = file(alloc, "c", config)?;
    let files = vec![in alloc; first, file(alloc, "i", image)?]?;
    MemHost::new(alloc, files, Vec::from_slice(alloc, fails)?, bite, room)
}

/// Words in a row, with a space between any two.
pub fn words(alloc: Global, text: &str) -> Result<Vec<String>, AllocError> {
    let mut words = Vec::new(alloc);
    for word in text.split(' ') {
        words.push(String::from_str(alloc, word)?)?;
    }
    Ok(words)
}

/// Plug-ins of the kinds of the smallest core.
fn add_small(alloc: Global, plugs: &mut Vec<Box<dyn Plugin>>) -> Result<(), AllocError> {
    plugs.push(Box::new(alloc, Fetch::new(alloc)?)?)?;
    plugs.push(Box::new(alloc, Decoder::new(alloc)?)?)?;
    plugs.push(Box::new(alloc, RegFile::new(alloc)?)?)?;
    plugs.push(Box::new(alloc, Hazard::new(alloc)?)?)?;
    plugs.push(Box::new(alloc, Alu::new(alloc)?)?)?;
    Ok(())
}

/// Plug-ins of the other kinds, and the one for SRL alone.
fn add_others(alloc: Global, plugs: &mut Vec<Box<dyn Plugin>>) -> Result<(), AllocError> {
    plugs.push(Box::new(alloc, Branch::new(alloc)?)?)?;
    plugs.push(Box::new(alloc, Predict::new(alloc)?)?)?;
    plugs.push(Box::new(alloc, ShiftLight::new(alloc)?)?)?;
    plugs.push(Box::new(alloc, ShiftBarrel::new(alloc)?)?)?;
    plugs.push(Box::new(alloc, Muldiv::new(alloc)?)?)?;
    plugs.push(Box::new(alloc, Dbus::new(alloc)?)?)?;
    plugs.push(Box::new(alloc, Csr::new(alloc)?)?)?;
    plugs.push(Box::new(alloc, Icache::new(alloc)?)?)?;
    plugs.push(Box::new(alloc, Fencei::new(alloc)?)?)?;
    plugs.push(Box::new(alloc, Srl::new(alloc)?)?)?;
    Ok(())
}

/// The end of the call with these words, with a plug-in of each kind that there is, and the one for SRL alone.
pub fn end_of(
    alloc: Global,
    words: &Vec<String>,
    host: &mut MemHost,
) -> Result<Status, AllocError> {
    let mut plugs: Vec<Box<dyn Plugin>> = Vec::new(alloc);
    add_small(alloc, &mut plugs)?;
    add_others(alloc, &mut plugs)?;
    if plugs.len() > 15 {
        return Err(AllocError);
    }
    Ok(core_main(alloc, words, &mut plugs, host))
}

/// The text of a configuration: the entries of a core, and then other lines.
pub fn config(alloc: Global, core: &str, lines: &str) -> Result<String, AllocError> {
    let mut text = String::from_str(alloc, core)?;
    text.push_str(lines)?;
    Ok(text)
}
