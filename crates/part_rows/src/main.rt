//! The program: steps the part of one plug-in at a time by `hw_cycle`, as the lines of standard input say, and writes each line with what
//! the part shows. All numbers are hexadecimal, but for those of parameters.
//!
//! - `part KIND KEY VALUE` has the plug-in of a kind with a parameter, or with none, build alone, and shows how much each of its two calls
//!   made. `part decoder ROWS` is the decoder of those rows of the table of which the number has the bit.
//! - `reset WAIT KEY FAULT` resets the part. Its bus lets each command wait for so many cycles, and then the response. The word at an
//!   address is the address with the bits of the key turned over, and that at FAULT is an error. `bus WAIT KEY FAULT` has the bus answer
//!   so from then on, with no reset.
//! - Any other line has a name, a greatest number of cycles, a set of outputs, and what the inputs take: those of the services in the
//!   order of their ports, and then the interrupt lines. Others stay as they are. The part is stepped until its first output is 1.
//!   Commands on the data bus are shown, in how many cycles the part was done, and the outputs of the set. Inputs of Fetch are 0 again
//!   behind the first cycle, and its outputs are those of the cycle to come.
#![tactic(auto)]

mod bus;
mod kinds;
mod lab;

use crate::lab::Lab;
use std::alloc::{AllocError, Global};
use std::io;

fn main(rt: HostRuntime) -> io::Result<()> {
    let mut lab = None;
    for line in rt.lines(rt.alloc()) {
        let line = line?;
        let shown = obey(rt.alloc(), &mut lab, line.as_str())?;
        println!(rt; "{line}{shown}")?;
    }
    Ok(())
}

/// What is shown behind a line.
fn obey(alloc: Global, lab: &mut Option<Lab>, line: &str) -> Result<String, AllocError> {
    let Some((first, rest)) = line.split_once(' ') else {
        return Ok(String::new(alloc));
    };
    if first == "part" {
        let mut words = rest.split(' ');
        let kind = words.next().unwrap_or("");
        let key = words.next().unwrap_or("");
        let made = Lab::new(alloc, kind, key, words.next().unwrap_or(""))?;
        let shown = made.makes(alloc);
        *lab = Some(made);
        return shown;
    }
    let numbers = numbers(alloc, rest)?;
    match lab {
        Some(lab) => lab.step(alloc, first, numbers.as_slice()),
        None => Err(AllocError),
    }
}

/// The numbers among words.
fn numbers(alloc: Global, words: &str) -> Result<Vec<u64>, AllocError> {
    let mut numbers = Vec::new(alloc);
    for word in words.split(' ') {
        if let Ok(number) = u64::from_str_radix(word, 16) {
            numbers.push(number)?;
        }
    }
    Ok(numbers)
}
