use crate::bus::Bus;
use crate::kinds::stand_for;
use part_alone::Stand;
use std::alloc::{AllocError, Global};

/// A part under test, with its bus.
#[derive(Drop)]
pub struct Lab {
    stand: Stand,
    bus: Bus,
}

/// The places of the bus of instructions, and of the data bus.
const WORDS: (usize, usize, usize) = (2, 0, 1);

const DATA: (usize, usize, usize) = (6, 2, 4);

impl Lab {
    /// The part of a kind with a parameter.
    pub fn new(alloc: Global, kind: &str, key: &str, value: &str) -> Result<Lab, AllocError> {
        let stand = stand_for(alloc, kind, key, value)?;
        let places = if stand.fetches { WORDS } else { DATA };
        let bus = Bus {
            places,
            wait: 0,
            key: 0,
            fault: 0,
            stood: 0,
            owes: false,
            owed: 0,
            address: 0,
        };
        Ok(Lab { stand, bus })
    }

    /// How much it made in each of its two calls.
    pub fn makes(&self, alloc: Global) -> Result<String, AllocError> {
        let (early, late) = self.stand.made;
        format!(in alloc; " makes {early} {late}")
    }

    /// A line of this first word and these numbers, of the bus or of cycles: what is shown behind it.
    pub fn step(
        &mut self,
        alloc: Global,
        word: &str,
        numbers: &[u64],
    ) -> Result<String, AllocError> {
        let mut text = String::new(alloc);
        if numbers.len() < 3 {
            return Ok(text);
        }
        if word == "bus" || word == "reset" {
            self.bus.set(numbers[0], numbers[1], numbers[2]);
            if word == "reset" {
                self.bus.reset(&mut self.stand.bench);
            }
            return Ok(text);
        }
        self.put(&numbers[2..]);
        self.run(alloc, &mut text, numbers[0])?;
        self.show(alloc, &mut text, numbers[1])?;
        Ok(text)
    }

    /// Sets the inputs, in order, and behind them the interrupt lines, which are inputs of the core.
    fn put(&mut self, numbers: &[u64]) {
        for k in 0..numbers.len() {
            if k < self.stand.ins.len() {
                self.stand.bench.set(self.stand.ins[k], numbers[k]);
            } else {
                let line = (k - self.stand.ins.len()).saturating_add(10);
                self.stand.bench.set_input(line, numbers[k]);
            }
        }
    }

    /// An output: in the last cycle, or of Fetch in the next one.
    fn see(&self, place: usize) -> u64 {
        if place >= self.stand.outs.len() {
            return 0;
        }
        let net = self.stand.outs[place];
        if self.stand.fetches {
            return self.stand.bench.held(net);
        }
        self.stand.bench.read(net)
    }

    /// Cycles until the first output is 1, or so many. What Fetch is asked is asked in the first of them.
    fn run(&mut self, alloc: Global, text: &mut String, most: u64) -> Result<(), AllocError> {
        let mut cycles = most;
        for k in 0..most {
            let taken = self.bus.cycle(&mut self.stand.bench);
            if self.stand.fetches {
                self.put(&[0, 0, 0, 0]);
            } else if taken {
                self.write_command(alloc, text)?;
            }
            if self.see(0) == 1 {
                cycles = k + 1;
                break;
            }
        }
        text.push_str(" =")?;
        if self.stand.fetches {
            return Ok(());
        }
        write(alloc, text, cycles)
    }

    /// Writes the command that the data bus took.
    fn write_command(&self, alloc: Global, text: &mut String) -> Result<(), AllocError> {
        let bench = &self.stand.bench;
        if bench.output(3) == 0 {
            text.push_str(" reads")?;
            return write(alloc, text, bench.output(4));
        }
        text.push_str(" writes")?;
        write(alloc, text, bench.output(4))?;
        write(alloc, text, bench.output(5))?;
        write(alloc, text, bench.output(6))
    }

    /// Writes the outputs of a set.
    fn show(&self, alloc: Global, text: &mut String, set: u64) -> Result<(), AllocError> {
        let mut rest = set;
        for k in 0..self.stand.outs.len() {
            if rest % 2 == 1 {
                write(alloc, text, self.see(k))?;
            }
            rest /= 2;
        }
        Ok(())
    }
}

/// Writes a number behind a space.
fn write(alloc: Global, text: &mut String, number: u64) -> Result<(), AllocError> {
    let made = format!(in alloc; " {number:x}")?;
    text.push_str(made.as_str())
}
