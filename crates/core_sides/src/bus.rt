use std::alloc::{AllocError, Global};

/// ADDI x0, x0, 0.
const NOP: u64 = 0x13;

/// A bus of instructions that waits for 0 to 3 cycles before each command and each response, as a number says. The inputs that it
/// does not drive are bits of that number too.
#[derive(Drop)]
pub(crate) struct Bus<'a> {
    /// At most 16 words, the first at each multiple of 64.
    words: &'a [u32],
    number: u64,
    /// How many more cycles it waits.
    pause: u64,
    /// The address whose word is owed.
    owed: Option<u64>,
    /// Whether it answers with errors.
    fails: bool,
}

/// The next number of a linear congruence.
fn next_number(number: u64) -> u64 {
    number
        .wrapping_mul(6_364_136_223_846_793_005)
        .wrapping_add(1_442_695_040_888_963_407)
}

/// A bit as a number.
fn bit(is: bool) -> u64 {
    if is { 1 } else { 0 }
}

impl Bus<'_> {
    /// A bus with these words.
    pub(crate) fn new(words: &[u32]) -> Bus<'_> {
        Bus {
            words,
            number: 1,
            pause: 0,
            owed: None,
            fails: false,
        }
    }

    /// From now on it answers with errors.
    pub(crate) fn fail(&mut self) {
        self.fails = true;
    }

    /// The word at an address.
    fn word(&self, addr: u64) -> u64 {
        match self.words.get(((addr >> 2) & 15) as usize) {
            Some(word) => u64::from(*word),
            None => NOP,
        }
    }

    /// The inputs of a core in this cycle, in the order of the ports.
    pub(crate) fn inputs(&self, alloc: Global, reset: bool) -> Result<Vec<u64>, AllocError> {
        let bits = self.number >> 40;
        let ready = self.owed.is_none() && self.pause == 0;
        let valid = self.owed.is_some() && self.pause == 0;
        let data = match self.owed {
            Some(addr) => self.word(addr),
            None => self.number >> 32,
        };
        let ins = vec![in alloc;
            0,
            bit(reset),
            bit(ready),
            bit(valid),
            bit(self.fails),
            data,
            (bits >> 3) & 1,
            (bits >> 4) & 1,
            (bits >> 5) & 1,
            bits & 0xff_ffff,
            (bits >> 6) & 1,
            (bits >> 7) & 1,
            (bits >> 8) & 1,
        ]?;
        Ok(ins)
    }

    /// A cycle passes in which the core had these outputs.
    pub(crate) fn step(&mut self, reset: bool, outs: &[u64]) {
        self.number = next_number(self.number);
        if reset {
            self.owed = None;
        } else if self.pause > 0 {
            self.pause -= 1;
        } else {
            self.pass(outs);
        }
    }

    /// A command is accepted where none is owed, or the response is there.
    fn pass(&mut self, outs: &[u64]) {
        self.owed = match (self.owed, outs) {
            (None, [1, addr, ..]) => Some(*addr),
            (None, _) => return,
            (Some(_), _) => None,
        };
        self.pause = (self.number >> 60) & 3;
    }
}
