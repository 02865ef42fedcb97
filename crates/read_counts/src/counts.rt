use crate::bench::{Bench, Told};

/// The most cycles of a run.
const CYCLES: u64 = 5_000;

/// The address of the first instruction.
const START: u32 = 0x8000_0000;

/// The reads of so many words from there on are counted each for itself.
const WORDS: u32 = 64;

/// What was seen in a run.
#[derive(Clone, Copy)]
pub(crate) struct Counts {
    /// Accepted instruction reads.
    pub(crate) reads: u64,
    /// The same, of each word.
    times: [u64; 64],
    pub(crate) events: u64,
    pub(crate) cycles: u64,
}

/// The words that were read: how many, their least and greatest address, and how often each was read, at least and at most.
#[derive(Clone, Copy)]
pub(crate) struct Span {
    pub(crate) words: u64,
    pub(crate) first: u32,
    pub(crate) last: u32,
    pub(crate) least: u64,
    pub(crate) most: u64,
}

impl Counts {
    /// What is seen of a core from cycle 0 on, until a trap stops it or its cycles have passed.
    pub(crate) fn of(bench: &mut Bench) -> Counts {
        let mut counts = Counts {
            reads: 0,
            times: [0; 64],
            events: 0,
            cycles: 0,
        };
        for number in 0..CYCLES {
            let told = bench.cycle(number);
            counts.count(told);
            counts.cycles = number + 1;
            if told.event == Some(3) {
                break;
            }
        }
        counts
    }

    /// Counts a cycle's read and event.
    fn count(&mut self, told: Told) {
        if let Some(addr) = told.read {
            self.reads = self.reads.saturating_add(1);
            let place = addr.wrapping_sub(START) / 4;
            if place < WORDS {
                self.times[place as usize] = self.times[place as usize].saturating_add(1);
            }
        }
        if told.event.is_some() {
            self.events = self.events.saturating_add(1);
        }
    }

    /// Which words were read.
    pub(crate) fn span(&self) -> Span {
        let mut span = Span {
            words: 0,
            first: 0,
            last: 0,
            least: 0,
            most: 0,
        };
        for place in 0..WORDS {
            let times = self.times[place as usize];
            if times > 0 {
                span.add(START + 4 * place, times);
            }
        }
        span
    }
}

impl Span {
    /// Adds a word behind the others.
    fn add(&mut self, addr: u32, times: u64) {
        if self.words == 0 {
            self.first = addr;
            self.least = times;
        }
        self.words = self.words.saturating_add(1);
        self.last = addr;
        self.least = self.least.min(times);
        self.most = self.most.max(times);
    }
}
