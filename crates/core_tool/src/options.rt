ghost use Rattle.std.specs.Prelude.{◌≡◌, All, IfSome, Some, map, string_bytes};
ghost use Rattle.std.specs.Str.{all_ascii_digits};
ghost use Rattle.core_tool.specs.Options.{number_in, named, options_behind, options_of, settled_for, taken, taken_for};
ghost use Rattle.core_sim.specs.Spans.{IsSpan};
ghost use Rattle.core_tool.specs.declared.options.Number.TheVariants.{Irq};

use crate::span::read_span;
use arrayvec::ArrayVec;
use core_sim::IrqSpan;

/// The options of a run.
#[derive(Debug, Drop)]
pub struct Options {
    /// Whether the lines of its events are written.
    pub trace: bool,
    /// The most cycles, from 1 to 100,000,000.
    pub cycles: u64,
    /// By how many cycles both buses answer late, from 0 to 1000.
    pub wait: u32,
    /// When its interrupt lines are 1, in the order of the words.
    pub irqs: ArrayVec<IrqSpan, 16>,
}

/// What the words so far say of the options.
#[derive(Debug, Drop)]
pub struct Found {
    trace: bool,
    cycles: Option<u64>,
    wait: Option<u32>,
    irqs: ArrayVec<IrqSpan, 16>,
    /// The option whose number or span is to be the next word.
    awaited: Option<Number>,
}

/// An option with a number, or with a span.
#[derive(Clone, Copy, Debug, PartialEq, Eq)]
pub enum Number {
    Cycles,
    Wait,
    Irq,
}

impl Options {
    /// The options that these words give, in any order, each but `--irq` at most once, and that at most 16 times.
    pub fn of(words: &[String]) -> Option<Options>
        ensures options { result ≡ options_of (map string_bytes words.now) }
        ensures spans { IfSome result (λ o. All IsSpan o.irqs.items) }
    {
        let mut found = Found {
            trace: false,
            cycles: None,
            wait: None,
            irqs: ArrayVec::new(),
            awaited: None,
        };
        for word in words {
            found = found.take(word.as_str())?;
        }
        found.options()
    }
}

impl Found {
    /// What is found with a further word: the number that is awaited, or the name of an option.
    fn take(self, word: &str) -> Option<Found>
        ensures found { result ≡ taken self word.now }
        ensures spans { IfSome result (λ f. All IsSpan self.irqs.items → All IsSpan f.irqs.items) }
    {
        match self.awaited {
            None => self.take_name(word),
            Some(Number::Irq) => self.take_span(word),
            Some(Number::Cycles) => {
                let cycles = read_number(word, 1, 100_000_000)?;
                Some(Found {
                    cycles: Some(cycles),
                    awaited: None,
                    ..self
                })
            }
            Some(Number::Wait) => {
                let wait = read_number(word, 0, 1000)?;
                Some(Found {
                    wait: Some(wait as u32),
                    awaited: None,
                    ..self
                })
            }
        }
    }

    /// What is found with a further span.
    fn take_span(self, word: &str) -> Option<Found>
        ensures found { result ≡ taken_for (Some Irq) self word.now }
        ensures spans { IfSome result (λ f. All IsSpan self.irqs.items → All IsSpan f.irqs.items) }
    {
        if self.irqs.len() > 15 {
            return None;
        }
        let span = read_span(word)?;
        let mut found = self;
        found.irqs.push(span);
        found.awaited = None;
        Some(found)
    }

    /// What is found with the name of an option, which, but for `--irq`, was not named before.
    fn take_name(self, word: &str) -> Option<Found>
        ensures found { result ≡ named self word.now }
        ensures spans { IfSome result (λ f. f.irqs ≡ self.irqs) }
    {
        if word == "--trace" && !self.trace {
            return Some(Found {
                trace: true,
                ..self
            });
        }
        if word == "--cycles" && self.cycles.is_none() {
            return Some(Found {
                awaited: Some(Number::Cycles),
                ..self
            });
        }
        if word == "--wait" && self.wait.is_none() {
            return Some(Found {
                awaited: Some(Number::Wait),
                ..self
            });
        }
        if word == "--irq" {
            return Some(Found {
                awaited: Some(Number::Irq),
                ..self
            });
        }
        None
    }

    /// The options, with what stands for those that are not named. There are none while a number is awaited.
    fn options(self) -> Option<Options>
        ensures options { result ≡ settled_for self.awaited self }
        ensures spans { IfSome result (λ o. o.irqs ≡ self.irqs) }
    {
        match self.awaited {
            None => Some(Options {
                trace: self.trace,
                cycles: self.cycles.unwrap_or(1_000_000),
                wait: self.wait.unwrap_or(0),
                irqs: self.irqs,
            }),
            Some(_) => None,
        }
    }
}

/// The number of a word of one to ten decimal digits, where it is in this range.
pub fn read_number(word: &str, least: u64, most: u64) -> Option<u64>
    ensures { result ≡ number_in least most word.now }
{
    if word.is_empty() || word.len() > 10 || !are_digits(word.as_bytes()) {
        return None;
    }
    let Ok(number) = word.parse::<u64>() else {
        unreachable!();
    };
    if least <= number && number <= most {
        Some(number)
    } else {
        None
    }
}

/// Whether all bytes are decimal digits.
fn are_digits(bytes: &[u8]) -> bool
    ensures { result ≡ all_ascii_digits bytes.now }
{
    for byte in bytes {
        if !byte.is_ascii_digit() {
            return false;
        }
    }
    true
}
