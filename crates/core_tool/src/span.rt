ghost use Rattle.std.specs.Prelude.{◌≡◌, ◌⊎◌, IfSome};
ghost use Rattle.core_sim.specs.Spans.{IsSpan};
ghost use Rattle.core_tool.specs.Options.{line_number, span_in};

use crate::options::read_number;
use core_sim::IrqSpan;

/// The span of a word LINE@FROM-TO, the value of `--irq`.
pub fn read_span(word: &str) -> Option<IrqSpan>
    ensures span { result ≡ span_in word.now }
    ensures line { IfSome result (λ s. IsSpan s) }
{
    let (name, cycles) = word.split_once('@')?;
    let (from, to) = cycles.split_once('-')?;
    let line = line_number(name)?;
    let from = read_number(from, 0, 4_294_967_295)?;
    let to = read_number(to, 0, 4_294_967_295)?;
    if from <= to {
        Some(IrqSpan { line, from, to })
    } else {
        None
    }
}

/// The number of the interrupt line of this name.
fn line_number(name: &str) -> Option<u32>
    ensures number { result ≡ line_number name.now }
    ensures line { IfSome result (λ n. (n ≡ 3) ⊎ ((n ≡ 7) ⊎ (n ≡ 11))) }
{
    if name == "software" {
        Some(3)
    } else if name == "timer" {
        Some(7)
    } else if name == "external" {
        Some(11)
    } else {
        None
    }
}
