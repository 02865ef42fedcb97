ghost use Rattle.std.specs.Prelude.{◌≡◌, [], map};
ghost use Rattle.verilog_rules.specs.Collected.{declaration};
ghost use Rattle.verilog_mean.specs.Declarations.{index_width};
ghost use Rattle.verilog_mean.specs.Names.{bad_range, bad_cells, bad_sizes_in};
ghost use Rattle.verilog_rules.specs.First.{first};

use crate::declare::Declared;
use verilog_mean::{Class, MeanRefusal};
use verilog_tree::{Num, Pair};

/// The number of bits of an array's index, 0 where its last index is not allowed.
#[tactic(auto, using(crate::proofs::SizeForms::next_width, crate::proofs::SizeForms::here_width))]
pub fn bits_of_index(last: u32) -> u32
    ensures { result ≡ index_width last }
{
    let cells = u64::from(last) + 1;
    for bits in 1..17u32 {
        if cells == 1u64 << bits {
            return bits;
        }
    }
    0
}

fn refusal(number: Num) -> MeanRefusal
    ensures { result ≡ MeanRefusal.BadSize number.at number.value }
{
    MeanRefusal::BadSize {
        at: number.at,
        found: number.value,
    }
}

fn in_range(range: Option<Pair>) -> Option<MeanRefusal>
    ensures { result ≡ first (bad_range range []) }
{
    let pair = range?;
    if pair.first.value > 63 {
        Some(refusal(pair.first))
    } else if pair.second.value != 0 {
        Some(refusal(pair.second))
    } else {
        None
    }
}

fn in_cells(class: Class) -> Option<MeanRefusal>
    ensures { result ≡ first (bad_cells class []) }
{
    let Class::Array { cells } = class else {
        return None;
    };
    if cells.first.value != 0 {
        Some(refusal(cells.first))
    } else if bits_of_index(cells.second.value) == 0 {
        Some(refusal(cells.second))
    } else {
        None
    }
}

/// Second rule: the first number of a range or of an array's cells that may not stand there.
#[tactic(auto, using(crate::proofs::SizeForms::range_next, crate::proofs::SizeForms::range_here, crate::proofs::SizeForms::cells_next, crate::proofs::SizeForms::cells_here))]
pub fn bad_sizes(all: &[Declared]) -> Option<MeanRefusal>
    ensures { result ≡ first (bad_sizes_in (map declaration all.now)) }
{
    for d in all {
        if let Some(refusal) = in_range(d.shape.range) {
            return Some(refusal);
        }
        if let Some(refusal) = in_cells(d.shape.class) {
            return Some(refusal);
        }
    }
    None
}
