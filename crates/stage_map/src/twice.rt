ghost use Rattle.std.specs.Prelude.{◌≡◌, ◌<◌, length, IfSome};
ghost use Rattle.std.specs.Bool.{Decides};
ghost use Rattle.stage_map.specs.Stages.{IsFirstOf, IsTwice};
ghost use Rattle.stage_map.specs.Search.{IsFirstPair, IsWithin, kept_pair, stays};

use crate::PlugUse;
use crate::search::{keep_first, same_name, use_at};

/// The places of two writes of one key, by two entries.
#[derive(Clone, Copy)]
pub struct Pair {
    pub at: usize,
    pub other: usize,
}

/// Whether two uses write one key, the second by a later entry.
fn is_twice(uses: &[PlugUse], i: usize, j: usize) -> bool
    requires first { i < length uses.now }
    requires second { j < length uses.now }
    ensures { Decides result (IsTwice uses.now i j) }
{
    let a = use_at(uses, i);
    let b = use_at(uses, j);
    a.at.writes && b.at.writes && a.entry < b.entry && same_name(&b.at.key.name, &a.at.key.name)
}

/// The first write of the key of the use at `i` by a later entry.
fn other_write(uses: &[PlugUse], i: usize) -> Option<usize>
    requires { i < length uses.now }
    ensures { IsFirstOf uses.now (IsTwice uses.now i) (length uses.now) result }
{
    let mut best = None;
    for j in 0..uses.len() {
        let twice = is_twice(uses, i, j);
        best = keep_first(uses, best, j, twice);
    }
    best
}

/// Whether the pair's entries are no greater than those of the uses at `i` and `j`.
fn stays(uses: &[PlugUse], pair: Pair, i: usize, j: usize) -> bool
    requires at { pair.at < length uses.now }
    requires other { pair.other < length uses.now }
    requires first { i < length uses.now }
    requires second { j < length uses.now }
    ensures { result ≡ stays uses.now pair i j }
{
    let a = use_at(uses, pair.at).entry;
    let b = use_at(uses, pair.other).entry;
    let c = use_at(uses, i).entry;
    let d = use_at(uses, j).entry;
    a < c || (a == c && b <= d)
}

/// Of the pair found so far and the use at `i` with the first other write of its key, the first.
fn keep_pair(uses: &[PlugUse], best: Option<Pair>, i: usize, other: Option<usize>) -> Option<Pair>
    requires here { i < length uses.now }
    requires found { IsWithin uses.now best }
    requires other { IfSome other (λ j. j < length uses.now) }
    ensures { result ≡ kept_pair uses.now best i other }
{
    let Some(j) = other else {
        return best;
    };
    match best {
        Some(pair) => {
            if stays(uses, pair, i, j) {
                Some(pair)
            } else {
                Some(Pair { at: i, other: j })
            }
        }
        None => Some(Pair { at: i, other: j }),
    }
}

/// The first pair of writes of one key by two entries.
pub fn first_pair(uses: &[PlugUse]) -> Option<Pair>
    ensures { IsFirstPair uses.now (length uses.now) result }
{
    let mut best = None;
    for i in 0..uses.len() {
        let other = other_write(uses, i);
        best = keep_pair(uses, best, i, other);
    }
    best
}
