ghost use Rattle.std.specs.Prelude.{◌≡◌, ◌≤◌};
ghost use Rattle.plug_icache.specs.Sizes.{log_of};

/// The logarithm of a power of two from 2 to 1024.
#[tactic(auto, unfolding(crate::specs::Sizes::log_of))]
pub(crate) fn log_of(n: u64) -> u32
    ensures is { result ≡ log_of n }
    ensures least { 1 ≤ result }
    ensures most { result ≤ 10 }
{
    if n <= 2 {
        return 1;
    }
    if n <= 4 {
        return 2;
    }
    if n <= 8 {
        return 3;
    }
    if n <= 16 {
        return 4;
    }
    if n <= 32 {
        return 5;
    }
    if n <= 64 {
        return 6;
    }
    if n <= 128 {
        return 7;
    }
    if n <= 256 {
        return 8;
    }
    if n <= 512 {
        return 9;
    }
    10
}
