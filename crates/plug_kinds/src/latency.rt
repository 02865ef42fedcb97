ghost use Rattle.std.specs.Prelude.{◌≡◌, ◌<◌, pos, None};
ghost use Rattle.plug_kinds.specs.Kinds.{given_or, number_of, value_of, fault_of, latency_of};

use crate::Kind;
use stage_map::{Param, ParamValue};

/// The number that a value is; 0 where it is none.
fn number_of(value: &ParamValue) -> u64
    ensures { result ≡ number_of value.now }
{
    match value {
        ParamValue::Num(n) => {
            if *n < 0 {
                return 0;
            }
            *n as u64
        }
        ParamValue::Flag(_) => 0,
        ParamValue::Word(_) => 0,
    }
}

/// The number that is given for a key, or else the default.
pub(crate) fn number_in(params: &[Param], key: &'static str, default: u32) -> u64
    ensures { result ≡ number_of (given_or (ParamValue.Num (pos default)) params.now key.now) }
{
    for param in params {
        if param.key.is(key) {
            return number_of(&param.value);
        }
    }
    u64::from(default)
}

/// The delay of a cache by its lines and the words of a line.
#[tactic(auto, using(crate::proofs::Bounds::lines_most, crate::proofs::Bounds::words_most))]
fn icache_latency(params: &[Param]) -> (u32, u32)
    requires { fault_of Kind.Icache params.now ≡ None }
    ensures { result ≡ latency_of Kind.Icache params.now }
{
    let lines = number_in(params, "lines", 64) as u32;
    let words = number_in(params, "words", 8) as u32;
    (lines + 4 * words + 12, 4 * words + 4)
}

/// The delay of multiplication and division by how many bits they do in a cycle.
#[tactic(auto, using(crate::proofs::Bounds::unroll_least, crate::proofs::Bounds::unroll_most))]
fn muldiv_latency(params: &[Param]) -> (u32, u32)
    requires { fault_of Kind.Muldiv params.now ≡ None }
    ensures { result ≡ latency_of Kind.Muldiv params.now }
{
    let unroll = number_in(params, "unroll", 1) as u32;
    (32 / unroll + 4, 0)
}

/// The delay of a kind with these parameters.
pub(crate) fn latency_of(kind: Kind, params: &[Param]) -> (u32, u32)
    requires { fault_of kind params.now ≡ None }
    ensures { result ≡ latency_of kind params.now }
{
    match kind {
        Kind::Fetch => (8, 4),
        Kind::Icache => icache_latency(params),
        Kind::Predict => (0, 0),
        Kind::Fencei => (1, 0),
        Kind::Decoder => (0, 0),
        Kind::Regfile => (0, 0),
        Kind::Hazard => (0, 0),
        Kind::Alu => (1, 0),
        Kind::ShiftLight => (33, 0),
        Kind::ShiftBarrel => (1, 0),
        Kind::Muldiv => muldiv_latency(params),
        Kind::Branch => (1, 0),
        Kind::Dbus => (4, 2),
        Kind::Csr => (2, 0),
    }
}
