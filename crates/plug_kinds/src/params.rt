ghost use Rattle.std.specs.Prelude.{◌≡◌, ◌⊎◌, pos, cond, Some, None, IfErr, OnOk};
ghost use Rattle.core_words.specs.Names.{same_name};
ghost use Rattle.plug_kinds.specs.Kinds.{row_of, is_of, low_of, high_of, values_of, fault_by, fault_of};
ghost use Rattle.plug_kinds.specs.declared.kind.Values.{Values};

use crate::{Kind, Values};
use core_host::Name;
use plug_api::ParamFault;
use stage_map::{Param, ParamValue, copy_name};
use std::alloc::Global;

/// The values that a parameter may have where it has this key.
fn values_if(key: &Name, known: &'static str, values: Values) -> Option<Values>
    ensures { result ≡ cond (same_name key.now known.now) (Some values) None }
{
    if key.is(known) {
        return Some(values);
    }
    None
}

/// The values that the parameter of the key `lines` or `words` may have.
fn icache_values(key: &Name) -> Option<Values>
    ensures { result ≡ values_of (row_of Kind.Icache).params key.now }
{
    if key.is("lines") {
        return Some(Values::Power { low: 2, high: 1024 });
    }
    values_if(key, "words", Values::Power { low: 2, high: 16 })
}

/// The values that a kind's parameter of this key may have, where there is one.
fn values_of(kind: Kind, key: &Name) -> Option<Values>
    ensures { result ≡ values_of (row_of kind).params key.now }
{
    match kind {
        Kind::Fetch => values_if(key, "depth", Values::Whole { low: 1, high: 4 }),
        Kind::Icache => icache_values(key),
        Kind::Predict => values_if(key, "style", Values::Style),
        Kind::Hazard => values_if(key, "bypass", Values::Truth),
        Kind::Muldiv => values_if(key, "unroll", Values::Power { low: 1, high: 4 }),
        Kind::Fencei => None,
        Kind::Decoder => None,
        Kind::Regfile => None,
        Kind::Alu => None,
        Kind::ShiftLight => None,
        Kind::ShiftBarrel => None,
        Kind::Branch => None,
        Kind::Dbus => None,
        Kind::Csr => None,
    }
}

/// Whether an integer is from `low` to `high`.
fn is_within(low: u32, high: u32, n: i64) -> bool
    ensures { result ≡ is_of (Values.Whole low high) (ParamValue.Num n) }
{
    i64::from(low) <= n && n <= i64::from(high)
}

/// Whether an integer is a power of two from `low` to `high`.
fn is_power_within(low: u32, high: u32, n: i64) -> bool
    ensures { result ≡ is_of (Values.Power low high) (ParamValue.Num n) }
{
    is_within(low, high, n) && (n as u64).is_power_of_two()
}

/// Whether a value is one that a parameter may have.
fn is_of(values: Values, value: &ParamValue) -> bool
    ensures { result ≡ is_of values value.now }
{
    match (values, value) {
        (Values::Whole { low, high }, ParamValue::Num(n)) => is_within(low, high, *n),
        (Values::Power { low, high }, ParamValue::Num(n)) => is_power_within(low, high, *n),
        (Values::Truth, ParamValue::Flag(_)) => true,
        (Values::Style, ParamValue::Word(word)) => word.is("next") || word.is("static"),
        _ => false,
    }
}

/// The least and the greatest number that a parameter may have; 0 and 0 where it has no number.
fn bounds_of(values: Values) -> (u32, u32)
    ensures low { result.0 ≡ low_of values }
    ensures high { result.1 ≡ high_of values }
{
    match values {
        Values::Whole { low, high } => (low, high),
        Values::Power { low, high } => (low, high),
        Values::Truth => (0, 0),
        Values::Style => (0, 0),
    }
}

/// The fault of a key that no parameter has.
pub(crate) fn unknown(alloc: Global, key: &Name) -> ParamFault
    ensures { (result ≡ ParamFault.NoMemory) ⊎ (result ≡ ParamFault.Unknown key.now) }
{
    match copy_name(alloc, key) {
        Ok(key) => ParamFault::Unknown { key },
        Err(_) => ParamFault::NoMemory,
    }
}

/// The fault of a value that a parameter may not have.
fn out_of_range(alloc: Global, values: Values, param: &Param) -> ParamFault
    ensures { (result ≡ ParamFault.NoMemory)
        ⊎ (result ≡ ParamFault.Range param.now.key param.now.value (pos (low_of values)) (pos (high_of values))) }
{
    let (low, high) = bounds_of(values);
    match param.copy(alloc) {
        Ok(Param { key, value }) => ParamFault::Range {
            key,
            found: value,
            low: i64::from(low),
            high: i64::from(high),
        },
        Err(_) => ParamFault::NoMemory,
    }
}

/// The first fault of one parameter.
fn check_param(alloc: Global, kind: Kind, param: &Param) -> Result<(), ParamFault>
    ensures ok { OnOk result (fault_by (values_of (row_of kind).params param.now.key) param.now ≡ None) }
    ensures fault { IfErr result (λ f. (f ≡ ParamFault.NoMemory → ⊥) → fault_by (values_of (row_of kind).params param.now.key) param.now ≡ Some f) }
{
    match values_of(kind, &param.key) {
        None => Err(unknown(alloc, &param.key)),
        Some(values) => {
            if is_of(values, &param.value) {
                Ok(())
            } else {
                Err(out_of_range(alloc, values, param))
            }
        }
    }
}

/// The first fault of the parameters.
pub(crate) fn check_params(alloc: Global, kind: Kind, params: &[Param]) -> Result<(), ParamFault>
    ensures ok { OnOk result (fault_of kind params.now ≡ None) }
    ensures fault { IfErr result (λ f. (f ≡ ParamFault.NoMemory → ⊥) → fault_of kind params.now ≡ Some f) }
{
    for param in params {
        check_param(alloc, kind, param)?;
    }
    Ok(())
}
