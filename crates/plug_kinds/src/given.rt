ghost use Rattle.std.specs.Prelude.{◌≡◌};
ghost use Rattle.plug_kinds.specs.Kinds.{flag_of, given_or};

use stage_map::{Param, ParamValue};

/// The truth value that a value is; false where it is none.
fn flag_of(value: &ParamValue) -> bool
    ensures { result ≡ flag_of value.now }
{
    match value {
        ParamValue::Flag(truth) => *truth,
        ParamValue::Num(_) => false,
        ParamValue::Word(_) => false,
    }
}

/// The truth value that is given for a key, or else the default.
pub(crate) fn flag_in(params: &[Param], key: &'static str, default: bool) -> bool
    ensures { result ≡ flag_of (given_or (ParamValue.Flag default) params.now key.now) }
{
    for param in params {
        if param.key.is(key) {
            return flag_of(&param.value);
        }
    }
    default
}
