ghost use Rattle.std.specs.Prelude.{◌≡◌};
ghost use Rattle.plug_predict.specs.Params.{style_named, style_of};

use crate::Style;
use stage_map::{Param, ParamValue};

/// The style of an entry that names none.
const DEFAULT: Style = Style::Static;

/// The style that a value names.
fn style_named(value: &ParamValue) -> Style
    ensures { result ≡ style_named value.now }
{
    match value {
        ParamValue::Word(word) => {
            if word.is("static") {
                return Style::Static;
            }
            Style::Next
        }
        ParamValue::Num(_) => Style::Next,
        ParamValue::Flag(_) => Style::Next,
    }
}

/// The style that the parameters of an entry give, or else the default.
pub(crate) fn style_in(params: &[Param]) -> Style
    ensures { result ≡ style_of params.now }
{
    for param in params {
        if param.key.is("style") {
            return style_named(&param.value);
        }
    }
    DEFAULT
}
