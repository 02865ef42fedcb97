ghost use Rattle.std.specs.Prelude.{ℕ, ◌<◌, length, get_or, IsTrue};
ghost use Rattle.plug_api.specs.Spec.{IsSpec, no_spec};

use plug_api::PlugSpec;
use plug_kinds::is_spec;

/// Whether plug-ins may say these of themselves.
pub fn are_specs(specs: &Vec<PlugSpec>) -> bool
    ensures { IsTrue result → (i : ℕ) → i < length specs.now.items → IsSpec (get_or specs.now.items i no_spec) }
{
    for k in 0..specs.len() {
        if !is_spec(&specs[k]) {
            return false;
        }
    }
    true
}
