ghost use Rattle.std.specs.Prelude.{◌≡◌, ℕ, List, Option};
ghost use Rattle.plug_api.specs.Spec.{IsSound};
ghost use Rattle.stage_map.specs.declared.config.Config.{Config};
ghost use Rattle.stage_map.specs.declared.config.PlugEntry.{PlugEntry};
ghost use Rattle.plug_api.specs.Accept.{AreFit, AreSound, IsAccepted, IsDecided, IsFirstRefusal};
ghost use Rattle.plug_api.specs.declared.refusal.RuleRefusal.{RuleRefusal};
ghost use Rattle.plug_api.specs.declared.spec.ParamFault.{ParamFault};
ghost use Rattle.plug_api.specs.declared.spec.Plan.{Plan};
ghost use Rattle.plug_api.specs.declared.spec.PlugSpec.{PlugSpec};

use crate::Plugin;

/// A configuration is not both accepted and refused, whatever the boxes are. This does nothing: its contract is the law.
pub fn refusals_exclude<B>()
    ensures { (kind : B → List ℕ) (fault : B → PlugEntry → Option ParamFault) (spec : B → PlugEntry → PlugSpec)
        (boxes : List B) (cfg : Config) (plan : Plan) (r : RuleRefusal)
        → IsAccepted kind fault spec boxes cfg plan → IsFirstRefusal kind fault spec boxes cfg r → ⊥ }
{}

/// There is at most one first refusal, whatever the boxes are. This does nothing: its contract is the law.
pub fn one_first_refusal<B>()
    ensures { (kind : B → List ℕ) (fault : B → PlugEntry → Option ParamFault) (spec : B → PlugEntry → PlugSpec)
        (boxes : List B) (cfg : Config) (r s : RuleRefusal)
        → IsFirstRefusal kind fault spec boxes cfg r → IsFirstRefusal kind fault spec boxes cfg s → r ≡ s }
{}

/// Each configuration is accepted, or some rule fails first, whatever the boxes are: where none of them finds want of
/// memory in an entry, and each says what a plug-in may once it took one. This does nothing: its contract is the law.
pub fn accepted_or_refused<B>()
    ensures { (kind : B → List ℕ) (fault : B → PlugEntry → Option ParamFault) (spec : B → PlugEntry → PlugSpec)
        (boxes : List B) (cfg : Config)
        → AreSound fault boxes → AreFit fault spec boxes → IsDecided kind fault spec boxes cfg }
{}

/// With these plug-ins each configuration is accepted, or some rule fails first. This asks each what it says of itself,
/// and changes nothing: its contract is the law.
pub fn decides_each(plugs: &Vec<Box<dyn Plugin>>)
    ensures { (cfg : Config) → IsDecided (λ b. kind b) (λ b e. first_fault b e) (λ b e. spec_taken b e) plugs.now.items cfg }
{
    for k in 0..plugs.len() {
        ask(&plugs[k]);
    }
}

/// Asks the plug-in what it says of itself.
fn ask(plug: &Box<dyn Plugin>)
    ensures { IsSound (first_fault plug.now) (spec_taken plug.now) }
{
    let _said = plug.spec();
}
