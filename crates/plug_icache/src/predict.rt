ghost use Rattle.std.specs.Prelude.{◌≡◌, ℕ, ◌≤◌, None, Some, true};
ghost use Rattle.hw_pool.specs.Meaning.{Env};
ghost use Rattle.hw_pool.specs.Scope.{Scope};
ghost use Rattle.isa_model.specs.Effects.{behind};
ghost use Rattle.hw_expr.specs.Nets.{InScope};
ghost use Rattle.hw_gates.specs.Places.{Is, IsIn, Step, value_in};
ghost use Rattle.hw_module.specs.Checked.{DriversFit};
ghost use Rattle.hw_module.specs.Rows.{wire_at};
ghost use Rattle.hw_module.specs.Scope.{scope_of};
ghost use Rattle.service_ports.specs.declared.ports.PredictPorts.{PredictPorts};
ghost use Rattle.plug_part.specs.Owned.{is_predict_input};
ghost use Rattle.plug_build.specs.Fits.{OffersFit};
ghost use Rattle.plug_icache.specs.Builds.{guess_in};
ghost use Rattle.plug_icache.specs.Late.{AsksPredict, predict_in};

use hw_expr::Net;
use hw_gates::{add, lit};
use hw_pool::Pool;
use plug_build::Builder;
use service_ports::Registry;

/// The pc of the next word, of 32 bits.
fn pc_behind(pool: &mut Pool, pc: Net) -> Net
    requires spare { 2 ≤ pool.old.spare }
    requires pc { Is pool.old pc 32 8 }
    ensures value { (env : Env) → value_in env pool.new result ≡ behind (value_in env pool.old pc) }
    ensures net { Is pool.new result 32 8 }
    ensures scope { (s : Scope) → IsIn s pool.old pc → IsIn s pool.new result }
    ensures step { Step pool.old pool.new 2 }
{
    let four = lit(pool, 32, 4);
    add(pool, pc, four)
}

/// The pc behind the item that is looked up, of 32 bits: Predict's answer, and the pc of the next word where Predict is not offered.
pub(crate) fn guess_net(b: &Builder, pool: &mut Pool, reg: &Registry, pc: Net) -> Net
    requires spare { 2 ≤ pool.old.spare }
    requires offers { OffersFit b.now.design pool.old reg.now }
    requires pc { Is pool.old pc 32 8 }
    requires scope { IsIn (scope_of b.now.design) pool.old pc }
    ensures value { (env : Env) → value_in env pool.new result ≡ guess_in (predict_in pool.old reg.now) (value_in env pool.old pc) env }
    ensures net { Is pool.new result 32 8 }
    ensures scope { IsIn (scope_of b.now.design) pool.new result }
    ensures step { Step pool.old pool.new 2 }
{
    let _ = b;
    match reg.predict() {
        Some(q) => q.next,
        None => pc_behind(pool, pc),
    }
}

/// Asks Predict, where it is offered, about a pc and the word there, both of 32 bits. It takes no memory.
pub(crate) fn ask_predict(b: &mut Builder, pool: &Pool, reg: &Registry, pc: Net, word: Net)
    requires room { 2 ≤ b.old.design.room }
    requires offers { OffersFit b.old.design pool.now reg.now }
    requires open { (k : ℕ) → is_predict_input reg.now k ≡ true → (wire_at b.old.design.wires k).driver ≡ None }
    requires pc { InScope (scope_of b.old.design) pool.now pc }
    requires word { InScope (scope_of b.old.design) pool.now word }
    requires widths { (pc.width ≡ 32) × (word.width ≡ 32) }
    requires levels { (pc.level ≡ 0) × (word.level ≡ 0) }
    ensures asks { AsksPredict reg.now b.old b.new }
    ensures pc { (by : ℕ) (q : PredictPorts) → reg.now.predict ≡ Some (by, q) → (wire_at b.new.design.wires q.pc).driver ≡ Some pc }
    ensures word { (by : ℕ) (q : PredictPorts) → reg.now.predict ≡ Some (by, q) → (wire_at b.new.design.wires q.word).driver ≡ Some word }
    ensures drivers { DriversFit b.old.design pool.now → DriversFit b.new.design pool.now }
{
    match reg.predict() {
        Some(q) => {
            b.drive(pool, q.pc, pc);
            b.drive(pool, q.word, word);
        }
        None => {}
    }
}
