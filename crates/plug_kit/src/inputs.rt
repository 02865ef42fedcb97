ghost use Rattle.std.specs.Prelude.{◌≡◌, ℕ, ◌≤◌, [], ◌∷◌};
ghost use Rattle.hw_pool.specs.Nodes.{IsWidth};
ghost use Rattle.service_reg.specs.declared.service.Service.TheVariants.{
  Decoder,
  Exec,
  Fetch,
  Hazard,
  Predict,
  RegFile,
  System,
};
ghost use Rattle.service_ports.specs.Ports.{input_shapes};
ghost use Rattle.plug_kit.specs.Made.{
  MakesInputs,
  decoder_list,
  exec_list,
  fetch_list,
  hazard_list,
  predict_list,
  regfile_list,
  stage_list,
  stage_shapes,
  system_list,
};

use plug_build::Builder;
use service_ports::HazardStage;

/// The inputs of Fetch, forward wires by their numbers.
#[derive(Clone, Copy, Debug, PartialEq, Eq)]
pub struct FetchInputs {
    pub take: u32,
    pub redirect: u32,
    pub redirect_pc: u32,
    pub fence: u32,
}

/// The inputs of Predict, forward wires by their numbers.
#[derive(Clone, Copy, Debug, PartialEq, Eq)]
pub struct PredictInputs {
    pub pc: u32,
    pub word: u32,
}

/// The inputs of Decoder, forward wires by their numbers.
#[derive(Clone, Copy, Debug, PartialEq, Eq)]
pub struct DecoderInputs {
    pub word: u32,
}

/// The inputs of RegFile, forward wires by their numbers.
#[derive(Clone, Copy, Debug, PartialEq, Eq)]
pub struct RegFileInputs {
    pub ra: u32,
    pub rb: u32,
    pub we: u32,
    pub wa: u32,
    pub wd: u32,
}

/// The inputs of Hazard, forward wires by their numbers.
#[derive(Clone, Copy, Debug, PartialEq, Eq)]
pub struct HazardInputs {
    /// The stages after decode in their order.
    pub first: HazardStage,
    pub second: HazardStage,
    pub third: HazardStage,
    pub ra: u32,
    pub rb: u32,
    pub uses_a: u32,
    pub uses_b: u32,
}

/// The inputs of Exec, forward wires by their numbers.
#[derive(Clone, Copy, Debug, PartialEq, Eq)]
pub struct ExecInputs {
    pub go: u32,
    pub row: u32,
    pub pc: u32,
    pub word: u32,
    pub a: u32,
    pub b: u32,
    pub clear: u32,
}

/// The inputs of System, forward wires by their numbers.
#[derive(Clone, Copy, Debug, PartialEq, Eq)]
pub struct SystemInputs {
    pub event: u32,
    pub kind: u32,
    pub pc: u32,
    pub cause: u32,
    pub tval: u32,
}

/// Makes an input of `width` bits and of this level. It takes no memory.
pub fn input_wire(b: &mut Builder, width: u32, level: u32) -> u32
    requires room { 1 ≤ b.old.design.room }
    requires width { IsWidth width }
    ensures entry { b.new.entry ≡ b.old.entry }
    ensures made { (by : ℕ) → by ≡ b.old.entry → MakesInputs by b.old.design b.new.design (result ∷ []) ((width, level) ∷ []) }
{
    b.wire(width, level)
}

/// Makes the inputs of Hazard that tell of one stage. It takes no memory.
fn stage_inputs(b: &mut Builder) -> HazardStage
    requires room { 4 ≤ b.old.design.room }
    ensures entry { b.new.entry ≡ b.old.entry }
    ensures made { (by : ℕ) → by ≡ b.old.entry → MakesInputs by b.old.design b.new.design (stage_list result) stage_shapes }
{
    let writes = input_wire(b, 1, 5);
    let rd = input_wire(b, 5, 5);
    let ready = input_wire(b, 1, 5);
    let value = input_wire(b, 32, 5);
    HazardStage {
        writes,
        rd,
        ready,
        value,
    }
}

/// Makes the inputs of Fetch. It takes no memory.
pub fn fetch_inputs(b: &mut Builder) -> FetchInputs
    requires room { 4 ≤ b.old.design.room }
    ensures entry { b.new.entry ≡ b.old.entry }
    ensures made { MakesInputs b.old.entry b.old.design b.new.design (fetch_list result) (input_shapes Fetch) }
{
    let take = input_wire(b, 1, 8);
    let redirect = input_wire(b, 1, 8);
    let redirect_pc = input_wire(b, 32, 8);
    let fence = input_wire(b, 1, 8);
    FetchInputs {
        take,
        redirect,
        redirect_pc,
        fence,
    }
}

/// Makes the inputs of Predict. It takes no memory.
pub fn predict_inputs(b: &mut Builder) -> PredictInputs
    requires room { 2 ≤ b.old.design.room }
    ensures entry { b.new.entry ≡ b.old.entry }
    ensures made { MakesInputs b.old.entry b.old.design b.new.design (predict_list result) (input_shapes Predict) }
{
    let pc = input_wire(b, 32, 1);
    let word = input_wire(b, 32, 1);
    PredictInputs { pc, word }
}

/// Makes the inputs of Decoder. It takes no memory.
pub fn decoder_inputs(b: &mut Builder) -> DecoderInputs
    requires room { 1 ≤ b.old.design.room }
    ensures entry { b.new.entry ≡ b.old.entry }
    ensures made { MakesInputs b.old.entry b.old.design b.new.design (decoder_list result) (input_shapes Decoder) }
{
    let word = input_wire(b, 32, 1);
    DecoderInputs { word }
}

/// Makes the inputs of RegFile. It takes no memory.
pub fn regfile_inputs(b: &mut Builder) -> RegFileInputs
    requires room { 5 ≤ b.old.design.room }
    ensures entry { b.new.entry ≡ b.old.entry }
    ensures made { MakesInputs b.old.entry b.old.design b.new.design (regfile_list result) (input_shapes RegFile) }
{
    let ra = input_wire(b, 5, 2);
    let rb = input_wire(b, 5, 2);
    let we = input_wire(b, 1, 8);
    let wa = input_wire(b, 5, 8);
    let wd = input_wire(b, 32, 8);
    RegFileInputs { ra, rb, we, wa, wd }
}

/// Makes the inputs of Hazard. It takes no memory.
pub fn hazard_inputs(b: &mut Builder) -> HazardInputs
    requires room { 16 ≤ b.old.design.room }
    ensures entry { b.new.entry ≡ b.old.entry }
    ensures made { MakesInputs b.old.entry b.old.design b.new.design (hazard_list result) (input_shapes Hazard) }
{
    let first = stage_inputs(b);
    let second = stage_inputs(b);
    let third = stage_inputs(b);
    let ra = input_wire(b, 5, 5);
    let rb = input_wire(b, 5, 5);
    let uses_a = input_wire(b, 1, 5);
    let uses_b = input_wire(b, 1, 5);
    HazardInputs {
        first,
        second,
        third,
        ra,
        rb,
        uses_a,
        uses_b,
    }
}

/// Makes the inputs of Exec. It takes no memory.
pub fn exec_inputs(b: &mut Builder) -> ExecInputs
    requires room { 7 ≤ b.old.design.room }
    ensures entry { b.new.entry ≡ b.old.entry }
    ensures made { MakesInputs b.old.entry b.old.design b.new.design (exec_list result) (input_shapes Exec) }
{
    let go = input_wire(b, 1, 4);
    let row = input_wire(b, 7, 4);
    let pc = input_wire(b, 32, 4);
    let word = input_wire(b, 32, 4);
    let left = input_wire(b, 32, 4);
    let right = input_wire(b, 32, 4);
    let clear = input_wire(b, 1, 8);
    ExecInputs {
        go,
        row,
        pc,
        word,
        a: left,
        b: right,
        clear,
    }
}

/// Makes the inputs of System. It takes no memory.
pub fn system_inputs(b: &mut Builder) -> SystemInputs
    requires room { 5 ≤ b.old.design.room }
    ensures entry { b.new.entry ≡ b.old.entry }
    ensures made { MakesInputs b.old.entry b.old.design b.new.design (system_list result) (input_shapes System) }
{
    let event = input_wire(b, 1, 7);
    let kind = input_wire(b, 2, 7);
    let pc = input_wire(b, 32, 7);
    let cause = input_wire(b, 32, 7);
    let tval = input_wire(b, 32, 7);
    SystemInputs {
        event,
        kind,
        pc,
        cause,
        tval,
    }
}
