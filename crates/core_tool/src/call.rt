ghost use Rattle.std.specs.Prelude.{All, ◌≡◌, ◌≤◌, ◌<◌, ◌^◌, ℕ, Some, IfOk, IfErr, length};
ghost use Rattle.core_host.specs.declared.host.Port.{Port};
ghost use Rattle.core_host.specs.declared.host.Port.TheVariants.{Main, Notes};
ghost use Rattle.core_config.specs.Allowed.{IsConfig};
ghost use Rattle.core_config.specs.Config.{config_of};
ghost use Rattle.core_sim.specs.Spans.{IsSpan};
ghost use Rattle.core_tool.specs.Words.{Gen, Rules, Run};
ghost use Rattle.core_tool.specs.Call.{boxes_of, seen_as, seen_of};
ghost use Rattle.core_tool.specs.Boxes.{HaveTakenAll, KeepKinds};
ghost use Rattle.core_tool.specs.Files.{Pulled};
ghost use Rattle.core_tool.specs.Answers.{
  EndsByRun,
  Exactly,
  IsConfigRefused,
  IsCyclesEnded,
  IsDone,
  IsImageRefused,
  IsNoMemory,
  IsNoted,
  IsReadFault,
  IsRulesRefused,
  IsStopped,
  IsUsage,
  IsWriteFault,
  Keeps,
  MustBeConfigRefused,
  MustBeDone,
  MustBeImageRefused,
  MustBeReadFault,
  MustBeRulesRefused,
  MustBeUsage,
  MustRun,
};
ghost use Rattle.core_tool.specs.Ends.{IsEnd, IsFinished};
ghost use Rattle.core_tool.specs.Parts.{ForBytes, IsConfigEnd, IsJudged, PulledOne};

use crate::Status;
use crate::ends::{CallEnd, push_line};
use crate::options::Options;
use crate::run::{load, own_tree, simulate};
use crate::words::Form;
use core_config::{ConfigRefusal, read_config};
use core_gen::{GenRefusal, generate};
use core_host::{Host, Port, ReadEnd, push_all, read_file};
use plug_api::{Plugin, RuleRefusal, accept};
use stage_map::Config;
use std::alloc::Global;

/// The most bytes that a configuration may have.
const CONFIG_LIMIT: usize = 1_048_576;

/// Does what the words ask for, without the program's name among them, and writes a line on the
/// port of notes that says how it ended, unless a text that is no run's was written, or a text was cut
/// off. The plug-ins are those that entries of a configuration can name.
pub fn core_main<H: Host>(
    alloc: Global,
    words: &Vec<String>,
    plugs: &mut Vec<Box<dyn Plugin>>,
    host: &mut H,
) -> Status
    requires few { length plugs.old.items < 2 ^ 32 }
    // What each answer says is in `specs/Answers`, in this order.
    // 0: the text that the words ask for is on Main: a core, that a configuration is accepted, or that of a run which
    // its program ended.
    ensures done { Exactly Status.Done result MustBeDone IsDone
        (seen_of words.now H.Host ⟦<dyn Plugin as Plugin>⟧ plugs.old plugs.new host.old host.new) }
    // 2: the words are no call.
    ensures usage { Exactly Status.Usage result MustBeUsage IsUsage
        (seen_of words.now H.Host ⟦<dyn Plugin as Plugin>⟧ plugs.old plugs.new host.old host.new) }
    // 3: the configuration is refused, for its first fault.
    ensures config_refused { Exactly Status.ConfigRefused result MustBeConfigRefused IsConfigRefused
        (seen_of words.now H.Host ⟦<dyn Plugin as Plugin>⟧ plugs.old plugs.new host.old host.new) }
    // 4: a rule of acceptance fails, the first of them.
    ensures rules_refused { Exactly Status.RulesRefused result MustBeRulesRefused IsRulesRefused
        (seen_of words.now H.Host ⟦<dyn Plugin as Plugin>⟧ plugs.old plugs.new host.old host.new) }
    // 5: the image is refused.
    ensures image_refused { Exactly Status.ImageRefused result MustBeImageRefused IsImageRefused
        (seen_of words.now H.Host ⟦<dyn Plugin as Plugin>⟧ plugs.old plugs.new host.old host.new) }
    // 6: a file that the words name is not read.
    ensures read_fault { Exactly Status.ReadFault result MustBeReadFault IsReadFault
        (seen_of words.now H.Host ⟦<dyn Plugin as Plugin>⟧ plugs.old plugs.new host.old host.new) }
    // 7: a push failed, in the text or in the line of another end.
    ensures write_fault { result ≡ Status.WriteFault → IsWriteFault
        (seen_of words.now H.Host ⟦<dyn Plugin as Plugin>⟧ plugs.old plugs.new host.old host.new) }
    // 8: memory is wanting.
    ensures no_memory { result ≡ Status.NoMemory → IsNoted IsNoMemory
        (seen_of words.now H.Host ⟦<dyn Plugin as Plugin>⟧ plugs.old plugs.new host.old host.new) }
    // 9: the cycles of the run have passed.
    ensures cycles_ended { result ≡ Status.CyclesEnded → IsNoted IsCyclesEnded
        (seen_of words.now H.Host ⟦<dyn Plugin as Plugin>⟧ plugs.old plugs.new host.old host.new) }
    // 10: no command ends so yet.
    ensures module_refused { ¬ (result ≡ Status.ModuleRefused) }
    // 11: a trap stopped the core.
    ensures stopped { result ≡ Status.Stopped → IsNoted IsStopped
        (seen_of words.now H.Host ⟦<dyn Plugin as Plugin>⟧ plugs.old plugs.new host.old host.new) }
    // 0, 9 or 11: a run comes to its end.
    ensures runs { MustRun (seen_of words.now H.Host ⟦<dyn Plugin as Plugin>⟧ plugs.old plugs.new host.old host.new)
        → EndsByRun result }
    // In each call:
    ensures keeps { Keeps (seen_of words.now H.Host ⟦<dyn Plugin as Plugin>⟧ plugs.old plugs.new host.old host.new) }
    ensures pulled { Pulled (seen_of words.now H.Host ⟦<dyn Plugin as Plugin>⟧ plugs.old plugs.new host.old host.new) }
    ensures numbers { (m : ℕ) → H.given host.old m → H.given host.new m }
    ensures names { (m : ℕ) → H.given host.old m → H.opened host.new m ≡ H.opened host.old m }
{
    let end = work(alloc, words, plugs, host);
    finish(host, &end)
}

/// Writes the line of an end, and answers its status.
fn finish<H: Host>(host: &mut H, end: &CallEnd) -> Status
    ensures finished { IsFinished end.now result (H.pushed host.old Notes) (H.pushed host.new Notes)
        (H.write_faults host.old) (H.write_faults host.new) }
    ensures others { (p : Port) → ¬ (p ≡ Notes) → H.pushed host.new p ≡ H.pushed host.old p }
    ensures left { (m : ℕ) → H.left host.new m ≡ H.left host.old m }
    ensures files { H.files host.new ≡ H.files host.old }
    ensures numbers { (m : ℕ) → H.given host.old m → H.given host.new m }
    ensures names { (m : ℕ) → H.given host.old m → H.opened host.new m ≡ H.opened host.old m }
    ensures reads { H.read_faults host.old ≤ H.read_faults host.new }
    ensures writes { H.write_faults host.old ≤ H.write_faults host.new }
{
    match push_line(host, end) {
        Ok(()) => end.status(),
        Err(_) => Status::WriteFault,
    }
}

/// Does what the words ask for.
fn work<H: Host>(
    alloc: Global,
    words: &Vec<String>,
    plugs: &mut Vec<Box<dyn Plugin>>,
    host: &mut H,
) -> CallEnd
    requires few { length plugs.old.items < 2 ^ 32 }
    ensures ends { IsEnd (seen_of words.now H.Host ⟦<dyn Plugin as Plugin>⟧ plugs.old plugs.new host.old host.new) result }
    ensures pulled { Pulled (seen_of words.now H.Host ⟦<dyn Plugin as Plugin>⟧ plugs.old plugs.new host.old host.new) }
    ensures notes { H.pushed host.new Notes ≡ H.pushed host.old Notes }
    ensures files { H.files host.new ≡ H.files host.old }
    ensures numbers { (m : ℕ) → H.given host.old m → H.given host.new m }
    ensures names { (m : ℕ) → H.given host.old m → H.opened host.new m ≡ H.opened host.old m }
    ensures reads { H.read_faults host.old ≤ H.read_faults host.new }
    ensures writes { H.write_faults host.old ≤ H.write_faults host.new }
    ensures kept { KeepKinds (boxes_of ⟦<dyn Plugin as Plugin>⟧ plugs.old plugs.new) }
{
    match Form::of(words) {
        Some(Form::Gen { name }) => write_core(alloc, name, plugs, host),
        Some(
            Form::Run {
                config,
                image,
                options,
            },
        ) => run(alloc, config, image, options, plugs, host),
        Some(Form::Rules { name }) => try_rules(alloc, name, plugs, host),
        None => CallEnd::BadWords,
    }
}

/// Writes the core of the configuration of that name on the main port.
fn write_core<H: Host>(
    alloc: Global,
    name: &str,
    plugs: &mut Vec<Box<dyn Plugin>>,
    host: &mut H,
) -> CallEnd
    requires few { length plugs.old.items < 2 ^ 32 }
    ensures ends { IsEnd (seen_as (Some (Gen name.now)) H.Host ⟦<dyn Plugin as Plugin>⟧ plugs.old plugs.new host.old host.new) result }
    ensures pulled { Pulled (seen_as (Some (Gen name.now)) H.Host ⟦<dyn Plugin as Plugin>⟧ plugs.old plugs.new host.old host.new) }
    ensures notes { H.pushed host.new Notes ≡ H.pushed host.old Notes }
    ensures files { H.files host.new ≡ H.files host.old }
    ensures numbers { (m : ℕ) → H.given host.old m → H.given host.new m }
    ensures names { (m : ℕ) → H.given host.old m → H.opened host.new m ≡ H.opened host.old m }
    ensures reads { H.read_faults host.old ≤ H.read_faults host.new }
    ensures writes { H.write_faults host.old ≤ H.write_faults host.new }
    ensures kept { KeepKinds (boxes_of ⟦<dyn Plugin as Plugin>⟧ plugs.old plugs.new) }
{
    let config = match configure(alloc, name, host) {
        Ok(config) => config,
        Err(end) => return end,
    };
    match generate(alloc, &config, plugs, host) {
        Ok(()) => CallEnd::Written,
        Err(GenRefusal::Rules { refusal }) => CallEnd::RulesRefused(refusal),
        Err(GenRefusal::WriteFault) => CallEnd::Unwritten,
        Err(GenRefusal::NoMemory) => CallEnd::OutOfMemory,
    }
}

/// Runs the core of a configuration over an image, both of these names. The core is generated before the image is read.
fn run<H: Host>(
    alloc: Global,
    config_file: &str,
    image: &str,
    options: Options,
    plugs: &mut Vec<Box<dyn Plugin>>,
    host: &mut H,
) -> CallEnd
    requires spans { All IsSpan options.irqs.items }
    requires few { length plugs.old.items < 2 ^ 32 }
    ensures ends { IsEnd (seen_as (Some (Run config_file.now image.now options)) H.Host ⟦<dyn Plugin as Plugin>⟧ plugs.old plugs.new host.old host.new) result }
    ensures pulled { Pulled (seen_as (Some (Run config_file.now image.now options)) H.Host ⟦<dyn Plugin as Plugin>⟧ plugs.old plugs.new host.old host.new) }
    ensures notes { H.pushed host.new Notes ≡ H.pushed host.old Notes }
    ensures files { H.files host.new ≡ H.files host.old }
    ensures numbers { (m : ℕ) → H.given host.old m → H.given host.new m }
    ensures names { (m : ℕ) → H.given host.old m → H.opened host.new m ≡ H.opened host.old m }
    ensures reads { H.read_faults host.old ≤ H.read_faults host.new }
    ensures writes { H.write_faults host.old ≤ H.write_faults host.new }
    ensures kept { KeepKinds (boxes_of ⟦<dyn Plugin as Plugin>⟧ plugs.old plugs.new) }
{
    let config = match configure(alloc, config_file, host) {
        Ok(config) => config,
        Err(end) => return end,
    };
    let checked = match own_tree(alloc, &config, plugs) {
        Ok(checked) => checked,
        Err(end) => return end,
    };
    let memory = match load(alloc, image, config.mem, host) {
        Ok(memory) => memory,
        Err(end) => return end,
    };
    simulate(alloc, &checked, memory, options, host)
}

/// Tries the rules of acceptance on the configuration of that name, and writes a line on the main port where all hold.
fn try_rules<H: Host>(
    alloc: Global,
    name: &str,
    plugs: &mut Vec<Box<dyn Plugin>>,
    host: &mut H,
) -> CallEnd
    requires few { length plugs.old.items < 2 ^ 32 }
    ensures ends { IsEnd (seen_as (Some (Rules name.now)) H.Host ⟦<dyn Plugin as Plugin>⟧ plugs.old plugs.new host.old host.new) result }
    ensures pulled { Pulled (seen_as (Some (Rules name.now)) H.Host ⟦<dyn Plugin as Plugin>⟧ plugs.old plugs.new host.old host.new) }
    ensures notes { H.pushed host.new Notes ≡ H.pushed host.old Notes }
    ensures files { H.files host.new ≡ H.files host.old }
    ensures numbers { (m : ℕ) → H.given host.old m → H.given host.new m }
    ensures names { (m : ℕ) → H.given host.old m → H.opened host.new m ≡ H.opened host.old m }
    ensures reads { H.read_faults host.old ≤ H.read_faults host.new }
    ensures writes { H.write_faults host.old ≤ H.write_faults host.new }
    ensures kept { KeepKinds (boxes_of ⟦<dyn Plugin as Plugin>⟧ plugs.old plugs.new) }
{
    let config = match configure(alloc, name, host) {
        Ok(config) => config,
        Err(end) => return end,
    };
    match judge(alloc, &config, plugs) {
        Ok(()) => {}
        Err(end) => return end,
    }
    match push_all(host, Port::Main, b"accepted\n") {
        Ok(()) => CallEnd::Accepted,
        Err(_) => CallEnd::Unwritten,
    }
}

/// Whether a configuration is accepted, or the end of a call where it is not.
fn judge(alloc: Global, config: &Config, plugs: &mut Vec<Box<dyn Plugin>>) -> Result<(), CallEnd>
    requires config { IsConfig config.now }
    requires few { length plugs.old.items < 2 ^ 32 }
    ensures accepted { IfOk result (λ u. HaveTakenAll (boxes_of ⟦<dyn Plugin as Plugin>⟧ plugs.old plugs.new) config.now) }
    ensures ends { IfErr result (λ e. IsJudged (boxes_of ⟦<dyn Plugin as Plugin>⟧ plugs.old plugs.new) config.now e) }
    ensures kept { KeepKinds (boxes_of ⟦<dyn Plugin as Plugin>⟧ plugs.old plugs.new) }
{
    match accept(alloc, config, plugs) {
        Ok(_) => Ok(()),
        Err(refusal) => match refusal {
            RuleRefusal::NoMemory => Err(CallEnd::OutOfMemory),
            other => Err(CallEnd::RulesRefused(other)),
        },
    }
}

/// Reads the configuration of that name.
fn configure<H: Host>(alloc: Global, name: &str, host: &mut H) -> Result<Config, CallEnd>
    ensures allowed { IfOk result (λ c. IsConfig c) }
    ensures given { IfOk result (λ c. ForBytes name.now (H.files host.old) (λ bytes. config_of bytes ≡ Ok c)) }
    ensures ends { IfErr result (λ e. IsConfigEnd name.now (H.files host.old) (H.read_faults host.old) (H.read_faults host.new) e) }
    ensures pulled { PulledOne 1048577 name.now (H.files host.old) (H.left host.old) (H.left host.new)
        (H.read_faults host.old) (H.read_faults host.new) }
    ensures ports { (p : Port) → H.pushed host.new p ≡ H.pushed host.old p }
    ensures files { H.files host.new ≡ H.files host.old }
    ensures numbers { (m : ℕ) → H.given host.old m → H.given host.new m }
    ensures names { (m : ℕ) → H.given host.old m → H.opened host.new m ≡ H.opened host.old m }
    ensures reads { H.read_faults host.old ≤ H.read_faults host.new }
    ensures writes { H.write_faults host.old ≤ H.write_faults host.new }
{
    let bytes = match read_file(alloc, host, name, CONFIG_LIMIT) {
        Ok(bytes) => bytes,
        Err(ReadEnd::Fault) => return Err(CallEnd::BadFile),
        Err(ReadEnd::NoMemory) => return Err(CallEnd::OutOfMemory),
    };
    match read_config(alloc, &bytes) {
        Ok(config) => Ok(config),
        Err(refusal) => match refusal {
            ConfigRefusal::NoMemory => Err(CallEnd::OutOfMemory),
            other => Err(CallEnd::Refused(other)),
        },
    }
}
