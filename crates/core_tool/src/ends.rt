ghost use Rattle.std.specs.Prelude.{◌≡◌, ◌≤◌, ℕ, OnOk, OnErr, codes, ◌++◌};
ghost use Rattle.core_host.specs.declared.host.Port.{Port};
ghost use Rattle.core_host.specs.declared.host.Port.TheVariants.{Notes};
ghost use Rattle.core_host.specs.Outside.{Rose, Appends, IsCut};
ghost use Rattle.core_tool.specs.Lines.{exit_line, image_line, key_line, refusal_line, stopped_line, want_ending};
ghost use Rattle.core_tool.specs.Pieces.{joined};
ghost use Rattle.core_tool.specs.Ends.{line_of, status_of};
ghost use Rattle.core_tool.specs.RuleLines.{rule_line};

use crate::Status;
use crate::lines::{Piece, push_pieces};
use crate::rules::rule_pieces;
use core_config::{ConfigRefusal, KeyPath, Want};
use core_host::{Host, HostFailed, Port};
use plug_api::RuleRefusal;

/// The number of addresses.
const ADDRESSES: u64 = 0x1_0000_0000;

/// How the work of a call ended, before its line is written.
#[derive(Debug, Drop)]
pub enum CallEnd {
    /// The text of a core is written whole.
    Written,
    /// The configuration is accepted, and the line that says so is written whole.
    Accepted,
    /// The words are no call.
    BadWords,
    /// The configuration is refused.
    Refused(ConfigRefusal),
    /// The configuration breaks a rule of acceptance.
    RulesRefused(RuleRefusal),
    /// The image is refused.
    BadImage(ImageFault),
    /// A file was not found or not read.
    BadFile,
    OutOfMemory,
    /// A push of the text failed.
    Unwritten,
    /// The program asked for its end with this code.
    Exited {
        code: u32,
        events: u64,
        cycles: u64,
    },
    /// As many cycles passed as the run was to have.
    CyclesEnded {
        events: u64,
        cycles: u64,
    },
    /// A trap stopped the core.
    Stopped {
        cause: u32,
        pc: u32,
        events: u64,
        cycles: u64,
    },
}

/// Why an image is refused.
#[derive(Clone, Copy, Debug, PartialEq, Eq)]
pub enum ImageFault {
    /// It has more bytes than any image may have.
    TooLong,
    /// It has a byte for this address, the first behind memory.
    Outside { addr: u64 },
}

impl CallEnd {
    /// The status of a call that ends so, where its line is written.
    pub fn status(&self) -> Status
        ensures { result ≡ status_of self.now }
    {
        match self {
            CallEnd::Written | CallEnd::Accepted | CallEnd::Exited { .. } => Status::Done,
            CallEnd::BadWords => Status::Usage,
            CallEnd::Refused(_) => Status::ConfigRefused,
            CallEnd::RulesRefused(_) => Status::RulesRefused,
            CallEnd::BadImage(_) => Status::ImageRefused,
            CallEnd::BadFile => Status::ReadFault,
            CallEnd::OutOfMemory => Status::NoMemory,
            CallEnd::Unwritten => Status::WriteFault,
            CallEnd::CyclesEnded { .. } => Status::CyclesEnded,
            CallEnd::Stopped { .. } => Status::Stopped,
        }
    }
}

/// Pushes the line of an end on the port of notes: none where it wrote a text that is no run's, or was to write a text.
/// It takes no memory.
pub fn push_line<H: Host>(host: &mut H, end: &CallEnd) -> Result<(), HostFailed>
    ensures whole { OnOk result (Appends (H.pushed host.old Notes) (line_of end.now) (H.pushed host.new Notes)) }
    ensures part { OnErr result (IsCut (H.pushed host.old Notes) (line_of end.now) (H.pushed host.new Notes)) }
    ensures cause { OnErr result (Rose (H.write_faults host.old) (H.write_faults host.new)) }
    ensures others { (p : Port) → ¬ (p ≡ Notes) → H.pushed host.new p ≡ H.pushed host.old p }
    ensures left { (m : ℕ) → H.left host.new m ≡ H.left host.old m }
    ensures files { H.files host.new ≡ H.files host.old }
    ensures numbers { (m : ℕ) → H.given host.old m → H.given host.new m }
    ensures names { (m : ℕ) → H.given host.old m → H.opened host.new m ≡ H.opened host.old m }
    ensures reads { H.read_faults host.old ≤ H.read_faults host.new }
    ensures writes { H.write_faults host.old ≤ H.write_faults host.new }
{
    match end {
        CallEnd::Written | CallEnd::Accepted | CallEnd::Unwritten => push_pieces(host, &[]),
        CallEnd::BadWords => push_pieces(host, &[Piece::Text("usage\n")]),
        CallEnd::Refused(refusal) => push_pieces(host, &refusal_pieces(refusal)),
        CallEnd::RulesRefused(refusal) => push_rule(host, refusal),
        CallEnd::BadFile => push_pieces(host, &[Piece::Text("read fault\n")]),
        CallEnd::BadImage(fault) => push_pieces(host, &image_pieces(*fault)),
        CallEnd::OutOfMemory => push_pieces(host, &[Piece::Text("no memory\n")]),
        CallEnd::Exited {
            code,
            events,
            cycles,
        } => push_pieces(host, &exit_pieces(*code, *events, *cycles)),
        CallEnd::CyclesEnded { events, cycles } => push_pieces(
            host,
            &[
                Piece::Text("cycles "),
                Piece::Decimal(*cycles),
                Piece::Text(" events="),
                Piece::Decimal(*events),
                Piece::Text("\n"),
            ],
        ),
        CallEnd::Stopped {
            cause,
            pc,
            events,
            cycles,
        } => push_pieces(host, &stopped_pieces(*cause, *pc, *events, *cycles)),
    }
}

/// Pushes the line of the rule that a configuration breaks on the port of notes. It takes no memory.
///
/// # Errors
/// `HostFailed` where a push failed: then a part of the line is pushed, from its start.
pub fn push_rule<H: Host>(host: &mut H, refusal: &RuleRefusal) -> Result<(), HostFailed>
    ensures whole { OnOk result (Appends (H.pushed host.old Notes) (rule_line refusal.now) (H.pushed host.new Notes)) }
    ensures part { OnErr result (IsCut (H.pushed host.old Notes) (rule_line refusal.now) (H.pushed host.new Notes)) }
    ensures cause { OnErr result (Rose (H.write_faults host.old) (H.write_faults host.new)) }
    ensures others { (p : Port) → ¬ (p ≡ Notes) → H.pushed host.new p ≡ H.pushed host.old p }
    ensures left { (m : ℕ) → H.left host.new m ≡ H.left host.old m }
    ensures files { H.files host.new ≡ H.files host.old }
    ensures numbers { (m : ℕ) → H.given host.old m → H.given host.new m }
    ensures names { (m : ℕ) → H.given host.old m → H.opened host.new m ≡ H.opened host.old m }
    ensures reads { H.read_faults host.old ≤ H.read_faults host.new }
    ensures writes { H.write_faults host.old ≤ H.write_faults host.new }
{
    push_pieces(host, &rule_pieces(refusal))
}

/// The line that says why a configuration is refused.
fn refusal_pieces(refusal: &ConfigRefusal) -> [Piece<'_>; 6]
    ensures { joined result ≡ refusal_line refusal.now }
{
    match refusal {
        ConfigRefusal::TooLong { .. } => whole_line("config long\n"),
        ConfigRefusal::Text => whole_line("config text\n"),
        ConfigRefusal::Shape { key, want } => key_pieces("config shape key=", key, ending(*want)),
        ConfigRefusal::Range { key, .. } => key_pieces("config range key=", key, "\n"),
        ConfigRefusal::NoMemory => whole_line(""),
    }
}

/// A line that is one text.
fn whole_line<'a>(line: &'a str) -> [Piece<'a>; 6]
    ensures { joined result ≡ line.now }
{
    [
        Piece::Text(line),
        Piece::Text(""),
        Piece::Text(""),
        Piece::Text(""),
        Piece::Text(""),
        Piece::Text(""),
    ]
}

/// A line with a key between these texts.
fn key_pieces<'a>(start: &'static str, key: &'a KeyPath, ending: &'static str) -> [Piece<'a>; 6]
    ensures { joined result ≡ start.now ++ key_line key.now ending.now }
{
    let name = Piece::Text(key.key.text().as_str());
    match key.entry {
        None => [
            Piece::Text(start),
            name,
            Piece::Text(ending),
            Piece::Text(""),
            Piece::Text(""),
            Piece::Text(""),
        ],
        Some(number) => [
            Piece::Text(start),
            Piece::Text("plugin."),
            Piece::Decimal(u64::from(number)),
            Piece::Text("."),
            name,
            Piece::Text(ending),
        ],
    }
}

/// The line that says why an image is refused.
fn image_pieces(fault: ImageFault) -> [Piece<'static>; 4]
    ensures { joined result ≡ image_line fault }
{
    match fault {
        ImageFault::TooLong => [
            Piece::Text("image long\n"),
            Piece::Text(""),
            Piece::Text(""),
            Piece::Text(""),
        ],
        ImageFault::Outside { addr } => [
            Piece::Text("image outside addr="),
            Piece::Text(if addr < ADDRESSES { "" } else { "1" }),
            Piece::Hex((addr % ADDRESSES) as u32),
            Piece::Text("\n"),
        ],
    }
}

/// The line of a run that its program ended.
fn exit_pieces(code: u32, events: u64, cycles: u64) -> [Piece<'static>; 7]
    ensures { joined result ≡ exit_line code events cycles }
{
    [
        Piece::Text("exit code="),
        Piece::Hex(code),
        Piece::Text(" events="),
        Piece::Decimal(events),
        Piece::Text(" cycles="),
        Piece::Decimal(cycles),
        Piece::Text("\n"),
    ]
}

/// The line of a run that a trap stopped.
fn stopped_pieces(cause: u32, pc: u32, events: u64, cycles: u64) -> [Piece<'static>; 9]
    ensures { joined result ≡ stopped_line cause pc events cycles }
{
    [
        Piece::Text("stopped cause="),
        Piece::Hex(cause),
        Piece::Text(" pc="),
        Piece::Hex(pc),
        Piece::Text(" events="),
        Piece::Decimal(events),
        Piece::Text(" cycles="),
        Piece::Decimal(cycles),
        Piece::Text("\n"),
    ]
}

/// The end of a line that says what is wanted of a key.
fn ending(want: Want) -> &'static str
    ensures { result.now ≡ want_ending want }
{
    match want {
        Want::Integer => " want=integer\n",
        Want::Text => " want=text\n",
        Want::Table => " want=table\n",
        Want::Tables => " want=tables\n",
        Want::Scalar => " want=scalar\n",
        Want::NoKey => " want=nokey\n",
    }
}
