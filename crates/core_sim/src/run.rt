ghost use Rattle.std.specs.Prelude.{All, ◌≡◌, ◌≤◌, ◌<◌, ◌⊎◌, ℕ, false, Err, IfOk, IfErr, List, [], OnErr, OnOk, length, vec_capacity, vec_len};
ghost use Rattle.core_host.specs.declared.host.Port.{Port};
ghost use Rattle.core_host.specs.declared.host.Port.TheVariants.{Main};
ghost use Rattle.core_host.specs.Outside.{Rose, Appends, IsCut};
ghost use Rattle.bus_law.specs.Memory.{Memory};
ghost use Rattle.verilog_mean.specs.Checked.{IsChecked};
ghost use Rattle.verilog_mean.specs.CorePorts.{HasCorePorts};
ghost use Rattle.verilog_mean.specs.Erase.{plain_tree};
ghost use Rattle.verilog_mean.specs.Plain.{Plain};
ghost use Rattle.verilog_mean.specs.Cycle.{State};
ghost use Rattle.verilog_mean.specs.Zero.{zero_state};
ghost use Rattle.core_sim.specs.Bench.{IsBench, IsCore, IsReady, end_with, shown};
ghost use Rattle.core_sim.specs.Pending.{IsKept};
ghost use Rattle.core_sim.specs.Joint.{joint_start, run_of};
ghost use Rattle.core_sim.specs.Ends.{end_of, run_text};
ghost use Rattle.core_sim.specs.Over.{IsOverBuses};
ghost use Rattle.core_sim.specs.Spans.{IsSpan, line_in, lines_of};

use crate::bench::Bench;
use crate::ended::{Ended, IrqSpan, RunOpts, SimRefusal};
use crate::event::Event;
use crate::line::line_of;
use crate::pending::Pending;
use bus_law::Mem;
use core_host::{Host, HostFailed, Port, push_all};
use std::alloc::Global;
use verilog_mean::Checked;

/// Runs a core over buses that answer as this memory, from contents that are all 0 and with interrupt lines in spans,
/// until the program asks for its end, an event stops the core, or its cycles have passed. Pushes the host text on the
/// main port, or the lines of the events where they are wanted. All memory is taken before the first cycle, a byte for
/// each cycle among it where the host text is pushed.
pub fn run_tree<H: Host>(
    alloc: Global,
    checked: &Checked,
    mem: Mem,
    opts: &RunOpts,
    host: &mut H,
) -> Result<Ended, SimRefusal>
    requires checked { IsChecked checked.now }
    requires ports { HasCorePorts (plain_tree checked.now.tree) }
    requires delays { 0 < length opts.now.delays }
    requires spans { All IsSpan opts.now.irqs }
    ensures end { IfOk result (λ e. e ≡ end_of (run_of (plain_tree checked.now.tree) (zero_state (plain_tree checked.now.tree)) mem opts.now.delays (lines_of opts.now.irqs)) opts.now.cycles) }
    ensures text { OnOk result (Appends (H.pushed host.old Main)
        (run_text opts.now.trace (run_of (plain_tree checked.now.tree) (zero_state (plain_tree checked.now.tree)) mem opts.now.delays (lines_of opts.now.irqs)) opts.now.cycles) (H.pushed host.new Main)) }
    ensures cut { result ≡ Err SimRefusal.WriteFault → IsCut (H.pushed host.old Main)
        (run_text opts.now.trace (run_of (plain_tree checked.now.tree) (zero_state (plain_tree checked.now.tree)) mem opts.now.delays (lines_of opts.now.irqs)) opts.now.cycles) (H.pushed host.new Main) }
    ensures cause { result ≡ Err SimRefusal.WriteFault → Rose (H.write_faults host.old) (H.write_faults host.new) }
    ensures empty { result ≡ Err SimRefusal.NoMemory → H.pushed host.new Main ≡ H.pushed host.old Main }
    ensures refusals { IfErr result (λ r. (r ≡ SimRefusal.WriteFault) ⊎ (r ≡ SimRefusal.NoMemory)) }
    ensures over { ¬ (result ≡ Err SimRefusal.NoMemory) → IsOverBuses (plain_tree checked.now.tree) (zero_state (plain_tree checked.now.tree)) mem opts.now.delays (lines_of opts.now.irqs) }
    ensures others { (p : Port) → ¬ (p ≡ Main) → H.pushed host.new p ≡ H.pushed host.old p }
    ensures left { (m : ℕ) → H.left host.new m ≡ H.left host.old m }
    ensures files { H.files host.new ≡ H.files host.old }
    ensures numbers { (m : ℕ) → H.given host.old m → H.given host.new m }
    ensures names { (m : ℕ) → H.given host.old m → H.opened host.new m ≡ H.opened host.old m }
    ensures reads { H.read_faults host.old ≤ H.read_faults host.new }
    ensures writes { H.write_faults host.old ≤ H.write_faults host.new }
{
    let mut bench = match Bench::new(alloc, checked, mem, opts.delays.items().as_slice()) {
        Ok(bench) => bench,
        Err(_) => return Err(SimRefusal::NoMemory),
    };
    // In a cycle at most one write is accepted, so this many bytes can be pending.
    let room = if opts.trace { 0 } else { opts.cycles };
    let mut pending = match Pending::with_room(alloc, room as usize) {
        Ok(pending) => pending,
        Err(_) => return Err(SimRefusal::NoMemory),
    };
    let irqs = opts.irqs.items().as_slice();
    match run_cycles(
        &mut bench,
        &mut pending,
        opts.trace,
        opts.cycles,
        irqs,
        host,
    ) {
        Ok(end) => Ok(end),
        Err(_) => Err(SimRefusal::WriteFault),
    }
}

/// Runs a bench from cycle 0 on, with no write pending and room for a byte in each cycle, where bytes are wanted.
fn run_cycles<H: Host>(
    bench: &mut Bench,
    pending: &mut Pending,
    trace: bool,
    cycles: u64,
    irqs: &[IrqSpan],
    host: &mut H,
) -> Result<Ended, HostFailed>
    requires spans { All IsSpan irqs.now }
    requires ready { IsReady bench.old }
    requires empty { IsKept trace [] pending.old }
    requires none { vec_len pending.old.bytes ≡ 0 }
    requires room { trace ≡ false → cycles ≤ vec_capacity pending.old.bytes }
    ensures end { IfOk result (λ e. (m : Plain) (contents : State) (memory : Memory) (delays : List ℕ) → IsCore m → IsBench m (joint_start contents memory delays) bench.old
        → e ≡ end_of (run_of m contents memory delays (lines_of irqs.now)) cycles) }
    ensures whole { OnOk result ((m : Plain) (contents : State) (memory : Memory) (delays : List ℕ) → IsCore m → IsBench m (joint_start contents memory delays) bench.old
        → Appends (H.pushed host.old Main) (run_text trace (run_of m contents memory delays (lines_of irqs.now)) cycles) (H.pushed host.new Main)) }
    ensures part { OnErr result ((m : Plain) (contents : State) (memory : Memory) (delays : List ℕ) → IsCore m → IsBench m (joint_start contents memory delays) bench.old
        → IsCut (H.pushed host.old Main) (run_text trace (run_of m contents memory delays (lines_of irqs.now)) cycles) (H.pushed host.new Main)) }
    ensures cause { OnErr result (Rose (H.write_faults host.old) (H.write_faults host.new)) }
    ensures others { (p : Port) → ¬ (p ≡ Main) → H.pushed host.new p ≡ H.pushed host.old p }
    ensures left { (m : ℕ) → H.left host.new m ≡ H.left host.old m }
    ensures files { H.files host.new ≡ H.files host.old }
    ensures numbers { (m : ℕ) → H.given host.old m → H.given host.new m }
    ensures names { (m : ℕ) → H.given host.old m → H.opened host.new m ≡ H.opened host.old m }
    ensures reads { H.read_faults host.old ≤ H.read_faults host.new }
    ensures writes { H.write_faults host.old ≤ H.write_faults host.new }
{
    let mut events: u64 = 0;
    for cycle in 0..cycles {
        let told = bench.cycle(cycle, lines_in(irqs, cycle));
        push_told(host, trace, told.event, pending.bytes.as_slice())?;
        events += u64::from(told.event.is_some());
        if let Some(end) = end_with(told.event, pending.code, events, cycle + 1) {
            return Ok(end);
        }
        pending.pass(trace, &told);
    }
    Ok(Ended::CyclesEnded { events, cycles })
}

/// The interrupt lines in a cycle, as a number with bits 3, 7 and 11.
fn lines_in(irqs: &[IrqSpan], cycle: u64) -> u32
    requires { All IsSpan irqs.now }
    ensures { result ≡ lines_of irqs.now cycle }
{
    match irqs {
        [] => 0,
        [span, rest @ ..] => line_in(*span, cycle) | lines_in(rest, cycle),
    }
}

/// What a span makes of the lines in a cycle: its line's bit in its cycles, and else 0.
fn line_in(span: IrqSpan, cycle: u64) -> u32
    requires { IsSpan span }
    ensures { result ≡ line_in span cycle }
{
    if span.from <= cycle && cycle <= span.to {
        match span.line {
            3 => 0x8,
            7 => 0x80,
            _other => 0x800,
        }
    } else {
        0
    }
}

/// How a run ends with this event, if it does, where this exit is pending. The counts are those at the end of the
/// event's cycle.
fn end_with(event: Option<Event>, code: Option<u32>, events: u64, cycles: u64) -> Option<Ended>
    ensures { result ≡ end_with event code events cycles }
{
    let event = event?;
    match event.kind {
        0 => Some(Ended::Exit {
            code: code?,
            events,
            cycles,
        }),
        3 => Some(Ended::Stopped {
            cause: event.cause,
            pc: event.pc,
            events,
            cycles,
        }),
        _ => None,
    }
}

/// Pushes what a cycle with this event shows on the main port: its line, where lines are wanted, and else at a
/// retirement the pending bytes.
fn push_told<H: Host>(
    host: &mut H,
    trace: bool,
    event: Option<Event>,
    pending: &[u8],
) -> Result<(), HostFailed>
    ensures whole { OnOk result (Appends (H.pushed host.old Main) (shown trace event pending.now) (H.pushed host.new Main)) }
    ensures part { OnErr result (IsCut (H.pushed host.old Main) (shown trace event pending.now) (H.pushed host.new Main)) }
    ensures cause { OnErr result (Rose (H.write_faults host.old) (H.write_faults host.new)) }
    ensures others { (p : Port) → ¬ (p ≡ Main) → H.pushed host.new p ≡ H.pushed host.old p }
    ensures left { (m : ℕ) → H.left host.new m ≡ H.left host.old m }
    ensures files { H.files host.new ≡ H.files host.old }
    ensures numbers { (m : ℕ) → H.given host.old m → H.given host.new m }
    ensures names { (m : ℕ) → H.given host.old m → H.opened host.new m ≡ H.opened host.old m }
    ensures reads { H.read_faults host.old ≤ H.read_faults host.new }
    ensures writes { H.write_faults host.old ≤ H.write_faults host.new }
{
    match event {
        Some(event) if trace => push_all(host, Port::Main, line_of(&event).as_slice()),
        Some(event) if event.kind == 0 => push_all(host, Port::Main, pending),
        _other => Ok(()),
    }
}
