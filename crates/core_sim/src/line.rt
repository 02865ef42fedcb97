ghost use Rattle.std.specs.Prelude.{◌≡◌, ℕ, ◌+◌, ◌≤◌, ◌++◌, List, length};
ghost use Rattle.arrayvec.specs.ArrayVec.{array_vec_len};
ghost use Rattle.verilog_tree.specs.Hex.{hex8};
ghost use Rattle.core_sim.specs.Lines.{event_line, interrupted_line, register_part, retired_line, trapped_line};
ghost use Rattle.core_sim.specs.Bench.{port_event_of};

use crate::event::Event;
use arrayvec::ArrayVec;
use hex_text::hex_digits;
use itoa::Buffer;

/// The line of an event. It takes no memory.
pub fn line_of(event: &Event) -> ArrayVec<u8, 64>
    ensures { result.items ≡ event_line (port_event_of event.now) }
{
    match event.kind {
        0 => retired_line(event),
        2 => interrupted_line(event),
        _ => trapped_line(event),
    }
}

fn retired_line(event: &Event) -> ArrayVec<u8, 64>
    ensures { result.items ≡ retired_line (port_event_of event.now) }
{
    let mut line = ArrayVec::new();
    push_number(&mut line, "R pc=", event.pc);
    push_number(&mut line, " word=", event.word);
    push_register(&mut line, event.rd, event.value);
    push_text(&mut line, "\n");
    line
}

fn trapped_line(event: &Event) -> ArrayVec<u8, 64>
    ensures { result.items ≡ trapped_line (port_event_of event.now) }
{
    let mut line = ArrayVec::new();
    push_number(&mut line, "T pc=", event.pc);
    push_number(&mut line, " word=", event.word);
    push_number(&mut line, " cause=", event.cause);
    push_text(&mut line, "\n");
    line
}

fn interrupted_line(event: &Event) -> ArrayVec<u8, 64>
    ensures { result.items ≡ interrupted_line (port_event_of event.now) }
{
    let mut line = ArrayVec::new();
    push_number(&mut line, "I pc=", event.pc);
    push_number(&mut line, " cause=", event.cause);
    push_text(&mut line, "\n");
    line
}

/// Appends the register that a retired instruction writes, nothing where it is register 0.
fn push_register(line: &mut ArrayVec<u8, 64>, rd: u32, value: u32)
    requires { array_vec_len line.old ≤ 42 }
    ensures items { line.new.items ≡ line.old.items ++ register_part rd value }
    ensures len { array_vec_len line.new ≤ array_vec_len line.old + 21 }
{
    if rd == 0 {
        return;
    }
    let mut digits = Buffer::new();
    push_text(line, " x");
    push_text(line, digits.format(rd));
    push_number(line, "=", value);
}

/// Appends a label, and the eight digits of a number.
fn push_number(line: &mut ArrayVec<u8, 64>, label: &str, number: u32)
    requires { array_vec_len line.old + length label.now + 8 ≤ 64 }
    ensures items { line.new.items ≡ line.old.items ++ (label.now ++ hex8 number) }
    ensures len { array_vec_len line.new ≡ array_vec_len line.old + length label.now + 8 }
{
    push_text(line, label);
    push_bytes(line, &hex_digits(number));
}

fn push_text(line: &mut ArrayVec<u8, 64>, text: &str)
    requires { array_vec_len line.old + length text.now ≤ 64 }
    ensures items { line.new.items ≡ line.old.items ++ text.now }
    ensures len { array_vec_len line.new ≡ array_vec_len line.old + length text.now }
{
    push_bytes(line, text.as_bytes());
}

/// Appends bytes that fit.
fn push_bytes(line: &mut ArrayVec<u8, 64>, bytes: &[u8])
    requires { array_vec_len line.old + length bytes.now ≤ 64 }
    ensures items { line.new.items ≡ line.old.items ++ bytes.now }
    ensures len { array_vec_len line.new ≡ array_vec_len line.old + length bytes.now }
{
    let _fits = line.try_extend_from_slice(bytes);
}
