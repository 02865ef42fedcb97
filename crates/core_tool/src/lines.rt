ghost use Rattle.std.specs.Prelude.{◌≡◌, ◌≤◌, ℕ, OnOk, OnErr};
ghost use Rattle.core_host.specs.declared.host.Port.{Port};
ghost use Rattle.core_host.specs.declared.host.Port.TheVariants.{Notes};
ghost use Rattle.core_host.specs.Outside.{Rose, Appends, IsCut};
ghost use Rattle.core_tool.specs.Pieces.{joined, piece_bytes};

use core_host::{Host, HostFailed, Port, push_all};
use hex_text::hex_digits;
use itoa::Buffer;

/// A piece of a line.
#[derive(Clone, Copy)]
pub enum Piece<'a> {
    Text(&'a str),
    /// A number as eight hexadecimal digits.
    Hex(u32),
    Decimal(u64),
}

/// Pushes these pieces on the port of notes, one by one. It takes no memory.
pub fn push_pieces<H: Host>(host: &mut H, pieces: &[Piece<'_>]) -> Result<(), HostFailed>
    ensures whole { OnOk result (Appends (H.pushed host.old Notes) (joined pieces.now) (H.pushed host.new Notes)) }
    ensures part { OnErr result (IsCut (H.pushed host.old Notes) (joined pieces.now) (H.pushed host.new Notes)) }
    ensures cause { OnErr result (Rose (H.write_faults host.old) (H.write_faults host.new)) }
    ensures others { (p : Port) → ¬ (p ≡ Notes) → H.pushed host.new p ≡ H.pushed host.old p }
    ensures left { (m : ℕ) → H.left host.new m ≡ H.left host.old m }
    ensures files { H.files host.new ≡ H.files host.old }
    ensures numbers { (m : ℕ) → H.given host.old m → H.given host.new m }
    ensures names { (m : ℕ) → H.given host.old m → H.opened host.new m ≡ H.opened host.old m }
    ensures reads { H.read_faults host.old ≤ H.read_faults host.new }
    ensures writes { H.write_faults host.old ≤ H.write_faults host.new }
{
    for piece in pieces {
        push_piece(host, *piece)?;
    }
    Ok(())
}

/// Pushes a piece on the port of notes. It takes no memory.
fn push_piece<H: Host>(host: &mut H, piece: Piece<'_>) -> Result<(), HostFailed>
    ensures whole { OnOk result (Appends (H.pushed host.old Notes) (piece_bytes piece.entry) (H.pushed host.new Notes)) }
    ensures part { OnErr result (IsCut (H.pushed host.old Notes) (piece_bytes piece.entry) (H.pushed host.new Notes)) }
    ensures cause { OnErr result (Rose (H.write_faults host.old) (H.write_faults host.new)) }
    ensures others { (p : Port) → ¬ (p ≡ Notes) → H.pushed host.new p ≡ H.pushed host.old p }
    ensures left { (m : ℕ) → H.left host.new m ≡ H.left host.old m }
    ensures files { H.files host.new ≡ H.files host.old }
    ensures numbers { (m : ℕ) → H.given host.old m → H.given host.new m }
    ensures names { (m : ℕ) → H.given host.old m → H.opened host.new m ≡ H.opened host.old m }
    ensures reads { H.read_faults host.old ≤ H.read_faults host.new }
    ensures writes { H.write_faults host.old ≤ H.write_faults host.new }
{
    match piece {
        Piece::Text(text) => push_all(host, Port::Notes, text.as_bytes()),
        Piece::Hex(number) => push_all(host, Port::Notes, &hex_digits(number)),
        Piece::Decimal(number) => {
            let mut digits = Buffer::new();
            push_all(host, Port::Notes, digits.format(number).as_bytes())
        }
    }
}
