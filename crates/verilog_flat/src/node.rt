ghost use Rattle.std.specs.Prelude.{◌≡◌, ◌≤◌, length};
ghost use Rattle.verilog_flat.specs.Flat.{IsFit, node_value};

/// A node of a circuit: a number of at most 64 bits, computed from nodes before it.
///
/// Operands are numbers of nodes. A `mask` has a 1 for each bit of the node's value.
#[derive(Clone, Copy, Drop)]
pub enum Node {
    /// A constant.
    Literal { value: u64 },
    /// An input port of this cycle.
    Input { port: u32 },
    /// What a register holds.
    Reg { reg: u32 },
    /// Bits of a node from bit `low` on.
    Slice { of: u32, low: u32, mask: u64 },
    /// A cell of an array of `size` cells that begins at the cell `base`; 0 past its end.
    Cell { index: u32, base: u32, size: u32 },
    /// Each bit turned over.
    Not { of: u32, mask: u64 },
    /// `high` above `low`, which has `shift` bits.
    Join { high: u32, low: u32, shift: u32 },
    /// Or, bit by bit.
    Or { a: u32, b: u32 },
    /// Exclusive or, bit by bit.
    Xor { a: u32, b: u32 },
    /// And, bit by bit.
    And { a: u32, b: u32 },
    /// 1 where both are equal, else 0.
    Equal { a: u32, b: u32 },
    /// 1 where `a` is below `b`, else 0.
    Less { a: u32, b: u32 },
    /// The sum, without its carry.
    Plus { a: u32, b: u32, mask: u64 },
    /// `a` less `b`, without the borrow.
    Minus { a: u32, b: u32, mask: u64 },
    /// `first` where `test` is 1, else `other`.
    Choice { test: u32, first: u32, other: u32 },
}

/// The value of a node that may use the `at` first values of `vals`.
#[inline]
pub fn value_of(
    node: Node,
    regs: &[u64],
    cells: &[u64],
    ins: &[u64],
    vals: &[u64],
    at: usize,
) -> u64
    requires fits { IsFit (length regs.now) (length cells.now) (length ins.now) at node }
    requires room { at ≤ length vals.now }
    ensures { result ≡ node_value regs.now cells.now ins.now vals.now node }
{
    match node {
        Node::Literal { value } => value,
        Node::Input { port } => ins[port as usize],
        Node::Reg { reg } => regs[reg as usize],
        Node::Slice { of, low, mask } => (vals[of as usize] >> low) & mask,
        Node::Cell { index, base, size } => {
            let at = vals[index as usize];
            if at < u64::from(size) {
                cells[base as usize + at as usize]
            } else {
                0
            }
        }
        Node::Not { of, mask } => mask.saturating_sub(vals[of as usize]),
        Node::Join { high, low, shift } => {
            (vals[high as usize] << shift).wrapping_add(vals[low as usize])
        }
        Node::Or { a, b } => vals[a as usize] | vals[b as usize],
        Node::Xor { a, b } => vals[a as usize] ^ vals[b as usize],
        Node::And { a, b } => vals[a as usize] & vals[b as usize],
        Node::Equal { a, b } => if vals[a as usize] == vals[b as usize] {
            1
        } else {
            0
        },
        Node::Less { a, b } => if vals[a as usize] < vals[b as usize] {
            1
        } else {
            0
        },
        Node::Plus { a, b, mask } => vals[a as usize].wrapping_add(vals[b as usize]) & mask,
        Node::Minus { a, b, mask } => vals[a as usize].wrapping_sub(vals[b as usize]) & mask,
        Node::Choice { test, first, other } => {
            if vals[test as usize] == 1 {
                vals[first as usize]
            } else {
                vals[other as usize]
            }
        }
    }
}
