ghost use Rattle.std.specs.Prelude.{◌≡◌, ◌<◌, get_or, map};
ghost use Rattle.isa_table.specs.Rows.{lui, table};

/// The kinds of instructions.
#[derive(Clone, Copy, Debug, PartialEq, Eq)]
pub enum Group {
    Alu,
    Branch,
    Load,
    Store,
    Shift,
    Fence,
    System,
    MulDiv,
}

/// A row of the instruction table: its number, and the words that are of it, those whose bits under `mask` are `value`.
#[derive(Clone, Copy, Debug, PartialEq, Eq)]
pub struct Row {
    pub index: u32,
    pub mask: u32,
    pub value: u32,
    pub group: Group,
    /// Whether what it does depends on the value of register rs1.
    pub uses_a: bool,
    /// Whether it depends on that of register rs2.
    pub uses_b: bool,
    /// Whether it has a value where it retires.
    pub has_value: bool,
}

// What a row takes from registers rs1 and rs2, and whether it has a value.
#[derive(Clone, Copy, Debug, PartialEq, Eq)]
struct Uses {
    a: bool,
    b: bool,
    value: bool,
}

const NOTHING: Uses = Uses {
    a: false,
    b: false,
    value: false,
};

const VALUE: Uses = Uses {
    a: false,
    b: false,
    value: true,
};

const A_VALUE: Uses = Uses {
    a: true,
    b: false,
    value: true,
};

const A_B: Uses = Uses {
    a: true,
    b: true,
    value: false,
};

const A_B_VALUE: Uses = Uses {
    a: true,
    b: true,
    value: true,
};

// The bits that tell rows apart: the opcode, with funct3, and with funct3 and funct7 (2.2); or the whole word.
const OPCODE: u32 = 0x0000_007f;

const FUNCT3: u32 = 0x0000_707f;

const FUNCT7: u32 = 0xfe00_707f;

const WHOLE: u32 = 0xffff_ffff;

// The name, mask, value, group and uses of each row, by number (chapter 24).
type Entry = (&'static str, u32, u32, Group, Uses);

const ROWS: [Entry; 57] = [
    ("LUI", OPCODE, 0x0000_0037, Group::Alu, VALUE),
    ("AUIPC", OPCODE, 0x0000_0017, Group::Alu, VALUE),
    ("JAL", OPCODE, 0x0000_006f, Group::Branch, VALUE),
    ("JALR", FUNCT3, 0x0000_0067, Group::Branch, A_VALUE),
    ("BEQ", FUNCT3, 0x0000_0063, Group::Branch, A_B),
    ("BNE", FUNCT3, 0x0000_1063, Group::Branch, A_B),
    ("BLT", FUNCT3, 0x0000_4063, Group::Branch, A_B),
    ("BGE", FUNCT3, 0x0000_5063, Group::Branch, A_B),
    ("BLTU", FUNCT3, 0x0000_6063, Group::Branch, A_B),
    ("BGEU", FUNCT3, 0x0000_7063, Group::Branch, A_B),
    ("LB", FUNCT3, 0x0000_0003, Group::Load, A_VALUE),
    ("LH", FUNCT3, 0x0000_1003, Group::Load, A_VALUE),
    ("LW", FUNCT3, 0x0000_2003, Group::Load, A_VALUE),
    ("LBU", FUNCT3, 0x0000_4003, Group::Load, A_VALUE),
    ("LHU", FUNCT3, 0x0000_5003, Group::Load, A_VALUE),
    ("SB", FUNCT3, 0x0000_0023, Group::Store, A_B),
    ("SH", FUNCT3, 0x0000_1023, Group::Store, A_B),
    ("SW", FUNCT3, 0x0000_2023, Group::Store, A_B),
    ("ADDI", FUNCT3, 0x0000_0013, Group::Alu, A_VALUE),
    ("SLTI", FUNCT3, 0x0000_2013, Group::Alu, A_VALUE),
    ("SLTIU", FUNCT3, 0x0000_3013, Group::Alu, A_VALUE),
    ("XORI", FUNCT3, 0x0000_4013, Group::Alu, A_VALUE),
    ("ORI", FUNCT3, 0x0000_6013, Group::Alu, A_VALUE),
    ("ANDI", FUNCT3, 0x0000_7013, Group::Alu, A_VALUE),
    ("SLLI", FUNCT7, 0x0000_1013, Group::Shift, A_VALUE),
    ("SRLI", FUNCT7, 0x0000_5013, Group::Shift, A_VALUE),
    ("SRAI", FUNCT7, 0x4000_5013, Group::Shift, A_VALUE),
    ("ADD", FUNCT7, 0x0000_0033, Group::Alu, A_B_VALUE),
    ("SUB", FUNCT7, 0x4000_0033, Group::Alu, A_B_VALUE),
    ("SLL", FUNCT7, 0x0000_1033, Group::Shift, A_B_VALUE),
    ("SLT", FUNCT7, 0x0000_2033, Group::Alu, A_B_VALUE),
    ("SLTU", FUNCT7, 0x0000_3033, Group::Alu, A_B_VALUE),
    ("XOR", FUNCT7, 0x0000_4033, Group::Alu, A_B_VALUE),
    ("SRL", FUNCT7, 0x0000_5033, Group::Shift, A_B_VALUE),
    ("SRA", FUNCT7, 0x4000_5033, Group::Shift, A_B_VALUE),
    ("OR", FUNCT7, 0x0000_6033, Group::Alu, A_B_VALUE),
    ("AND", FUNCT7, 0x0000_7033, Group::Alu, A_B_VALUE),
    ("FENCE", FUNCT3, 0x0000_000f, Group::Fence, NOTHING),
    ("ECALL", WHOLE, 0x0000_0073, Group::System, NOTHING),
    ("EBREAK", WHOLE, 0x0010_0073, Group::System, NOTHING),
    ("FENCE.I", FUNCT3, 0x0000_100f, Group::Fence, NOTHING),
    ("MUL", FUNCT7, 0x0200_0033, Group::MulDiv, A_B_VALUE),
    ("MULH", FUNCT7, 0x0200_1033, Group::MulDiv, A_B_VALUE),
    ("MULHSU", FUNCT7, 0x0200_2033, Group::MulDiv, A_B_VALUE),
    ("MULHU", FUNCT7, 0x0200_3033, Group::MulDiv, A_B_VALUE),
    ("DIV", FUNCT7, 0x0200_4033, Group::MulDiv, A_B_VALUE),
    ("DIVU", FUNCT7, 0x0200_5033, Group::MulDiv, A_B_VALUE),
    ("REM", FUNCT7, 0x0200_6033, Group::MulDiv, A_B_VALUE),
    ("REMU", FUNCT7, 0x0200_7033, Group::MulDiv, A_B_VALUE),
    ("CSRRW", FUNCT3, 0x0000_1073, Group::System, A_VALUE),
    ("CSRRS", FUNCT3, 0x0000_2073, Group::System, A_VALUE),
    ("CSRRC", FUNCT3, 0x0000_3073, Group::System, A_VALUE),
    ("CSRRWI", FUNCT3, 0x0000_5073, Group::System, VALUE),
    ("CSRRSI", FUNCT3, 0x0000_6073, Group::System, VALUE),
    ("CSRRCI", FUNCT3, 0x0000_7073, Group::System, VALUE),
    ("MRET", WHOLE, 0x3020_0073, Group::System, NOTHING),
    ("WFI", WHOLE, 0x1050_0073, Group::System, NOTHING),
];

// What the list has are the rows of the table.
fn rows() -> &'static [Entry]
    ensures names { map (λ e. e.0.now) result.now ≡ map (λ r. r.name) table }
    ensures masks { map (λ e. e.1) result.now ≡ map (λ r. r.mask) table }
    ensures values { map (λ e. e.2) result.now ≡ map (λ r. r.value) table }
    ensures groups { map (λ e. e.3) result.now ≡ map (λ r. r.group) table }
    ensures uses_a { map (λ e. e.4.a) result.now ≡ map (λ r. r.uses_a) table }
    ensures uses_b { map (λ e. e.4.b) result.now ≡ map (λ r. r.uses_b) table }
    ensures has_value { map (λ e. e.4.value) result.now ≡ map (λ r. r.has_value) table }
{
    &ROWS
}

/// The row of a number, from 0 to 56 (RISC-V Unprivileged ISA 20191213, chapter 24).
pub fn row_at(index: u32) -> Row
    requires { index < 57 }
    ensures index { result.index ≡ index }
    ensures mask { result.mask ≡ (get_or table index lui).mask }
    ensures value { result.value ≡ (get_or table index lui).value }
    ensures group { result.group ≡ (get_or table index lui).group }
    ensures uses_a { result.uses_a ≡ (get_or table index lui).uses_a }
    ensures uses_b { result.uses_b ≡ (get_or table index lui).uses_b }
    ensures has_value { result.has_value ≡ (get_or table index lui).has_value }
{
    let (_, mask, value, group, uses) = rows()[index as usize];
    Row {
        index,
        mask,
        value,
        group,
        uses_a: uses.a,
        uses_b: uses.b,
        has_value: uses.value,
    }
}

/// The name of the row of a number, from 0 to 56, in capitals.
pub fn row_name(index: u32) -> &'static str
    requires { index < 57 }
    ensures { result.now ≡ (get_or table index lui).name }
{
    rows()[index as usize].0
}
