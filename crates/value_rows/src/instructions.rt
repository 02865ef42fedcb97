use isa_table::{Claim, Group, claims_overlap, row_at, row_name};

/// A row: its number, name, mask, value and group, and a bit for each of: it uses rs1, it uses rs2, it has a value.
type Wanted = (u32, &'static str, u32, u32, Group, u32);

const ROWS: &[Wanted] = &[
    (0, "LUI", 0x7f, 0x37, Group::Alu, 0b001),
    (1, "AUIPC", 0x7f, 0x17, Group::Alu, 0b001),
    (2, "JAL", 0x7f, 0x6f, Group::Branch, 0b001),
    (3, "JALR", 0x707f, 0x67, Group::Branch, 0b101),
    (6, "BLT", 0x707f, 0x4063, Group::Branch, 0b110),
    (9, "BGEU", 0x707f, 0x7063, Group::Branch, 0b110),
    (12, "LW", 0x707f, 0x2003, Group::Load, 0b101),
    (14, "LHU", 0x707f, 0x5003, Group::Load, 0b101),
    (15, "SB", 0x707f, 0x23, Group::Store, 0b110),
    (20, "SLTIU", 0x707f, 0x3013, Group::Alu, 0b101),
    (24, "SLLI", 0xfe00707f, 0x1013, Group::Shift, 0b101),
    (26, "SRAI", 0xfe00707f, 0x40005013, Group::Shift, 0b101),
    (28, "SUB", 0xfe00707f, 0x40000033, Group::Alu, 0b111),
    (31, "SLTU", 0xfe00707f, 0x3033, Group::Alu, 0b111),
    (34, "SRA", 0xfe00707f, 0x40005033, Group::Shift, 0b111),
    (37, "FENCE", 0x707f, 0xf, Group::Fence, 0b000),
    (38, "ECALL", 0xffffffff, 0x73, Group::System, 0b000),
    (39, "EBREAK", 0xffffffff, 0x100073, Group::System, 0b000),
    (40, "FENCE.I", 0x707f, 0x100f, Group::Fence, 0b000),
    (43, "MULHSU", 0xfe00707f, 0x2002033, Group::MulDiv, 0b111),
    (48, "REMU", 0xfe00707f, 0x2007033, Group::MulDiv, 0b111),
    (49, "CSRRW", 0x707f, 0x1073, Group::System, 0b101),
    (54, "CSRRCI", 0x707f, 0x7073, Group::System, 0b001),
    (55, "MRET", 0xffffffff, 0x30200073, Group::System, 0b000),
    (56, "WFI", 0xffffffff, 0x10500073, Group::System, 0b000),
];

/// Whether the table has this row.
fn is_row(index: u32, name: &str, mask: u32, value: u32, group: Group, uses: u32) -> bool {
    if index >= 57 {
        return false;
    }
    let row = row_at(index);
    let told = [row.uses_a, row.uses_b, row.has_value];
    let wanted = [uses & 0b100 != 0, uses & 0b010 != 0, uses & 0b001 != 0];
    row.index == index
        && row.mask == mask
        && row.value == value
        && row.group == group
        && told == wanted
        && row_name(index) == name
}

/// Whether the table has each row.
pub fn rows_are_right() -> bool {
    for (index, name, mask, value, group, uses) in ROWS {
        if !is_row(*index, *name, *mask, *value, *group, *uses) {
            return false;
        }
    }
    true
}

/// Masks and values of two claims, and whether some word is of both.
const CLAIMS: &[((u32, u32), (u32, u32), bool)] = &[
    // ADD and SUB; ADD and every word of its opcode; a claim and itself.
    ((0xfe00707f, 0x33), (0xfe00707f, 0x40000033), false),
    ((0xfe00707f, 0x33), (0x7f, 0x33), true),
    ((0x7f, 0x33), (0xfe00707f, 0x40000033), true),
    ((0xffffffff, 0x73), (0xffffffff, 0x73), true),
    // Masks that share no bit; every word; no mask with a value.
    ((0xff, 0x12), (0xff00, 0x3400), true),
    ((0, 0), (0xffffffff, 0x10500073), true),
    ((0, 1), (0, 1), false),
    // A value with a bit outside its mask, on either side.
    ((0x7f, 0xb3), (0x7f, 0x33), false),
    ((0x7f, 0x33), (0x7f, 0x80000033), false),
];

fn claim(numbers: (u32, u32)) -> Claim {
    let (mask, value) = numbers;
    Claim {
        mask,
        value,
        row: 0,
    }
}

/// Whether each pair of claims overlaps as wanted, either way.
pub fn claims_are_right() -> bool {
    for (a, b, wanted) in CLAIMS {
        let one = claims_overlap(claim(*a), claim(*b));
        let other = claims_overlap(claim(*b), claim(*a));
        if one != *wanted || other != *wanted {
            return false;
        }
    }
    true
}
