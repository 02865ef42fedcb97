use std::alloc::{AllocError, Global};

/// What the cores differ in.
#[derive(Clone, Copy)]
pub(crate) struct Core {
    pub(crate) stages: u32,
    pub(crate) bypass: bool,
}

/// Instructions from the reset pc on, most of which read what those before them write. NOPs follow up to 16 words, and these
/// are repeated.
pub(crate) const PROGRAM: &[u32] = &[
    0x8000_00b7, // LUI x1, 0x80000
    0xfff0_8113, // ADDI x2, x1, -1
    0x4020_81b3, // SUB x3, x1, x2
    0x0020_a233, // SLT x4, x1, x2
    0x0011_32b3, // SLTU x5, x2, x1
    0x0032_8333, // ADD x6, x5, x3
    0x0051_43b3, // XOR x7, x2, x5
    0x0f03_e413, // ORI x8, x7, 240
    0x0084_74b3, // AND x9, x8, x8
    0x0000_0517, // AUIPC x10, 0
    0x0014_b593, // SLTIU x11, x9, 1
    0x00a5_8033, // ADD x0, x11, x10
    0x0000_0633, // ADD x12, x0, x0
    0x0096_6093, // ORI x1, x12, 9
];

impl Core {
    /// The text of its configuration.
    pub(crate) fn text(&self, alloc: Global) -> Result<String, AllocError> {
        let (stages, bypass) = (self.stages, self.bypass);
        format!(in alloc;
            "isa = 'claimed'
stages = {stages}
plugin = [{{ kind = 'fetch' }}, {{ kind = 'decoder' }}, {{ kind = 'regfile' }}, {{ kind = 'hazard', bypass = {bypass} }}, {{ kind = 'alu' }}]
"
        )
    }
}
