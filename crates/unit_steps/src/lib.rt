//! Units that may work for several cycles on an instruction, and never trap: when they keep the law of Exec, how they are built, and
//! the law that their parts meet.
//!
//! Who writes such a unit says what it does in each cycle (`specs/Cycles`), gives the circuit of that (`Works`), and shows that each
//! instruction of its rows ends in time with the value that the row computes, whatever its registers held before.
#![tactic(auto)]

mod law;
mod mark;
mod ports;
mod regs;
mod unit;

pub use law::{
    units_at_work_keep_their_law, working_parts_are_done, working_parts_meet_their_laws,
};
pub use regs::{drive_regs, make_regs};
pub use unit::{WorkNets, Works, build_working_unit};
