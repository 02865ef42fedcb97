//! The circuits of the pipeline that commits in execute, one for each of its equations, over the operators of `hw_gates`. Each says its
//! value by a function of numbers (`specs/`), its width and level, and how many nodes it adds at most.
#![tactic(auto)]

mod after;
mod causes;
mod entry;
mod finish;
mod path;
mod pick;
mod told;
mod unit;

pub use after::{event, fences, flush_after, pc_after, started_after, stopped_after, valid_after};
pub use causes::{except_cause, except_value, of_trap};
pub use entry::{fresh_except, fresh_word, fresh_writes, takes};
pub use finish::{ends, enters, faulty, retires, through, traps, wins, writes};
pub use path::{asks, interrupt, kill, runs};
pub use pick::{Pick, gather};
pub use told::{
    kind, kind_alone, sys_cause, sys_value, tells, told_cause, told_rd, told_value, told_word,
};
pub use unit::{clears, goes};
