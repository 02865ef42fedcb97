//! The plain data of a configuration, and the stages in which keys are written and read.
//!
//! A `StageMap` notes which entry uses which key in which stage, and finds the first fault of stages and keys
//! (`specs/Stages`). `specs/Search` says how the first of several uses is kept.
#![tactic(auto)]

mod absent;
mod config;
mod keys;
mod law;
mod map;
mod order;
mod search;
mod twice;

pub use config::{
    Config, CoreShape, Isa, MemShape, Param, ParamValue, PlugEntry, Stage, copy_name,
};
pub use keys::{Key, KeyUse, PlugUse, StageRefusal};
pub use law::{faults_exclude, one_first_fault};
pub use map::StageMap;
