//! Two modules of nodes are one where their cycles agree.
#![tactic(auto)]

mod law;

pub use law::{
    agreeing_modules_are_one, agreeing_texts_are_one, grown_modules_keep_trees, same_trees_agree,
    texts_show_modules,
};
