ghost use Rattle.std.specs.Prelude.{◌≡◌, ◌≤◌, IfOk, IfErr, length};
ghost use Rattle.verilog_tree.specs.declared.tree.Tree.{Tree};
ghost use Rattle.verilog_tree.specs.Module.{Reads};
ghost use Rattle.verilog_mean.specs.Bounds.{IsBounded};
ghost use Rattle.verilog_mean.specs.Checked.{IsChecked};
ghost use Rattle.verilog_mean.specs.Sound.{IsSound};
ghost use Rattle.verilog_load.specs.Told.{IsTold, unread_as, unsound_as};

use std::alloc::Global;
use thiserror::Error;
use verilog_mean::{Checked, MeanRefusal};
use verilog_read::{ReadRefusal, read_module};
use verilog_rules::check_tree;
use verilog_tree::Tree;

/// Why a text gives no checked tree.
#[derive(Clone, Copy, Debug, PartialEq, Eq, Error)]
pub enum TextRefusal {
    /// The text is too long, or has no tree. The reader's refusal is not its want of memory.
    #[error("the text is not read")]
    Unread(ReadRefusal),
    /// The tree of the text is not sound. The checker's refusal is not its want of memory.
    #[error("the module is not sound")]
    Unsound(MeanRefusal),
    /// Memory ran out.
    #[error("no memory for the tree of the text")]
    NoMemory,
}

/// The tree of a text, which is sound, with an order of its items. A text has at most 16,777,216 bytes.
///
/// # Errors
///
/// `TextRefusal::Unread` where the text is too long or has no tree, with the reader's refusal;
/// `TextRefusal::Unsound` where its tree is not sound, with the first refusal of the first rule that refuses it;
/// `TextRefusal::NoMemory`.
pub fn load_text(alloc: Global, bytes: &[u8]) -> Result<Checked, TextRefusal>
    ensures checked { IfOk result (λ c. IsChecked c) }
    ensures read { IfOk result (λ c. Reads bytes.now c.tree) }
    ensures told { IfErr result (λ e. IsTold bytes.now e) }
    ensures refused { (t : Tree) → length bytes.now ≤ 16777216 → Reads bytes.now t → IsSound t → IfErr result (λ e. e ≡ TextRefusal.NoMemory) }
{
    let tree = match read_bounded(alloc, bytes) {
        Ok(tree) => tree,
        Err(refusal) => return Err(unread(refusal)),
    };
    match check_tree(alloc, tree) {
        Ok(checked) => Ok(checked),
        Err(refusal) => Err(unsound(refusal)),
    }
}

/// A refusal of the reader.
fn unread(refusal: ReadRefusal) -> TextRefusal
    ensures { result ≡ unread_as refusal }
{
    match refusal {
        ReadRefusal::NoMemory => TextRefusal::NoMemory,
        _ => TextRefusal::Unread(refusal),
    }
}

/// A refusal of the checker.
fn unsound(refusal: MeanRefusal) -> TextRefusal
    ensures { result ≡ unsound_as refusal }
{
    match refusal {
        MeanRefusal::NoMemory => TextRefusal::NoMemory,
        _ => TextRefusal::Unsound(refusal),
    }
}

/// The tree of a text, which is bounded as each such tree is.
fn read_bounded(alloc: Global, bytes: &[u8]) -> Result<Tree, ReadRefusal>
    ensures read { IfOk result (λ t. Reads bytes.now t) }
    ensures short { IfOk result (λ t. length bytes.now ≤ 16777216) }
    ensures bounded { IfOk result (λ t. IsBounded t) }
    ensures told { IfErr result (λ e. IsTold bytes.now (unread_as e)) }
    ensures refused { (t : Tree) → length bytes.now ≤ 16777216 → Reads bytes.now t → IfErr result (λ e. e ≡ ReadRefusal.NoMemory) }
{
    match read_module(alloc, bytes) {
        Ok(tree) => Ok(tree),
        Err(refusal) => Err(refusal),
    }
}
