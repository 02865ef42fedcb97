ghost use Rattle.std.specs.Prelude.{◌≡◌, ◌≤◌, ◌<◌, ◌↔◌, ◌⊎◌, ℕ, Err, length, IfOk, IfErr};
ghost use Rattle.verilog_tree.specs.declared.tree.Tree.{Tree};
ghost use Rattle.verilog_tree.specs.Module.{Reads, SpellsModule};
ghost use Rattle.verilog_tree.specs.Read.{read};
ghost use Rattle.verilog_read.specs.Places.{IsInPlace, StopsAt};
ghost use Rattle.verilog_read.specs.Seen.{seen};
ghost use Rattle.verilog_read.specs.Outcome.{IsTree, IsShort};

use crate::cursor::{Cursor, Fault};
use crate::lexer::tokens;
use crate::module::module_of;
use crate::refusal::{ReadRefusal, UnsupportedForm, refusal, refusal_at, too_deep};
use crate::token::Placed;
use std::alloc::Global;
use verilog_tree::Tree;

/// The tree of a text, which has at most 16 MiB.
pub fn read_module(alloc: Global, bytes: &[u8]) -> Result<Tree, ReadRefusal>
    // A tree that is read is the text's.
    ensures found { IfOk result (λ tree. Reads bytes.now tree) }
    // A text with a tree gives that tree, unless memory runs out.
    ensures only { (tree : Tree) → length bytes.now ≤ 16777216 → Reads bytes.now tree → IsTree result tree }
    ensures long { (result ≡ Err (ReadRefusal.TooLong (length bytes.now))) ↔ (16777216 < length bytes.now) }
    // A refusal at a place is at the first token with which nothing goes on or an expression is too deep, or at the first
    // fault.
    ensures place { IfErr result (λ e. IsInPlace bytes.now e) }
    // No other length is told.
    ensures told { (len : ℕ) → result ≡ Err (ReadRefusal.TooLong len) → len ≡ length bytes.now }
{
    if bytes.len() > 16_777_216 {
        return Err(ReadRefusal::TooLong {
            len: bytes.len() as u64,
        });
    }
    read_text(alloc, bytes)
}

/// The tree of a text that is not too long.
#[tactic(auto, using(crate::proofs::Whole::places))]
fn read_text(alloc: Global, bytes: &[u8]) -> Result<Tree, ReadRefusal>
    requires { length bytes.now ≤ 16777216 }
    ensures found { IfOk result (λ tree. Reads bytes.now tree) }
    ensures only { (tree : Tree) → Reads bytes.now tree → IsTree result tree }
    ensures short { IfErr result (λ e. IsShort e) }
    ensures place { IfErr result (λ e. IsInPlace bytes.now e) }
{
    let scanned = match tokens(alloc, bytes) {
        Ok(scanned) => scanned,
        Err(_) => return Err(ReadRefusal::NoMemory),
    };
    let tree = match read_tokens(alloc, scanned.found.as_slice(), scanned.end, scanned.form) {
        Ok(tree) => tree,
        Err(refused) => return Err(refused),
    };
    if !scanned.whole {
        return Err(refusal_at(scanned.end, scanned.form));
    }
    Ok(tree)
}

/// The module that the tokens of a text spell, all of them.
fn read_tokens(
    alloc: Global,
    tokens: &[Placed],
    end: u32,
    form: Option<UnsupportedForm>,
) -> Result<Tree, ReadRefusal>
    ensures found { IfOk result (λ tree. SpellsModule tree (seen tokens.now)) }
    ensures only { (tree : Tree) → SpellsModule tree (seen tokens.now) → IsTree result tree }
    ensures short { IfErr result (λ e. IsShort e) }
    ensures stops { IfErr result (λ e. (e ≡ ReadRefusal.NoMemory) ⊎ StopsAt (seen tokens.now) (read (seen tokens.now)) end form e) }
{
    let mut cursor = Cursor { tokens };
    let tree = match module_of(alloc, &mut cursor, tokens.len()) {
        Ok(tree) => tree,
        Err(Fault::NoMemory) => return Err(ReadRefusal::NoMemory),
        Err(Fault::Wrong) => return Err(refusal(cursor.tokens, end, form)),
        Err(Fault::Deep) => return Err(too_deep(tokens, cursor.tokens, end, form)),
    };
    if !cursor.tokens.is_empty() {
        return Err(refusal(cursor.tokens, end, form));
    }
    Ok(tree)
}
