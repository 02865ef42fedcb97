ghost use Rattle.std.specs.Prelude.{◌≡◌, drop, map, true, IfOk};
ghost use Rattle.verilog_tree.specs.Words.{same_bytes, is_among, grammar_words, unsupported_words, is_reserved as is_reserved_word};
ghost use Rattle.verilog_tree.specs.Readers as spec;
ghost use Rattle.verilog_tree.specs.Read as read;
ghost use Rattle.verilog_read.specs.Seen.{sign_seen, seen};
ghost use Rattle.verilog_read.specs.Answer.{Answers};

use crate::token::{Placed, Sign, Token};
use core_host::Name;
use std::alloc::{AllocError, Global};
use verilog_tree::{Ident, Lit, Num};

/// Why the tokens were not read. The cursor then stands at the token with which nothing goes on, or behind which an
/// expression is too deep.
#[derive(Clone, Copy, Debug, PartialEq, Eq)]
pub enum Fault {
    NoMemory,
    Wrong,
    /// An expression is too deep.
    Deep,
}

impl From<AllocError> for Fault {
    ghost use Rattle.std.specs.Prelude.{◌≡◌};
    ghost use Rattle.verilog_read.specs.declared.cursor.Fault.TheVariants.{NoMemory};

    ghost from_gives = { λ _ e. e ≡ NoMemory };

    fn from(_error: AllocError) -> Fault {
        Fault::NoMemory
    }
}

/// The tokens that are left.
#[derive(Drop)]
pub struct Cursor<'a> {
    pub tokens: &'a [Placed],
}

impl Cursor<'_> {
    /// Goes past a token, if there is one.
    pub fn advance(&mut self)
        ensures { seen self.new.tokens.now ≡ drop 1 (seen self.old.tokens.now) }
    {
        let tokens = self.tokens;
        if let [_, rest @ ..] = tokens {
            self.tokens = rest;
        }
    }
}

/// Takes a sign that must come, and answers its place.
pub fn expect(cursor: &mut Cursor<'_>, sign: Sign) -> Result<u32, Fault>
    requires { spec.same_sign (sign_seen sign) (sign_seen sign) ≡ true }
    ensures { Answers (λ at. at) (spec.expect (sign_seen sign) (seen cursor.old.tokens.now)) result (seen cursor.new.tokens.now) }
{
    let tokens = cursor.tokens;
    match tokens {
        [
            Placed {
                at,
                token: Token::Mark(found),
            },
            rest @ ..,
        ] if is_same(sign, *found) => {
            cursor.tokens = rest;
            Ok(*at)
        }
        _ => Err(Fault::Wrong),
    }
}

/// Takes a number that must come.
pub fn number(cursor: &mut Cursor<'_>) -> Result<Num, Fault>
    ensures { Answers (λ n. n) (spec.number (seen cursor.old.tokens.now)) result (seen cursor.new.tokens.now) }
{
    let tokens = cursor.tokens;
    match tokens {
        [
            Placed {
                at,
                token: Token::Number(value),
            },
            rest @ ..,
        ] => {
            cursor.tokens = rest;
            Ok(Num {
                at: *at,
                value: *value,
            })
        }
        _ => Err(Fault::Wrong),
    }
}

/// Whether a name is this word.
pub fn same(name: &Name, word: &str) -> bool
    ensures { result ≡ same_bytes name.now word.now }
{
    name.is(word)
}

/// Whether the next token is this word.
pub fn next_is_word(cursor: &Cursor<'_>, word: &str) -> bool
    ensures { result ≡ read.next_is (read.is_word word.now) (seen cursor.now.tokens.now) }
{
    let tokens = cursor.tokens;
    match tokens {
        [
            Placed {
                token: Token::Word(w),
                ..
            },
            ..
        ] => same(w, word),
        _ => false,
    }
}

/// Whether the next token is this sign.
pub fn next_is_sign(cursor: &Cursor<'_>, sign: Sign) -> bool
    ensures { result ≡ read.next_is (spec.is_mark (sign_seen sign)) (seen cursor.now.tokens.now) }
{
    let tokens = cursor.tokens;
    match tokens {
        [
            Placed {
                token: Token::Mark(found),
                ..
            },
            ..
        ] => is_same(sign, *found),
        _ => false,
    }
}

/// Takes a word of the grammar that must come, and answers its place.
pub fn keyword(cursor: &mut Cursor<'_>, word: &str) -> Result<u32, Fault>
    ensures { Answers (λ at. at) (read.keyword word.now (seen cursor.old.tokens.now)) result (seen cursor.new.tokens.now) }
{
    let tokens = cursor.tokens;
    match tokens {
        [
            Placed {
                at,
                token: Token::Word(w),
            },
            rest @ ..,
        ] => {
            if !same(w, word) {
                return Err(Fault::Wrong);
            }
            cursor.tokens = rest;
            Ok(*at)
        }
        _ => Err(Fault::Wrong),
    }
}

/// Takes a name that must come.
pub fn name(alloc: Global, cursor: &mut Cursor<'_>) -> Result<Ident, Fault>
    ensures { Answers (λ i. i) (read.name (seen cursor.old.tokens.now)) result (seen cursor.new.tokens.now) }
{
    let tokens = cursor.tokens;
    match tokens {
        [
            Placed {
                at,
                token: Token::Word(w),
            },
            rest @ ..,
        ] => {
            if is_reserved(w) {
                return Err(Fault::Wrong);
            }
            cursor.tokens = rest;
            Ok(ident(alloc, *at, w)?)
        }
        _ => Err(Fault::Wrong),
    }
}

/// A name at a place.
pub fn ident(alloc: Global, at: u32, name: &Name) -> Result<Ident, AllocError>
    ensures { IfOk result (λ i. (i.at ≡ at) × (i.text ≡ name.now)) }
{
    let text = String::from_str(alloc, name.text())?;
    Ok(Ident {
        at,
        text: Name::of(text),
    })
}

/// Takes a literal that must come.
pub fn literal(cursor: &mut Cursor<'_>) -> Result<Lit, Fault>
    ensures { Answers (λ l. l) (read.literal (seen cursor.old.tokens.now)) result (seen cursor.new.tokens.now) }
{
    let tokens = cursor.tokens;
    match tokens {
        [
            Placed {
                at,
                token: Token::Literal { width, value },
            },
            rest @ ..,
        ] => {
            cursor.tokens = rest;
            Ok(Lit {
                at: *at,
                width: *width,
                value: *value,
            })
        }
        _ => Err(Fault::Wrong),
    }
}

/// Whether two signs are the same.
fn is_same(sign: Sign, found: Sign) -> bool
    ensures { result ≡ spec.same_sign (sign_seen sign) (sign_seen found) }
{
    found == sign
}

/// Whether a word is one of the grammar, or one that is not supported, and so no name.
#[tactic(auto, unfolding(verilog_tree::specs::Words::is_reserved))]
pub fn is_reserved(name: &Name) -> bool
    ensures { result ≡ is_reserved_word name.now }
{
    is_grammar_word(name) || is_unsupported(name)
}

/// Whether a word is one of the grammar.
#[tactic(auto, unfolding(verilog_tree::specs::Words::grammar_words))]
fn is_grammar_word(name: &Name) -> bool
    ensures { result ≡ is_among name.now grammar_words }
{
    let words: [&str; 11] = [
        "module",
        "input",
        "output",
        "wire",
        "reg",
        "assign",
        "always",
        "posedge",
        "if",
        "else",
        "endmodule",
    ];
    is_one_of(name, &words)
}

/// Whether a word is one of Verilog that the language lacks.
#[tactic(auto, unfolding(verilog_tree::specs::Words::unsupported_words))]
pub fn is_unsupported(name: &Name) -> bool
    ensures { result ≡ is_among name.now unsupported_words }
{
    let words: [&str; 40] = [
        "begin",
        "end",
        "case",
        "casex",
        "casez",
        "endcase",
        "default",
        "for",
        "forever",
        "while",
        "repeat",
        "wait",
        "initial",
        "task",
        "endtask",
        "function",
        "endfunction",
        "generate",
        "endgenerate",
        "genvar",
        "parameter",
        "localparam",
        "defparam",
        "integer",
        "real",
        "time",
        "event",
        "inout",
        "tri",
        "wand",
        "wor",
        "signed",
        "negedge",
        "specify",
        "endspecify",
        "fork",
        "join",
        "force",
        "release",
        "deassign",
    ];
    is_one_of(name, &words)
}

/// Whether a word is one of these few.
fn is_one_of(name: &Name, words: &[&str]) -> bool
    ensures { result ≡ is_among name.now (map (λ w. w.now) words.now) }
{
    match words {
        [] => false,
        [first, others @ ..] => same(name, first) || is_one_of(name, others),
    }
}
