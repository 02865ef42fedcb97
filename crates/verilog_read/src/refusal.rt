ghost use Rattle.std.specs.Prelude.{◌≡◌, ◌<◌, ◌∷◌, ℕ, List, length, MatchOption, None, Some};
ghost use Rattle.verilog_tree.specs.Lexemes.{Word};
ghost use Rattle.verilog_read.specs.Forms.{form_of, form_at};
ghost use Rattle.verilog_read.specs.Outcome.{IsPlaced};
ghost use Rattle.verilog_read.specs.Places.{before_last, deep_at, deep_behind, deep_next, opens, refusal_at, wrong_at};
ghost use Rattle.verilog_read.specs.Seen.{placed_seen, seen, token_seen};

use crate::cursor::is_unsupported;
use crate::lexer::is_letter;
use crate::token::{Placed, Sign, Token};
use core_host::Name;
use thiserror::Error;

/// Why a text was not read. A place is the offset of a byte in the text.
#[derive(Clone, Copy, Debug, PartialEq, Eq, Error)]
pub enum ReadRefusal {
    /// The text has this many bytes, and only 16 MiB are read.
    #[error("the text is too long")]
    TooLong { len: u64 },
    /// The token at this place is of a form of Verilog that the language lacks.
    #[error("the text uses a form that is not supported")]
    Unsupported { at: u32, form: UnsupportedForm },
    /// The text goes wrong at this place: at a token with which nothing goes on, at a malformed token,
    /// or at its end.
    #[error("the text is malformed")]
    Text { at: u32 },
    /// Memory ran out.
    #[error("no memory for the tree of the text")]
    NoMemory,
}

/// A form of Verilog that the language lacks.
#[derive(Clone, Copy, Debug, PartialEq, Eq)]
pub enum UnsupportedForm {
    /// A number without a size as a value.
    Bare,
    /// `*`, `**`, `/` or `%`.
    Times,
    /// `<<`, `>>`, `<<<` or `>>>`.
    Shift,
    /// `>`, `>=`, `!=`, `===` or `!==`.
    Compare,
    /// `&&`, `||`, `!`, `~&`, `~|`, `~^` or `^~`.
    Logic,
    /// `#`.
    Delay,
    /// `$` and a word.
    System,
    /// A directive of the compiler, which begins with a grave accent.
    Directive,
    /// A reserved word, as `case`.
    Word,
    /// An expression deeper than 64.
    Deep,
}

/// The refusal at the next of the tokens, or behind them, where this form stands.
pub fn refusal(tokens: &[Placed], end: u32, form: Option<UnsupportedForm>) -> ReadRefusal
    ensures { result ≡ wrong_at (seen tokens.now) end form }
{
    match tokens {
        [first, ..] => refusal_at(first.at, form_of_token(&first.token)),
        [] => refusal_at(end, form),
    }
}

/// The refusal of an expression that is too deep, where these are left of the tokens.
#[tactic(auto, using(crate::proofs::Deep::deep))]
pub fn too_deep(
    tokens: &[Placed],
    left: &[Placed],
    end: u32,
    form: Option<UnsupportedForm>,
) -> ReadRefusal
    ensures same { result ≡ deep_at (seen tokens.now) (seen left.now) end form }
    ensures placed { IsPlaced result }
{
    match before_last(left.len(), tokens) {
        Some(last) => deep_behind(last, left, end, form),
        None => deep_next(left, end, form),
    }
}

/// Of some tokens the one before the last `n`.
#[tactic(auto, using(crate::proofs::Deep::deep))]
fn before_last(n: usize, tokens: &[Placed]) -> Option<&Placed>
    ensures { MatchOption result (before_last n (seen tokens.now) ≡ None) (λ t. before_last n (seen tokens.now) ≡ Some (placed_seen t.now)) }
{
    let mut rest = tokens;
    while let [first, more @ ..] = rest {
        if more.len() == n {
            return Some(first);
        }
        rest = more;
    }
    None
}

/// The refusal where an expression is too deep, by the token that was read last.
fn deep_behind(
    last: &Placed,
    left: &[Placed],
    end: u32,
    form: Option<UnsupportedForm>,
) -> ReadRefusal
    ensures same { result ≡ deep_behind (Some (placed_seen last.now)) (seen left.now) end form }
    ensures placed { IsPlaced result }
{
    if opens(&last.token) {
        deep(last.at)
    } else {
        deep_next(left, end, form)
    }
}

/// The refusal of the next token, by which an expression is too deep.
fn deep_next(left: &[Placed], end: u32, form: Option<UnsupportedForm>) -> ReadRefusal
    ensures same { result ≡ deep_next (seen left.now) end form }
    ensures placed { IsPlaced result }
{
    match left {
        [next, ..] => deep(next.at),
        [] => refusal_at(end, form),
    }
}

/// The refusal of the token at this place, by which an expression is too deep.
fn deep(at: u32) -> ReadRefusal
    ensures { result ≡ ReadRefusal.Unsupported at UnsupportedForm.Deep }
{
    ReadRefusal::Unsupported {
        at,
        form: UnsupportedForm::Deep,
    }
}

/// Whether this is `(`, `{` or `~`, with which an expression is one deeper than what stands behind them.
fn opens(token: &Token) -> bool
    ensures { result ≡ opens (token_seen token.now) }
{
    matches!(token, Token::Mark(Sign::Open | Sign::OpenBrace | Sign::Not))
}

/// The refusal at a place, with the form of what stands there.
pub fn refusal_at(at: u32, form: Option<UnsupportedForm>) -> ReadRefusal
    ensures same { result ≡ refusal_at at form }
    ensures placed { IsPlaced result }
{
    match form {
        Some(form) => ReadRefusal::Unsupported { at, form },
        None => ReadRefusal::Text { at },
    }
}

/// The form of a token, if the language lacks it here.
fn form_of_token(token: &Token) -> Option<UnsupportedForm>
    ensures { result ≡ form_of (token_seen token.now) }
{
    match token {
        Token::Number(_) => Some(UnsupportedForm::Bare),
        Token::Word(word) => form_of_word(word),
        _ => None,
    }
}

/// The form of a word.
fn form_of_word(word: &Name) -> Option<UnsupportedForm>
    ensures { result ≡ form_of (Word word.now) }
{
    if is_unsupported(word) {
        Some(UnsupportedForm::Word)
    } else {
        None
    }
}

/// The form that a text begins with, if it begins with a sign that the language lacks.
pub fn form_of_bytes(bytes: &[u8]) -> Option<UnsupportedForm>
    requires { 0 < length bytes.now }
    ensures { (b : ℕ) (bs : List ℕ) → bytes.now ≡ b ∷ bs → result ≡ form_at b bs }
{
    form_of_sign(bytes[0], &bytes[1..])
}

/// The form of a sign whose first byte is `b`, by the bytes behind it.
fn form_of_sign(b: u8, more: &[u8]) -> Option<UnsupportedForm>
    ensures { result ≡ form_at b more.now }
{
    match (b, more) {
        (b'*' | b'/' | b'%', _) => Some(UnsupportedForm::Times),
        (b'<', [b'<', ..]) => Some(UnsupportedForm::Shift),
        (b'>', [b'>', ..]) => Some(UnsupportedForm::Shift),
        (b'>', _) => Some(UnsupportedForm::Compare),
        (b'=', [b'=', b'=', ..]) => Some(UnsupportedForm::Compare),
        (b'!', [b'=', ..]) => Some(UnsupportedForm::Compare),
        (b'!', _) => Some(UnsupportedForm::Logic),
        (b'&', [b'&', ..]) => Some(UnsupportedForm::Logic),
        (b'|', [b'|', ..]) => Some(UnsupportedForm::Logic),
        (b'~', [b'&' | b'|' | b'^', ..]) => Some(UnsupportedForm::Logic),
        (b'^', [b'~', ..]) => Some(UnsupportedForm::Logic),
        (b'#', _) => Some(UnsupportedForm::Delay),
        (b'$', [first, ..]) if is_letter(*first) => Some(UnsupportedForm::System),
        (b'`', _) => Some(UnsupportedForm::Directive),
        _ => None,
    }
}
