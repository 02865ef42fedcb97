ghost use Rattle.std.specs.Prelude.{true, false, Some, None, ◌≡◌, ◌≤◌, ◌<◌, ◌+◌, ◌*◌, ◌^◌, IfOk, IfSome, MatchOption, List, slice_index, length, []};
ghost use Rattle.std.specs.Char.{digit_value};
ghost use Rattle.std.specs.Str.Parse.{digits_value};
ghost use Rattle.verilog_tree.specs.Lexemes as lexeme;
ghost use Rattle.verilog_tree.specs.Lexemes.{Mark};
ghost use Rattle.verilog_tree.specs.Bytes as kinds;
ghost use Rattle.verilog_tree.specs.Blanks as blanks;
ghost use Rattle.verilog_tree.specs.Lex as spec;
ghost use Rattle.verilog_tree.specs.Lex.{HasTokens};
ghost use Rattle.verilog_read.specs.Places.{HasFront};
ghost use Rattle.verilog_read.specs.Seen.{sign_seen, token_seen, seen};
ghost use Rattle.verilog_read.specs.Runs.{passes_class, IsFine, AllPass, word_of, number_of, token_of, value_after};

use crate::fault::fault_in;
use crate::refusal::{UnsupportedForm, form_of_bytes};
use crate::token::{Placed, Sign, Token};
use core_host::Name;
use std::alloc::{AllocError, Global};

/// The most bytes of a word.
pub const LONGEST_WORD: usize = 255;

/// The most digits of a number.
pub const LONGEST_NUMBER: usize = 9;

/// Behind `//`: the text from the end of the comment on.
fn past_line(bytes: &[u8]) -> &[u8]
    ensures same { blanks.skipped blanks.Line bytes.now ≡ blanks.skipped blanks.Between result.now }
    ensures shorter { length result.now ≤ length bytes.now }
{
    let mut rest = bytes;
    while let [b, more @ ..] = rest {
        rest = more;
        if *b == b'\n' {
            return rest;
        }
    }
    rest
}

/// Behind `/*`: the text behind the next `*/`.
fn past_block(bytes: &[u8]) -> Option<&[u8]>
    ensures same { MatchOption result (blanks.skipped blanks.Block bytes.now ≡ None) (λ r. blanks.skipped blanks.Block bytes.now ≡ blanks.skipped blanks.Between r.now) }
    ensures shorter { IfSome result (λ r. length r.now ≤ length bytes.now) }
{
    let mut rest = bytes;
    while let [b, more @ ..] = rest {
        if *b == b'*' {
            if let [b'/', behind @ ..] = more {
                return Some(behind);
            }
        }
        rest = more;
    }
    None
}

/// The text from its next token on, unless a comment does not end.
fn skip(bytes: &[u8]) -> Option<&[u8]>
    ensures same { MatchOption result (blanks.skipped blanks.Between bytes.now ≡ None) (λ r. blanks.skipped blanks.Between bytes.now ≡ Some r.now) }
    ensures shorter { IfSome result (λ r. length r.now ≤ length bytes.now) }
{
    let mut rest = bytes;
    while let [b, more @ ..] = rest {
        if matches!(*b, 9 | 10 | 12 | 13 | 32) {
            rest = more;
        } else if *b != b'/' {
            return Some(rest);
        } else if let [b'/', behind @ ..] = more {
            rest = past_line(behind);
        } else if let [b'*', behind @ ..] = more {
            rest = past_block(behind)?;
        } else {
            return Some(rest);
        }
    }
    Some(rest)
}

/// The bytes that a run of a token has.
#[derive(Clone, Copy)]
pub enum Class {
    Word,
    Digits,
    Literal(u8),
}

/// What a digit stands for, in any base up to 16, and else 16.
pub fn digit(b: u8) -> u8
    ensures { (spec.in_base 16 b ≡ true → result ≡ digit_value b) × (spec.in_base 16 b ≡ false → result ≡ 16) }
{
    match b {
        b'0'..=b'9' => b - b'0',
        b'a'..=b'f' => b - b'a' + 10,
        b'A'..=b'F' => b - b'A' + 10,
        _ => 16,
    }
}

/// Whether a byte is a letter or `_`.
pub fn is_letter(b: u8) -> bool
    ensures { result ≡ kinds.is_letter b }
{
    matches!(b, b'A'..=b'Z' | b'a'..=b'z' | b'_')
}

/// Whether a byte is a decimal digit.
pub fn is_digit(b: u8) -> bool
    ensures { result ≡ kinds.is_digit b }
{
    b.is_ascii_digit()
}

/// Whether a byte may stand in a run.
fn passes(class: Class, b: u8) -> bool
    requires { IsFine class }
    ensures { result ≡ passes_class class b }
{
    match class {
        Class::Word => is_letter(b) || is_digit(b) || b == b'$',
        Class::Digits => is_digit(b),
        Class::Literal(base) => digit(b) < base || b == b'_',
    }
}

/// The text behind the longest front that passes.
pub fn behind(class: Class, bytes: &[u8]) -> &[u8]
    requires { IsFine class }
    ensures same { kinds.behind (passes_class class) bytes.now ≡ result.now }
    ensures shorter { length result.now ≤ length bytes.now }
{
    let mut rest = bytes;
    while let [b, more @ ..] = rest {
        if !passes(class, *b) {
            return rest;
        }
        rest = more;
    }
    rest
}

/// The value of decimal digits, unless it is more than `most`.
#[tactic(auto, using(crate::proofs::Values::values))]
fn decimal(digits: &[u8], most: u64) -> Option<u64>
    requires digits { AllPass kinds.is_digit digits.now }
    requires most { most < 2 ^ 59 }
    ensures { MatchOption result (most < digits_value 10 digits.now) (λ v. (v ≡ digits_value 10 digits.now) × (v ≤ most)) }
{
    let mut rest = digits;
    let mut value: u64 = 0;
    while let [d, more @ ..] = rest {
        value = value * 10 + u64::from(digit(*d));
        if value > most {
            return None;
        }
        rest = more;
    }
    Some(value)
}

/// The value of a literal's digits, unless it is more than `most`.
fn literal_value(base: u8, digits: &[u8], most: u64) -> Option<u64>
    requires base { (2 ≤ base) × (base ≤ 16) }
    requires digits { AllPass (spec.in_literal base) digits.now }
    ensures { MatchOption result (most < value_after base 0 digits.now) (λ v. (v ≡ value_after base 0 digits.now) × (v ≤ most)) }
{
    let mut rest = digits;
    let mut value: u64 = 0;
    while let [d, more @ ..] = rest {
        rest = more;
        if *d != b'_' {
            value = next_value(value, base, digit(*d), most)?;
        }
    }
    Some(value)
}

/// `value * base + digit`, unless it is more than `most`.
pub fn next_value(value: u64, base: u8, digit: u8, most: u64) -> Option<u64>
    ensures { MatchOption result (most < value * base + digit) (λ v. (v ≡ value * base + digit) × (v ≤ most)) }
{
    let next = value
        .checked_mul(u64::from(base))?
        .checked_add(u64::from(digit))?;
    if next > most { None } else { Some(next) }
}

/// A word, which begins with a letter.
fn word(alloc: Global, bytes: &[u8]) -> Result<Option<(Token, &[u8])>, AllocError>
    requires some { 0 < length bytes.now }
    requires first { kinds.is_letter (slice_index bytes.now 0) ≡ true }
    ensures token { IfOk result (λ o. MatchOption o (word_of bytes.now ≡ None) (λ x. word_of bytes.now ≡ Some (token_seen x.0, x.1.now))) }
    ensures shorter { IfOk result (λ o. IfSome o (λ x. length x.1.now < length bytes.now)) }
{
    let rest = behind(Class::Word, &bytes[1..]);
    let text = &bytes[..bytes.len() - rest.len()];
    if text.len() > LONGEST_WORD {
        return Ok(None);
    }
    // The bytes of a word are letters, digits, `_` and `$`, so this does not fail.
    let Ok(text) = str::from_utf8(text) else {
        return Ok(None);
    };
    let name = Name::of(String::from_str(alloc, text)?);
    Ok(Some((Token::Word(name), rest)))
}

/// The base that a letter names.
pub fn base_of(b: u8) -> Option<u8>
    ensures { result ≡ spec.base_of b }
{
    match b {
        b'b' | b'B' => Some(2),
        b'o' | b'O' => Some(8),
        b'd' | b'D' => Some(10),
        b'h' | b'H' => Some(16),
        _ => None,
    }
}

/// The sign of one byte that no longer sign begins with.
fn single_sign(b: u8) -> Option<Sign>
    ensures { MatchOption result (spec.single_sign spec.single_signs b [] ≡ None) (λ s. spec.single_sign spec.single_signs b [] ≡ Some (Mark (sign_seen s), [])) }
{
    match b {
        b'(' => Some(Sign::Open),
        b')' => Some(Sign::Close),
        b'[' => Some(Sign::OpenBracket),
        b']' => Some(Sign::CloseBracket),
        b'{' => Some(Sign::OpenBrace),
        b'}' => Some(Sign::CloseBrace),
        b',' => Some(Sign::Comma),
        b';' => Some(Sign::Semicolon),
        b':' => Some(Sign::Colon),
        b'?' => Some(Sign::Question),
        b'@' => Some(Sign::At),
        b'+' => Some(Sign::Plus),
        b'-' => Some(Sign::Minus),
        _ => None,
    }
}

/// A sign whose first byte is `b`, and the text behind it.
fn sign(b: u8, more: &[u8]) -> Option<(Sign, &[u8])>
    ensures token { MatchOption result (spec.sign_at b more.now ≡ None) (λ x. spec.sign_at b more.now ≡ Some (Mark (sign_seen x.0), x.1.now)) }
    ensures shorter { IfSome result (λ x. length x.1.now ≤ length more.now) }
{
    match (b, more) {
        (b'=', [b'=', b'=', ..]) => None,
        (b'=', [b'=', rest @ ..]) => Some((Sign::Equal, rest)),
        (b'=', _) => Some((Sign::Assign, more)),
        (b'<', [b'=', rest @ ..]) => Some((Sign::LessEqual, rest)),
        (b'<', [b'<', ..]) => None,
        (b'<', _) => Some((Sign::Less, more)),
        (b'&', [b'&', ..]) => None,
        (b'&', _) => Some((Sign::And, more)),
        (b'|', [b'|', ..]) => None,
        (b'|', _) => Some((Sign::Or, more)),
        (b'^', [b'~', ..]) => None,
        (b'^', _) => Some((Sign::Xor, more)),
        (b'~', [b'&' | b'|' | b'^', ..]) => None,
        (b'~', _) => Some((Sign::Not, more)),
        _ => match single_sign(b) {
            Some(sign) => Some((sign, more)),
            None => None,
        },
    }
}

/// The largest number of a width.
pub fn most_of(width: u32) -> u64
    requires { width ≤ 64 }
    ensures { result + 1 ≡ 2 ^ width }
{
    if width == 64 {
        u64::MAX
    } else {
        (1 << width) - 1
    }
}

/// A literal's digits, behind its base.
fn digits_of(width: u32, base: u8, bytes: &[u8]) -> Option<(Token, &[u8])>
    requires width { width ≤ 64 }
    requires base { (2 ≤ base) × (base ≤ 16) }
    ensures token { MatchOption result (spec.behind_base width base bytes.now ≡ None) (λ x. spec.behind_base width base bytes.now ≡ Some (token_seen x.0, x.1.now)) }
    ensures shorter { IfSome result (λ x. length x.1.now ≤ length bytes.now) }
{
    if bytes.is_empty() || digit(bytes[0]) >= base {
        return None;
    }
    let rest = behind(Class::Literal(base), &bytes[1..]);
    let digits = &bytes[..bytes.len() - rest.len()];
    let value = literal_value(base, digits, most_of(width))?;
    Some((Token::Literal { width, value }, rest))
}

/// A literal, behind `'`.
fn literal(width: u32, bytes: &[u8]) -> Option<(Token, &[u8])>
    requires { width ≤ 64 }
    ensures token { MatchOption result (spec.behind_quote width bytes.now ≡ None) (λ x. spec.behind_quote width bytes.now ≡ Some (token_seen x.0, x.1.now)) }
    ensures shorter { IfSome result (λ x. length x.1.now ≤ length bytes.now) }
{
    let [b, more @ ..] = bytes else {
        return None;
    };
    let base = base_of(*b)?;
    digits_of(width, base, more)
}

/// The width that digits before `'` give.
pub fn width_of(digits: &[u8]) -> Option<u32>
    requires digits { AllPass kinds.is_digit digits.now }
    requires some { 0 < length digits.now }
    ensures { MatchOption result (spec.is_size digits.now ≡ false) (λ w. (spec.is_size digits.now ≡ true) × (w ≡ digits_value 10 digits.now) × (w ≤ 64)) }
{
    if digits[0] == b'0' {
        return None;
    }
    let width = decimal(digits, 64)?;
    Some(width as u32)
}

/// A number or a literal, of its first digits and the text behind them.
#[tactic(auto, using(crate::proofs::Values::numbers))]
fn number_behind<'a>(digits: &[u8], rest: &'a [u8]) -> Option<(Token, &'a [u8])>
    requires digits { AllPass kinds.is_digit digits.now }
    requires some { 0 < length digits.now }
    ensures token { MatchOption result (spec.behind_digits digits.now rest.now ≡ None) (λ x. spec.behind_digits digits.now rest.now ≡ Some (token_seen x.0, x.1.now)) }
    ensures shorter { IfSome result (λ x. length x.1.now ≤ length rest.now) }
{
    if let [b'\'', after @ ..] = rest {
        let width = width_of(digits)?;
        return literal(width, after);
    }
    if digits.len() > LONGEST_NUMBER {
        return None;
    }
    let value = decimal(digits, 4_294_967_295)?;
    Some((Token::Number(value as u32), rest))
}

/// A number or a literal, which begins with a digit.
fn number(bytes: &[u8]) -> Option<(Token, &[u8])>
    requires some { 0 < length bytes.now }
    requires first { kinds.is_digit (slice_index bytes.now 0) ≡ true }
    ensures token { MatchOption result (number_of bytes.now ≡ None) (λ x. number_of bytes.now ≡ Some (token_seen x.0, x.1.now)) }
    ensures shorter { IfSome result (λ x. length x.1.now < length bytes.now) }
{
    let rest = behind(Class::Digits, &bytes[1..]);
    let digits = &bytes[..bytes.len() - rest.len()];
    number_behind(digits, rest)
}

/// The token at the front of a text, and what is behind it.
#[tactic(auto, using(crate::proofs::Values::tokens))]
fn token(alloc: Global, bytes: &[u8]) -> Result<Option<(Token, &[u8])>, AllocError>
    requires { 0 < length bytes.now }
    ensures token { IfOk result (λ o. MatchOption o (token_of bytes.now ≡ None) (λ x. token_of bytes.now ≡ Some (token_seen x.0, x.1.now))) }
    ensures shorter { IfOk result (λ o. IfSome o (λ x. length x.1.now < length bytes.now)) }
{
    let first = bytes[0];
    if is_letter(first) {
        return word(alloc, bytes);
    }
    if is_digit(first) {
        return Ok(number(bytes));
    }
    match sign(first, &bytes[1..]) {
        Some((sign, rest)) => Ok(Some((Token::Mark(sign), rest))),
        None => Ok(None),
    }
}

/// The tokens of a text up to its first fault: a malformed token, or a comment that does not end.
#[derive(Drop)]
pub struct Scanned {
    pub found: Vec<Placed>,
    /// The place of the fault, and else the end of the text.
    pub end: u32,
    /// The form of the sign at the fault, if it is one that the language lacks.
    pub form: Option<UnsupportedForm>,
    /// Whether there is no fault.
    pub whole: bool,
}

/// The tokens of a text with their places, up to the first that is malformed.
pub fn tokens(alloc: Global, bytes: &[u8]) -> Result<Scanned, AllocError>
    requires { length bytes.now ≤ 16777216 }
    // They end at the end of the text or at its first fault.
    ensures front { IfOk result (λ r. HasFront (length bytes.now) bytes.now (seen r.found.items) r.end r.form) }
    // Where there is no fault, they are those of the text.
    ensures found { IfOk result (λ r. r.whole ≡ true → HasTokens (length bytes.now) bytes.now (seen r.found.items)) }
    // In a text that has tokens there is no fault, and no other tokens.
    ensures only { IfOk result (λ r. (ts : List lexeme.Placed) → HasTokens (length bytes.now) bytes.now ts → (r.whole ≡ true) × (seen r.found.items ≡ ts)) }
{
    let mut found = Vec::new(alloc);
    let mut rest = bytes;
    loop {
        let Some(next) = skip(rest) else {
            let end = bytes.len() as u32;
            return Ok(Scanned {
                found,
                end,
                form: None,
                whole: false,
            });
        };
        let at = (bytes.len() - next.len()) as u32;
        if next.is_empty() {
            return Ok(Scanned {
                found,
                end: at,
                form: None,
                whole: true,
            });
        }
        let Some((token, behind)) = token(alloc, next)? else {
            let end = bytes.len() - next.len() + fault_in(next);
            return Ok(Scanned {
                found,
                end: end as u32,
                form: form_of_bytes(next),
                whole: false,
            });
        };
        found.push(Placed { at, token })?;
        rest = behind;
    }
}
