ghost use Rattle.std.specs.Prelude.{true, None, Some, ◌≡◌, ◌≤◌, ◌<◌, ◌+◌, MatchOption, slice_index, length};
ghost use Rattle.verilog_tree.specs.Bytes as kinds;
ghost use Rattle.verilog_read.specs.Runs.{AllPass};
ghost use Rattle.verilog_read.specs.Faults.{with_byte, fault_in_digits, fault_behind_base, fault_behind_quote, fault_behind_digits, fault_in_number, fault_of};

use crate::lexer::{
    Class, LONGEST_NUMBER, LONGEST_WORD, base_of, behind, digit, is_digit, is_letter, most_of,
    next_value, width_of,
};

/// How many bytes a text has before the byte by which it begins with no token. At a byte that begins none it is 0.
#[tactic(auto, using(crate::proofs::Faults::faults))]
pub fn fault_in(bytes: &[u8]) -> usize
    requires { 0 < length bytes.now }
    ensures place { result ≡ fault_of bytes.now }
    ensures small { result ≤ length bytes.now + 255 }
{
    let first = bytes[0];
    if is_letter(first) {
        return LONGEST_WORD;
    }
    if is_digit(first) {
        return number_fault(bytes);
    }
    0
}

/// The place of the fault in a number or a literal, which begins with a digit.
fn number_fault(bytes: &[u8]) -> usize
    requires some { 0 < length bytes.now }
    requires first { kinds.is_digit (slice_index bytes.now 0) ≡ true }
    ensures place { result ≡ fault_in_number bytes.now }
    ensures small { result ≤ length bytes.now + 9 }
{
    let rest = behind(Class::Digits, &bytes[1..]);
    let digits = &bytes[..bytes.len() - rest.len()];
    behind_digits(digits, rest)
}

/// The place of the fault in a number or a literal, given its first digits and the text behind them.
fn behind_digits(digits: &[u8], rest: &[u8]) -> usize
    requires digits { AllPass kinds.is_digit digits.now }
    requires some { 0 < length digits.now }
    ensures place { result ≡ fault_behind_digits digits.now rest.now }
    ensures small { result ≤ length digits.now + length rest.now + 9 }
{
    let [b'\'', after @ ..] = rest else {
        return LONGEST_NUMBER;
    };
    match width_of(digits) {
        Some(width) => digits.len() + 1 + behind_quote(most_of(width), after),
        None => 0,
    }
}

/// The place of the fault behind `'`, in a literal of at most this value.
fn behind_quote(most: u64, after: &[u8]) -> usize
    ensures place { result ≡ fault_behind_quote most after.now }
    ensures small { result ≤ length after.now }
{
    let [b, digits @ ..] = after else {
        return 0;
    };
    match base_of(*b) {
        Some(base) => 1 + behind_base(base, most, digits),
        None => 0,
    }
}

/// The place of the fault behind a literal's base.
fn behind_base(base: u8, most: u64, digits: &[u8]) -> usize
    requires { base ≤ 16 }
    ensures place { result ≡ fault_behind_base base most digits.now }
    ensures small { result ≤ length digits.now }
{
    if digits.is_empty() || digit(digits[0]) >= base {
        return 0;
    }
    in_digits(base, most, digits)
}

/// The place of the fault in a literal's digits.
fn in_digits(base: u8, most: u64, digits: &[u8]) -> usize
    requires { base ≤ 16 }
    ensures place { result ≡ fault_in_digits base most 0 digits.now }
    ensures small { result ≤ length digits.now }
{
    let mut rest = digits;
    let mut value: u64 = 0;
    let mut at: usize = 0;
    while let [b, more @ ..] = rest {
        let Some(next) = value_with(value, base, *b, most) else {
            return at;
        };
        value = next;
        at += 1;
        rest = more;
    }
    at
}

/// The value with one more byte of a literal's digits. There is none where the byte is no digit, or the value is more
/// than `most`.
fn value_with(value: u64, base: u8, b: u8, most: u64) -> Option<u64>
    requires { base ≤ 16 }
    ensures { MatchOption result (with_byte base most value b ≡ None) (λ v. with_byte base most value b ≡ Some v) }
{
    if b == b'_' {
        return Some(value);
    }
    let digit = digit(b);
    if digit >= base {
        return None;
    }
    next_value(value, base, digit, most)
}
