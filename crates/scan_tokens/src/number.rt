//! Numbers.

ghost use Rattle.std.specs.Prelude.{◌≡◌, ◌≤◌, ◌<◌, ◌^◌, ◌++◌, ◌∷◌, [], ℕ, true, length, IfOk, IfErr, List};
ghost use Rattle.std.specs.List.{list_all};
ghost use Rattle.scan_tokens.specs.declared.class.Class.TheVariants as class;
ghost use Rattle.scan_tokens.specs.Forms.{IsRun, Spells};
ghost use Rattle.scan_tokens.specs.Numbers.{base, limit, digit, is_digit_of, value, suffix, RefusesNumber};
ghost use Rattle.scan_tokens.specs.Steps.{form_by, RefusesDigits};

use crate::refusal::TokenRule;
use m2_tree::Lexeme;

/// The ways to write a number.
#[derive(Clone, Copy)]
pub enum Numeral {
    Decimal,
    /// With a B behind it.
    Octal,
    /// With an H behind it.
    Hexadecimal,
    /// The octal code of a character, with a C behind it.
    Code,
}

fn base_of(form: Numeral) -> u64
    ensures { result ≡ base form }
{
    match form {
        Numeral::Decimal => 10,
        Numeral::Octal | Numeral::Code => 8,
        Numeral::Hexadecimal => 16,
    }
}

fn limit_of(form: Numeral) -> u64
    ensures { result ≡ limit form }
{
    match form {
        Numeral::Code => 256,
        _ => 1 << 32,
    }
}

#[tactic(auto, unfolding(crate::specs::Numbers::digit))]
fn digit_of(byte: u8) -> u64
    ensures value { result ≡ digit byte }
    ensures small { result ≤ 16 }
{
    match byte {
        b'0'..=b'9' => u64::from(byte - b'0'),
        b'A'..=b'F' => u64::from(byte - b'A') + 10,
        _ => 16,
    }
}

/// The value of digits that are written so.
fn value_of(form: Numeral, digits: &[u8]) -> Result<u32, TokenRule>
    ensures digits { IfOk result (λ n. list_all (is_digit_of (base form)) digits.now ≡ true) }
    ensures value { IfOk result (λ n. n ≡ value (base form) digits.now) }
    ensures small { IfOk result (λ n. n < limit form) }
    ensures refused { IfErr result (RefusesDigits form digits.now) }
{
    let base = base_of(form);
    let limit = limit_of(form);
    let mut value = 0;
    for byte in digits {
        let digit = digit_of(*byte);
        if digit >= base {
            return Err(TokenRule::BadNumber);
        }
        value = (value * base + digit).min(limit);
    }
    if value >= limit {
        return Err(TokenRule::LargeNumber);
    }
    Ok(value as u32)
}

/// How a number is written, and its digits.
fn split(run: &[u8]) -> (Numeral, &[u8])
    requires { 0 < length run.now }
    ensures last { (front : List ℕ) × (last : ℕ) × (run.now ≡ front ++ last ∷ [])
        × (result.0 ≡ form_by last) }
    ensures digits { run.now ≡ result.1.now ++ suffix result.0 }
{
    let front = &run[..run.len() - 1];
    match run[run.len() - 1] {
        b'B' => (Numeral::Octal, front),
        b'H' => (Numeral::Hexadecimal, front),
        b'C' => (Numeral::Code, front),
        _ => (Numeral::Decimal, run),
    }
}

/// The number or character that digits and letters are, of which the first is a digit. The errors are that they are no
/// number, and that it is too large.
pub fn number_of(run: &[u8]) -> Result<Lexeme, TokenRule>
    requires { IsRun class.Digit run.now }
    ensures ok { IfOk result (λ token. Spells run.now token) }
    ensures err { IfErr result (RefusesNumber run.now) }
{
    let (form, digits) = split(run);
    match value_of(form, digits) {
        Err(broken) => Err(broken),
        Ok(value) => match form {
            Numeral::Code => Ok(Lexeme::Char(value as u8)),
            _ => Ok(Lexeme::Number(value)),
        },
    }
}
