//! Tolerances that are written as fractions, such as `0.02` for 20 thousandths.

ghost use Rattle.std.specs.Prelude.{◌≡◌, ◌++◌, ◌-◌, IfOk, MatchOption, codes, false, true};
ghost use Rattle.std.specs.Char.{is_ascii_digit};
ghost use Rattle.std.specs.List.{after_first, before_first, list_all, repeat};
ghost use Rattle.std.specs.String.{string_bytes};
ghost use Rattle.program_words.specs.Fractions.{as_read, in_thousandths, is_fraction, is_point, thousandths, tolerance_name};

use std::alloc::{AllocError, Allocator};

/// A word of a command line as it is read after another: the value of `--tolerance` in thousandths, where that is a fraction of
/// digits, a point, and one to three decimals.
///
/// # Errors
///
/// Memory was refused.
pub fn read_word<A: Allocator + Copy>(
    alloc: A,
    before: &str,
    word: &str,
) -> Result<String<A>, AllocError>
    ensures read { IfOk result (λ read. string_bytes read ≡ as_read before.now word.now) }
{
    if before == "--tolerance" {
        return thousandths_of(alloc, word);
    }
    match word.split_once('=') {
        Some((name, value)) if name == "--tolerance" => option_of(alloc, value),
        _ => String::from_str(alloc, word),
    }
}

// The option with this value.
fn option_of<A: Allocator + Copy>(alloc: A, value: &str) -> Result<String<A>, AllocError>
    ensures read { IfOk result (λ read. string_bytes read ≡ tolerance_name ++ codes "=" ++ in_thousandths value.now) }
{
    let value = thousandths_of(alloc, value)?;
    format!(in alloc; "--tolerance={value}")
}

// A fraction in thousandths, or the text as it is.
fn thousandths_of<A: Allocator>(alloc: A, text: &str) -> Result<String<A>, AllocError>
    ensures read { IfOk result (λ read. string_bytes read ≡ in_thousandths text.now) }
{
    match parts_of(text) {
        Some((whole, decimals)) => in_digits(alloc, whole, decimals),
        None => String::from_str(alloc, text),
    }
}

// The digits before the point, and those after it, of a fraction.
fn parts_of(text: &str) -> Option<(&str, &str)>
    ensures parts { let whole = before_first is_point text.now in let decimals = after_first is_point text.now in
        MatchOption result (is_fraction whole decimals ≡ false) (λ parts. (is_fraction whole decimals ≡ true) × (parts.0.now ≡ whole) × (parts.1.now ≡ decimals)) }
{
    let (whole, decimals) = text.split_once('.')?;
    if is_fraction(whole, decimals) {
        return Some((whole, decimals));
    }
    None
}

// The digits without the point, and three after it.
fn in_digits<A: Allocator>(alloc: A, whole: &str, decimals: &str) -> Result<String<A>, AllocError>
    ensures read { IfOk result (λ read. string_bytes read ≡ thousandths whole.now decimals.now) }
{
    let zeros = zeros_after(decimals.len());
    format!(in alloc; "{whole}{decimals}{zeros}")
}

// Whether these are the digits before the point, and those after it.
fn is_fraction(whole: &str, decimals: &str) -> bool
    ensures { result ≡ is_fraction whole.now decimals.now }
{
    are_digits(whole)
        && are_digits(decimals)
        && 1 <= whole.len()
        && 1 <= decimals.len()
        && decimals.len() <= 3
}

// Whether these are all digits.
fn are_digits(text: &str) -> bool
    ensures { result ≡ list_all is_ascii_digit text.now }
{
    text.as_bytes().iter().all(|byte| byte.is_ascii_digit())
}

// The zeros that follow this number of decimals, so that there are three.
fn zeros_after(decimals: usize) -> &'static str
    ensures { result.now ≡ repeat (3 - decimals) (codes "0") }
{
    match decimals {
        0 => "000",
        1 => "00",
        2 => "0",
        _ => "",
    }
}
