//! Reads words and numbers of a line.

ghost use Rattle.std.specs.Prelude.{◌≡◌, MatchOption};
ghost use Rattle.run_checkpoint.specs.Scanning.{behind, digits_at, is_full, number_at};

use crate::form::DIGITS;

/// The bytes after this word, where they begin with it.
pub(crate) fn behind<'a>(word: &[u8], bytes: &'a [u8]) -> Option<&'a [u8]>
    ensures { MatchOption result (behind word.now bytes.now ≡ None) (λ rest. behind word.now bytes.now ≡ Some rest.now) }
{
    bytes.strip_prefix(word)
}

/// The number after this word, and the bytes after the number. It has at most 20 digits, and no leading zero.
pub(crate) fn number_at<'a>(word: &[u8], bytes: &'a [u8]) -> Option<(u128, &'a [u8])>
    ensures { MatchOption result (number_at word.now bytes.now ≡ None) (λ found. number_at word.now bytes.now ≡ Some (found.0, found.1.now)) }
{
    let rest = behind(word, bytes)?;
    digits_at(rest)
}

// The number at the front of these bytes, and the bytes after it.
fn digits_at(bytes: &[u8]) -> Option<(u128, &[u8])>
    ensures { MatchOption result (digits_at 0 0 bytes.now ≡ None) (λ found. digits_at 0 0 bytes.now ≡ Some (found.0, found.1.now)) }
{
    let mut value: u128 = 0;
    let mut digits: u32 = 0;
    let mut rest = bytes;
    while let Some(byte) = rest.first() {
        if !byte.is_ascii_digit() {
            break;
        }
        if is_full(value, digits) {
            return None;
        }
        value = 10 * value + (*byte - b'0') as u128;
        digits += 1;
        rest = &rest[1..];
    }
    if digits == 0 {
        return None;
    }
    Some((value, rest))
}

// Whether no digit may follow: the number has as many as it may, or is a zero.
fn is_full(value: u128, digits: u32) -> bool
    ensures { result ≡ is_full value digits }
{
    digits == DIGITS || digits == 1 && value == 0
}
