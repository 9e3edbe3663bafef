//! Reads the numbers of a line.

ghost use Rattle.std.specs.Prelude.{◌≡◌, MatchOption};
ghost use Rattle.event_lists.specs.Lines.{digits_at, is_full, number_at};

use crate::form::DIGITS;
use crate::name::behind;

/// The number after a blank, where one is `wanted`, and the bytes after it; otherwise 0 and the bytes unchanged. The
/// number has at most ten digits, and no leading zero.
pub(crate) fn number_at(wanted: bool, bytes: &[u8]) -> Option<(u64, &[u8])>
    ensures { MatchOption result (number_at wanted bytes.now ≡ None) (λ found. number_at wanted bytes.now ≡ Some (found.0, found.1.now)) }
{
    if !wanted {
        return Some((0, bytes));
    }
    let rest = behind(b" ", bytes)?;
    digits_at(rest)
}

// The number at the front of these bytes, and the bytes after it.
fn digits_at(bytes: &[u8]) -> Option<(u64, &[u8])>
    ensures { MatchOption result (digits_at 0 0 bytes.now ≡ None) (λ found. digits_at 0 0 bytes.now ≡ Some (found.0, found.1.now)) }
{
    let mut value: u64 = 0;
    let mut digits: u32 = 0;
    let mut rest = bytes;
    while let Some(byte) = rest.first() {
        if !byte.is_ascii_digit() {
            break;
        }
        if is_full(value, digits) {
            return None;
        }
        value = 10 * value + (*byte - b'0') as u64;
        digits += 1;
        rest = &rest[1..];
    }
    if digits == 0 {
        return None;
    }
    Some((value, rest))
}

// Whether no digit may follow: the number has as many as it may, or is a zero.
fn is_full(value: u64, digits: u32) -> bool
    ensures { result ≡ is_full value digits }
{
    digits == DIGITS || digits == 1 && value == 0
}
