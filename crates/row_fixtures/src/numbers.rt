//! PEs and rounds by their numbers.

ghost use Rattle.std.specs.Prelude.{◌≡◌, ◌<◌, ◌≤◌};

use chare_index::{Pe, Round};

/// The PE of this number, 0 to 255.
pub fn pe(number: u32) -> Pe
    requires below_limit { number < 256 }
    ensures value { result ≡ number }
{
    Pe::new(number).unwrap()
}

/// The round of this number, 0 to 2,147,483,648.
pub fn round(number: u32) -> Round
    requires within_limit { number ≤ 2147483648 }
    ensures value { result ≡ number }
{
    Round::new(number).unwrap()
}
