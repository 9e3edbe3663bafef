//! Times, in microseconds.

ghost use Rattle.std.specs.Prelude.{◌≡◌};
ghost use Rattle.serde_json.specs.View.{view};
ghost use Rattle.run_trace.specs.Times.{microseconds, time_data};

use serde_json::Value;
use std::num::nearest_u64_to_f64;

/// The microseconds of this number of nanoseconds: a whole number where they are whole.
pub(crate) fn time_value(nanoseconds: u64) -> Value
    ensures value { view result ≡ time_data nanoseconds }
{
    if nanoseconds % 1000 == 0 {
        return Value::from(nanoseconds / 1000);
    }
    Value::from(microseconds(nanoseconds))
}

// The microseconds of this number of nanoseconds, as a float.
fn microseconds(nanoseconds: u64) -> f64
    ensures value { result ≡ microseconds nanoseconds }
{
    nearest_u64_to_f64(nanoseconds) / nearest_u64_to_f64(1000)
}
