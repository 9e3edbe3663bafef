//! Each limit by its number.

use crate::lists::assert_for;
use chare_index::Limits;

#[test]
fn each_limit_has_its_number(rt: HostRuntime) {
    static ROWS: [(u64, u64); 11] = [
        (Limits::ELEMENTS as u64, 65_536),
        (Limits::PES as u64, 256),
        (Limits::LOAD, 140_737_488_355_327),
        (Limits::STATE_BYTES as u64, 1_048_576),
        (Limits::BODY_BYTES as u64, 1_024),
        (Limits::LETTERS as u64, 4_294_967_296),
        (Limits::ROUND as u64, 2_147_483_648),
        (Limits::CAPACITY as u64, 4_096),
        (Limits::SEATS as u64, 256),
        (Limits::PROBE_WORKERS as u64, 64),
        (Limits::IDLE_TURNS as u64, 1_099_511_627_776),
    ];
    for row in &ROWS {
        assert_for(&rt, row.0 == row.1, row);
    }
}
