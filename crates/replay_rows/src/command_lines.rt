//! Command lines: what their arguments ask for, what is to be done, and the status where they ask for nothing to be done.

use crate::fixtures::same;
use crate::rows::assert_for;
use chain_refinement::Tolerance;
use lb_replay::{Asked, Clash, asked, refuse_both};
use program_words::words_status;
use std::alloc::Global;

// Arguments, the file, the number of PEs and the thousandths that they ask for, whether they ask for an order that is kept, for any
// order and for a check, and why these options cannot be combined.
type Asking = (
    &'static [&'static str],
    &'static str,
    Option<u32>,
    Option<u32>,
    (bool, bool, bool),
    Option<Clash>,
);

// Whether a row is what is asked for, which can be done or not.
fn is_row(asked: &Asked<'_>, row: &Asking) -> bool {
    let &(_, file, procs, thousandths, flags, clash) = row;
    asked.file == file
        && asked.procs == procs
        && asked.tolerance.map(Tolerance::get) == thousandths
        && (asked.keep_order, asked.any_order, asked.check) == flags
        && asked.task().err() == clash
}

// Whether the arguments of a row ask for it.
fn is_asked(alloc: Global, row: &Asking) -> bool {
    let Ok(asked) = asked(alloc, row.0) else {
        return false;
    };
    is_row(&asked, row)
}

const PLAIN: (bool, bool, bool) = (false, false, false);

static ASKING: [Asking; 18] = [
    (&["lb_sim", "f"], "f", None, None, PLAIN, None),
    (
        &["lb_sim", "--procs", "2", "f"],
        "f",
        Some(2),
        None,
        PLAIN,
        None,
    ),
    (
        &["lb_sim", "--procs=256", "f"],
        "f",
        Some(256),
        None,
        PLAIN,
        None,
    ),
    (
        &["another", "../g h", "--procs", "1"],
        "../g h",
        Some(1),
        None,
        PLAIN,
        None,
    ),
    (
        &["lb_sim", "--", "--check"],
        "--check",
        None,
        None,
        PLAIN,
        None,
    ),
    (
        &["lb_sim", "--tolerance", "0", "f"],
        "f",
        None,
        Some(0),
        PLAIN,
        None,
    ),
    (
        &["lb_sim", "--procs", "3", "f", "--tolerance=1000"],
        "f",
        Some(3),
        Some(1000),
        PLAIN,
        None,
    ),
    (
        &["lb_sim", "f", "--check"],
        "f",
        None,
        None,
        (false, false, true),
        None,
    ),
    (
        &["lb_sim", "--check", "--procs", "2", "f"],
        "f",
        Some(2),
        None,
        (false, false, true),
        Some(Clash::ProcsAndCheck),
    ),
    (
        &["lb_sim", "--tolerance", "20", "--check", "f"],
        "f",
        None,
        Some(20),
        (false, false, true),
        Some(Clash::ToleranceAndCheck),
    ),
    (
        &["lb_sim", "--keep-order", "--tolerance", "20", "f"],
        "f",
        None,
        Some(20),
        (true, false, false),
        None,
    ),
    (
        &["lb_sim", "f", "--keep-order"],
        "f",
        None,
        None,
        (true, false, false),
        Some(Clash::KeepOrderAlone),
    ),
    (
        &["lb_sim", "--check", "--keep-order", "f"],
        "f",
        None,
        None,
        (true, false, true),
        Some(Clash::KeepOrderAndCheck),
    ),
    (
        &["lb_sim", "--any-order", "--tolerance", "20", "f"],
        "f",
        None,
        Some(20),
        (false, true, false),
        None,
    ),
    (
        &["lb_sim", "f", "--any-order"],
        "f",
        None,
        None,
        (false, true, false),
        Some(Clash::AnyOrderAlone),
    ),
    (
        &["lb_sim", "--any-order", "--keep-order", "f"],
        "f",
        None,
        None,
        (true, true, false),
        Some(Clash::KeepOrderAlone),
    ),
    (
        &["lb_sim", "--any-order", "--check", "f"],
        "f",
        None,
        None,
        (false, true, true),
        Some(Clash::AnyOrderAndCheck),
    ),
    (
        &[
            "lb_sim",
            "--any-order",
            "--keep-order",
            "f",
            "--tolerance=0",
        ],
        "f",
        None,
        Some(0),
        (true, true, false),
        Some(Clash::KeepOrderAndAnyOrder),
    ),
];

#[test]
fn words_that_ask(rt: HostRuntime) {
    for row in &ASKING {
        assert_for(&rt, is_asked(rt.alloc(), row), row.1);
    }
}

// Arguments that ask for nothing to be done, and the status for them.
type Refused = (&'static [&'static str], u8);

fn is_refused(alloc: Global, row: &Refused) -> bool {
    match asked(alloc, row.0) {
        Ok(_) => false,
        Err(error) => words_status(&error) == row.1,
    }
}

static REFUSED: [Refused; 12] = [
    (&["lb_sim"], 2),
    (&["lb_sim", "--procs", "0", "f"], 2),
    (&["lb_sim", "--procs", "257", "f"], 2),
    (&["lb_sim", "--procs", "two", "f"], 2),
    (&["lb_sim", "--procs", "2"], 2),
    (&["lb_sim", "f", "g"], 2),
    (&["lb_sim", "--pes", "2", "f"], 2),
    (&["lb_sim", "--check=yes", "f"], 2),
    (&["lb_sim", "--tolerance", "1001", "f"], 2),
    (&["lb_sim", "f", "--tolerance"], 2),
    (&["lb_sim", "--help"], 0),
    (&["lb_sim", "--version"], 0),
];

#[test]
fn words_that_are_refused(rt: HostRuntime) {
    for row in &REFUSED {
        assert_for(&rt, is_refused(rt.alloc(), row), row.0.len());
    }
}

// Whether options that cannot be combined are refused with this line.
fn is_told(rt: &impl AllocGlobal, clash: Clash, line: &str) -> bool {
    let mut told = Vec::new(rt.alloc());
    let status = refuse_both(&mut told, clash);
    let right = status == 2 && same(&told, line);
    drop(told);
    right
}

static CLASHES: [(Clash, &str); 7] = [
    (
        Clash::ProcsAndCheck,
        "lb_sim: --procs and --check: a decision is checked for its own number of PEs; leave one out\n",
    ),
    (
        Clash::ToleranceAndCheck,
        "lb_sim: --tolerance and --check: a check decides nothing; leave one out\n",
    ),
    (
        Clash::KeepOrderAndCheck,
        "lb_sim: --keep-order and --check: a check decides nothing; leave one out\n",
    ),
    (
        Clash::KeepOrderAlone,
        "lb_sim: --keep-order without --tolerance: add --tolerance T, or leave --keep-order out\n",
    ),
    (
        Clash::AnyOrderAndCheck,
        "lb_sim: --any-order and --check: a check decides nothing; leave one out\n",
    ),
    (
        Clash::AnyOrderAlone,
        "lb_sim: --any-order without --tolerance: add --tolerance T, or leave --any-order out\n",
    ),
    (
        Clash::KeepOrderAndAnyOrder,
        "lb_sim: --keep-order and --any-order: the PEs keep their order, or may change it; leave one out\n",
    ),
];

#[test]
fn options_that_cannot_be_combined_are_told(rt: HostRuntime) {
    for (clash, line) in &CLASHES {
        assert_for(&rt, is_told(&rt, *clash, *line), *line);
    }
}
