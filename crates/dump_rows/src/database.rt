//! The worked rows: four elements of which one reports first, loads at their limit, a database with no elements in the
//! last round, and two rounds of two elements.

ghost use Rattle.std.specs.Prelude.{◌≤◌};

use crate::fixtures::same;
use crate::rows::assert_for;
use chare_index::{Pe, Round};
use lb_database::{DbError, LoadDb};
use lb_snapshot::{Snapshot, Units};
use row_fixtures::{pe, round};
use std::process::Abort;

// Whether an element has this number of units and this report.
fn has(db: &LoadDb, i: u32, units: Units, report: Option<(u32, Pe)>) -> bool {
    db.load(i) == Some(units) && db.reported(i) == report
}

// Whether a database is in this round, has this number of elements, and is complete or is not.
fn is_in_round(db: &LoadDb, round: Round, len: usize, is_complete: bool) -> bool {
    db.round() == round
        && db.len() == len
        && db.is_empty() == (len == 0)
        && db.is_complete() == is_complete
}

// A database of this number of elements.
fn made(rt: &(impl Abort + AllocGlobal), len: u32) -> LoadDb
    requires few { len ≤ 65536 }
{
    LoadDb::new(rt.alloc(), len).expect(rt, "out of memory")
}

// The result of charging an element with these units.
fn charge(db: &mut LoadDb, i: u32, units: Units) -> Result<(), DbError> {
    db.charge(i, units)
}

// The result of a report of an element with this number of bytes, for the round with this number.
fn report(
    rt: &impl Abort,
    db: &mut LoadDb,
    i: u32,
    number: u32,
    bytes: u32,
) -> Result<(), DbError> {
    let round = Round::new(number).expect(rt, "no such round");
    db.report(i, round, bytes, pe(0))
}

// A database of four elements, of which element 2 has reported, and done more work than 32 bits count.
fn begun(rt: &(impl Abort + AllocGlobal)) -> LoadDb {
    let mut db = made(rt, 4);
    assert_for(rt, report(rt, &mut db, 2, 1, 5).is_ok(), "the report");
    let charged = charge(&mut db, 2, 4_294_967_295).is_ok() && charge(&mut db, 2, 1).is_ok();
    assert_for(rt, charged, "the work");
    db
}

// The element, the round and the bytes of a report, and why it is refused.
type Refused = (u32, u32, u32, DbError);

fn is_refused(rt: &impl Abort, db: &mut LoadDb, row: &Refused) -> bool {
    report(rt, db, row.0, row.1, row.2) == Err(row.3)
}

#[test]
fn reports_that_are_refused(rt: HostRuntime) {
    let mut db = begun(&rt);
    const REFUSED: [Refused; 7] = [
        (2, 1, 5, DbError::Twice),
        (2, 3, 5, DbError::WrongRound),
        (4, 1, 5, DbError::Stranger),
        (1, 1, 1_048_577, DbError::TooLarge),
        (4, 3, 1_048_577, DbError::Stranger),
        (2, 3, 1_048_577, DbError::WrongRound),
        (2, 1, 1_048_577, DbError::Twice),
    ];
    for report in &REFUSED {
        assert_for(&rt, is_refused(&rt, &mut db, report), "accepted");
    }
    drop(db);
}

// Whether a database refuses the work of a fifth element, the next round, and a snapshot, since not all have reported.
fn waits(db: &mut LoadDb) -> bool {
    let refused = charge(db, 4, 1) == Err(DbError::Stranger)
        && db.next_round() == Err(DbError::Incomplete)
        && !db.stands_on(0);
    refused && lacks_a_report(db)
}

// Whether a database gives no snapshot, since a report is missing.
fn lacks_a_report(db: &LoadDb) -> bool {
    db.stands_on(1) && db.snapshot(1, 1).err() == Some(DbError::Incomplete)
}

// The snapshot of a database whose elements are on this number of PEs.
fn taken(rt: &impl Abort, db: &LoadDb, step: u32, pes: u32) -> Snapshot
    requires some_pe { 1 ≤ pes }
    requires few_pes { pes ≤ 256 }
{
    assert!(rt; db.stands_on(pes));
    db.snapshot(step, pes).expect(rt, "no snapshot")
}

// Whether a database gives the snapshot of the four elements.
fn gives_the_four(rt: &impl Abort, db: &LoadDb) -> bool {
    let taken = taken(rt, db, 1, 1);
    let place = pe(0);
    let sizes = [(1, place), (1, place), (5, place), (1, place)];
    let same = (taken.step(), taken.procs()) == (1, 1)
        && same(taken.loads().as_slice(), &[0, 0, 4_294_967_296, 0])
        && same(taken.sizes().as_slice(), &sizes);
    drop(taken);
    same
}

#[test]
fn four_elements_of_which_one_reported(rt: HostRuntime) {
    let mut db = begun(&rt);
    let report_of_two = has(&db, 2, 4_294_967_296, Some((5, pe(0))));
    assert_for(&rt, report_of_two, "element 2");
    assert_for(&rt, waits(&mut db), "it goes on");
    for i in [0, 1] {
        assert_for(&rt, report(&rt, &mut db, i, 1, 1).is_ok(), "the others");
    }
    assert_for(&rt, lacks_a_report(&db), "one is missing");
    assert_for(&rt, report(&rt, &mut db, 3, 1, 1).is_ok(), "the last");
    assert_for(&rt, gives_the_four(&rt, &db), "another snapshot");
    drop(db);
}

// The units that an element is charged with, one after the other, and its load.
type Charged = (Units, Units, Units);

// Whether an element that is charged with these units has that load.
fn is_charged_so(rt: &(impl Abort + AllocGlobal), row: &Charged) -> bool {
    let &(first, second, load) = row;
    let mut db = made(rt, 1);
    let charged = charge(&mut db, 0, first).is_ok() && charge(&mut db, 0, second).is_ok();
    let found = db.load(0);
    drop(db);
    charged && found == Some(load)
}

#[test]
fn a_load_stops_at_its_limit(rt: HostRuntime) {
    const ROWS: [Charged; 3] = [
        (140_737_488_355_326, 1, 140_737_488_355_327),
        (140_737_488_355_327, 1, 140_737_488_355_327),
        (
            18_446_744_073_709_551_615,
            18_446_744_073_709_551_615,
            140_737_488_355_327,
        ),
    ];
    for row in &ROWS {
        assert_for(&rt, is_charged_so(&rt, row), "another load");
    }
}

// The number of elements in a snapshot of a database.
fn count_taken(rt: &impl Abort, db: &LoadDb) -> usize {
    let taken = taken(rt, db, 9, 256);
    let count = taken.loads().len();
    drop(taken);
    count
}

#[test]
fn the_last_round_of_no_elements_has_no_next(rt: HostRuntime) {
    let last = round(2_147_483_648);
    let mut db = LoadDb::at(rt.alloc(), 0, last).expect(&rt, "out of memory");
    assert_for(&rt, is_in_round(&db, last, 0, true), "at first");
    assert_for(&rt, db.next_round() == Err(DbError::Worn), "it goes on");
    assert_for(&rt, count_taken(&rt, &db) == 0, "some elements");
    drop(db);
}

// An element of the two works, reports and works on.
fn work(rt: &impl Abort, db: &mut LoadDb, i: u32) {
    let before = charge(db, i, 7).is_ok();
    let answer = db.report(i, round(1), 1_048_576, pe(255));
    assert_for(rt, before && answer.is_ok(), "the report");
    assert_for(rt, charge(db, i, 2).is_ok(), "after the report");
    let has = has(db, i, 9, Some((1_048_576, pe(255))));
    assert_for(rt, has, "other work");
}

#[test]
fn the_next_round_has_nothing(rt: HostRuntime) {
    let mut db = made(&rt, 2);
    work(&rt, &mut db, 0);
    work(&rt, &mut db, 1);
    assert_for(&rt, db.next_round().is_ok(), "no next round");
    assert_for(&rt, is_in_round(&db, round(2), 2, false), "another round");
    assert_for(&rt, has(&db, 1, 0, None), "some work");
    assert_for(&rt, report(&rt, &mut db, 0, 2, 1).is_ok(), "for round 2");
    drop(db);
}

// An error, its number and its text.
type Said = (DbError, u8, &'static str);

fn is_said(rt: &(impl Abort + AllocGlobal), row: &Said) -> bool {
    let &(error, number, text) = row;
    let said = error.to_string(rt.alloc()).expect(rt, "out of memory");
    let same = error as u8 == number && said.as_str() == text;
    drop(said);
    same
}

#[test]
fn numbers_and_texts(rt: HostRuntime) {
    const ERRORS: [Said; 7] = [
        (DbError::Stranger, 1, "there is no such element"),
        (DbError::WrongRound, 2, "the report is for another round"),
        (DbError::Twice, 3, "the element has reported already"),
        (DbError::TooLarge, 4, "the packed size is out of range"),
        (DbError::Incomplete, 5, "an element has not reported"),
        (DbError::OutOfMemory, 6, "out of memory"),
        (DbError::Worn, 7, "no round is left"),
    ];
    for row in &ERRORS {
        assert_for(&rt, is_said(&rt, row), row.2);
    }
}
