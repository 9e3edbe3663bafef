//! What a person sees, on a clock and a screen that the test controls.

use super::{ProgressLine, ShownProgress, Standing};
use chare_index::Round;
use pe_worker::Watch;
use std::cell::Cell;
use std::fmt::{Display, InlineText};
use std::io;
use std::time::{Clock, Duration};

// A clock, which stops between the steps of a test, or fails; and what was written last, with how often
// something was.
#[derive(Drop)]
struct Desk {
    milliseconds: Cell<Option<u64>>,
    shown: Cell<InlineText<128>>,
    ends: Cell<bool>,
    lines: Cell<u64>,
}

impl Desk {
    fn new() -> Desk {
        Desk {
            milliseconds: Cell::new(Some(0)),
            shown: Cell::new(InlineText::new()),
            ends: Cell::new(false),
            lines: Cell::new(0),
        }
    }

    fn show<D: Display + Drop>(&self, value: D, ends: bool) {
        self.shown.set(InlineText::of(value));
        self.ends.set(ends);
        self.lines.update(|lines| lines.saturating_add(1));
    }

    // Whether this many lines were written, and this one last, in 79 columns.
    fn shows(&self, lines: u64, text: &str) -> bool {
        let shown = self.shown.get();
        let Some(line) = shown.as_str().strip_prefix("\r") else {
            return false;
        };
        self.lines.get() == lines && line.len() == 79 && line.trim_end() == text
    }
}

impl Clock for Desk {
    fn monotonic(&self) -> io::Result<Duration> {
        match self.milliseconds.get() {
            Some(milliseconds) => Ok(Duration::from_millis(milliseconds)),
            None => Err(io::Error::from(io::ErrorKind::Other)),
        }
    }

    fn since_1970(&self) -> io::Result<Duration> {
        self.monotonic()
    }
}

impl Eprint for Desk {
    fn eprint<D: Display + Drop>(&self, value: D) -> io::Result<()> {
        self.show(value, false);
        Ok(())
    }

    fn eprintln<D: Display + Drop>(&self, value: D) -> io::Result<()> {
        self.show(value, true);
        Ok(())
    }
}

#[test]
fn a_line_in_a_tenth_of_a_second(rt: HostRuntime) {
    let desk = Desk::new();
    desk.milliseconds.set(Some(5_000));
    let line = ProgressLine::new(&desk).expect(&rt, "no clock");
    for (round, executed, at, lines, text) in [
        (
            1,
            10,
            5_000,
            1,
            "round 1, 10 letters executed, 10000 a second",
        ),
        (
            2,
            20,
            5_099,
            1,
            "round 1, 10 letters executed, 10000 a second",
        ),
        (
            3,
            30,
            5_100,
            2,
            "round 3, 30 letters executed, 300 a second",
        ),
        (
            4,
            40,
            5_199,
            2,
            "round 3, 30 letters executed, 300 a second",
        ),
        (6, 60, 6_000, 3, "round 6, 60 letters executed, 60 a second"),
    ] {
        desk.milliseconds.set(Some(at));
        line.decided(Round::new(round).expect(&rt, "no round"), executed);
        assert!(rt; desk.shows(lines, text), "round {round}");
    }
    // A round that another thread reports late takes nothing back.
    line.expect(100);
    desk.milliseconds.set(Some(6_500));
    line.decided(Round::new(5).expect(&rt, "no round"), 50);
    assert!(rt; desk.shows(4, "round 6 of 100, 60 letters executed, 40 a second"));
    assert!(rt; !desk.ends.get());
    desk.milliseconds.set(Some(6_501));
    line.finish();
    assert!(rt; desk.shows(5, "round 6 of 100, 60 letters executed, 39 a second"));
    assert!(rt; desk.ends.get());
    line.finish();
    assert!(rt; desk.lines.get() == 5);
    drop(line);
    drop(desk);
}

#[test]
fn nothing_is_told_where_nothing_was_decided(rt: HostRuntime) {
    let desk = Desk::new();
    let progress = ShownProgress::new(&desk, true).expect(&rt, "no clock");
    progress.expect(3);
    progress.finish();
    assert!(rt; desk.lines.get() == 0);
    drop(progress);
    drop(desk);
}

// A whole run, as far as it is reported.
fn tell_a_run(progress: &ShownProgress<'_, Desk>, round: Round) {
    progress.expect(3);
    progress.decided(round, 7);
    progress.finish();
}

#[test]
fn nobody_looks_on(rt: HostRuntime) {
    let desk = Desk::new();
    let round = Round::new(1).expect(&rt, "no round");
    let nobody = ShownProgress::new(&desk, false).expect(&rt, "asked for a clock");
    tell_a_run(&nobody, round);
    desk.milliseconds.set(None);
    let no_clock = ShownProgress::new(&desk, true).unwrap_or(ShownProgress::Off);
    tell_a_run(&no_clock, round);
    assert!(rt; desk.lines.get() == 0);
    drop(nobody);
    drop(no_clock);
    drop(desk);
}

#[test]
fn a_clock_that_fails_tells_nothing_more(rt: HostRuntime) {
    let desk = Desk::new();
    let progress = ShownProgress::new(&desk, true).expect(&rt, "no clock");
    progress.decided(Round::new(1).expect(&rt, "no round"), 7);
    desk.milliseconds.set(None);
    progress.decided(Round::new(2).expect(&rt, "no round"), 9);
    assert!(rt; desk.shows(1, "round 1, 7 letters executed, 7000 a second"));
    progress.finish();
    assert!(rt; desk.ends.get() && desk.shown.get().as_str().is_empty());
    drop(progress);
    drop(desk);
}

#[test]
fn rates(rt: HostRuntime) {
    for (executed, milliseconds, rate) in [
        (3_400, 28, 121_428),
        (0, 0, 0),
        (u64::MAX, 1_000, u64::MAX),
        (u64::MAX, 999, u64::MAX),
        (u64::MAX, u64::MAX, 1_000),
    ] {
        let standing = Standing {
            round: 1,
            rounds: None,
            executed,
            milliseconds,
        };
        assert_eq!(rt; standing.letters_a_second(), rate);
    }
}
