//! The arguments of the command line. clap reads them.

use crate::help::{ABOUT, HOW_TO};
use chain_refinement::Tolerance;
use chare_index::Limits;
use clap::{Arg, ArgMatches, Command, Error, value_parser};
use hot_spot_strip::StripLimits;
use program_words::{flag, new_program, tolerance_in, word};
use std::alloc::{AllocError, Global};

/// What the arguments ask for.
#[derive(Clone, Copy, Debug, PartialEq, Eq)]
pub(crate) struct RunOptions<'a> {
    pub(crate) elements: u32,
    pub(crate) pes: u32,
    pub(crate) rounds: u32,
    pub(crate) work: u32,
    pub(crate) is_static: bool,
    pub(crate) tolerance: Option<Tolerance>,
    pub(crate) trace: Option<&'a str>,
    pub(crate) no_journal: bool,
    pub(crate) is_quiet: bool,
}

/// Reads the arguments of a command line, the program's name first. The error has the text to print.
pub(crate) fn read_options<'a>(
    alloc: Global,
    words: &'a [&'a str],
) -> Result<RunOptions<'a>, Error> {
    match command(alloc)?.try_get_matches_from(words) {
        Ok(matches) => Ok(found(&matches)),
        Err(error) => Err(error),
    }
}

fn command<'a>(alloc: Global) -> Result<Command<'a>, AllocError> {
    let command = new_program(alloc, "hot_spot", ABOUT, HOW_TO);
    let command = command.arg(elements(alloc))?;
    let command = command.arg(pes(alloc))?;
    let command = command.arg(rounds(alloc))?;
    let command = command.arg(work(alloc))?;
    let command = command.arg(is_static(alloc))?;
    let command = command.arg(tolerance(alloc))?;
    let command = command.arg(trace(alloc))?;
    let command = command.arg(no_journal(alloc))?;
    command.arg(quiet(alloc))
}

fn elements<'a>(alloc: Global) -> Arg<'a> {
    let help = "How many strips there are, each with 16 cells: 64{n}where it is not said";
    let range = value_parser!(u32).range(0..=i64::from(Limits::ELEMENTS));
    word(alloc, "elements", "N", help).value_parser(range)
}

fn pes<'a>(alloc: Global) -> Arg<'a> {
    let help = "On how many PEs they run, each with a thread: 4{n}where it is not said";
    let range = value_parser!(u32).range(1..=i64::from(Limits::PES));
    word(alloc, "pes", "P", help).value_parser(range)
}

fn rounds<'a>(alloc: Global) -> Arg<'a> {
    let help = "How many rounds there are: 512 where it is not said";
    let range = value_parser!(u32).range(0..=i64::from(StripLimits::ROUNDS));
    word(alloc, "rounds", "R", help).value_parser(range)
}

fn work<'a>(alloc: Global) -> Arg<'a> {
    let help =
        "How many rounds of mixing more a cell takes in{n}the middle of the hot spot: 1000 where it is not{n}said";
    let range = value_parser!(u32).range(0..=1_000_000);
    word(alloc, "work", "W", help).value_parser(range)
}

fn is_static<'a>(alloc: Global) -> Arg<'a> {
    flag(alloc, "static", "Runs the same without balancing")
}

fn tolerance<'a>(alloc: Global) -> Arg<'a> {
    program_words::tolerance(
        alloc,
        "Lets the greatest load of a PE lie so many{n}thousandths above the least possible one, 0 to{n}1000, or so great a fraction, so that fewer bytes{n}move: 20 and 0.02 are the same",
    )
}

fn trace<'a>(alloc: Global) -> Arg<'a> {
    word(
        alloc,
        "trace",
        "FILE",
        "Writes what each PE did to FILE, in the Trace{n}Event Format, for chrome://tracing, Perfetto or{n}`tezgumi timeline`",
    )
}

fn no_journal<'a>(alloc: Global) -> Arg<'a> {
    flag(
        alloc,
        "no-journal",
        "Drops what each strip has handled, so that memory{n}does not grow with its letters",
    )
}

fn quiet<'a>(alloc: Global) -> Arg<'a> {
    flag(
        alloc,
        "quiet",
        "Prints the checksum, and no line for a round",
    )
}

// What the arguments ask for.
fn found<'a>(matches: &ArgMatches<'a>) -> RunOptions<'a> {
    RunOptions {
        elements: matches.get_one::<u32>("elements").unwrap_or(64),
        pes: matches.get_one::<u32>("pes").unwrap_or(4),
        rounds: matches.get_one::<u32>("rounds").unwrap_or(512),
        work: matches.get_one::<u32>("work").unwrap_or(1_000),
        is_static: matches.get_one("static") == Some(true),
        tolerance: tolerance_in(matches),
        trace: matches.get_str("trace"),
        no_journal: matches.get_one("no-journal") == Some(true),
        is_quiet: matches.get_one("quiet") == Some(true),
    }
}
