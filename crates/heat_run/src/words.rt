//! The arguments of the command line. clap reads them.

use crate::help::{ABOUT, HOW_TO};
use chare_index::Limits;
use clap::{Arg, ArgMatches, Command, Error, value_parser};
use heat_rod::{Rod, RodPlan};
use program_words::{new_program, word};
use std::alloc::{AllocError, Global};

/// What the arguments ask for.
#[derive(Clone, Copy, Debug)]
pub struct RodOptions {
    /// The rod.
    pub rod: Rod,
    /// On how many PEs it runs.
    pub pes: u32,
}

/// Reads the arguments of a command line, the program's name first. The error has the text to print.
///
/// # Errors
///
/// The words ask for help or the version, or are refused.
pub fn read_options(alloc: Global, words: &[&str]) -> Result<RodOptions, Error> {
    match command(alloc)?.try_get_matches_from(words) {
        Ok(matches) => Ok(found(&matches)),
        Err(error) => Err(error),
    }
}

fn command<'a>(alloc: Global) -> Result<Command<'a>, AllocError> {
    let command = new_program(alloc, "heat", ABOUT, HOW_TO);
    let command = command.arg(elements(alloc))?;
    let command = command.arg(pes(alloc))?;
    let command = command.arg(steps(alloc))?;
    let command = command.arg(every(alloc))?;
    command.arg(small(alloc))
}

fn elements<'a>(alloc: Global) -> Arg<'a> {
    let help = "How many strips there are, each with 16 cells: 64 where it is not said";
    let range = value_parser!(u32).range(1..=i64::from(Limits::ELEMENTS));
    word(alloc, "elements", "N", help).value_parser(range)
}

fn pes<'a>(alloc: Global) -> Arg<'a> {
    let help = "On how many PEs they run, each with a thread: 4 where it is not said";
    let range = value_parser!(u32).range(1..=i64::from(Limits::PES));
    word(alloc, "pes", "P", help).value_parser(range)
}

fn steps<'a>(alloc: Global) -> Arg<'a> {
    let help = "How many steps there are at most: 1000 where it is not said";
    let range = value_parser!(u32).range(0..=1_000_000);
    word(alloc, "steps", "S", help).value_parser(range)
}

fn every<'a>(alloc: Global) -> Arg<'a> {
    let help =
        "Balances the strips after each K steps, or never where K is 0:{n}10 where it is not said";
    let range = value_parser!(u32).range(0..=1_000_000);
    word(alloc, "every", "K", help).value_parser(range)
}

fn small<'a>(alloc: Global) -> Arg<'a> {
    let help =
        "Ends after a step in which no cell changed by 2 to the power of -E:{n}20 where it is not said";
    let range = value_parser!(u32).range(0..=64);
    word(alloc, "small", "E", help).value_parser(range)
}

// What the arguments ask for.
fn found(matches: &ArgMatches<'_>) -> RodOptions {
    let plan = RodPlan {
        steps: matches.get_one::<u32>("steps").unwrap_or(1_000),
        every: matches.get_one::<u32>("every").unwrap_or(10),
        small: power(matches.get_one::<u32>("small").unwrap_or(20)),
    };
    let rod = Rod {
        strips: matches.get_one::<u32>("elements").unwrap_or(64),
        plan,
    };
    RodOptions {
        rod,
        pes: matches.get_one::<u32>("pes").unwrap_or(4),
    }
}

// 2 to the power of -e.
fn power(e: u32) -> f64 {
    let mut power = 1.0;
    for _ in 0..e {
        power = power * 0.5;
    }
    power
}
