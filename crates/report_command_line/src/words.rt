//! The arguments of `lb_report`, and how they are read.

ghost use Rattle.std.specs.Prelude.{◌≡◌, ◌↔◌, ℕ, [], IfOk, IsTrue, Some, codes, map, option_map, unwrap_or};
ghost use Rattle.clap.specs.Built.{FitsChain};
ghost use Rattle.clap.specs.Walk.{texts};
ghost use Rattle.clap.specs.Words.{FailsBy, app_of, fault_of, first_value, found_of, matched_of, one_text, raw_values, rule_of};
ghost use Rattle.program_words.specs.Arguments.{SpellsTolerance, tolerance_rule};
ghost use Rattle.report_command_line.specs.CommandLine.{AsksCsv, AsksMoves, csv_rule, files_in, files_rule, moves_rule, procs_in};
ghost use Rattle.report_command_line.specs.CommandLine.{procs_rule, program, tolerance_in};

use crate::help::{ABOUT, HOW_TO};
use crate::request::ReportOptions;
use clap::{Arg, ArgAction, ArgMatches, Command, Error};
use program_words::{flag, new_program, tolerance_in, word};
use std::alloc::{AllocError, Global};

/// Reads the arguments of a command line, the program's name first.
///
/// # Errors
///
/// The arguments are not `[--procs P[,P..]] [--tolerance T] [--csv] [--moves] FILE..` with a T of 0 to 1,000
/// (`Tolerance::MOST`), help or the version is asked for, or memory ran out. The error has the text to print; [`words_status`]
/// is the status for it.
pub fn asked<'a>(alloc: Global, words: &'a [&'a str]) -> Result<ReportOptions<'a>, Error>
    ensures faults { FailsBy (fault_of program (texts words.now)) result }
    ensures files { IfOk result (λ asked. files_in (texts words.now) ≡ texts asked.files.items) }
    ensures procs { IfOk result (λ asked. procs_in (texts words.now) ≡ option_map (λ text. text.now) asked.procs) }
    ensures tolerance { IfOk result (λ asked. (n : ℕ) → (asked.tolerance ≡ Some n) ↔ SpellsTolerance (tolerance_in (texts words.now)) n) }
    ensures csv { IfOk result (λ asked. IsTrue asked.csv ↔ AsksCsv (texts words.now)) }
    ensures moves { IfOk result (λ asked. IsTrue asked.moves ↔ AsksMoves (texts words.now)) }
{
    match command(alloc)?.try_get_matches_from(words) {
        Ok(matches) => {
            let files = files_of(alloc, &matches)?;
            Ok(found(files, &matches))
        }
        Err(error) => Err(error),
    }
}

// The arguments that are understood: `lb_report [--procs P[,P..]] [--tolerance T] [--csv] [--moves] FILE..`, and those for help
// and for the version, which clap adds.
fn command<'a>(alloc: Global) -> Result<Command<'a>, AllocError>
    ensures program { IfOk result (λ command. app_of command ≡ program) }
{
    let command = new_program(alloc, "lb_report", ABOUT, HOW_TO);
    let command = command.arg(files(alloc))?;
    let command = command.arg(procs(alloc))?;
    let command = command.arg(tolerance(alloc))?;
    let command = command.arg(csv(alloc))?;
    command.arg(moves(alloc))
}

fn files<'a>(alloc: Global) -> Arg<'a>
    ensures rule { rule_of result ≡ files_rule }
    ensures fits { FitsChain result }
{
    Arg::new(alloc, "file")
        .value_name("FILE")
        .help("Dumps of load databases, as charm_run --dump{n}writes them; - is the standard input")
        .required(true)
        .action(ArgAction::Append)
}

fn procs<'a>(alloc: Global) -> Arg<'a>
    ensures rule { rule_of result ≡ procs_rule }
    ensures fits { FitsChain result }
{
    let help =
        "Plans for each of these numbers of PEs, 1 to{n}256, in place of the dump's own number";
    word(alloc, "procs", "P[,P..]", help)
}

fn tolerance<'a>(alloc: Global) -> Arg<'a>
    ensures rule { rule_of result ≡ tolerance_rule }
    ensures fits { FitsChain result }
{
    program_words::tolerance(
        alloc,
        "Reports also on the decision that moves fewer{n}\
         bytes where no load is then above the least by{n}\
         more than so many thousandths, 0 to 1000, or a{n}\
         fraction: 20 and 0.02 are the same",
    )
}

fn csv<'a>(alloc: Global) -> Arg<'a>
    ensures rule { rule_of result ≡ csv_rule }
    ensures fits { FitsChain result }
{
    flag(
        alloc,
        "csv",
        "Prints comma-separated values in place of a{n}table",
    )
}

fn moves<'a>(alloc: Global) -> Arg<'a>
    ensures rule { rule_of result ≡ moves_rule }
    ensures fits { FitsChain result }
{
    flag(
        alloc,
        "moves",
        "Lists the elements that move in place of the{n}figures",
    )
}

// What the arguments ask for, with the dumps that are named.
fn found<'a>(files: Vec<&'a str>, matches: &ArgMatches<'a>) -> ReportOptions<'a>
    ensures files { texts files.entry.items ≡ texts result.files.items }
    ensures procs { first_value (found_of matches.now) (codes "procs") ≡ option_map (λ text. text.now) result.procs }
    ensures tolerance { (n : ℕ) → (result.tolerance ≡ Some n) ↔ SpellsTolerance (one_text (found_of matches.now) (codes "tolerance")) n }
    ensures csv { IsTrue result.csv ↔ (one_text (found_of matches.now) (codes "csv") ≡ Some (codes "true")) }
    ensures moves { IsTrue result.moves ↔ (one_text (found_of matches.now) (codes "moves") ≡ Some (codes "true")) }
{
    ReportOptions {
        files,
        procs: matches.get_str("procs"),
        tolerance: tolerance_in(matches),
        csv: matches.get_one("csv") == Some(true),
        moves: matches.get_one("moves") == Some(true),
    }
}

// The dumps that are named.
fn files_of<'a>(alloc: Global, matches: &ArgMatches<'a>) -> Result<Vec<&'a str>, AllocError>
    ensures { IfOk result (λ files. unwrap_or (option_map raw_values (matched_of (found_of matches.now) (codes "file"))) [] ≡ texts files.items) }
{
    match matches.get_strs("file") {
        Some(files) => Vec::from_slice(alloc, files),
        None => Ok(Vec::new(alloc)),
    }
}
