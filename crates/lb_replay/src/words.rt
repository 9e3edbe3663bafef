//! The arguments of `lb_sim`, and how they are read.

ghost use Rattle.std.specs.Prelude.{◌≡◌, ◌≤◌, ◌↔◌, ℕ, IfOk, IsTrue, Some, codes, is_some, pos, true};
ghost use Rattle.std.specs.Option.{ForSome};
ghost use Rattle.clap.specs.Built.{FitsChain, TakesValue};
ghost use Rattle.clap.specs.Walk.{texts};
ghost use Rattle.clap.specs.Words.{FailsBy, app_of, fault_of, first_value, found_of, one_text, rule_of};
ghost use Rattle.clap.specs.declared.builder.value_parser.ValueParser.TheVariants.{Signed};
ghost use Rattle.program_words.specs.Arguments.{NamesFile, SpellsTolerance, file_rule, tolerance_rule};
ghost use Rattle.streams.specs.Writing.{WritesPrefix};
ghost use Rattle.lb_replay.specs.CommandLine.{AsksAnyOrder, AsksCheck, AsksKeepOrder, Spells, any_order_rule, both_line, check_rule, file_in, keep_order_rule, procs_in, procs_rule};
ghost use Rattle.lb_replay.specs.CommandLine.{program, tolerance_in};

use crate::help::{ABOUT, HOW_TO};
use crate::request::{Asked, Clash};
use chare_index::Limits;
use clap::builder::ValueParser;
use clap::{Arg, ArgMatches, Command, Error, value_parser};
use program_words::{NO_WORDS, flag, new_program, tolerance_in, word};
use std::alloc::{AllocError, Global};
use std::io::Write;
use streams::write_out;

/// What is printed where both a check and a number of PEs are asked for.
const PROCS_AND_CHECK: &str =
    "lb_sim: --procs and --check: a decision is checked for its own number of PEs; leave one out\n";

/// What is printed where both a check and a tolerance are asked for.
const TOLERANCE_AND_CHECK: &str =
    "lb_sim: --tolerance and --check: a check decides nothing; leave one out\n";

/// What is printed where both a check and an order that is kept are asked for.
const KEEP_ORDER_AND_CHECK: &str =
    "lb_sim: --keep-order and --check: a check decides nothing; leave one out\n";

/// What is printed where an order is to be kept, and no tolerance is given.
const KEEP_ORDER_ALONE: &str =
    "lb_sim: --keep-order without --tolerance: add --tolerance T, or leave --keep-order out\n";

/// What is printed where both a check and any order are asked for.
const ANY_ORDER_AND_CHECK: &str =
    "lb_sim: --any-order and --check: a check decides nothing; leave one out\n";

/// What is printed where any order is asked for, and no tolerance is given.
const ANY_ORDER_ALONE: &str =
    "lb_sim: --any-order without --tolerance: add --tolerance T, or leave --any-order out\n";

/// What is printed where an order is to be kept, and may be any.
const KEEP_ORDER_AND_ANY_ORDER: &str =
    "lb_sim: --keep-order and --any-order: the PEs keep their order, or may change it; leave one out\n";

/// Writes which two options cannot be combined, or which one needs another, and returns the status for that, [`NO_WORDS`].
pub fn refuse_both<W: Write>(writer: &mut W, clash: Clash) -> u8
    ensures told { WritesPrefix (W.contents writer.old) (W.contents writer.new) (both_line clash) }
    ensures status { result ≡ NO_WORDS }
{
    let _told = write_out(writer, line_of(clash).as_bytes());
    NO_WORDS
}

// The line for such options.
fn line_of(clash: Clash) -> &'static str
    ensures { result.now ≡ both_line clash }
{
    match clash {
        Clash::ProcsAndCheck => PROCS_AND_CHECK,
        Clash::ToleranceAndCheck => TOLERANCE_AND_CHECK,
        Clash::KeepOrderAndCheck => KEEP_ORDER_AND_CHECK,
        Clash::KeepOrderAlone => KEEP_ORDER_ALONE,
        Clash::AnyOrderAndCheck => ANY_ORDER_AND_CHECK,
        Clash::AnyOrderAlone => ANY_ORDER_ALONE,
        Clash::KeepOrderAndAnyOrder => KEEP_ORDER_AND_ANY_ORDER,
    }
}

/// Reads the arguments of a command line, the program's name first.
///
/// # Errors
///
/// The arguments are not `[--procs P] [--tolerance T] [--keep-order] [--any-order] [--check] FILE` with a P of 1 to 256
/// (`Limits::PES`) and a T of 0 to 1,000 (`Tolerance::MOST`), help or the version is asked for, or memory ran out. The error has
/// the text to print; [`words_status`] is the status for it. Arguments that ask for a check and also for another of these, for an
/// order that is kept or any order and for no tolerance, or for both orders, are no error here: [`Asked::task`] returns the
/// [`Clash`].
pub fn asked<'a>(alloc: Global, words: &'a [&'a str]) -> Result<Asked<'a>, Error>
    ensures faults { FailsBy (fault_of program (texts words.now)) result }
    ensures file { IfOk result (λ asked. file_in (texts words.now) ≡ Some asked.file.now) }
    ensures procs { IfOk result (λ asked. (n : ℕ) → (asked.procs ≡ Some n) ↔ Spells (procs_in (texts words.now)) n) }
    ensures tolerance { IfOk result (λ asked. (n : ℕ) → (asked.tolerance ≡ Some n) ↔ SpellsTolerance (tolerance_in (texts words.now)) n) }
    ensures keep_order { IfOk result (λ asked. IsTrue asked.keep_order ↔ AsksKeepOrder (texts words.now)) }
    ensures any_order { IfOk result (λ asked. IsTrue asked.any_order ↔ AsksAnyOrder (texts words.now)) }
    ensures check { IfOk result (λ asked. IsTrue asked.check ↔ AsksCheck (texts words.now)) }
    ensures some_pe { IfOk result (λ asked. ForSome asked.procs (λ p. 1 ≤ p)) }
    ensures few_pes { IfOk result (λ asked. ForSome asked.procs (λ p. p ≤ Limits.PES)) }
{
    match command(alloc)?.try_get_matches_from(words) {
        Ok(matches) => Ok(found(&matches)),
        Err(error) => Err(error),
    }
}

// The arguments that are understood: `lb_sim [--procs P] [--tolerance T] [--keep-order] [--any-order] [--check] FILE`, and those for
// help and for the version, which clap adds.
fn command<'a>(alloc: Global) -> Result<Command<'a>, AllocError>
    ensures program { IfOk result (λ command. app_of command ≡ program) }
    ensures named { IfOk result NamesFile }
{
    let command = new_program(alloc, "lb_sim", ABOUT, HOW_TO);
    let command = command.arg(file(alloc))?;
    let command = command.arg(procs(alloc))?;
    let command = command.arg(tolerance(alloc))?;
    let command = command.arg(keep_order(alloc))?;
    let command = command.arg(any_order(alloc))?;
    command.arg(check(alloc))
}

fn file<'a>(alloc: Global) -> Arg<'a>
    ensures rule { rule_of result ≡ file_rule }
    ensures fits { FitsChain result }
    ensures takes { TakesValue result }
{
    program_words::file(alloc, "A dump of the load database")
}

fn procs<'a>(alloc: Global) -> Arg<'a>
    ensures rule { rule_of result ≡ procs_rule }
    ensures fits { FitsChain result }
{
    let help = "Plans for P processors in place of the dump's{n}own number";
    word(alloc, "procs", "P", help).value_parser(number_of_pes())
}

fn tolerance<'a>(alloc: Global) -> Arg<'a>
    ensures rule { rule_of result ≡ tolerance_rule }
    ensures fits { FitsChain result }
{
    program_words::tolerance(
        alloc,
        "Moves fewer bytes where no load is then above{n}\
         the least by more than so many thousandths, 0{n}\
         to 1000, or a fraction: 20 and 0.02 are the{n}\
         same. It does not go with --check",
    )
}

fn keep_order<'a>(alloc: Global) -> Arg<'a>
    ensures rule { rule_of result ≡ keep_order_rule }
    ensures fits { FitsChain result }
{
    flag(
        alloc,
        "keep-order",
        "With --tolerance: the processors keep their{n}\
         order along the chain. It does not go with{n}\
         --check",
    )
}

fn any_order<'a>(alloc: Global) -> Arg<'a>
    ensures rule { rule_of result ≡ any_order_rule }
    ensures fits { FitsChain result }
{
    flag(
        alloc,
        "any-order",
        "With --tolerance: the processors may change{n}\
         their order along the chain, so that the{n}\
         fewest bytes move. It does not go with{n}\
         --keep-order nor with --check",
    )
}

fn check<'a>(alloc: Global) -> Arg<'a>
    ensures rule { rule_of result ≡ check_rule }
    ensures fits { FitsChain result }
{
    flag(
        alloc,
        "check",
        "Checks the decision that the dump has, and{n}\
         prints its first flaw, or that it is right. It{n}\
         does not go with --procs",
    )
}

// A number of PEs.
fn number_of_pes<'a>() -> ValueParser<'a>
    ensures { result ≡ Signed (pos 1) (pos Limits.PES) }
{
    value_parser!(u32).range(1..=i64::from(Limits::PES))
}

// What the arguments ask for.
fn found<'a>(matches: &ArgMatches<'a>) -> Asked<'a>
    requires named { is_some (first_value (found_of matches.now) (codes "file")) ≡ true }
    ensures file { first_value (found_of matches.now) (codes "file") ≡ Some result.file.now }
    ensures procs { (n : ℕ) → (result.procs ≡ Some n) ↔ Spells (one_text (found_of matches.now) (codes "procs")) n }
    ensures tolerance { (n : ℕ) → (result.tolerance ≡ Some n) ↔ SpellsTolerance (one_text (found_of matches.now) (codes "tolerance")) n }
    ensures keep_order { IsTrue result.keep_order ↔ (one_text (found_of matches.now) (codes "keep-order") ≡ Some (codes "true")) }
    ensures any_order { IsTrue result.any_order ↔ (one_text (found_of matches.now) (codes "any-order") ≡ Some (codes "true")) }
    ensures check { IsTrue result.check ↔ (one_text (found_of matches.now) (codes "check") ≡ Some (codes "true")) }
    ensures some_pe { ForSome result.procs (λ p. 1 ≤ p) }
    ensures few_pes { ForSome result.procs (λ p. p ≤ Limits.PES) }
{
    Asked {
        file: matches.get_str("file").unwrap(),
        procs: number_in(matches),
        tolerance: tolerance_in(matches),
        keep_order: matches.get_one("keep-order") == Some(true),
        any_order: matches.get_one("any-order") == Some(true),
        check: matches.get_one("check") == Some(true),
    }
}

// The number of PEs asked for. clap refuses one out of range; here it would count as none.
fn number_in<'a>(matches: &ArgMatches<'a>) -> Option<u32>
    ensures procs { (n : ℕ) → (result ≡ Some n) ↔ Spells (one_text (found_of matches.now) (codes "procs")) n }
    ensures some_pe { ForSome result (λ p. 1 ≤ p) }
    ensures few_pes { ForSome result (λ p. p ≤ Limits.PES) }
{
    let number = matches.get_one::<u32>("procs");
    number.filter(|&p| 1 <= p && p <= Limits::PES)
}
