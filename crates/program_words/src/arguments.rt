//! Arguments, for clap.

ghost use Rattle.std.specs.Prelude.{◌≡◌, ◌↔◌, ℕ, Some, codes, pos};
ghost use Rattle.clap.specs.Built.{FitsChain, TakesValue};
ghost use Rattle.clap.specs.Words.{found_of, one_text, rule_of};
ghost use Rattle.clap.specs.declared.builder.value_parser.ValueParser.TheVariants.{Signed};
ghost use Rattle.program_words.specs.Arguments.{IsBare, IsOptionName, SpellsTolerance, file_rule, flag_rule, tolerance_rule, word_rule};

use chain_refinement::Tolerance;
use clap::builder::ValueParser;
use clap::{Arg, ArgAction, ArgMatches, Command, value_parser};
use std::alloc::Global;

/// The version of the programs.
const VERSION: &str = "0.2.0";

/// A program before its arguments are declared: its name, what it does, in one line, and what `--help` says after the
/// arguments.
pub fn new_program<'a>(
    alloc: Global,
    name: &'a str,
    about: &'a str,
    after_help: &'a str,
) -> Command<'a>
    ensures bare { IsBare name.now result }
{
    Command::new(alloc, name)
        .version(VERSION)
        .about(about)
        .after_help(after_help)
}

/// The file that a program works on, which has to be named.
pub fn file<'a>(alloc: Global, help: &'a str) -> Arg<'a>
    ensures rule { rule_of result ≡ file_rule }
    ensures fits { FitsChain result }
    ensures takes { TakesValue result }
{
    Arg::new(alloc, "file")
        .value_name("FILE")
        .help(help)
        .required(true)
        .action(ArgAction::Set)
}

/// An option of this name that takes a value, with the name of that value in the help.
pub fn word<'a>(alloc: Global, name: &'a str, value: &'a str, help: &'a str) -> Arg<'a>
    requires { IsOptionName name.now }
    ensures rule { rule_of result ≡ word_rule name.now }
    ensures fits { FitsChain result }
{
    Arg::new(alloc, name)
        .long(name)
        .value_name(value)
        .help(help)
        .action(ArgAction::Set)
}

/// A flag of this name, which takes no value.
pub fn flag<'a>(alloc: Global, name: &'a str, help: &'a str) -> Arg<'a>
    requires { IsOptionName name.now }
    ensures rule { rule_of result ≡ flag_rule name.now }
    ensures fits { FitsChain result }
{
    Arg::new(alloc, name)
        .long(name)
        .help(help)
        .action(ArgAction::SetTrue)
}

/// The option `--tolerance`, which takes thousandths, 0 to 1,000 (`Tolerance::MOST`). [`on_words`](crate::on_words) reads a fraction
/// as thousandths before.
pub fn tolerance<'a>(alloc: Global, help: &'a str) -> Arg<'a>
    ensures rule { rule_of result ≡ tolerance_rule }
    ensures fits { FitsChain result }
{
    word(alloc, "tolerance", "THOUSANDTHS", help).value_parser(thousandths())
}

// A number of thousandths.
fn thousandths<'a>() -> ValueParser<'a>
    ensures { result ≡ Signed (pos 0) (pos Tolerance.MOST) }
{
    value_parser!(u32).range(0..=i64::from(Tolerance::MOST))
}

/// The tolerance that was found. clap refuses a number out of range; here it would count as none.
pub fn tolerance_in(matches: &ArgMatches<'_>) -> Option<Tolerance>
    ensures tolerance { (n : ℕ) → (result ≡ Some n) ↔ SpellsTolerance (one_text (found_of matches.now) (codes "tolerance")) n }
{
    let thousandths = matches.get_one::<u32>("tolerance")?;
    Tolerance::new(thousandths)
}
