//! The arguments of `charm_run`, and how they are read.

ghost use Rattle.std.specs.Prelude.{◌≡◌, ◌≤◌, ◌↔◌, ℕ, IfOk, IsTrue, Some, codes, is_some, option_map, pos, true};
ghost use Rattle.std.specs.Option.{ForSome};
ghost use Rattle.clap.specs.Built.{FitsChain, TakesValue};
ghost use Rattle.clap.specs.Walk.{texts};
ghost use Rattle.clap.specs.Words.{FailsBy, app_of, fault_of, first_value, found_of, one_text, rule_of};
ghost use Rattle.clap.specs.declared.builder.value_parser.ValueParser.TheVariants.{Signed, Unsigned};
ghost use Rattle.program_words.specs.Arguments.{NamesFile, SpellsTolerance, file_rule, tolerance_rule};
ghost use Rattle.streams.specs.Writing.{WritesPrefix};
ghost use Rattle.run_command_line.specs.CommandLine.{AsksLbd1, DropsJournal, SpellsSeed, SpellsSeeds, TellsProgress, clash_line, dump_in, events_in, file_in, lbd1_rule};
ghost use Rattle.run_command_line.specs.CommandLine.{dump_rule, events_rule, no_journal_rule, program, progress_rule, replay_in, replay_rule, seed_in, seed_rule, seeds_in, seeds_rule};
ghost use Rattle.run_command_line.specs.CommandLine.{tolerance_in, trace_in, trace_rule, with_schedules};
ghost use Rattle.run_command_line.specs.CommandLine.{AsksRestart, SpellsEvery, SpellsProcs, checkpoint_in, checkpoint_rule, every_in, every_rule, procs_in, procs_rule};
ghost use Rattle.run_command_line.specs.CommandLine.{restart_rule, with_checkpoints};

use crate::help::{ABOUT, HOW_TO};
use crate::request::{CharmRunOptions, Clash};
use clap::builder::ValueParser;
use clap::{Arg, ArgMatches, Command, Error, value_parser};
use program_words::{NO_WORDS, flag, new_program, tolerance_in, word};
use std::alloc::{AllocError, Global};
use std::io::Write;
use streams::write_out;

/// Writes which options do not go together, and returns the status for that, [`NO_WORDS`].
pub fn refuse<W: Write>(writer: &mut W, clash: Clash) -> u8
    ensures told { WritesPrefix (W.contents writer.old) (W.contents writer.new) (clash_line clash) }
    ensures status { result ≡ NO_WORDS }
{
    let _told = write_out(writer, line_of(clash).as_bytes());
    NO_WORDS
}

// The line for these options.
fn line_of(clash: Clash) -> &'static str
    ensures { result.now ≡ clash_line clash }
{
    match clash {
        Clash::SeedAndSeeds =>
            "charm_run: --seed and --seeds: give --seed S for one run, or --seeds N for many\n",
        Clash::SeedAndReplay =>
            "charm_run: --seed and --replay: the seed or the list decides the order of events; leave one out\n",
        Clash::SeedsAndReplay =>
            "charm_run: --seeds and --replay: the seeds or the list decide the order of events; leave one out\n",
        Clash::EventsWithoutSeed =>
            "charm_run: --events without --seed: add --seed S, for the run that the list is of\n",
        Clash::SeedsAndDump =>
            "charm_run: --seeds and --dump: dumps are of one run; give --seed S in place of --seeds\n",
        Clash::SeedsAndTrace =>
            "charm_run: --seeds and --trace: a trace is of one run; give --seed S in place of --seeds\n",
        Clash::NoJournalOnOneThread =>
            "charm_run: --no-journal with --seed, --seeds or --replay: a run on one thread keeps its journal; leave --no-journal out\n",
        Clash::CheckpointOnOneThread =>
            "charm_run: --checkpoint with --seed, --seeds or --replay: only a run over threads keeps checkpoints; leave one out\n",
        Clash::RestartOnOneThread =>
            "charm_run: --restart with --seed, --seeds or --replay: a run goes on over threads; leave the other out\n",
        Clash::CheckpointAndDump =>
            "charm_run: --checkpoint and --dump: a run that keeps checkpoints writes no dumps; leave one out\n",
        Clash::CheckpointAndLbd1 =>
            "charm_run: --checkpoint and --lbd1: a run that keeps checkpoints writes no dumps; leave --lbd1 out\n",
        Clash::CheckpointAndTrace =>
            "charm_run: --checkpoint and --trace: a run that keeps checkpoints writes no trace; leave one out\n",
        Clash::RestartAndDump =>
            "charm_run: --restart and --dump: a run that goes on writes no dumps; leave --dump out\n",
        Clash::RestartAndLbd1 =>
            "charm_run: --restart and --lbd1: a run that goes on writes no dumps; leave --lbd1 out\n",
        Clash::RestartAndTrace =>
            "charm_run: --restart and --trace: a run that goes on writes no trace; leave --trace out\n",
        Clash::EveryWithoutCheckpoint =>
            "charm_run: --every without --checkpoint: add --checkpoint FILE, or leave --every out\n",
        Clash::ProcsWithoutRestart =>
            "charm_run: --procs without --restart: a workload has its own number of PEs; leave --procs out, or go on from a checkpoint with --restart\n",
    }
}

/// Reads the arguments of a command line, the program's name first.
///
/// # Errors
///
/// The arguments are not `[--dump PREFIX] [--lbd1] [--progress] [--tolerance T] [--seed S] [--seeds N] [--events FILE]
/// [--replay FILE] [--trace FILE] [--no-journal] [--checkpoint CHECKPOINT] [--every K] [--restart] [--procs P] FILE` with a T of 0 to
/// 1,000, an S below 2^64, an N of 1 to 1,000,000, a K of 1 to 1,000 and a P of 1 to 256; or help or the version is asked for; or
/// memory ran out. The error has the text to print; [`words_status`] is the status for it. Options that
/// do not go together are no error here: [`CharmRunOptions::task`] returns the [`Clash`].
pub fn asked<'a>(alloc: Global, words: &'a [&'a str]) -> Result<CharmRunOptions<'a>, Error>
    ensures faults { FailsBy (fault_of program (texts words.now)) result }
    ensures file { IfOk result (λ asked. file_in (texts words.now) ≡ Some asked.file.now) }
    ensures dump { IfOk result (λ asked. dump_in (texts words.now) ≡ option_map (λ prefix. prefix.now) asked.dump) }
    ensures lbd1 { IfOk result (λ asked. IsTrue asked.lbd1 ↔ AsksLbd1 (texts words.now)) }
    ensures progress { IfOk result (λ asked. IsTrue asked.progress ↔ TellsProgress (texts words.now)) }
    ensures tolerance { IfOk result (λ asked. (n : ℕ) → (asked.tolerance ≡ Some n) ↔ SpellsTolerance (tolerance_in (texts words.now)) n) }
    ensures seed { IfOk result (λ asked. (n : ℕ) → (asked.seed ≡ Some n) ↔ SpellsSeed (seed_in (texts words.now)) n) }
    ensures seeds { IfOk result (λ asked. (n : ℕ) → (asked.seeds ≡ Some n) ↔ SpellsSeeds (seeds_in (texts words.now)) n) }
    ensures some_seed { IfOk result (λ asked. ForSome asked.seeds (λ n. 1 ≤ n)) }
    ensures few_seeds { IfOk result (λ asked. ForSome asked.seeds (λ n. n ≤ 1000000)) }
    ensures events { IfOk result (λ asked. events_in (texts words.now) ≡ option_map (λ name. name.now) asked.events) }
    ensures replay { IfOk result (λ asked. replay_in (texts words.now) ≡ option_map (λ name. name.now) asked.replay) }
    ensures trace { IfOk result (λ asked. trace_in (texts words.now) ≡ option_map (λ name. name.now) asked.trace) }
    ensures no_journal { IfOk result (λ asked. IsTrue asked.no_journal ↔ DropsJournal (texts words.now)) }
    ensures checkpoint { IfOk result (λ asked. checkpoint_in (texts words.now) ≡ option_map (λ name. name.now) asked.checkpoint) }
    ensures every { IfOk result (λ asked. (n : ℕ) → (asked.every ≡ Some n) ↔ SpellsEvery (every_in (texts words.now)) n) }
    ensures some_round { IfOk result (λ asked. ForSome asked.every (λ n. 1 ≤ n)) }
    ensures few_rounds { IfOk result (λ asked. ForSome asked.every (λ n. n ≤ 1000)) }
    ensures restart { IfOk result (λ asked. IsTrue asked.restart ↔ AsksRestart (texts words.now)) }
    ensures procs { IfOk result (λ asked. (n : ℕ) → (asked.procs ≡ Some n) ↔ SpellsProcs (procs_in (texts words.now)) n) }
    ensures some_pe { IfOk result (λ asked. ForSome asked.procs (λ n. 1 ≤ n)) }
    ensures few_pes { IfOk result (λ asked. ForSome asked.procs (λ n. n ≤ 256)) }
{
    match command(alloc)?.try_get_matches_from(words) {
        Ok(matches) => Ok(found(&matches)),
        Err(error) => Err(error),
    }
}

// The arguments that are understood: `charm_run [--dump PREFIX] [--lbd1] [--progress] [--tolerance T] [--no-journal] FILE`, those for
// runs on one thread and for checkpoints, and those for help and for the version, which clap adds.
fn command<'a>(alloc: Global) -> Result<Command<'a>, AllocError>
    ensures program { IfOk result (λ command. app_of command ≡ program) }
    ensures named { IfOk result NamesFile }
{
    let command = new_program(alloc, "charm_run", ABOUT, HOW_TO);
    let command = command.arg(file(alloc))?;
    let command = command.arg(dump(alloc))?;
    let command = command.arg(lbd1(alloc))?;
    let command = command.arg(progress(alloc))?;
    let command = command.arg(tolerance(alloc))?;
    let command = command.arg(seed(alloc))?;
    let command = command.arg(seeds(alloc))?;
    let command = command.arg(events(alloc))?;
    let command = command.arg(replay(alloc))?;
    let command = command.arg(trace(alloc))?;
    let command = command.arg(no_journal(alloc))?;
    let command = command.arg(checkpoint(alloc))?;
    let command = command.arg(every(alloc))?;
    let command = command.arg(restart(alloc))?;
    command.arg(procs(alloc))
}

fn file<'a>(alloc: Global) -> Arg<'a>
    ensures rule { rule_of result ≡ file_rule }
    ensures fits { FitsChain result }
    ensures takes { TakesValue result }
{
    program_words::file(
        alloc,
        "A workload: its lines are pes, rounds, pad, chares,{n}and amounts for each round",
    )
}

fn dump<'a>(alloc: Global) -> Arg<'a>
    ensures rule { rule_of result ≡ dump_rule }
    ensures fits { FitsChain result }
{
    word(
        alloc,
        "dump",
        "PREFIX",
        "Writes the dump of round r to the file PREFIX.r: its{n}\
         snapshot, and the decision with its certificates.{n}\
         lb_sim PREFIX.r replays the snapshot, and{n}\
         lb_sim --check PREFIX.r checks the decision",
    )
}

fn lbd1<'a>(alloc: Global) -> Arg<'a>
    ensures rule { rule_of result ≡ lbd1_rule }
    ensures fits { FitsChain result }
{
    flag(
        alloc,
        "lbd1",
        "With --dump, writes the snapshots alone, in the format{n}LBD1, whose loads are below 2^32",
    )
}

fn progress<'a>(alloc: Global) -> Arg<'a>
    ensures rule { rule_of result ≡ progress_rule }
    ensures fits { FitsChain result }
{
    flag(
        alloc,
        "progress",
        "Tells the progress of the run on standard error,{n}also where that is no terminal",
    )
}

fn tolerance<'a>(alloc: Global) -> Arg<'a>
    ensures rule { rule_of result ≡ tolerance_rule }
    ensures fits { FitsChain result }
{
    program_words::tolerance(
        alloc,
        "Lets the greatest load of a PE lie so many thousandths{n}\
             above the least possible one, 0 to 1000, or so great a{n}\
             fraction, so that fewer bytes move: 20 and 0.02 are the{n}\
             same",
    )
}

fn seed<'a>(alloc: Global) -> Arg<'a>
    ensures rule { rule_of result ≡ seed_rule }
    ensures fits { FitsChain result }
{
    let help = "Runs the chares on one thread, in the order of events{n}\
                that the seed S decides, and so as often as wanted";
    word(alloc, "seed", "S", help).value_parser(any_number())
}

fn seeds<'a>(alloc: Global) -> Arg<'a>
    ensures rule { rule_of result ≡ seeds_rule }
    ensures fits { FitsChain result }
{
    let help = "Runs the chares so by each of the seeds 1 to N, and{n}\
                prints those whose run ends in a fault or leaves{n}\
                letters, and how many there are; N is 1 to 1000000";
    word(alloc, "seeds", "N", help).value_parser(number_of_seeds())
}

fn events<'a>(alloc: Global) -> Arg<'a>
    ensures rule { rule_of result ≡ events_rule }
    ensures fits { FitsChain result }
{
    word(
        alloc,
        "events",
        "LIST",
        "With --seed, writes the events of the run to the file{n}LIST, a line each",
    )
}

fn replay<'a>(alloc: Global) -> Arg<'a>
    ensures rule { rule_of result ≡ replay_rule }
    ensures fits { FitsChain result }
{
    word(
        alloc,
        "replay",
        "LIST",
        "Runs the chares on one thread by the events in the{n}file LIST",
    )
}

fn trace<'a>(alloc: Global) -> Arg<'a>
    ensures rule { rule_of result ≡ trace_rule }
    ensures fits { FitsChain result }
{
    word(
        alloc,
        "trace",
        "TRACE",
        "Writes what happened to the file TRACE, in the Trace{n}\
         Event Format that viewers show",
    )
}

fn no_journal<'a>(alloc: Global) -> Arg<'a>
    ensures rule { rule_of result ≡ no_journal_rule }
    ensures fits { FitsChain result }
{
    flag(
        alloc,
        "no-journal",
        "Drops what each chare has handled, so that the memory of{n}a run over threads does not grow with its letters",
    )
}

fn checkpoint<'a>(alloc: Global) -> Arg<'a>
    ensures rule { rule_of result ≡ checkpoint_rule }
    ensures fits { FitsChain result }
{
    word(
        alloc,
        "checkpoint",
        "CHECKPOINT",
        "Keeps in the file CHECKPOINT what a run needs to go on{n}\
         after it was killed: of before the run, and after each{n}\
         K-th round. A new one is written to CHECKPOINT.new first",
    )
}

fn every<'a>(alloc: Global) -> Arg<'a>
    ensures rule { rule_of result ≡ every_rule }
    ensures fits { FitsChain result }
{
    let help =
        "With --checkpoint, the number of rounds between two; K is{n}1 to 1000, and 1 if left out";
    word(alloc, "every", "K", help).value_parser(number_of_rounds())
}

fn restart<'a>(alloc: Global) -> Arg<'a>
    ensures rule { rule_of result ≡ restart_rule }
    ensures fits { FitsChain result }
{
    flag(
        alloc,
        "restart",
        "FILE is a checkpoint: runs what is left, and prints the{n}text of the whole run",
    )
}

fn procs<'a>(alloc: Global) -> Arg<'a>
    ensures rule { rule_of result ≡ procs_rule }
    ensures fits { FitsChain result }
{
    let help = "With --restart, the number of PEs, 1 to 256, in place of{n}that of the checkpoint";
    word(alloc, "procs", "P", help).value_parser(number_of_pes())
}

// Any number of 64 bits.
fn any_number<'a>() -> ValueParser<'a>
    ensures { result ≡ Unsigned 0 18446744073709551615 }
{
    value_parser!(u64)
}

// A number of seeds.
fn number_of_seeds<'a>() -> ValueParser<'a>
    ensures { result ≡ Signed (pos 1) (pos 1000000) }
{
    value_parser!(u32).range(1..=1_000_000)
}

// A number of rounds between two checkpoints.
fn number_of_rounds<'a>() -> ValueParser<'a>
    ensures { result ≡ Signed (pos 1) (pos 1000) }
{
    value_parser!(u32).range(1..=1_000)
}

// A number of PEs.
fn number_of_pes<'a>() -> ValueParser<'a>
    ensures { result ≡ Signed (pos 1) (pos 256) }
{
    value_parser!(u32).range(1..=256)
}

// What the arguments ask for.
fn found<'a>(matches: &ArgMatches<'a>) -> CharmRunOptions<'a>
    requires named { is_some (first_value (found_of matches.now) (codes "file")) ≡ true }
    ensures file { first_value (found_of matches.now) (codes "file") ≡ Some result.file.now }
    ensures dump { first_value (found_of matches.now) (codes "dump") ≡ option_map (λ prefix. prefix.now) result.dump }
    ensures lbd1 { IsTrue result.lbd1 ↔ (one_text (found_of matches.now) (codes "lbd1") ≡ Some (codes "true")) }
    ensures progress { IsTrue result.progress ↔ (one_text (found_of matches.now) (codes "progress") ≡ Some (codes "true")) }
    ensures tolerance { (n : ℕ) → (result.tolerance ≡ Some n) ↔ SpellsTolerance (one_text (found_of matches.now) (codes "tolerance")) n }
    ensures seed { (n : ℕ) → (result.seed ≡ Some n) ↔ SpellsSeed (one_text (found_of matches.now) (codes "seed")) n }
    ensures seeds { (n : ℕ) → (result.seeds ≡ Some n) ↔ SpellsSeeds (one_text (found_of matches.now) (codes "seeds")) n }
    ensures some_seed { ForSome result.seeds (λ n. 1 ≤ n) }
    ensures few_seeds { ForSome result.seeds (λ n. n ≤ 1000000) }
    ensures events { first_value (found_of matches.now) (codes "events") ≡ option_map (λ name. name.now) result.events }
    ensures replay { first_value (found_of matches.now) (codes "replay") ≡ option_map (λ name. name.now) result.replay }
    ensures trace { first_value (found_of matches.now) (codes "trace") ≡ option_map (λ name. name.now) result.trace }
    ensures no_journal { IsTrue result.no_journal ↔ (one_text (found_of matches.now) (codes "no-journal") ≡ Some (codes "true")) }
    ensures checkpoint { first_value (found_of matches.now) (codes "checkpoint") ≡ option_map (λ name. name.now) result.checkpoint }
    ensures every { (n : ℕ) → (result.every ≡ Some n) ↔ SpellsEvery (one_text (found_of matches.now) (codes "every")) n }
    ensures some_round { ForSome result.every (λ n. 1 ≤ n) }
    ensures few_rounds { ForSome result.every (λ n. n ≤ 1000) }
    ensures restart { IsTrue result.restart ↔ (one_text (found_of matches.now) (codes "restart") ≡ Some (codes "true")) }
    ensures procs { (n : ℕ) → (result.procs ≡ Some n) ↔ SpellsProcs (one_text (found_of matches.now) (codes "procs")) n }
    ensures some_pe { ForSome result.procs (λ n. 1 ≤ n) }
    ensures few_pes { ForSome result.procs (λ n. n ≤ 256) }
{
    CharmRunOptions {
        file: matches.get_str("file").unwrap(),
        dump: matches.get_str("dump"),
        lbd1: matches.get_one("lbd1") == Some(true),
        progress: matches.get_one("progress") == Some(true),
        tolerance: tolerance_in(matches),
        seed: seed_in(matches),
        seeds: seeds_in(matches),
        events: matches.get_str("events"),
        replay: matches.get_str("replay"),
        trace: matches.get_str("trace"),
        no_journal: matches.get_one("no-journal") == Some(true),
        checkpoint: matches.get_str("checkpoint"),
        every: every_in(matches),
        restart: matches.get_one("restart") == Some(true),
        procs: procs_in(matches),
    }
}

// The seed asked for.
fn seed_in<'a>(matches: &ArgMatches<'a>) -> Option<u64>
    ensures seed { (n : ℕ) → (result ≡ Some n) ↔ SpellsSeed (one_text (found_of matches.now) (codes "seed")) n }
{
    matches.get_one::<u64>("seed")
}

// How many seeds are asked for. clap refuses a number out of range; here such a number would count as none.
fn seeds_in<'a>(matches: &ArgMatches<'a>) -> Option<u32>
    ensures seeds { (n : ℕ) → (result ≡ Some n) ↔ SpellsSeeds (one_text (found_of matches.now) (codes "seeds")) n }
    ensures some_seed { ForSome result (λ n. 1 ≤ n) }
    ensures few_seeds { ForSome result (λ n. n ≤ 1000000) }
{
    let number = matches.get_one::<u32>("seeds");
    number.filter(|&n| 1 <= n && n <= 1_000_000)
}

// How many rounds are asked for between two checkpoints. clap refuses a number out of range; here such a number would count as none.
fn every_in<'a>(matches: &ArgMatches<'a>) -> Option<u32>
    ensures every { (n : ℕ) → (result ≡ Some n) ↔ SpellsEvery (one_text (found_of matches.now) (codes "every")) n }
    ensures some_round { ForSome result (λ n. 1 ≤ n) }
    ensures few_rounds { ForSome result (λ n. n ≤ 1000) }
{
    let number = matches.get_one::<u32>("every");
    number.filter(|&n| 1 <= n && n <= 1_000)
}

// How many PEs are asked for. clap refuses a number out of range; here such a number would count as none.
fn procs_in<'a>(matches: &ArgMatches<'a>) -> Option<u32>
    ensures procs { (n : ℕ) → (result ≡ Some n) ↔ SpellsProcs (one_text (found_of matches.now) (codes "procs")) n }
    ensures some_pe { ForSome result (λ n. 1 ≤ n) }
    ensures few_pes { ForSome result (λ n. n ≤ 256) }
{
    let number = matches.get_one::<u32>("procs");
    number.filter(|&n| 1 <= n && n <= 256)
}
