//! The words of a command line, and the status where they ask for nothing.

ghost use Rattle.std.specs.Prelude.{◌≡◌, ◌≢◌, ◌⊎◌};
ghost use Rattle.clap.specs.Values.{kind_of};
ghost use Rattle.clap.specs.declared.error.kind.ErrorKind.TheVariants.{DisplayHelp, DisplayVersion};

use crate::fractions::read_word;
use clap::Error;
use std::alloc::{AllocError, Global};
use std::env::{self, Env};
use std::process::ExitCode;

/// The status where the words of the command line cannot be read, or are refused.
pub const NO_WORDS: u8 = 2;

/// The status where a file cannot be read, or what it has is at fault.
pub const BAD_FILE: u8 = 3;

/// The status where a fault ended a run early.
pub const RUN_FAULT: u8 = 4;

/// The status where memory was refused, or the output or a file could not be written.
pub const NO_OUTPUT: u8 = 5;

/// The status where the words ask for nothing to be done: 0 for help or the version, and else [`NO_WORDS`].
pub fn words_status(error: &Error) -> u8
    ensures shown { (kind_of error.now ≡ DisplayHelp) ⊎ (kind_of error.now ≡ DisplayVersion) → result ≡ 0 }
    ensures refused { (kind_of error.now ≢ DisplayHelp) → (kind_of error.now ≢ DisplayVersion) → result ≡ NO_WORDS }
{
    if error.use_stderr() { NO_WORDS } else { 0 }
}

/// Prints why the words ask for nothing to be done, or what they ask to be shown, and returns the status for that, as
/// [`words_status`] does, also where it could not be printed.
pub fn refused<R: Print + Eprint>(rt: &R, error: &Error) -> u8
    ensures shown { (kind_of error.now ≡ DisplayHelp) ⊎ (kind_of error.now ≡ DisplayVersion) → result ≡ 0 }
    ensures refused { (kind_of error.now ≢ DisplayHelp) → (kind_of error.now ≢ DisplayVersion) → result ≡ NO_WORDS }
{
    let _printed = error.print(rt);
    words_status(error)
}

/// Runs a program on the words of its command line, its own name first, and exits with the status that it returns; or with
/// [`NO_WORDS`] where a word is not UTF-8 or memory ran out. A tolerance that is a fraction is read in thousandths, as by
/// [`read_word`].
pub fn on_words<R: Env + AllocGlobal, F: FnOnce(&[&str]) -> u8>(rt: &R, run: F) -> ExitCode
    requires { F.IsAlwaysCallable run }
{
    let Ok(args) = env::args(rt) else {
        return ExitCode::from(NO_WORDS);
    };
    let Ok(words) = args.collect::<Vec<String>>(rt.alloc()) else {
        return ExitCode::from(NO_WORDS);
    };
    let Ok(words) = slices(rt.alloc(), &words) else {
        return ExitCode::from(NO_WORDS);
    };
    let Ok(read) = with_thousandths(rt.alloc(), &words) else {
        return ExitCode::from(NO_WORDS);
    };
    let Ok(read) = slices(rt.alloc(), &read) else {
        return ExitCode::from(NO_WORDS);
    };
    ExitCode::from(run(&read))
}

// The words with each tolerance in thousandths. Those from `--` on are no options, and stay as they are.
fn with_thousandths(alloc: Global, words: &[&str]) -> Result<Vec<String>, AllocError> {
    let end = words
        .iter()
        .position(|word| *word == "--")
        .unwrap_or(words.len());
    let mut read = Vec::new(alloc);
    for k in 0..words.len() {
        let word = if k < end {
            let before = if k == 0 { "" } else { words[k - 1] };
            read_word(alloc, before, words[k])?
        } else {
            String::from_str(alloc, words[k])?
        };
        read.push(word)?;
    }
    Ok(read)
}

// The texts of these strings.
fn slices<'a>(alloc: Global, words: &'a [String]) -> Result<Vec<&'a str>, AllocError> {
    words
        .iter()
        .map(|word| word.as_str())
        .collect::<Vec<&str>>(alloc)
}
