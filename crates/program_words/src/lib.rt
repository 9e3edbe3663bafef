//! What the programs have in common: the words of their command lines, and the arguments that several of them take. clap reads the
//! words, and writes the texts of what it refuses, of help and of the version.
//!
//! - [`on_words`]: runs a program on its words; [`refused`]: prints why there is nothing to run; [`words_status`]: the status then.
//! - [`NO_WORDS`], [`BAD_FILE`], [`RUN_FAULT`] and [`NO_OUTPUT`]: statuses of the programs.
//! - [`new_program`]: a program before its arguments are declared; [`file`], [`word`], [`flag`] and [`tolerance`]: arguments;
//!   [`tolerance_in`]: the tolerance that was found; [`read_word`]: a word, where a tolerance may be a fraction.
//!
//! ```
//! use program_words::{flag, new_program, tolerance, tolerance_in};
//!
//! let command = new_program(alloc, "count", "Counts lines", "See count(1).");
//! let command = command.arg(flag(alloc, "all", "Counts empty lines too"))?;
//! let command = command.arg(tolerance(alloc, "How many may be missing"))?;
//! let words = ["count", "--all", "--tolerance", "20"];
//! let found = command.try_get_matches_from(&words).ok().ok_or("refused")?;
//! let most = tolerance_in(&found).ok_or("no tolerance")?;
//! assert!(rt; most.get() == 20);
//! ```
#![tactic(auto)]

mod arguments;
mod fractions;
mod words;

pub use arguments::{file, flag, new_program, tolerance, tolerance_in, word};
pub use fractions::read_word;
pub use words::{BAD_FILE, NO_OUTPUT, NO_WORDS, RUN_FAULT, on_words, refused, words_status};
