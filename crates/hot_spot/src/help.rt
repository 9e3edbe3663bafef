//! What `--help` says. Its lines have at most 80 characters.

/// What the program does, in a line.
pub(crate) const ABOUT: &str =
    "Runs a chain of strips whose work wanders from one end to the other";

/// A run, what is printed of it, and the statuses.
pub(crate) const HOW_TO: &str = "\
Example: hot_spot --elements 12 --pes 3 --rounds 8 --work 100 prints
  round 1 greatest 2192 average 773 moved 1400
  round 2 greatest 2304 average 949 moved 200
  ..
  round 8 greatest 2160 average 949 moved 400
  checksum e4330f4fa711895f

round R greatest G average A moved M   the loads of the PEs in a round, and the
                                       bytes that moved behind it
checksum S                             of all cells: the same on any number of
                                       PEs, with --static too
fault WORD                             in place of it: what ended the run early

Standard error tells the time, and how to see the other: with --static, or
without it. Where nothing else is said a run with --static takes more than twice
as long. Statuses: 0 ended well, 2 words, 4 a fault of the run, 5 memory, output
or trace.";
