//! What `--help` says. Its lines have at most 80 characters.

/// What the program does, in a line.
pub(crate) const ABOUT: &str =
    "Computes a rod on fire: the heat equation, over chares that are balanced";

/// A run, what is printed of it, and the statuses.
pub(crate) const HOW_TO: &str = "\
Example: heat --elements 8 --pes 3 --steps 600 --small 24 prints
  steps 440 residual 3e6ae071e3000000 checksum 417710855fe87ee3

steps S      how many were taken
residual R   the greatest change of a cell in the last one: the bits of a double
checksum C   of the bits of all cells: the same on any number of PEs
fault WORD   in place of them: what ended the run early

Standard error tells how often the strips were balanced, and the bytes that
moved. Statuses: 0 ended well, 2 words, 4 a fault of the run, 5 memory or
output.";
