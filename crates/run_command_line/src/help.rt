//! What `--help` says. Its lines have at most 80 characters.

/// What the program does, in a line.
pub(crate) const ABOUT: &str =
    "Runs chares over worker threads, and prints each round and what was added up";

/// A workload, how it is run, what is printed, and the statuses.
pub(crate) const HOW_TO: &str = "\
In each round chare i sends its amount to chare i+1, and the last to chare 0.
What a chare gets is its load, and a load balancing step ends the round.

Example: two PEs, two rounds, 8 bytes of padding and four chares, in ring.work:
  pes 2
  rounds 2
  pad 8
  chares 4
  amounts 1 1 2 6
  amounts 2 2 2 2
charm_run ring.work prints:
  round 1 bottleneck 6 moved 40
  round 2 bottleneck 4 moved 40
  sums 8 3 3 4
  posted 8 executed 8 held 0

round r bottleneck B moved M   round r was decided: the greatest load of a PE
                               is B, and M bytes move
sums S0 S1 ..                  what each element summed up, in order of index
fault WORD                     in place of sums: what ended the run early
posted X executed Y held Z     letters sent, handled, and left over

With --seed S the same is printed of a run on one thread, whose order of events
S decides; --replay LIST repeats the order that --events LIST wrote. With
--seeds N it prints
  seed S fault WORD held Z     the run by S ended early, with Z letters left
  seeds N faults F             the seeds 1 to N ran, and F of them ended early

Statuses: 0 ended well, 2 words, 3 workload or list, 4 a fault of a run,
5 memory or output.";
