//! What `--help` says. Its lines have at most 80 characters.

/// What the program does, in one line.
pub(crate) const ABOUT: &str =
    "Replays a dump of the load database and prints the decision of its balancing step";

/// A dump, what is printed for it, and the statuses.
pub(crate) const HOW_TO: &str = "\
A dump has the load, the packed size and the PE of each element, in the format
LBD1 or LBD2. charm_run --dump PREFIX writes one for each round.

Example: lb_sim three-elements.lbd1 prints
  step 5 procs 2 elements 3
  bottleneck 2
  fence 0 1 2
  block 0 0..2 load 2 pe 1
  block 1 2..3 load 2 pe 0
  moved 10
lb_sim --check three-elements.lbd2 prints
  check: ok

bottleneck B              the greatest load of a block, the least there can be
fence S0 S1 ..            proves that: from each stop to the next, both
                          included, the elements weigh B or more
limit L                   with --tolerance T the most that a block may weigh:
                          B and T thousandths of it
reordered yes             with --any-order: no cuts within L, for processors in
                          any order, move fewer bytes; no: the decision is
                          the one without --any-order
block b I..J load L pe P  the elements I to J - 1 go to PE P; - for no element
moved M                   the bytes that move

Statuses: 0 printed, or the decision is right; 2 words; 3 the dump;
4 the decision is wrong, or there is none; 5 memory or output.";
