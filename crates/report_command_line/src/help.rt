//! What `--help` says. Its lines have at most 80 characters.

/// What the program does, in one line.
pub(crate) const ABOUT: &str =
    "Tells how balanced the loads of dumps are, before and after a balancing step";

/// What is printed, and the statuses.
pub(crate) const HOW_TO: &str = "\
Of each file a line tells of the present placement, and one more of the least
division into consecutive blocks, for each number of PEs.

Example: lb_report --csv three-elements.lbd1 prints (lines are folded here):
  file,placement,procs,elements,max,avg,imbalance,least,moved,moved_percent,
    bytes,bytes_percent,empty,idle,min,heaviest,bound,deviation,
    excess_percent,leave,enter,step
  \"three-elements.lbd1\",present,2,3,3,2.000,1.500,,,,,,0,0,1,2,2,0.500,
    50.000,,,5
  \"three-elements.lbd1\",planned,2,3,2,2.000,1.000,2,1,33.333,10,37.037,0,0,2,
    2,2,0.000,0.000,10,10,5

procs, elements   the PEs, and the elements on them
max, avg, min     the greatest, average and least load of a PE, in work units
imbalance         max over avg
least             the least that max can be, with whole elements in blocks
moved, bytes      the elements that move, and their packed bytes; in per cent
empty, idle       the PEs without an element, and those without load
heaviest          the load of the heaviest element
bound             the greater of heaviest and avg rounded up: max is no less
deviation         the standard deviation of the loads of the PEs, over avg
excess            how far max is above avg, in per cent of avg
leave, enter      the most bytes that leave one PE, and the most that enter one
step              the step of the dump

Quotients have three decimals, rounded down, but deviation and excess, which are
rounded to the nearest. - stands where nothing applies.
With --tolerance a line within follows each line planned: on the decision that
moves fewer bytes where max is above least by T thousandths at most.
With --moves each line tells of an element that moves: its number, the PE that
it leaves, the PE that it goes to, and its packed bytes; with --tolerance too,
by the decision within the tolerance.

Faults are told on standard error, and the other files are reported all the
same. Status: 0 all well, 2 words; else that of the first file with a fault:
3 the dump, 5 memory or output.";
