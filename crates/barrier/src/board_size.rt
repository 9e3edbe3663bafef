//! A type that names what the board of a run is, so that each thread knows it: its size, its strategy, and the rounds it began with.

ghost use Rattle.std.specs.Prelude.{ℕ, List};
ghost use Rattle.sync_board.specs.Boards.{Kept};
ghost use Rattle.sync_board.specs.declared.strategy.Strategy.{Strategy};

use std::marker::Brand;

/// What the board of a run begins with: the strategy by which it decides, and the rounds that were decided before, where the run
/// is carried on.
pub trait BoardStart<A> {
    /// The strategy.
    ghost strategy: { Strategy };

    /// What was kept of the rounds that were decided before.
    ghost earlier: { List (Kept A) };
}

impl<A> BoardStart<A> for Brand {
    ghost use Rattle.std.specs.Prelude.{[]};
    ghost use Rattle.sync_board.specs.declared.strategy.Strategy.TheVariants.{Least};

    ghost strategy = { Least };

    ghost earlier = { [] };
}

/// How many elements the board of a run has, on how many PEs, by which strategy it decides, and which rounds it begins with. A
/// thread that takes the lock knows what is under it only by its type, so a type names these; the code that makes a
/// [`Barrier`](crate::Barrier) chooses them.
pub trait BoardSize<A> {
    /// How many elements there are.
    ghost elements: { ℕ };

    /// How many PEs they run on.
    ghost pes: { ℕ };

    /// The strategy by which rounds are decided.
    ghost strategy: { Strategy };

    /// What was kept of the rounds that were decided before. They stay the first ones.
    ghost earlier: { List (Kept A) };
}

impl<A> BoardSize<A> for Brand {
    ghost use Rattle.std.specs.Prelude.{[]};
    ghost use Rattle.sync_board.specs.declared.strategy.Strategy.TheVariants.{Least};

    ghost elements = { 0 };

    ghost pes = { 1 };

    ghost strategy = { Least };

    ghost earlier = { [] };
}
