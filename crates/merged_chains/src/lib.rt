//! The proved part of dividing a chain whose consecutive parts lie on different ranks: no rank sees all elements. Each
//! rank has a [`Chain`](chain_partition::Chain) of its own elements and knows the number of its first one; between the
//! calls the ranks exchange a few numbers, by what means they like.
//!
//! - [`bounds_by_totals`]: [`Bounds`] of the least bottleneck, by the total and the greatest of all loads.
//! - [`walk_all_on`], [`walk_lists_on`] and [`walk_on`]: greedy walks that go from rank to rank, a [`Walk`] each; those that
//!   come to the end with a block left show which limits can hold all elements ([`walk_law`]), and [`narrow`] narrows the bounds
//!   by them. [`limits_between`] says which limits to try.
//! - [`ends_on`]: the [`Ends`] of the blocks as well. Those within one below the lower bound and within the upper bound are
//!   the [`Windows`].
//! - [`merge`]: the [`Runs`] of a rank's part. Those of all ranks are the merged chain, short enough for one rank to divide.
//! - [`unmerge`]: the division of the chain, by that of the merged chain ([`merged_law`]).
//! - [`loads_of_ranges`]: the [`RangeLoads`] of a part, what it has of each block and of each range of the fence;
//!   [`write_block_loads`] and [`write_fence_loads`] take no memory. The ranks add them up ([`weights_law`]), and
//!   [`check_weights`] checks the division by them. This alone is enough: whatever went wrong before, an `Ok` proves the
//!   division least.
//! - [`write_block_bytes`]: how many bytes a part has of each block. By the table of all parts [`name_table`] names the blocks,
//!   and [`check_names`] checks the names.
//!
//! Callers with plain lists have [`walk_part`], [`end_part`], [`merge_part`] and [`weigh_part`] for a part, and [`divide_into`],
//! which returns what is [`Divided`], and [`check_lists`] for divisions. A [`PartError`] says why a call was refused, and
//! [`PartLimits`] has the limits.
//!
//! Why the merged chain has the same division: A run weighs what its elements weigh, so a block of runs weighs what the
//! block of their elements weighs. So where a block begins a run, and the element behind the last one that it can take
//! within a limit begins one too, the runs between are as many as fit within the limit. Block by block, the greedy ends
//! of the merged chain are those of the chain, within each limit whose greedy ends in the chain all begin runs. Within the
//! least bottleneck they reach the last element and within one below it they do not, in both chains alike, so the least
//! bottleneck is the same. The greedy cuts and the least fence are the greedy ends within these two limits, so they are the
//! same too, with the start of a run in place of the run.
#![tactic(auto)]

mod bounds;
mod division_lists;
mod error;
mod laws;
mod limits;
mod merging;
mod name_lists;
mod narrowing;
mod part_bytes;
mod part_lists;
mod places;
mod range_loads;
mod unmerging;
mod walk;
mod weights;
mod windows;

pub use bounds::{Bounds, bounds_by_totals};
pub use division_lists::{Divided, check_lists, divide_into};
pub use error::PartError;
pub use laws::{merged_law, walk_law, weights_law};
pub use limits::PartLimits;
pub use merging::{Runs, merge};
pub use name_lists::{check_names, name_table};
pub use narrowing::{limits_between, narrow};
pub use part_bytes::write_block_bytes;
pub use part_lists::{end_part, merge_part, walk_part, weigh_part};
pub use range_loads::{RangeLoads, loads_of_ranges, write_block_loads, write_fence_loads};
pub use unmerging::unmerge;
pub use walk::{Ends, Walk, ends_on, walk_all_on, walk_lists_on, walk_on};
pub use weights::check_weights;
pub use windows::Windows;
