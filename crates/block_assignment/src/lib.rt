//! On which PE each block of a division runs so that the fewest bytes move, with the prices that prove it.
//!
//! - [`CostTable`]: the bytes that move where a block runs on a PE.
//! - [`name_blocks`]: the first of the cheapest [`Naming`](lb_certificates::Naming)s with its
//!   [`Prices`](lb_certificates::Prices), or a [`NameError`].
//! - [`CostMatrix`] and [`name_blocks_of`]: the same for elements that are plain lists, within the [`MatrixLimits`] in
//!   place of a snapshot's limits, or for a table of the bytes of each block on each PE; why there is no such matrix is a
//!   [`CostError`].
//!
//! ```
//! use block_assignment::{CostTable, name_blocks};
//! use chare_index::Pe;
//! use lb_certificates::{Cuts, check_naming};
//! use lb_snapshot::Sizes;
//!
//! // Three elements in two blocks: the bytes and the PE of each, and the cuts.
//! let (zero, one) = (Pe::new(0).unwrap(), Pe::new(1).unwrap());
//! let sizes = Sizes::new(vec![in alloc; (10, zero), (9, one), (8, zero)]?).ok_or("too many")?;
//! let cuts = Cuts::new(vec![in alloc; 0, 2, 3]?);
//!
//! let table = CostTable::of(alloc, &sizes, &cuts)?;
//! assert!(rt; (table.cost(0, 0), table.cost(0, 1)) == (9, 10));
//! assert!(rt; (table.cost(1, 0), table.cost(1, 1)) == (0, 8));
//! let (naming, prices) = name_blocks(alloc, &table)?;
//! assert!(rt; naming.as_slice() == [1, 0].as_slice());
//! assert!(rt; check_naming(&sizes, &cuts, &naming, &prices) == Ok(10));
//! ```
#![tactic(auto)]

mod assignment;
mod auction;
mod block_set;
mod cheapest_names;
mod costs;
mod discounted;
mod error;
mod held_rows;
mod least;
mod limits;
mod matrix;
mod scan;
mod search;
mod table;
mod takers;
mod to_scan;

pub use assignment::{name_blocks, name_blocks_of};
pub use error::{CostError, NameError};
pub use limits::MatrixLimits;
pub use matrix::CostMatrix;
pub use table::CostTable;
