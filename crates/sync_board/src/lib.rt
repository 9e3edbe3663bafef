//! The board, where a chare array comes together to be balanced: elements report at AtSync, and once all have, one
//! decision says where each runs next.
//!
//! - [`Board`]: the reports of the present round, the snapshot and the decision of each round before it, and who
//!   has finished.
//! - [`Strategy`]: how each round is decided.
//! - [`BoardError`]: why a call was refused.
//!
//! Nothing here waits. The board that the threads of a run share, under a lock, is `Barrier` of the crate `barrier`.
//!
//! ```
//! use sync_board::Board;
//! use chare_index::{Index, Pe, Round};
//!
//! // Three elements on two PEs report their units and bytes in round 1.
//! let (zero, one) = (Pe::new(0).unwrap(), Pe::new(1).unwrap());
//! let round = Round::new(1).unwrap();
//! let mut board = Board::new(alloc, 3, 2)?;
//! board.report(0, round, 1, 10, zero)?;
//! board.report(1, round, 1, 9, one)?;
//! assert!(rt; !board.is_complete());
//! board.report(2, round, 2, 8, zero)?;
//! assert!(rt; board.decide() == Ok(round));
//! assert!(rt; board.place_for(round, Index::new(2).unwrap()) == Some(zero));
//! ```
#![tactic(auto)]

mod board;
mod error;
mod strategy;

pub use board::Board;
pub use error::BoardError;
pub use strategy::Strategy;
