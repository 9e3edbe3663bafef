//! AtSync: where the elements of a chare array come together to be balanced.
//!
//! - [`Board`], from `sync_board`: the reports, the decision of each round, and who has finished. Nothing in it waits. A
//!   [`Strategy`] says how it decides, and a [`BoardError`] why a call was refused.
//! - [`Barrier`], from `barrier`: the board that the threads of a run share, under a lock.
//!
//! ```
//! use at_sync::Board;
//! use chare_index::{Index, Pe, Round};
//!
//! // Two elements on two PEs report their units and bytes in round 1.
//! let (zero, one) = (Pe::new(0).unwrap(), Pe::new(1).unwrap());
//! let round = Round::new(1).unwrap();
//! let mut board = Board::new(alloc, 2, 2)?;
//! board.report(0, round, 3, 5, zero)?;
//! assert!(rt; !board.is_complete());
//! board.report(1, round, 3, 5, one)?;
//! assert!(rt; board.decide() == Ok(round));
//! assert!(rt; board.place_for(round, Index::new(1).unwrap()) == Some(one));
//! ```
#![tactic(auto)]

pub use barrier::Barrier;
pub use sync_board::{Board, BoardError, Strategy};
