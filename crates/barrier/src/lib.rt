//! The board of a run that its threads share, under a lock: the barrier at which the elements of a chare array wait for each
//! other.
//!
//! - [`Barrier`]: the lock with the board under it. Each call takes the lock for itself.
//! - [`RunBoard`]: what is under the lock, with the calls of a [`Board`](sync_board::Board).
//! - [`BoardSize`]: how many elements and PEs that board has, by which strategy it decides, and which rounds it begins with
//!   ([`BoardStart`]), as a type.
//! - [`RoundPlaces`]: the places of one round, copied under the lock and read without it.
#![tactic(auto)]

mod barrier;
mod board_size;
mod round_places;
mod run_board;

pub use barrier::Barrier;
pub use board_size::{BoardSize, BoardStart};
pub use round_places::RoundPlaces;
pub use run_board::RunBoard;
