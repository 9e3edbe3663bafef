//! Bounded queues that the threads of a run share, one for each PE, and the word that says where each element is.
//!
//! - [`Post`]: the queues. A thread uses them through its [`Seat`], and once all seats are joined, what was put is
//!   what was taken and what is left.
//! - [`Full`], [`Unsettled`] and [`PostError`]: what was refused, and why.
//! - [`Locations`]: the PE of each element. It always is one of the PEs that a [`PeCount`] counts.
//!
//! ```
//! use chare_index::Pe;
//! use pe_queues::{Full, Post};
//!
//! // The queues of two PEs, each with room for one value, and one seat.
//! let one = Pe::new(1).unwrap();
//! let (post, mut seats) = Post::new(alloc, 2, 1, 1)?;
//! let mut seat = seats.pop().unwrap();
//! assert!(rt; post.put(&rt, &mut seat, one, 'a') == Ok(()));
//! assert!(rt; post.put(&rt, &mut seat, one, 'b') == Err(Full('b')));
//! assert!(rt; post.take(&rt, &mut seat, one) == Some('a'));
//! ```
#![tactic(auto)]

mod error;
mod full;
mod locations;
mod post;
mod queue;
mod rule;
mod seat;
mod traffic;

pub use error::PostError;
pub use full::Full;
pub use locations::{IsPe, Locations, PeCount};
pub use post::{Post, Unsettled};
pub use seat::Seat;
