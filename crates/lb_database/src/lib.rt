//! The load database of a chare array: what the runtime measures in a round, kept until every element has
//! reported.
//!
//! - [`LoadDb`]: the work units charged to each element, and the size and the place that it reported. Snapshots are taken from
//!   it.
//! - [`DbError`]: why a call was refused.
//!
//! ```
//! use chare_index::Pe;
//! use lb_database::LoadDb;
//!
//! let mut db = LoadDb::new(alloc, 2)?;
//! let round = db.round();
//! for i in 0..2 {
//!     db.charge(i, 7)?;
//!     db.report(i, round, 100, Pe::new(i).ok_or("no such PE")?)?;
//! }
//! assert!(rt; db.is_complete() && db.stands_on(2));
//! let snapshot = db.snapshot(5, 2)?;
//! assert!(rt; snapshot.loads().as_slice() == [7, 7].as_slice());
//! db.next_round()?;
//! ```
#![tactic(auto)]

mod database;
mod error;
mod lists;

pub use database::LoadDb;
pub use error::DbError;
