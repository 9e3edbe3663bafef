//! A chare whose work wanders: a strip of cells in a chain of strips. In each round a strip takes the values beside it from
//! its two neighbors, computes its cells, and is then ready to be balanced. A cell costs more the nearer its strip is to the
//! hot spot, which goes from one end of the chain to the other as the rounds pass, so no placement is right for long.
//!
//! - [`Strip`]: the chare. [`Mode`]: whether it is balanced. [`StripLimits`]: how many rounds and cells it may have.
//! - [`StripChain`]: the strips of a chain, as they open.
//! - [`mix`] and [`mixed`]: the computation: a 64-bit mixing function, and any number of rounds of it.
//! - [`cell_work`]: the profile, how many rounds of mixing a cell takes.
//! - [`compute`]: a round of a whole strip; [`first_value`] and [`last_value`]: what its neighbors see of it.
#![tactic(auto)]

mod came;
mod cells;
mod chain;
mod error;
mod limits;
mod mixing;
mod mode;
mod posting;
mod profile;
mod shown;
mod slot;
mod strip;

pub use cells::{compute, first_value, last_value};
pub use chain::StripChain;
pub use error::StripChainError;
pub use limits::StripLimits;
pub use mixing::{mix, mixed};
pub use mode::Mode;
pub use profile::cell_work;
pub use slot::Slot;
pub use strip::Strip;
