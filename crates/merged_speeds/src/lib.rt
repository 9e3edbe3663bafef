//! Why a chain whose parts are on different ranks can be divided over PEs of unequal speed by its merged chain alone.
//!
//! - [`merged_speeds_law`]: the chosen division of a merged chain is that of the chain.
#![tactic(auto)]

mod laws;

pub use laws::merged_speeds_law;
