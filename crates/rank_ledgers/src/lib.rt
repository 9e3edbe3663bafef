//! The accounts of PEs behind handles: of one over its calls, and of all ranks together.
//!
//! The law is a clause of a function that does nothing, [`rank_account_laws`].
#![tactic(auto)]

mod accounts;

pub use accounts::rank_account_laws;
