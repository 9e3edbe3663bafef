//! A box as its pointer.
//!
//! - [`Loose`]: a box that is taken apart into its pointer and its allocator, and owns what it owned.
//!
//! A handle that a program in C keeps is such a pointer and whether it is open. `boxed_if` (specs/Owning.antt) says what it owns.
#![tactic(auto)]

mod loose;

pub use loose::Loose;
