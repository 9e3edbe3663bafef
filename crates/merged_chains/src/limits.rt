//! The limits of a chain whose parts lie on different ranks.

/// The limits of a chain whose parts lie on different ranks.
#[derive(Clone, Copy, Debug, PartialEq, Eq)]
pub struct PartLimits;

impl PartLimits {
    /// Blocks, from 1.
    pub const PES: u32 = 65_536;
}
