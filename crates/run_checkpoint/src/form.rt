//! The limits of the text of a checkpoint.

/// The longest text, in bytes: the longest text of a workload, and 1,048,576 bytes. What comes before the workload is never
/// longer, so each workload that can be read has checkpoints that can be.
pub(crate) const TEXT_BYTES: usize = 68_157_440;

/// Digits of the longest number.
pub(crate) const DIGITS: u32 = 20;
