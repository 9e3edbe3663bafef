//! The options of `lb_report`.

use chain_refinement::Tolerance;
use std::alloc::Global;

/// What the arguments of a command line ask for.
#[derive(Drop)]
pub struct ReportOptions<'a> {
    /// The dumps, in order. `-` stands for the standard input.
    pub files: Vec<&'a str, Global>,
    /// The numbers of PEs to plan for, as they were written: [`numbers`](crate::numbers) reads them.
    pub procs: Option<&'a str>,
    /// How far the greatest load may be above the least possible one, where a decision within a tolerance is reported on too.
    pub tolerance: Option<Tolerance>,
    /// Whether comma-separated values are written.
    pub csv: bool,
    /// Whether the elements that move are listed.
    pub moves: bool,
}
