//! What C calls: the board of a chare array behind a handle. The header is bindings/c/include/tezgumi_board.h.
//!
//! Each export returns a status: 0 where it has done what it was asked, 1 where there is nothing to show, and below 0 why nothing was
//! done. The questions [`tezgumi_board_is_complete`] and [`tezgumi_board_all_finished`] return 1 for yes and 0 for no. Under every
//! status but 0 the board is as it was, and nothing is written but the length of a dump (status 2).
//!
//! `board` of a handle is ghost data, which only contracts see: the board as [`sync_board`](sync_board) sees it.
#![tactic(auto)]

mod dumping;
mod opening;
mod reading;
mod reporting;
mod statuses;

pub use dumping::tezgumi_board_dump;
pub use opening::{tezgumi_board_close, tezgumi_board_open, tezgumi_board_open_within};
pub use reading::{tezgumi_board_decision, tezgumi_board_place, tezgumi_board_snapshot};
pub use reporting::{
    tezgumi_board_all_finished, tezgumi_board_decide, tezgumi_board_finish,
    tezgumi_board_is_complete, tezgumi_board_report, tezgumi_board_round,
};
