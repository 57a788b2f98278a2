//! A plane as rows of runs.
//!
//! A run here is a stretch of squares of one row that have one value.
//!
//! # How the proof goes
//!
//! The number at a square is that of the run that has it, in the highest row that begins no higher (`RowLaws`,
//! `RunLaws`). To set pieces, new rows are made for the heights in their span where a row or a piece begins or ends
//! (`HeightLaws`), each with what the old rows have at that height, piece after piece set on its runs (`SettingLaws`).
//! Between such heights nothing changes, so rows that are right at them are right everywhere (`ChangeLaws`); the rows
//! of the span are then exchanged for the new ones (`BandLaws`, `CommitLaws`).
//!
//! Listings go over pieces: each row is cut into pieces up to the next (`PieceLaws`), and `strips` of `geo_core` over
//! those of one value gives its strips, and cut to an area its tiles (`TileLaws`, `PlaneLaws`). The box is taken row
//! after row (`BoxLaws`).
#![tactic(auto)]

mod changes;
mod listings;
mod rows;
mod run_planes;
mod runs;

pub use run_planes::RunPlane;
