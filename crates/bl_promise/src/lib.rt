//! What a run over the store promises, and the laws that compose it: definitions and laws alone.
#![tactic(auto)]

mod laws;
mod refuted;
mod status;

pub use laws::{
    calls_are_lines, calls_serve, cuts_of_lines_are_of_runs, cuts_of_served_are_of_runs,
    error_lines_end_runs, failures_serve, faultless_runs_are_done, numbers_are_few,
    openings_begin_runs, refusals_end_runs, served_runs_end, statuses_answer, statuses_refuse,
    statuses_survive,
};
pub use refuted::{
    rows_are_these, skipped_syncs_are_seen, told_syncs_are_kept, writes_are_not_kept_back,
};
pub use status::Status;
