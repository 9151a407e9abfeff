//! What the lifted form of an accepted program promises, whatever continuations are: what stands where, which values arrive, which boxes and sections are there, and what rules its images keep. Laws alone: nothing of this crate runs.
#![tactic(auto)]

mod laws;

pub use laws::{
    accepted_closes, accepted_codes_stay, accepted_has_main, accepted_has_names,
    accepted_is_convertible, accepted_is_fine, accepted_is_named, accepted_is_shown,
    accepted_never_stuck, accepted_positions_known, accepted_runs_well, accepted_splits_hold,
    accepted_suits_pieces, accepted_takes, fitting_calls_begin, frames_may_be,
    images_break_no_rule, items_stay, kept_functions_break_no_rule, leaders_take_values,
    lifted_boxes_stay, lifted_jobs_stay, lifted_runs_are_known, nodes_take_values,
    points_break_no_rule, programs_are_closed, programs_are_split, programs_take,
    scopes_mean_variables, sections_take, splits_are_steady, taken_values_fit, taken_values_waited,
    threads_follow,
};
