//! Programs that break no rule are never stuck, and what they do stays within what the rules ask. Laws alone: nothing of this crate runs.
#![tactic(auto)]

mod laws;

pub use laws::{
    accepted_callbacks_never_stuck, accepted_hold, accepted_is_steady, accepted_is_typed,
    accepted_keeps_modes, accepted_threads_never_stuck, calls_fit, cleared_fit, code_beside,
    codes_are_native, control_stays, copies_come_back, event_reads_more, examples_are_accepted,
    expressions_answer, heaps_beside, layers_stay, native_is_plain, native_programs_pass,
    native_text_is_plain, nothing_points_to_frames, places_do_not_matter, places_tell_the_first,
    plain_is_needed, plain_runs_alike, plain_runs_same, plain_runs_within, runs_keep,
    sections_are_needed, sections_beside, shape_is_needed, slots_are_known, stacks_beside,
    stores_beside, texts_are_shaped, threads_hold, threads_keep, trees_are_steady,
    typed_callbacks_never_stuck, typed_sections_give, typed_threads_never_stuck,
    unaccepted_are_stuck, ways_hold,
};
