//! Flat code in the event machine, whatever continuations are: its lines, walks and steps, the boxes of calls, and blocks in the store. Laws alone: nothing of this crate runs.
#![tactic(auto)]

mod laws;

pub use laws::{
    boxes_are_freed, boxes_are_made, flat_bodies, frames_are_beside, lines_act_in_place,
    none_is_addressed, one_among_others, structs_have_fields, values_fit, walks_are_paths,
};
