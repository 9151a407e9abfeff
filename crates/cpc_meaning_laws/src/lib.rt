//! What holds of the meaning of programs: where pointers lead, which cells change, and programs that are worked out. Laws alone: nothing of this crate runs.
#![tactic(auto)]

mod laws;

pub use laws::{
    a_call_takes_its_cells, a_step_leaves_the_cells_foretold, going_on_keeps_the_cells,
    leaving_gives_back_the_cells, requests_are_answered_alike, runs_are_made,
    taking_a_function_adds_its_cells,
};
