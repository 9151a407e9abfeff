//! The rules that structs, globals, prototypes and functions break, apart from the statements of bodies.
#![tactic(auto)]

mod declared;
mod earlier;
mod functions;
mod globals;
mod joins;
mod parameters;
mod prototypes;
mod signatures;
mod structs;
mod wholes;

pub use declared::{declared_rules, taken_rules};
pub use earlier::Earlier;
pub use functions::{head_rules, tail_rules};
pub use globals::{global_rules, string_rules};
pub use parameters::{cps_rules, parameter_rules, size_rules};
pub use prototypes::{is_unlike_host, lacks_body, prototype_rules};
pub use signatures::Signature;
pub use structs::{field_rules, field_words, struct_rules};
pub use wholes::parts_are_wholes;
