//! Where expressions stand.
use cpc_base::{Dialect, Names};
use cpc_tree::program::{CType, Mode};
use cpc_types::Scope;

/// Where an expression or a statement stands: what is in scope, how the function around it runs, what its result is,
/// the dialect, and the table of names.
#[derive(Drop)]
pub struct Where<'s, 'p> {
    /// What is in scope.
    pub scope: &'s Scope<'p>,
    /// How the function around it runs.
    pub mode: Mode,
    /// The result of the function around it.
    pub result: &'s CType,
    /// The dialect of the text.
    pub dialect: Dialect,
    /// The table of the program's names.
    pub names: &'s Names,
}
