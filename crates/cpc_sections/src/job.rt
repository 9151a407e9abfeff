//! A section that is to be run, and what it came to.
use cpc_base::Name;
use cpc_num::Fault;
use cpc_store::Value;

/// A call of a detached function that is to be run on a copy of cells.
pub struct Job {
    /// Which section it is; they are numbered from 0 in the order in which they are submitted.
    pub number: u64,
    /// The function that is called.
    pub function: Name,
    /// The arguments after the first, which are unset or integers of the kinds of their parameters.
    pub args: Vec<Value>,
    /// The cells that were copied: unset ones and integers. There are none where the first argument is null.
    pub cells: Vec<Value>,
    /// The first argument, through which the cells go back.
    pub pointer: Value,
}

impl Drop for Job {
    fn drop(self) {
        let Job {
            number: _,
            function: _,
            args,
            cells,
            pointer: _,
        } = self;
        drop(args);
        drop(cells);
    }
}

/// What a section came to.
#[derive(Drop)]
pub enum SectionEnd {
    /// Its value, and the cells of its copy.
    Gave(Value, Vec<Value>),
    /// A fault in the function of this name.
    Faulted(Fault, Name),
}
