//! Sections that are compared.
ghost use Rattle.std.specs.Prelude.{◌≡◌, ◌↔◌, IsTrue};
ghost use Rattle.cpc_pool_sections.specs.Same.{IsSameJob};

use cpc_sections::Job;
use cpc_store::Value;

// Whether two rows of values are the same.
fn same_values(first: &[Value], second: &[Value]) -> bool
    ensures { IsTrue result ↔ first.now ≡ second.now }
{
    if first.len() != second.len() {
        return false;
    }
    for i in 0..first.len() {
        if first[i] != second[i] {
            return false;
        }
    }
    true
}

/// Whether two sections are the same: of one number, the same function, and the same values.
pub fn is_same(first: &Job, second: &Job) -> bool
    ensures { IsTrue result ↔ IsSameJob first.now second.now }
{
    first.number == second.number
        && first.function == second.function
        && first.pointer == second.pointer
        && same_values(&first.args, &second.args)
        && same_values(&first.cells, &second.cells)
}
