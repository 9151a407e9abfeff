//! What statements break that hold no others and declare nothing.
ghost use Rattle.std.specs.Prelude.{◌≡◌, OnOk};
ghost use Rattle.cpc_tree.specs.Erase.{Names};
ghost use Rattle.cpc_tree.specs.Locate.{located_stmt};
ghost use Rattle.cpc_check_rules.specs.Apart.{Spells};
ghost use Rattle.cpc_check_rules.specs.Noted.{noted, first_of};
ghost use Rattle.cpc_check_values.specs.Stands.{where_of};
ghost use Rattle.cpc_check_statements.specs.Plain.{plain_breaks};

use crate::assigned::assign_rules;
use crate::called::{performed_rules, section_rules, thread_rules};
use crate::returned::return_rules;
use cpc_base::NoMemory;
use cpc_check_rules::First;
use cpc_check_values::Where;
use cpc_tree::program::Statement;
use std::alloc::Global;

/// Notes what a statement breaks that holds no others and declares nothing. `NoMemory` is want of memory.
pub(crate) fn plain_rules(
    alloc: Global,
    first: &mut First,
    s: &Statement,
    w: &Where,
) -> Result<(), NoMemory>
    ensures { OnOk result ((names : Names) → Spells w.now.names.now names → first_of first.new ≡ noted (first_of first.old) (plain_breaks (where_of names w.now) (located_stmt names s.now))) }
{
    match s {
        Statement::Assign {
            operator,
            target,
            op,
            value,
            ..
        } => assign_rules(alloc, first, target.expr(), *op, value.expr(), *operator, w),
        Statement::Call {
            operator,
            target,
            function,
            arguments,
            ..
        } => performed_rules(
            alloc,
            first,
            target,
            *operator,
            function.expr(),
            arguments,
            w,
        ),
        Statement::Detach {
            operator,
            keyword,
            target,
            function,
            arguments,
            ..
        } => {
            let places = (*operator, *keyword);
            section_rules(alloc, first, target, places, *function, arguments, w)
        }
        Statement::Spawn {
            place,
            function,
            arguments,
        } => thread_rules(alloc, first, *place, *function, arguments, w),
        Statement::Return { place, value } => return_rules(alloc, first, *place, value, w),
        _ => Ok(()),
    }
}
