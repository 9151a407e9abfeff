//! What returns break.
ghost use Rattle.std.specs.Prelude.{◌≡◌, OnOk, option_map};
ghost use Rattle.cpc_tree.specs.Erase.{Names};
ghost use Rattle.cpc_tree.specs.Locate.{located_expr};
ghost use Rattle.cpc_check_rules.specs.Apart.{AreApart, Spells};
ghost use Rattle.cpc_check_rules.specs.StmtRules as S;
ghost use Rattle.cpc_check_rules.specs.Noted.{noted, first_of};
ghost use Rattle.cpc_types.specs.Found.{found_of};
ghost use Rattle.cpc_check_values.specs.Stands.{where_of};

use crate::assigned::is_unfit;
use cpc_base::{NoMemory, Place};
use cpc_check_rules::{First, Rule};
use cpc_check_values::{Where, value_rules};
use cpc_shapes::is_void;
use cpc_tree::program::{Expr, Operand};
use cpc_types::TypeFound;
use std::alloc::Global;

// Whether what is returned does not fit the function.
fn is_unfit_return(e: &Expr, found: TypeFound, w: &Where) -> bool
    ensures { (names : Names) → AreApart names → result ≡ S.unfit_return (where_of names w.now) (located_expr names e.now) (found_of names found) }
{
    is_void(w.result) || is_unfit(w.result, e, found)
}

/// Notes what a return at a place breaks. `NoMemory` is want of memory.
pub(crate) fn return_rules(
    alloc: Global,
    first: &mut First,
    place: Place,
    value: &Option<Operand>,
    w: &Where,
) -> Result<(), NoMemory>
    ensures { OnOk result ((names : Names) → Spells w.now.names.now names → first_of first.new ≡ noted (first_of first.old) (S.return_breaks (where_of names w.now) place (option_map (located_expr names) value.now))) }
{
    match value {
        Some(value) => {
            let e = value.expr();
            let found = value_rules(alloc, first, e, w)?;
            first.note_if(is_unfit_return(e, found, w), place, Rule::BadReturn);
            Ok(())
        }
        None => {
            first.note_if(!is_void(w.result), place, Rule::BadReturn);
            Ok(())
        }
    }
}
