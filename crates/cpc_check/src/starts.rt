//! What globals start with.
ghost use Rattle.std.specs.Prelude.{◌≡◌, [], OnOk, option_map};
ghost use Rattle.cpc_tree.specs.Erase.{Names as Spelling, type_of};
ghost use Rattle.cpc_tree.specs.Locate.{ident, located_expr};
ghost use Rattle.cpc_tree.specs.Syntax.{Program};
ghost use Rattle.cpc_check_rules.specs.Apart.{Spells};
ghost use Rattle.cpc_check_rules.specs.ItemRules as R;
ghost use Rattle.cpc_check_rules.specs.Noted.{noted, first_of};
ghost use Rattle.cpc_types.specs.Scoped.{scope_of};
ghost use Rattle.cpc_check.specs.Starts.{text_in};

use crate::ground::Ground;
use cpc_base::{NoMemory, Place};
use cpc_check_items::string_rules;
use cpc_check_rules::First;
use cpc_check_statements::start_rules;
use cpc_check_values::Where;
use cpc_tree::program::{CType, Expr, Mode, Operand, Word};
use cpc_types::Scope;
use std::alloc::Global;

// A string that is the whole start, with the place of its token.
fn text_in(start: &Option<Operand>) -> Option<(Place, &[u8])>
    ensures { (names : Spelling) → option_map (λ t. (t.0, t.1.now)) result ≡ text_in (option_map (located_expr names) start.now) }
{
    match start {
        Some(start) => match start.expr() {
            Expr::Text { place, bytes } => Some((*place, bytes.as_slice())),
            _ => None,
        },
        None => None,
    }
}

/// Notes what the start of a global breaks, where the items before it are in scope. `NoMemory` is want of memory.
pub fn global_start(
    alloc: Global,
    first: &mut First,
    word: Word,
    of: &CType,
    start: &Option<Operand>,
    scope: &Scope,
    ground: &Ground,
) -> Result<(), NoMemory>
    ensures { OnOk result ((names : Spelling) (before : Program) → Spells ground.now.names.now names → scope_of names scope.now ≡ record { items = before; blocks = [] }
        → first_of first.new ≡ noted (first_of first.old) (R.global_start (R.outside ground.now.dialect before) (ident names word) (type_of names of.now) (option_map (located_expr names) start.now))) }
{
    match text_in(start) {
        Some((place, bytes)) => {
            string_rules(first, word, of, place, bytes);
            Ok(())
        }
        None => {
            let void = CType::Void;
            let outside = Where {
                scope,
                mode: Mode::Native,
                result: &void,
                dialect: ground.dialect,
                names: ground.names,
            };
            start_rules(alloc, first, word, of, start, &outside)
        }
    }
}
