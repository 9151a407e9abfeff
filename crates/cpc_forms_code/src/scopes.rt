//! Names in scope.
ghost use Rattle.std.specs.Prelude.{◌≡◌, [], false, None, bytes_eq, option_map, option_to_list};
ghost use Rattle.cpc_base.specs.declared.names.Name as N;
ghost use Rattle.cpc_tree.specs.Erase.{Names, text_of};
ghost use Rattle.cpc_tree.specs.Registers.{slot_of, or_empty};
ghost use Rattle.cpc_eval_variables.specs.Apart.{AreApart};
ghost use Rattle.cpc_forms_code.specs.Seen.{scope_seen, AreNamed};

use crate::boxed::Variable;
use cpc_base::Name;

// Whether a variable has this name.
fn is_named(variable: &Variable<'_>, name: Name) -> bool
    ensures { (names : Names) → AreApart names → (variable.now.name ≡ None → (x : N.Name) → bytes_eq [] (names x) ≡ false) → result ≡ bytes_eq (or_empty (option_map (text_of names) variable.now.name)) (names name) }
{
    match variable.name {
        Some(own) => own.0 == name.0,
        None => false,
    }
}

/// The number of the innermost variable for which a name stands, where the variable with the number `scope` is the innermost one in scope.
pub fn slot(variables: &[Variable<'_>], scope: Option<usize>, name: Name) -> Option<usize>
    ensures { (names : Names) → AreApart names → AreNamed names variables.now → option_to_list result ≡ slot_of (scope_seen names variables.now scope) (names name) }
{
    let mut inner = scope;
    let mut depth = variables.len();
    while depth > 0 {
        depth -= 1;
        let Some(k) = inner else {
            return None;
        };
        let Some(variable) = variables.get(k) else {
            return None;
        };
        if is_named(variable, name) {
            return Some(k);
        }
        inner = variable.outer;
    }
    None
}
