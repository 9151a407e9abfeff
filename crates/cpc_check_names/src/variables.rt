//! How many variables a function has.
ghost use Rattle.std.specs.Prelude.{◌≡◌, OnOk, IfOk, map};
ghost use Rattle.cpc_tree.specs.Erase.{Names};
ghost use Rattle.cpc_tree.specs.Locate.{ident, located_stmt, located_parameter};
ghost use Rattle.cpc_check_rules.specs.FunctionRules.{variables, variable_limit, many_breaks};
ghost use Rattle.cpc_check_rules.specs.Noted.{noted, first_of};

use crate::words::{Wanted, add_words, parameter_words};
use cpc_base::{Dialect, NoMemory};
use cpc_check_rules::{First, Rule};
use cpc_tree::program::{Parameter, Statement, Word};
use std::alloc::Global;

/// The variables of a function: its named parameters and its locals, in the order of the text. `NoMemory` is want of memory.
pub(crate) fn variable_words(
    alloc: Global,
    parameters: &[Parameter],
    body: &Statement,
) -> Result<Vec<Word>, NoMemory>
    ensures { IfOk result (λ words. (names : Names) → map (ident names) words.items ≡ variables (map (located_parameter names) parameters.now) (located_stmt names body.now)) }
{
    let mut words = parameter_words(alloc, parameters)?;
    add_words(Wanted::Locals, body, &mut words)?;
    Ok(words)
}

/// How many variables a function may have.
fn variable_limit(dialect: Dialect) -> usize
    ensures { result ≡ variable_limit dialect }
{
    match dialect {
        Dialect::Cpc => 255,
        Dialect::Event => 1023,
    }
}

/// Notes the first variable of a function that is one too many. `NoMemory` is want of memory.
pub fn many_rules(
    alloc: Global,
    first: &mut First,
    dialect: Dialect,
    parameters: &[Parameter],
    body: &Statement,
) -> Result<(), NoMemory>
    ensures { OnOk result ((names : Names) → first_of first.new ≡ noted (first_of first.old) (many_breaks dialect (map (located_parameter names) parameters.now) (located_stmt names body.now))) }
{
    let words = variable_words(alloc, parameters, body)?;
    if let Some(word) = words.get(variable_limit(dialect)) {
        first.note(word.place, Rule::TooMany);
    }
    Ok(())
}
