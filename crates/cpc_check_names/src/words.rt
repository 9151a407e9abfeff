//! The words of a function that rules speak of: its labels, what it jumps to, its parameters and its locals.
ghost use Rattle.std.specs.Prelude.{◌≡◌, ◌++◌, [], ◌∷◌, OnOk, IfOk, map, if◌then◌else◌};
ghost use Rattle.cpc_tree.specs.Erase.{Names};
ghost use Rattle.cpc_tree.specs.Locate.{ident, located_stmt, located_list, located_parameter};
ghost use Rattle.cpc_check_rules.specs.FunctionRules.{labels, gotos, locals, parameter_names, variables};
ghost use Rattle.cpc_check_names.specs.Words.{words_of, words_in};

use cpc_base::NoMemory;
use cpc_tree::program::{Parameter, Statement, Word};
use std::alloc::Global;

/// Which words of a statement are wanted.
#[derive(Clone, Copy)]
pub(crate) enum Wanted {
    /// The labels that it has.
    Labels,
    /// The labels that it jumps to.
    Jumps,
    /// The locals that it declares.
    Locals,
}

/// Adds a word where it is wanted.
fn add_if(is_wanted: bool, word: Word, words: &mut Vec<Word>) -> Result<(), NoMemory>
    ensures { OnOk result (words.new.items ≡ words.old.items ++ (if is_wanted then word ∷ [] else [])) }
{
    if is_wanted {
        words.push(word)?;
    }
    Ok(())
}

/// Adds the wanted words of a statement, in the order of the text. `NoMemory` is want of memory.
#[cycle(gathered)]
pub(crate) fn add_words(
    wanted: Wanted,
    s: &Statement,
    words: &mut Vec<Word>,
) -> Result<(), NoMemory>
    ensures { OnOk result ((names : Names) → map (ident names) words.new.items ≡ map (ident names) words.old.items ++ words_of wanted (located_stmt names s.now)) }
{
    match s {
        Statement::Block { inner, .. } => add_row(wanted, inner, words),
        Statement::If { yes, no, .. } => {
            add_words(wanted, yes, words)?;
            match no {
                Some(no) => add_words(wanted, no, words),
                None => Ok(()),
            }
        }
        Statement::While { body, .. } | Statement::DoWhile { body, .. } => {
            add_words(wanted, body, words)
        }
        Statement::For { first, body, .. } => match wanted {
            Wanted::Locals => {
                add_row(wanted, first, words)?;
                add_words(wanted, body, words)
            }
            _ => add_words(wanted, body, words),
        },
        Statement::Label { label, inner } => {
            add_if(wanted == Wanted::Labels, *label, words)?;
            add_words(wanted, inner, words)
        }
        Statement::Goto { label, .. } => add_if(wanted == Wanted::Jumps, *label, words),
        Statement::Declare { word, .. } => add_if(wanted == Wanted::Locals, *word, words),
        _ => Ok(()),
    }
}

/// Adds the wanted words of a row of statements.
#[cycle(gathered)]
fn add_row(wanted: Wanted, row: &[Statement], words: &mut Vec<Word>) -> Result<(), NoMemory>
    ensures { OnOk result ((names : Names) → map (ident names) words.new.items ≡ map (ident names) words.old.items ++ words_in wanted (located_list names row.now)) }
{
    for s in row {
        add_words(wanted, s, words)?;
    }
    Ok(())
}

/// The labels of a statement, in the order of the text. `NoMemory` is want of memory.
pub fn label_words(alloc: Global, body: &Statement) -> Result<Vec<Word>, NoMemory>
    ensures { IfOk result (λ words. (names : Names) → map (ident names) words.items ≡ labels (located_stmt names body.now)) }
{
    let mut words = Vec::new(alloc);
    add_words(Wanted::Labels, body, &mut words)?;
    Ok(words)
}

/// The labels that a statement jumps to, in the order of the text. `NoMemory` is want of memory.
pub(crate) fn jump_words(alloc: Global, body: &Statement) -> Result<Vec<Word>, NoMemory>
    ensures { IfOk result (λ words. (names : Names) → map (ident names) words.items ≡ gotos (located_stmt names body.now)) }
{
    let mut words = Vec::new(alloc);
    add_words(Wanted::Jumps, body, &mut words)?;
    Ok(words)
}

/// The locals that a statement declares, in the order of the text. `NoMemory` is want of memory.
pub fn local_words(alloc: Global, body: &Statement) -> Result<Vec<Word>, NoMemory>
    ensures { IfOk result (λ words. (names : Names) → map (ident names) words.items ≡ locals (located_stmt names body.now)) }
{
    let mut words = Vec::new(alloc);
    add_words(Wanted::Locals, body, &mut words)?;
    Ok(words)
}

/// The names of the parameters that have one, in their order. `NoMemory` is want of memory.
pub fn parameter_words(alloc: Global, parameters: &[Parameter]) -> Result<Vec<Word>, NoMemory>
    ensures { IfOk result (λ words. (names : Names) → map (ident names) words.items ≡ parameter_names (map (located_parameter names) parameters.now)) }
{
    let mut words = Vec::new(alloc);
    for parameter in parameters {
        add_named(parameter, &mut words)?;
    }
    Ok(words)
}

/// Adds the name of a parameter that has one.
fn add_named(parameter: &Parameter, words: &mut Vec<Word>) -> Result<(), NoMemory>
    ensures { OnOk result ((names : Names) → map (ident names) words.new.items ≡ map (ident names) words.old.items ++ parameter_names (located_parameter names parameter.now ∷ [])) }
{
    match parameter.word {
        Some(word) => {
            words.push(word)?;
            Ok(())
        }
        None => Ok(()),
    }
}
