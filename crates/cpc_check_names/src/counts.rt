//! How many statements functions have, and how broad they are. Counts stand still at `u64::MAX`.
ghost use Rattle.std.specs.Prelude.{◌≡◌, ◌<◌, ◌≤◌, ◌∷◌, List, OnOk, IfOk, map, nat_lt, if◌then◌else◌};
ghost use Rattle.cpc_tree.specs.Erase.{Names};
ghost use Rattle.cpc_tree.specs.Located.{LItem};
ghost use Rattle.cpc_tree.specs.Locate.{located_stmt, located_list, located_function, located_item};
ghost use Rattle.cpc_check_rules.specs.FunctionRules.{statements, statements_in};
ghost use Rattle.cpc_check_rules.specs.Rules.{breadth, breadth_limit, broad_breaks, breadth_breaks};
ghost use Rattle.cpc_check_rules.specs.Noted.{noted, first_of};
ghost use Rattle.cpc_base.specs.Counts.{capped};

use crate::variables::variable_words;
use cpc_base::{Dialect, NoMemory};
use cpc_check_rules::{First, Rule};
use cpc_tree::program::{Function, Item, Mode, Statement};
use std::alloc::Global;

// How broad all cps functions of a program may be together.
const BREADTH_LIMIT: u64 = 500_000;

/// How many statements a statement is, with those in it.
#[cycle(counted)]
fn statement_count(s: &Statement) -> u64
    ensures { (names : Names) → result ≡ capped (statements (located_stmt names s.now)) }
{
    match s {
        Statement::Block { inner, .. } => row_count(inner).saturating_add(1),
        Statement::If { yes, no, .. } => {
            let inside = statement_count(yes);
            match no {
                Some(no) => inside.saturating_add(statement_count(no)).saturating_add(1),
                None => inside.saturating_add(1),
            }
        }
        Statement::While { body, .. } | Statement::DoWhile { body, .. } => {
            statement_count(body).saturating_add(1)
        }
        Statement::For {
            first,
            step,
            body,
            ..
        } => {
            let inside = row_count(first).saturating_add(statement_count(body));
            match step {
                Some(step) => inside
                    .saturating_add(statement_count(step))
                    .saturating_add(1),
                None => inside.saturating_add(1),
            }
        }
        Statement::Label { inner, .. } => statement_count(inner).saturating_add(1),
        _ => 1,
    }
}

/// How many statements a row is, with those in them.
#[cycle(counted)]
fn row_count(row: &[Statement]) -> u64
    ensures { (names : Names) → result ≡ capped (statements_in (located_list names row.now)) }
{
    let mut count = 0u64;
    for s in row {
        count = count.saturating_add(statement_count(s));
    }
    count
}

/// How broad a function is: the number of its statements times one more than the number of its variables.
/// Above `u64::MAX` it is `u64::MAX`. `NoMemory` is want of memory.
pub fn breadth(alloc: Global, function: &Function) -> Result<u64, NoMemory>
    ensures { IfOk result (λ n. (names : Names) → n ≡ capped (breadth (located_function names function.now))) }
{
    let words = variable_words(alloc, &function.parameters, &function.body)?;
    let width = (words.len() as u64).saturating_add(1);
    Ok(statement_count(&function.body).saturating_mul(width))
}

/// The breadth of all items up to one of them, where `before` is that of those before it. Where it exceeds the limit, the
/// rule is noted at the item. `NoMemory` is want of memory.
fn add_breadth(alloc: Global, first: &mut First, before: u64, item: &Item) -> Result<u64, NoMemory>
    requires { before ≤ breadth_limit }
    ensures { IfOk result (λ n. (names : Names) (rest : List LItem) → noted (first_of first.old) (broad_breaks before (located_item names item.now ∷ rest))
        ≡ (if nat_lt breadth_limit n then first_of first.new else noted (first_of first.new) (broad_breaks n rest))) }
{
    match item {
        Item::Function(function) => match function.mode {
            Mode::Cps => {
                let all = before.saturating_add(breadth(alloc, function)?);
                first.note_if(all > BREADTH_LIMIT, function.word.place, Rule::TooBroad);
                Ok(all)
            }
            _ => Ok(before),
        },
        _ => Ok(before),
    }
}

/// Notes the first cps function at which the breadth of all cps functions so far exceeds the limit, in the dialect that has
/// threads. `NoMemory` is want of memory.
pub fn breadth_rules(
    alloc: Global,
    first: &mut First,
    dialect: Dialect,
    items: &[Item],
) -> Result<(), NoMemory>
    ensures { OnOk result ((names : Names) → first_of first.new ≡ noted (first_of first.old) (breadth_breaks dialect (map (located_item names) items.now))) }
{
    match dialect {
        Dialect::Event => Ok(()),
        Dialect::Cpc => broad_rules(alloc, first, items),
    }
}

/// The same, of a program with threads.
fn broad_rules(alloc: Global, first: &mut First, items: &[Item]) -> Result<(), NoMemory>
    ensures { OnOk result ((names : Names) → first_of first.new ≡ noted (first_of first.old) (broad_breaks 0 (map (located_item names) items.now))) }
{
    let mut all = 0;
    for item in items {
        all = add_breadth(alloc, first, all, item)?;
        if all > BREADTH_LIMIT {
            return Ok(());
        }
    }
    Ok(())
}
