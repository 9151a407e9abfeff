//! Whether a program breaks a rule, and the first that it breaks.
ghost use Rattle.std.specs.Prelude.{◌≡◌, [], IfOk, IfErr, OnOk, Err, None, map};
ghost use Rattle.cpc_base.specs.Texts.{AreDistinct};
ghost use Rattle.cpc_base.specs.declared.stop.Stop.TheVariants.{Fault};
ghost use Rattle.cpc_tree.specs.Erase.{Names as Spelling, item_of};
ghost use Rattle.cpc_tree.specs.Locate.{located, located_item};
ghost use Rattle.cpc_check_rules.specs.Apart.{Spells};
ghost use Rattle.cpc_check_rules.specs.Noted.{noted, first_of};
ghost use Rattle.cpc_check_rules.specs.Rule.{IsFirst};
ghost use Rattle.cpc_check_rules.specs.ItemRules as R;
ghost use Rattle.cpc_check_rules.specs.Rules.{breaks};
ghost use Rattle.cpc_types_structs.specs.Declares.{AreAllDeclared};
ghost use Rattle.cpc_check.specs.Accepted.{IsRead, IsWithin};

use crate::checked::Checked;
use crate::ground::Ground;
use crate::items::item_rules;
use cpc_base::{Dialect, Name, Names, NoMemory, Stop};
use cpc_check_items::Earlier;
use cpc_check_names::{breadth_rules, main_rules};
use cpc_check_rules::{Breach, First};
use cpc_eval_index::ProgramTable;
use cpc_tree::program::Program;
use cpc_types::Scope;
use cpc_types_structs::Declared;
use std::alloc::Global;

// Notes what the items of a program break, and gives what they declare. `NoMemory` is want of memory.
fn note_items(
    alloc: Global,
    first: &mut First,
    program: &Program,
    dialect: Dialect,
) -> Result<Declared, NoMemory>
    ensures declared { IfOk result (λ declared. AreAllDeclared program.now.items.items declared) }
    ensures noted { OnOk result ((names : Spelling) → Spells program.now.names names
        → first_of first.new ≡ noted (first_of first.old) (R.items_breaks dialect (map (item_of names) program.now.items.items) [] (map (located_item names) program.now.items.items))) }
{
    let mut scope = Scope::of(alloc, program)?;
    let mut earlier = Earlier::new(alloc);
    for (i, item) in program.items.iter().enumerate() {
        let ground = Ground {
            dialect,
            names: &program.names,
        };
        let count = i as u64;
        scope.enter_items(count);
        item_rules(alloc, first, item, count, &mut scope, &earlier, &ground)?;
        earlier.add(item)?;
    }
    Ok(scope.into_declared())
}

/// The first of the rules that a program breaks, and what its items declare. `NoMemory` is want of memory.
pub(crate) fn first_broken(
    alloc: Global,
    program: &Program,
    dialect: Dialect,
) -> Result<(First, Declared), NoMemory>
    ensures declared { IfOk result (λ found. AreAllDeclared program.now.items.items found.1) }
    ensures noted { IfOk result (λ found. (names : Spelling) → Spells program.now.names names → first_of found.0 ≡ noted None (breaks dialect (record { items = map (located_item names) program.now.items.items; end = program.now.end }))) }
{
    let mut first = First::new();
    let declared = note_items(alloc, &mut first, program, dialect)?;
    main_rules(&mut first, &program.names, &program.items, program.end);
    breadth_rules(alloc, &mut first, dialect, &program.items)?;
    Ok((first, declared))
}

/// The texts of a table differ, as each look-up tells.
pub fn are_distinct(names: &Names)
    ensures { AreDistinct names.now }
{
    let _ = names.text(Name(0));
}

/// A program that breaks no rule of its dialect, unchanged.
///
/// # Errors
///
/// The program is handed back, with `Stop::Fault` for the first rule that it breaks, by place and at one place by the
/// rules' numbers, or with `Stop::Memory` for want of memory.
pub fn check(
    alloc: Global,
    program: Program,
    dialect: Dialect,
) -> Result<Checked, (Program, Stop<Breach>)>
    requires read { IsRead dialect (located program) }
    requires within { IsWithin program }
    ensures accepted { IfOk result (λ c. (c.program ≡ program) × (c.dialect ≡ dialect) × (breaks dialect (located program) ≡ [])) }
    ensures back { IfErr result (λ e. e.0 ≡ program) }
    ensures refused { (p : _) (breach : _) → result ≡ Err (p, Fault breach) → IsFirst (breaks dialect (located program)) breach.place breach.rule }
{
    are_distinct(&program.names);
    let (first, declared) = match first_broken(alloc, &program, dialect) {
        Ok(found) => found,
        Err(NoMemory) => return Err((program, Stop::Memory)),
    };
    if let Some(breach) = first.breach {
        return Err((program, Stop::Fault(breach)));
    }
    match ProgramTable::of(alloc, &program, declared) {
        Ok(table) => Ok(Checked {
            program,
            dialect,
            table,
        }),
        Err(NoMemory) => Err((program, Stop::Memory)),
    }
}
